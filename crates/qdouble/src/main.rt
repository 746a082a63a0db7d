//! The program `qdouble`: its words, standard input and standard output are handed to `qd_engine::run`, and the
//! process ends with the status of the answer.
#![tactic(auto)]

mod words;

use qd_engine::run;
use qd_io::{StdSink, StdSource};
use std::process::ExitCode;

/// The status where the words can't be made for want of memory.
const NO_MEMORY: u8 = 14;

fn main(rt: HostRuntime) -> ExitCode {
    let Ok(words) = words::words(&rt, rt.alloc()) else {
        return ExitCode::from(NO_MEMORY);
    };
    let mut source = StdSource::new(rt.stdin());
    let mut sink = StdSink::new(rt.stdout());
    let answer = run(rt.alloc(), &words, &mut source, &mut sink);
    ExitCode::from(answer.status)
}
