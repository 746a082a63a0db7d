//! Normalised 3-cocycles by name: groups and cocycles that formulas give, each by its family and its numbers, and samples that are
//! gauged by pseudo-random numbers.
#![tactic(auto)]

ghost use Rattle.named_cocycles.specs.Laws.{MadeIsCocycle, SampleIsCocycle};

mod maker;
mod making;
mod reflections;
mod samples;

pub use group_make::MakeRefusal;
pub use group_table::Memory;
pub use maker::Maker;
pub use making::make;
pub use samples::{sample, sample_modulus};

/// Where the numbers of a maker are not refused, it names a normalised 3-cocycle; and each sample is one.
pub fn named_laws()
    ensures made { MadeIsCocycle }
    ensures sample { SampleIsCocycle }
{}
