//! Does one operation of the cyclotomic rings many times, to be timed from outside, and prints a number that depends on
//! all results. The words are an operation (`mul`, `add` or `times`), a conductor (12 or 64) and how many times.
#![tactic(auto)]

ghost use Rattle.std.specs.Prelude.{◌≡◌, true};
ghost use Rattle.cyclotomic.specs.Conductors.{is_conductor};

use qd_ring::{Cyc, Root};
use std::process::ExitCode;
use std::{env, io};

/// The sum of a few roots of unity: twelve at the most, so few coefficients are not 0.
fn operand<const K: u32>(step: u32) -> Cyc<K>
    requires { is_conductor K ≡ true }
{
    let mut sum: Cyc<K> = Cyc::one();
    for j in 1..12u32 {
        let root: Root<K> = Root::new(j.wrapping_mul(step));
        sum = sum.try_add(&Cyc::from_root(root)).unwrap_or(sum);
    }
    sum
}

/// So many products, sums or root multiples of the same two values.
fn results<const K: u32>(operation: &str, count: u32) -> i128
    requires { is_conductor K ≡ true }
{
    let a: Cyc<K> = operand(3);
    let b: Cyc<K> = operand(5);
    let mut check: i128 = 0;
    for i in 0..count {
        let result = match operation {
            "mul" => a.try_mul(&b),
            "add" => a.try_add(&b),
            _ => a.try_times(Root::new(i)),
        };
        check ^= result.map_or(0, |value| value.coefficient(1));
    }
    check
}

#[tactic(auto, unfolding(cyclotomic::specs::Conductors::is_conductor, cyclotomic::specs::Conductors::conductors))]
fn result(operation: &str, conductor: &str, count: u32) -> i128 {
    if conductor == "12" {
        results::<12>(operation, count)
    } else {
        results::<64>(operation, count)
    }
}

fn main(rt: HostRuntime) -> io::Result<ExitCode> {
    let mut words = env::args(&rt)?;
    let _name = words.next();
    let (Some(operation), Some(conductor), Some(count)) = (words.next(), words.next(), words.next())
    else {
        return Ok(ExitCode::FAILURE);
    };
    let count = count.as_str().parse::<u32>().unwrap_or(0);
    let check = result(operation.as_str(), conductor.as_str(), count);
    println!(rt; "{check}")?;
    Ok(ExitCode::SUCCESS)
}
