//! Splits the untwisted group algebra of a group many times, to be timed from outside, and prints a number that depends on all
//! values of all answers. The words are the order of the group, the prime, the conductor and how many times; the entries of the
//! multiplication table stand on standard input, row after row.
#![tactic(auto)]

ghost use Rattle.std.specs.Prelude.{◌≡◌, true};
ghost use Rattle.cyclotomic.specs.Conductors.{is_conductor};
ghost use Rattle.group_table.specs.Group.{IsSmall};

use cocycle_make::trivial;
use dixon_split::{Central, split};
use group_table::{Group, Memory, Nats};
use prime_field::ModRing;
use std::alloc::Global;
use std::process::ExitCode;
use std::{env, io};
use twisted::Twist;

/// The numbers that the words of a text are, each by `number`, for at most so many words.
fn numbers(alloc: Global, text: &str, most: u32) -> Result<Nats, Memory> {
    let mut numbers = Nats::empty(alloc);
    for word in text.split_whitespace() {
        if numbers.len() < most {
            numbers.push(number(word))?;
        }
    }
    Ok(numbers)
}

/// The whole group with this table as its own centraliser at the identity, without phases.
fn twist_of(alloc: Global, order: u32, table: &Nats) -> Option<Twist> {
    if order < 1 || order > 60 || table.len() != order * order {
        return None;
    }
    let group = Group::from_table(alloc, order, table).ok()?;
    let identity = group.identity();
    let cocycle = trivial(alloc, group, 1).ok()?;
    slant::twist_at(alloc, &cocycle, identity).ok()
}

/// The number of the values of all central characters, each value with a weight of its own.
fn weighed(central: &Central, rank: u32) -> u64
    requires { rank ≡ central.now.width }
{
    let mut sum = 0u64;
    for i in 0..central.count() {
        for c in 0..rank {
            sum = sum
                .wrapping_mul(3)
                .wrapping_add(u64::from(central.value(i, c)));
        }
    }
    sum
}

/// So many splittings of the same twist; `None` where the field doesn't serve it.
fn result(alloc: Global, twist: &Twist, ring: &ModRing, count: u32) -> Option<u64> {
    let period = twist.modulus() * twist.group().exponent();
    if period < 1 || ring.conductor % period != 0 || twist.size() >= ring.q() {
        return None;
    }
    let rank = twisted::centre_rank(twist);
    let mut check = 0u64;
    for _i in 0..count {
        let central = split(alloc, twist, ring).ok()?;
        check = check.wrapping_add(weighed(&central, rank));
    }
    Some(check)
}

/// The field modulo `q` with a root for the conductor 12, 60 or 120.
#[tactic(auto, unfolding(cyclotomic::specs::Conductors::is_conductor, cyclotomic::specs::Conductors::conductors))]
fn field(q: u32, conductor: u32) -> Option<ModRing> {
    match conductor {
        12 => ModRing::new(q, 0, 12).ok(),
        60 => ModRing::new(q, 0, 60).ok(),
        120 => ModRing::new(q, 0, 120).ok(),
        _ => None,
    }
}

/// What the words order, modulus, conductor and count come to with this table; `None` where they don't fit.
fn answer(alloc: Global, words: [u32; 4], table: &Nats) -> Option<u64> {
    let [order, q, conductor, count] = words;
    let ring = field(q, conductor)?;
    let twist = twist_of(alloc, order, table)?;
    result(alloc, &twist, &ring, count)
}

/// The number that a word stands for, or 0.
fn number(word: &str) -> u32 {
    word.parse::<u32>().unwrap_or(0)
}

fn main(rt: HostRuntime) -> io::Result<ExitCode> {
    let mut words = env::args(&rt)?;
    let _name = words.next();
    let (Some(order), Some(q), Some(conductor), Some(count)) = (
        words.next(),
        words.next(),
        words.next(),
        words.next(),
    ) else {
        return Ok(ExitCode::FAILURE);
    };
    let words = [
        number(order.as_str()),
        number(q.as_str()),
        number(conductor.as_str()),
        number(count.as_str()),
    ];
    let alloc = rt.alloc();
    let text = io::read_to_string(alloc, rt.stdin())?;
    let table = numbers(alloc, text.as_str(), 3600)?;
    let Some(answer) = answer(alloc, words, &table) else {
        return Ok(ExitCode::FAILURE);
    };
    println!(rt; "{answer}")?;
    Ok(ExitCode::SUCCESS)
}
