//! Samples: cocycles that are gauged by pseudo-random numbers.

ghost use Rattle.std.specs.Prelude.{◌≡◌, ◌/◌, ◌%◌, ◌^◌, ◌<◌, IfOk, IfErr, None, if◌then◌else◌};
ghost use Rattle.group_make.specs.Refusal.{Refuses};
ghost use Rattle.named_cocycles.specs.Samples.{sample_base, sample_modulus, next_number, has_identity, gauge_numbers, sample_cocycle};

use crate::making::plain_dicyclic;
use crate::reflections::reflections;
use cochain::{Cocycle, GaugeRefusal};
use cocycle_make::{type_three, type_two};
use group_make::MakeRefusal;
use group_table::{Group, Memory, Nats};
use std::alloc::Global;

/// The cocycle that sample `s` gauges.
fn named_base(alloc: Global, s: u32) -> Result<Cocycle, MakeRefusal>
    ensures made { IfOk result (λ w. w ≡ sample_base s) }
    ensures refused { IfErr result (λ refusal. Refuses refusal None) }
{
    match s % 4 {
        0 => type_three(alloc, 2, 2, 2, 1),
        1 => reflections(alloc, 3),
        2 => plain_dicyclic(alloc, 2, 2),
        _ => type_two(alloc, 4, 2, 1),
    }
}

/// The same, where only memory can be wanting.
fn sample_base(alloc: Global, s: u32) -> Result<Cocycle, Memory>
    ensures made { IfOk result (λ w. w ≡ sample_base s) }
{
    match named_base(alloc, s) {
        Ok(w) => Ok(w),
        Err(MakeRefusal::Memory) => Err(Memory),
        Err(_) => unreachable!(),
    }
}

/// The modulus of the rows of sample `s`.
pub fn sample_modulus(s: u32) -> u32
    ensures modulus { result ≡ sample_modulus s }
{
    if s % 4 < 2 { 13 } else { 17 }
}

/// One step of the linear congruential generator.
fn next_number(v: u32) -> u32
    requires below { v < 2 ^ 31 }
    ensures next { result ≡ next_number v }
    ensures next_below { result < 2 ^ 31 }
{
    ((v as u64 * 1_103_515_245 + 12_345) % 2_147_483_648) as u32
}

/// Whether the pair of elements at place `i` has the identity.
fn has_identity(group: &Group, i: u32) -> bool
    ensures identity { result ≡ has_identity group.now i }
{
    let n = group.order();
    let e = group.identity();
    i / n == e || i % n == e
}

/// The number after a pair that the number `v` comes before: the next one, but at a pair with the identity the same.
fn number_after(at_identity: bool, v: u32) -> u32
    requires below { v < 2 ^ 31 }
    ensures number { result ≡ (if at_identity then v else next_number v) }
    ensures number_below { result < 2 ^ 31 }
{
    if at_identity { v } else { next_number(v) }
}

/// The exponent of the 2-cochain at a pair that leaves the generator at `v`.
fn gauge_number(at_identity: bool, v: u32, roots: u32) -> u32
    requires some { 0 < roots }
    ensures exponent { result ≡ (if at_identity then 0 else v / 65536 % roots) }
{
    if at_identity { 0 } else { v / 65_536 % roots }
}

/// The exponents of the 2-cochain of sample `s`, by the pairs of elements, row after row.
fn gauge_numbers(alloc: Global, w: &Cocycle, s: u32) -> Result<Nats, Memory>
    ensures numbers { IfOk result (λ numbers. numbers ≡ gauge_numbers w.now s) }
{
    let n = w.group().order();
    let roots = w.roots();
    let mut numbers = Nats::empty(alloc);
    let mut v = s % 2_147_483_648;
    for i in 0..n * n {
        let at_identity = has_identity(w.group(), i);
        v = number_after(at_identity, v);
        numbers.push(gauge_number(at_identity, v, roots))?;
    }
    Ok(numbers)
}

/// Sample `s`: a cocycle of order 6 or 8, by `s` modulo 4, gauged by the numbers of a linear congruential generator that `s`
/// starts.
pub fn sample(alloc: Global, s: u32) -> Result<Cocycle, Memory>
    ensures made { IfOk result (λ w. w ≡ sample_cocycle s) }
{
    let base = sample_base(alloc, s)?;
    let numbers = gauge_numbers(alloc, &base, s)?;
    match base.gauge(alloc, &numbers) {
        Ok(w) => Ok(w),
        Err(GaugeRefusal::Memory) => Err(Memory),
        Err(GaugeRefusal::NotNormal { .. }) => unreachable!(),
    }
}
