//! Reading the numbers of a table, and exponents.

ghost use Rattle.std.specs.Prelude.{◌≡◌, ℕ, ◌+◌, ◌*◌, ◌<◌, ◌≤◌, ◌^◌, List, length, vec_len, replicate, IfOk, OnOk};
ghost use Rattle.qd_text.specs.Tokens.{tokens_from};
ghost use Rattle.qd_doc.specs.Reading.{Gives, IsOffset, read_numbers, read_entry, read_entries, read_sparse, read_exponents};

use crate::kind::Kind;
use crate::refusal::DocRefusal;
use crate::steps::{listing_word, natural};
use group_table::{Memory, Nats};
use std::alloc::Global;

/// How exponents are listed.
#[derive(Clone, Copy, Debug, PartialEq, Eq)]
pub enum Listing {
    /// All are 0.
    Trivial,
    /// All are written.
    Dense,
    /// Those that aren't listed are 0.
    Sparse,
}

/// An entry of a sparse list: the place of its triple and its exponent, and the offset at which
/// reading goes on.
#[derive(Clone, Copy)]
struct Entry {
    place: u32,
    exponent: u32,
    next: u32,
}

/// So many natural numbers, and the offset after them.
pub fn numbers(
    alloc: Global,
    bytes: &Vec<u8>,
    at: u32,
    count: u32,
) -> Result<(Nats, u32), DocRefusal>
    requires offset { IsOffset bytes.now.items at }
    ensures gives { Gives (λ found. (found.0, tokens_from found.1 bytes.now.items)) result
        (read_numbers (length bytes.now.items) count (tokens_from at bytes.now.items)) }
    ensures offset { IfOk result (λ found. IsOffset bytes.now.items found.1) }
    ensures all { IfOk result (λ found. length found.0 ≡ count) }
{
    let mut numbers = Nats::empty(alloc);
    let mut next = at;
    for _ in 0..count {
        let numeral = natural(bytes, next, Kind::Any)?;
        numbers.push(numeral.value)?;
        next = numeral.next;
    }
    Ok((numbers, next))
}

/// So many zeros.
fn zeros(alloc: Global, count: u32) -> Result<Nats, Memory>
    ensures zeros { IfOk result (λ numbers. numbers ≡ replicate count 0) }
    ensures all { IfOk result (λ numbers. length numbers ≡ count) }
{
    let mut numbers = Nats::empty(alloc);
    for _ in 0..count {
        numbers.push(0)?;
    }
    Ok(numbers)
}

/// The numbers of a slice.
fn to_numbers(alloc: Global, items: &[u32]) -> Result<Nats, Memory>
    requires few { length items.now < 2 ^ 32 }
    ensures same { IfOk result (λ numbers. numbers ≡ items.now) }
{
    let mut numbers = Nats::empty(alloc);
    for item in items {
        numbers.push(*item)?;
    }
    Ok(numbers)
}

/// The place of a triple of elements.
fn triple(order: u32, x: u32, y: u32, z: u32) -> u32
    requires order { order ≤ 60 }
    requires first { x < order }
    requires second { y < order }
    requires third { z < order }
    ensures place { result ≡ (x * order + y) * order + z }
    ensures within { result < order * order * order }
{
    (x * order + y) * order + z
}

/// The next entry of a sparse list.
#[tactic(auto, unfolding(crate::specs::Reading::read_entry))]
fn next_entry(bytes: &Vec<u8>, at: u32, order: u32) -> Result<Entry, DocRefusal>
    requires offset { IsOffset bytes.now.items at }
    requires order { order ≤ 60 }
    ensures gives { Gives
        (λ entry. ((entry.place, entry.exponent), tokens_from entry.next bytes.now.items)) result
        (read_entry (length bytes.now.items) order (tokens_from at bytes.now.items)) }
    ensures offset { IfOk result (λ entry. IsOffset bytes.now.items entry.next) }
    ensures within { IfOk result (λ entry. entry.place < order * order * order) }
{
    let x = natural(bytes, at, Kind::Element { order })?;
    let y = natural(bytes, x.next, Kind::Element { order })?;
    let z = natural(bytes, y.next, Kind::Element { order })?;
    let exponent = natural(bytes, z.next, Kind::Any)?;
    Ok(Entry {
        place: triple(order, x.value, y.value, z.value),
        exponent: exponent.value,
        next: exponent.next,
    })
}

/// Puts so many entries into the exponents, and gives the offset after them.
fn entries(
    bytes: &Vec<u8>,
    at: u32,
    order: u32,
    count: u32,
    exponents: &mut Vec<u32>,
) -> Result<u32, DocRefusal>
    requires offset { IsOffset bytes.now.items at }
    requires order { order ≤ 60 }
    requires all { vec_len exponents.old ≡ order * order * order }
    ensures gives { Gives (λ next. (exponents.new.items, tokens_from next bytes.now.items)) result
        (read_entries (length bytes.now.items) order count exponents.old.items
        (tokens_from at bytes.now.items)) }
    ensures offset { IfOk result (IsOffset bytes.now.items) }
    ensures all { vec_len exponents.new ≡ order * order * order }
{
    let mut next = at;
    for _ in 0..count {
        let entry = next_entry(bytes, next, order)?;
        exponents[entry.place as usize] = entry.exponent;
        next = entry.next;
    }
    Ok(next)
}

/// The exponents of a sparse list.
#[tactic(auto, unfolding(crate::specs::Reading::read_sparse))]
fn sparse(alloc: Global, bytes: &Vec<u8>, at: u32, order: u32) -> Result<(Nats, u32), DocRefusal>
    requires offset { IsOffset bytes.now.items at }
    requires order { order ≤ 60 }
    ensures gives { Gives (λ found. (found.0, tokens_from found.1 bytes.now.items)) result
        (read_sparse (length bytes.now.items) order (tokens_from at bytes.now.items)) }
    ensures offset { IfOk result (λ found. IsOffset bytes.now.items found.1) }
    ensures all { IfOk result (λ found. length found.0 ≡ order * order * order) }
{
    let count = natural(bytes, at, Kind::Any)?;
    let mut exponents = vec![in alloc; 0; cube(order) as usize]?;
    let next = entries(bytes, count.next, order, count.value, &mut exponents)?;
    Ok((to_numbers(alloc, &exponents)?, next))
}

fn cube(order: u32) -> u32
    requires order { order ≤ 60 }
    ensures cube { result ≡ order * order * order }
    ensures small { result ≤ 216000 }
{
    order * order * order
}

/// The exponents.
#[tactic(auto, unfolding(crate::specs::Reading::read_exponents))]
pub fn exponents(
    alloc: Global,
    bytes: &Vec<u8>,
    at: u32,
    order: u32,
) -> Result<(Nats, u32), DocRefusal>
    requires offset { IsOffset bytes.now.items at }
    requires order { order ≤ 60 }
    ensures gives { Gives (λ found. (found.0, tokens_from found.1 bytes.now.items)) result
        (read_exponents (length bytes.now.items) order (tokens_from at bytes.now.items)) }
    ensures offset { IfOk result (λ found. IsOffset bytes.now.items found.1) }
    ensures all { IfOk result (λ found. length found.0 ≡ order * order * order) }
{
    let (listing, next) = listing_word(bytes, at)?;
    match listing {
        Listing::Trivial => Ok((zeros(alloc, cube(order))?, next)),
        Listing::Dense => numbers(alloc, bytes, next, cube(order)),
        Listing::Sparse => sparse(alloc, bytes, next, order),
    }
}
