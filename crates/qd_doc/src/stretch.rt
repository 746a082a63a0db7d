//! Where a stretch of a list ends.

ghost use Rattle.std.specs.Prelude.{◌≡◌, ◌<◌, ◌+◌, ◌≤◌, ◌^◌, IfOk, OnOk, length, drop, slice_index};
ghost use Rattle.qd_doc.specs.Stretches.{first_start, AreInOrder, item_stretch};

use group_table::Memory;

/// The place of an item after so many others; want of memory where there are too many for 32 bits.
pub fn next_place(len: usize) -> Result<u32, Memory>
    ensures place { IfOk result (λ place. place ≡ len) }
    ensures room { OnOk result (len + 1 < 2 ^ 32) }
{
    match u32::try_from(len) {
        Ok(place) if place < u32::MAX => Ok(place),
        _ => Err(Memory),
    }
}

/// Where stretch `i` ends: where the next one starts, or at the end of all.
fn end_of(starts: &[u32], i: u32, all: usize) -> usize
    requires listed { i < length starts.now }
    ensures end { result ≡ first_start (λ start. start) (drop (i + 1) starts.now) all }
{
    match starts.get(i as usize + 1) {
        Some(next) => *next as usize,
        None => all,
    }
}

/// Where stretch `i` starts and ends.
#[tactic(auto, using(crate::proofs::StretchLaws::stretch_inside))]
pub fn range_of(starts: &[u32], i: u32, all: usize) -> (usize, usize)
    requires order { AreInOrder (λ start. start) starts.now all }
    requires listed { i < length starts.now }
    ensures start { result.0 ≡ slice_index starts.now i }
    ensures end { result.1 ≡ first_start (λ start. start) (drop (i + 1) starts.now) all }
    ensures inside { (result.0 ≤ result.1) × (result.1 ≤ all) }
{
    (starts[i as usize] as usize, end_of(starts, i, all))
}

/// The items of stretch `i`.
pub fn stretch<'a, T>(starts: &[u32], items: &'a [T], i: u32) -> &'a [T]
    requires order { AreInOrder (λ start. start) starts.now (length items.now) }
    requires listed { i < length starts.now }
    ensures items { result.now ≡ item_stretch starts.now items.now i }
{
    let (start, end) = range_of(starts, i, items.len());
    &items[start..end]
}
