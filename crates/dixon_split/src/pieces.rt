//! The pieces of an idempotent under an element of the basis.

ghost use Rattle.std.specs.Prelude.{◌≡◌, ◌≢◌, ℕ, ◌*◌, ◌/◌, ◌%◌, ◌<◌, ◌≤◌, ◌==◌, ◌++◌, length, flat_map, slice_index_or, Some, None, if◌then◌else◌, All, map, slice_index, IfOk, IfSome, IfNone, OnOk};
ghost use Rattle.scan.specs.First.{all_below, first};
ghost use Rattle.algebra.specs.Structures.{CommRing};
ghost use Rattle.prime_field.specs.ResidueLists.{IsTabulated};
ghost use Rattle.splitting_theory.specs.Splitting.{IsFixed, ZeroTest, number, Acts, parts_below, pieces};
ghost use Rattle.dixon_split.specs.Elements.{Element, IsElement};
ghost use Rattle.dixon_split.specs.Structures.{residues, HasStructure};
ghost use Rattle.dixon_split.specs.Values.{AreValues};

use crate::arithmetic::tabulate;
use crate::images::{image, is_multiple};
use crate::parts::push_all_parts;
use crate::structure::Structure;
use group_table::{Memory, Nats};
use scan::first_below;
use std::alloc::Global;

// The least number whose multiple of the second numbers the first are.
fn multiple_of(algebra: &Structure, image: &[u32], e: &[u32]) -> Option<u32>
    requires image { IsElement algebra.now.q algebra.now.rank image.now }
    requires element { IsElement algebra.now.q algebra.now.rank e.now }
    ensures least { result ≡ first algebra.now.q
        (λ v. if all_below algebra.now.rank (λ k. slice_index image.now k ==
        (v * slice_index e.now k) % algebra.now.q) then Some v else None) }
{
    first_below(algebra.q, |v| {
        if is_multiple(algebra.q, algebra.rank, image, v, e) {
            Some(v)
        } else {
            None
        }
    })
}

// The number by which the `t`-th element of the basis multiplies the element, if it does so by one.
fn multiplier(alloc: Global, algebra: &Structure, t: u32, e: &[u32]) -> Result<Option<u32>, Memory>
    requires t_below { t < algebra.now.rank }
    requires element { IsElement algebra.now.q algebra.now.rank e.now }
    ensures below { IfOk result (λ found. IfSome found (λ v. v < algebra.now.q)) }
    ensures acts { (Z : CommRing (Element algebra.now.q algebra.now.rank))
        (H : HasStructure algebra.now Z)
        → IfOk result (λ found. IfSome found (λ v. Z.mul (H.basis t) (residues algebra.now e.now)
        ≡ Z.mul (number Z v) (residues algebra.now e.now))) }
    ensures none { (Z : CommRing (Element algebra.now.q algebra.now.rank))
        (H : HasStructure algebra.now Z) → IfOk result (λ found.
        IfNone found (Acts Z algebra.now.q (H.basis t) (residues algebra.now e.now) → ⊥)) }
{
    let image = image(alloc, algebra, t, e)?;
    Ok(multiple_of(algebra, image.as_slice(), e))
}

// Adds the parts of the element that aren't nought, ascending: where it is multiplied by one number, it is its only part.
fn push_parts(
    alloc: Global,
    algebra: &Structure,
    pieces: &mut Vec<Vec<u32>>,
    t: u32,
    e: &[u32],
) -> Result<(), Memory>
    requires t_below { t < algebra.now.rank }
    requires element { IsElement algebra.now.q algebra.now.rank e.now }
    requires elements { All (λ piece.
        IsElement algebra.now.q algebra.now.rank piece.items) pieces.old.items }
    ensures elements { OnOk result (All (λ piece.
        IsElement algebra.now.q algebra.now.rank piece.items) pieces.new.items) }
    ensures parts { (Z : CommRing (Element algebra.now.q algebra.now.rank))
        (T : ZeroTest Z) (H : HasStructure algebra.now Z)
        → IsFixed Z algebra.now.q → residues algebra.now e.now ≢ Z.nought
        → Z.mul (residues algebra.now e.now) (residues algebra.now e.now)
        ≡ residues algebra.now e.now
        → OnOk result (map (λ piece. residues algebra.now piece.items) pieces.new.items
        ≡ map (λ piece. residues algebra.now piece.items) pieces.old.items
        ++ parts_below Z T algebra.now.q (H.basis t) (residues algebra.now e.now) algebra.now.q) }
{
    match multiplier(alloc, algebra, t, e)? {
        Some(_v) => {
            let piece = Vec::from_slice(alloc, e)?;
            pieces.push(piece)?;
            Ok(())
        }
        None => push_all_parts(alloc, algebra, pieces, t, e),
    }
}

// The parts of each piece that aren't nought, under the `t`-th element of the basis.
fn refined(
    alloc: Global,
    algebra: &Structure,
    t: u32,
    pieces: &[Vec<u32>],
) -> Result<Vec<Vec<u32>>, Memory>
    requires t_below { t < algebra.now.rank }
    requires elements { All (λ piece.
        IsElement algebra.now.q algebra.now.rank piece.items) pieces.now }
    ensures elements { IfOk result (λ next.
        All (λ piece. IsElement algebra.now.q algebra.now.rank piece.items) next.items) }
    ensures parts { (Z : CommRing (Element algebra.now.q algebra.now.rank))
        (T : ZeroTest Z) (H : HasStructure algebra.now Z)
        → IsFixed Z algebra.now.q
        → All (λ piece. (residues algebra.now piece.items ≢ Z.nought)
        × (Z.mul (residues algebra.now piece.items) (residues algebra.now piece.items)
        ≡ residues algebra.now piece.items)) pieces.now
        → IfOk result (λ next. map (λ piece. residues algebra.now piece.items) next.items
        ≡ flat_map (λ e. parts_below Z T algebra.now.q (H.basis t) e algebra.now.q)
        (map (λ piece. residues algebra.now piece.items) pieces.now)) }
{
    let mut next = Vec::new(alloc);
    for piece in pieces {
        push_parts(alloc, algebra, &mut next, t, piece.as_slice())?;
    }
    Ok(next)
}

// The numbers of the first element of the basis.
fn first_element(alloc: Global, algebra: &Structure) -> Result<Vec<u32>, Memory>
    ensures values { IfOk result (λ e.
        IsTabulated algebra.now.rank (λ k. if k == 0 then 1 else 0) e.items) }
{
    tabulate(alloc, algebra.rank, |k| u32::from(k == 0))
}

// The pieces of one under the whole basis, in the order of the numbers by which it multiplies them.
pub(crate) fn all_pieces(alloc: Global, algebra: &Structure) -> Result<Vec<Vec<u32>>, Memory>
    ensures elements { IfOk result (λ pieces.
        All (λ piece. IsElement algebra.now.q algebra.now.rank piece.items) pieces.items) }
    ensures pieces { (Z : CommRing (Element algebra.now.q algebra.now.rank))
        (T : ZeroTest Z) (H : HasStructure algebra.now Z)
        → IsFixed Z algebra.now.q
        → IfOk result (λ found. map (λ piece. residues algebra.now piece.items) found.items
        ≡ pieces Z T algebra.now.q H.basis algebra.now.rank) }
{
    let first = first_element(alloc, algebra)?;
    let mut found = Vec::new(alloc);
    found.push(first)?;
    for t in 0..algebra.rank {
        found = refined(alloc, algebra, t, found.as_slice())?;
    }
    Ok(found)
}
