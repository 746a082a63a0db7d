//! The parts of an idempotent at the residues.

ghost use Rattle.std.specs.Prelude.{◌≡◌, ◌≢◌, ℕ, suc, ◌+◌, ◌*◌, ◌<◌, ◌≤◌, ◌==◌, ◌++◌, true, List, Some, None, if◌then◌else◌, All, map, length, slice_index, IfOk, OnOk, OnErr};
ghost use Rattle.scan.specs.First.{all_below, first};
ghost use Rattle.algebra.specs.Structures.{CommRing};
ghost use Rattle.prime_field.specs.Moduli.{is_modulus};
ghost use Rattle.prime_field.specs.ResidueLists.{AreBelow, IsTabulated};
ghost use Rattle.splitting_theory.specs.Splitting.{IsFixed, ZeroTest, part, parts_below};
ghost use Rattle.dixon_split.specs.Elements.{Element, IsElement};
ghost use Rattle.dixon_split.specs.Structures.{residues, HasStructure};
ghost use Rattle.dixon_split.specs.Layers.{ArePowers, horner_value, part_value};

use crate::arithmetic::{minus, plus_product, tabulate};
use crate::images::image;
use crate::structure::Structure;
use group_table::Memory;
use scan::holds_below;
use std::alloc::Global;

// The element times 1, k, k^2, .., k^(q-1), one after another, for the `t`-th element k of the basis.
fn powers(alloc: Global, algebra: &Structure, t: u32, e: &[u32]) -> Result<Vec<u32>, Memory>
    requires t_below { t < algebra.now.rank }
    requires element { IsElement algebra.now.q algebra.now.rank e.now }
    ensures powers { IfOk result (λ powers.
        ArePowers algebra.now t e.now algebra.now.q powers.items) }
{
    let mut powers = Vec::new(alloc);
    let mut power = Vec::from_slice(alloc, e)?;
    for _j in 0..algebra.q {
        powers.extend_from_slice(power.as_slice())?;
        power = image(alloc, algebra, t, power.as_slice())?;
    }
    Ok(powers)
}

// The `k`-th number of the part at `v`.
fn part_at(algebra: &Structure, powers: &[u32], v: u32, k: u32) -> u32
    requires count { length powers.now ≡ algebra.now.q * algebra.now.rank }
    requires below { AreBelow algebra.now.q powers.now }
    requires v_below { v < algebra.now.q }
    requires k_below { k < algebra.now.rank }
    ensures value { result ≡ part_value algebra.now powers.now v k }
    ensures below { result < algebra.now.q }
{
    let mut sum = 0;
    for j in 0..algebra.q {
        let place = j * algebra.rank + k;
        sum = plus_product(algebra.q, powers[place as usize], v, sum);
    }
    minus(algebra.q, powers[k as usize], sum)
}

// The numbers of the part at `v`.
fn part_numbers(
    alloc: Global,
    algebra: &Structure,
    powers: &[u32],
    v: u32,
) -> Result<Vec<u32>, Memory>
    requires count { length powers.now ≡ algebra.now.q * algebra.now.rank }
    requires below { AreBelow algebra.now.q powers.now }
    requires v_below { v < algebra.now.q }
    ensures values { IfOk result (λ part.
        IsTabulated algebra.now.rank (part_value algebra.now powers.now v) part.items) }
{
    tabulate(alloc, algebra.rank, |k| part_at(algebra, powers, v, k))
}

// The part at `v` of the element whose powers these are.
fn part(alloc: Global, algebra: &Structure, powers: &[u32], v: u32) -> Result<Vec<u32>, Memory>
    requires count { length powers.now ≡ algebra.now.q * algebra.now.rank }
    requires below { AreBelow algebra.now.q powers.now }
    requires v_below { v < algebra.now.q }
    ensures element { IfOk result (λ part. IsElement algebra.now.q algebra.now.rank part.items) }
    ensures part { (Z : CommRing (Element algebra.now.q algebra.now.rank))
        (H : HasStructure algebra.now Z) (t : ℕ) (e : List ℕ)
        → ArePowers algebra.now t e algebra.now.q powers.now
        → IfOk result (λ numbers. residues algebra.now numbers.items
        ≡ part Z algebra.now.q (H.basis t) (residues algebra.now e) v) }
{
    let part = part_numbers(alloc, algebra, powers, v)?;
    Ok(part)
}

// Whether each number is 0.
fn is_zero(rank: u32, numbers: &[u32]) -> bool
    requires count { length numbers.now ≡ rank }
    ensures zero { result ≡ all_below rank (λ k. slice_index numbers.now k == 0) }
{
    holds_below(rank, |k| numbers[k as usize] == 0)
}

// Adds the part at `v`, if it isn't nought.
fn push_part(
    alloc: Global,
    algebra: &Structure,
    pieces: &mut Vec<Vec<u32>>,
    powers: &[u32],
    v: u32,
) -> Result<(), Memory>
    requires count { length powers.now ≡ algebra.now.q * algebra.now.rank }
    requires below { AreBelow algebra.now.q powers.now }
    requires v_below { v < algebra.now.q }
    requires elements { All (λ piece.
        IsElement algebra.now.q algebra.now.rank piece.items) pieces.old.items }
    ensures elements { OnOk result (All (λ piece.
        IsElement algebra.now.q algebra.now.rank piece.items) pieces.new.items) }
    ensures part { (Z : CommRing (Element algebra.now.q algebra.now.rank))
        (T : ZeroTest Z) (H : HasStructure algebra.now Z)
        (t : ℕ) (e : List ℕ) (before : List (Element algebra.now.q algebra.now.rank))
        → ArePowers algebra.now t e algebra.now.q powers.now
        → map (λ piece. residues algebra.now piece.items) pieces.old.items
        ≡ before ++ parts_below Z T algebra.now.q (H.basis t) (residues algebra.now e) v
        → OnOk result (map (λ piece. residues algebra.now piece.items) pieces.new.items
        ≡ before ++ parts_below Z T algebra.now.q (H.basis t) (residues algebra.now e) (suc v)) }
{
    let part = part(alloc, algebra, powers, v)?;
    if is_zero(algebra.rank, part.as_slice()) {
        return Ok(());
    }
    pieces.push(part)?;
    Ok(())
}

// Adds the parts that aren't nought, ascending.
pub(crate) fn push_all_parts(
    alloc: Global,
    algebra: &Structure,
    pieces: &mut Vec<Vec<u32>>,
    t: u32,
    e: &[u32],
) -> Result<(), Memory>
    requires t_below { t < algebra.now.rank }
    requires element { IsElement algebra.now.q algebra.now.rank e.now }
    requires elements { All (λ piece.
        IsElement algebra.now.q algebra.now.rank piece.items) pieces.old.items }
    ensures elements { OnOk result (All (λ piece.
        IsElement algebra.now.q algebra.now.rank piece.items) pieces.new.items) }
    ensures parts { (Z : CommRing (Element algebra.now.q algebra.now.rank))
        (T : ZeroTest Z) (H : HasStructure algebra.now Z)
        → OnOk result (map (λ piece. residues algebra.now piece.items) pieces.new.items
        ≡ map (λ piece. residues algebra.now piece.items) pieces.old.items
        ++ parts_below Z T algebra.now.q (H.basis t) (residues algebra.now e.now) algebra.now.q) }
{
    let powers = powers(alloc, algebra, t, e)?;
    for v in 0..algebra.q {
        push_part(alloc, algebra, pieces, powers.as_slice(), v)?;
    }
    Ok(())
}
