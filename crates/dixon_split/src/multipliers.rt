//! The numbers by which the elements of the basis multiply the pieces.

ghost use Rattle.std.specs.Prelude.{◌≡◌, ℕ, ◌*◌, ◌%◌, ◌<◌, ◌==◌, true, Some, None, if◌then◌else◌, All, map, length, slice_index, IfOk};
ghost use Rattle.scan.specs.First.{first};
ghost use Rattle.algebra.specs.Structures.{CommRing};
ghost use Rattle.prime_field.specs.Moduli.{is_modulus};
ghost use Rattle.splitting_theory.specs.Splitting.{number, Acts};
ghost use Rattle.dixon_split.specs.Elements.{Element, IsElement};
ghost use Rattle.dixon_split.specs.Structures.{residues, HasStructure};
ghost use Rattle.dixon_split.specs.Values.{AreValues};

use crate::arithmetic::is_product;
use crate::images::image_at;
use crate::structure::Structure;
use group_table::{Memory, Nats};
use scan::first_below;
use std::alloc::Global;

// The first place at which the element isn't 0.
fn first_place(algebra: &Structure, e: &[u32]) -> Option<u32>
    requires element { IsElement algebra.now.q algebra.now.rank e.now }
    ensures first { result ≡ first algebra.now.rank
        (λ k. if slice_index e.now k == 0 then None else Some k) }
{
    first_below(algebra.rank, |k| {
        if e[k as usize] == 0 { None } else { Some(k) }
    })
}

// The least number whose product with `factor` is `product` modulo `q`, or 0.
fn quotient(q: u32, product: u32, factor: u32) -> u32
    requires modulus { is_modulus q ≡ true }
    requires factor_below { factor < q }
    ensures below { result < q }
    ensures quotient { (v : ℕ) → v < q → product ≡ (v * factor) % q → product
        ≡ (result * factor) % q }
{
    let least = first_below(q, |v| {
        if is_product(q, product, v, factor) {
            Some(v)
        } else {
            None
        }
    });
    least.unwrap_or(0)
}

// The number by which the `t`-th element of the basis multiplies the element, if it does so by one: a place at which the element isn't
// 0 tells it.
fn value_of(algebra: &Structure, t: u32, e: &[u32]) -> u32
    requires t_below { t < algebra.now.rank }
    requires element { IsElement algebra.now.q algebra.now.rank e.now }
    ensures below { result < algebra.now.q }
    ensures acts { (Z : CommRing (Element algebra.now.q algebra.now.rank))
        (H : HasStructure algebra.now Z)
        → Acts Z algebra.now.q (H.basis t) (residues algebra.now e.now) → Z.mul (H.basis t)
        (residues algebra.now e.now) ≡ Z.mul (number Z result) (residues algebra.now e.now) }
{
    match first_place(algebra, e) {
        Some(k) => quotient(algebra.q, image_at(algebra, t, e, k), e[k as usize]),
        None => 0,
    }
}

// The numbers by which the basis multiplies the pieces, those of each piece one after another.
pub(crate) fn values(
    alloc: Global,
    algebra: &Structure,
    pieces: &[Vec<u32>],
) -> Result<Nats, Memory>
    requires count { length pieces.now ≡ algebra.now.rank }
    requires elements { All (λ piece.
        IsElement algebra.now.q algebra.now.rank piece.items) pieces.now }
    ensures values { IfOk result (AreValues algebra.now
        (map (λ piece. piece.items) pieces.now) (algebra.now.rank * algebra.now.rank)) }
{
    let rank = algebra.rank;
    let mut values = Nats::empty(alloc);
    for n in 0..rank * rank {
        let piece = pieces[(n / rank) as usize].as_slice();
        let value = value_of(algebra, n % rank, piece);
        values.push(value)?;
    }
    Ok(values)
}
