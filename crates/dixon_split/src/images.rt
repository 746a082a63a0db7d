//! Products with an element of the basis of an algebra.

ghost use Rattle.std.specs.Prelude.{◌≡◌, ℕ, ◌+◌, ◌*◌, ◌%◌, ◌<◌, ◌==◌, nat_eq, true, slice_index, IfOk};
ghost use Rattle.scan.specs.First.{all_below};
ghost use Rattle.algebra.specs.Structures.{CommRing};
ghost use Rattle.prime_field.specs.Moduli.{is_modulus};
ghost use Rattle.prime_field.specs.ResidueLists.{IsTabulated};
ghost use Rattle.dixon_split.specs.Elements.{Element, element_of, IsElement};
ghost use Rattle.dixon_split.specs.Structures.{constant, image_value, residues, HasStructure};

use crate::arithmetic::{is_product, plus_product, tabulate};
use crate::structure::Structure;
use group_table::Memory;
use scan::holds_below;
use std::alloc::Global;

// The number with which the `k`-th element of the basis stands in the product of the `t`-th and the `j`-th.
fn constant(algebra: &Structure, t: u32, j: u32, k: u32) -> u32
    requires t_below { t < algebra.now.rank }
    requires j_below { j < algebra.now.rank }
    requires k_below { k < algebra.now.rank }
    ensures constant { result ≡ constant algebra.now t j k }
    ensures below { result < algebra.now.q }
{
    let constants = algebra.constants.as_slice();
    let place = (t * algebra.rank + j) * algebra.rank + k;
    constants[place as usize]
}

// The number at the `k`-th in the product of the `t`-th element of the basis and the element with these numbers.
pub(crate) fn image_at(algebra: &Structure, t: u32, e: &[u32], k: u32) -> u32
    requires t_below { t < algebra.now.rank }
    requires element { IsElement algebra.now.q algebra.now.rank e.now }
    requires k_below { k < algebra.now.rank }
    ensures value { result ≡ image_value algebra.now t e.now k }
    ensures below { result < algebra.now.q }
{
    let mut sum = 0;
    for j in 0..algebra.rank {
        let factor = constant(algebra, t, j, k);
        sum = plus_product(algebra.q, sum, e[j as usize], factor);
    }
    sum
}

// The numbers of the product of the `t`-th element of the basis and the element with these numbers.
fn image_numbers(alloc: Global, algebra: &Structure, t: u32, e: &[u32]) -> Result<Vec<u32>, Memory>
    requires t_below { t < algebra.now.rank }
    requires element { IsElement algebra.now.q algebra.now.rank e.now }
    ensures values { IfOk result (λ next.
        IsTabulated algebra.now.rank (image_value algebra.now t e.now) next.items) }
{
    tabulate(alloc, algebra.rank, |k| image_at(algebra, t, e, k))
}

// The product of the `t`-th element of the basis and the element with these numbers.
pub(crate) fn image(
    alloc: Global,
    algebra: &Structure,
    t: u32,
    e: &[u32],
) -> Result<Vec<u32>, Memory>
    requires t_below { t < algebra.now.rank }
    requires element { IsElement algebra.now.q algebra.now.rank e.now }
    ensures element { IfOk result (λ next. IsElement algebra.now.q algebra.now.rank next.items) }
    ensures image { (Z : CommRing (Element algebra.now.q algebra.now.rank))
        (H : HasStructure algebra.now Z) → IfOk result
        (λ next. residues algebra.now next.items ≡ Z.mul (H.basis t) (residues algebra.now e.now)) }
{
    let next = image_numbers(alloc, algebra, t, e)?;
    Ok(next)
}

// Whether the `k`-th of the first numbers is `v` times that of the second.
fn is_multiple_at(q: u32, rank: u32, image: &[u32], v: u32, e: &[u32], k: u32) -> bool
    requires modulus { is_modulus q ≡ true }
    requires v_below { v < q }
    requires image { IsElement q rank image.now }
    requires element { IsElement q rank e.now }
    requires k_below { k < rank }
    ensures multiple { result ≡ (slice_index image.now k == (v * slice_index e.now k) % q) }
{
    is_product(q, image[k as usize], v, e[k as usize])
}

// Whether each of the first numbers is `v` times that of the second.
pub(crate) fn is_multiple(q: u32, rank: u32, image: &[u32], v: u32, e: &[u32]) -> bool
    requires modulus { is_modulus q ≡ true }
    requires v_below { v < q }
    requires image { IsElement q rank image.now }
    requires element { IsElement q rank e.now }
    ensures multiple { result ≡ all_below rank
        (λ k. slice_index image.now k == (v * slice_index e.now k) % q) }
{
    holds_below(rank, |k| is_multiple_at(q, rank, image, v, e, k))
}
