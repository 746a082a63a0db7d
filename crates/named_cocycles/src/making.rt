//! The cocycle that a maker names.

ghost use Rattle.std.specs.Prelude.{◌≡◌, ◌*◌, None, IfOk, IfErr};
ghost use Rattle.group_make.specs.Formulas.{product_group, dihedral_group, dicyclic_group, semidirect_group};
ghost use Rattle.group_make.specs.Refusal.{size_fault, semidirect_fault, Refuses};
ghost use Rattle.cochain.specs.Cochain.{IsRoots};
ghost use Rattle.cocycle_make.specs.Cocycles.{trivial_cocycle};
ghost use Rattle.named_cocycles.specs.Makers.{made_cocycle, maker_fault, dihedral_cocycle};

use crate::maker::Maker;
use crate::reflections::reflections;
use cochain::Cocycle;
use cocycle_make::{trivial, type_one, type_three, type_two};
use group_make::{MakeRefusal, dicyclic, dihedral, product, semidirect};
use std::alloc::Global;

/// The trivial cocycle of the product of the cyclic groups of orders `a`, `b` and `c`.
fn plain_product(alloc: Global, a: u32, b: u32, c: u32) -> Result<Cocycle, MakeRefusal>
    ensures made { IfOk result (λ w. (size_fault (a * b * c) ≡ None)
        × (w ≡ trivial_cocycle (product_group a b c) 1)) }
    ensures refused { IfErr result (λ refusal. Refuses refusal (size_fault (a * b * c))) }
{
    let group = product(alloc, a, b, c)?;
    Ok(trivial(alloc, group, 1)?)
}

/// The trivial cocycle of the dihedral group of order `2 n`.
fn plain_dihedral(alloc: Global, n: u32) -> Result<Cocycle, MakeRefusal>
    ensures made { IfOk result (λ w. (size_fault (2 * n) ≡ None)
        × (w ≡ trivial_cocycle (dihedral_group n) 1)) }
    ensures refused { IfErr result (λ refusal. Refuses refusal (size_fault (2 * n))) }
{
    let group = dihedral(alloc, n)?;
    Ok(trivial(alloc, group, 1)?)
}

/// A cocycle of the dihedral group of order `2 n`: the trivial one, or that of the reflections.
fn dihedral_cocycle(alloc: Global, n: u32, twisted: bool) -> Result<Cocycle, MakeRefusal>
    ensures made { IfOk result (λ w. (size_fault (2 * n) ≡ None)
        × (w ≡ dihedral_cocycle n twisted)) }
    ensures refused { IfErr result (λ refusal. Refuses refusal (size_fault (2 * n))) }
{
    if twisted {
        reflections(alloc, n)
    } else {
        plain_dihedral(alloc, n)
    }
}

/// The trivial cocycle of the dicyclic group of order `4 n`, with values in so many roots of unity.
pub fn plain_dicyclic(alloc: Global, n: u32, roots: u32) -> Result<Cocycle, MakeRefusal>
    requires roots { IsRoots roots }
    ensures made { IfOk result (λ w. (size_fault (4 * n) ≡ None)
        × (w ≡ trivial_cocycle (dicyclic_group n) roots)) }
    ensures refused { IfErr result (λ refusal. Refuses refusal (size_fault (4 * n))) }
{
    let group = dicyclic(alloc, n)?;
    Ok(trivial(alloc, group, roots)?)
}

/// The trivial cocycle of the semidirect product of the cyclic groups of orders `n` and `m`.
fn plain_semidirect(alloc: Global, n: u32, m: u32, r: u32) -> Result<Cocycle, MakeRefusal>
    ensures made { IfOk result (λ w. (semidirect_fault n m r ≡ None)
        × (w ≡ trivial_cocycle (semidirect_group n m r) 1)) }
    ensures refused { IfErr result (λ refusal. Refuses refusal (semidirect_fault n m r)) }
{
    let group = semidirect(alloc, n, m, r)?;
    Ok(trivial(alloc, group, 1)?)
}

/// The cocycle that a maker names. It is refused with the order of its group exactly where that is not from 1 to 60, and else, of a
/// semidirect product, with the power `r^m` modulo `n` exactly where that is not 1 modulo `n`.
pub fn make(alloc: Global, maker: Maker) -> Result<Cocycle, MakeRefusal>
    ensures made { IfOk result (λ w. (maker_fault maker ≡ None) × (w ≡ made_cocycle maker)) }
    ensures refused { IfErr result (λ refusal. Refuses refusal (maker_fault maker)) }
{
    match maker {
        Maker::Cyclic { n, p } => type_one(alloc, n, p),
        Maker::Product { a, b, c } => plain_product(alloc, a, b, c),
        Maker::TypeTwo { a, b, p } => type_two(alloc, a, b, p),
        Maker::TypeThree { a, b, c, p } => type_three(alloc, a, b, c, p),
        Maker::Dihedral { n, twisted } => dihedral_cocycle(alloc, n, twisted),
        Maker::Dicyclic { n } => plain_dicyclic(alloc, n, 1),
        Maker::Semidirect { n, m, r } => plain_semidirect(alloc, n, m, r),
    }
}
