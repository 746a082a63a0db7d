//! The groups that formulas give, each as the table of its products.

ghost use Rattle.std.specs.Prelude.{◌≡◌, ℕ, ◌+◌, ◌*◌, ◌%◌, ◌^◌, ◌<◌, ◌≤◌, length, None, Some, IfOk, IfErr, OnOk};
ghost use Rattle.group_table.specs.Group.{IsSmall};
ghost use Rattle.group_make.specs.Formulas.{table_by, cyclic_group, dihedral_group, dicyclic_group, product_group, semidirect_group};
ghost use Rattle.group_make.specs.Refusal.{size_fault, action_fault, semidirect_fault, Refuses};

use crate::formulas::{
    cyclic_product, dicyclic_product, dihedral_product, power_modulo, semidirect_product,
    triple_product,
};
use crate::refusal::MakeRefusal;
use group_table::{Group, Nats};
use std::alloc::Global;

/// This order as that of a group, which is from 1 to 60.
fn small_order(order: u128) -> Result<u32, MakeRefusal>
    ensures small { IfOk result (λ small. (size_fault order ≡ None)
        × (small ≡ order) × IsSmall order) }
    ensures refused { IfErr result (λ refusal. size_fault order ≡ Some refusal) }
{
    if 1 <= order && order <= 60 {
        Ok(order as u32)
    } else {
        Err(MakeRefusal::Size { order })
    }
}

/// The cyclic group of order `n`: addition modulo `n`. It is refused exactly where its order is not from 1 to 60.
pub fn cyclic(alloc: Global, n: u32) -> Result<Group, MakeRefusal>
    ensures made { IfOk result (λ group. (size_fault n ≡ None) × (group ≡ cyclic_group n)) }
    ensures refused { IfErr result (λ refusal. Refuses refusal (size_fault n)) }
{
    let order = small_order(n as u128)?;
    let table = Nats::by_pairs(alloc, order, |g, h| cyclic_product(n, g, h))?;
    Ok(Group::from_lawful(alloc, order, table)?)
}

/// The dihedral group of order `2 n`: the pairs `(i, j)`, `i` modulo `n` and `j` modulo 2, with the numbers
/// `i + n j`, where `(i,j)(k,l)` is `(i + k, l + j)` for `j` = 0 and `(i - k, l + j)` for `j` = 1. It is refused
/// exactly where its order is not from 1 to 60.
pub fn dihedral(alloc: Global, n: u32) -> Result<Group, MakeRefusal>
    ensures made { IfOk result (λ group. (size_fault (2 * n) ≡ None) × (group ≡ dihedral_group n)) }
    ensures refused { IfErr result (λ refusal. Refuses refusal (size_fault (2 * n))) }
{
    let order = small_order(2 * n as u128)?;
    let table = Nats::by_pairs(alloc, order, |g, h| dihedral_product(n, g, h))?;
    Ok(Group::from_lawful(alloc, order, table)?)
}

/// The dicyclic group of order `4 n`: the pairs `(i, j)`, `i` modulo `2 n` and `j` modulo 2, with the numbers
/// `i + 2 n j`, where `(i,0)(k,l)` is `(i + k, l)`, `(i,1)(k,0)` is `(i - k, 1)` and `(i,1)(k,1)` is
/// `(i - k + n, 0)`. It is refused exactly where its order is not from 1 to 60.
pub fn dicyclic(alloc: Global, n: u32) -> Result<Group, MakeRefusal>
    ensures made { IfOk result (λ group. (size_fault (4 * n) ≡ None) × (group ≡ dicyclic_group n)) }
    ensures refused { IfErr result (λ refusal. Refuses refusal (size_fault (4 * n))) }
{
    let order = small_order(4 * n as u128)?;
    let table = Nats::by_pairs(alloc, order, |g, h| dicyclic_product(n, g, h))?;
    Ok(Group::from_lawful(alloc, order, table)?)
}

/// The product of the cyclic groups of orders `a`, `b` and `c`: the triples `(x, y, z)` with the numbers
/// `(x b + y) c + z`, multiplied at each place. It is refused exactly where its order is not from 1 to 60.
pub fn product(alloc: Global, a: u32, b: u32, c: u32) -> Result<Group, MakeRefusal>
    ensures made { IfOk result (λ group. (size_fault (a * b * c) ≡ None)
        × (group ≡ product_group a b c)) }
    ensures refused { IfErr result (λ refusal. Refuses refusal (size_fault (a * b * c))) }
{
    let order = small_order(a as u128 * b as u128 * c as u128)?;
    let table = Nats::by_pairs(alloc, order, |g, h| triple_product(a, b, c, g, h))?;
    Ok(Group::from_lawful(alloc, order, table)?)
}

/// The semidirect product of the cyclic groups of orders `n` and `m`: the pairs `(x, i)` with the numbers
/// `x + n i`, where `(x,i)(y,j)` is `(x + r^i y, i + j)`. It is refused with its order exactly where that is not
/// from 1 to 60, and else with the power `r^m` modulo `n` exactly where that is not 1 modulo `n`.
pub fn semidirect(alloc: Global, n: u32, m: u32, r: u32) -> Result<Group, MakeRefusal>
    ensures made { IfOk result (λ group. (semidirect_fault n m r ≡ None)
        × (group ≡ semidirect_group n m r)) }
    ensures refused { IfErr result (λ refusal. Refuses refusal (semidirect_fault n m r)) }
{
    let order = small_order(n as u128 * m as u128)?;
    check_action(n, m, r)?;
    let table = Nats::by_pairs(alloc, order, |g, h| semidirect_product(n, m, r, g, h))?;
    Ok(Group::from_lawful(alloc, order, table)?)
}

/// Whether `r^m` is 1 modulo `n`, or else what it is.
fn check_action(n: u32, m: u32, r: u32) -> Result<(), MakeRefusal>
    requires positive { 0 < n }
    requires few { n ≤ 60 }
    ensures acts { OnOk result (action_fault n m r ≡ None) }
    ensures refused { IfErr result (λ refusal. action_fault n m r ≡ Some refusal) }
{
    let power = power_modulo(n, r, m);
    if power == 1 % n {
        Ok(())
    } else {
        Err(MakeRefusal::Action { power })
    }
}
