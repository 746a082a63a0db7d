//! The four laws of a group over all places of a table, each with the least place at which it fails.

ghost use Rattle.std.specs.Prelude.{◌≡◌, ℕ, ◌*◌, ◌<◌, ◌≤◌, length, Some, None, IfOk, IfErr};
ghost use Rattle.group_table.specs.Group.{table_with, product, entry_fault, identity_of, is_identity, two_sided_identity, inverse_of, inverse_fault, associates, associativity_fault, associativity_fault_in, group_fault, IsGroup, ListsInverses};

use crate::Memory;
use crate::fault::GroupFault;
use crate::nats::Nats;
use scan::{first_below, holds_below};
use std::alloc::Global;

/// The product of `g` and `h`: what stands in row `g` at place `h`.
#[tactic(auto, using(crate::proofs::Square::place_below))]
pub fn product(n: u32, table: &[u32], g: u32, h: u32) -> u32
    requires square { length table.now ≡ n * n }
    requires small { n ≤ 60 }
    requires g_below { g < n }
    requires h_below { h < n }
    ensures product { result ≡ product (table_with n table.now) g h }
{
    table[(g * n + h) as usize]
}

/// The first product that is no element.
pub fn entry_fault(n: u32, table: &[u32]) -> Option<GroupFault>
    requires square { length table.now ≡ n * n }
    requires small { n ≤ 60 }
    ensures first { result ≡ entry_fault (table_with n table.now) }
{
    first_below(n, |g| {
        first_below(n, |h| {
            if product(n, table, g, h) < n {
                None
            } else {
                Some(GroupFault::Entry { g, h })
            }
        })
    })
}

/// Whether `e h = h e = h` for every `h`.
fn is_identity(n: u32, table: &[u32], e: u32) -> bool
    requires square { length table.now ≡ n * n }
    requires small { n ≤ 60 }
    requires e_below { e < n }
    ensures all { result ≡ is_identity (table_with n table.now) e }
{
    holds_below(
        n,
        |h| product(n, table, e, h) == h && product(n, table, h, e) == h,
    )
}

/// The least two-sided identity.
pub fn two_sided_identity(n: u32, table: &[u32]) -> Option<u32>
    requires square { length table.now ≡ n * n }
    requires small { n ≤ 60 }
    ensures least { result ≡ two_sided_identity (table_with n table.now) }
{
    first_below(
        n,
        |e| if is_identity(n, table, e) {
            Some(e)
        } else {
            None
        },
    )
}

/// The least right inverse of `g`, where `e` is the identity of the table.
pub fn inverse_of(n: u32, table: &[u32], e: u32, g: u32) -> Option<u32>
    requires square { length table.now ≡ n * n }
    requires small { n ≤ 60 }
    requires identity { e ≡ identity_of (table_with n table.now) }
    requires g_below { g < n }
    ensures least { result ≡ inverse_of (table_with n table.now) g }
{
    first_below(
        n,
        |h| if product(n, table, g, h) == e {
            Some(h)
        } else {
            None
        },
    )
}

/// The least element with no right inverse.
pub fn inverse_fault(n: u32, table: &[u32], e: u32) -> Option<GroupFault>
    requires square { length table.now ≡ n * n }
    requires small { n ≤ 60 }
    requires identity { e ≡ identity_of (table_with n table.now) }
    ensures first { result ≡ inverse_fault (table_with n table.now) }
{
    first_below(n, |g| {
        if inverse_of(n, table, e, g).is_some() {
            None
        } else {
            Some(GroupFault::NoInverse { g })
        }
    })
}

/// Whether `(gh)k = g(hk)`.
fn associates(n: u32, table: &[u32], g: u32, h: u32, k: u32) -> bool
    requires square { length table.now ≡ n * n }
    requires small { n ≤ 60 }
    requires entries { entry_fault (table_with n table.now) ≡ None }
    requires g_below { g < n }
    requires h_below { h < n }
    requires k_below { k < n }
    ensures both { result ≡ associates (table_with n table.now) g h k }
{
    product(n, table, product(n, table, g, h), k) == product(n, table, g, product(n, table, h, k))
}

/// The first `k` for which `(gh)k` is not `g(hk)`.
fn row_fault(n: u32, table: &[u32], g: u32, h: u32) -> Option<GroupFault>
    requires square { length table.now ≡ n * n }
    requires small { n ≤ 60 }
    requires entries { entry_fault (table_with n table.now) ≡ None }
    requires g_below { g < n }
    requires h_below { h < n }
    ensures first { result ≡ associativity_fault_in (table_with n table.now) g h }
{
    first_below(n, |k| {
        if associates(n, table, g, h, k) {
            None
        } else {
            Some(GroupFault::NotAssociative { g, h, k })
        }
    })
}

/// The first three elements that do not associate.
pub fn associativity_fault(n: u32, table: &[u32]) -> Option<GroupFault>
    requires square { length table.now ≡ n * n }
    requires small { n ≤ 60 }
    requires entries { entry_fault (table_with n table.now) ≡ None }
    ensures first { result ≡ associativity_fault (table_with n table.now) }
{
    first_below(n, |g| first_below(n, |h| row_fault(n, table, g, h)))
}

/// The identity of a table that breaks no law, or else the first law that it breaks.
#[tactic(auto, unfolding(crate::specs::Group::group_fault))]
pub fn checked_identity(n: u32, table: &[u32]) -> Result<u32, GroupFault>
    requires square { length table.now ≡ n * n }
    requires small { n ≤ 60 }
    ensures lawful { IfOk result (λ e.
        (group_fault (table_with n table.now) ≡ None)
        × (e ≡ identity_of (table_with n table.now))) }
    ensures fault { IfErr result (λ fault. group_fault (table_with n table.now) ≡ Some fault) }
{
    if let Some(fault) = entry_fault(n, table) {
        return Err(fault);
    }
    let Some(identity) = two_sided_identity(n, table) else {
        return Err(GroupFault::NoIdentity);
    };
    if let Some(fault) = inverse_fault(n, table, identity) {
        return Err(fault);
    }
    match associativity_fault(n, table) {
        Some(fault) => Err(fault),
        None => Ok(identity),
    }
}

/// The inverse of each element, in order.
pub fn inverses(alloc: Global, n: u32, table: &[u32], e: u32) -> Result<Nats, Memory>
    requires group { IsGroup (table_with n table.now) }
    requires small { n ≤ 60 }
    requires identity { e ≡ identity_of (table_with n table.now) }
    ensures each { IfOk result (ListsInverses (table_with n table.now)) }
{
    let mut inverses = Nats::empty(alloc);
    for g in 0..n {
        let inverse = inverse_of(n, table, e, g).unwrap();
        inverses.push(inverse)?;
    }
    Ok(inverses)
}
