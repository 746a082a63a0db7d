//! Powers in a group that is given by its table, orders of elements, and the exponent.

ghost use Rattle.std.specs.Prelude.{◌≡◌, ◌<◌, ◌≤◌, ◌==◌};
ghost use Rattle.orders.specs.Group.{power};
ghost use Rattle.orders.specs.Order.{least_from_one, is_unit_power, are_unit_powers, order_of, exponent_of};
ghost use Rattle.group_table.specs.Group.{Table, table_with, product, identity_of, IsGroup};

use crate::laws::product;
use scan::{first_below, holds_below};

/// The product of `j` factors `g`, where `e` is the identity.
#[tactic(auto, unfolding(orders::specs::Group::power))]
pub fn power(n: u32, table: &[u32], e: u32, g: u32, j: u32) -> u32
    requires group { IsGroup (table_with n table.now) }
    requires small { n ≤ 60 }
    requires identity { e ≡ identity_of (table_with n table.now) }
    requires g_below { g < n }
    ensures power { result ≡ power (product (table_with n table.now)) e g j }
{
    let mut reached = e;
    for _step in 0..j {
        reached = product(n, table, reached, g);
    }
    reached
}

/// Whether the power `g^j` is the identity.
pub fn is_unit_power(n: u32, table: &[u32], e: u32, g: u32, j: u32) -> bool
    requires group { IsGroup (table_with n table.now) }
    requires small { n ≤ 60 }
    requires identity { e ≡ identity_of (table_with n table.now) }
    requires g_below { g < n }
    ensures unit { result ≡ is_unit_power (product (table_with n table.now)) e g j }
{
    power(n, table, e, g, j) == e
}

/// The least number from 1 to the order of the group that gives the identity for `g`.
fn least_order(n: u32, table: &[u32], e: u32, g: u32) -> Option<u32>
    requires group { IsGroup (table_with n table.now) }
    requires small { n ≤ 60 }
    requires identity { e ≡ identity_of (table_with n table.now) }
    requires g_below { g < n }
    ensures least { result
        ≡ least_from_one n (is_unit_power (product (table_with n table.now)) e g) }
{
    first_below(n, |i| {
        if is_unit_power(n, table, e, g, i + 1) {
            Some(i + 1)
        } else {
            None
        }
    })
}

/// The order of `g`.
#[tactic(auto, unfolding(orders::specs::Order::order_of))]
pub fn element_order(n: u32, table: &[u32], e: u32, g: u32) -> u32
    requires group { IsGroup (table_with n table.now) }
    requires small { n ≤ 60 }
    requires identity { e ≡ identity_of (table_with n table.now) }
    requires g_below { g < n }
    ensures order { result ≡ order_of n (product (table_with n table.now)) e g }
{
    least_order(n, table, e, g).unwrap_or(0)
}

/// The least number from 1 to the order of the group that gives the identity for each element.
fn least_exponent(n: u32, table: &[u32], e: u32) -> Option<u32>
    requires group { IsGroup (table_with n table.now) }
    requires small { n ≤ 60 }
    requires identity { e ≡ identity_of (table_with n table.now) }
    ensures least { result
        ≡ least_from_one n (are_unit_powers n (product (table_with n table.now)) e) }
{
    first_below(n, |i| {
        if holds_below(n, |g| is_unit_power(n, table, e, g, i + 1)) {
            Some(i + 1)
        } else {
            None
        }
    })
}

/// The exponent of the group.
#[tactic(auto, unfolding(orders::specs::Order::exponent_of))]
pub fn exponent(n: u32, table: &[u32], e: u32) -> u32
    requires group { IsGroup (table_with n table.now) }
    requires small { n ≤ 60 }
    requires identity { e ≡ identity_of (table_with n table.now) }
    ensures exponent { result ≡ exponent_of n (product (table_with n table.now)) e }
{
    least_exponent(n, table, e).unwrap_or(0)
}
