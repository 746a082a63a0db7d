//! Finite groups, and what may be asked of them.

ghost use Rattle.std.specs.Prelude.{◌≡◌, ◌*◌, ◌<◌, ◌≤◌, length, Some, None, IfOk, IfErr};
ghost use Rattle.orders.specs.Group.{power};
ghost use Rattle.orders.specs.Order.{order_of, exponent_of, IsOrder, IsExponent};
ghost use Rattle.group_table.specs.Group.{table_with, product, identity_of, inverse, inverse_of, group_fault, IsGroup, IsSmall};
ghost use Rattle.group_table.specs.Refusal.{Refuses};

use crate::Memory;
use crate::fault::GroupRefusal;
use crate::laws::{checked_identity, inverses, two_sided_identity};
use crate::nats::Nats;
use crate::powers::{element_order, exponent, power};
use std::alloc::Global;
use std::marker::Model;

/// A finite group whose elements are the numbers below its order.
#[derive(Debug, Drop)]
pub struct Group {
    order: u32,
    identity: u32,
    table: Nats,
    inverses: Nats,
}

impl Model for Group {
    ghost use Rattle.group_table.specs.Group.{Table, table_with, IsKept};

    ghost Value = { Table };

    ghost view = { λ group. table_with group.order group.table };

    ghost invariant = { λ group.
        IsKept (table_with group.order group.table) group.identity group.inverses };
}

impl Group {
    /// The group with this multiplication table: the product of `g` and `h` stands in row `g` at place `h`,
    /// row after row. It is refused with the first law that fails, at its least place.
    pub fn from_table(alloc: Global, order: u32, table: &Nats) -> Result<Group, GroupRefusal>
        requires small { IsSmall order }
        requires square { length table.now ≡ order * order }
        ensures made { IfOk result (λ group.
            (group_fault (table_with order table.now) ≡ None)
            × (group ≡ table_with order table.now)) }
        ensures refused { IfErr result
            (λ refusal. Refuses refusal (group_fault (table_with order table.now))) }
    {
        let identity = checked_identity(order, table.as_slice()).map_err(GroupRefusal::Fault)?;
        let table = table.copy(alloc)?;
        let inverses = inverses(alloc, order, table.as_slice(), identity)?;
        Ok(Group {
            order,
            identity,
            table,
            inverses,
        })
    }

    /// The group of a table that is known to break no law: nothing is tested again.
    pub fn from_lawful(alloc: Global, order: u32, table: Nats) -> Result<Group, Memory>
        requires small { IsSmall order }
        requires group { IsGroup (table_with order table) }
        ensures made { IfOk result (λ group. group ≡ table_with order table) }
    {
        let identity = two_sided_identity(order, table.as_slice()).unwrap_or(0);
        let inverses = inverses(alloc, order, table.as_slice(), identity)?;
        Ok(Group {
            order,
            identity,
            table,
            inverses,
        })
    }

    /// How many elements there are, from 1 to 60.
    pub fn order(&self) -> u32
        ensures order { result ≡ self.now.order }
        ensures small { IsSmall self.now.order }
        ensures group { IsGroup self.now }
    {
        self.order
    }

    /// The two-sided identity, which need not be element 0.
    pub fn identity(&self) -> u32
        ensures identity { result ≡ identity_of self.now }
        ensures below { identity_of self.now < self.now.order }
    {
        self.identity
    }

    /// The product of `g` and `h`.
    pub fn product(&self, g: u32, h: u32) -> u32
        requires g_below { g < self.now.order }
        requires h_below { h < self.now.order }
        ensures product { result ≡ product self.now g h }
        ensures below { product self.now g h < self.now.order }
    {
        self.table.at(g * self.order + h)
    }

    /// The inverse of `g`: the element whose product with `g`, on either side, is the identity.
    pub fn inverse(&self, g: u32) -> u32
        requires g_below { g < self.now.order }
        ensures inverse { result ≡ inverse self.now g }
        ensures found { inverse_of self.now g ≡ Some result }
        ensures below { result < self.now.order }
        ensures right { product self.now g result ≡ identity_of self.now }
        ensures left { product self.now result g ≡ identity_of self.now }
    {
        self.inverses.at(g)
    }

    /// The power of `g` with the exponent `j`: the product of `j` factors `g`, and the identity for 0.
    pub fn power(&self, g: u32, j: u32) -> u32
        requires g_below { g < self.now.order }
        ensures power { result ≡ power (product self.now) (identity_of self.now) g j }
        ensures below { result < self.now.order }
    {
        power(
            self.order,
            self.table.as_slice(),
            self.identity,
            g,
            j % self.order,
        )
    }

    /// The order of `g`: the least number from 1 on by which its power is the identity.
    pub fn element_order(&self, g: u32) -> u32
        requires g_below { g < self.now.order }
        ensures order { result
            ≡ order_of self.now.order (product self.now) (identity_of self.now) g }
        ensures least { IsOrder (product self.now) (identity_of self.now) g result }
        ensures positive { 1 ≤ result }
        ensures at_most_order { result ≤ self.now.order }
    {
        element_order(self.order, self.table.as_slice(), self.identity, g)
    }

    /// The exponent: the least number from 1 on by which the power of each element is the identity.
    pub fn exponent(&self) -> u32
        ensures exponent { result
            ≡ exponent_of self.now.order (product self.now) (identity_of self.now) }
        ensures least { IsExponent self.now.order (product self.now) (identity_of self.now) result }
        ensures positive { 1 ≤ result }
        ensures at_most_order { result ≤ self.now.order }
    {
        exponent(self.order, self.table.as_slice(), self.identity)
    }

    /// The same group, in memory of its own.
    pub fn copy(&self, alloc: Global) -> Result<Group, Memory>
        ensures same { IfOk result (λ group. group ≡ self.now) }
    {
        let table = self.table.copy(alloc)?;
        let inverses = self.inverses.copy(alloc)?;
        Ok(Group {
            order: self.order,
            identity: self.identity,
            table,
            inverses,
        })
    }
}
