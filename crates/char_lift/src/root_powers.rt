//! The powers of the root of a field of residues, in a table.

ghost use Rattle.std.specs.Prelude.{◌≡◌, ◌*◌, ◌%◌, ◌<◌, ◌≤◌, IfOk};
ghost use Rattle.prime_field.specs.Laws.Moduli.{power_modulo};
ghost use Rattle.char_lift.specs.Ratios.{inverse_residue, root_residue, inverse_root};

use group_table::{Memory, Nats};
use prime_field::ModRing;
use std::alloc::Global;
use std::marker::Model;
use twisted::Twist;

/// A field of residues with the powers of its root, with exponents from 0 to the conductor; seen as the field.
#[derive(Debug, Drop)]
pub(crate) struct RootPowers {
    field: ModRing,
    powers: Nats,
}

impl Model for RootPowers {
    ghost use Rattle.std.specs.Prelude.{suc};
    ghost use Rattle.prime_field.specs.declared.mod_ring.ModRing.{ModRing};
    ghost use Rattle.char_lift.specs.Tables.{ListsPowers};

    ghost Value = { ModRing };

    ghost view = { λ table. table.field };

    ghost invariant = { λ table.
        ListsPowers table.field.q table.field.root (suc table.field.conductor) table.powers };
}

impl RootPowers {
    /// The powers of the root of `field`.
    pub(crate) fn of(alloc: Global, field: &ModRing) -> Result<RootPowers, Memory>
        ensures field { IfOk result (λ table. table ≡ field.now) }
    {
        let q = field.q();
        let root = field.root();
        let mut powers = Nats::empty(alloc);
        let mut power = 1;
        for _exponent in 0..field.conductor + 1 {
            powers.push(power)?;
            power = power * root % q;
        }
        Ok(RootPowers {
            field: *field,
            powers,
        })
    }

    /// The prime of the field.
    pub(crate) fn q(&self) -> u32
        ensures q { result ≡ self.now.q }
    {
        self.field.q
    }

    /// The conductor of the field.
    pub(crate) fn conductor(&self) -> u32
        ensures conductor { result ≡ self.now.conductor }
    {
        self.field.conductor
    }

    /// The power of the root with the exponent `e`, at most the conductor.
    pub(crate) fn power(&self, e: u32) -> u32
        requires at_most { e ≤ self.now.conductor }
        ensures power { result ≡ power_modulo self.now.q self.now.root e }
        ensures below { result < self.now.q }
    {
        self.powers.at(e)
    }

    /// The residue of the root of unity with the exponent `v` modulo the modulus of the twist.
    pub(crate) fn root(&self, twist: &Twist, v: u32) -> u32
        requires at_most { v ≤ twist.now.modulus }
        ensures root { result
            ≡ root_residue twist.now self.now.q self.now.conductor self.now.root v }
        ensures below { result < self.now.q }
    {
        self.power(v * (self.field.conductor / twist.modulus()))
    }

    /// The inverse of the residue of the root of unity with the exponent `v`.
    pub(crate) fn inverse_root(&self, twist: &Twist, v: u32) -> u32
        requires at_most { v ≤ twist.now.modulus }
        ensures inverse { result
            ≡ inverse_root twist.now self.now.q self.now.conductor self.now.root v }
        ensures below { result < self.now.q }
    {
        self.root(twist, twist.modulus() - v)
    }

    /// The inverse of `a` modulo the prime, and 0 where `a` is 0 modulo the prime.
    pub(crate) fn inverse(&self, a: u32) -> u32
        ensures inverse { result ≡ inverse_residue self.now.q a }
        ensures below { result < self.now.q }
    {
        self.field.inverse(a).unwrap_or(0)
    }

    /// The product of two residues.
    pub(crate) fn product(&self, a: u32, b: u32) -> u32
        requires a_below { a < self.now.q }
        requires b_below { b < self.now.q }
        ensures product { result ≡ (a * b) % self.now.q }
        ensures below { result < self.now.q }
    {
        a * b % self.field.q
    }
}
