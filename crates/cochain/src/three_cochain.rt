//! Cochains of three arguments, by their exponents.

ghost use Rattle.std.specs.Prelude.{◌≡◌, ◌*◌, ◌<◌, ◌≤◌, ◌+◌, length, slice_index, IfOk};
ghost use Rattle.group_table.specs.Group.{IsGroup, IsSmall};
ghost use Rattle.cochain.specs.Cochain.{cochain_of, value, IsRoots, IsCochain};

use group_table::{Group, Nats};
use std::alloc::{AllocError, Global};
use std::marker::Model;

/// One exponent, below the number of roots, for each triple of elements of a group.
#[derive(Debug, Drop)]
pub struct ThreeCochain {
    group: Group,
    roots: u32,
    exponents: Vec<u32>,
}

impl Model for ThreeCochain {
    ghost use Rattle.cochain.specs.Cochain.{Cochain, IsCochain};

    ghost Value = { Cochain };

    ghost view = { λ w.
        record { group = w.group; roots = w.roots; exponents = w.exponents.items } };

    ghost invariant = { λ w.
        IsCochain (record { group = w.group; roots = w.roots; exponents = w.exponents.items }) };
}

/// What stands at `(g, h, k)` in a cube of numbers with edge `n`.
#[tactic(auto, using(crate::proofs::Cube::cube_below))]
fn exponent_at(n: u32, exponents: &[u32], g: u32, h: u32, k: u32) -> u32
    requires small { n ≤ 60 }
    requires cube { length exponents.now ≡ n * n * n }
    requires g_below { g < n }
    requires h_below { h < n }
    requires k_below { k < n }
    ensures exponent { result ≡ slice_index exponents.now ((g * n + h) * n + k) }
{
    exponents[((g * n + h) * n + k) as usize]
}

impl ThreeCochain {
    /// The cochain with these exponents, taken modulo `roots`. The exponent at `(g, h, k)` stands at place
    /// `(g n + h) n + k`, n the order of the group.
    pub fn new(
        alloc: Global,
        group: Group,
        roots: u32,
        exponents: &Nats,
    ) -> Result<ThreeCochain, AllocError>
        requires group { IsGroup group }
        requires small { IsSmall group.order }
        requires roots { IsRoots roots }
        requires cube { length exponents.now ≡ group.order * group.order * group.order }
        ensures made { IfOk result (λ w. w ≡ cochain_of group roots exponents.now) }
    {
        let exponents = exponents
            .as_slice()
            .iter()
            .map(|&v| v % roots)
            .collect(alloc)?;
        Ok(ThreeCochain {
            group,
            roots,
            exponents,
        })
    }

    /// The group of its arguments.
    pub fn group(&self) -> &Group
        ensures group { result.now ≡ self.now.group }
        ensures cochain { IsCochain self.now }
    {
        &self.group
    }

    /// How many roots of unity there are.
    pub fn roots(&self) -> u32
        ensures roots { result ≡ self.now.roots }
        ensures cochain { IsCochain self.now }
    {
        self.roots
    }

    /// The exponent at `(g, h, k)`.
    pub fn value(&self, g: u32, h: u32, k: u32) -> u32
        requires g_below { g < self.now.group.order }
        requires h_below { h < self.now.group.order }
        requires k_below { k < self.now.group.order }
        ensures value { result ≡ value self.now g h k }
        ensures below { value self.now g h k < self.now.roots }
    {
        exponent_at(self.group.order(), &self.exponents, g, h, k)
    }
}
