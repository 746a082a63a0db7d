//! A list of commuting pairs.

ghost use Rattle.std.specs.Prelude.{◌≡◌, ◌==◌, ◌+◌, ◌^◌, ◌<◌, [], ◌∷◌, ◌++◌, length, OnOk};
ghost use Rattle.pair_orbits.specs.Listing.{pair_at};

use crate::pair::Pair;
use group_table::Memory;
use std::alloc::Global;
use std::marker::Model;

/// A list of pairs, fewer than 2^32 of them.
#[derive(Debug, Drop)]
pub struct Pairs {
    pairs: Vec<Pair>,
}

impl Model for Pairs {
    ghost use Rattle.std.specs.Prelude.{List, ◌<◌, ◌^◌, vec_len};
    ghost use Rattle.pair_orbits.specs.declared.pair.Pair.{Pair};

    ghost Value = { List Pair };

    ghost view = { λ list. list.pairs.items };

    ghost invariant = { λ list. vec_len list.pairs < 2 ^ 32 };
}

impl Pairs {
    /// The empty list, which takes no memory yet.
    pub(crate) fn empty(alloc: Global) -> Pairs
        ensures empty { result ≡ [] }
    {
        Pairs {
            pairs: Vec::new(alloc),
        }
    }

    /// Adds a pair at the end.
    pub(crate) fn push(&mut self, pair: Pair) -> Result<(), Memory>
        requires room { length self.old + 1 < 2 ^ 32 }
        ensures added { OnOk result (self.new ≡ self.old ++ pair ∷ []) }
    {
        self.pairs.push(pair)?;
        Ok(())
    }

    /// How many pairs there are.
    pub fn len(&self) -> u32
        ensures count { result ≡ length self.now }
        ensures small { length self.now < 2 ^ 32 }
    {
        self.pairs.len() as u32
    }

    /// Whether there is no pair.
    pub fn is_empty(&self) -> bool
        ensures empty { result ≡ (length self.now == 0) }
    {
        self.pairs.is_empty()
    }

    /// The pair at place `p`, counted from 0.
    pub fn at(&self, p: u32) -> Pair
        requires in_range { p < length self.now }
        ensures pair { result ≡ pair_at self.now p }
    {
        self.pairs[p as usize]
    }

    /// The pairs, in order.
    pub fn as_slice(&self) -> &[Pair]
        ensures pairs { result.now ≡ self.now }
    {
        self.pairs.as_slice()
    }
}
