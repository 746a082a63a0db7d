//! Values, each stored as the list of its coefficients that aren't 0.

ghost use Rattle.std.specs.Prelude.{◌≡◌, ◌+◌, ◌^◌, ◌<◌, ℤ, List, [], ◌∷◌, ◌++◌, length, slice_index_or, OnOk, OnErr};
ghost use Rattle.qd_doc.specs.StoredValues.{values_of, AreValues};

use crate::stretch::{next_place, stretch};
use crate::term::{Term, plain_of, push_value};
use group_table::Memory;
use qd_ring::Plain;
use std::alloc::Global;
use std::marker::Model;

/// A list of values; seen as a list of lists, each of the 42 coefficients of a value.
#[derive(Debug, Drop)]
pub struct Values {
    starts: Vec<u32>,
    terms: Vec<Term>,
    great: Vec<i128>,
}

impl Model for Values {
    ghost use Rattle.std.specs.Prelude.{ℤ, List};
    ghost use Rattle.qd_doc.specs.StoredValues.{values_of, AreValues};

    ghost Value = { List (List ℤ) };

    ghost view = { λ list. values_of list.starts.items list.terms.items list.great.items };

    ghost invariant = { λ list. AreValues list.starts.items list.terms.items list.great.items };
}

impl Values {
    /// No value, which takes no memory yet.
    pub fn empty(alloc: Global) -> Values
        ensures empty { result ≡ [] }
    {
        Values {
            starts: Vec::new(alloc),
            terms: Vec::new(alloc),
            great: Vec::new(alloc),
        }
    }

    /// Adds a value at the end. After `Memory` the values are as before.
    pub fn push(&mut self, v: &Plain) -> Result<(), Memory>
        ensures added { OnOk result (self.new ≡ self.old ++ v.now.coefficients ∷ []) }
        ensures unchanged { OnErr result (self.new ≡ self.old) }
    {
        push_stored(&mut self.starts, &mut self.terms, &mut self.great, v)
    }

    /// How many values there are.
    #[tactic(auto, using(crate::proofs::ValueLists::values_length))]
    pub fn len(&self) -> u32
        ensures count { result ≡ length self.now }
        ensures small { length self.now < 2 ^ 32 }
    {
        self.starts.len() as u32
    }

    /// The value at place `i`.
    pub fn value(&self, i: u32) -> Plain
        requires listed { i < length self.now }
        ensures value { result.coefficients ≡ slice_index_or self.now i [] }
    {
        plain_of(stretch(&self.starts, &self.terms, i), &self.great)
    }
}

/// Adds a value to the stored ones. After `Memory` the values are as before.
fn push_stored(
    starts: &mut Vec<u32>,
    terms: &mut Vec<Term>,
    great: &mut Vec<i128>,
    v: &Plain,
) -> Result<(), Memory>
    requires values { AreValues starts.old.items terms.old.items great.old.items }
    ensures values { AreValues starts.new.items terms.new.items great.new.items }
    ensures added { OnOk result
        (values_of starts.new.items terms.new.items great.new.items
        ≡ values_of starts.old.items terms.old.items great.old.items ++ v.now.coefficients ∷ []) }
    ensures unchanged { OnErr result
        (values_of starts.new.items terms.new.items great.new.items
        ≡ values_of starts.old.items terms.old.items great.old.items) }
{
    let start = next_place(terms.len())?;
    next_place(starts.len())?;
    starts.push(start)?;
    let pushed = push_value(terms, great, v);
    if pushed.is_err() {
        starts.pop();
    }
    pushed
}
