//! Lists of natural numbers of 32 bits.

ghost use Rattle.std.specs.Prelude.{◌≡◌, ℕ, ◌+◌, ◌^◌, ◌<◌, ◌≤◌, Bool, List, [], ◌∷◌, ◌++◌, ◌↔◌, IsTrue, length, slice_index, vec_len, IfOk, OnOk, OnErr};
ghost use Rattle.group_table.specs.Numbers.{passing_below, tabulated, by_pairs};

use crate::Memory;
use std::alloc::Global;
use std::marker::Model;

/// A list of natural numbers below 2^32, fewer than 2^32 of them.
#[derive(Debug, Drop)]
pub struct Nats {
    items: Vec<u32>,
}

impl Model for Nats {
    ghost Value = { List ℕ };

    ghost view = { λ numbers. numbers.items.items };

    ghost invariant = { λ numbers. vec_len numbers.items < 2 ^ 32 };
}

impl Nats {
    /// The empty list, which takes no memory yet.
    pub fn empty(alloc: Global) -> Nats
        ensures empty { result ≡ [] }
    {
        Nats {
            items: Vec::new(alloc),
        }
    }

    /// The numbers below `n` that pass `test`, ascending.
    pub fn passing_below<F: Fn(u32) -> bool>(alloc: Global, n: u32, test: F) -> Result<Nats, Memory>
    where
        F: Drop,
        requires callable { (i : ℕ) → i < n → F.pre test i }
        ensures passing { (passes : ℕ → Bool)
            → ((i : ℕ) (r : Bool) → i < n → F.post test i r → r ≡ passes i)
            → IfOk result (λ numbers. numbers ≡ passing_below n passes) }
    {
        let mut numbers = Nats::empty(alloc);
        for i in 0..n {
            if test(i) {
                numbers.push(i)?;
            }
        }
        Ok(numbers)
    }

    /// The numbers that `number` gives at 0, 1, .., `n - 1`, in order.
    pub fn tabulate<F: Fn(u32) -> u32>(alloc: Global, n: u32, number: F) -> Result<Nats, Memory>
    where
        F: Drop,
        requires callable { (i : ℕ) → i < n → F.pre number i }
        ensures count { IfOk result (λ numbers. length numbers ≡ n) }
        ensures tabulated { (at : ℕ → ℕ) → ((i v : ℕ) → i < n → F.post number i v → v ≡ at i) →
            IfOk result (λ numbers. numbers ≡ tabulated n at) }
    {
        let mut numbers = Nats::empty(alloc);
        for i in 0..n {
            numbers.push(number(i))?;
        }
        Ok(numbers)
    }

    /// The numbers that `number` gives for each pair of numbers below `n`, row after row.
    #[tactic(auto, unfolding(crate::specs::Numbers::by_pairs), using(crate::proofs::Square::row_below, crate::proofs::Square::column_below))]
    pub fn by_pairs<F: Fn(u32, u32) -> u32>(
        alloc: Global,
        n: u32,
        number: F,
    ) -> Result<Nats, Memory>
    where
        F: Drop,
        requires few { n ≤ 60 }
        requires callable { (g h : ℕ) → g < n → h < n → F.pre number g h }
        ensures pairs { (at : ℕ → ℕ → ℕ)
            → ((g h v : ℕ) → g < n → h < n → F.post number g h v → v ≡ at g h) →
            IfOk result (λ numbers. numbers ≡ by_pairs n at) }
    {
        Nats::tabulate(alloc, n * n, |i| number(i / n, i % n))
    }

    /// Adds a number at the end. After `Memory` the list is as before.
    pub fn push(&mut self, v: u32) -> Result<(), Memory>
        requires room { length self.old + 1 < 2 ^ 32 }
        ensures added { OnOk result (self.new ≡ self.old ++ v ∷ []) }
        ensures unchanged { OnErr result (self.new ≡ self.old) }
    {
        self.items.push(v)?;
        Ok(())
    }

    /// How many numbers there are.
    pub fn len(&self) -> u32
        ensures count { result ≡ length self.now }
        ensures small { length self.now < 2 ^ 32 }
    {
        self.items.len() as u32
    }

    /// Whether there is no number.
    pub fn is_empty(&self) -> bool
        ensures empty { IsTrue result ↔ (self.now ≡ []) }
    {
        self.items.is_empty()
    }

    /// The number at place `i`, counted from 0.
    pub fn at(&self, i: u32) -> u32
        requires in_range { i < length self.now }
        ensures number { result ≡ slice_index self.now i }
    {
        self.items[i as usize]
    }

    /// The same numbers in a list of their own.
    pub fn copy(&self, alloc: Global) -> Result<Nats, Memory>
        ensures same { IfOk result (λ numbers. numbers ≡ self.now) }
    {
        let items = Vec::from_slice(alloc, &self.items)?;
        Ok(Nats { items })
    }

    /// The numbers, in order.
    pub fn as_slice(&self) -> &[u32]
        ensures numbers { result.now ≡ self.now }
    {
        self.items.as_slice()
    }
}
