//! Square matrices of residues.

ghost use Rattle.std.specs.Prelude.{◌≡◌, ◌≢◌, ◌⊎◌, ℕ, ◌<◌, ◌≤◌, IfOk};
ghost use Rattle.prime_field.specs.SquareMatrix.{entry, IsSquare};

use group_table::Memory;
use std::alloc::Global;
use std::marker::Model;

/// A square matrix of numbers, of a width from 1 to 60.
#[derive(Debug, Drop)]
pub struct Matrix {
    width: u32,
    numbers: Vec<u32>,
}

impl Model for Matrix {
    ghost use Rattle.prime_field.specs.SquareMatrix.{Square, IsSquare};

    ghost Value = { Square };

    ghost view = { λ matrix. record { width = matrix.width; numbers = matrix.numbers.items } };

    ghost invariant = { λ matrix.
        IsSquare (record { width = matrix.width; numbers = matrix.numbers.items }) };
}

impl Matrix {
    /// The matrix of zeros with `r` rows and `r` places in each.
    pub fn new(alloc: Global, r: u32) -> Result<Matrix, Memory>
        requires from_one { 1 ≤ r }
        requires to_sixty { r ≤ 60 }
        ensures width { IfOk result (λ matrix. matrix.width ≡ r) }
        ensures zeros { IfOk result (λ matrix. (i j : ℕ) → i < r → j < r → entry matrix i j ≡ 0) }
    {
        let count = (r * r) as usize;
        let numbers = vec![in alloc; 0; count]?;
        Ok(Matrix { width: r, numbers })
    }

    /// The number in row `i` at place `j`, each counted from 0.
    pub fn get(&self, i: u32, j: u32) -> u32
        requires i_below { i < self.now.width }
        requires j_below { j < self.now.width }
        ensures entry { result ≡ entry self.now i j }
    {
        self.numbers[(i * self.width + j) as usize]
    }

    /// Sets the number in row `i` at place `j`.
    pub fn set(&mut self, i: u32, j: u32, v: u32)
        requires i_below { i < self.old.width }
        requires j_below { j < self.old.width }
        ensures width { self.new.width ≡ self.old.width }
        ensures written { entry self.new i j ≡ v }
        ensures others { (k l : ℕ) → k < self.old.width → l < self.old.width → (k ≢ i) ⊎ (l ≢ j)
            → entry self.new k l ≡ entry self.old k l }
    {
        let place = (i * self.width + j) as usize;
        self.numbers[place] = v;
    }

    // How many rows there are, and how many numbers in each.
    pub(crate) fn width(&self) -> u32
        ensures width { result ≡ self.now.width }
        ensures from_one { 1 ≤ self.now.width }
        ensures to_sixty { self.now.width ≤ 60 }
    {
        self.width
    }

    // The numbers, row after row.
    pub(crate) fn as_slice(&self) -> &[u32]
        ensures numbers { result.now ≡ self.now.numbers }
        ensures square { IsSquare self.now }
    {
        self.numbers.as_slice()
    }
}
