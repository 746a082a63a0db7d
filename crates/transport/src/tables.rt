//! Good tables for all classes.

ghost use Rattle.std.specs.Prelude.{◌≡◌, ◌+◌, ◌^◌, ◌<◌, true, [], ◌∷◌, ◌++◌, length, OnOk, OnErr};
ghost use Rattle.cyclotomic.specs.Conductors.{is_conductor};
ghost use Rattle.table_check.specs.Characters.{RowsOver};
ghost use Rattle.transport.specs.Simples.{table_at};

use group_table::Memory;
use std::alloc::Global;
use std::marker::Model;
use table_check::Table;

/// Good tables of projective characters, seen as a list of rows over twisted centralisers.
///
/// They exist only where K is an entry of the table of conductors.
#[derive(Debug, Drop)]
pub struct Tables<const K: u32> {
    tables: Vec<Table<K>>,
}

impl<const K: u32> Model for Tables<K> {
    ghost use Rattle.std.specs.Prelude.{◌≡◌, ◌^◌, ◌<◌, List, true, length};
    ghost use Rattle.cyclotomic.specs.Conductors.{is_conductor};
    ghost use Rattle.table_check.specs.Characters.{RowsOver};

    ghost Value = { List RowsOver };

    ghost view = { λ t. t.tables.items };

    ghost invariant = { λ t. (is_conductor K ≡ true) × (length t.tables.items < 2 ^ 32) };
}

impl<const K: u32> Tables<K> {
    /// No table, which takes no memory yet.
    pub fn empty(alloc: Global) -> Tables<K>
        requires { is_conductor K ≡ true }
        ensures { result ≡ [] }
    {
        Tables {
            tables: Vec::new(alloc),
        }
    }

    /// Adds a table at the end. After `Memory` the tables are as before.
    pub fn push(&mut self, t: Table<K>) -> Result<(), Memory>
        requires room { length self.old + 1 < 2 ^ 32 }
        ensures added { OnOk result (self.new ≡ self.old ++ t.entry ∷ []) }
        ensures unchanged { OnErr result (self.new ≡ self.old) }
    {
        self.tables.push(t)?;
        Ok(())
    }

    /// How many tables there are.
    pub fn len(&self) -> u32
        ensures count { result ≡ length self.now }
        ensures conductor { is_conductor K ≡ true }
    {
        self.tables.len() as u32
    }

    /// The table with the number `c`.
    pub fn at(&self, c: u32) -> &Table<K>
        requires c_below { c < length self.now }
        ensures table { result.now ≡ table_at self.now c }
    {
        &self.tables[c as usize]
    }
}
