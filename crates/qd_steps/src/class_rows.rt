//! The rows of a class.

ghost use Rattle.std.specs.Prelude.{◌≡◌, [], ◌∷◌, ◌++◌, OnOk};
ghost use Rattle.table_check.specs.Characters.{IsShaped};

use group_table::Memory;
use qd_ring::Rows;
use std::marker::Model;
use twisted::Twist;

/// Rows over the twisted centraliser of a class, with a value for each place. Nothing is known of the values yet.
#[derive(Debug, Drop)]
pub(crate) struct ClassRows<const K: u32> {
    pub(crate) twist: Twist,
    pub(crate) rows: Rows<K>,
}

impl<const K: u32> Model for ClassRows<K> {
    ghost use Rattle.table_check.specs.Characters.{RowsOver, IsShaped};

    ghost Value = { RowsOver };

    ghost view = { λ class. record { over = class.twist; rows = class.rows } };

    ghost invariant = { λ class. IsShaped K (record { over = class.twist; rows = class.rows }) };
}

impl<const K: u32> ClassRows<K> {
    /// These rows over this centraliser.
    pub(crate) fn new(twist: Twist, rows: Rows<K>) -> ClassRows<K>
        requires shaped { IsShaped K (record { over = twist; rows = rows }) }
        ensures made { result ≡ record { over = twist; rows = rows.entry } }
    {
        ClassRows { twist, rows }
    }
}

/// Adds the rows of one more class at the end.
pub(crate) fn push_class<const K: u32>(
    all: &mut Vec<ClassRows<K>>,
    class: ClassRows<K>,
) -> Result<(), Memory>
    ensures added { OnOk result (all.new.items ≡ all.old.items ++ class.entry ∷ []) }
{
    all.push(class)?;
    Ok(())
}
