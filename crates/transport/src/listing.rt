//! The rows of tables, as entries in the order of simples.

ghost use Rattle.std.specs.Prelude.{◌≡◌, ◌<◌, ◌≤◌, ◌*◌, length, map, IfOk, OnOk, ◌++◌};
ghost use Rattle.std.specs.List.{range_with_len};
ghost use Rattle.twisted.specs.Twist.{size};
ghost use Rattle.cyclotomic.specs.Cyclotomic.{cyclotomic};
ghost use Rattle.cyclotomic.specs.CyclotomicRing.{cyclotomic_value};
ghost use Rattle.cyclotomic.specs.Ring.{value_one};
ghost use Rattle.table_check.specs.Characters.{IsShaped, characters_of};
ghost use Rattle.table_check.specs.Good.{IsGood};
ghost use Rattle.table_check.specs.Check.{is_same, is_vacuum};
ghost use Rattle.transport.specs.Simples.{simple_of, rows_of, rows_below, simples_of};
ghost use Rattle.transport.specs.Kept.{coefficients_of, simple_in, AreGood};

use crate::entry::Entry;
use crate::tables::Tables;
use group_table::Memory;
use qd_ring::Cyc;
use scan::holds_below;
use std::alloc::Global;
use table_check::Table;

/// Whether a value is 1.
fn is_one<const K: u32>(value: &Cyc<K>) -> bool
    ensures one { result ≡ is_same (cyclotomic_value K value.now.coefficients)
        (value_one (cyclotomic K)) }
{
    *value == Cyc::one()
}

/// Whether every value of row `r` is 1.
fn is_vacuum<const K: u32>(table: &Table<K>, r: u32) -> bool
    requires r_below { r < length table.now.rows }
    ensures vacuum { result ≡ is_vacuum table.now.over (characters_of K table.now.rows) r }
{
    let places = table.over().size();
    holds_below(
        places,
        |x| -> bool
            requires { (r < length table.now.rows) × (x < size table.now.over) }
            ensures { result ≡ is_same ((characters_of K table.entry.now.rows).chi r x)
                (value_one (cyclotomic K)) }
        { is_one(&table.value(r, x)) },
    )
}

/// The values of row `r`, place after place.
fn values_of<const K: u32>(alloc: Global, table: &Table<K>, r: u32) -> Result<Vec<Cyc<K>>, Memory>
    requires r_below { r < length table.now.rows }
    ensures values { IfOk result (λ values. coefficients_of K values.items
        ≡ map (λ p. ((characters_of K table.now.rows).chi r p).coefficients)
        (range_with_len 0 (size table.now.over))) }
{
    let places = table.over().size();
    let mut values = Vec::new(alloc);
    for p in 0..places {
        values.push(table.value(r, p))?;
    }
    Ok(values)
}

/// Row `r` of the table of class `c`.
fn entry_of<const K: u32>(
    alloc: Global,
    c: u32,
    table: &Table<K>,
    r: u32,
) -> Result<Entry<K>, Memory>
    requires r_below { r < length table.now.rows }
    ensures entry { IfOk result (λ entry. simple_in K entry ≡ simple_of K c table.now r) }
{
    let values = values_of(alloc, table, r)?;
    Ok(Entry {
        other: !(c == 0 && is_vacuum(table, r)),
        class: c,
        degree: table.degree(r),
        values,
        row: r,
    })
}

/// How many rows there are, at most one for each class of the centraliser.
fn rows<const K: u32>(table: &Table<K>) -> u32
    ensures rows { result ≡ length table.now.rows }
    ensures few { result ≤ 60 }
    ensures shaped { IsShaped K table.now }
    ensures good { IsGood table.now.over (characters_of K table.now.rows) }
{
    let _places = table.over().size();
    table.rows()
}

/// Adds all rows of the table of class `c`, which is good.
fn append_rows<const K: u32>(
    alloc: Global,
    entries: &mut Vec<Entry<K>>,
    c: u32,
    table: &Table<K>,
) -> Result<(), Memory>
    ensures added { OnOk result (map (simple_in K) entries.new.items
        ≡ map (simple_in K) entries.old.items ++ rows_of K c table.now) }
    ensures few { OnOk result (length table.now.rows ≤ 60) }
    ensures shaped { OnOk result (IsShaped K table.now) }
    ensures good { OnOk result (IsGood table.now.over (characters_of K table.now.rows)) }
{
    for r in 0..rows(table) {
        let entry = entry_of(alloc, c, table, r)?;
        entries.push(entry)?;
    }
    Ok(())
}

/// All rows of all tables.
fn all_rows<const K: u32>(alloc: Global, tables: &Tables<K>) -> Result<Vec<Entry<K>>, Memory>
    ensures rows { IfOk result (λ entries. map (simple_in K) entries.items
        ≡ rows_below K (length tables.now) tables.now) }
    ensures good { IfOk result (λ _. AreGood K (length tables.now) tables.now) }
    ensures few { IfOk result (λ entries. length entries.items ≤ 60 * length tables.now) }
{
    let mut entries = Vec::new(alloc);
    for c in 0..tables.len() {
        append_rows(alloc, &mut entries, c, tables.at(c))?;
    }
    Ok(entries)
}

/// All rows of all tables, in the order of simples.
pub fn listed<const K: u32>(alloc: Global, tables: &Tables<K>) -> Result<Vec<Entry<K>>, Memory>
    ensures listed { IfOk result (λ entries. map (simple_in K) entries.items
        ≡ simples_of K tables.now) }
    ensures good { IfOk result (λ _. AreGood K (length tables.now) tables.now) }
    ensures few { IfOk result (λ entries. length entries.items ≤ 60 * length tables.now) }
{
    let mut entries = all_rows(alloc, tables)?;
    entries.sort()?;
    Ok(entries)
}
