//! The simples of a cocycle, by the rows that blocks state or by those that a modulus gives.

ghost use Rattle.std.specs.Prelude.{◌≡◌, ◌%◌, ◌^◌, ◌<◌, true, None, length, OnOk, IfOk, IfErr};
ghost use Rattle.cyclotomic.specs.Conductors.{is_conductor};
ghost use Rattle.transport.specs.Simples.{AreSimples, HasTables};
ghost use Rattle.twist_lift.specs.Laws.{root_order};
ghost use Rattle.qd_steps.specs.Matched.{IsMatched, HaveValuesOf};
ghost use Rattle.qd_steps.specs.Tables.{first_cause, tables_cause, simples_over};
ghost use Rattle.qd_steps.specs.ByModulus.{lifted_blocks, modulus_cause};
ghost use Rattle.qd_steps.specs.ClassTwists.{class_twists};
ghost use Rattle.qd_steps.specs.Refused.{IsRefusalFor};

use crate::class_rows::ClassRows;
use crate::class_tables::tables_of;
use crate::class_twists::ClassTwists;
use crate::lifted::lifted_classes;
use crate::refusal::StepRefusal;
use crate::stated::stated_classes;
use classes::Classes;
use cochain::Cocycle;
use prime_field::ModRing;
use qd_doc::Blocks;
use std::alloc::Global;
use transport::Simples;

/// The simples of `w` by these rows of its classes.
fn simples_of<const K: u32>(
    alloc: Global,
    w: Cocycle,
    classes: Classes,
    rows: Vec<ClassRows<K>>,
) -> Result<Simples<K>, StepRefusal>
    requires conductor { is_conductor K ≡ true }
    requires classes { classes ≡ w.group }
    requires rows { HasTables w rows.items }
    requires few { length rows.items < 2 ^ 32 }
    ensures simples { IfOk result
        (λ simples. simples ≡ record { cocycle = w; tables = rows.entry.items }) }
    ensures good { IfOk result (λ simples. AreSimples K simples) }
    ensures passed { OnOk result (first_cause K rows.entry.items ≡ None) }
    ensures refused { IfErr result (IsRefusalFor (first_cause K rows.entry.items)) }
{
    let tables = tables_of(alloc, rows)?;
    Ok(Simples::of(alloc, w, classes, tables)?)
}

/// The simples of `w` by the rows of these blocks, over the twisted centralisers of its classes, which are at hand: as `simples_by_rows`.
pub fn simples_by_rows_over<const K: u32>(
    alloc: Global,
    w: Cocycle,
    classes: Classes,
    twists: &ClassTwists,
    given: &Blocks,
) -> Result<Simples<K>, StepRefusal>
    requires conductor { is_conductor K ≡ true }
    requires multiple { K % w.roots ≡ 0 }
    requires classes { classes ≡ w.group }
    requires twists { twists.now ≡ class_twists w }
    requires matched { IsMatched w.group given.now }
    requires values { HaveValuesOf K given.now }
    ensures simples { IfOk result (λ simples. simples ≡ simples_over w given.now) }
    ensures good { IfOk result (λ simples. AreSimples K simples) }
    ensures passed { OnOk result (tables_cause w K given.now ≡ None) }
    ensures refused { IfErr result (IsRefusalFor (tables_cause w K given.now)) }
{
    let rows = stated_classes::<K>(alloc, twists, given)?;
    simples_of(alloc, w, classes, rows)
}

/// The simples of `w` by the rows of these blocks: one block for each class, with a value for each element of the centraliser in each row.
///
/// They come exactly where the table of no class misses anything; else the refusal is that of the first miss of the first class that
/// misses something.
pub fn simples_by_rows<const K: u32>(
    alloc: Global,
    w: Cocycle,
    classes: Classes,
    given: &Blocks,
) -> Result<Simples<K>, StepRefusal>
    requires conductor { is_conductor K ≡ true }
    requires multiple { K % w.roots ≡ 0 }
    requires classes { classes ≡ w.group }
    requires matched { IsMatched w.group given.now }
    requires values { HaveValuesOf K given.now }
    ensures simples { IfOk result (λ simples. simples ≡ simples_over w given.now) }
    ensures good { IfOk result (λ simples. AreSimples K simples) }
    ensures passed { OnOk result (tables_cause w K given.now ≡ None) }
    ensures refused { IfErr result (IsRefusalFor (tables_cause w K given.now)) }
{
    let twists = ClassTwists::of(alloc, &w, &classes)?;
    simples_by_rows_over(alloc, w, classes, &twists, given)
}

/// The simples of `w` by lifted rows, over the twisted centralisers of its classes, which are at hand: as `simples_by_modulus`.
pub fn simples_by_modulus_over<const K: u32>(
    alloc: Global,
    w: Cocycle,
    classes: Classes,
    twists: &ClassTwists,
    ring: &ModRing,
) -> Result<Simples<K>, StepRefusal>
    requires conductor { ring.now.conductor ≡ K }
    requires multiple { K % root_order w ≡ 0 }
    requires classes { classes ≡ w.group }
    requires twists { twists.now ≡ class_twists w }
    requires over { w.group.order < ring.now.q }
    ensures simples { IfOk result (λ simples. simples ≡ simples_over w (lifted_blocks ring.now w)) }
    ensures good { IfOk result (λ simples. AreSimples K simples) }
    ensures passed { OnOk result (modulus_cause ring.now w ≡ None) }
    ensures refused { IfErr result (IsRefusalFor (modulus_cause ring.now w)) }
{
    // The cocycle promises its laws here, by which the field serves the twisted centraliser of each class.
    let _group = w.group();
    let rows = lifted_classes::<K>(alloc, twists, ring)?;
    simples_of(alloc, w, classes, rows)
}

/// The simples of `w` by the lifted rows of all central characters of its twisted centralisers, modulo the prime of the field (Dixon 1967).
///
/// The prime has to be over the order of the group, and the number of the roots of `w` times the exponent of its group has to divide the
/// conductor. The simples come exactly where every class has lifted rows and the table of no class misses anything. Else the refusal is
/// that of the first class without lifted rows; and only where there is none, that of the first miss of the first class that misses
/// something.
pub fn simples_by_modulus<const K: u32>(
    alloc: Global,
    w: Cocycle,
    classes: Classes,
    ring: &ModRing,
) -> Result<Simples<K>, StepRefusal>
    requires conductor { ring.now.conductor ≡ K }
    requires multiple { K % root_order w ≡ 0 }
    requires classes { classes ≡ w.group }
    requires over { w.group.order < ring.now.q }
    ensures simples { IfOk result (λ simples. simples ≡ simples_over w (lifted_blocks ring.now w)) }
    ensures good { IfOk result (λ simples. AreSimples K simples) }
    ensures passed { OnOk result (modulus_cause ring.now w ≡ None) }
    ensures refused { IfErr result (IsRefusalFor (modulus_cause ring.now w)) }
{
    let twists = ClassTwists::of(alloc, &w, &classes)?;
    simples_by_modulus_over(alloc, w, classes, &twists, ring)
}
