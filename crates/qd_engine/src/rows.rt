//! The rows of values that a report is made from, and the simples that they give.

ghost use Rattle.std.specs.Prelude.{◌≡◌, ◌%◌, ◌<◌, true, IfOk};
ghost use Rattle.cyclotomic.specs.Conductors.{is_conductor};
ghost use Rattle.twist_lift.specs.Laws.{root_order};
ghost use Rattle.transport.specs.Simples.{SimplesOver, AreSimples};
ghost use Rattle.root_tables.specs.RootRows.{HasRootRows};
ghost use Rattle.qd_steps.specs.Matched.{IsMatched, HaveValuesOf};
ghost use Rattle.qd_steps.specs.Tables.{tables_cause, simples_over};
ghost use Rattle.qd_steps.specs.ByModulus.{lifted_blocks, modulus_cause};
ghost use Rattle.qd_engine.specs.ClassLists.{IsListOf};
ghost use Rattle.qd_engine.specs.Rows.{blocks_in, cause_in, Serve, AreRooted};
ghost use Rattle.qd_engine.specs.Follows.{Tests};

use crate::class_list::ClassList;
use crate::stop::Stop;
use cochain::Cocycle;
use prime_field::ModRing;
use qd_doc::Blocks;
use qd_steps::{StepRefusal, simples_by_modulus_over, simples_by_rows_over};
use std::alloc::Global;
use transport::Simples;

/// Rows of values for all classes of a group.
#[derive(Clone, Copy)]
pub enum Rows<'a> {
    /// Those that a document states.
    Stated(&'a Blocks),
    /// Those that are lifted from the central characters over this field.
    Lifted(ModRing),
}

/// The simples that the rows of these blocks give, with values of conductor K.
fn stated_simples<const K: u32>(
    alloc: Global,
    w: Cocycle,
    list: ClassList,
    blocks: &Blocks,
) -> Result<Simples<K>, Stop>
    requires conductor { is_conductor K ≡ true }
    requires multiple { K % root_order w ≡ 0 }
    requires list { IsListOf w list }
    requires matched { IsMatched w.group blocks.now }
    requires values { HaveValuesOf K blocks.now }
    ensures tested { Tests (tables_cause w K blocks.now)
        (λ (simples : SimplesOver). simples ≡ simples_over w blocks.now) result }
    ensures good { IfOk result (λ simples. AreSimples K simples) }
{
    match simples_by_rows_over::<K>(alloc, w, list.classes, &list.twists, blocks) {
        Ok(simples) => Ok(simples),
        Err(StepRefusal::Refused(cause)) => Err(Stop::Refused(cause)),
        Err(StepRefusal::Memory) => Err(Stop::Memory),
    }
}

/// The simples that the rows give which are lifted over this field, with values of conductor K.
fn lifted_simples<const K: u32>(
    alloc: Global,
    w: Cocycle,
    list: ClassList,
    ring: &ModRing,
) -> Result<Simples<K>, Stop>
    requires conductor { ring.now.conductor ≡ K }
    requires multiple { K % root_order w ≡ 0 }
    requires list { IsListOf w list }
    requires over { w.group.order < ring.now.q }
    ensures tested { Tests (modulus_cause ring.now w)
        (λ (simples : SimplesOver). simples ≡ simples_over w (lifted_blocks ring.now w)) result }
    ensures good { IfOk result (λ simples. AreSimples K simples) }
    ensures rooted { IfOk result (λ simples. HasRootRows K simples) }
{
    match simples_by_modulus_over::<K>(alloc, w, list.classes, &list.twists, ring) {
        Ok(lifted) => Ok(lifted),
        Err(StepRefusal::Refused(cause)) => Err(Stop::Refused(cause)),
        Err(StepRefusal::Memory) => Err(Stop::Memory),
    }
}

/// The simples that these rows give, with values of conductor K.
pub fn simples_of<const K: u32>(
    alloc: Global,
    w: Cocycle,
    list: ClassList,
    rows: &Rows,
) -> Result<Simples<K>, Stop>
    requires conductor { is_conductor K ≡ true }
    requires multiple { K % root_order w ≡ 0 }
    requires list { IsListOf w list }
    requires serve { Serve K w rows.now }
    ensures tested { Tests (cause_in K w rows.now)
        (λ (simples : SimplesOver). simples ≡ simples_over w (blocks_in w rows.now)) result }
    ensures good { IfOk result (λ simples. AreSimples K simples) }
    ensures rooted { IfOk result (λ simples. AreRooted K simples rows.now) }
{
    match rows {
        Rows::Stated(blocks) => stated_simples(alloc, w, list, blocks),
        Rows::Lifted(ring) => lifted_simples(alloc, w, list, ring),
    }
}
