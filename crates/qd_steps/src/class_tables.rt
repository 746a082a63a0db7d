//! The tables of all classes, made from their rows, or refused.

ghost use Rattle.std.specs.Prelude.{◌≡◌, ◌<◌, ◌^◌, true, None, length, OnOk, IfOk, IfErr};
ghost use Rattle.cyclotomic.specs.Conductors.{is_conductor};
ghost use Rattle.twisted.specs.Twist.{TwistedSubgroup};
ghost use Rattle.table_check.specs.Characters.{Characters};
ghost use Rattle.table_check.specs.Answers.{Refuses};
ghost use Rattle.table_check.specs.declared.miss.Miss.{Miss};
ghost use Rattle.table_check.specs.declared.refusal.TableRefusal.TheVariants as refusals;
ghost use Rattle.qd_steps.specs.declared.refusal.StepRefusal.TheVariants as steps;
ghost use Rattle.qd_steps.specs.Tables.{cause_of_miss, cause_over, first_cause};
ghost use Rattle.qd_steps.specs.Refused.{IsRefusalFor};

use crate::class_rows::ClassRows;
use crate::refusal::StepRefusal;
use data_print::Cause;
use std::alloc::Global;
use table_check::{Table, TableRefusal};
use transport::Tables;

/// The cause where the table of the class of `at` is refused so.
fn refusal_of<const K: u32>(at: u32, refusal: &TableRefusal<K>) -> StepRefusal
    ensures missed { (s : TwistedSubgroup) (table : Characters K) (miss : Miss)
        → at ≡ s.at → Refuses s table refusal.now miss
        → result ≡ steps.Refused (cause_of_miss s table miss) }
    ensures memory { refusal.now ≡ refusals.Memory → result ≡ steps.Memory }
{
    match refusal {
        TableRefusal::Memory => StepRefusal::Memory,
        TableRefusal::Overflow { site } => StepRefusal::Refused(Cause::Overflow { site: *site }),
        TableRefusal::Count { rows, rank } => StepRefusal::Refused(Cause::Count {
            at,
            rows: *rows,
            rank: *rank,
        }),
        TableRefusal::Identity {
            name,
            i,
            j,
            x,
            left,
            right,
        } => StepRefusal::Refused(Cause::Identity {
            name: *name,
            at,
            i: *i,
            j: *j,
            x: *x,
            left: left.to_plain(),
            right: right.to_plain(),
        }),
        TableRefusal::NoTwist { row, value } => StepRefusal::Refused(Cause::NoTwist {
            at,
            row: *row,
            value: value.to_plain(),
        }),
        TableRefusal::NoVacuum { rows } => StepRefusal::Refused(Cause::NoVacuum { rows: *rows }),
    }
}

/// The table of these rows, or the cause at its first miss.
fn table_of<const K: u32>(alloc: Global, class: ClassRows<K>) -> Result<Table<K>, StepRefusal>
    ensures table { IfOk result (λ table. table ≡ class.entry) }
    ensures passed { OnOk result (cause_over K class.entry ≡ None) }
    ensures refused { IfErr result (IsRefusalFor (cause_over K class.entry)) }
{
    let ClassRows { twist, rows } = class;
    let at = twist.at();
    match Table::check(alloc, &twist, rows) {
        Ok(table) => Ok(table),
        Err(refusal) => Err(refusal_of(at, &refusal)),
    }
}

/// The tables of all classes, or the cause at the first miss of the first class that misses something.
pub(crate) fn tables_of<const K: u32>(
    alloc: Global,
    classes: Vec<ClassRows<K>>,
) -> Result<Tables<K>, StepRefusal>
    requires conductor { is_conductor K ≡ true }
    requires few { length classes.items < 2 ^ 32 }
    ensures tables { IfOk result (λ tables. tables ≡ classes.entry.items) }
    ensures passed { OnOk result (first_cause K classes.entry.items ≡ None) }
    ensures refused { IfErr result (IsRefusalFor (first_cause K classes.entry.items)) }
{
    let mut tables = Tables::empty(alloc);
    for class in classes {
        let table = table_of(alloc, class)?;
        tables.push(table)?;
    }
    Ok(tables)
}
