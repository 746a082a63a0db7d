//! The rows of all classes by a modulus: the lifted rows of all central characters of their twisted centralisers.

ghost use Rattle.std.specs.Prelude.{◌≡◌, ℕ, ◌<◌, None, Option, length, OnOk, IfOk, IfErr};
ghost use Rattle.std.specs.Option.{option_and_then};
ghost use Rattle.char_lift.specs.Faults.{Refuses};
ghost use Rattle.char_lift.specs.declared.refusal.LiftRefusal.{LiftRefusal};
ghost use Rattle.centre_powers.specs.CentralPowers.{Serves};
ghost use Rattle.qd_steps.specs.ByModulus.{cause_of_lift};
ghost use Rattle.qd_steps.specs.ClassTwists.{twist_in, lifted_over, all_lifted, lift_cause_over, first_lift_cause};
ghost use Rattle.qd_steps.specs.Refused.{IsRefusalFor};

use crate::class_rows::{ClassRows, push_class};
use crate::class_twists::ClassTwists;
use crate::refusal::StepRefusal;
use char_lift::LiftRefusal;
use data_print::Cause;
use dixon_split::split;
use prime_field::ModRing;
use std::alloc::Global;
use twist_lift::lifted_rows;

/// The cause where the lift of the class of `at` is refused so.
fn refusal_of(at: u32, refusal: LiftRefusal) -> StepRefusal
    ensures refused { (fault : Option LiftRefusal) → Refuses refusal fault
        → IsRefusalFor (option_and_then (cause_of_lift at) fault) result }
{
    match refusal {
        LiftRefusal::NoDegree { row, s } => StepRefusal::Refused(Cause::NoDegree { at, row, s }),
        LiftRefusal::Multiplicity {
            row,
            x,
            sum,
            degree,
        } => StepRefusal::Refused(Cause::Multiplicity {
            at,
            row,
            x,
            sum,
            degree,
        }),
        LiftRefusal::Memory => StepRefusal::Memory,
    }
}

/// The lifted rows of class `c`, or the cause at the first row that fails.
fn lifted_class<const K: u32>(
    alloc: Global,
    twists: &ClassTwists,
    ring: &ModRing,
    c: u32,
) -> Result<ClassRows<K>, StepRefusal>
    requires conductor { ring.now.conductor ≡ K }
    requires c_below { c < length twists.now }
    requires serves { Serves ring.now (twist_in twists.now c) }
    ensures rows { IfOk result (λ class. class ≡ lifted_over twists.now ring.now c) }
    ensures lifted { OnOk result (lift_cause_over twists.now ring.now c ≡ None) }
    ensures refused { IfErr result (IsRefusalFor (lift_cause_over twists.now ring.now c)) }
{
    let twist = twists.at(c).copy(alloc)?;
    let at = twist.at();
    let central = split(alloc, &twist, ring)?;
    match lifted_rows::<K>(alloc, &twist, ring, &central) {
        Ok(rows) => Ok(ClassRows::new(twist, rows)),
        Err(refusal) => Err(refusal_of(at, refusal)),
    }
}

/// The lifted rows of all classes, in order, or the cause at the first row that fails of the first class with one.
pub(crate) fn lifted_classes<const K: u32>(
    alloc: Global,
    twists: &ClassTwists,
    ring: &ModRing,
) -> Result<Vec<ClassRows<K>>, StepRefusal>
    requires conductor { ring.now.conductor ≡ K }
    requires serves { (c : ℕ) → c < length twists.now → Serves ring.now (twist_in twists.now c) }
    ensures rows { IfOk result (λ all. all.items ≡ all_lifted twists.now ring.now) }
    ensures lifted { OnOk result (first_lift_cause twists.now ring.now ≡ None) }
    ensures refused { IfErr result (IsRefusalFor (first_lift_cause twists.now ring.now)) }
{
    let mut all = Vec::new(alloc);
    for c in 0..twists.count() {
        let class = lifted_class::<K>(alloc, twists, ring, c)?;
        push_class(&mut all, class)?;
    }
    Ok(all)
}
