//! The tests of rows of values before their tables are checked.

ghost use Rattle.std.specs.Prelude.{◌≡◌, ◌≤◌, ◌<◌, ◌^◌, true, Some, length, sum, All, IfOk};
ghost use Rattle.cyclotomic.specs.Conductors.{is_conductor};
ghost use Rattle.qd_steps.specs.Matched.{IsMatched};
ghost use Rattle.qd_engine.specs.ClassLists.{IsNeeded};
ghost use Rattle.qd_engine.specs.Documents.{conductor_of};
ghost use Rattle.qd_engine.specs.Sources.{field_for};
ghost use Rattle.qd_engine.specs.Tests.{conductor_test, stated_test, modulus_test, simples_test, shape_test};
ghost use Rattle.qd_engine.specs.Follows.{Tests};

use crate::shape::shape_fault;
use crate::stop::Stop;
use classes::Classes;
use cochain::Cocycle;
use data_print::Cause;
use group_table::Nats;
use prime_field::ModRing;
use qd_doc::Blocks;
use qd_ring::{NoConductor, conductor};

/// The least conductor that is a multiple of the number of roots times the exponent of the group.
#[tactic(auto, unfolding(crate::specs::Tests::conductor_test, crate::specs::Documents::conductor_of))]
pub fn needed_conductor(w: &Cocycle) -> Result<u32, Stop>
    ensures tested { Tests (conductor_test w.now) (λ k. k ≡ conductor_of w.now) result }
    ensures needed { IfOk result (IsNeeded w.now) }
{
    let exponent = w.group().exponent();
    match conductor(w.roots() * exponent) {
        Ok(k) => Ok(k),
        Err(NoConductor { multiple }) => Err(Stop::Refused(Cause::NoConductor { multiple })),
    }
}

/// Whether the stated conductor is the one that is needed.
pub fn stated_is(stated: u32, needed: u32) -> Result<(), Stop>
    ensures tested { Tests (stated_test stated needed) (λ done. stated ≡ needed) result }
{
    if stated == needed {
        Ok(())
    } else {
        Err(Stop::Refused(Cause::Conductor { stated, needed }))
    }
}

/// The sum of the ranks.
fn total(ranks: &[u32]) -> u32
    requires { sum ranks.now < 2 ^ 32 }
    ensures { result ≡ sum ranks.now }
{
    ranks.iter().sum()
}

/// Whether there are no more simples than the command takes.
#[tactic(auto, using(data_print::proofs::Ranks::sum_small))]
pub fn few_simples(ranks: &Nats, most: u32) -> Result<(), Stop>
    requires few { length ranks.now ≤ 60 }
    requires small { All (λ rank. rank ≤ 60) ranks.now }
    ensures tested { Tests (simples_test (sum ranks.now) most)
        (λ done. sum ranks.now ≤ most) result }
{
    let ranks = total(ranks.as_slice());
    if ranks <= most {
        Ok(())
    } else {
        Err(Stop::Refused(Cause::Simples { ranks, most }))
    }
}

/// Whether the blocks match the classes.
pub fn matching(classes: &Classes, blocks: &Blocks) -> Result<(), Stop>
    ensures tested { Tests (shape_test classes.now blocks.now)
        (λ done. IsMatched classes.now blocks.now) result }
{
    match shape_fault(classes, blocks) {
        None => Ok(()),
        Some(fault) => Err(Stop::Refused(Cause::Shape(fault))),
    }
}

/// The field modulo `q` with the least root for the conductor `k`, where `q` is a valid modulus for the order of the group.
pub fn field(q: u32, w: &Cocycle, k: u32) -> Result<ModRing, Stop>
    requires conductor { is_conductor k ≡ true }
    requires needed { k ≡ conductor_of w.now }
    ensures tested { Tests (modulus_test q w.now)
        (λ ring. field_for q w.now ≡ Some ring) result }
    ensures modulus { IfOk result (λ ring. ring.q ≡ q) }
    ensures conductor { IfOk result (λ ring. ring.conductor ≡ k) }
    ensures over { IfOk result (λ ring. w.now.group.order < ring.q) }
{
    match ModRing::new(q, w.group().order(), k) {
        Ok(ring) => Ok(ring),
        Err(fault) => Err(Stop::Refused(Cause::Modulus(fault))),
    }
}
