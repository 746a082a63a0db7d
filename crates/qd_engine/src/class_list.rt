//! The classes of a cocycle's group, with what is known of each, made only where a report speaks of them.

ghost use Rattle.std.specs.Prelude.{IfOk};
ghost use Rattle.qd_engine.specs.ClassLists.{IsListOf, IsKnownOf};

use classes::Classes;
use cochain::Cocycle;
use group_table::Nats;
use qd_steps::ClassTwists;
use std::alloc::{AllocError, Global};

/// The conjugacy classes of the group of a cocycle, with the twisted centraliser and the rank of each, in order.
#[derive(Debug, Drop)]
pub struct ClassList {
    pub classes: Classes,
    pub twists: ClassTwists,
    pub ranks: Nats,
}

/// The list of the cocycle `w`.
fn list_of(alloc: Global, w: &Cocycle) -> Result<ClassList, AllocError>
    ensures list { IfOk result (IsListOf w.now) }
{
    let classes = Classes::of(alloc, w.group())?;
    let twists = ClassTwists::of(alloc, w, &classes)?;
    let ranks = twists.ranks(alloc)?;
    Ok(ClassList {
        classes,
        twists,
        ranks,
    })
}

/// The list of the cocycle `w`: the one that is known, or else a new one.
pub fn known_or_made(
    alloc: Global,
    w: &Cocycle,
    known: Option<ClassList>,
) -> Result<ClassList, AllocError>
    requires known { IsKnownOf w.now known }
    ensures list { IfOk result (IsListOf w.now) }
{
    match known {
        Some(list) => Ok(list),
        None => list_of(alloc, w),
    }
}
