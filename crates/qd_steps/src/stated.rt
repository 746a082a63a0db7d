//! The rows of all classes, as the blocks of a document state them.

ghost use Rattle.std.specs.Prelude.{◌≡◌, ℕ, ◌<◌, true, length, IfOk};
ghost use Rattle.cyclotomic.specs.Conductors.{is_conductor};
ghost use Rattle.table_check.specs.Characters.{IsShaped};
ghost use Rattle.qd_steps.specs.Matched.{HaveValuesOf};
ghost use Rattle.qd_steps.specs.ClassTwists.{stated_over, all_stated};

use crate::block_rows::rows_of;
use crate::class_rows::{ClassRows, push_class};
use crate::class_twists::ClassTwists;
use group_table::Memory;
use qd_doc::Blocks;
use std::alloc::Global;

/// The rows of class `c` that its block states.
fn stated_class<const K: u32>(
    alloc: Global,
    twists: &ClassTwists,
    blocks: &Blocks,
    c: u32,
) -> Result<ClassRows<K>, Memory>
    requires conductor { is_conductor K ≡ true }
    requires c_below { c < length twists.now }
    requires count { length blocks.now ≡ length twists.now }
    requires shaped { IsShaped K (stated_over twists.now blocks.now c) }
    requires values { HaveValuesOf K blocks.now }
    ensures rows { IfOk result (λ class. class ≡ stated_over twists.now blocks.now c) }
{
    let twist = twists.at(c).copy(alloc)?;
    let rows = rows_of::<K>(alloc, blocks, c)?;
    Ok(ClassRows::new(twist, rows))
}

/// The rows of all classes that the blocks state, in order.
pub(crate) fn stated_classes<const K: u32>(
    alloc: Global,
    twists: &ClassTwists,
    blocks: &Blocks,
) -> Result<Vec<ClassRows<K>>, Memory>
    requires conductor { is_conductor K ≡ true }
    requires count { length blocks.now ≡ length twists.now }
    requires shaped { (c : ℕ) → c < length twists.now
        → IsShaped K (stated_over twists.now blocks.now c) }
    requires values { HaveValuesOf K blocks.now }
    ensures rows { IfOk result (λ all. all.items ≡ all_stated twists.now blocks.now) }
{
    let mut all = Vec::new(alloc);
    for c in 0..twists.count() {
        let class = stated_class::<K>(alloc, twists, blocks, c)?;
        push_class(&mut all, class)?;
    }
    Ok(all)
}
