//! One sweep over the pairs of elements finds, for each element, the representative of its class and the least transporter.

ghost use Rattle.std.specs.Prelude.{◌≡◌, ℕ, ◌+◌, ◌<◌, length, slice_index_or, Some, None, IfOk, OnOk};
ghost use Rattle.group_table.specs.Group.{IsGroup, IsSmall};
ghost use Rattle.classes.specs.Conjugacy.{conjugate};
ghost use Rattle.classes.specs.Sweep.{reach_below};
ghost use Rattle.classes.specs.Kept.{ListsReaches};

use group_table::{Group, Memory};
use std::alloc::Global;

/// How an element is reached from the representative of its class: it is `transporter representative transporter^-1`.
#[derive(Clone, Copy, Debug)]
pub struct Reach {
    pub representative: u32,
    pub transporter: u32,
}

/// The conjugate `k a k^-1`.
#[tactic(auto, unfolding(crate::specs::Conjugacy::conjugate))]
pub fn conjugate(group: &Group, k: u32, a: u32) -> u32
    requires k_below { k < group.now.order }
    requires a_below { a < group.now.order }
    ensures conjugate { result ≡ conjugate group.now k a }
    ensures below { result < group.now.order }
{
    let carried = group.product(k, a);
    group.product(carried, group.inverse(k))
}

/// Reaches the conjugates of `a` that no lower element has reached.
fn sweep_row(group: &Group, a: u32, reaches: &mut [Option<Reach>])
    requires a_below { a < group.now.order }
    requires count { length reaches.old ≡ group.now.order }
    requires lower { (g : ℕ) → g < group.now.order → slice_index_or reaches.old g None
        ≡ reach_below group.now a g }
    ensures reached { (g : ℕ) → g < group.now.order → slice_index_or reaches.new g None
        ≡ reach_below group.now (a + 1) g }
{
    for k in 0..group.order() {
        let g = conjugate(group, k, a) as usize;
        reaches[g] = reaches[g].or(Some(Reach {
            representative: a,
            transporter: k,
        }));
    }
}

/// How each element is reached, from the least element from which it is, by the least transporter.
#[tactic(auto, using(crate::proofs::Rows::nothing_reached))]
fn sweep_rows(alloc: Global, group: &Group) -> Result<Vec<Option<Reach>>, Memory>
    ensures group { OnOk result (IsGroup group.now) }
    ensures small { OnOk result (IsSmall group.now.order) }
    ensures count { IfOk result (λ found. length found.items ≡ group.now.order) }
    ensures found { IfOk result
        (λ found.
        (g : ℕ) → g < group.now.order → slice_index_or found.items g None
        ≡ reach_below group.now group.now.order g) }
{
    let order = group.order();
    let mut found = vec![in alloc; None; order as usize]?;
    for a in 0..order {
        sweep_row(group, a, &mut found);
    }
    Ok(found)
}

/// How each element is reached from the representative of its class.
#[tactic(auto, using(crate::proofs::Rows::reach_read, crate::proofs::Rows::reach_there, crate::proofs::Rows::one_more_reach))]
pub fn sweep(alloc: Global, group: &Group) -> Result<Vec<Reach>, Memory>
    ensures group { OnOk result (IsGroup group.now) }
    ensures small { OnOk result (IsSmall group.now.order) }
    ensures reached { IfOk result (λ reaches. ListsReaches group.now reaches.items) }
{
    let found = sweep_rows(alloc, group)?;
    let mut reaches = Vec::new(alloc);
    for reach in &found {
        reaches.push(reach.unwrap())?;
    }
    Ok(reaches)
}
