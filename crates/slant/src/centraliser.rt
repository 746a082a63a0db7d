//! The centraliser of an element with the slant product at it.

ghost use Rattle.std.specs.Prelude.{◌≡◌, ℕ, ◌*◌, ◌<◌, ◌≤◌, ◌==◌, length, slice_index, IfOk};
ghost use Rattle.group_table.specs.Group.{Table, product, IsGroup, IsSmall};
ghost use Rattle.classes.specs.Conjugacy.{centraliser_of};
ghost use Rattle.cochain.specs.Cochain.{IsCocycle};
ghost use Rattle.group_table.specs.Numbers.{by_pairs};
ghost use Rattle.slant.specs.Twists.{place_in, product_place, table_of, phase_at, twist_of};

use crate::slant_product::theta;
use classes::centraliser;
use cochain::Cocycle;
use group_table::{Group, Memory, Nats};
use scan::first_below;
use std::alloc::Global;
use twisted::Twist;

/// The place of the element `x` among these.
fn place_in(elements: &Nats, x: u32) -> Option<u32>
    ensures place { result ≡ place_in elements.now x }
{
    first_below(
        elements.len(),
        |p| if elements.at(p) == x { Some(p) } else { None },
    )
}

/// The place of the product of the elements at two places, among these.
fn product_place(group: &Group, elements: &Nats, p: u32, r: u32) -> u32
    requires elements { (q : ℕ) → q < length elements.now
        → slice_index elements.now q < group.now.order }
    requires p_below { p < length elements.now }
    requires r_below { r < length elements.now }
    ensures place { result ≡ product_place group.now elements.now p r }
{
    let product = group.product(elements.at(p), elements.at(r));
    place_in(elements, product).unwrap_or(0)
}

/// The group of these elements, on their places.
fn places_group(alloc: Global, group: &Group, elements: &Nats) -> Result<Group, Memory>
    requires elements { (q : ℕ) → q < length elements.now
        → slice_index elements.now q < group.now.order }
    requires small { IsSmall (length elements.now) }
    requires lawful { IsGroup (table_of group.now elements.now) }
    ensures group { IfOk result (λ places. places ≡ table_of group.now elements.now) }
{
    let size = elements.len();
    let table = Nats::by_pairs(alloc, size, |p, r| product_place(group, elements, p, r))?;
    Group::from_lawful(alloc, size, table)
}

/// The slant product at `a` of these elements, for each pair of their places.
fn phases(alloc: Global, w: &Cocycle, a: u32, elements: &Nats) -> Result<Nats, Memory>
    requires a_below { a < w.now.group.order }
    requires elements { (q : ℕ) → q < length elements.now
        → slice_index elements.now q < w.now.group.order }
    requires small { IsSmall (length elements.now) }
    ensures phases { IfOk result
        (λ phases. phases ≡ by_pairs (length elements.now) (phase_at w.now a elements.now)) }
{
    Nats::by_pairs(
        alloc,
        elements.len(),
        |p, r| theta(w, a, elements.at(p), elements.at(r)),
    )
}

/// The centraliser of `a` with the slant product at `a`, a 2-cocycle modulo the number of roots (Dijkgraaf, Pasquier, Roche 1990).
#[tactic(auto, using(crate::proofs::TwistLaws::elements_below, crate::proofs::TwistLaws::elements_few), unfolding(crate::specs::Twists::twist_of))]
pub fn twist_at(alloc: Global, w: &Cocycle, a: u32) -> Result<Twist, Memory>
    requires a_below { a < w.now.group.order }
    ensures twist { IfOk result (λ twist. twist ≡ twist_of w.now a) }
{
    let group = w.group();
    let elements = centraliser(alloc, group, a)?;
    let places = places_group(alloc, group, &elements)?;
    let phases = phases(alloc, w, a, &elements)?;
    Ok(Twist::new(a, elements, places, w.roots(), phases))
}
