//! Inflation of a cocycle along a map between groups.

ghost use Rattle.std.specs.Prelude.{◌≡◌, ℕ, ◌*◌, ◌<◌, length, slice_index, None, Some, IfOk, IfErr};
ghost use Rattle.group_table.specs.Group.{product};
ghost use Rattle.cochain.specs.Cochain.{value};
ghost use Rattle.cocycle_make.specs.Cocycles.{inflated};
ghost use Rattle.cocycle_make.specs.Refusal.{is_multiplicative, map_fault_in, map_fault, RefusesMap};

use crate::refusal::InflateRefusal;
use cochain::{Cocycle, exponents_by};
use group_table::{Group, Nats};
use scan::first_below;
use std::alloc::Global;

/// Whether the image of the product of `g` and `h` is the product of their images.
fn is_multiplicative(group: &Group, map: &Nats, to: &Group, g: u32, h: u32) -> bool
    requires count { length map.now ≡ group.now.order }
    requires elements { (g : ℕ) → g < group.now.order → slice_index map.now g < to.now.order }
    requires g_below { g < group.now.order }
    requires h_below { h < group.now.order }
    ensures respects { result ≡ is_multiplicative group.now map.now to.now g h }
{
    map.at(group.product(g, h)) == to.product(map.at(g), map.at(h))
}

fn map_fault_in(group: &Group, map: &Nats, to: &Group, g: u32) -> Option<InflateRefusal>
    requires count { length map.now ≡ group.now.order }
    requires elements { (g : ℕ) → g < group.now.order → slice_index map.now g < to.now.order }
    requires g_below { g < group.now.order }
    ensures first { result ≡ map_fault_in group.now map.now to.now g }
{
    first_below(group.order(), |h| {
        if is_multiplicative(group, map, to, g, h) {
            None
        } else {
            Some(InflateRefusal::BadMap { g, h })
        }
    })
}

/// The least pair of elements whose product the map does not respect.
fn map_fault(group: &Group, map: &Nats, to: &Group) -> Option<InflateRefusal>
    requires count { length map.now ≡ group.now.order }
    requires elements { (g : ℕ) → g < group.now.order → slice_index map.now g < to.now.order }
    ensures first { result ≡ map_fault group.now map.now to.now }
{
    first_below(group.order(), |g| map_fault_in(group, map, to, g))
}

/// The exponent of `w` at the images of three elements.
fn image_value(group: &Group, map: &Nats, w: &Cocycle, x: u32, y: u32, z: u32) -> u32
    requires count { length map.now ≡ group.now.order }
    requires elements { (g : ℕ) → g < group.now.order → slice_index map.now g < w.now.group.order }
    requires x_below { x < group.now.order }
    requires y_below { y < group.now.order }
    requires z_below { z < group.now.order }
    ensures exponent { result ≡ value w.now (slice_index map.now x)
        (slice_index map.now y) (slice_index map.now z) }
{
    w.value(map.at(x), map.at(y), map.at(z))
}

/// The cocycle of `group` whose exponent at three elements is that of `from` at their images under `map`, which
/// lists an element of the group of `from` for each element of `group`. It is refused with the least pair whose
/// product `map` does not respect.
pub fn inflate(
    alloc: Global,
    group: Group,
    map: &Nats,
    from: &Cocycle,
) -> Result<Cocycle, InflateRefusal>
    requires count { length map.now ≡ group.order }
    requires elements { (g : ℕ) → g < group.order → slice_index map.now g < from.now.group.order }
    ensures made { IfOk result (λ w.
        (map_fault group map.now from.now.group ≡ None) × (w ≡ inflated group map.now from.now)) }
    ensures refused { IfErr result (λ refusal.
        RefusesMap refusal (map_fault group map.now from.now.group)) }
{
    match map_fault(&group, map, from.group()) {
        Some(refusal) => Err(refusal),
        None => {
            let exponents = exponents_by(alloc, group.order(), |x, y, z| {
                image_value(&group, map, from, x, y, z)
            })?;
            Ok(Cocycle::from_lawful(alloc, group, from.roots(), &exponents)?)
        }
    }
}
