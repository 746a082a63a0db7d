//! The cocycle of a dihedral group that its reflections give.

ghost use Rattle.std.specs.Prelude.{◌≡◌, ◌*◌, ◌<◌, ◌≤◌, None, IfOk, IfErr};
ghost use Rattle.group_make.specs.Refusal.{size_fault, Refuses};
ghost use Rattle.named_cocycles.specs.Makers.{reflections_value, reflections_cocycle};

use cochain::{Cocycle, exponents_by};
use group_make::{MakeRefusal, dihedral};
use std::alloc::Global;

/// 1 exactly where all three elements of the dihedral group of order `2 n` are reflections, else 0.
fn reflections_value(n: u32, x: u32, y: u32, z: u32) -> u32
    requires positive { 0 < n }
    requires x_few { x < 60 }
    requires y_few { y < 60 }
    requires z_few { z < 60 }
    ensures exponent { result ≡ reflections_value n x y z }
{
    x / n * (y / n * (z / n))
}

/// The cocycle of the dihedral group of order `2 n` that is -1 exactly where all three arguments are reflections. It is refused
/// exactly where the order is not from 1 to 60.
pub fn reflections(alloc: Global, n: u32) -> Result<Cocycle, MakeRefusal>
    ensures made { IfOk result (λ w. (size_fault (2 * n) ≡ None) × (w ≡ reflections_cocycle n)) }
    ensures refused { IfErr result (λ refusal. Refuses refusal (size_fault (2 * n))) }
{
    let group = dihedral(alloc, n)?;
    let order = group.order();
    let exponents = exponents_by(alloc, order, |x, y, z| reflections_value(n, x, y, z))?;
    Ok(Cocycle::from_lawful(alloc, group, 2, &exponents)?)
}
