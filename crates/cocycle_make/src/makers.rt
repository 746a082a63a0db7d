//! The cocycles that formulas give.

ghost use Rattle.std.specs.Prelude.{◌≡◌, ℕ, ◌*◌, None, IfOk, IfErr};
ghost use Rattle.group_make.specs.Refusal.{size_fault, Refuses};
ghost use Rattle.cochain.specs.Cochain.{IsRoots};
ghost use Rattle.cocycle_make.specs.Cocycles.{trivial_cocycle, type_one_cocycle, type_two_cocycle, type_three_cocycle};

use crate::lowest::{common_divisor, roots_of, step_of};
use crate::values::{type_one_value, type_three_value, type_two_value};
use cochain::{Cocycle, exponents_by};
use group_make::{MakeRefusal, cyclic, product};
use group_table::{Group, Memory};
use std::alloc::Global;

/// The cocycle that is 1 everywhere, with values in so many roots of unity.
pub fn trivial(alloc: Global, group: Group, roots: u32) -> Result<Cocycle, Memory>
    requires roots { IsRoots roots }
    ensures made { IfOk result (λ w. w ≡ trivial_cocycle group roots) }
{
    let exponents = exponents_by(alloc, group.order(), |_x, _y, _z| 0)?;
    Cocycle::from_lawful(alloc, group, roots, &exponents)
}

/// Type I on the cyclic group of order `n`: with `p` reduced modulo `n` and `g` the greatest common divisor of
/// `n` and `p`, the exponent at `(x, y, z)` is `(p/g) x` where `y + z` is at least `n`, else 0, modulo `n/g`. It
/// is refused exactly where the order is not from 1 to 60.
pub fn type_one(alloc: Global, n: u32, p: u32) -> Result<Cocycle, MakeRefusal>
    ensures made { IfOk result (λ w. (size_fault n ≡ None) × (w ≡ type_one_cocycle n p)) }
    ensures refused { IfErr result (λ refusal. Refuses refusal (size_fault n)) }
{
    let group = cyclic(alloc, n)?;
    let order = group.order();
    let step = step_of(n, p);
    let exponents = exponents_by(alloc, order, |x, y, z| type_one_value(n, step, x, y, z))?;
    Ok(Cocycle::from_lawful(alloc, group, roots_of(n, p), &exponents)?)
}

/// Type II on the product of the cyclic groups of orders `a` and `b`, whose pair `(x, y)` has the number
/// `x b + y`: with `p` reduced modulo `a` and `g` the greatest common divisor of `a` and `p`, the exponent at
/// three pairs is `(p/g) x1` where `y2 + y3` is at least `b`, else 0, modulo `a/g`. It is refused exactly where
/// the order is not from 1 to 60.
pub fn type_two(alloc: Global, a: u32, b: u32, p: u32) -> Result<Cocycle, MakeRefusal>
    ensures made { IfOk result (λ w. (size_fault (a * b) ≡ None) × (w ≡ type_two_cocycle a b p)) }
    ensures refused { IfErr result (λ refusal. Refuses refusal (size_fault (a * b))) }
{
    let group = product(alloc, 1, a, b)?;
    let order = group.order();
    let step = step_of(a, p);
    let exponents = exponents_by(alloc, order, |x, y, z| type_two_value(b, step, x, y, z))?;
    Ok(Cocycle::from_lawful(alloc, group, roots_of(a, p), &exponents)?)
}

/// Type III on the product of the cyclic groups of orders `a`, `b` and `c`, whose triple `(x, y, z)` has the
/// number `(x b + y) c + z`: with `t` their greatest common divisor, `p` reduced modulo `t` and `g` the greatest
/// common divisor of `t` and `p`, the exponent at three triples is `(p/g) x1 y2 z3` modulo `t/g`. It is refused
/// exactly where the order is not from 1 to 60.
pub fn type_three(alloc: Global, a: u32, b: u32, c: u32, p: u32) -> Result<Cocycle, MakeRefusal>
    ensures made { IfOk result (λ w. (size_fault (a * b * c) ≡ None)
        × (w ≡ type_three_cocycle a b c p)) }
    ensures refused { IfErr result (λ refusal. Refuses refusal (size_fault (a * b * c))) }
{
    let group = product(alloc, a, b, c)?;
    let order = group.order();
    let t = common_divisor(common_divisor(a, b), c);
    let step = step_of(t, p);
    let exponents = exponents_by(
        alloc,
        order,
        |x, y, z| type_three_value(b, c, step, x, y, z),
    )?;
    Ok(Cocycle::from_lawful(alloc, group, roots_of(t, p), &exponents)?)
}
