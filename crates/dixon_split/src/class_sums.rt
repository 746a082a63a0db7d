//! The class sums of a twist modulo a prime, and their products.

ghost use Rattle.std.specs.Prelude.{◌≡◌, ◌+◌, ◌*◌, ◌<◌, ◌≤◌, length, slice_range, IfOk};
ghost use Rattle.classes.specs.Conjugacy.{least_transporter};
ghost use Rattle.prime_field.specs.Field.{field_residue};
ghost use Rattle.prime_field.specs.ResidueLists.{AreBelow, IsTabulated};
ghost use Rattle.twisted.specs.Twist.{size, IsTwist};
ghost use Rattle.twisted.specs.Regular.{regular_representatives, rank};
ghost use Rattle.twisted.specs.Algebra.{exponent};
ghost use Rattle.dixon_split.specs.ClassSums.{residue_field, class_sum_value, sum_number, term_at, product_value, constant_number};
ghost use Rattle.dixon_split.specs.Values.{IsCentreOf};

use crate::arithmetic::{plus_product, tabulate};
use crate::structure::Structure;
use group_table::{Memory, Nats};
use prime_field::ModRing;
use qd_ring::root_of;
use scan::first_below;
use std::alloc::Global;
use twisted::{Twist, conjugate, kappa, regular_reps};

// The exponent of the field's root that stands for the exponent `v` modulo the modulus of the twist.
fn exponent(ring: &ModRing, twist: &Twist, v: u32) -> u32
    requires v_below { v < twist.now.modulus }
    ensures exponent { result ≡ exponent ring.now.conductor twist.now v }
{
    v * (ring.conductor / twist.modulus())
}

// The least place that carries `p` to `y`.
fn transporter(twist: &Twist, p: u32, y: u32) -> Option<u32>
    requires p_below { p < size twist.now }
    ensures least { result ≡ least_transporter twist.now.group p y }
{
    first_below(twist.size(), |c| {
        if conjugate(twist.group(), c, p) == y {
            Some(c)
        } else {
            None
        }
    })
}

// The class sum of `p` at the place `y`: the root of the conjugation phase of the least place that carries `p` there, or 0.
fn class_sum_at(ring: &ModRing, twist: &Twist, p: u32, y: u32) -> u32
    requires p_below { p < size twist.now }
    ensures value { result ≡ class_sum_value ring.now twist.now p y }
    ensures below { result < ring.now.q }
{
    match transporter(twist, p, y) {
        Some(c) => root_of(ring, exponent(ring, twist, kappa(twist, c, p))),
        None => 0,
    }
}

// The class sums one after another, place by place, at `n`.
fn sum_at(ring: &ModRing, twist: &Twist, places: &Nats, n: u32) -> u32
    requires places { places.now ≡ regular_representatives twist.now }
    requires n_below { n < rank twist.now * size twist.now }
    ensures value { result ≡ sum_number ring.now twist.now n }
    ensures below { result < ring.now.q }
{
    let size = twist.size();
    class_sum_at(ring, twist, places.at(n / size), n % size)
}

// The class sums of these places one after another, place by place.
fn class_sums(
    alloc: Global,
    ring: &ModRing,
    twist: &Twist,
    places: &Nats,
    count: u32,
) -> Result<Vec<u32>, Memory>
    requires places { places.now ≡ regular_representatives twist.now }
    requires count { count ≡ rank twist.now * size twist.now }
    ensures sums { IfOk result (λ sums.
        IsTabulated count (sum_number ring.now twist.now) sums.items) }
{
    tabulate(alloc, count, |n| sum_at(ring, twist, places, n))
}

// The `t`-th of the class sums.
fn row(sums: &[u32], size: usize, t: usize) -> &[u32]
    requires inside { t * size + size ≤ length sums.now }
    ensures row { result.now ≡ slice_range sums.now (t * size) (t * size + size) }
{
    let start = t * size;
    &sums[start..start + size]
}

// `sum`, and the term at `y` of the product of two elements at the place `x`.
fn plus_term(ring: &ModRing, twist: &Twist, a: &[u32], b: &[u32], x: u32, y: u32, sum: u32) -> u32
    requires a_count { length a.now ≡ size twist.now }
    requires a_below { AreBelow ring.now.q a.now }
    requires b_count { length b.now ≡ size twist.now }
    requires b_below { AreBelow ring.now.q b.now }
    requires x_below { x < size twist.now }
    requires y_below { y < size twist.now }
    requires sum_below { sum < ring.now.q }
    ensures sum { result ≡ ((residue_field ring.now).add
        (field_residue ring.now.q ring.now.listed sum)
        (term_at ring.now twist.now a.now b.now x y)).value }
    ensures below { result < ring.now.q }
{
    let first = a[y as usize];
    if first == 0 {
        return sum;
    }
    let group = twist.group();
    let place = group.product(group.inverse(y), x);
    let second = b[place as usize];
    if second == 0 {
        return sum;
    }
    let root = root_of(ring, exponent(ring, twist, twist.phase(y, place)));
    let product = plus_product(ring.q, 0, first, second);
    plus_product(ring.q, sum, root, product)
}

// The product of two elements at the place `x`.
fn product_at(ring: &ModRing, twist: &Twist, a: &[u32], b: &[u32], x: u32) -> u32
    requires a_count { length a.now ≡ size twist.now }
    requires a_below { AreBelow ring.now.q a.now }
    requires b_count { length b.now ≡ size twist.now }
    requires b_below { AreBelow ring.now.q b.now }
    requires x_below { x < size twist.now }
    ensures value { result ≡ product_value ring.now twist.now a.now b.now x }
    ensures below { result < ring.now.q }
{
    let mut sum = 0;
    for y in 0..twist.size() {
        sum = plus_term(ring, twist, a, b, x, y, sum);
    }
    sum
}

// The number of a class sum in the product of two, for the three that `n` stands for.
fn constant_at(ring: &ModRing, twist: &Twist, places: &Nats, sums: &[u32], n: u32) -> u32
    requires places { places.now ≡ regular_representatives twist.now }
    requires sums { IsTabulated (rank twist.now * size twist.now)
        (sum_number ring.now twist.now) sums.now }
    requires n_below { n < rank twist.now * rank twist.now * rank twist.now }
    ensures value { result ≡ constant_number ring.now twist.now n }
    ensures below { result < ring.now.q }
{
    let rank = places.len();
    let size = twist.size() as usize;
    let first = row(sums, size, (n / rank / rank) as usize);
    let second = row(sums, size, (n / rank % rank) as usize);
    product_at(ring, twist, first, second, places.at(n % rank))
}

// The numbers of the class sums in the products of two, row after row.
fn constants(
    alloc: Global,
    ring: &ModRing,
    twist: &Twist,
    places: &Nats,
    sums: &[u32],
    count: u32,
) -> Result<Vec<u32>, Memory>
    requires places { places.now ≡ regular_representatives twist.now }
    requires sums { IsTabulated (rank twist.now * size twist.now)
        (sum_number ring.now twist.now) sums.now }
    requires count { count ≡ rank twist.now * rank twist.now * rank twist.now }
    ensures constants { IfOk result (λ constants.
        IsTabulated count (constant_number ring.now twist.now) constants.items) }
{
    tabulate(alloc, count, |n| constant_at(ring, twist, places, sums, n))
}

// The centre of the twisted group algebra, with the class sums as its basis.
pub(crate) fn centre(alloc: Global, ring: &ModRing, twist: &Twist) -> Result<Structure, Memory>
    ensures centre { IfOk result (IsCentreOf ring.now twist.now) }
    ensures twist { IsTwist twist.now }
{
    let size = twist.size();
    let places = regular_reps(alloc, twist)?;
    let rank = places.len();
    let sums = class_sums(alloc, ring, twist, &places, rank * size)?;
    let constants = constants(
        alloc,
        ring,
        twist,
        &places,
        sums.as_slice(),
        rank * rank * rank,
    )?;
    Ok(Structure {
        q: ring.q,
        rank,
        constants,
    })
}
