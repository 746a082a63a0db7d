//! Conjugacy in the extension, and its classes.

ghost use Rattle.std.specs.Prelude.{◌≡◌, ℕ, ◌<◌, ◌≤◌, length, slice_index, Some, None, is_some, if◌then◌else◌, IfOk};
ghost use Rattle.scan.specs.First.{first};
ghost use Rattle.twisted.specs.Twist.{size, IsTwist};
ghost use Rattle.central_ext.specs.Extension.{IsPair};
ghost use Rattle.central_ext.specs.ExtensionClasses.{pair_count, pair_number, pair_at, ext_conjugate, are_conjugate, carries_to, first_of_class, class_number};

use crate::pair::Pair;
use group_table::{Memory, Nats};
use scan::first_below;
use std::alloc::Global;
use twisted::{Twist, conjugate, kappa};

/// The conjugate of `a` by the pairs over the place `c`. Their roots play no part in it.
fn carried(twist: &Twist, c: u32, a: Pair) -> Pair
    requires c_below { c < size twist.now }
    requires a { IsPair twist.now a }
    ensures carried { result ≡ ext_conjugate twist.now (record { place = c; root = 0 }) a }
    ensures pair { IsPair twist.now result }
    ensures twist { IsTwist twist.now }
{
    Pair {
        place: conjugate(twist.group(), c, a.place),
        root: (a.root + kappa(twist, c, a.place)) % twist.modulus(),
    }
}

/// Whether the pairs over the place `c` carry `a` to `b`.
fn carries_to(twist: &Twist, a: Pair, b: Pair, c: u32) -> bool
    requires a { IsPair twist.now a }
    requires c_below { c < size twist.now }
    ensures carries { result ≡ carries_to twist.now a b c }
{
    let carried = carried(twist, c, a);
    carried.place == b.place && carried.root == b.root
}

/// Whether the pairs over some place carry `a` to `b`.
fn some_carries(twist: &Twist, a: Pair, b: Pair) -> bool
    requires a { IsPair twist.now a }
    ensures some { result ≡ is_some (first (size twist.now)
        (λ c. if carries_to twist.now a b c then Some c else None)) }
    ensures twist { IsTwist twist.now }
{
    first_below(
        twist.size(),
        |c| if carries_to(twist, a, b, c) {
            Some(c)
        } else {
            None
        },
    )
    .is_some()
}

/// Whether the lifts `(p,i)` and `(p,j)` of the place `p` are conjugate in the extension.
pub fn lifts_conjugate(twist: &Twist, p: u32, i: u32, j: u32) -> bool
    requires p_below { p < size twist.now }
    requires i_below { i < twist.now.modulus }
    requires j_below { j < twist.now.modulus }
    ensures conjugate { result ≡ are_conjugate twist.now
        (record { place = p; root = i }) (record { place = p; root = j }) }
{
    some_carries(
        twist,
        Pair { place: p, root: i },
        Pair { place: p, root: j },
    )
}

/// The number of the pair `a`, in order of place and then root.
fn pair_number(twist: &Twist, a: Pair) -> u32
    requires a { IsPair twist.now a }
    ensures number { result ≡ pair_number twist.now a }
    ensures below { result < pair_count twist.now }
{
    a.place * twist.modulus() + a.root
}

/// The pair with the number `t`.
fn pair_at(twist: &Twist, t: u32) -> Pair
    requires t_below { t < pair_count twist.now }
    ensures pair { result ≡ pair_at twist.now t }
    ensures is_pair { IsPair twist.now result }
{
    let modulus = twist.modulus();
    Pair {
        place: t / modulus,
        root: t % modulus,
    }
}

/// The number of the first pair of the class of the pair with the number `t`.
fn first_of_class(twist: &Twist, t: u32) -> u32
    requires t_below { t < pair_count twist.now }
    ensures first { result ≡ first_of_class twist.now t }
    ensures at_most { result ≤ t }
    ensures twist { IsTwist twist.now }
{
    let a = pair_at(twist, t);
    let mut first = t;
    for c in 0..twist.size() {
        first = first.min(pair_number(twist, carried(twist, c, a)));
    }
    first
}

/// The classes of the extension: for each pair, in order of place times modulus plus root, the number of its class by first appearance.
/// The first pair has the number 0, and each pair that is conjugate to none before it the next number.
pub fn ext_classes(alloc: Global, twist: &Twist) -> Result<Nats, Memory>
    ensures size { IfOk result (λ numbers. length numbers ≡ pair_count twist.now) }
    ensures numbers { IfOk result (λ numbers. (t : ℕ) → t < pair_count twist.now
        → slice_index numbers t ≡ class_number twist.now t) }
{
    let mut numbers = Nats::empty(alloc);
    let mut next = 0;
    for t in 0..twist.size() * twist.modulus() {
        let first = first_of_class(twist, t);
        if first < t {
            numbers.push(numbers.at(first))?;
        } else {
            numbers.push(next)?;
            next += 1;
        }
    }
    Ok(numbers)
}
