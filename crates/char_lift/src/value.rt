//! Values with given multiplicities of roots of unity.

ghost use Rattle.std.specs.Prelude.{◌≡◌, ◌+◌, ◌≤◌, length, slice_index, true};
ghost use Rattle.algebra.specs.Sums.{multiple};
ghost use Rattle.cyclotomic.specs.Conductors.{is_conductor};
ghost use Rattle.cyclotomic.specs.Ring.{value_sum};
ghost use Rattle.cyclotomic.specs.CyclotomicRing.{cyclotomic_ring, cyclotomic_value, root};
ghost use Rattle.cyclotomic.specs.Fit.{value_size};
ghost use Rattle.qd_ring.specs.CycArrays.{array_of};
ghost use Rattle.char_lift.specs.Sums.{sum_of};
ghost use Rattle.char_lift.specs.Candidate.{with_multiplicities};

use group_table::Nats;
use qd_ring::{Cyc, Root};

/// The sum of a value and of `count` copies of the root of unity with the exponent `e`.
fn plus_copies<const K: u32>(value: &Cyc<K>, count: u32, e: u32) -> Cyc<K>
    requires conductor { is_conductor K ≡ true }
    requires small { value_size (cyclotomic_value K value.now.coefficients) + count ≤ 60 }
    ensures sum { cyclotomic_value K result.coefficients
        ≡ value_sum (cyclotomic_value K value.now.coefficients)
        (multiple (cyclotomic_ring K) count (root K e)) }
{
    let copy = Cyc::from_root(Root::new(e));
    let mut sum = *value;
    for _copy in 0..count {
        let Some(next) = sum.try_add(&copy) else {
            unreachable!()
        };
        sum = next;
    }
    sum
}

/// The value with these multiplicities of the roots of unity: that of the root with the exponent `i` stands at place `i`.
pub(crate) fn with_multiplicities<const K: u32>(multiplicities: &Nats) -> Cyc<K>
    requires conductor { is_conductor K ≡ true }
    requires count { length multiplicities.now ≡ K }
    requires few { sum_of K (slice_index multiplicities.now) ≤ 60 }
    ensures value { result.coefficients
        ≡ array_of (with_multiplicities K (slice_index multiplicities.now)) }
{
    let mut value = Cyc::zero();
    for i in 0..K {
        value = plus_copies(&value, multiplicities.at(i), i);
    }
    value
}
