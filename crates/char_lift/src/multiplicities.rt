//! The multiplicities of the eigenvalues of the candidate that a central character gives.

ghost use Rattle.std.specs.Prelude.{◌≡◌, ◌%◌, ◌<◌, ◌≤◌, length, slice_index, IfOk};
ghost use Rattle.twisted.specs.Twist.{size};
ghost use Rattle.prime_field.specs.ResidueLists.{AreBelow};
ghost use Rattle.char_lift.specs.Sums.{sum_of};
ghost use Rattle.group_table.specs.Numbers.{tabulated};
ghost use Rattle.char_lift.specs.Ratios.{inverse_residue};
ghost use Rattle.char_lift.specs.Candidate.{power_value, inverse_transform};

use crate::root_powers::RootPowers;
use group_table::{Memory, Nats};
use std::alloc::Global;
use twisted::Twist;

/// The values of the candidate with this degree at the powers of `u_x`, for the exponents below the conductor.
pub(crate) fn power_values(
    alloc: Global,
    twist: &Twist,
    powers: &RootPowers,
    ratios: &Nats,
    degree: u32,
    x: u32,
) -> Result<Nats, Memory>
    requires width { length ratios.now ≡ size twist.now }
    requires below { AreBelow powers.now.q ratios.now }
    requires degree_below { degree < powers.now.q }
    requires x_below { x < size twist.now }
    ensures values { IfOk result (λ values. values
        ≡ tabulated powers.now.conductor (λ j.
        power_value twist.now powers.now.q powers.now.conductor powers.now.root ratios.now degree x j % powers.now.q)) }
{
    let group = twist.group();
    let mut values = Nats::empty(alloc);
    let mut place = group.identity();
    let mut phase = 0;
    for _exponent in 0..powers.conductor() {
        let scaled = powers.product(powers.root(twist, phase), degree);
        values.push(powers.product(scaled, ratios.at(place)))?;
        phase = (phase + twist.phase(place, x)) % twist.modulus();
        place = group.product(place, x);
    }
    Ok(values)
}

/// The inverse transform of the values at `i`, where `inverse` is the inverse of the conductor.
fn inverse_transform(powers: &RootPowers, inverse: u32, values: &Nats, i: u32) -> u32
    requires inverse { inverse ≡ inverse_residue powers.now.q powers.now.conductor }
    requires inverse_below { inverse < powers.now.q }
    requires count { length values.now ≡ powers.now.conductor }
    requires below { AreBelow powers.now.q values.now }
    requires i_below { i < powers.now.conductor }
    ensures transform { result ≡ inverse_transform powers.now.q powers.now.conductor powers.now.root
        (slice_index values.now) i }
    ensures below { result < powers.now.q }
{
    let conductor = powers.conductor();
    let mut sum = 0;
    for j in 0..conductor {
        sum += values.at(j) * powers.power(conductor - i * j % conductor);
    }
    powers.product(inverse, sum % powers.q())
}

/// The inverse transform of the values.
pub(crate) fn multiplicities(
    alloc: Global,
    powers: &RootPowers,
    values: &Nats,
) -> Result<Nats, Memory>
    requires count { length values.now ≡ powers.now.conductor }
    requires below { AreBelow powers.now.q values.now }
    ensures multiplicities { IfOk result (λ numbers. numbers
        ≡ tabulated powers.now.conductor (inverse_transform powers.now.q powers.now.conductor powers.now.root (slice_index values.now))) }
{
    let inverse = powers.inverse(powers.conductor());
    Nats::tabulate(
        alloc,
        powers.conductor(),
        |i| inverse_transform(powers, inverse, values, i),
    )
}

/// The sum of the numbers, of which there are few, each small.
pub(crate) fn total(numbers: &Nats) -> u32
    requires few { length numbers.now ≤ 120 }
    requires small { AreBelow 337 numbers.now }
    ensures total { result ≡ sum_of (length numbers.now) (slice_index numbers.now) }
{
    let mut sum = 0;
    for i in 0..numbers.len() {
        sum += numbers.at(i);
    }
    sum
}
