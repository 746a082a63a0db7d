//! The degree of the candidate that a central character gives.

ghost use Rattle.std.specs.Prelude.{◌≡◌, ◌%◌, ◌*◌, ◌<◌, ◌≤◌, length, IfSome};
ghost use Rattle.twisted.specs.Twist.{size};
ghost use Rattle.prime_field.specs.ResidueLists.{AreBelow};
ghost use Rattle.char_lift.specs.Candidate.{degree_term, degree_sum, is_degree, least_degree};

use crate::root_powers::RootPowers;
use group_table::Nats;
use scan::first_below;
use twisted::Twist;

/// The term at the place `x` of the sum that the degree comes from.
fn degree_term(twist: &Twist, powers: &RootPowers, ratios: &Nats, x: u32) -> u32
    requires width { length ratios.now ≡ size twist.now }
    requires below { AreBelow powers.now.q ratios.now }
    requires x_below { x < size twist.now }
    ensures term { result ≡ degree_term twist.now powers.now.q powers.now.conductor powers.now.root ratios.now x % powers.now.q }
    ensures below { result < powers.now.q }
{
    let inverse = twist.group().inverse(x);
    let both = powers.product(ratios.at(x), ratios.at(inverse));
    let phase = twist.phase(x, inverse);
    powers.product(both, powers.inverse_root(twist, phase))
}

/// The sum over all places of the products of the character ratios at a place and at its inverse, each over the root of their phase.
pub(crate) fn degree_sum(twist: &Twist, powers: &RootPowers, ratios: &Nats) -> u32
    requires width { length ratios.now ≡ size twist.now }
    requires below { AreBelow powers.now.q ratios.now }
    ensures sum { result ≡ degree_sum twist.now powers.now.q powers.now.conductor powers.now.root ratios.now }
    ensures below { result < powers.now.q }
{
    let q = powers.q();
    let mut sum = 0;
    for x in 0..twist.size() {
        sum = (sum + degree_term(twist, powers, ratios, x)) % q;
    }
    sum
}

/// Whether `d` is a degree for `m` places and the sum `t`.
fn is_degree(powers: &RootPowers, m: u32, t: u32, d: u32) -> bool
    requires d_small { d ≤ 60 }
    requires t_below { t < powers.now.q }
    ensures degree { result ≡ is_degree powers.now.q m t d }
{
    let q = powers.q();
    d >= 1 && d * d <= m && d * d * t % q == m % q
}

/// The least degree `d` from 1 with `d d` at most `m` and `d d t = m` modulo the prime, for `m` places and the sum `t`.
#[tactic(auto, unfolding(crate::specs::Candidate::least_degree))]
pub(crate) fn least_degree(powers: &RootPowers, m: u32, t: u32) -> Option<u32>
    requires m_small { m ≤ 60 }
    requires t_below { t < powers.now.q }
    ensures least { result ≡ least_degree powers.now.q m t }
    ensures small { IfSome result (λ d. d * d ≤ m) }
{
    first_below(
        m + 1,
        |d| if is_degree(powers, m, t, d) {
            Some(d)
        } else {
            None
        },
    )
}
