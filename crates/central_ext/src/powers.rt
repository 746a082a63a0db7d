//! Powers in the extension, by squaring, and the phases of powers in the twisted group algebra.

ghost use Rattle.std.specs.Prelude.{◌≡◌, ◌<◌};
ghost use Rattle.twisted.specs.Twist.{size, IsTwist};
ghost use Rattle.central_ext.specs.Extension.{IsPair, ext_power, power_phase};

use crate::extension::{ext_identity, ext_product};
use crate::pair::Pair;
use twisted::Twist;

/// The product of `j` factors `a`.
#[tactic(auto, using(crate::proofs::PairPowers::power_none, crate::proofs::PairPowers::power_even, crate::proofs::PairPowers::power_odd))]
fn ext_power(twist: &Twist, a: Pair, j: u32) -> Pair
    requires a { IsPair twist.now a }
    ensures power { result ≡ ext_power twist.now a j }
    ensures pair { IsPair twist.now result }
    ensures twist { IsTwist twist.now }
{
    if j == 0 {
        return ext_identity(twist);
    }
    let even = ext_power(twist, ext_product(twist, a, a), j / 2);
    if j % 2 == 0 {
        even
    } else {
        ext_product(twist, even, a)
    }
}

/// The phase of the power `u_p^j` in the twisted group algebra: `u_p^j` is the root with this exponent times `u_q`, where `q` is the place
/// `p^j`. It is below the modulus, and 0 for `j = 0`.
#[tactic(auto, using(crate::proofs::PairPowers::power_of_lift))]
pub fn power_phase(twist: &Twist, p: u32, j: u32) -> u32
    requires p_below { p < size twist.now }
    ensures phase { result ≡ power_phase twist.now p j }
    ensures below { result < twist.now.modulus }
{
    let lift = Pair {
        place: p,
        ..ext_identity(twist)
    };
    ext_power(twist, lift, j).root
}
