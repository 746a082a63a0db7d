//! Powers of the central elements of a twisted group algebra over the residues modulo a listed prime.
#![tactic(auto)]

ghost use Rattle.centre_powers.specs.CentralPowers.{CentralPowersModulo};
ghost use Rattle.centre_powers.specs.Instances.{FourPeriod, PermutationPeriod};

use prime_field::ModRing;

/// Each element modulo q of a twisted group algebra that commutes with every `u_y` is its own q-th power: `z^q = z`. So it is
/// for every twist that has fewer than q places and whose modulus times the exponent of its group divides the conductor of
/// the field.
pub fn central_powers(ring: &ModRing)
    ensures fixed { CentralPowersModulo ring.now }
{}

/// Worked values: the modulus of a twist times the exponent of its group, for the four group and for the permutations of
/// three points.
pub fn instances()
    ensures four { FourPeriod }
    ensures permutations { PermutationPeriod }
{}
