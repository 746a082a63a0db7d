//! Roots of unity, as exponents.

ghost use Rattle.std.specs.Prelude.{◌≡◌, ◌+◌, ◌-◌, ◌%◌, ◌<◌, true};
ghost use Rattle.std.proofs.Math.Bool.{Bool-set};
ghost use Rattle.cyclotomic.specs.Conductors.{is_conductor};
ghost use Rattle.cyclotomic.proofs.Checks.{conductor_positive};
ghost use Rattle.algebra.specs.Below.{Below};
ghost use Rattle.algebra.specs.Residues.{residue, residue_group};

use crate::unit_group::UnitGroup;
use std::ops::Mul;

/// A root of unity: the power `x^exponent` of the variable, with an exponent modulo K.
///
/// A root exists only where K is an entry of the table of conductors.
#[derive(Clone, Copy, PartialEq, Eq, PartialOrd, Ord, Hash, Debug)]
pub struct Root<const K: u32> {
    /// Below K.
    pub exponent: u32,
    ghost conductor: { is_conductor K ≡ true },
    ghost reduced: { exponent < K },
}

impl<const K: u32> Root<K> {
    /// The root with exponent `e`, taken modulo K.
    #[tactic(auto, using(cyclotomic::proofs::Checks::conductor_positive))]
    pub fn new(e: u32) -> Root<K>
        requires { is_conductor K ≡ true }
        ensures { result.exponent ≡ e % K }
    {
        Root { exponent: e % K }
    }

    /// The exponent, below K.
    pub fn exponent(self) -> u32
        ensures exponent { result ≡ self.entry.exponent }
        ensures below { result < K }
    {
        self.exponent
    }
}

impl<const K: u32> Mul for Root<K> {
    type Output = Root<K>;

    ghost mul_gives = { λ r s product. product.exponent ≡ (r.exponent + s.exponent) % K };

    /// The product: exponents are added modulo K.
    fn mul(self, other: Root<K>) -> Root<K> {
        let sum = u64::from(self.exponent) + u64::from(other.exponent);
        Root {
            exponent: (sum % u64::from(K)) as u32,
        }
    }
}

impl<const K: u32> UnitGroup for Root<K> {
    ghost CanOne = { is_conductor K ≡ true };

    ghost Carrier = { Below K };

    ghost group = { λ entry. residue_group K (conductor_positive K entry) };

    ghost can = { λ r. r.conductor };

    ghost of = { λ r. record { value = r.exponent; below = r.reduced } };

    ghost same = { λ r s equal. λ i. record {
      exponent = (equal i).value;
      conductor = Bool-set (is_conductor K) true r.conductor s.conductor i;
      reduced = (equal i).below;
    } };

    /// The root 1, with exponent 0.
    fn one() -> Root<K> {
        Root { exponent: 0 }
    }

    /// The product.
    fn compose(self, other: Root<K>) -> Root<K> {
        self * other
    }

    /// The root with the opposite exponent.
    fn inverse(self) -> Root<K> {
        Root {
            exponent: (K - self.exponent) % K,
        }
    }
}

#[cfg(test)]
mod tests;
