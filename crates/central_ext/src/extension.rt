//! The group of pairs: products, inverses and the identity.

ghost use Rattle.std.specs.Prelude.{◌≡◌};
ghost use Rattle.twisted.specs.Twist.{IsTwist};
ghost use Rattle.central_ext.specs.Extension.{IsPair, ext_product, ext_identity, ext_inverse};

use crate::pair::Pair;
use twisted::Twist;

/// The product `(p,i)(r,j) = (pr, i + j + phase(p,r))` in the central extension of the group of the twist by its roots of unity, where
/// exponents count modulo the modulus (Schur 1904).
pub fn ext_product(twist: &Twist, a: Pair, b: Pair) -> Pair
    requires a { IsPair twist.now a }
    requires b { IsPair twist.now b }
    ensures product { result ≡ ext_product twist.now a b }
    ensures pair { IsPair twist.now result }
{
    Pair {
        place: twist.group().product(a.place, b.place),
        root: (a.root + b.root + twist.phase(a.place, b.place)) % twist.modulus(),
    }
}

/// The inverse `(p,i)^-1 = (p^-1, -(i + phase(p,p^-1)))` in the extension.
pub fn ext_inverse(twist: &Twist, a: Pair) -> Pair
    requires a { IsPair twist.now a }
    ensures inverse { result ≡ ext_inverse twist.now a }
    ensures pair { IsPair twist.now result }
{
    let place = twist.group().inverse(a.place);
    let modulus = twist.modulus();
    let root = (a.root + twist.phase(a.place, place)) % modulus;
    Pair {
        place,
        root: (modulus - root) % modulus,
    }
}

/// The identity of the extension.
pub fn ext_identity(twist: &Twist) -> Pair
    ensures identity { result ≡ ext_identity twist.now }
    ensures pair { IsPair twist.now result }
    ensures twist { IsTwist twist.now }
{
    Pair {
        place: twist.group().identity(),
        root: 0,
    }
}
