//! Ring objects: what later layers compute over.

ghost use Rattle.std.specs.Prelude.{◌≡◌, ℕ, ◌+◌, ◌<◌, ◌↔◌, true, IsTrue, IfSome, is_some};
ghost use Rattle.algebra.specs.Structures.{CommRing};
ghost use Rattle.algebra.specs.Sums.{power};
ghost use Rattle.algebra.specs.Roots.{RootOfUnity};
ghost use Rattle.qd_ring.specs.Fit.{FitRules};

/// A ring object: it computes in a commutative ring with a root of unity, within rules of fit.
///
/// Some of the elements are values of the object, and each value stands for an element of the
/// abstract ring `ops`, whose laws are the fields of that record. The fields of `unit` are the root
/// z with `z^order = 1` and its two further laws, and `rules` says which results are given.
pub trait Ring {
    /// What the ring object computes with.
    type Elem: Copy;

    ghost Carrier: { Self → Type 0 };

    ghost ops: { (r : Self) → CommRing (Carrier r) };

    ghost order: { Self → ℕ };

    ghost unit: { (r : Self) → RootOfUnity (ops r) (order r) };

    ghost rules: { (r : Self) → FitRules (ops r) };

    ghost IsValue: { Self → Self.Elem → Type 0 };

    ghost of: { (r : Self) → Self.Elem → Carrier r };

    /// The number of powers of z; exponents count modulo it.
    fn unit_order(&self) -> u32
        ensures { result ≡ order self.now };

    /// The value 0.
    fn zero(&self) -> Self::Elem
        ensures value { IsValue self.now result }
        ensures nought { of self.now result ≡ (ops self.now).nought };

    /// The value 1.
    fn one(&self) -> Self::Elem
        ensures value { IsValue self.now result }
        ensures one { of self.now result ≡ (ops self.now).one };

    /// The sum; `None` exactly where it doesn't fit.
    fn try_add(&self, a: &Self::Elem, b: &Self::Elem) -> Option<Self::Elem>
        requires a_value { IsValue self.now a.now }
        requires b_value { IsValue self.now b.now }
        ensures fits { is_some result ≡ (rules self.now).fits
            ((ops self.now).add (of self.now a.now) (of self.now b.now)) }
        ensures value { IfSome result (λ sum. IsValue self.now sum) }
        ensures sum { IfSome result (λ sum. of self.now sum
            ≡ (ops self.now).add (of self.now a.now) (of self.now b.now)) };

    /// The product; `None` exactly where it doesn't fit.
    fn try_mul(&self, a: &Self::Elem, b: &Self::Elem) -> Option<Self::Elem>
        requires a_value { IsValue self.now a.now }
        requires b_value { IsValue self.now b.now }
        ensures fits { is_some result ≡ (rules self.now).product_fits (of self.now a.now)
            (of self.now b.now) }
        ensures value { IfSome result (λ product. IsValue self.now product) }
        ensures product { IfSome result (λ product. of self.now product
            ≡ (ops self.now).mul (of self.now a.now) (of self.now b.now)) };

    /// The multiple by `z^e`; `None` exactly where it doesn't fit.
    fn try_scale(&self, e: u32, a: &Self::Elem) -> Option<Self::Elem>
        requires { IsValue self.now a.now }
        ensures fits { is_some result ≡ (rules self.now).fits
            ((ops self.now).mul (power (ops self.now) (unit self.now).root e) (of self.now a.now)) }
        ensures value { IfSome result (λ multiple. IsValue self.now multiple) }
        ensures multiple { IfSome result (λ multiple. of self.now multiple
            ≡ (ops self.now).mul (power (ops self.now) (unit self.now).root e)
            (of self.now a.now)) };

    /// Whether two values stand for the same.
    fn same(&self, a: &Self::Elem, b: &Self::Elem) -> bool
        requires a_value { IsValue self.now a.now }
        requires b_value { IsValue self.now b.now }
        ensures { IsTrue result ↔ (of self.now a.now ≡ of self.now b.now) };

    // every value fits
    ghost values_fit: { (r : Self) (a : Self.Elem) → IsValue r a → (rules r).fits (of r a) ≡ true };

    // a root multiple of 1 fits
    ghost roots_fit: { (r : Self) (e : ℕ) → (rules r).fits (power (ops r) (unit r).root e) ≡ true };
}
