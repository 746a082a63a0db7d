//! Laws of the definitions: each function has an empty body, and its clauses are theorems.

ghost use Rattle.std.specs.Prelude.{◌≡◌, ◌≢◌, ℕ, ◌-◌, ◌%◌, ℤ, List, true, Some, ◌⊎◌};
ghost use Rattle.algebra.specs.Below.{Below};
ghost use Rattle.algebra.specs.Sums.{power};
ghost use Rattle.cyclotomic.specs.Polynomial.{plus, times};
ghost use Rattle.cyclotomic.specs.Division.{remainder};
ghost use Rattle.cyclotomic.specs.Cyclotomic.{cyclotomic};
ghost use Rattle.cyclotomic.specs.Conductors.{is_conductor};
ghost use Rattle.prime_field.specs.Moduli.{is_modulus, least_root, ServesConductor};
ghost use Rattle.prime_field.specs.Evaluation.{reduced, value_at};
ghost use Rattle.prime_field.specs.WholeNumbers.{polynomial_at};
ghost use Rattle.prime_field.specs.Field.{field, field_residue};

/// Each modulus is a prime, and the residues modulo it are a field: a residue other than 0 has one inverse, a product is 0 only
/// where a factor is, and the power q of a residue is that residue.
#[tactic(auto, using(crate::proofs::Primes::modulus_prime, crate::proofs::Primes::one_inverse, crate::proofs::Primes::product_nought, crate::specs::Laws::Field::residue_power))]
pub fn field_laws()
    ensures prime { (q : ℕ) → is_modulus q ≡ true → (d : ℕ) → q % d ≡ 0 → (d ≡ 1) ⊎ (d ≡ q) }
    ensures inverse { (q : ℕ) (listed : is_modulus q ≡ true) (x : Below q)
        → x ≢ (field q listed).nought → (y : Below q)
        × ((field q listed).mul x y ≡ (field q listed).one) }
    ensures one_inverse { (q : ℕ) (listed : is_modulus q ≡ true) (x y z : Below q)
        → (field q listed).mul x y ≡ (field q listed).one
        → (field q listed).mul x z ≡ (field q listed).one → y ≡ z }
    ensures product { (q : ℕ) (listed : is_modulus q ≡ true) (x y : Below q)
        → (field q listed).mul x y ≡ (field q listed).nought → (x ≡ (field q listed).nought)
        ⊎ (y ≡ (field q listed).nought) }
    ensures power { (q : ℕ) (listed : is_modulus q ≡ true) (x : Below q)
        → power (field q listed) x q ≡ x }
{}

/// Each conductor has a modulus over 60 that is valid for it.
#[tactic(auto, using(crate::proofs::ConductorModuli::conductor_modulus))]
pub fn modulus_laws()
    ensures served { (k : ℕ) → is_conductor k ≡ true → (q : ℕ) × ServesConductor q k }
{}

/// The value of a polynomial with whole coefficients at a residue is that of its coefficients modulo q. It respects sums and
/// products, and at the least root of the cyclotomic polynomial of K it is that of the remainder.
#[tactic(auto, using(crate::proofs::PolynomialValues::polynomial_value_is, crate::specs::Laws::Field::value_of_remainder))]
pub fn evaluation_laws()
    ensures value { (q : ℕ) (listed : is_modulus q ≡ true) (r : ℕ) (p : List ℤ)
        → (polynomial_at (field q listed) (field_residue q listed r) p).value
        ≡ value_at q r (reduced q p) }
    ensures sum { (q : ℕ) (listed : is_modulus q ≡ true) (z : Below q) (p s : List ℤ)
        → polynomial_at (field q listed) z (plus p s)
        ≡ (field q listed).add (polynomial_at (field q listed) z p) (polynomial_at (field q listed)
        z s) }
    ensures product { (q : ℕ) (listed : is_modulus q ≡ true) (z : Below q) (p s : List ℤ)
        → polynomial_at (field q listed) z (times p s)
        ≡ (field q listed).mul (polynomial_at (field q listed) z p) (polynomial_at (field q listed)
        z s) }
    ensures remainder { (q : ℕ) (listed : is_modulus q ≡ true) (k r : ℕ) → is_conductor k ≡ true
        → least_root q k ≡ Some r → (p : List ℤ)
        → polynomial_at (field q listed) (field_residue q listed r) (remainder (cyclotomic k) p)
        ≡ polynomial_at (field q listed) (field_residue q listed r) p }
{}

/// The least root modulo q of the cyclotomic polynomial of K, where q doesn't divide K, has the order K in the field, and K
/// divides q - 1.
#[tactic(auto, using(crate::proofs::RootOrder::root_cycle, crate::proofs::RootOrder::root_order, crate::proofs::RootOrder::root_divides))]
pub fn root_laws()
    ensures cycle { (q : ℕ) (listed : is_modulus q ≡ true) (k r : ℕ) → is_conductor k ≡ true
        → k % q ≢ 0 → least_root q k ≡ Some r
        → power (field q listed) (field_residue q listed r) k ≡ (field q listed).one }
    ensures order { (q : ℕ) (listed : is_modulus q ≡ true) (k r : ℕ) → is_conductor k ≡ true
        → k % q ≢ 0 → least_root q k ≡ Some r → (e : ℕ)
        → power (field q listed) (field_residue q listed r) e ≡ (field q listed).one → e % k ≡ 0 }
    ensures divides { (q : ℕ) → is_modulus q ≡ true → (k r : ℕ) → is_conductor k ≡ true → k % q ≢ 0
        → least_root q k ≡ Some r → (q - 1) % k ≡ 0 }
{}
