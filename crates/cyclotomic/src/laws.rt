//! Laws of the definitions: each function has an empty body, and its clauses are theorems.

ghost use Rattle.std.specs.Prelude.{◌≡◌, ◌≢◌, ℕ, ◌+◌, ◌-◌, ◌*◌, ◌%◌, ◌<◌, ◌≤◌, ℤ, pos, List, [], ◌∷◌, ◌++◌, length, true, false, Some, None, not, ◌↔◌, IsPermutation};
ghost use Rattle.std.specs.Int.{IsGcd};
ghost use Rattle.algebra.specs.Sums.{sum_below, sum_list};
ghost use Rattle.cyclotomic.specs.Polynomial.{plus, times, scaled, leading, at_power, IsSamePolynomial};
ghost use Rattle.cyclotomic.specs.Division.{degree, division, remainder};
ghost use Rattle.cyclotomic.specs.Cyclotomic.{cyclotomic, divisor_product, x_to_minus_one};
ghost use Rattle.cyclotomic.specs.Conductors.{is_conductor, phi_of, reduction_of, least_conductor, IsLeastConductor};
ghost use Rattle.cyclotomic.specs.Ring.{Value, value_sum, value_negative, value_multiple, value_nought, value_of, value_one, value_product};
ghost use Rattle.cyclotomic.specs.CyclotomicRing.{CyclotomicValue, cyclotomic_ring, cyclotomic_value, root, galois_image, conjugate};
ghost use Rattle.cyclotomic.specs.Fit.{value_size, value_fits, product_fits, sizes_overflow};

/// Long division by a monic polynomial m: p is the quotient times m plus the remainder, which has
/// degree m coefficients.
pub fn division_laws()
    ensures parts { (m p : List ℤ) → leading m ≡ pos 1
        → IsSamePolynomial p (plus (times (division m p).0 m) (remainder m p)) }
    ensures below { (m p : List ℤ) → length (remainder m p) ≡ degree m }
{}

/// Taking the remainder by m respects sums, multiples and products, and a value is its own
/// remainder.
#[tactic(auto, using(crate::specs::Laws::Values::value_rules))]
pub fn remainder_laws()
    ensures sum { (m p q : List ℤ) → value_of m (plus p q)
        ≡ value_sum (value_of m p) (value_of m q) }
    ensures multiple { (m : List ℤ) (c : ℤ) (p : List ℤ)
        → value_of m (scaled c p) ≡ value_multiple c (value_of m p) }
    ensures product { (m p q : List ℤ) → value_of m (times p q)
        ≡ value_product m (value_of m p) (value_of m q) }
    ensures itself { (m : List ℤ) (u : Value (degree m)) → value_of m u.coefficients ≡ u }
{}

/// The values modulo m are a commutative ring with one.
#[tactic(auto, using(crate::specs::Laws::Values::value_rules))]
pub fn ring_laws()
    ensures sum_associative { (m : List ℤ) (u v w : Value (degree m))
        → value_sum (value_sum u v) w ≡ value_sum u (value_sum v w) }
    ensures sum_commutative { (m : List ℤ) (u v : Value (degree m))
        → value_sum u v ≡ value_sum v u }
    ensures sum_nought { (m : List ℤ) (u : Value (degree m)) → value_sum u value_nought ≡ u }
    ensures sum_negative { (m : List ℤ) (u : Value (degree m))
        → value_sum u (value_negative u) ≡ value_nought }
    ensures product_associative { (m : List ℤ) (u v w : Value (degree m))
        → value_product m (value_product m u v) w ≡ value_product m u (value_product m v w) }
    ensures product_commutative { (m : List ℤ) (u v : Value (degree m))
        → value_product m u v ≡ value_product m v u }
    ensures product_one { (m : List ℤ) (u : Value (degree m))
        → value_product m u (value_one m) ≡ u }
    ensures distributive { (m : List ℤ) (u v w : Value (degree m))
        → value_product m u (value_sum v w)
        ≡ value_sum (value_product m u v) (value_product m u w) }
{}

/// At each conductor K: x^K - 1 is the product of the Phi_d over the divisors d of K, and Phi_K is
/// monic, of degree phi(K), with the listed lower coefficients. At each divisor d of a conductor too
/// x^d - 1 is the product of the Phi_e over the divisors e of d, and Phi_d is monic. What is looked
/// up as the least conductor that is a multiple of m is that, and where nothing is found no
/// conductor is a multiple of m.
#[tactic(auto, using(crate::proofs::Checks::factored, crate::proofs::Checks::divisor_factored, crate::proofs::Checks::divisor_monic, crate::proofs::Checks::cyclotomic_is, crate::proofs::Fields::cyclotomic_monic, crate::proofs::Fields::cyclotomic_degree, crate::proofs::LeastConductor::none_is_none))]
pub fn conductor_laws()
    ensures factors { (k : ℕ) → is_conductor k ≡ true → divisor_product k k ≡ x_to_minus_one k }
    ensures monic { (k : ℕ) → is_conductor k ≡ true → leading (cyclotomic k) ≡ pos 1 }
    ensures degree { (k : ℕ) → is_conductor k ≡ true → degree (cyclotomic k) ≡ phi_of k }
    ensures reduction { (k : ℕ) → is_conductor k ≡ true
        → cyclotomic k ≡ reduction_of k ++ (pos 1 ∷ []) }
    ensures divisor_factors { (k d : ℕ) → is_conductor k ≡ true → k % d ≡ 0
        → divisor_product d d ≡ x_to_minus_one d }
    ensures divisor_monic { (k d : ℕ) → is_conductor k ≡ true → k % d ≡ 0
        → leading (cyclotomic d) ≡ pos 1 }
    ensures least { (m k : ℕ) → least_conductor m ≡ Some k → IsLeastConductor m k }
    ensures none { (m k : ℕ) → least_conductor m ≡ None → is_conductor k ≡ true → k % m ≢ 0 }
{}

/// x is a root of unity of order K modulo Phi_K, exactly: x^v is 1 where K divides v and nowhere
/// else. Its powers have coefficients -1, 0 and 1, the sum of its powers vanishes at every exponent
/// that isn't a multiple of K, and a whole multiple from 1 that is 0 comes from 0.
pub fn root_laws()
    ensures period { (k : ℕ) → is_conductor k ≡ true → root k k ≡ value_one (cyclotomic k) }
    ensures product { (k v w : ℕ) → root k (v + w)
        ≡ value_product (cyclotomic k) (root k v) (root k w) }
    ensures modulo { (k : ℕ) → is_conductor k ≡ true → (v : ℕ) → root k v ≡ root k (v % k) }
    ensures order { (k : ℕ) → is_conductor k ≡ true → (v : ℕ)
        → (root k v ≡ value_one (cyclotomic k)) ↔ (v % k ≡ 0) }
    ensures coefficients { (k : ℕ) → is_conductor k ≡ true → (v : ℕ) → value_size (root k v) ≤ 1 }
    ensures vanishing { (k : ℕ) → is_conductor k ≡ true → (e : ℕ) → e % k ≢ 0
        → sum_below (cyclotomic_ring k) k (λ j. root k (j * e)) ≡ value_nought }
    ensures cancelling { (k d : ℕ) (u : CyclotomicValue k) → 0 < d
        → value_multiple (pos d) u ≡ value_nought → u ≡ value_nought }
{}

/// The image under a number t prime to K respects the ring: it is the polynomial at x^t. It depends
/// on t modulo K alone, and the images under numbers that are inverse modulo K undo each other.
/// Conjugation is the image under K - 1.
#[tactic(auto, using(crate::proofs::Inverses::galois_value, crate::proofs::Inverses::galois_product, crate::proofs::Inverses::galois_one, crate::proofs::Inverses::galois_root, crate::proofs::Inverses::galois_modulo, crate::proofs::Inverses::galois_inverse, crate::proofs::Inverses::conjugate_conjugate, crate::proofs::Inverses::root_conjugate))]
pub fn image_laws()
    ensures value { (k : ℕ) → is_conductor k ≡ true → (t : ℕ) → IsGcd t k 1 → (p : List ℤ)
        → galois_image k t (cyclotomic_value k p) ≡ cyclotomic_value k (at_power t p) }
    ensures sum { (k t : ℕ) (u v : CyclotomicValue k)
        → galois_image k t (value_sum u v) ≡ value_sum (galois_image k t u) (galois_image k t v) }
    ensures product { (k : ℕ) → is_conductor k ≡ true → (t : ℕ) → IsGcd t k 1
        → (u v : CyclotomicValue k) → galois_image k t (value_product (cyclotomic k) u v)
        ≡ value_product (cyclotomic k) (galois_image k t u) (galois_image k t v) }
    ensures one { (k : ℕ) → is_conductor k ≡ true → (t : ℕ) → IsGcd t k 1
        → galois_image k t (value_one (cyclotomic k)) ≡ value_one (cyclotomic k) }
    ensures roots { (k : ℕ) → is_conductor k ≡ true → (t : ℕ) → IsGcd t k 1 → (v : ℕ)
        → galois_image k t (root k v) ≡ root k (t * v) }
    ensures modulo { (k : ℕ) → is_conductor k ≡ true → (t : ℕ) (u : CyclotomicValue k)
        → galois_image k t u ≡ galois_image k (t % k) u }
    ensures inverse { (k : ℕ) → is_conductor k ≡ true → (t s : ℕ) → (t * s) % k ≡ 1
        → (u : CyclotomicValue k) → galois_image k t (galois_image k s u) ≡ u }
    ensures conjugate { (k : ℕ) → is_conductor k ≡ true → IsGcd (k - 1) k 1 }
    ensures twice { (k : ℕ) → is_conductor k ≡ true → (u : CyclotomicValue k)
        → conjugate k (conjugate k u) ≡ u }
    ensures modulus { (k : ℕ) → is_conductor k ≡ true → (v : ℕ)
        → value_product (cyclotomic k) (root k v) (conjugate k (root k v))
        ≡ value_one (cyclotomic k) }
{}

/// A product of two values that fit together fits. Where the sizes of terms don't overflow
/// together, the terms of a front and the terms in any order don't, and their sum fits. One term
/// alone overflows exactly where it doesn't fit.
#[tactic(auto, using(crate::proofs::Bounds::product_that_fits, crate::proofs::Bounds::size_rules))]
pub fn fit_laws()
    ensures product { (k : ℕ) → is_conductor k ≡ true → (u v : CyclotomicValue k)
        → product_fits u v ≡ true → value_fits (value_product (cyclotomic k) u v) ≡ true }
    ensures front { (k : ℕ) (terms more : List (CyclotomicValue k))
        → sizes_overflow (terms ++ more) ≡ false → sizes_overflow terms ≡ false }
    ensures order { (k : ℕ) (terms others : List (CyclotomicValue k)) → IsPermutation terms others
        → sizes_overflow terms ≡ false → sizes_overflow others ≡ false }
    ensures sum { (k : ℕ) (terms : List (CyclotomicValue k)) → sizes_overflow terms ≡ false
        → value_fits (sum_list (cyclotomic_ring k) terms) ≡ true }
    ensures one_term { (k : ℕ) (u : CyclotomicValue k)
        → sizes_overflow (u ∷ []) ≡ not (value_fits u) }
{}
