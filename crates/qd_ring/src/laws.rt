//! Laws of sizes: each function has an empty body, and its clauses are theorems.

ghost use Rattle.std.specs.Prelude.{◌≡◌, ℕ, ◌+◌, ◌*◌, ◌^◌, ◌<◌, ◌≤◌, ◌&&◌, ℤ, pos, nat_abs, [], ◌∷◌, Bool, true, false, map, sum_by};
ghost use Rattle.std.specs.Int.{IsGcd};
ghost use Rattle.std.specs.List.{range_with_len};
ghost use Rattle.scan.specs.First.{all_below};
ghost use Rattle.algebra.specs.Sums.{sum_below, multiple};
ghost use Rattle.cyclotomic.specs.Conductors.{is_conductor, phi_of};
ghost use Rattle.cyclotomic.specs.Cyclotomic.{cyclotomic};
ghost use Rattle.cyclotomic.specs.Ring.{value_sum, value_multiple, value_nought, value_product};
ghost use Rattle.cyclotomic.specs.CyclotomicRing.{CyclotomicValue, cyclotomic_ring, cyclotomic_value, root, conjugate, galois_image};
ghost use Rattle.cyclotomic.specs.Fit.{value_size, value_fits, product_fits, sizes_overflow, greatest_magnitude};
ghost use Rattle.qd_ring.specs.Fit.{sum_overflows};
ghost use Rattle.qd_ring.specs.CyclotomicFit.{cyclotomic_fit};
ghost use Rattle.qd_ring.specs.Formed.{Formed, listed};
ghost use Rattle.qd_ring.specs.RootSums.{IsSumOfRoots};

/// How great the results of the operations are, by the sizes of what they are formed of: a reduced
/// power of x has size at most 1, so a value of size s has phi(K) s as a bound for its images and
/// root multiples.
#[tactic(auto, using(crate::proofs::SizeLaws::size_sum, crate::proofs::SizeLaws::size_multiple, crate::proofs::SizeLaws::size_image, crate::proofs::SizeLaws::size_turned, crate::proofs::SizeLaws::size_product, crate::proofs::SizeLaws::listed_fits))]
pub fn size_laws()
    ensures sum { (k : ℕ) (u v : CyclotomicValue k)
        → value_size (value_sum u v) ≤ value_size u + value_size v }
    ensures multiple { (k : ℕ) (c : ℤ) (u : CyclotomicValue k)
        → value_size (value_multiple c u) ≤ nat_abs c * value_size u }
    ensures image { (k : ℕ) → is_conductor k ≡ true → (t : ℕ) (u : CyclotomicValue k)
        → value_size (galois_image k t u) ≤ phi_of k * value_size u }
    ensures conjugate { (k : ℕ) → is_conductor k ≡ true → (u : CyclotomicValue k)
        → value_size (conjugate k u) ≤ phi_of k * value_size u }
    ensures turned { (k : ℕ) → is_conductor k ≡ true → (e : ℕ) (u : CyclotomicValue k)
        → value_size (value_product (cyclotomic k) (root k e) u) ≤ phi_of k * value_size u }
    ensures product { (k : ℕ) → is_conductor k ≡ true → (u v : CyclotomicValue k)
        → value_size (value_product (cyclotomic k) u v)
        ≤ (phi_of k * value_size u) * (phi_of k * value_size v) }
    ensures listed { (k n most : ℕ) (steps_fit : ℕ → Bool) (value : ℕ → CyclotomicValue k)
        → all_below n steps_fit ≡ true → ((i : ℕ) → i < n → value_size (value i) ≤ most)
        → n * most ≤ greatest_magnitude
        → sum_overflows (cyclotomic_ring k) (cyclotomic_fit k) n steps_fit value ≡ false }
{}

/// Listed sums as they are formed: where one doesn't overflow, each term is formed, the sizes of
/// the terms don't overflow together, a front of it doesn't overflow, and the sum fits. A sum of
/// one term is formed exactly where that term is formed and fits.
#[tactic(auto, using(crate::proofs::ListedSums::listed_sizes, crate::proofs::ListedSums::listed_front, crate::proofs::ListedSums::listed_value_fits, crate::proofs::ListedSums::listed_one))]
pub fn listed_sum_laws()
    ensures formed { (k n : ℕ) (term : ℕ → Formed k) → (listed k n term).fits ≡ true
        → (i : ℕ) → i < n → (term i).fits ≡ true }
    ensures sizes { (k n : ℕ) (term : ℕ → Formed k) → (listed k n term).fits ≡ true
        → sizes_overflow (map (λ i. (term i).value) (range_with_len 0 n)) ≡ false }
    ensures front { (k m n : ℕ) (term : ℕ → Formed k) → m ≤ n → (listed k n term).fits ≡ true
        → (listed k m term).fits ≡ true }
    ensures sum { (k n : ℕ) (term : ℕ → Formed k) → (listed k n term).fits ≡ true
        → value_fits (listed k n term).value ≡ true }
    ensures one_term { (k : ℕ) (term : ℕ → Formed k)
        → (listed k 1 term).fits ≡ ((term 0).fits && value_fits (term 0).value) }
{}

/// Sums of roots of unity: a sum of r roots has size at most r; conjugates, Galois images and root
/// multiples of sums of r roots are sums of r roots again; a sum has as many roots as its terms
/// together, and a product as many as those of its factors multiplied.
#[tactic(auto, using(crate::proofs::RootSumLaws::no_root, crate::proofs::RootSumLaws::one_root, crate::proofs::RootSumLaws::roots_whole, crate::proofs::RootSumLaws::roots_together, crate::proofs::RootSumLaws::roots_multiplied, crate::proofs::RootSumLaws::roots_turned, crate::proofs::RootSumLaws::roots_copied, crate::proofs::RootSumLaws::roots_below, crate::proofs::RootSumLaws::roots_imaged, crate::proofs::RootSumLaws::roots_conjugated, crate::proofs::RootSumLaws::roots_fit))]
pub fn root_sum_laws()
    ensures size { (k : ℕ) → is_conductor k ≡ true → (r : ℕ) (u : CyclotomicValue k)
        → IsSumOfRoots k r u
        → value_size u ≤ r }
    ensures fits { (k : ℕ) → is_conductor k ≡ true → (r : ℕ) (u : CyclotomicValue k)
        → IsSumOfRoots k r u
        → r ≤ greatest_magnitude → value_fits u ≡ true }
    ensures product_fits { (k : ℕ) → is_conductor k ≡ true → (r s : ℕ) (u v : CyclotomicValue k)
        → IsSumOfRoots k r u → IsSumOfRoots k s v → r * s < 2 ^ 108 → product_fits u v ≡ true }
    ensures nought { (k : ℕ) → IsSumOfRoots k 0 value_nought }
    ensures root { (k e : ℕ) → IsSumOfRoots k 1 (root k e) }
    ensures whole { (k n : ℕ) → IsSumOfRoots k n (cyclotomic_value k (pos n ∷ [])) }
    ensures sum { (k r s : ℕ) (u v : CyclotomicValue k) → IsSumOfRoots k r u → IsSumOfRoots k s v
        → IsSumOfRoots k (r + s) (value_sum u v) }
    ensures copies { (k n r : ℕ) (u : CyclotomicValue k) → IsSumOfRoots k r u
        → IsSumOfRoots k (n * r) (multiple (cyclotomic_ring k) n u) }
    ensures below { (k n : ℕ) (count : ℕ → ℕ) (value : ℕ → CyclotomicValue k)
        → ((i : ℕ) → i < n → IsSumOfRoots k (count i) (value i))
        → IsSumOfRoots k (sum_by count (range_with_len 0 n))
        (sum_below (cyclotomic_ring k) n value) }
    ensures product { (k r s : ℕ) (u v : CyclotomicValue k) → IsSumOfRoots k r u
        → IsSumOfRoots k s v
        → IsSumOfRoots k (r * s) (value_product (cyclotomic k) u v) }
    ensures turned { (k e r : ℕ) (u : CyclotomicValue k) → IsSumOfRoots k r u
        → IsSumOfRoots k r (value_product (cyclotomic k) (root k e) u) }
    ensures image { (k : ℕ) → is_conductor k ≡ true → (t : ℕ) → IsGcd t k 1
        → (r : ℕ) (u : CyclotomicValue k)
        → IsSumOfRoots k r u → IsSumOfRoots k r (galois_image k t u) }
    ensures conjugate { (k : ℕ) → is_conductor k ≡ true → (r : ℕ) (u : CyclotomicValue k)
        → IsSumOfRoots k r u
        → IsSumOfRoots k r (conjugate k u) }
{}
