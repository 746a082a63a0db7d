//! Powers in rings that need not commute: traces of powers of sums, and the central elements of crossed products.
//!
//! The definitions stand in `specs/`, and their laws, for every ring, in the files of `proofs/`, which the crates above
//! import. The functions below carry the two main ones as contracts; they do nothing when called.
#![tactic(auto)]

ghost use Rattle.power_theory.specs.Theorems.{PowersOfSums, CentralPowersFixed};

/// In characteristic q the trace of `(a + b)^q` is the sum of those of `a^q` and `b^q`, whether or not a and b commute.
pub fn powers_of_sums()
    ensures { PowersOfSums }
{}

/// In a crossed product with a finite group of fewer than q elements, in characteristic q, each element that commutes with
/// every `u_x` is its own q-th power, where the numbers and the `u_x` are so.
pub fn central_powers_fixed()
    ensures { CentralPowersFixed }
{}
