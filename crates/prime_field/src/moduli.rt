//! The primes that may be moduli.

ghost use Rattle.std.specs.Prelude.{◌≡◌, ◌==◌};
ghost use Rattle.std.specs.List.{list_any};
ghost use Rattle.prime_field.specs.Moduli.{is_modulus};

/// The moduli, in ascending order. Each is a prime.
const MODULI: [u32; 15] = [
    5, 7, 13, 17, 61, 73, 97, 101, 109, 113, 127, 193, 197, 241, 337,
];

// Whether the number is listed.
fn is_listed(numbers: &[u32], q: u32) -> bool
    ensures { result ≡ list_any (λ m. m == q) numbers.now }
{
    numbers.iter().any(|m| *m == q)
}

/// Whether `q` is one of the moduli.
#[tactic(auto, unfolding(crate::specs::Moduli::is_modulus, crate::specs::Moduli::moduli))]
pub(crate) fn is_modulus(q: u32) -> bool
    ensures { result ≡ is_modulus q }
{
    is_listed(&MODULI, q)
}
