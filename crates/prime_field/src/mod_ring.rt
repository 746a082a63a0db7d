//! The field of residues modulo a listed prime.

ghost use Rattle.std.specs.Prelude.{◌≡◌, ◌≢◌, ◌*◌, ◌%◌, ◌<◌, ◌==◌, true, None, Some, IfOk, IfErr, IfSome, IfNone};
ghost use Rattle.algebra.specs.Sums.{power};
ghost use Rattle.cyclotomic.specs.Conductors.{is_conductor};
ghost use Rattle.prime_field.specs.Moduli.{is_modulus, least_root, modulus_fault};
ghost use Rattle.prime_field.specs.Inverses.{inverse_modulo};
ghost use Rattle.prime_field.specs.Field.{field, field_residue};

use crate::cyclotomic_root::least_root;
use crate::fault::ModulusFault;
use crate::moduli::is_modulus;
use scan::first_below;

/// The field of residues modulo a listed prime, with the least root of the cyclotomic polynomial of a conductor.
///
/// The residues are the numbers below the modulus, and the root is a root of unity whose order is the conductor.
#[derive(Clone, Copy, Debug)]
pub struct ModRing {
    /// The modulus.
    pub q: u32,
    /// The conductor, which the modulus doesn't divide.
    pub conductor: u32,
    /// The least root.
    pub root: u32,
    ghost listed: { is_modulus q ≡ true },
    ghost entry: { is_conductor conductor ≡ true },
    ghost apart: { conductor % q ≢ 0 },
    ghost least: { least_root q conductor ≡ Some root },
}

impl ModRing {
    /// The field modulo `q`, which has to be over `above`, with the least root for `conductor`. It is refused with the first
    /// condition that fails: the range, the list of moduli, that `q` doesn't divide the conductor, and that there is a root.
    #[tactic(auto, unfolding(crate::specs::Moduli::modulus_fault))]
    pub fn new(q: u32, above: u32, conductor: u32) -> Result<ModRing, ModulusFault>
        requires entry { is_conductor conductor ≡ true }
        ensures valid { IfOk result (λ ring. modulus_fault q above conductor ≡ None) }
        ensures modulus { IfOk result (λ ring. ring.q ≡ q) }
        ensures conductor { IfOk result (λ ring. ring.conductor ≡ conductor) }
        ensures root { IfOk result (λ ring. least_root q conductor ≡ Some ring.root) }
        ensures refused { IfErr result (λ fault. modulus_fault q above conductor ≡ Some fault) }
    {
        if q <= above || q >= 65_536 {
            return Err(ModulusFault::Range { q, above });
        }
        if !is_modulus(q) {
            return Err(ModulusFault::Unlisted { q });
        }
        if conductor % q == 0 {
            return Err(ModulusFault::DividesConductor { q, conductor });
        }
        match least_root(q, conductor) {
            Some(root) => Ok(ModRing { q, conductor, root }),
            None => Err(ModulusFault::NoRoot { q, conductor }),
        }
    }

    /// The modulus, a listed prime.
    pub fn q(&self) -> u32
        ensures q { result ≡ self.now.q }
        ensures listed { is_modulus result ≡ true }
    {
        self.q
    }

    /// The least root modulo q of the cyclotomic polynomial of the conductor.
    pub fn root(&self) -> u32
        ensures root { result ≡ self.now.root }
        ensures least { least_root self.now.q self.now.conductor ≡ Some result }
        ensures below { result < self.now.q }
    {
        self.root
    }

    /// The inverse of `a` modulo q: the number below q whose product with `a` is 1 modulo q. `None` exactly where `a` is 0 modulo q.
    pub fn inverse(&self, a: u32) -> Option<u32>
        ensures inverse { result ≡ inverse_modulo self.now.q a }
        ensures below { IfSome result (λ b. b < self.now.q) }
        ensures product { IfSome result (λ b. (a * b) % self.now.q ≡ 1) }
        ensures there { IfSome result (λ b. a % self.now.q ≢ 0) }
        ensures absent { IfNone result (a % self.now.q ≡ 0) }
    {
        self.least_inverse(a % self.q)
    }

    // The least inverse of a residue.
    #[tactic(auto, unfolding(crate::specs::Inverses::inverse_modulo))]
    fn least_inverse(&self, a: u32) -> Option<u32>
        requires { a < self.now.q }
        ensures { result ≡ inverse_modulo self.now.q a }
    {
        first_below(self.q, |b| {
            if self.is_inverse(a, b) { Some(b) } else { None }
        })
    }

    // Whether the product of two residues is 1.
    #[tactic(auto, using(crate::proofs::Inverses::residues_fit))]
    fn is_inverse(&self, a: u32, b: u32) -> bool
        requires a_below { a < self.now.q }
        requires b_below { b < self.now.q }
        ensures { result ≡ ((a * b) % self.now.q == 1) }
    {
        a * b % self.q == 1
    }

    // The power of the root with this exponent, modulo q.
    pub(crate) fn root_power(&self, exponent: u32) -> u32
        ensures power { field_residue self.now.q self.now.listed result
            ≡ power (field self.now.q self.now.listed) (field_residue self.now.q self.now.listed
            self.now.root) exponent }
        ensures below { result < self.now.q }
    {
        let mut power = 1;
        for _step in 0..exponent {
            power = power * self.root % self.q;
        }
        power
    }
}
