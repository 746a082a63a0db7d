//! Values in sparse form.

ghost use Rattle.std.specs.Prelude.{◌≡◌, ℕ, ◌+◌, ◌<◌, ◌≤◌, nat_abs, true, All, IfSome, is_some};
ghost use Rattle.cyclotomic.specs.Conductors.{is_conductor};
ghost use Rattle.cyclotomic.specs.Cyclotomic.{cyclotomic};
ghost use Rattle.cyclotomic.specs.Fit.{product_fits};
ghost use Rattle.cyclotomic.specs.Ring.{value_sum, value_multiple, value_product};
ghost use Rattle.cyclotomic.specs.CyclotomicRing.{cyclotomic_value, root};
ghost use Rattle.arrayvec.specs.ArrayVec.{array_vec_len};
ghost use Rattle.qd_ring.specs.SparseValues.{value_of_terms, total_of_terms};

use crate::cyc::Cyc;
use crate::monomial::Monomial;
use crate::reduction::reduction;
use crate::sparse_buffer::product;
use arrayvec::ArrayVec;
use std::marker::Model;

/// A product of two values fits where the product of their sizes is below this number.
const PRODUCT_LIMIT: u128 = 1 << 108;

/// The sparse form of a value: its coefficients that aren't 0, each at a power of x; seen as the
/// list of these.
///
/// It stands for `value_of_terms K terms`. It exists only where K is an entry of the table of
/// conductors.
#[derive(Debug, Drop)]
pub struct Terms<const K: u32> {
    terms: ArrayVec<Monomial, 42>,
    size: u128,
    total: u128,
}

impl<const K: u32> Model for Terms<K> {
    ghost use Rattle.std.specs.Prelude.{List};
    ghost use Rattle.qd_ring.specs.declared.monomial.Monomial.{Monomial};
    ghost use Rattle.qd_ring.specs.SparseValues.{IsSparse};

    ghost Value = { List Monomial };

    ghost view = { λ t. t.terms.items };

    ghost invariant = { λ t. IsSparse K t.terms.items t.size t.total };
}

// Adds a coefficient at a power, where it isn't 0.
fn push_term(terms: &mut ArrayVec<Monomial, 42>, power: u32, coefficient: i128)
    requires { array_vec_len terms.old < 42 }
    ensures few { array_vec_len terms.new ≤ array_vec_len terms.old + 1 }
    ensures powers { (k : ℕ) → power < k → All (λ term. term.power < k) terms.old.items
        → All (λ term. term.power < k) terms.new.items }
    ensures total { total_of_terms terms.new.items ≡ total_of_terms terms.old.items
        + nat_abs coefficient }
    ensures value { (k : ℕ) → value_of_terms k terms.new.items
        ≡ value_sum (value_of_terms k terms.old.items) (value_multiple coefficient (root k power)) }
{
    if coefficient != 0 {
        terms.push(Monomial { power, coefficient });
    }
}

impl<const K: u32> Terms<K> {
    /// The sparse form of a value.
    #[tactic(auto, using(cyclotomic::proofs::Checks::reduction_length, crate::specs::ReductionSigns::conductor_bounds))]
    pub fn of(v: &Cyc<K>) -> Terms<K>
        ensures { value_of_terms K result ≡ cyclotomic_value K v.now.coefficients }
    {
        let phi = reduction(K).len() as u32;
        let mut terms = ArrayVec::new();
        let mut total = 0;
        for power in 0..phi {
            let coefficient = v.coefficients[power as usize];
            push_term(&mut terms, power, coefficient);
            total += coefficient.unsigned_abs();
        }
        Terms {
            terms,
            size: v.size(),
            total,
        }
    }

    /// The sum of the magnitudes of the coefficients.
    pub fn total(&self) -> u128
        ensures { result ≡ total_of_terms self.now }
    {
        self.total
    }

    // The coefficients that aren't 0.
    pub(crate) fn terms(&self) -> &[Monomial]
        ensures terms { result.now ≡ self.now }
        ensures powers { All (λ term. term.power < K) self.now }
        ensures conductor { is_conductor K ≡ true }
    {
        self.terms.as_slice()
    }

    /// The product; `None` exactly where the two values don't fit together.
    pub fn try_mul(&self, b: &Terms<K>) -> Option<Cyc<K>>
        ensures fits { is_some result ≡ product_fits (value_of_terms K self.now)
            (value_of_terms K b.now) }
        ensures value { IfSome result
            (λ value. cyclotomic_value K value.coefficients
            ≡ value_product (cyclotomic K) (value_of_terms K self.now)
            (value_of_terms K b.now)) }
    {
        match self.size.checked_mul(b.size) {
            Some(sizes) if sizes < PRODUCT_LIMIT => Some(Cyc {
                coefficients: product(K, self.terms.as_slice(), b.terms.as_slice()),
            }),
            _ => None,
        }
    }
}
