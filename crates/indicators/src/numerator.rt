//! The numerator of an indicator, term by term.

ghost use Rattle.std.specs.Prelude.{◌≡◌, ◌<◌, ◌+◌, ◌*◌, ◌/◌, ◌%◌, ℕ, All, Some, None, true, length, slice_index, IfOk, IfErr, IfSome, IfNone, is_ok};
ghost use Rattle.cyclotomic.specs.Conductors.{is_conductor};
ghost use Rattle.cyclotomic.specs.CyclotomicRing.{cyclotomic_value};
ghost use Rattle.qd_ring.specs.Formed.{Forms, whole};
ghost use Rattle.qd_ring.specs.Totals.{IsTotal};
ghost use Rattle.indicators.specs.Indicators.{quotient_exponent, indicator_term, term_at, indicator_sum, indicator_site};

use group_table::Nats;
use qd_ring::{Cyc, Part, Root, Site, Total};

/// The exponent modulo K of the m-th power of a quotient of roots of unity with exponents `t` and `u`.
fn quotient_exponent<const K: u32>(m: u32, t: u32, u: u32) -> u32
    requires u_below { u < K }
    ensures exponent { result ≡ quotient_exponent K m t u }
{
    let quotient = (u64::from(t) + u64::from(K - u)) % u64::from(K);
    (u64::from(m) * quotient % u64::from(K)) as u32
}

/// The whole number, as a value.
fn whole<const K: u32>(number: u32) -> Cyc<K>
    requires conductor { is_conductor K ≡ true }
    ensures value { cyclotomic_value K result.coefficients ≡ whole K number }
{
    Cyc::whole(i128::from(number))
}

/// The term of simples `i` and `j` with this fusion number: it times their dimensions, times the m-th power of the quotient of their twists.
fn term<const K: u32>(
    number: u32,
    dims: &Nats,
    twists: &Nats,
    m: u32,
    i: u32,
    j: u32,
) -> Option<Cyc<K>>
    requires conductor { is_conductor K ≡ true }
    requires twists { length twists.now ≡ length dims.now }
    requires below { All (λ t. t < K) twists.now }
    requires i_below { i < length dims.now }
    requires j_below { j < length dims.now }
    ensures forms { Forms (indicator_term K dims.now twists.now m number i j) result }
{
    let exponent = quotient_exponent::<K>(m, twists.at(i), twists.at(j));
    whole::<K>(number)
        .try_mul(&whole(dims.at(i)))?
        .try_mul(&whole(dims.at(j)))?
        .try_times(Root::new(exponent))
}

/// The sum with the term of the pair with the number `q`, which is 0 where its fusion number is.
fn with_term<const K: u32>(
    total: Total<K>,
    plane: &Nats,
    dims: &Nats,
    twists: &Nats,
    m: u32,
    q: u32,
) -> Option<Total<K>>
    requires conductor { is_conductor K ≡ true }
    requires twists { length twists.now ≡ length dims.now }
    requires plane { length plane.now ≡ length dims.now * length dims.now }
    requires below { All (λ t. t < K) twists.now }
    requires q_below { q < length plane.now }
    requires total { IsTotal (term_at K plane.now dims.now twists.now m) q
        (cyclotomic_value K total.sum.coefficients) total.sizes }
    ensures more { IfSome result (λ total. IsTotal (term_at K plane.now dims.now twists.now m)
        (q + 1) (cyclotomic_value K total.sum.coefficients) total.sizes) }
    ensures overflow { IfNone result (Forms
        (indicator_sum K plane.now dims.now twists.now m) None) }
{
    let number = plane.at(q);
    if number == 0 {
        return Some(total);
    }
    let r = dims.len();
    total.with(term(number, dims, twists, m, q / r, q % r))
}

/// The numerator of the indicator of order `m` of simple `k`, over the square of the order of the group: the sum, over all simples i and j, of
/// their fusion number into `k` times their dimensions times the m-th power of the quotient of their twists. `plane` has those fusion
/// numbers by i, then j, `dims` the dimensions and `twists` the exponents of the twists, below K. The site exactly where the sum overflows.
pub fn indicator<const K: u32>(
    k: u32,
    plane: &Nats,
    dims: &Nats,
    twists: &Nats,
    m: u32,
) -> Result<Cyc<K>, Site>
    requires conductor { is_conductor K ≡ true }
    requires twists { length twists.now ≡ length dims.now }
    requires plane { length plane.now ≡ length dims.now * length dims.now }
    requires below { All (λ t. t < K) twists.now }
    ensures fits { is_ok result ≡ (indicator_sum K plane.now dims.now twists.now m).fits }
    ensures sum { IfOk result (λ value. cyclotomic_value K value.coefficients
        ≡ (indicator_sum K plane.now dims.now twists.now m).value) }
    ensures site { IfErr result (λ site. site ≡ indicator_site k) }
{
    let mut total: Total<K> = Total::zero();
    for q in 0..plane.len() {
        let Some(more) = with_term(total, plane, dims, twists, m, q) else {
            return Err(Site {
                part: Part::Indicator,
                at: k,
                i: 0,
                j: 0,
                x: 0,
            });
        };
        total = more;
    }
    Ok(total.sum())
}
