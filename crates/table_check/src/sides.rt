//! The sides of the clauses, each as it is formed.

ghost use Rattle.std.specs.Prelude.{◌≡◌, ◌<◌, ◌%◌, length, Some};
ghost use Rattle.cyclotomic.specs.CyclotomicRing.{cyclotomic_value};
ghost use Rattle.twisted.specs.Twist.{size};
ghost use Rattle.twisted.specs.Algebra.{left_quotient, exponent};
ghost use Rattle.table_check.specs.Characters.{characters_of};
ghost use Rattle.qd_ring.specs.Formed.{Forms, given};
ghost use Rattle.table_check.specs.Sides.{FormsIn, degree_value, with_phase, unitary_right, twist_left, twist_right, product_sum, product_left, product_right, product_term, sum_left, sum_right, sum_term, column_left, column_right, row_term};

use crate::candidate::Candidate;
use crate::conjugated::Conjugated;
use qd_ring::{Cyc, Folded, Root, Terms, Total};
use twisted::{Twist, conjugate, kappa};

/// The place of `y^-1 x`.
pub fn left_quotient(twist: &Twist, y: u32, x: u32) -> u32
    requires y_below { y < size twist.now }
    requires x_below { x < size twist.now }
    ensures quotient { result ≡ left_quotient twist.now y x }
    ensures below { result < size twist.now }
{
    let group = twist.group();
    group.product(group.inverse(y), x)
}

/// The root of an exponent modulo the modulus of the twist.
fn root<const K: u32>(table: &Candidate<K>, v: u32) -> Root<K>
    requires v_below { v < table.now.over.modulus }
    ensures exponent { result.exponent ≡ exponent K table.now.over v % K }
{
    Root::new(v * (K / table.over().modulus()))
}

/// The multiple of a value by the root of the phase at the places `x` and `y`.
pub fn with_phase<const K: u32>(
    table: &Candidate<K>,
    x: u32,
    y: u32,
    value: &Cyc<K>,
) -> Option<Cyc<K>>
    requires x_below { x < size table.now.over }
    requires y_below { y < size table.now.over }
    ensures forms { let value = given K (cyclotomic_value K value.now.coefficients) in
        Forms (with_phase table.now.over x y value) result }
{
    let phase = table.over().phase(x, y);
    value.try_times(root(table, phase))
}

/// The degree of row `i`: its value at the identity.
pub fn degree<const K: u32>(table: &Candidate<K>, i: u32) -> Cyc<K>
    requires i_below { i < length table.now.rows }
    ensures degree { cyclotomic_value K result.coefficients
        ≡ (degree_value table.now.over (characters_of K table.now.rows) i).value }
{
    table.value(i, table.over().group().identity())
}

/// What the value of row `i` at the inverse of `x` should be: the conjugate of that at `x`, with the phase of the two.
pub fn unitary_right<const K: u32>(table: &Candidate<K>, i: u32, x: u32) -> Option<Cyc<K>>
    requires i_below { i < length table.now.rows }
    requires x_below { x < size table.now.over }
    ensures forms { FormsIn K table.now (λ s t. unitary_right s t i x) result }
{
    let Some(conjugate) = table.value(i, x).try_conj() else {
        return None;
    };
    with_phase(table, x, table.over().group().inverse(x), &conjugate)
}

/// The value of row `i` at the element that the centraliser belongs to.
pub fn twist_left<const K: u32>(table: &Candidate<K>, i: u32) -> Cyc<K>
    requires i_below { i < length table.now.rows }
    ensures value { cyclotomic_value K result.coefficients
        ≡ (twist_left table.now.over (characters_of K table.now.rows) i).value }
{
    let twist = table.over();
    let place = twist.place(twist.at()).unwrap_or(0);
    table.value(i, place)
}

/// The degree times the root with exponent `t` modulo K.
#[tactic(auto, using(cyclotomic::proofs::Inverses::root_modulo))]
pub fn twist_right<const K: u32>(table: &Candidate<K>, i: u32, t: u32) -> Option<Cyc<K>>
    requires i_below { i < length table.now.rows }
    requires t_below { t < K }
    ensures forms { FormsIn K table.now (λ s rows. twist_right s rows i t) result }
{
    degree(table, i).try_times(Root::new(t))
}

/// The term at `y` of the value of `E_i E_j` at the place `x`.
fn product_term<const K: u32>(
    table: &Conjugated<K>,
    i: u32,
    j: u32,
    x: u32,
    y: u32,
) -> Option<Cyc<K>>
    requires i_below { i < length table.now.rows }
    requires j_below { j < length table.now.rows }
    requires y_below { y < size table.now.over }
    requires x_below { x < size table.now.over }
    ensures forms { FormsIn K table.now (λ s t. product_term s t i j x y) result }
{
    let candidate = table.candidate();
    let z = left_quotient(candidate.over(), y, x);
    let Some(product) = table.kept(i, y).value.try_mul(&table.kept(j, z).value) else {
        return None;
    };
    with_phase(candidate, y, z, &product)
}

/// The value of `E_i E_j` at the place `x`, term by term.
fn exact_product_sum<const K: u32>(table: &Conjugated<K>, i: u32, j: u32, x: u32) -> Option<Cyc<K>>
    requires i_below { i < length table.now.rows }
    requires j_below { j < length table.now.rows }
    requires x_below { x < size table.now.over }
    ensures forms { FormsIn K table.now (λ s t. product_sum s t i j x) result }
{
    let places = table.candidate().over().size();
    let mut total = Total::zero();
    for y in 0..places {
        let Some(more) = total.with(product_term(table, i, j, x, y)) else {
            return None;
        };
        total = more;
    }
    Some(total.sum())
}

/// The value of `E_i E_j` at the place `x`: in one buffer, or term by term where there is no room.
fn product_sum<const K: u32>(table: &Conjugated<K>, i: u32, j: u32, x: u32) -> Option<Cyc<K>>
    requires i_below { i < length table.now.rows }
    requires j_below { j < length table.now.rows }
    requires x_below { x < size table.now.over }
    ensures forms { FormsIn K table.now (λ s t. product_sum s t i j x) result }
{
    let candidate = table.candidate();
    let twist = candidate.over();
    let places = twist.size();
    let mut folded = Folded::zero();
    for y in 0..places {
        let z = left_quotient(twist, y, x);
        let phase = root(candidate, twist.phase(y, z));
        if !folded.add_product(&table.kept(i, y).terms, &table.kept(j, z).terms, phase) {
            return exact_product_sum(table, i, j, x);
        }
    }
    Some(folded.finish())
}

/// The two sides of the clause on products at the place `x`: `d_i E_i E_i` and `m E_i`, or `E_i E_j` and 0 for two different rows.
pub fn product_sides<const K: u32>(
    table: &Conjugated<K>,
    i: u32,
    j: u32,
    x: u32,
) -> (Option<Cyc<K>>, Option<Cyc<K>>)
    requires i_below { i < length table.now.rows }
    requires j_below { j < length table.now.rows }
    requires x_below { x < size table.now.over }
    ensures left { FormsIn K table.now (λ s t. product_left s t i j x) result.0 }
    ensures right { FormsIn K table.now (λ s t. product_right s t i j x) result.1 }
{
    let candidate = table.candidate();
    let sum = product_sum(table, i, j, x);
    if i != j {
        return (sum, Some(Cyc::zero()));
    }
    let order: Cyc<K> = Cyc::whole(i128::from(candidate.over().size()));
    let right = order.try_mul(&table.kept(i, x).value);
    match sum {
        Some(sum) => (degree(candidate, i).try_mul(&sum), right),
        None => (None, right),
    }
}

/// The sum of the `d_i E_i`, at the place `x`.
pub fn sum_left<const K: u32>(table: &Conjugated<K>, x: u32) -> Option<Cyc<K>>
    requires x_below { x < size table.now.over }
    ensures forms { FormsIn K table.now (λ s t. sum_left s t x) result }
{
    let candidate = table.candidate();
    let rows = candidate.rows();
    let mut total = Total::zero();
    for i in 0..rows {
        let term = degree(candidate, i).try_mul(&table.kept(i, x).value);
        let Some(more) = total.with(term) else {
            return None;
        };
        total = more;
    }
    Some(total.sum())
}

/// The value of `m u_e` at the place `x`.
pub fn sum_right<const K: u32>(table: &Candidate<K>, x: u32) -> Option<Cyc<K>>
    requires x_below { x < size table.now.over }
    ensures forms { FormsIn K table.now (λ s t. sum_right s t x) result }
{
    let twist = table.over();
    if x == twist.group().identity() {
        Some(Cyc::whole(i128::from(twist.size())))
    } else {
        Some(Cyc::zero())
    }
}

/// The sum over the rows of the conjugate of the value at `x` times the value at `y`, term by term.
fn exact_column_left<const K: u32>(table: &Conjugated<K>, x: u32, y: u32) -> Option<Cyc<K>>
    requires x_below { x < size table.now.over }
    requires y_below { y < size table.now.over }
    ensures forms { FormsIn K table.now (λ s t. column_left s t x y) result }
{
    let candidate = table.candidate();
    let rows = candidate.rows();
    let mut total = Total::zero();
    for i in 0..rows {
        let term = table.kept(i, x).value.try_mul(&candidate.value(i, y));
        let Some(more) = total.with(term) else {
            return None;
        };
        total = more;
    }
    Some(total.sum())
}

/// The same: in one buffer, or term by term where there is no room.
pub fn column_left<const K: u32>(table: &Conjugated<K>, x: u32, y: u32) -> Option<Cyc<K>>
    requires x_below { x < size table.now.over }
    requires y_below { y < size table.now.over }
    ensures forms { FormsIn K table.now (λ s t. column_left s t x y) result }
{
    let candidate = table.candidate();
    let rows = candidate.rows();
    let mut folded = Folded::zero();
    for i in 0..rows {
        let value = Terms::of(&candidate.value(i, y));
        if !folded.add_product(&table.kept(i, x).terms, &value, Root::new(0)) {
            return exact_column_left(table, x, y);
        }
    }
    Some(folded.finish())
}

/// The sum, over all `c` that carry `x` to `y`, of the conjugates of the roots of the conjugation phases of `c` and `x`.
pub fn column_right<const K: u32>(table: &Candidate<K>, x: u32, y: u32) -> Option<Cyc<K>>
    requires x_below { x < size table.now.over }
    requires y_below { y < size table.now.over }
    ensures forms { FormsIn K table.now (λ s t. column_right s t x y) result }
{
    let twist = table.over();
    let places = twist.size();
    let mut total = Total::zero();
    for c in 0..places {
        if conjugate(twist.group(), c, x) == y {
            let phase = root(table, kappa(twist, c, x));
            let Some(more) = total.with(Cyc::from_root(phase).try_conj()) else {
                return None;
            };
            total = more;
        }
    }
    Some(total.sum())
}
