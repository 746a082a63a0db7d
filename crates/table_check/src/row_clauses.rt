//! The clauses on the values of each row: what each refuses first.

ghost use Rattle.std.specs.Prelude.{◌≡◌, ◌<◌, ◌≤◌, ◌+◌, ◌*◌, ◌&&◌, ℕ, suc, nat_le, nat_lt, true, length};
ghost use Rattle.cyclotomic.specs.Cyclotomic.{cyclotomic};
ghost use Rattle.cyclotomic.specs.Ring.{value_one};
ghost use Rattle.cyclotomic.specs.CyclotomicRing.{cyclotomic_value};
ghost use Rattle.twisted.specs.Twist.{size};
ghost use Rattle.table_check.specs.Characters.{characters_of};
ghost use Rattle.table_check.specs.Check.{is_same, where_holds, degree_of, has_twist, twist_of, twists_fit, is_vacuum, has_vacuum, count_miss, degree_at, degree_miss, unitary_at, unitary_miss, twist_at, twist_miss, vacuum_miss, row_miss};
ghost use Rattle.table_check.specs.Answers.{square_root, FindsIn};
ghost use Rattle.table_check.specs.Formed.{whole};
ghost use Rattle.table_check.specs.Sides.{twist_right};

use crate::candidate::Candidate;
use crate::compared::{equation, is_same, site_over};
use crate::identity_name::IdentityName;
use crate::refusal::TableRefusal;
use crate::sides::{degree, twist_left, twist_right, unitary_right};
use crate::walk::{first_answer, first_of_pairs};
use qd_ring::{Cyc, Part};
use scan::{first_below, holds_below};
use twisted::centre_rank;

/// The greatest whole number whose square is at most `n`.
fn square_root(n: u32) -> u32
    requires small { n ≤ 60 }
    ensures root { result ≡ square_root n }
{
    let root = first_below(
        n + 1,
        |d| -> Option<u32>
            requires { (d < suc n) × (n ≤ 60) }
            ensures { result ≡ where_holds (nat_le (d * d) n && nat_lt n ((d + 1) * (d + 1))) d }
        {
            if d * d <= n && n < (d + 1) * (d + 1) {
                Some(d)
            } else {
                None
            }
        },
    );
    root.unwrap_or(0)
}

/// The degree that a value is, in a centraliser of `order` elements; `None` where it is none.
pub fn degree_of<const K: u32>(order: u32, value: &Cyc<K>) -> Option<u32>
    requires small { order ≤ 60 }
    ensures degree { result ≡ degree_of K order (cyclotomic_value K value.now.coefficients) }
{
    first_below(
        order + 1,
        |d| -> Option<u32>
            requires { (d < suc order) × (order ≤ 60) }
            ensures { result ≡ where_holds ((nat_le 1 d && nat_le (d * d) order)
                && is_same (cyclotomic_value K value.entry.now.coefficients) (whole K d)) d }
        {
            if d >= 1 && d * d <= order && is_same(value, &Cyc::whole(i128::from(d))) {
                Some(d)
            } else {
                None
            }
        },
    )
}

/// The clause on degrees.
fn degree_refusal<const K: u32>(table: &Candidate<K>) -> Option<TableRefusal<K>>
    ensures finds { FindsIn K table.now (λ s t. degree_miss s t) result }
{
    let rows = table.rows();
    first_answer(
        rows,
        |i| -> Option<TableRefusal<K>>
            requires { i < length table.now.rows }
            ensures { FindsIn K table.entry.now (λ s t. degree_at s t i) result }
        {
            let twist = table.over();
            let order = twist.size();
            let left = degree(table, i);
            if degree_of(order, &left).is_some() {
                None
            } else {
                Some(TableRefusal::Identity {
                    name: IdentityName::Degree,
                    i,
                    j: 0,
                    x: twist.element(twist.group().identity()),
                    left,
                    right: Cyc::whole(i128::from(square_root(order))),
                })
            }
        },
    )
}

/// The clause on inverses.
fn unitary_refusal<const K: u32>(table: &Candidate<K>) -> Option<TableRefusal<K>>
    ensures finds { FindsIn K table.now (λ s t. unitary_miss s t) result }
{
    let rows = table.rows();
    let places = table.over().size();
    first_of_pairs(
        rows,
        places,
        |i, x| -> Option<TableRefusal<K>>
            requires { (i < length table.now.rows) × (x < size table.now.over) }
            ensures { FindsIn K table.entry.now (λ s t. unitary_at s t i x) result }
        {
            let twist = table.over();
            let site = site_over(twist, Part::Unitary, i, 0, twist.element(x));
            let left = table.value(i, twist.group().inverse(x));
            let right = unitary_right(table, i, x);
            equation(IdentityName::Unitary, site, Some(left), right)
        },
    )
}

/// Whether no multiple of the degree of row `i` by a root overflows.
fn twists_fit<const K: u32>(table: &Candidate<K>, i: u32) -> bool
    requires i_below { i < length table.now.rows }
    ensures fit { result ≡ twists_fit table.now.over (characters_of K table.now.rows) i }
{
    holds_below(
        K,
        |t| -> bool
            requires { (i < length table.now.rows) × (t < K) }
            ensures { result ≡
                (twist_right table.entry.now.over (characters_of K table.entry.now.rows) i t).fits }
        { twist_right(table, i, t).is_some() },
    )
}

/// The least exponent `t` of a root by which the own value of row `i` is a multiple of its degree; `None` where there is none.
pub fn twist_of<const K: u32>(table: &Candidate<K>, i: u32) -> Option<u32>
    requires i_below { i < length table.now.rows }
    requires fit { twists_fit table.now.over (characters_of K table.now.rows) i ≡ true }
    ensures twist { result ≡ twist_of table.now.over (characters_of K table.now.rows) i }
{
    first_below(
        K,
        |t| -> Option<u32>
            requires { (i < length table.now.rows) × (t < K)
                × (twists_fit table.now.over (characters_of K table.now.rows) i ≡ true) }
            ensures { result ≡ where_holds
                (has_twist table.entry.now.over (characters_of K table.entry.now.rows) i t) t }
        {
            let Some(multiple) = twist_right(table, i, t) else {
                unreachable!()
            };
            if is_same(&twist_left(table, i), &multiple) {
                Some(t)
            } else {
                None
            }
        },
    )
}

/// The clause on twists.
fn twist_refusal<const K: u32>(table: &Candidate<K>) -> Option<TableRefusal<K>>
    ensures finds { FindsIn K table.now (λ s t. twist_miss s t) result }
{
    let rows = table.rows();
    first_answer(
        rows,
        |i| -> Option<TableRefusal<K>>
            requires { i < length table.now.rows }
            ensures { FindsIn K table.entry.now (λ s t. twist_at s t i) result }
        {
            if !twists_fit(table, i) {
                let site = site_over(table.over(), Part::Twist, i, 0, 0);
                Some(TableRefusal::Overflow { site })
            } else if twist_of(table, i).is_some() {
                None
            } else {
                let value = twist_left(table, i);
                Some(TableRefusal::NoTwist { row: i, value })
            }
        },
    )
}

/// What the clauses on the values of each row refuse first.
pub fn row_refusal<const K: u32>(table: &Candidate<K>) -> Option<TableRefusal<K>>
    ensures finds { FindsIn K table.now (λ s t. row_miss s t) result }
{
    let rows = table.rows();
    let rank = centre_rank(table.over());
    if rows != rank {
        return Some(TableRefusal::Count { rows, rank });
    }
    if let Some(refusal) = degree_refusal(table) {
        return Some(refusal);
    }
    if let Some(refusal) = unitary_refusal(table) {
        return Some(refusal);
    }
    twist_refusal(table)
}

/// The clause on the vacuum.
pub fn vacuum_refusal<const K: u32>(table: &Candidate<K>) -> Option<TableRefusal<K>>
    ensures finds { FindsIn K table.now (λ s t. vacuum_miss s t) result }
{
    let twist = table.over();
    if twist.element(twist.group().identity()) != twist.at() {
        return None;
    }
    let rows = table.rows();
    let vacuum = first_below(
        rows,
        |i| -> Option<u32>
            requires { i < length table.now.rows }
            ensures { result ≡ where_holds
                (is_vacuum table.entry.now.over (characters_of K table.entry.now.rows) i) i }
        {
            let vacuum = holds_below(
                table.over().size(),
                |x| -> bool
                    requires { (i < length table.now.rows) × (x < size table.now.over) }
                    ensures { let rows = characters_of K table.entry.now.rows in
                        result ≡ is_same (rows.chi i x) (value_one (cyclotomic K)) }
                { is_same(&table.value(i, x), &Cyc::one()) },
            );
            if vacuum { Some(i) } else { None }
        },
    );
    if vacuum.is_some() {
        return None;
    }
    Some(TableRefusal::NoVacuum { rows })
}
