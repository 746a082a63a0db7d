//! The clauses on the elements of the conjugates of rows in the twisted group algebra: what each refuses first.

ghost use Rattle.std.specs.Prelude.{◌≡◌, ◌<◌, length};
ghost use Rattle.twisted.specs.Twist.{size};
ghost use Rattle.table_check.specs.Check.{central_at, central_miss, product_at, product_miss, sum_at, sum_miss, column_at, column_miss, algebra_miss};
ghost use Rattle.table_check.specs.Answers.{FindsIn};

use crate::compared::{equation, site_over};
use crate::conjugated::Conjugated;
use crate::identity_name::IdentityName;
use crate::refusal::TableRefusal;
use crate::row_clauses::vacuum_refusal;
use crate::sides::{
    column_left, column_right, left_quotient, product_sides, sum_left, sum_right, with_phase,
};
use crate::walk::{first_answer, first_of_pairs, first_of_triples};
use qd_ring::Part;

/// The clause on central elements: `u_y E_i` and `E_i u_y` at the place `x`.
fn central_refusal<const K: u32>(table: &Conjugated<K>) -> Option<TableRefusal<K>>
    ensures finds { FindsIn K table.now (λ s t. central_miss s t) result }
{
    let rows = table.candidate().rows();
    let places = table.candidate().over().size();
    first_of_triples(
        rows,
        places,
        places,
        |i, y, x| -> Option<TableRefusal<K>>
            requires { (i < length table.now.rows) × (y < size table.now.over)
                × (x < size table.now.over) }
            ensures { FindsIn K table.entry.now (λ s t. central_at s t i y x) result }
        {
            let candidate = table.candidate();
            let twist = candidate.over();
            let after = left_quotient(twist, y, x);
            let left = with_phase(candidate, y, after, &table.kept(i, after).value);
            let before = twist.group().product(x, twist.group().inverse(y));
            let right = with_phase(candidate, before, y, &table.kept(i, before).value);
            let site = site_over(twist, Part::Central, i, twist.element(y), twist.element(x));
            equation(IdentityName::Central, site, left, right)
        },
    )
}

/// The clause on products.
fn product_refusal<const K: u32>(table: &Conjugated<K>) -> Option<TableRefusal<K>>
    ensures finds { FindsIn K table.now (λ s t. product_miss s t) result }
{
    let rows = table.candidate().rows();
    let places = table.candidate().over().size();
    first_of_triples(
        rows,
        rows,
        places,
        |i, j, x| -> Option<TableRefusal<K>>
            requires { (i < length table.now.rows) × (j < length table.now.rows)
                × (x < size table.now.over) }
            ensures { FindsIn K table.entry.now (λ s t. product_at s t i j x) result }
        {
            let twist = table.candidate().over();
            let site = site_over(twist, Part::Product, i, j, twist.element(x));
            let (left, right) = product_sides(table, i, j, x);
            equation(IdentityName::Product, site, left, right)
        },
    )
}

/// The clause on the sum.
fn sum_refusal<const K: u32>(table: &Conjugated<K>) -> Option<TableRefusal<K>>
    ensures finds { FindsIn K table.now (λ s t. sum_miss s t) result }
{
    let places = table.candidate().over().size();
    first_answer(
        places,
        |x| -> Option<TableRefusal<K>>
            requires { x < size table.now.over }
            ensures { FindsIn K table.entry.now (λ s t. sum_at s t x) result }
        {
            let twist = table.candidate().over();
            let site = site_over(twist, Part::Sum, 0, 0, twist.element(x));
            let left = sum_left(table, x);
            let right = sum_right(table.candidate(), x);
            equation(IdentityName::Sum, site, left, right)
        },
    )
}

/// The clause on columns.
fn column_refusal<const K: u32>(table: &Conjugated<K>) -> Option<TableRefusal<K>>
    ensures finds { FindsIn K table.now (λ s t. column_miss s t) result }
{
    let places = table.candidate().over().size();
    first_of_pairs(
        places,
        places,
        |x, y| -> Option<TableRefusal<K>>
            requires { (x < size table.now.over) × (y < size table.now.over) }
            ensures { FindsIn K table.entry.now (λ s t. column_at s t x y) result }
        {
            let candidate = table.candidate();
            let twist = candidate.over();
            let site = site_over(twist, Part::Column, 0, twist.element(y), twist.element(x));
            let left = column_left(table, x, y);
            let right = column_right(candidate, x, y);
            equation(IdentityName::Column, site, left, right)
        },
    )
}

/// What the clauses on the elements of the conjugates refuse first.
pub fn algebra_refusal<const K: u32>(table: &Conjugated<K>) -> Option<TableRefusal<K>>
    ensures finds { FindsIn K table.now (λ s t. algebra_miss s t) result }
{
    if let Some(refusal) = central_refusal(table) {
        return Some(refusal);
    }
    if let Some(refusal) = product_refusal(table) {
        return Some(refusal);
    }
    if let Some(refusal) = sum_refusal(table) {
        return Some(refusal);
    }
    if let Some(refusal) = column_refusal(table) {
        return Some(refusal);
    }
    vacuum_refusal(table.candidate())
}
