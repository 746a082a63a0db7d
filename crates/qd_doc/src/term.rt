//! A coefficient of a stored value.

ghost use Rattle.std.specs.Prelude.{◌≡◌, ◌<◌, ◌+◌, ◌∷◌, [], ℤ, pos, length, take, drop, slice_set, replicate, ◌-◌, ◌++◌, ◌≤◌, All, OnOk, OnErr, IfOk, slice_index_or};
ghost use Rattle.qd_doc.specs.StoredValues.{IsTermOf, value_of_terms, power_of, coefficient_of, AddsTerm};

use group_table::Memory;
use qd_ring::Plain;

/// A coefficient of a value, at a power of x.
#[derive(Clone, Copy, Debug)]
pub enum Term {
    /// One that fits in 32 bits.
    Small { power: u8, coefficient: i32 },
    /// Another, by its place among the great ones.
    Great { power: u8, place: u32 },
}

/// The term of a coefficient, which is added to the great ones where it doesn't fit in 32 bits.
fn term_of(great: &mut Vec<i128>, power: u8, coefficient: i128) -> Result<Term, Memory>
    requires power { power < 42 }
    ensures term { IfOk result (λ term. IsTermOf (length great.new.items) term) }
    ensures power { IfOk result (λ term. power_of term ≡ power) }
    ensures coefficient { IfOk result (λ term. coefficient_of great.new.items term ≡ coefficient) }
    ensures kept { take (length great.old.items) great.new.items ≡ great.old.items }
{
    if let Ok(coefficient) = i32::try_from(coefficient) {
        return Ok(Term::Small { power, coefficient });
    }
    let Ok(place) = u32::try_from(great.len()) else {
        return Err(Memory);
    };
    great.push(coefficient)?;
    Ok(Term::Great { power, place })
}

/// Adds the term of the coefficient at a power, where it isn't 0.
fn push_term(
    terms: &mut Vec<Term>,
    great: &mut Vec<i128>,
    coefficients: &[i128],
    power: u8,
) -> Result<(), Memory>
    requires power { power < 42 }
    requires all { length coefficients.now ≡ 42 }
    ensures kept { take (length terms.old.items) terms.new.items ≡ terms.old.items }
    ensures great_kept { take (length great.old.items) great.new.items ≡ great.old.items }
    ensures each { All (IsTermOf (length great.old.items)) terms.old.items
        → All (IsTermOf (length great.new.items)) terms.new.items }
    ensures term { OnOk result
        (AddsTerm terms.old.items terms.new.items great.new.items power
        (slice_index_or coefficients.now power (pos 0))) }
{
    let coefficient = coefficients[power as usize];
    if coefficient == 0 {
        return Ok(());
    }
    let term = term_of(great, power, coefficient)?;
    terms.push(term)?;
    Ok(())
}

/// Adds the terms of a value, or some of them before want of memory.
fn push_terms(
    terms: &mut Vec<Term>,
    great: &mut Vec<i128>,
    coefficients: &[i128],
) -> Result<(), Memory>
    requires all { length coefficients.now ≡ 42 }
    requires each { All (IsTermOf (length great.old.items)) terms.old.items }
    ensures kept { take (length terms.old.items) terms.new.items ≡ terms.old.items }
    ensures great_kept { take (length great.old.items) great.new.items ≡ great.old.items }
    ensures each { All (IsTermOf (length great.new.items)) terms.new.items }
    ensures value { OnOk result
        (value_of_terms great.new.items (drop (length terms.old.items) terms.new.items)
        ≡ coefficients.now) }
{
    for power in 0..42 {
        push_term(terms, great, coefficients, power)?;
    }
    Ok(())
}

/// Adds the terms of a value. After `Memory` the terms are as before.
pub fn push_value(terms: &mut Vec<Term>, great: &mut Vec<i128>, v: &Plain) -> Result<(), Memory>
    requires each { All (IsTermOf (length great.old.items)) terms.old.items }
    ensures kept { take (length terms.old.items) terms.new.items ≡ terms.old.items }
    ensures great_kept { take (length great.old.items) great.new.items ≡ great.old.items }
    ensures each { All (IsTermOf (length great.new.items)) terms.new.items }
    ensures value { OnOk result
        (value_of_terms great.new.items (drop (length terms.old.items) terms.new.items)
        ≡ v.now.coefficients) }
    ensures unchanged { OnErr result (terms.new.items ≡ terms.old.items) }
{
    let before = terms.len();
    let pushed = push_terms(terms, great, &v.coefficients);
    if pushed.is_err() {
        terms.truncate(before);
    }
    pushed
}

/// The value of some terms.
pub fn plain_of(terms: &[Term], great: &[i128]) -> Plain
    requires each { All (IsTermOf (length great.now)) terms.now }
    ensures value { result.coefficients ≡ value_of_terms great.now terms.now }
{
    let mut coefficients = [0; 42];
    for term in terms {
        put(&mut coefficients, great, *term);
    }
    Plain { coefficients }
}

/// Puts a term into some coefficients.
fn put(coefficients: &mut [i128; 42], great: &[i128], term: Term)
    requires term { IsTermOf (length great.now) term }
    ensures put { coefficients.new
        ≡ slice_set coefficients.old (power_of term) (coefficient_of great.now term) }
{
    match term {
        Term::Small { power, coefficient } => coefficients[power as usize] = i128::from(
            coefficient,
        ),
        Term::Great { power, place } => coefficients[power as usize] = great[place as usize],
    }
}
