//! The lift: from the central characters of a twist modulo a prime to rows of cyclotomic values.

ghost use Rattle.std.specs.Prelude.{◌≡◌, ℕ, ◌+◌, ◌*◌, ◌%◌, ◌^◌, ◌<◌, ◌≤◌, [], ◌∷◌, ◌++◌, None, Some, length, IfOk, IfErr, OnOk};
ghost use Rattle.scan.specs.First.{first};
ghost use Rattle.qd_ring.specs.CycArrays.{array_of};
ghost use Rattle.twisted.specs.Twist.{size};
ghost use Rattle.twisted.specs.Regular.{rank};
ghost use Rattle.prime_field.specs.ResidueLists.{AreBelow};
ghost use Rattle.dixon_split.specs.CentralLists.{central_value};
ghost use Rattle.group_table.specs.Numbers.{tabulated};
ghost use Rattle.char_lift.specs.Candidate.{lifted_value};
ghost use Rattle.char_lift.specs.Faults.{place_fault, row_fault, lift_fault, lifted_row, lifted_rows, Refuses};

use crate::degree::{degree_sum, least_degree};
use crate::multiplicities::{multiplicities, power_values, total};
use crate::ratios::{Shares, character_ratios};
use crate::refusal::LiftRefusal;
use crate::root_powers::RootPowers;
use crate::value::with_multiplicities;
use dixon_split::Central;
use group_table::Nats;
use prime_field::ModRing;
use qd_ring::{Cyc, Rows};
use std::alloc::Global;
use twisted::Twist;

/// The lifted value at the place `x` of the candidate with these ratios and this degree, in the row with the number `row`.
fn lifted_value<const K: u32>(
    alloc: Global,
    twist: &Twist,
    powers: &RootPowers,
    ratios: &Nats,
    row: u32,
    degree: u32,
    x: u32,
) -> Result<Cyc<K>, LiftRefusal>
    requires conductor { powers.now.conductor ≡ K }
    requires width { length ratios.now ≡ size twist.now }
    requires below { AreBelow powers.now.q ratios.now }
    requires degree_below { degree < powers.now.q }
    requires degree_small { degree ≤ 60 }
    requires x_below { x < size twist.now }
    ensures faultless { IfOk result (λ value.
        place_fault twist.now powers.now.q powers.now.conductor powers.now.root row ratios.now degree x ≡ None) }
    ensures value { IfOk result (λ value. value.coefficients
        ≡ array_of (lifted_value twist.now powers.now.q powers.now.conductor powers.now.root ratios.now degree x)) }
    ensures refused { IfErr result (λ why.
        Refuses why (place_fault twist.now powers.now.q powers.now.conductor powers.now.root row ratios.now degree x)) }
{
    let values = power_values(alloc, twist, powers, ratios, degree, x)?;
    let counts = multiplicities(alloc, powers, &values)?;
    let sum = total(&counts);
    if sum != degree {
        let x = twist.element(x);
        return Err(LiftRefusal::Multiplicity {
            row,
            x,
            sum,
            degree,
        });
    }
    Ok(with_multiplicities(&counts))
}

/// Adds the row of the candidate with these ratios and this degree.
fn push_row<const K: u32>(
    alloc: Global,
    twist: &Twist,
    powers: &RootPowers,
    ratios: &Nats,
    row: u32,
    degree: u32,
    rows: &mut Rows<K>,
) -> Result<(), LiftRefusal>
    requires conductor { powers.now.conductor ≡ K }
    requires width { length ratios.now ≡ size twist.now }
    requires below { AreBelow powers.now.q ratios.now }
    requires degree_below { degree < powers.now.q }
    requires degree_small { degree ≤ 60 }
    requires room { length rows.old + 1 < 2 ^ 32 }
    ensures faultless { OnOk result (first (size twist.now)
        (place_fault twist.now powers.now.q powers.now.conductor powers.now.root row ratios.now degree) ≡ None) }
    ensures added { OnOk result (rows.new ≡ rows.old
        ++ tabulated (size twist.now) (λ x.
        array_of (lifted_value twist.now powers.now.q powers.now.conductor powers.now.root ratios.now degree x)) ∷ []) }
    ensures refused { IfErr result (λ why.
        Refuses why (first (size twist.now)
        (place_fault twist.now powers.now.q powers.now.conductor powers.now.root row ratios.now degree))) }
{
    rows.push_row()?;
    for x in 0..twist.size() {
        let value = lifted_value(alloc, twist, powers, ratios, row, degree, x)?;
        rows.push_value(value)?;
    }
    Ok(())
}

/// Adds the lifted row of the candidate with these ratios.
fn lift_row<const K: u32>(
    alloc: Global,
    twist: &Twist,
    powers: &RootPowers,
    ratios: &Nats,
    row: u32,
    rows: &mut Rows<K>,
) -> Result<(), LiftRefusal>
    requires conductor { powers.now.conductor ≡ K }
    requires width { length ratios.now ≡ size twist.now }
    requires below { AreBelow powers.now.q ratios.now }
    requires over { size twist.now < powers.now.q }
    requires room { length rows.old + 1 < 2 ^ 32 }
    ensures faultless { OnOk result (row_fault twist.now powers.now.q powers.now.conductor powers.now.root row ratios.now ≡ None) }
    ensures added { OnOk result (rows.new ≡ rows.old
        ++ lifted_row twist.now powers.now.q powers.now.conductor powers.now.root ratios.now ∷ []) }
    ensures refused { IfErr result (λ why. Refuses why
        (row_fault twist.now powers.now.q powers.now.conductor powers.now.root row ratios.now)) }
{
    let s = degree_sum(twist, powers, ratios);
    let Some(degree) = least_degree(powers, twist.size(), s) else {
        return Err(LiftRefusal::NoDegree { row, s });
    };
    push_row(alloc, twist, powers, ratios, row, degree, rows)
}

/// The lifted rows of central characters of a twist modulo a prime over its size, each given by its values at the class sums of the regular
/// classes, in their order: for each the row of its candidate, with one value for each place.
///
/// It is refused where a candidate has no degree, or where its multiplicities at an element don't add up to the degree: with the first
/// row that fails so, and in a row with the least such element (Dixon 1967).
pub fn lift<const K: u32>(
    alloc: Global,
    twist: &Twist,
    ring: &ModRing,
    central: &Central,
) -> Result<Rows<K>, LiftRefusal>
    requires conductor { ring.now.conductor ≡ K }
    requires multiple { K % twist.now.modulus ≡ 0 }
    requires over { size twist.now < ring.now.q }
    requires width { central.now.width ≡ rank twist.now }
    requires values { (i t : ℕ) → i < length central.now.lists
        → t < rank twist.now → central_value central.now i t < ring.now.q }
    ensures faultless { IfOk result (λ rows.
        lift_fault twist.now ring.now.q ring.now.conductor ring.now.root
        (length central.now.lists) (central_value central.now) ≡ None) }
    ensures rows { IfOk result (λ rows. rows
        ≡ lifted_rows twist.now ring.now.q ring.now.conductor ring.now.root
        (length central.now.lists) (central_value central.now)) }
    ensures refused { IfErr result (λ why.
        Refuses why (lift_fault twist.now ring.now.q ring.now.conductor ring.now.root
        (length central.now.lists) (central_value central.now))) }
{
    let powers = RootPowers::of(alloc, ring)?;
    let shares = Shares::of(alloc, twist, &powers)?;
    let mut rows = Rows::empty(alloc);
    for row in 0..central.count() {
        let ratios = character_ratios(alloc, twist, &powers, &shares, central, row)?;
        lift_row(alloc, twist, &powers, &ratios, row, &mut rows)?;
    }
    Ok(rows)
}
