//! The two laws of a normalised 3-cocycle over all places, each with the least place at which it fails.

ghost use Rattle.std.specs.Prelude.{◌≡◌, ◌+◌, ◌*◌, ◌%◌, ◌^◌, ◌<◌, ◌≤◌, ◌==◌, IfOk};
ghost use Rattle.cochain.specs.Cochain.{is_normal_at, normal_fault_in, normal_fault, is_closed_at, closure_fault_in, closure_fault_at, closure_fault, cocycle_fault};
ghost use Rattle.cochain.specs.ZeroRows.{MarksZeroRows};

use crate::fault::CocycleFault;
use crate::three_cochain::ThreeCochain;
use crate::zero_rows::{has_zero_rows, mark_zero_rows};
use scan::first_below;
use std::alloc::{AllocError, Global};

fn is_normal_at(w: &ThreeCochain, g: u32, h: u32, k: u32) -> bool
    requires g_below { g < w.now.group.order }
    requires h_below { h < w.now.group.order }
    requires k_below { k < w.now.group.order }
    ensures normal { result ≡ is_normal_at w.now g h k }
{
    let e = w.group().identity();
    if g == e || h == e || k == e {
        w.value(g, h, k) == 0
    } else {
        true
    }
}

fn normal_fault_in(w: &ThreeCochain, g: u32, h: u32) -> Option<CocycleFault>
    requires g_below { g < w.now.group.order }
    requires h_below { h < w.now.group.order }
    ensures first { result ≡ normal_fault_in w.now g h }
{
    first_below(w.group().order(), |k| {
        if is_normal_at(w, g, h, k) {
            None
        } else {
            Some(CocycleFault::NotNormalised { g, h, k })
        }
    })
}

fn normal_fault(w: &ThreeCochain) -> Option<CocycleFault>
    ensures first { result ≡ normal_fault w.now }
{
    let n = w.group().order();
    first_below(n, |g| first_below(n, |h| normal_fault_in(w, g, h)))
}

/// Whether two sums of exponents are the same modulo `roots`, by one reduction of their difference.
#[tactic(auto, using(crate::proofs::Difference::same_by_difference))]
fn is_same(left: u32, right: u32, roots: u32) -> bool
    requires roots { 0 < roots }
    requires few { right ≤ 2 * roots }
    requires fits { left + 2 * roots < 2 ^ 32 }
    ensures same { result ≡ (left % roots == right % roots) }
{
    (left + 2 * roots - right) % roots == 0
}

/// Whether `w(g,h,k) w(g,hk,l) w(h,k,l) = w(gh,k,l) w(g,h,kl)`.
fn is_closed_at(w: &ThreeCochain, g: u32, h: u32, k: u32, l: u32) -> bool
    requires g_below { g < w.now.group.order }
    requires h_below { h < w.now.group.order }
    requires k_below { k < w.now.group.order }
    requires l_below { l < w.now.group.order }
    ensures closed { result ≡ is_closed_at w.now g h k l }
{
    let group = w.group();
    let roots = w.roots();
    let left = w.value(g, h, k) + w.value(g, group.product(h, k), l) + w.value(h, k, l);
    let right = w.value(group.product(g, h), k, l) + w.value(g, h, group.product(k, l));
    is_same(left, right, roots)
}

fn closure_fault_in(w: &ThreeCochain, g: u32, h: u32, k: u32) -> Option<CocycleFault>
    requires g_below { g < w.now.group.order }
    requires h_below { h < w.now.group.order }
    requires k_below { k < w.now.group.order }
    ensures first { result ≡ closure_fault_in w.now g h k }
{
    first_below(w.group().order(), |l| {
        if is_closed_at(w, g, h, k, l) {
            None
        } else {
            Some(CocycleFault::NotCocycle { g, h, k, l })
        }
    })
}

/// The same, with no look at each place where the marks of the rows say that the law holds at all.
#[tactic(auto, using(crate::proofs::ZeroRows::closed_in_zero_rows))]
fn closure_fault_past(
    w: &ThreeCochain,
    marks: &[bool],
    g: u32,
    h: u32,
    k: u32,
) -> Option<CocycleFault>
    requires marks { MarksZeroRows w.now marks.now }
    requires g_below { g < w.now.group.order }
    requires h_below { h < w.now.group.order }
    requires k_below { k < w.now.group.order }
    ensures first { result ≡ closure_fault_in w.now g h k }
{
    if has_zero_rows(w, marks, g, h, k) {
        None
    } else {
        closure_fault_in(w, g, h, k)
    }
}

fn closure_fault_at(w: &ThreeCochain, marks: &[bool], g: u32, h: u32) -> Option<CocycleFault>
    requires marks { MarksZeroRows w.now marks.now }
    requires g_below { g < w.now.group.order }
    requires h_below { h < w.now.group.order }
    ensures first { result ≡ closure_fault_at w.now g h }
{
    first_below(w.group().order(), |k| closure_fault_past(w, marks, g, h, k))
}

fn closure_fault(w: &ThreeCochain, marks: &[bool]) -> Option<CocycleFault>
    requires marks { MarksZeroRows w.now marks.now }
    ensures first { result ≡ closure_fault w.now }
{
    let n = w.group().order();
    first_below(n, |g| first_below(n, |h| closure_fault_at(w, marks, g, h)))
}

/// The first law that a cochain breaks, at its least place.
#[tactic(auto, unfolding(crate::specs::Cochain::cocycle_fault))]
pub fn cocycle_fault(alloc: Global, w: &ThreeCochain) -> Result<Option<CocycleFault>, AllocError>
    ensures first { IfOk result (λ fault. fault ≡ cocycle_fault w.now) }
{
    let marks = mark_zero_rows(alloc, w)?;
    match normal_fault(w) {
        Some(fault) => Ok(Some(fault)),
        None => Ok(closure_fault(w, &marks)),
    }
}
