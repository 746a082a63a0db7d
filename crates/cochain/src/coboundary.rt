//! A cocycle times the coboundary of a 2-cochain.

ghost use Rattle.std.specs.Prelude.{◌≡◌, ℕ, ◌+◌, ◌*◌, ◌<◌, ◌≤◌, ◌^◌, length, IfOk};
ghost use Rattle.cochain.specs.Cochain.{exponents_by};
ghost use Rattle.cochain.specs.Gauge.{pair_value, is_normal_pair, gauge_fault_in, gauge_fault, gauged_value, gauged};

use crate::fault::GaugeRefusal;
use crate::three_cochain::ThreeCochain;
use group_table::{Memory, Nats};
use scan::first_below;
use std::alloc::Global;

/// The exponents that `exponent` gives for each triple of numbers below `n`, in the order of their places.
#[tactic(auto, using(crate::proofs::Formula::cube_places))]
pub fn exponents_by<F: Fn(u32, u32, u32) -> u32>(
    alloc: Global,
    n: u32,
    exponent: F,
) -> Result<Nats, Memory>
where
    F: Drop,
    requires few { n ≤ 60 }
    requires callable { (g h k : ℕ) → g < n → h < n → k < n → F.pre exponent g h k }
    ensures cube { IfOk result (λ exponents. length exponents ≡ n * n * n) }
    ensures exponents { (at : ℕ → ℕ → ℕ → ℕ) →
        ((g h k v : ℕ) → g < n → h < n → k < n → F.post exponent g h k v → v ≡ at g h k) →
        IfOk result (λ exponents. exponents ≡ exponents_by n at) }
{
    Nats::tabulate(alloc, n * n * n, |i| exponent(i / n / n, i / n % n, i % n))
}

/// The number of the pair `g`, `h`, modulo the number of roots.
#[tactic(auto, using(group_table::proofs::Square::place_below))]
fn pair_value(w: &ThreeCochain, b: &[u32], g: u32, h: u32) -> u32
    requires square { length b.now ≡ w.now.group.order * w.now.group.order }
    requires g_below { g < w.now.group.order }
    requires h_below { h < w.now.group.order }
    ensures number { result ≡ pair_value w.now b.now g h }
    ensures below { pair_value w.now b.now g h < w.now.roots }
{
    b[(g * w.group().order() + h) as usize] % w.roots()
}

/// Whether the number of the pair is 0 modulo the number of roots, if `g` or `h` is the identity.
fn is_normal_pair(w: &ThreeCochain, b: &[u32], g: u32, h: u32) -> bool
    requires square { length b.now ≡ w.now.group.order * w.now.group.order }
    requires g_below { g < w.now.group.order }
    requires h_below { h < w.now.group.order }
    ensures normal { result ≡ is_normal_pair w.now b.now g h }
{
    let e = w.group().identity();
    if g == e || h == e {
        pair_value(w, b, g, h) == 0
    } else {
        true
    }
}

fn gauge_fault_in(w: &ThreeCochain, b: &[u32], g: u32) -> Option<GaugeRefusal>
    requires square { length b.now ≡ w.now.group.order * w.now.group.order }
    requires g_below { g < w.now.group.order }
    ensures first { result ≡ gauge_fault_in w.now b.now g }
{
    first_below(w.group().order(), |h| {
        if is_normal_pair(w, b, g, h) {
            None
        } else {
            Some(GaugeRefusal::NotNormal { g, h })
        }
    })
}

/// The least pair with the identity whose number is not 0 modulo the number of roots.
pub fn gauge_fault(w: &ThreeCochain, b: &[u32]) -> Option<GaugeRefusal>
    requires square { length b.now ≡ w.now.group.order * w.now.group.order }
    ensures first { result ≡ gauge_fault w.now b.now }
{
    first_below(w.group().order(), |g| gauge_fault_in(w, b, g))
}

/// The exponent of `w(g,h,k) b(h,k) b(g,hk) / (b(gh,k) b(g,h))`, up to a multiple of the number of roots.
fn gauged_value(w: &ThreeCochain, b: &[u32], g: u32, h: u32, k: u32) -> u32
    requires square { length b.now ≡ w.now.group.order * w.now.group.order }
    requires g_below { g < w.now.group.order }
    requires h_below { h < w.now.group.order }
    requires k_below { k < w.now.group.order }
    ensures exponent { result ≡ gauged_value w.now b.now g h k }
{
    let group = w.group();
    let roots = w.roots();
    let raised = w.value(g, h, k)
        + pair_value(w, b, h, k)
        + pair_value(w, b, g, group.product(h, k))
        + 2 * roots;
    raised - (pair_value(w, b, group.product(g, h), k) + pair_value(w, b, g, h))
}

/// The cochain with the gauged exponents.
pub fn gauged(alloc: Global, w: &ThreeCochain, b: &[u32]) -> Result<ThreeCochain, Memory>
    requires square { length b.now ≡ w.now.group.order * w.now.group.order }
    ensures gauged { IfOk result (λ changed. changed ≡ gauged w.now b.now) }
{
    let group = w.group().copy(alloc)?;
    let exponents = exponents_by(alloc, group.order(), |g, h, k| gauged_value(w, b, g, h, k))?;
    ThreeCochain::new(alloc, group, w.roots(), &exponents)
}
