//! The tensor characters of two simples at the listed pairs, each as a folded sum over the members of the class of the first.

ghost use Rattle.std.specs.Prelude.{◌≡◌, ◌<◌, ◌==◌, ◌&&◌, false, IfSome, IfOk, IfErr, IsTrue};
ghost use Rattle.group_table.specs.Group.{commute};
ghost use Rattle.classes.specs.Conjugacy.{class_of};
ghost use Rattle.cyclotomic.specs.Ring.{value_sum, value_nought};
ghost use Rattle.cyclotomic.specs.CyclotomicRing.{cyclotomic_value};
ghost use Rattle.pair_orbits.specs.PairOrbits.{listed_pairs};
ghost use Rattle.qd_ring.specs.Folding.{folded_value};
ghost use Rattle.transport.specs.Simples.{count, class_at};
ghost use Rattle.transport.specs.Fusion.{left_quotient, tensor_character};
ghost use Rattle.fusion.specs.Numbers.{PairsBeforeAreWhole};
ghost use Rattle.fusion.specs.Kept.{value_or_nought, Answers, AreFullValues, IsTensorPlace, tensor_part, AreTensors};
ghost use Rattle.fusion.specs.Refusal.{Refuses};

use crate::elements::{
    class_member, class_size, commute, coproduct_root, is_in_class, left_quotient, order,
};
use crate::full::full_at;
use crate::listed::listed_at;
use crate::plain;
use crate::refusal::FusionRefusal;
use crate::sparse::sparse_or_nought;
use pair_orbits::Pairs;
use qd_ring::{Cyc, Folded, Part, Site, Terms};
use std::alloc::Global;
use transport::Simples;

/// Whether `h` commutes with `x`, and `h^-1 g` is in the class of simple `j`.
fn meets<const K: u32>(simples: &Simples<K>, j: u32, g: u32, x: u32, h: u32) -> bool
    requires j_below { j < count K simples.now }
    requires g_below { g < simples.now.cocycle.group.order }
    requires x_below { x < simples.now.cocycle.group.order }
    requires h_below { h < simples.now.cocycle.group.order }
    ensures meets { let t = simples.now.cocycle.group in
        result ≡ (commute t h x && (class_of t (left_quotient t h g) == class_at K simples.now j)) }
{
    commute(simples, h, x) && is_in_class(simples, j, left_quotient(simples, h, g))
}

/// Whether some member of the class of simple `i` commutes with `x`, with a quotient in the class of simple `j`. Else the tensor character
/// is 0.
fn is_made<const K: u32>(simples: &Simples<K>, i: u32, j: u32, g: u32, x: u32) -> bool
    requires place { IsTensorPlace K simples.now i j g x }
    ensures nought { result ≡ false → (tensor_character K simples.now i j g x).value
        ≡ value_nought }
{
    let _order = order(simples);
    let _count = simples.count();
    for q in 0..class_size(simples, i) {
        if meets(simples, j, g, x, class_member(simples, i, q)) {
            return true;
        }
    }
    false
}

/// Adds the part at `h`, which is in the class of simple `i`, and `h^-1 g`; it is left out where it is 0. False where there is no room.
fn add_part<const K: u32>(
    folded: &mut Folded<K>,
    simples: &Simples<K>,
    full: &Vec<Vec<Option<Box<Terms<K>>>>>,
    i: u32,
    j: u32,
    g: u32,
    x: u32,
    h: u32,
) -> bool
    requires full { AreFullValues K simples.now full.now.items }
    requires place { IsTensorPlace K simples.now i j g x }
    requires h_below { h < simples.now.cocycle.group.order }
    requires class { class_of simples.now.cocycle.group h ≡ class_at K simples.now i }
    ensures value { IsTrue result
        → folded_value K folded.new ≡ value_sum (folded_value K folded.old)
        (tensor_part K simples.now i j g x h).value }
{
    let _count = simples.count();
    if !meets(simples, j, g, x, h) {
        return true;
    }
    let other = left_quotient(simples, h, g);
    let Some(left) = full_at(simples, full, i, h, x) else {
        return true;
    };
    let Some(right) = full_at(simples, full, j, other, x) else {
        return true;
    };
    folded.add_product(left, right, coproduct_root(simples, x, h, other))
}

/// The tensor character of simples `i` and `j` at `g` and `x`, which commute, where it may be folded.
fn folded_tensor<const K: u32>(
    simples: &Simples<K>,
    full: &Vec<Vec<Option<Box<Terms<K>>>>>,
    i: u32,
    j: u32,
    g: u32,
    x: u32,
) -> Option<Cyc<K>>
    requires full { AreFullValues K simples.now full.now.items }
    requires place { IsTensorPlace K simples.now i j g x }
    ensures value { IfSome result (λ sum.
        cyclotomic_value K sum.coefficients ≡ (tensor_character K simples.now i j g x).value) }
{
    let _order = order(simples);
    let _count = simples.count();
    let mut folded = Folded::zero();
    for q in 0..class_size(simples, i) {
        if !add_part(
            &mut folded,
            simples,
            full,
            i,
            j,
            g,
            x,
            class_member(simples, i, q),
        ) {
            return None;
        }
    }
    Some(folded.finish())
}

/// The tensor character of simples `i` and `j` at `g` and `x`, which commute.
fn tensor_character<const K: u32>(
    simples: &Simples<K>,
    full: &Vec<Vec<Option<Box<Terms<K>>>>>,
    i: u32,
    j: u32,
    g: u32,
    x: u32,
) -> Option<Cyc<K>>
    requires full { AreFullValues K simples.now full.now.items }
    requires place { IsTensorPlace K simples.now i j g x }
    ensures answers { Answers K (tensor_character K simples.now i j g x) result }
{
    match folded_tensor(simples, full, i, j, g, x) {
        Some(sum) => Some(sum),
        None => plain::tensor_character(simples, i, j, g, x),
    }
}

/// It in sparse form; none where it is 0.
fn tensor_value<const K: u32>(
    alloc: Global,
    simples: &Simples<K>,
    full: &Vec<Vec<Option<Box<Terms<K>>>>>,
    i: u32,
    j: u32,
    g: u32,
    x: u32,
) -> Result<Option<Box<Terms<K>>>, FusionRefusal<K>>
    requires full { AreFullValues K simples.now full.now.items }
    requires place { IsTensorPlace K simples.now i j g x }
    requires before { PairsBeforeAreWhole K simples.now i j }
    ensures value { IfOk result
        (λ value. value_or_nought K value ≡ (tensor_character K simples.now i j g x).value) }
    ensures refused { IfErr result (λ refusal. Refuses K simples.now refusal) }
{
    if !is_made(simples, i, j, g, x) {
        return Ok(None);
    }
    let Some(value) = tensor_character(simples, full, i, j, g, x) else {
        let site = Site {
            part: Part::Tensor,
            at: g,
            i,
            j,
            x,
        };
        return Err(FusionRefusal::Overflow { site });
    };
    Ok(sparse_or_nought(alloc, &value)?)
}

/// Those of simples `i` and `j` at the listed pairs.
pub fn tensors<const K: u32>(
    alloc: Global,
    simples: &Simples<K>,
    pairs: &Pairs,
    full: &Vec<Vec<Option<Box<Terms<K>>>>>,
    i: u32,
    j: u32,
) -> Result<Vec<Option<Box<Terms<K>>>>, FusionRefusal<K>>
    requires pairs { pairs.now ≡ listed_pairs simples.now.cocycle.group }
    requires full { AreFullValues K simples.now full.now.items }
    requires i_below { i < count K simples.now }
    requires j_below { j < count K simples.now }
    requires before { PairsBeforeAreWhole K simples.now i j }
    ensures tensors { IfOk result (λ tensors. AreTensors K simples.now i j tensors.items) }
    ensures refused { IfErr result (λ refusal. Refuses K simples.now refusal) }
{
    let mut tensors = Vec::new(alloc);
    for p in 0..pairs.len() {
        let pair = listed_at(simples, pairs, p);
        tensors.push(tensor_value(alloc, simples, full, i, j, pair.g, pair.h)?)?;
    }
    Ok(tensors)
}
