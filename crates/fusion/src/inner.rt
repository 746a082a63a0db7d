//! The inner products of the tensor character of two simples with the full characters, each as a folded sum over the listed pairs.

ghost use Rattle.std.specs.Prelude.{◌≡◌, ◌<◌, true, IfSome, IsTrue};
ghost use Rattle.cyclotomic.specs.Conductors.{is_conductor};
ghost use Rattle.cyclotomic.specs.Cyclotomic.{cyclotomic};
ghost use Rattle.cyclotomic.specs.Ring.{value_sum, value_product};
ghost use Rattle.cyclotomic.specs.CyclotomicRing.{CyclotomicValue, cyclotomic_value};
ghost use Rattle.qd_ring.specs.SparseValues.{value_of_terms};
ghost use Rattle.qd_ring.specs.Folding.{folded_value};
ghost use Rattle.transport.specs.Simples.{count};
ghost use Rattle.transport.specs.Fusion.{fusion_sum};
ghost use Rattle.fusion.specs.Kept.{value_or_nought, Answers, AreTensors, AreAllWeighted};

use crate::elements::order;
use crate::plain;
use crate::weighted::Weighted;
use qd_ring::{Cyc, Folded, Root, Terms};
use transport::Simples;

/// Adds the product of a tensor character and a weighted conjugate; it is left out where the first is 0. False where the second isn't there,
/// or where there is no room.
fn add_pair<const K: u32>(
    folded: &mut Folded<K>,
    tensor: &Option<Box<Terms<K>>>,
    conjugate: &Option<Terms<K>>,
) -> bool
    requires conductor { is_conductor K ≡ true }
    ensures value { (u : CyclotomicValue K)
        → IfSome conjugate.now (λ terms. value_of_terms K terms ≡ u) → IsTrue result
        → folded_value K folded.new ≡ value_sum (folded_value K folded.old)
        (value_product (cyclotomic K) (value_or_nought K tensor.now) u) }
{
    let Some(tensor) = tensor else {
        return true;
    };
    match conjugate {
        Some(conjugate) => folded.add_product(tensor, conjugate, Root::new(0)),
        None => false,
    }
}

/// The fusion sum of simples `i`, `j` and `l`, where it may be folded.
fn folded_sum<const K: u32>(
    simples: &Simples<K>,
    conjugates: &Vec<Vec<Weighted<K>>>,
    tensors: &Vec<Option<Box<Terms<K>>>>,
    i: u32,
    j: u32,
    l: u32,
) -> Option<Cyc<K>>
    requires conjugates { AreAllWeighted K simples.now conjugates.now.items }
    requires tensors { AreTensors K simples.now i j tensors.now.items }
    requires i_below { i < count K simples.now }
    requires j_below { j < count K simples.now }
    requires l_below { l < count K simples.now }
    ensures value { IfSome result
        (λ sum. cyclotomic_value K sum.coefficients ≡ (fusion_sum K simples.now i j l).value) }
{
    let _order = order(simples);
    let _count = simples.count();
    let mut folded = Folded::zero();
    for weighted in &conjugates[l as usize] {
        if !add_pair(
            &mut folded,
            &tensors[weighted.place as usize],
            &weighted.conjugate,
        ) {
            return None;
        }
    }
    Some(folded.finish())
}

/// The fusion sum of simples `i`, `j` and `l`; `None` only where it overflows.
pub fn fusion_sum<const K: u32>(
    simples: &Simples<K>,
    conjugates: &Vec<Vec<Weighted<K>>>,
    tensors: &Vec<Option<Box<Terms<K>>>>,
    i: u32,
    j: u32,
    l: u32,
) -> Option<Cyc<K>>
    requires conjugates { AreAllWeighted K simples.now conjugates.now.items }
    requires tensors { AreTensors K simples.now i j tensors.now.items }
    requires i_below { i < count K simples.now }
    requires j_below { j < count K simples.now }
    requires l_below { l < count K simples.now }
    ensures answers { Answers K (fusion_sum K simples.now i j l) result }
{
    match folded_sum(simples, conjugates, tensors, i, j, l) {
        Some(sum) => Some(sum),
        None => plain::fusion_sum(simples, i, j, l),
    }
}
