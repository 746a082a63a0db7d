//! The fusion numbers of two simples with each.

ghost use Rattle.std.specs.Prelude.{◌≡◌, ◌<◌, Some, None, IfOk, IfErr};
ghost use Rattle.transport.specs.Simples.{count};
ghost use Rattle.fusion.specs.Numbers.{quotient_at, pair_fault, PairsBeforeAreWhole, SumsBeforeAreWhole};
ghost use Rattle.fusion.specs.Kept.{AreTensors, AreAllWeighted, IsKept, ArePairNumbers};
ghost use Rattle.fusion.specs.Refusal.{Refuses};

use crate::elements::order;
use crate::inner::fusion_sum;
use crate::kept::Kept;
use crate::making::tensors;
use crate::quotient::whole_quotient;
use crate::refusal::FusionRefusal;
use crate::weighted::Weighted;
use qd_ring::{Part, Site, Terms};
use std::alloc::Global;
use transport::Simples;

/// The fusion number of simples `i`, `j` and `l`, where those before are whole.
fn sum_number<const K: u32>(
    simples: &Simples<K>,
    conjugates: &Vec<Vec<Weighted<K>>>,
    tensors: &Vec<Option<Box<Terms<K>>>>,
    i: u32,
    j: u32,
    l: u32,
) -> Result<u128, FusionRefusal<K>>
    requires conjugates { AreAllWeighted K simples.now conjugates.now.items }
    requires tensors { AreTensors K simples.now i j tensors.now.items }
    requires i_below { i < count K simples.now }
    requires j_below { j < count K simples.now }
    requires l_below { l < count K simples.now }
    requires before { SumsBeforeAreWhole K simples.now i j l }
    ensures number { IfOk result (λ number. quotient_at K simples.now i j l ≡ Some number) }
    ensures refused { IfErr result (λ refusal. Refuses K simples.now refusal) }
{
    let Some(value) = fusion_sum(simples, conjugates, tensors, i, j, l) else {
        let site = Site {
            part: Part::Inner,
            at: l,
            i,
            j,
            x: 0,
        };
        return Err(FusionRefusal::Overflow { site });
    };
    match whole_quotient(order(simples), &value) {
        Some(number) => Ok(number),
        None => Err(FusionRefusal::NotWhole { i, j, k: l, value }),
    }
}

/// The fusion numbers of simples `i` and `j` with each, where those of the pairs before are whole.
pub fn pair_numbers<const K: u32>(
    alloc: Global,
    simples: &Simples<K>,
    kept: &Kept<K>,
    i: u32,
    j: u32,
) -> Result<Vec<u128>, FusionRefusal<K>>
    requires kept { IsKept K simples.now kept.now }
    requires i_below { i < count K simples.now }
    requires j_below { j < count K simples.now }
    requires before { PairsBeforeAreWhole K simples.now i j }
    ensures numbers { IfOk result (λ numbers. ArePairNumbers K simples.now i j numbers.items) }
    ensures whole { IfOk result (λ _. pair_fault K simples.now i j ≡ None) }
    ensures refused { IfErr result (λ refusal. Refuses K simples.now refusal) }
{
    let tensors = tensors(alloc, simples, &kept.pairs, &kept.full, i, j)?;
    let mut numbers = Vec::new(alloc);
    for l in 0..simples.count() {
        let number = sum_number(simples, &kept.conjugates, &tensors, i, j, l)?;
        numbers.push(number)?;
    }
    Ok(numbers)
}
