//! All fusion numbers, in a web.

ghost use Rattle.std.specs.Prelude.{◌≡◌, ℕ, ◌+◌, ◌*◌, ◌≤◌, ◌<◌, Some, None, length, IfOk, IfErr, OnOk};
ghost use Rattle.scan.specs.First.{first};
ghost use Rattle.fusion_web.specs.Entries.{count_of, most_nodes};
ghost use Rattle.transport.specs.Simples.{count};
ghost use Rattle.transport.specs.Headline.{TensorProductsDecompose, IsFusionRule};
ghost use Rattle.fusion.specs.Numbers.{quotient_at, pair_fault, simple_fault, whole_fault, HoldsFusionNumbers, HoldsSmallNumbers};
ghost use Rattle.fusion.specs.Kept.{IsKept, ArePairNumbers};
ghost use Rattle.fusion.specs.Fronts.{triple, HasCount, IsFront};
ghost use Rattle.fusion.specs.Refusal.{Refuses};

use crate::conjugates::conjugate_rows;
use crate::elements::order;
use crate::full::full_values;
use crate::kept::Kept;
use crate::pair::pair_numbers;
use crate::refusal::FusionRefusal;
use fusion_web::laws::web_laws;
use fusion_web::{Memory, Web, WebRefusal};
use pair_orbits::commuting_pairs;
use std::alloc::Global;
use transport::{Simples, fusion_laws};

/// Adds that `k` comes so often in the product of `i` and `j`, which the web doesn't have yet.
fn add_count(web: &mut Web, i: u32, j: u32, k: u32, number: u32) -> Result<(), Memory>
    requires i_below { i < web.old.simples }
    requires j_below { j < web.old.simples }
    requires k_below { k < web.old.simples }
    requires absent { count_of web.old i j k ≡ 0 }
    requires room { length web.old.entries < most_nodes }
    ensures counts { OnOk result (HasCount web.old web.new i j k number) }
{
    web_laws();
    let _simples = web.simples();
    if number == 0 {
        return Ok(());
    }
    match web.insert(i, j, k, number) {
        Ok(()) => Ok(()),
        Err(WebRefusal::Memory) => Err(Memory),
        Err(WebRefusal::Full) => unreachable!(),
    }
}

/// Adds the fusion numbers of simples `i` and `j` to a web that has those of the pairs before.
fn add_pair<const K: u32>(
    web: &mut Web,
    simples: &Simples<K>,
    i: u32,
    j: u32,
    numbers: &Vec<u128>,
) -> Result<(), Memory>
    requires few { count K simples.now ≤ 64 }
    requires i_below { i < count K simples.now }
    requires j_below { j < count K simples.now }
    requires numbers { ArePairNumbers K simples.now i j numbers.now.items }
    requires whole { pair_fault K simples.now i j ≡ None }
    requires front { IsFront K simples.now (triple (count K simples.now) i j 0) web.old }
    ensures front { OnOk result (IsFront K simples.now
        (triple (count K simples.now) i (j + 1) 0) web.new) }
{
    let _order = order(simples);
    for l in 0..simples.count() {
        add_count(web, i, j, l, numbers[l as usize] as u32)?;
    }
    Ok(())
}

/// Adds the fusion numbers of simple `i` with each to a web that has those of the simples before.
fn add_simple<const K: u32>(
    alloc: Global,
    web: &mut Web,
    simples: &Simples<K>,
    kept: &Kept<K>,
    i: u32,
) -> Result<(), FusionRefusal<K>>
    requires few { count K simples.now ≤ 64 }
    requires kept { IsKept K simples.now kept.now }
    requires i_below { i < count K simples.now }
    requires before { first i (simple_fault K simples.now) ≡ None }
    requires front { IsFront K simples.now (triple (count K simples.now) i 0 0) web.old }
    ensures front { OnOk result (IsFront K simples.now
        (triple (count K simples.now) (i + 1) 0 0) web.new) }
    ensures whole { OnOk result (simple_fault K simples.now i ≡ None) }
    ensures refused { IfErr result (λ refusal. Refuses K simples.now refusal) }
{
    for j in 0..simples.count() {
        let numbers = pair_numbers(alloc, simples, kept, i, j)?;
        add_pair(web, simples, i, j, &numbers)?;
    }
    Ok(())
}

/// The listed pairs, the full characters and their weighted conjugates.
fn kept<const K: u32>(alloc: Global, simples: &Simples<K>) -> Result<Kept<K>, FusionRefusal<K>>
    ensures kept { IfOk result (λ kept. IsKept K simples.now kept) }
    ensures refused { IfErr result (λ refusal. Refuses K simples.now refusal) }
{
    let full = full_values(alloc, simples)?;
    let pairs = commuting_pairs(alloc, simples.cocycle().group())?;
    let conjugates = conjugate_rows(alloc, simples, &pairs)?;
    Ok(Kept {
        pairs,
        full,
        conjugates,
    })
}

/// The web of the fusion numbers of at most 64 simples: the inner product of the tensor character of each two with the full character of
/// each, over the order of the group (by the coproduct of Dijkgraaf, Pasquier, Roche 1990). `NotWhole` exactly where a fusion sum isn't the
/// order times a whole number of at least 0 and no site was answered before, with the first such; `Overflow` only where the sum at its site
/// overflows.
pub fn numbers<const K: u32>(alloc: Global, simples: &Simples<K>) -> Result<Web, FusionRefusal<K>>
    requires few { count K simples.now ≤ 64 }
    ensures simples { IfOk result (λ web. web.simples ≡ count K simples.now) }
    ensures numbers { IfOk result (λ web. HoldsFusionNumbers K simples.now (count_of web)) }
    ensures small { IfOk result (λ web. HoldsSmallNumbers K simples.now (count_of web)) }
    ensures whole { IfOk result (λ _. whole_fault K simples.now ≡ None) }
    ensures refused { IfErr result (λ refusal. Refuses K simples.now refusal) }

    // Tensor products decompose by the fusion sums; and these very numbers are the tensor multiplicities, with both forms of Verlinde's
    // formula.
    ensures decomposition { TensorProductsDecompose K simples.now }
    ensures rule { IfOk result (λ web. IsFusionRule K simples.now (count_of web)) }
{
    fusion_laws();
    let _order = order(simples);
    let _vacuum = simples.vacuum();
    let count = simples.count();
    let kept = kept(alloc, simples)?;
    let mut web = Web::new(alloc, count)?;
    for i in 0..count {
        add_simple(alloc, &mut web, simples, &kept, i)?;
    }
    Ok(web)
}
