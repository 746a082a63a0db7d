//! The line of a sample: how many simples it has, and what their fusion numbers and their twists add up to.

ghost use Rattle.std.specs.Prelude.{◌≡◌, ◌*◌, ◌<◌, ◌≤◌, ◌==◌, ◌++◌, ℕ, sum, string_bytes, if◌then◌else◌, OnOk, IfOk};
ghost use Rattle.transport.specs.Simples.{count};
ghost use Rattle.fusion_web.specs.Entries.{count_of};
ghost use Rattle.root_fusion.specs.IndicatorLists.{twists};
ghost use Rattle.qd_engine.specs.Rows.{source_of, IsWebOf, HasWeb};
ghost use Rattle.qd_engine.specs.Summary.{sum_of_three, how_many, sample_start, sample_end, sample_line};
ghost use Rattle.qd_engine.specs.Report.{summary_text};

use crate::rows::Rows;
use fusion_web::Web;
use std::alloc::{AllocError, Global};
use transport::Simples;

/// The sum of what `number` gives for all three numbers below `n`.
fn sum_of_three<F: Fn(u32, u32, u32) -> u32>(n: u32, number: F) -> u64
where
    F: Drop,
    requires few { n ≤ 256 }
    requires callable { (i j l : ℕ) → i < n → j < n → l < n → F.pre number i j l }
    ensures sum { (at : ℕ → ℕ → ℕ → ℕ) →
        ((i j l v : ℕ) → i < n → j < n → l < n → F.post number i j l v → v ≡ at i j l) → result
        ≡ sum_of_three n at }
{
    let mut total: u64 = 0;
    for p in 0..n * n * n {
        total += number(p / n / n, p / n % n, p % n) as u64;
    }
    total
}

/// 1 where the web has an entry of these three simples, and else 0.
fn one_if_some(web: &Web, i: u32, j: u32, l: u32) -> u32
    requires i_below { i < web.now.simples }
    requires j_below { j < web.now.simples }
    requires l_below { l < web.now.simples }
    ensures one { result ≡ (if count_of web.now i j l == 0 then 0 else 1) }
{
    if web.count(i, j, l) == 0 { 0 } else { 1 }
}

/// How many numbers of the web are not 0.
fn how_many(web: &Web) -> u64
    ensures many { result ≡ how_many web.now.simples (count_of web.now) }
{
    sum_of_three(web.simples(), |i, j, l| one_if_some(web, i, j, l))
}

/// What the numbers of the web add up to.
fn total_numbers(web: &Web) -> u64
    ensures total { result ≡ sum_of_three web.now.simples (count_of web.now) }
{
    sum_of_three(web.simples(), |i, j, l| web.count(i, j, l))
}

/// What the exponents of the twists add up to.
fn sum_of_twists<const K: u32>(simples: &Simples<K>) -> u64
    ensures sum { result ≡ sum (twists K simples.now) }
{
    let mut total: u64 = 0;
    for i in 0..simples.count() {
        total += simples.twist(i) as u64;
    }
    total
}

/// The line of the sample with this number, up to its simples.
fn sample_start(alloc: Global, number: u32, n: u32, k: u32, q: u32) -> Result<String, AllocError>
    ensures start { IfOk result (λ text. string_bytes text ≡ sample_start number n k q) }
{
    format!(in alloc; "sample {number} order {n} conductor {k} modulus {q}")
}

/// The rest of the line.
fn sample_end(
    alloc: Global,
    simples: u32,
    nonzero: u64,
    total: u64,
    exponents: u64,
) -> Result<String, AllocError>
    ensures end { IfOk result (λ text. string_bytes text
        ≡ sample_end simples nonzero total exponents) }
{
    format!(in alloc; " simples {simples} nonzero {nonzero} total {total} twists {exponents}\n")
}

/// Adds the line of the sample with this number, whose rows are lifted modulo `q`.
fn append_line<const K: u32>(
    out: &mut Vec<u8>,
    simples: &Simples<K>,
    web: &Web,
    q: u32,
    number: u32,
) -> Result<(), AllocError>
    requires web { IsWebOf K simples.now web.now }
    ensures added { OnOk result (out.new.items ≡ out.old.items
        ++ sample_line K simples.now q number) }
{
    let alloc = *out.allocator();
    let start = sample_start(alloc, number, simples.cocycle().group().order(), K, q)?;
    let end = sample_end(
        alloc,
        simples.count(),
        how_many(web),
        total_numbers(web),
        sum_of_twists(simples),
    )?;
    out.extend_from_slice(start.as_bytes())?;
    out.extend_from_slice(end.as_bytes())
}

/// Adds the line of the sample with this number, where its rows are lifted.
pub fn append_summary<const K: u32>(
    out: &mut Vec<u8>,
    rows: &Rows,
    simples: &Simples<K>,
    web: &Option<Web>,
    number: u32,
) -> Result<(), AllocError>
    requires web { HasWeb K simples.now rows.now web.now }
    ensures added { OnOk result (out.new.items ≡ out.old.items
        ++ summary_text (source_of rows.now) K simples.now number) }
{
    match rows {
        Rows::Stated(_) => Ok(()),
        Rows::Lifted(ring) => match web {
            Some(web) => append_line(out, simples, web, ring.q(), number),
            None => unreachable!(),
        },
    }
}
