//! The lines of the indicators of all simples.

ghost use Rattle.std.specs.Prelude.{◌≡◌, ◌<◌, ◌++◌, All, OnOk, IfOk};
ghost use Rattle.transport.specs.Simples.{count};
ghost use Rattle.root_fusion.specs.IndicatorLists.{dimensions, twists};
ghost use Rattle.data_print.specs.Text.{first_lines};
ghost use Rattle.data_print.specs.IndicatorLines.{indicator_line};
ghost use Rattle.qd_engine.specs.Report.{indicators_head, indicator_of, indicators_text, where_lifted};
ghost use Rattle.qd_engine.specs.Rows.{source_of, IsWebOf, HasWeb};

use crate::rows::Rows;
use data_print::append_indicator;
use fusion::plane;
use fusion_web::Web;
use group_table::Nats;
use indicators::indicator;
use std::alloc::{AllocError, Global};
use transport::Simples;

/// The dimensions of all simples.
fn dimensions<const K: u32>(alloc: Global, simples: &Simples<K>) -> Result<Nats, AllocError>
    ensures dimensions { IfOk result (λ dims. dims ≡ dimensions K simples.now) }
{
    let mut dims = Nats::empty(alloc);
    for i in 0..simples.count() {
        dims.push(simples.dimension(i))?;
    }
    Ok(dims)
}

/// The exponents of the twists of all simples.
fn twists<const K: u32>(alloc: Global, simples: &Simples<K>) -> Result<Nats, AllocError>
    ensures twists { IfOk result (λ exponents. exponents ≡ twists K simples.now) }
    ensures below { IfOk result (λ exponents. All (λ t. t < K) exponents) }
{
    let mut exponents = Nats::empty(alloc);
    for i in 0..simples.count() {
        exponents.push(simples.twist(i))?;
    }
    Ok(exponents)
}

/// Adds the line of the indicator of order `m` of simple `l`.
fn append_simple<const K: u32>(
    out: &mut Vec<u8>,
    simples: &Simples<K>,
    web: &Web,
    dims: &Nats,
    exponents: &Nats,
    m: u32,
    l: u32,
) -> Result<(), AllocError>
    requires web { IsWebOf K simples.now web.now }
    requires dimensions { dims.now ≡ dimensions K simples.now }
    requires twists { exponents.now ≡ twists K simples.now }
    requires below { All (λ t. t < K) exponents.now }
    requires l_below { l < count K simples.now }
    ensures added { OnOk result (out.new.items ≡ out.old.items
        ++ indicator_line l (indicator_of K simples.now m l)) }
{
    let _count = simples.count();
    let plane = plane(*out.allocator(), web, l)?;
    match indicator::<K>(l, &plane, dims, exponents, m) {
        Ok(numerator) => append_indicator(out, l, &numerator),
        Err(_) => unreachable!(),
    }
}

/// Adds the heading of the indicators of order `m`.
fn append_head_of(out: &mut Vec<u8>, n: u32, m: u32) -> Result<(), AllocError>
    requires n_small { n < 65536 }
    ensures added { OnOk result (out.new.items ≡ out.old.items ++ indicators_head n m) }
{
    let alloc = *out.allocator();
    let square = n * n;
    let text = format!(in alloc; "indicators {m} over {square}\n")?;
    out.extend_from_slice(text.as_bytes())
}

/// Adds the lines of all simples.
fn append_all<const K: u32>(
    out: &mut Vec<u8>,
    simples: &Simples<K>,
    web: &Web,
    m: u32,
) -> Result<(), AllocError>
    requires web { IsWebOf K simples.now web.now }
    ensures added { OnOk result (out.new.items ≡ out.old.items
        ++ first_lines (λ l. indicator_line l (indicator_of K simples.now m l))
        (count K simples.now)) }
{
    let alloc = *out.allocator();
    let dims = dimensions(alloc, simples)?;
    let exponents = twists(alloc, simples)?;
    for l in 0..simples.count() {
        append_simple(out, simples, web, &dims, &exponents, m, l)?;
    }
    Ok(())
}

/// Adds the heading and the lines of the indicators of order `m`.
fn append_web_indicators<const K: u32>(
    out: &mut Vec<u8>,
    simples: &Simples<K>,
    web: &Web,
    m: u32,
) -> Result<(), AllocError>
    requires web { IsWebOf K simples.now web.now }
    ensures added { OnOk result (out.new.items ≡ out.old.items ++ indicators_text K simples.now m) }
{
    append_head_of(out, simples.cocycle().group().order(), m)?;
    append_all(out, simples, web, m)
}

/// Adds the indicators of order `m`, where the fusion numbers are at hand.
pub fn append_indicators<const K: u32>(
    out: &mut Vec<u8>,
    rows: &Rows,
    simples: &Simples<K>,
    web: &Option<Web>,
    m: u32,
) -> Result<(), AllocError>
    requires web { HasWeb K simples.now rows.now web.now }
    ensures added { OnOk result (out.new.items ≡ out.old.items
        ++ where_lifted (source_of rows.now) (indicators_text K simples.now m)) }
{
    match web {
        Some(web) => append_web_indicators(out, simples, web, m),
        None => Ok(()),
    }
}
