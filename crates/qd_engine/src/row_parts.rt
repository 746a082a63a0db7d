//! The parts of a report on rows of values.

ghost use Rattle.std.specs.Prelude.{◌≡◌, ◌++◌, true, OnOk, IfOk, IfErr};
ghost use Rattle.modular_st.specs.SMatrices.{values_of_rows, s_rows};
ghost use Rattle.qd_engine.specs.Rows.{source_of, IsOver, HasWeb};
ghost use Rattle.qd_engine.specs.Words.{has_numbers, have_numbers};
ghost use Rattle.qd_engine.specs.Report.{conductor_line, modulus_line, modulus_text, s_lines, row_part_text, parts_text};
ghost use Rattle.qd_engine.specs.Tests.{LatePart, LateIn};
ghost use Rattle.qd_engine.specs.Follows.{StopsLate};

use crate::certificate::append_certificate;
use crate::command::RowPart;
use crate::indicator_lines::append_indicators;
use crate::numbers::append_fusion_numbers;
use crate::rows::Rows;
use crate::stop::Stop;
use crate::summary::append_summary;
use data_print::{Cause, append_s, append_simples};
use fusion_web::Web;
use modular_st::{SMatrix, StRefusal, s_matrix};
use prime_field::ModRing;
use std::alloc::{AllocError, Global};
use transport::Simples;

/// The matrix S of these simples.
fn matrix_of<const K: u32>(alloc: Global, simples: &Simples<K>) -> Result<SMatrix<K>, Stop>
    ensures matrix { IfOk result (λ matrix. values_of_rows K matrix ≡ s_rows K simples.now) }
    ensures refused { IfErr result (StopsLate (LatePart K simples.now RowPart.S)) }
{
    match s_matrix(alloc, simples) {
        Ok(matrix) => Ok(matrix),
        Err(StRefusal::Overflow { site }) => Err(Stop::Refused(Cause::Overflow { site })),
        Err(StRefusal::Memory) => Err(Stop::Memory),
    }
}

/// Adds the lines of the matrix S.
fn append_rows_of_s<const K: u32>(
    out: &mut Vec<u8>,
    simples: &Simples<K>,
    matrix: &SMatrix<K>,
) -> Result<(), AllocError>
    requires matrix { values_of_rows K matrix.now ≡ s_rows K simples.now }
    ensures added { OnOk result (out.new.items ≡ out.old.items ++ s_lines K simples.now) }
{
    let n = simples.cocycle().group().order();
    let rows = matrix.rows();
    for i in 0..simples.count() {
        append_s(out, n, i, rows)?;
    }
    Ok(())
}

/// Adds the lines of the matrix S of these simples.
fn append_matrix<const K: u32>(out: &mut Vec<u8>, simples: &Simples<K>) -> Result<(), Stop>
    ensures added { OnOk result (out.new.items ≡ out.old.items ++ s_lines K simples.now) }
    ensures refused { IfErr result (StopsLate (LatePart K simples.now RowPart.S)) }
{
    let matrix = matrix_of(*out.allocator(), simples)?;
    Ok(append_rows_of_s(out, simples, &matrix)?)
}

/// Adds the line of a conductor.
fn append_conductor(out: &mut Vec<u8>, k: u32) -> Result<(), AllocError>
    ensures added { OnOk result (out.new.items ≡ out.old.items ++ conductor_line k) }
{
    let alloc = *out.allocator();
    let text = format!(in alloc; "conductor {k}\n")?;
    out.extend_from_slice(text.as_bytes())
}

/// Adds the line of the modulus of a field.
fn append_modulus(out: &mut Vec<u8>, ring: &ModRing) -> Result<(), AllocError>
    ensures added { OnOk result (out.new.items ≡ out.old.items
        ++ modulus_line ring.now.q ring.now.conductor) }
{
    let alloc = *out.allocator();
    let q = ring.q();
    let root = ring.root();
    let text = format!(in alloc; "modulus {q} root {root}\n")?;
    out.extend_from_slice(text.as_bytes())
}

/// Adds the line of the modulus of these rows, where they have one.
fn append_modulus_of(out: &mut Vec<u8>, k: u32, rows: &Rows) -> Result<(), AllocError>
    requires over { IsOver k rows.now }
    ensures added { OnOk result (out.new.items ≡ out.old.items
        ++ modulus_text (source_of rows.now) k) }
{
    match rows {
        Rows::Stated(_) => Ok(()),
        Rows::Lifted(ring) => append_modulus(out, ring),
    }
}

/// Adds a part of the report on these simples, which the rows give.
fn append_row_part<const K: u32>(
    out: &mut Vec<u8>,
    part: RowPart,
    rows: &Rows,
    simples: &Simples<K>,
    web: &Option<Web>,
) -> Result<(), Stop>
    requires over { IsOver K rows.now }
    requires web { has_numbers part ≡ true → HasWeb K simples.now rows.now web.now }
    ensures added { OnOk result (out.new.items ≡ out.old.items
        ++ row_part_text (source_of rows.now) K simples.now part) }
    ensures refused { IfErr result (StopsLate (LatePart K simples.now part)) }
{
    match part {
        RowPart::Blank => Ok(()),
        RowPart::Conductor => Ok(append_conductor(out, K)?),
        RowPart::Modulus => Ok(append_modulus_of(out, K, rows)?),
        RowPart::Simples => Ok(append_simples(out, simples)?),
        RowPart::S => append_matrix(out, simples),
        RowPart::Fusion => Ok(append_fusion_numbers(out, rows, simples, web)?),
        RowPart::Indicators { order } => Ok(append_indicators(out, rows, simples, web, order)?),
        RowPart::Summary { sample } => Ok(append_summary(out, rows, simples, web, sample)?),
        RowPart::Document => Ok(append_certificate(out, simples)?),
        RowPart::End => Ok(out.extend_from_slice(b"end\n")?),
    }
}

/// Adds these parts of the report, one after the other.
pub fn append_row_parts<const K: u32>(
    out: &mut Vec<u8>,
    parts: &[RowPart],
    rows: &Rows,
    simples: &Simples<K>,
    web: &Option<Web>,
) -> Result<(), Stop>
    requires over { IsOver K rows.now }
    requires web { have_numbers parts.now ≡ true → HasWeb K simples.now rows.now web.now }
    ensures added { OnOk result
        (out.new.items ≡ out.old.items
        ++ parts_text (row_part_text (source_of rows.now) K simples.now) parts.now) }
    ensures refused { IfErr result (StopsLate (LateIn K simples.now parts.now)) }
{
    for part in parts {
        append_row_part(out, *part, rows, simples, web)?;
    }
    Ok(())
}
