//! The simples of the group of order 2 with the cocycle -1 at (1,1,1): the vacuum, a boson and two semions.

ghost use Rattle.std.specs.Prelude.{◌≡◌, ◌<◌, ℕ, length};
ghost use Rattle.qd_ring.specs.RowLists.{row_at};
ghost use Rattle.slant.specs.Twists.{twist_of};

use crate::made::semion_cocycle;
use classes::Classes;
use cochain::Cocycle;
use modular_st::{Pair, SMatrix, commuting_pairs, s_matrix, s_numerator, twist_exponent};
use qd_ring::{Cyc, Root, Rows};
use slant::twist_at;
use std::alloc::Global;
use std::process::Abort;
use table_check::Table;
use transport::{Simples, Tables};

/// Two rows of roots with these exponents.
#[tactic(auto, unfolding(cyclotomic::specs::Conductors::is_conductor, cyclotomic::specs::Conductors::conductors))]
fn rows_of(rt: &impl Abort, alloc: Global, exponents: [[u32; 2]; 2]) -> Rows<4> {
    let mut rows = Rows::<4>::empty(alloc);
    for r in 0..2_usize {
        assert!(rt; rows.rows() < 2);
        rows.push_row().expect(rt, "memory");
        for p in 0..2_usize {
            let last = rows.rows();
            assert!(rt; last > 0 && rows.width(last - 1) < 2);
            rows.push_value(Cyc::from_root(Root::new(exponents[r][p])))
                .expect(rt, "memory");
        }
    }
    rows
}

/// Each row has so many values.
fn expect_widths(rt: &impl Abort, rows: &Rows<4>, size: u32)
    ensures widths { (i : ℕ) → i < length rows.now → length (row_at rows.now i) ≡ size }
{
    for i in 0..rows.rows() {
        assert!(rt; rows.width(i) == size);
    }
}

/// The table at `a` of two rows of roots with these exponents.
fn table_of(
    rt: &impl Abort,
    alloc: Global,
    w: &Cocycle,
    a: u32,
    exponents: [[u32; 2]; 2],
) -> Table<4>
    requires a_below { a < w.now.group.order }
    ensures over { result.over ≡ twist_of w.now a }
{
    let twist = twist_at(alloc, w, a).expect(rt, "memory");
    let rows = rows_of(rt, alloc, exponents);
    assert!(rt; 4 % twist.modulus() == 0);
    expect_widths(rt, &rows, twist.size());
    Table::check(alloc, &twist, rows).expect(rt, "a good table")
}

/// The simples by the tables of these exponents.
#[tactic(auto, unfolding(cyclotomic::specs::Conductors::is_conductor, cyclotomic::specs::Conductors::conductors))]
fn semion(
    rt: &impl Abort,
    alloc: Global,
    first: [[u32; 2]; 2],
    second: [[u32; 2]; 2],
) -> Simples<4> {
    let w = semion_cocycle(rt, alloc);
    let classes = Classes::of(alloc, w.group()).expect(rt, "memory");
    assert!(rt; classes.count() == 2);
    let mut tables = Tables::<4>::empty(alloc);
    tables
        .push(table_of(rt, alloc, &w, classes.representative(0), first))
        .expect(rt, "memory");
    tables
        .push(table_of(rt, alloc, &w, classes.representative(1), second))
        .expect(rt, "memory");
    Simples::of(alloc, w, classes, tables).expect(rt, "memory")
}

/// The full character of simple `i` at `g` and 1 is this value.
fn expect_character(rt: &impl Abort, simples: &Simples<4>, i: u32, g: u32, value: Cyc<4>) {
    let group = simples.cocycle().group();
    assert!(rt; i < simples.count() && group.order() == 2 && g < 2);
    assert!(rt; group.product(g, 1) == group.product(1, g));
    assert_eq!(rt; simples.ch(i, g, 1), Ok(value));
}

/// Simple `i` has this class, degree 1, this twist, and at the element 1 the root with this exponent.
#[tactic(auto, unfolding(cyclotomic::specs::Conductors::is_conductor, cyclotomic::specs::Conductors::conductors))]
fn expect_simple(rt: &impl Abort, simples: &Simples<4>, i: u32, class: u32, twist: u32, root: u32) {
    assert!(rt; i < simples.count() && class < 2);
    assert_eq!(rt; simples.class(i), class);
    assert_eq!(rt; simples.degree(i), 1);
    assert_eq!(rt; simples.dimension(i), 1);
    assert_eq!(rt; simples.twist(i), twist);
    let root = Cyc::from_root(Root::new(root));
    assert!(rt; simples.classes().centraliser(simples.class(i)).len() == 2);
    assert_eq!(rt; simples.value(i, 1), root);
    expect_character(rt, simples, i, class, root);
    expect_character(rt, simples, i, 1 - class, Cyc::zero());
}

/// The vacuum, the boson and the two semions, by their twists.
fn expect_semion(rt: &impl Abort, simples: &Simples<4>) {
    assert_eq!(rt; simples.count(), 4);
    assert_eq!(rt; simples.vacuum(), 0);
    assert_eq!(rt; simples.cocycle().roots(), 2);
    expect_simple(rt, simples, 0, 0, 0, 0);
    expect_simple(rt, simples, 1, 0, 0, 2);
    expect_simple(rt, simples, 2, 1, 3, 3);
    expect_simple(rt, simples, 3, 1, 1, 1);
}

#[test]
fn characters_of_semions(rt: HostRuntime) {
    let simples = semion(&rt, rt.alloc(), [[0, 0], [0, 2]], [[0, 3], [0, 1]]);
    expect_semion(&rt, &simples);
}

#[test]
fn rows_exchanged(rt: HostRuntime) {
    let simples = semion(&rt, rt.alloc(), [[0, 2], [0, 0]], [[0, 1], [0, 3]]);
    expect_semion(&rt, &simples);
}

/// The numerator at `i` and `j` is the root with this exponent.
fn expect_entry(
    rt: &impl Abort,
    simples: &Simples<4>,
    matrix: &SMatrix<4>,
    i: u32,
    j: u32,
    exponent: u32,
) {
    assert!(rt; i < simples.count() && j < simples.count());
    assert!(rt; i < matrix.rows().rows() && j < matrix.rows().width(i));
    let _count = simples.count();
    let value = Cyc::from_root(Root::new(exponent));
    assert_eq!(rt; matrix.get(i, j), value);
    assert_eq!(rt; s_numerator(simples, i, j), Ok(value));
}

#[test]
fn s_of_semions(rt: HostRuntime) {
    let simples = semion(&rt, rt.alloc(), [[0, 0], [0, 2]], [[0, 1], [0, 3]]);
    let matrix = s_matrix(rt.alloc(), &simples).expect(&rt, "a matrix");
    assert_eq!(rt; matrix.rows().rows(), 4);
    let entries = [[0, 0, 0, 0], [0, 0, 2, 2], [0, 2, 2, 0], [0, 2, 0, 2]];
    for i in 0..4_usize {
        for j in 0..4_usize {
            expect_entry(&rt, &simples, &matrix, i as u32, j as u32, entries[i][j]);
        }
    }
    assert_eq!(rt; simples.count(), 4);
    assert_eq!(rt; twist_exponent(&simples, 2), 3);
    assert_eq!(rt; twist_exponent(&simples, 3), 1);
}

#[test]
fn pairs_of_semions(rt: HostRuntime) {
    let simples = semion(&rt, rt.alloc(), [[0, 0], [0, 2]], [[0, 3], [0, 1]]);
    let pairs = commuting_pairs(rt.alloc(), &simples).expect(&rt, "memory");
    assert_eq!(rt; pairs.len(), 4);
    assert_eq!(rt;
        pairs.at(2),
        Pair {
            g: 1,
            h: 0,
            weight: 1
        }
    );
}
