//! Roots, kernels and minimal polynomials of small matrices, with values worked by hand.

ghost use Rattle.std.specs.Prelude.{◌≡◌, ◌+◌, ◌*◌, ◌<◌, ◌≤◌, ◌++◌, [], ◌∷◌, true, length, IfOk};
ghost use Rattle.cyclotomic.specs.Conductors.{is_conductor};
ghost use Rattle.prime_field.specs.SquareMatrix.{HasEntriesBelow};

use group_table::{Memory, Nats};
use prime_field::{Matrix, ModRing, Poly, kernel, minimal, roots};
use std::alloc::Global;
use std::process::Abort;

/// Sets a number below `q` of a matrix of such numbers.
fn put(matrix: &mut Matrix, q: u32, i: u32, j: u32, v: u32)
    requires i_below { i < matrix.old.width }
    requires j_below { j < matrix.old.width }
    requires v_below { v < q }
    requires entries_below { HasEntriesBelow q matrix.old }
    ensures width { matrix.new.width ≡ matrix.old.width }
    ensures entries_below { HasEntriesBelow q matrix.new }
{
    matrix.set(i, j, v);
}

/// The matrix with these numbers, row after row.
fn matrix_of(alloc: Global, ring: &ModRing, r: u32, values: &[u32]) -> Result<Matrix, Memory>
    requires from_one { 1 ≤ r }
    requires to_sixty { r ≤ 60 }
    requires square { length values.now ≡ r * r }
    ensures entries_below { IfOk result (λ matrix. HasEntriesBelow ring.now.q matrix) }
{
    let mut matrix = Matrix::new(alloc, r)?;
    for k in 0..r * r {
        put(
            &mut matrix,
            ring.q,
            k / r,
            k % r,
            values[k as usize] % ring.q,
        );
    }
    Ok(matrix)
}

/// The polynomial with these lower coefficients and the leading coefficient 1.
fn monic(alloc: Global, lower: &[u32]) -> Result<Poly, Memory>
    requires few { length lower.now ≤ 60 }
    ensures coefficients { IfOk result (λ f. f ≡ lower.now ++ 1 ∷ []) }
{
    let mut values = Nats::empty(alloc);
    for value in lower {
        values.push(*value)?;
    }
    values.push(1)?;
    Ok(Poly::of(&values))
}

fn expect_numbers(rt: &impl Abort, f: &Poly, wanted: &[u32]) {
    assert_eq!(rt; f.len() as usize, wanted.len());
    for i in 0..f.len() {
        assert_eq!(rt; wanted.get(i as usize), Some(&f.at(i)));
    }
}

/// The roots of the polynomial with these lower coefficients and the leading coefficient 1.
fn roots_of_monic(alloc: Global, ring: &ModRing, lower: &[u32]) -> Result<Poly, Memory>
    requires few { length lower.now ≤ 60 }
{
    let f = monic(alloc, lower)?;
    Ok(roots(ring, &f))
}

fn expect_roots(rt: &impl Abort, alloc: Global, ring: &ModRing, lower: &[u32], wanted: &[u32])
    requires few { length lower.now ≤ 60 }
{
    let found = roots_of_monic(alloc, ring, lower).expect(rt, "a polynomial");
    expect_numbers(rt, &found, wanted);
}

fn expect_kernel(rt: &impl Abort, alloc: Global, ring: &ModRing, values: &[u32], wanted: &[u32])
    requires square { length values.now ≡ 4 }
{
    let matrix = matrix_of(alloc, ring, 2, values).expect(rt, "a matrix");
    let basis = kernel(alloc, ring, &matrix).expect(rt, "a kernel");
    assert_eq!(rt; basis.as_slice(), wanted);
}

fn expect_minimal(rt: &impl Abort, alloc: Global, ring: &ModRing, values: &[u32], wanted: &[u32])
    requires square { length values.now ≡ 4 }
{
    let matrix = matrix_of(alloc, ring, 2, values).expect(rt, "a matrix");
    let f = minimal(alloc, ring, &matrix).expect(rt, "a polynomial");
    expect_numbers(rt, &f, wanted);
}

#[test]
#[tactic(auto, unfolding(cyclotomic::specs::Conductors::is_conductor, cyclotomic::specs::Conductors::conductors))]
fn roots_of_squares(rt: HostRuntime) {
    let five = ModRing::new(5, 2, 4).expect(&rt, "a field");
    let seven = ModRing::new(7, 2, 6).expect(&rt, "a field");
    expect_roots(&rt, rt.alloc(), &five, &[4, 0], &[1, 4]);
    expect_roots(&rt, rt.alloc(), &five, &[1, 0], &[2, 3]);
    expect_roots(&rt, rt.alloc(), &seven, &[1, 0], &[]);
    expect_roots(&rt, rt.alloc(), &five, &[0, 4, 0, 0, 0], &[0, 1, 2, 3, 4]);
}

#[test]
#[tactic(auto, unfolding(cyclotomic::specs::Conductors::is_conductor, cyclotomic::specs::Conductors::conductors))]
fn kernels_of_two_rows(rt: HostRuntime) {
    let five = ModRing::new(5, 2, 4).expect(&rt, "a field");
    expect_kernel(&rt, rt.alloc(), &five, &[0, 0, 0, 0], &[1, 0, 0, 1]);
    expect_kernel(&rt, rt.alloc(), &five, &[1, 2, 2, 4], &[1, 2]);
    expect_kernel(&rt, rt.alloc(), &five, &[1, 2, 3, 4], &[]);
}

#[test]
#[tactic(auto, unfolding(cyclotomic::specs::Conductors::is_conductor, cyclotomic::specs::Conductors::conductors))]
fn minimal_polynomials_of_two_rows(rt: HostRuntime) {
    let five = ModRing::new(5, 2, 4).expect(&rt, "a field");
    expect_minimal(&rt, rt.alloc(), &five, &[1, 0, 0, 1], &[4, 1]);
    expect_minimal(&rt, rt.alloc(), &five, &[0, 1, 1, 0], &[4, 0, 1]);
    expect_minimal(&rt, rt.alloc(), &five, &[0, 1, 0, 0], &[0, 0, 1]);
}
