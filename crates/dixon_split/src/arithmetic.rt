//! Sums and products modulo a listed prime.

ghost use Rattle.std.specs.Prelude.{◌≡◌, ℕ, ◌+◌, ◌-◌, ◌*◌, ◌%◌, ◌<◌, ◌==◌, nat_eq, true, IfOk};
ghost use Rattle.prime_field.specs.Moduli.{is_modulus};
ghost use Rattle.prime_field.specs.Field.{field, field_residue};
ghost use Rattle.prime_field.specs.ResidueLists.{IsTabulated};

use group_table::Memory;
use std::alloc::Global;

// `a + x y`, modulo q.
pub(crate) fn plus_product(q: u32, a: u32, x: u32, y: u32) -> u32
    requires modulus { is_modulus q ≡ true }
    requires a_below { a < q }
    requires x_below { x < q }
    requires y_below { y < q }
    ensures residue { (listed : is_modulus q ≡ true) → result
        ≡ ((field q listed).add (field_residue q listed a)
        ((field q listed).mul (field_residue q listed x) (field_residue q listed y))).value }
    ensures below { result < q }
{
    let product = x * y;
    if product == 0 {
        return a;
    }
    (a + product) % q
}

// `a - b`, modulo q.
pub(crate) fn minus(q: u32, a: u32, b: u32) -> u32
    requires modulus { is_modulus q ≡ true }
    requires a_below { a < q }
    requires b_below { b < q }
    ensures residue { (listed : is_modulus q ≡ true) → result ≡ ((field q listed).add
        (field_residue q listed a) ((field q listed).neg (field_residue q listed b))).value }
    ensures below { result < q }
{
    (a + (q - b) % q) % q
}

// Whether `product` is `v` times `factor`, modulo q.
pub(crate) fn is_product(q: u32, product: u32, v: u32, factor: u32) -> bool
    requires modulus { is_modulus q ≡ true }
    requires v_below { v < q }
    requires factor_below { factor < q }
    ensures product { result ≡ (product == (v * factor) % q) }
{
    product == v * factor % q
}

// The values at 0, 1, .., `n - 1`.
pub(crate) fn tabulate<F: Fn(u32) -> u32>(alloc: Global, n: u32, at: F) -> Result<Vec<u32>, Memory>
where
    F: Drop,
    requires callable { (i : ℕ) → i < n → F.pre at i }
    ensures values { (value : ℕ → ℕ) → ((i r : ℕ) → i < n → F.post at i r → r ≡ value i)
        → IfOk result (λ numbers. IsTabulated n value numbers.items) }
{
    let mut numbers = Vec::new(alloc);
    for i in 0..n {
        numbers.push(at(i))?;
    }
    Ok(numbers)
}
