//! The list of the values of a function.

ghost use Rattle.std.specs.Prelude.{◌≡◌, ℕ, ◌<◌, IfOk};
ghost use Rattle.prime_field.specs.ResidueLists.{IsTabulated};

use group_table::Memory;
use std::alloc::Global;

// The values at 0, 1, .., `n - 1`.
pub(crate) fn tabulate<F: Fn(usize) -> u32>(
    alloc: Global,
    n: usize,
    at: F,
) -> Result<Vec<u32>, Memory>
where
    F: Drop,
    requires callable { (i : ℕ) → i < n → F.pre at i }
    ensures values { (value : ℕ → ℕ) → ((i r : ℕ) → i < n → F.post at i r → r ≡ value i)
        → IfOk result (λ numbers. IsTabulated n value numbers.items) }
{
    let mut numbers = Vec::new(alloc);
    for i in 0..n {
        numbers.push(at(i))?;
    }
    Ok(numbers)
}
