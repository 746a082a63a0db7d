//! The first answer over the places of a clause.

ghost use Rattle.std.specs.Prelude.{ℕ, ◌<◌};
ghost use Rattle.table_check.specs.Walks.{IsFirstAnswer};

/// The answer at the least number below `n` at which there is one.
pub fn first_answer<T, F: Fn(u32) -> Option<T>>(n: u32, at: F) -> Option<T>
where
    F: Drop,
    requires callable { (i : ℕ) → i < n → F.pre at i }
    ensures first { IsFirstAnswer n (F.post at) result }
{
    for i in 0..n {
        let Some(answer) = at(i) else { continue };
        return Some(answer);
    }
    None
}

/// The answer at the first pair of numbers below `n` and `m`; the first number is the slower.
pub fn first_of_pairs<T, F: Fn(u32, u32) -> Option<T>>(n: u32, m: u32, at: F) -> Option<T>
where
    F: Drop,
    requires callable { (i j : ℕ) → i < n → j < m → F.pre at i j }
    ensures first { IsFirstAnswer n (λ i. IsFirstAnswer m (F.post at i)) result }
{
    first_answer(
        n,
        |i| -> Option<T>
            requires { (j : ℕ) → j < m → F.pre at i j }
            ensures { IsFirstAnswer m (F.post at i) result }
        {
            first_answer(
                m,
                |j| -> Option<T>
                    requires { F.pre at i j }
                    ensures { F.post at i j result }
                { at(i, j) },
            )
        },
    )
}

/// The answer at the first triple of numbers below `n`, `m` and `l`; the first number is the slowest.
pub fn first_of_triples<T, F: Fn(u32, u32, u32) -> Option<T>>(
    n: u32,
    m: u32,
    l: u32,
    at: F,
) -> Option<T>
where
    F: Drop,
    requires callable { (i j x : ℕ) → i < n → j < m → x < l → F.pre at i j x }
    ensures first { IsFirstAnswer n
        (λ i. IsFirstAnswer m (λ j. IsFirstAnswer l (F.post at i j))) result }
{
    first_answer(
        n,
        |i| -> Option<T>
            requires { (j x : ℕ) → j < m → x < l → F.pre at i j x }
            ensures { IsFirstAnswer m (λ j. IsFirstAnswer l (F.post at i j)) result }
        {
            first_of_pairs(
                m,
                l,
                |j, x| -> Option<T>
                    requires { F.pre at i j x }
                    ensures { F.post at i j x result }
                { at(i, j, x) },
            )
        },
    )
}
