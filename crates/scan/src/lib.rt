//! The first place at which something is found.
#![tactic(auto)]

ghost use Rattle.std.specs.Prelude.{◌≡◌, ℕ, ◌<◌, Bool, Option};
ghost use Rattle.scan.specs.First.{first, all_below};

/// What `at` finds at the least number below `n` at which it finds something.
pub fn first_below<T, F: Fn(u32) -> Option<T>>(n: u32, at: F) -> Option<T>
where
    F: Drop,
    requires callable { (i : ℕ) → i < n → F.pre at i }
    ensures least { (found : ℕ → Option T)
        → ((i : ℕ) (r : Option T) → i < n → F.post at i r → r ≡ found i) → result ≡ first n found }
{
    for i in 0..n {
        let Some(fault) = at(i) else { continue };
        return Some(fault);
    }
    None
}

/// Whether `test` holds at every number below `n`.
pub fn holds_below<F: Fn(u32) -> bool>(n: u32, test: F) -> bool
where
    F: Drop,
    requires callable { (i : ℕ) → i < n → F.pre test i }
    ensures all { (holds : ℕ → Bool) → ((i : ℕ) (r : Bool) → i < n → F.post test i r → r ≡ holds i)
        → result ≡ all_below n holds }
{
    for i in 0..n {
        if !test(i) {
            return false;
        }
    }
    true
}
