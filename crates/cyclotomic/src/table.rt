//! The table of conductors, and the least conductor that is a multiple of a number.

ghost use Rattle.std.specs.Prelude.{◌≡◌, ◌≢◌, ◌%◌, ◌==◌, true, None, Some, MatchResult, IfErr, find, map};
ghost use Rattle.std.specs.Option.{option_map_or};
ghost use Rattle.cyclotomic.specs.Conductors.{is_conductor, least_conductor, phi_of};

/// The conductors K in ascending order, each with phi(K).
const CONDUCTORS: [(u32, u32); 26] = [
    (4, 2),
    (6, 2),
    (8, 4),
    (9, 6),
    (12, 4),
    (16, 8),
    (18, 6),
    (20, 8),
    (24, 8),
    (25, 20),
    (27, 18),
    (28, 12),
    (30, 8),
    (32, 16),
    (36, 12),
    (40, 16),
    (42, 12),
    (48, 16),
    (49, 42),
    (54, 18),
    (60, 16),
    (64, 32),
    (72, 24),
    (84, 24),
    (96, 32),
    (120, 32),
];

/// No entry of the table of conductors is a multiple of the number.
#[derive(Clone, Copy, PartialEq, Eq, Debug)]
pub struct NoConductor {
    /// The number.
    pub multiple: u32,
}

// The first number of the table's first column that is a multiple of m.
fn first_multiple(table: &[(u32, u32)], m: u32) -> Option<u32>
    requires { m ≢ 0 }
    ensures { result ≡ find (λ k. k % m == 0) (map (λ entry. entry.0) table.now) }
{
    table.iter().map(|entry| entry.0).find(|k| *k % m == 0)
}

// The first entry of the table whose number is k.
fn entry_of(table: &[(u32, u32)], k: u32) -> Option<(u32, u32)>
    ensures { result ≡ find (λ entry. entry.0 == k) table.now }
{
    table.iter().copied().find(|entry| entry.0 == k)
}

/// The least conductor that is a multiple of m; the error, with m, exactly where there is none.
pub fn conductor(m: u32) -> Result<u32, NoConductor>
    ensures least { MatchResult result (λ k. least_conductor m ≡ Some k) (λ error. least_conductor m
        ≡ None) }
    ensures multiple { IfErr result (λ error. error.multiple ≡ m) }
{
    if m == 0 {
        return Err(NoConductor { multiple: m });
    }
    match first_multiple(&CONDUCTORS, m) {
        Some(k) => Ok(k),
        None => Err(NoConductor { multiple: m }),
    }
}

/// phi(K), the number of coefficients of a value with conductor K.
pub fn phi(k: u32) -> u32
    requires { is_conductor k ≡ true }
    ensures { result ≡ phi_of k }
{
    match entry_of(&CONDUCTORS, k) {
        Some(entry) => entry.1,
        None => 0,
    }
}

#[cfg(test)]
mod tests {
    use super::*;

    // From the table of conductors as it is stated outside the code.
    #[test]
    fn finds_the_least_conductor(rt: HostRuntime) {
        for (multiple, wanted) in [
            (1, 4),
            (5, 20),
            (12, 12),
            (13, 0),
            (11, 0),
            (21, 42),
            (0, 0),
            (120, 120),
            (121, 0),
        ] {
            match conductor(multiple) {
                Ok(k) => assert_eq!(rt; k, wanted),
                Err(error) => {
                    assert_eq!(rt; 0, wanted);
                    assert_eq!(rt; error.multiple, multiple);
                }
            }
        }
    }

    #[test]
    #[tactic(auto, unfolding(crate::specs::Conductors::is_conductor, crate::specs::Conductors::conductors))]
    fn knows_phi(rt: HostRuntime) {
        assert_eq!(rt; phi(4), 2);
        assert_eq!(rt; phi(49), 42);
        assert_eq!(rt; phi(120), 32);
    }
}
