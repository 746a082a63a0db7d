//! The structure of a commutative algebra modulo a listed prime.

ghost use Rattle.std.specs.Prelude.{◌≡◌, ◌*◌, ◌≤◌, true, length};
ghost use Rattle.prime_field.specs.Moduli.{is_modulus};
ghost use Rattle.prime_field.specs.ResidueLists.{AreBelow};

/// An algebra modulo `q` with `rank` elements in its basis. `constants` has for the elements `t` and `j` of the basis the `rank`
/// numbers with which the basis adds up to their product, one row for each `t` and `j`.
#[derive(Drop)]
pub(crate) struct Structure {
    pub(crate) q: u32,
    pub(crate) rank: u32,
    pub(crate) constants: Vec<u32>,
    ghost listed: { is_modulus q ≡ true },
    ghost few: { rank ≤ 61 },
    ghost count: { length constants.items ≡ rank * rank * rank },
    ghost below: { AreBelow q constants.items },
}
