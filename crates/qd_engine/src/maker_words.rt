//! Words of a command line that name a group with a cocycle.

ghost use Rattle.std.specs.Prelude.{◌≡◌};
ghost use Rattle.qd_engine.specs.Words.{texts};
ghost use Rattle.qd_engine.specs.MakerWords.{maker_of_one, maker_of_two, maker_of_three, maker_of_four, maker_of_family, maker_of};

use crate::number_words::number_word;
use named_cocycles::Maker;

/// The maker of a family that has one number.
fn maker_of_one(family: &str, n: u32) -> Option<Maker>
    ensures maker { result ≡ maker_of_one family.now n }
{
    match family {
        "dicyclic" => Some(Maker::Dicyclic { n }),
        _ => None,
    }
}

/// The maker of a family that has two numbers.
fn maker_of_two(family: &str, n: u32, p: u32) -> Option<Maker>
    ensures maker { result ≡ maker_of_two family.now n p }
{
    match family {
        "cyclic" => Some(Maker::Cyclic { n, p }),
        "dihedral" if p <= 1 => Some(Maker::Dihedral { n, twisted: p == 1 }),
        _ => None,
    }
}

/// The maker of a family that has three numbers.
fn maker_of_three(family: &str, a: u32, b: u32, c: u32) -> Option<Maker>
    ensures maker { result ≡ maker_of_three family.now a b c }
{
    match family {
        "product" => Some(Maker::Product { a, b, c }),
        "type2" => Some(Maker::TypeTwo { a, b, p: c }),
        "semidirect" => Some(Maker::Semidirect { n: a, m: b, r: c }),
        _ => None,
    }
}

/// The maker of a family that has four numbers.
fn maker_of_four(family: &str, a: u32, b: u32, c: u32, p: u32) -> Option<Maker>
    ensures maker { result ≡ maker_of_four family.now a b c p }
{
    match family {
        "type3" => Some(Maker::TypeThree { a, b, c, p }),
        _ => None,
    }
}

/// The maker of a family and the words of its numbers.
fn maker_of_family(family: &str, numbers: &[String]) -> Option<Maker>
    ensures maker { result ≡ maker_of_family family.now (texts numbers.now) }
{
    match numbers {
        [] => None,
        [n] => maker_of_one(family, number_word(n.as_str())?),
        [n, p] => maker_of_two(family, number_word(n.as_str())?, number_word(p.as_str())?),
        [a, b, c] => maker_of_three(
            family,
            number_word(a.as_str())?,
            number_word(b.as_str())?,
            number_word(c.as_str())?,
        ),
        [a, b, c, p] => maker_of_four(
            family,
            number_word(a.as_str())?,
            number_word(b.as_str())?,
            number_word(c.as_str())?,
            number_word(p.as_str())?,
        ),
        _ => None,
    }
}

/// The maker that these words name: a family, and its numbers. `None` where they name none.
pub fn maker_of(words: &[String]) -> Option<Maker>
    ensures maker { result ≡ maker_of (texts words.now) }
{
    match words {
        [] => None,
        [family, numbers @ ..] => maker_of_family(family.as_str(), numbers),
    }
}
