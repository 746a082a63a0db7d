//! Words of a command line that are numbers.

ghost use Rattle.std.specs.Prelude.{◌≡◌};
ghost use Rattle.std.specs.List.{list_all};
ghost use Rattle.qd_text.specs.Numbers.{is_digit};
ghost use Rattle.qd_engine.specs.NumberWords.{number_word};

/// The most digits of a number word. A number of 32 bits has no more, but for leading zeros.
const MOST_DIGITS: usize = 10;

fn are_digits(text: &[u8]) -> bool
    ensures digits { result ≡ list_all is_digit text.now }
{
    text.iter().all(|byte| byte.is_ascii_digit())
}

/// The number that a word spells: 1 to 10 digits of ASCII, leading zeros allowed, with a value of at most 4,294,967,295. `None` for
/// every other word.
#[tactic(auto, using(crate::proofs::NumberWords::parse_is_number, crate::proofs::NumberWords::no_number))]
pub fn number_word(word: &str) -> Option<u32>
    ensures number { result ≡ number_word word.now }
{
    if word.is_empty() || word.len() > MOST_DIGITS || !are_digits(word.as_bytes()) {
        return None;
    }
    word.parse().ok()
}
