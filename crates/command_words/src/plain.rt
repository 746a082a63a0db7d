//! Words that are taken as they stand.

ghost use Rattle.std.specs.Prelude.{◌≡◌, map, string_bytes};
ghost use Rattle.std.specs.List.{list_all};
ghost use Rattle.command_words.specs.PlainWords.{is_plain, are_plain};

/// Whether a word is not empty, and does not begin with a hyphen.
fn is_plain(word: &str) -> bool
    ensures plain { result ≡ is_plain word.now }
{
    match word.as_bytes() {
        [] => false,
        [first, ..] => *first != b'-',
    }
}

fn each_is_plain(words: &[String]) -> bool
    ensures each { result ≡ list_all (λ word. is_plain (string_bytes word)) words.now }
{
    words.iter().all(|word| is_plain(word.as_str()))
}

/// Whether there is a word, and each is not empty and does not begin with a hyphen.
pub fn are_plain(words: &[String]) -> bool
    ensures plain { result ≡ are_plain (map string_bytes words.now) }
{
    !words.is_empty() && each_is_plain(words)
}
