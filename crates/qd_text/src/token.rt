//! Tokens of a text, between blanks and comments.

ghost use Rattle.std.specs.Prelude.{◌≡◌, ◌≤◌, ◌+◌, ◌<◌, ◌^◌, ◌||◌, [], ◌∷◌, Bool, false, vec_len, length, take, drop, IfSome, IfNone, slice_index, IsTrue};
ghost use Rattle.std.specs.List.{prefix_len};
ghost use Rattle.qd_text.specs.Tokens.{is_separator, is_token_byte, in_comment, tokens_from, lexeme_of, IsWithin};

/// A token of a text: the offset of its first byte, and how many bytes it has.
#[derive(Clone, Copy, Debug, PartialEq, Eq, Hash)]
pub struct Token {
    pub start: u32,
    pub len: u32,
}

/// The first token of the bytes from the offset `from` on, read as if the text began there. `None`
/// where only blanks and comments follow.
pub fn next_token(bytes: &Vec<u8>, from: u32) -> Option<Token>
    requires few { vec_len bytes.now < 2 ^ 32 }
    requires within { from ≤ vec_len bytes.now }
    ensures none { IfNone result (tokens_from from bytes.now.items ≡ []) }
    // The tokens are this one, and then those from its end on.
    ensures token { IfSome result (λ token.
        tokens_from from bytes.now.items
        ≡ lexeme_of bytes.now.items token ∷ tokens_from (token.start + token.len) bytes.now.items) }
    ensures inside { IfSome result (IsWithin bytes.now.items) }
    ensures later { IfSome result (λ token. from ≤ token.start) }
{
    let start = token_start(bytes, from as usize);
    if start == bytes.len() {
        return None;
    }
    let len = token_len(&bytes[start..]);
    Some(Token {
        start: start as u32,
        len: len as u32,
    })
}

fn is_separator(byte: u8) -> bool
    ensures separator { result ≡ is_separator byte }
{
    matches!(byte, b' ' | b'\t' | b'\n' | b'\r' | b'#')
}

/// Whether a comment is open after `byte`, where `inside` says whether one is before it.
fn in_comment(inside: bool, byte: u8) -> bool
    ensures comment { result ≡ in_comment inside byte }
{
    if inside { byte != b'\n' } else { byte == b'#' }
}

/// Whether a byte belongs to no token, where `inside` says whether a comment is open before it.
fn is_skipped(inside: bool, byte: u8) -> bool
    ensures skipped { result ≡ (inside || is_separator byte) }
{
    inside || is_separator(byte)
}

/// The offset of the first byte of a token, or the length.
fn token_start(bytes: &[u8], from: usize) -> usize
    requires within { from ≤ length bytes.now }
    ensures later { from ≤ result }
    ensures bound { result ≤ length bytes.now }
    ensures same { tokens_from result bytes.now ≡ tokens_from from bytes.now }
    ensures begins { result < length bytes.now → is_separator (slice_index bytes.now result)
        ≡ false }
{
    let mut inside = false;
    for at in from..bytes.len() {
        let byte = bytes[at];
        if !is_skipped(inside, byte) {
            return at;
        }
        inside = in_comment(inside, byte);
    }
    bytes.len()
}

/// How many bytes stand before the first separator.
fn token_len(bytes: &[u8]) -> usize
    ensures len { result ≡ prefix_len is_token_byte bytes.now }
{
    bytes
        .iter()
        .take_while(|byte| !is_separator(**byte))
        .count()
}
