//! Copies of the front of a slice.

ghost use Rattle.std.specs.Prelude.{◌≡◌, min, length, take};

/// Copies at most `most` bytes from the front of `from` to the front of `to`, and answers how many.
pub fn copy_front(from: &[u8], to: &mut [u8], most: usize) -> usize
    ensures count { result ≡ min most (min (length to.old) (length from.now)) }
    ensures copied { take result to.new ≡ take result from.now }
{
    let count = most.min(to.len().min(from.len()));
    to[..count].copy_from_slice(&from[..count]);
    count
}
