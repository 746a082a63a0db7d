//! The twist of a simple.

ghost use Rattle.std.specs.Prelude.{◌≡◌, ◌<◌};
ghost use Rattle.transport.specs.Simples.{count, twist_at};

use transport::Simples;

/// The entry of T at simple `i`, as the exponent of a root of unity: the least `t` below K by which the value of the simple at the
/// representative of its class is the root of `t` times its degree.
pub fn twist_exponent<const K: u32>(simples: &Simples<K>, i: u32) -> u32
    requires i_below { i < count K simples.now }
    ensures twist { result ≡ twist_at K simples.now i }
    ensures below { result < K }
{
    simples.twist(i)
}
