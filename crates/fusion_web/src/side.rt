//! The two rings in which a node stands.

ghost use Rattle.std.specs.Prelude.{◌≡◌, ◌≤◌};
ghost use Rattle.fusion_web.specs.Entries.{IsEntry};
ghost use Rattle.fusion_web.specs.Links.{entry_of, ring_of, key_of, next_of, with_next};

use crate::node::Node;

/// One of the two rings in which a node stands.
#[derive(Clone, Copy, Debug)]
pub enum Side {
    /// The ring of its pair, by ascending result.
    Row,
    /// The ring of its result, by ascending pair.
    Into,
}

impl Side {
    /// The number of the node's ring.
    pub fn ring(self, simples: u32, node: &Node) -> u32
        requires few { simples ≤ 256 }
        requires entry { IsEntry simples (entry_of node.now) }
        ensures ring { result ≡ ring_of self simples (entry_of node.now) }
    {
        match self {
            Side::Row => node.i * simples + node.j,
            Side::Into => node.k,
        }
    }

    /// That by which the node stands in its ring.
    pub fn key(self, simples: u32, node: &Node) -> u32
        requires few { simples ≤ 256 }
        requires entry { IsEntry simples (entry_of node.now) }
        ensures key { result ≡ key_of self simples (entry_of node.now) }
    {
        match self {
            Side::Row => node.k,
            Side::Into => node.i * simples + node.j,
        }
    }

    /// The place to which the node leads in its ring.
    pub fn next(self, node: &Node) -> u32
        ensures next { result ≡ next_of self node.now }
    {
        match self {
            Side::Row => node.next_row,
            Side::Into => node.next_into,
        }
    }

    /// The node with another link in its ring.
    pub fn with_next(self, node: &Node, next: u32) -> Node
        ensures node { result ≡ with_next self node.now next }
    {
        match self {
            Side::Row => Node {
                next_row: next,
                ..*node
            },
            Side::Into => Node {
                next_into: next,
                ..*node
            },
        }
    }
}
