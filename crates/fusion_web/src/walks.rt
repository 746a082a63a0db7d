//! Walks along the rings of a web.

ghost use Rattle.std.specs.Prelude.{◌≡◌, ◌<◌, length};
ghost use Rattle.std.specs.Iterator.{YieldsFirst, item_count};
ghost use Rattle.fusion_web.specs.Entries.{entry_at, count_of, row_of, into_of};
ghost use Rattle.fusion_web.specs.Links.{entry_of};
ghost use Rattle.fusion_web.specs.Walks.{LeadsTo};

use crate::node::Node;
use crate::side::Side;
use crate::web::Web;
use std::iter::FusedIterator;
use std::marker::Model;

/// The node at a place, and the place after it in one of its rings, where it isn't the last there.
fn step(web: &Web, side: Side, place: u32) -> (Node, Option<u32>)
    requires inside { place < length web.now.entries }
    ensures entry { entry_of result.0 ≡ entry_at web.now.entries place }
    ensures next { LeadsTo web.now side place result.1 }
{
    let node = web.node(place);
    let simples = web.simples();
    let next = side.next(&node);
    let after = web.node(next);
    if side.key(simples, &node) < side.key(simples, &after) {
        (node, Some(next))
    } else {
        (node, None)
    }
}

/// The results of a pair, ascending, each with its count; seen as the list of those that are left.
#[derive(Drop)]
pub struct RowWalk<'a> {
    web: &'a Web,
    next: Option<u32>,
}

impl<'a> Model for RowWalk<'a> {
    ghost use Rattle.std.specs.Prelude.{ℕ, List};
    ghost use Rattle.fusion_web.specs.Walks.{row_rest, IsWalk};

    ghost Value = { List (ℕ × ℕ) };

    ghost view = { λ walk. row_rest walk.web.now walk.next };

    ghost invariant = { λ walk. IsWalk walk.web.now walk.next };
}

impl<'a> Iterator for RowWalk<'a> {
    type Item = (u32, u32);

    ghost next_gives = { YieldsFirst (λ rest. rest) };

    ghost remaining = { item_count (λ rest. rest) };

    fn next(&mut self) -> Option<(u32, u32)> {
        let Some(place) = self.next else {
            return None;
        };
        let (node, next) = step(self.web, Side::Row, place);
        self.next = next;
        Some((node.k, node.count))
    }
}

impl<'a> FusedIterator for RowWalk<'a> {}

/// The pairs of a result by their first member, then their second, each with its count; seen as the list of those that are left.
#[derive(Drop)]
pub struct IntoWalk<'a> {
    web: &'a Web,
    next: Option<u32>,
}

impl<'a> Model for IntoWalk<'a> {
    ghost use Rattle.std.specs.Prelude.{ℕ, List};
    ghost use Rattle.fusion_web.specs.Walks.{into_rest, IsWalk};

    ghost Value = { List (ℕ × ℕ × ℕ) };

    ghost view = { λ walk. into_rest walk.web.now walk.next };

    ghost invariant = { λ walk. IsWalk walk.web.now walk.next };
}

impl<'a> Iterator for IntoWalk<'a> {
    type Item = (u32, u32, u32);

    ghost next_gives = { YieldsFirst (λ rest. rest) };

    ghost remaining = { item_count (λ rest. rest) };

    fn next(&mut self) -> Option<(u32, u32, u32)> {
        let Some(place) = self.next else {
            return None;
        };
        let (node, next) = step(self.web, Side::Into, place);
        self.next = next;
        Some((node.i, node.j, node.count))
    }
}

impl<'a> FusedIterator for IntoWalk<'a> {}

impl Web {
    /// The results of this pair, ascending, each with how often it comes in the product of `i` and `j`.
    pub fn row(&self, i: u32, j: u32) -> RowWalk<'_>
        requires i_below { i < self.now.simples }
        requires j_below { j < self.now.simples }
        ensures items { result ≡ row_of self.now i j }
    {
        let _simples = self.simples();
        RowWalk {
            web: self,
            next: self.row_head(i, j),
        }
    }

    /// The pairs in whose product `k` comes, by their first member, then their second, each with how often it does. As std's `Into` has
    /// a method of this name, an owned web is asked as `Web::into(&web, k)`.
    pub fn into(&self, k: u32) -> IntoWalk<'_>
        requires k_below { k < self.now.simples }
        ensures items { result ≡ into_of self.now k }
    {
        let _simples = self.simples();
        IntoWalk {
            web: self,
            next: self.into_head(k),
        }
    }

    /// How often `k` comes in the product of `i` and `j`: the count of the entry, 0 where there is none.
    pub fn count(&self, i: u32, j: u32, k: u32) -> u32
        requires i_below { i < self.now.simples }
        requires j_below { j < self.now.simples }
        requires k_below { k < self.now.simples }
        ensures count { result ≡ count_of self.now i j k }
    {
        for (result, count) in self.row(i, j) {
            if result == k {
                return count;
            }
        }
        0
    }
}
