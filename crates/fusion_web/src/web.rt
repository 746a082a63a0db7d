//! Webs of fusion numbers.

ghost use Rattle.std.specs.Prelude.{◌≡◌, ◌+◌, ◌*◌, ◌<◌, ◌≤◌, ◌↔◌, [], ◌∷◌, ◌++◌, length, IfOk, OnOk, OnErr, Err};
ghost use Rattle.fusion_web.specs.Entries.{IsWeb, WebEntries, count_of, entry_at, most_nodes};
ghost use Rattle.fusion_web.specs.Links.{entry_of, Follows, IsHead};
ghost use Rattle.fusion_web.specs.declared.side.Side.TheVariants as sides;

use crate::Memory;
use crate::links::{head, link_in_both};
use crate::node::Node;
use crate::refusal::WebRefusal;
use crate::side::Side;
use std::alloc::Global;
use std::marker::Model;

/// The most nodes of a web.
const MOST_NODES: usize = 262_144;

/// The fusion numbers of some simples that are not 0: how often each simple comes in the product of two. Seen as the number of simples
/// and the entries in the order of their insertion, which determine how they are linked.
#[derive(Debug, Drop)]
pub struct Web {
    simples: u32,
    nodes: Vec<Node>,
    row_lasts: Vec<Option<u32>>,
    into_lasts: Vec<Option<u32>>,
}

impl Model for Web {
    ghost use Rattle.fusion_web.specs.Entries.{WebEntries};
    ghost use Rattle.fusion_web.specs.Links.{IsLinkedWeb, web_of};

    ghost Value = { WebEntries };

    ghost view = { λ web. web_of web.simples web.nodes.items };

    ghost invariant = { λ web.
        IsLinkedWeb web.simples web.nodes.items web.row_lasts.items web.into_lasts.items };
}

impl Web {
    /// The web of so many simples with no entry.
    pub fn new(alloc: Global, simples: u32) -> Result<Web, Memory>
        requires some { 1 ≤ simples }
        requires few { simples ≤ 256 }
        ensures empty { IfOk result (λ web. web ≡ record { simples = simples; entries = [] }) }
    {
        let row_lasts = vec![in alloc; None; (simples * simples) as usize]?;
        let into_lasts = vec![in alloc; None; simples as usize]?;
        Ok(Web {
            simples,
            nodes: Vec::new(alloc),
            row_lasts,
            into_lasts,
        })
    }

    /// Adds that `k` comes `count` times in the product of `i` and `j`, which the web doesn't have yet. `Full` exactly where the web
    /// has 262,144 entries. After a refusal it is as before.
    pub fn insert(&mut self, i: u32, j: u32, k: u32, count: u32) -> Result<(), WebRefusal>
        requires i_below { i < self.old.simples }
        requires j_below { j < self.old.simples }
        requires k_below { k < self.old.simples }
        requires some { 1 ≤ count }
        requires absent { count_of self.old i j k ≡ 0 }
        ensures added { OnOk result (self.new ≡ record self.old {
          entries = self.old.entries
              ++ record { i = i; j = j; k = k; count = count } ∷ [];
        }) }
        ensures full { (result ≡ Err WebRefusal.Full) ↔ (length self.old.entries ≡ most_nodes) }
        ensures unchanged { OnErr result (self.new ≡ self.old) }
    {
        if self.nodes.len() == MOST_NODES {
            return Err(WebRefusal::Full);
        }
        let place = self.nodes.len() as u32;
        self.nodes.push(Node {
            i,
            j,
            k,
            count,
            next_row: place,
            next_into: place,
        })?;
        link_in_both(
            &mut self.nodes,
            &mut self.row_lasts,
            &mut self.into_lasts,
            self.simples,
            place,
        );
        Ok(())
    }

    /// How many simples there are.
    pub fn simples(&self) -> u32
        ensures simples { result ≡ self.now.simples }
        ensures web { IsWeb self.now }
    {
        let _nodes = &self.nodes;
        self.simples
    }

    /// How many entries there are.
    pub fn nodes(&self) -> u32
        ensures count { result ≡ length self.now.entries }
        ensures web { IsWeb self.now }
    {
        self.nodes.len() as u32
    }

    /// The entry that was inserted when there were `p` others, with its links.
    pub fn node(&self, p: u32) -> Node
        requires inside { p < length self.now.entries }
        ensures entry { entry_of result ≡ entry_at self.now.entries p }
        ensures row { Follows sides.Row self.now p result.next_row }
        ensures into { Follows sides.Into self.now p result.next_into }
    {
        self.nodes[p as usize]
    }

    /// The place of the entry of this pair with the least result; `None` exactly where the pair has no entry.
    pub fn row_head(&self, i: u32, j: u32) -> Option<u32>
        requires i_below { i < self.now.simples }
        requires j_below { j < self.now.simples }
        ensures head { IsHead sides.Row self.now (i * self.now.simples + j) result }
    {
        head(
            &self.nodes,
            &self.row_lasts,
            Side::Row,
            i * self.simples + j,
            self.simples,
        )
    }

    /// The place of the first entry of this result by i, then j; `None` exactly where the result has no entry.
    pub fn into_head(&self, k: u32) -> Option<u32>
        requires k_below { k < self.now.simples }
        ensures head { IsHead sides.Into self.now k result }
    {
        head(&self.nodes, &self.into_lasts, Side::Into, k, self.simples)
    }
}
