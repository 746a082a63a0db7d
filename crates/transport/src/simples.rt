//! The simples of a twisted quantum double, in their order.

ghost use Rattle.std.specs.Prelude.{◌≡◌, ◌≤◌, ◌<◌, length, IfOk, IfErr};
ghost use Rattle.std.specs.Result.{result_ok};
ghost use Rattle.group_table.specs.Group.{product};
ghost use Rattle.classes.specs.Conjugacy.{representatives, representative_at, centraliser_of};
ghost use Rattle.cyclotomic.specs.CyclotomicRing.{cyclotomic_value};
ghost use Rattle.twisted.specs.Twist.{size};
ghost use Rattle.table_check.specs.Formed.{Forms};
ghost use Rattle.transport.specs.Simples.{SimplesOver, count, class_at, over_at, degree_at, dimension_at, twist_at, value_at, HasTables, AreSimples, IsVacuumAt};
ghost use Rattle.transport.specs.FullCharacters.{element_value, full_character};
ghost use Rattle.slant.specs.Phases.{carried, transport_phase};
ghost use Rattle.transport.specs.Headline.{IsByEachTransporter, CharactersOrthogonal};
ghost use Rattle.qd_ring.specs.declared.site.Part.TheVariants.{Full};

use crate::entry::Entry;
use crate::listing::listed;
use crate::tables::Tables;
use classes::Classes;
use cochain::Cocycle;
use group_table::Memory;
use qd_ring::{Cyc, Part, Root, Site};
use slant::theta;
use std::alloc::Global;
use std::marker::Model;

/// The simples of the twisted quantum double of a cocycle: the rows of good tables of the classes of its group.
///
/// The vacuum is the first. The others are in order of their classes, then of their degrees, then of the coefficients of their values as
/// whole numbers, place after place and power after power.
#[derive(Debug, Drop)]
pub struct Simples<const K: u32> {
    cocycle: Cocycle,
    classes: Classes,
    tables: Tables<K>,
    entries: Vec<Entry<K>>,
}

impl<const K: u32> Model for Simples<K> {
    ghost use Rattle.transport.specs.Simples.{SimplesOver};

    ghost Value = { SimplesOver };

    ghost view = { λ s. record { cocycle = s.cocycle; tables = s.tables } };

    ghost use Rattle.transport.specs.Kept.{IsListed};

    ghost invariant = { λ s. IsListed K s.cocycle s.classes s.tables s.entries.items };
}

/// `c^-1 x c`.
fn carried(w: &Cocycle, x: u32, c: u32) -> u32
    requires x_below { x < w.now.group.order }
    requires c_below { c < w.now.group.order }
    ensures carried { result ≡ carried w.now.group x c }
    ensures below { result < w.now.group.order }
{
    let group = w.group();
    group.product(group.inverse(c), group.product(x, c))
}

/// The phase by which the value at `x` in the algebra of `g` is carried along `c`.
#[tactic(auto, unfolding(slant::specs::Phases::transport_phase))]
fn transport_phase(w: &Cocycle, g: u32, x: u32, c: u32) -> u32
    requires g_below { g < w.now.group.order }
    requires x_below { x < w.now.group.order }
    requires c_below { c < w.now.group.order }
    ensures phase { result ≡ transport_phase w.now g x c }
    ensures below { result < w.now.roots }
{
    let roots = w.roots();
    (theta(w, g, x, c) + (roots - theta(w, g, c, carried(w, x, c)))) % roots
}

impl<const K: u32> Simples<K> {
    /// The simples of `w`, by its classes and one good table for each, over the twisted centraliser of its representative.
    pub fn of(
        alloc: Global,
        w: Cocycle,
        classes: Classes,
        tables: Tables<K>,
    ) -> Result<Simples<K>, Memory>
        requires classes { classes ≡ w.group }
        requires tables { HasTables w tables }
        ensures simples { IfOk result (λ simples. simples
            ≡ record { cocycle = w; tables = tables.entry }) }
        ensures good { IfOk result (λ simples. AreSimples K simples) }
    {
        let entries = listed(alloc, &tables)?;
        Ok(Simples {
            cocycle: w,
            classes,
            tables,
            entries,
        })
    }

    /// How many simples there are.
    pub fn count(&self) -> u32
        ensures count { result ≡ count K self.now }
        ensures few { result ≤ 3600 }
        ensures simples { AreSimples K self.now }
    {
        self.entries.len() as u32
    }

    /// The number of the class of simple `i`.
    pub fn class(&self, i: u32) -> u32
        requires i_below { i < count K self.now }
        ensures class { result ≡ class_at K self.now i }
        ensures below { result < length (representatives self.now.cocycle.group) }
        ensures places { size (over_at K self.now i) ≡ length (centraliser_of self.now.cocycle.group
            (representative_at self.now.cocycle.group result)) }
    {
        self.entries[i as usize].class
    }

    /// The degree of simple `i`.
    pub fn degree(&self, i: u32) -> u32
        requires i_below { i < count K self.now }
        ensures degree { result ≡ degree_at K self.now i }
    {
        self.entries[i as usize].degree
    }

    /// The dimension of simple `i`: the size of its class times its degree.
    pub fn dimension(&self, i: u32) -> u32
        requires i_below { i < count K self.now }
        ensures dimension { result ≡ dimension_at K self.now i }
    {
        self.classes.size(self.class(i)) * self.degree(i)
    }

    /// The twist of simple `i`: the least exponent `t` of a root, modulo K, by which its value at its representative is a multiple of its
    /// degree.
    pub fn twist(&self, i: u32) -> u32
        requires i_below { i < count K self.now }
        ensures twist { result ≡ twist_at K self.now i }
        ensures below { result < K }
    {
        let entry = &self.entries[i as usize];
        self.tables.at(entry.class).twist(entry.row)
    }

    /// The value of simple `i` at the place `p` of the centraliser of its representative.
    pub fn value(&self, i: u32, p: u32) -> Cyc<K>
        requires i_below { i < count K self.now }
        requires p_below { p < size (over_at K self.now i) }
        ensures value { cyclotomic_value K result.coefficients ≡ value_at K self.now i p }
    {
        self.entries[i as usize].values[p as usize]
    }

    /// The number of the vacuum, which is 0: its class is that of the identity, and its values are 1.
    pub fn vacuum(&self) -> u32
        ensures first { result ≡ 0 }
        ensures below { result < count K self.now }
        ensures vacuum { IsVacuumAt K self.now result }
    {
        let _ = &self.entries;
        0
    }

    /// The cocycle.
    pub fn cocycle(&self) -> &Cocycle
        ensures cocycle { result.now ≡ self.now.cocycle }
        ensures simples { AreSimples K self.now }
    {
        &self.cocycle
    }

    /// The classes of its group.
    pub fn classes(&self) -> &Classes
        ensures classes { result.now ≡ self.now.cocycle.group }
        ensures simples { AreSimples K self.now }
    {
        &self.classes
    }

    /// The value of simple `i` at the element `x` of the centraliser of its representative.
    fn element_value(&self, i: u32, x: u32) -> Cyc<K>
        requires i_below { i < count K self.now }
        ensures value { cyclotomic_value K result.coefficients ≡ element_value K self.now i x }
    {
        let entry = &self.entries[i as usize];
        let table = self.tables.at(entry.class);
        table.value(entry.row, table.over().place(x).unwrap_or(0))
    }

    /// The full character of simple `i` at `g` and `x`, which commute. The site is given exactly where it overflows.
    pub fn ch(&self, i: u32, g: u32, x: u32) -> Result<Cyc<K>, Site>
        requires i_below { i < count K self.now }
        requires g_below { g < self.now.cocycle.group.order }
        requires x_below { x < self.now.cocycle.group.order }
        requires commute { product self.now.cocycle.group g x ≡ product self.now.cocycle.group x g }
        ensures forms { Forms (full_character K self.now i g x) (result_ok result) }
        ensures site { IfErr result (λ site. site
            ≡ record { part = Full; at = g; i = i; j = 0; x = x }) }

        // By every element that carries the representative, and orthogonal to the others.
        ensures transporter { IfOk result (λ value.
            IsByEachTransporter K self.now i g x (cyclotomic_value K value.coefficients)) }
        ensures orthogonal { CharactersOrthogonal K self.now }
    {
        if self.classes.class_of(g) != self.class(i) {
            return Ok(Cyc::zero());
        }
        let c = self.classes.transporter(g);
        let w = &self.cocycle;
        let phase = transport_phase(w, g, x, c);
        let value = self.element_value(i, carried(w, x, c));
        let root = Root::new(phase * (K / w.roots()));
        match value.try_times(root) {
            Some(value) => Ok(value),
            None => Err(Site {
                part: Part::Full,
                at: g,
                i,
                j: 0,
                x,
            }),
        }
    }
}
