//! Normalised 3-cocycles, made of exponents or by a gauge.

ghost use Rattle.std.specs.Prelude.{◌≡◌, ◌*◌, ◌<◌, length, None, IfOk, IfErr};
ghost use Rattle.cochain.specs.Cochain.{Cochain, cochain_of, value, cocycle_fault, IsRoots, IsCocycle};
ghost use Rattle.cochain.specs.Refusal.{Refuses};
ghost use Rattle.cochain.specs.Gauge.{gauge_fault, gauged, RefusesGauge};

use crate::coboundary::{gauge_fault, gauged};
use crate::fault::{CocycleRefusal, GaugeRefusal};
use crate::laws::cocycle_fault;
use crate::three_cochain::ThreeCochain;
use group_table::{Group, Memory, Nats};
use std::alloc::Global;
use std::marker::Model;

/// A normalised 3-cocycle of a finite group with values in roots of unity, which are written by their exponents.
#[derive(Debug, Drop)]
pub struct Cocycle {
    cochain: ThreeCochain,
}

impl Model for Cocycle {
    ghost use Rattle.cochain.specs.Cochain.{Cochain, IsCocycle};

    ghost Value = { Cochain };

    ghost view = { λ w. w.cochain };

    ghost invariant = { λ w. IsCocycle w.cochain };
}

impl Cocycle {
    /// The cocycle of `group` with these exponents, taken modulo `roots`. The exponent at `(g, h, k)` stands at place
    /// `(g n + h) n + k`, n the order of the group. They are refused with the first law that fails, at its least place.
    pub fn from_exponents(
        alloc: Global,
        group: Group,
        roots: u32,
        exponents: &Nats,
    ) -> Result<Cocycle, CocycleRefusal>
        requires roots { IsRoots roots }
        requires cube { length exponents.now ≡ group.order * group.order * group.order }
        ensures made { IfOk result
            (λ w.
            (cocycle_fault (cochain_of group roots exponents.now) ≡ None)
            × (w ≡ cochain_of group roots exponents.now)) }
        ensures refused { IfErr result
            (λ refusal. Refuses refusal (cocycle_fault (cochain_of group roots exponents.now))) }
    {
        let _order = group.order();
        let cochain = ThreeCochain::new(alloc, group, roots, exponents)?;
        match cocycle_fault(alloc, &cochain)? {
            Some(fault) => Err(CocycleRefusal::Fault(fault)),
            None => Ok(Cocycle { cochain }),
        }
    }

    /// The cocycle of `group` with these exponents, taken modulo `roots`, which are known to break no law: nothing is tested again.
    pub fn from_lawful(
        alloc: Global,
        group: Group,
        roots: u32,
        exponents: &Nats,
    ) -> Result<Cocycle, Memory>
        requires roots { IsRoots roots }
        requires cube { length exponents.now ≡ group.order * group.order * group.order }
        requires lawful { cocycle_fault (cochain_of group roots exponents.now) ≡ None }
        ensures made { IfOk result (λ w. w ≡ cochain_of group roots exponents.now) }
    {
        let _order = group.order();
        let cochain = ThreeCochain::new(alloc, group, roots, exponents)?;
        Ok(Cocycle { cochain })
    }

    /// This cocycle times the coboundary of the 2-cochain `b`, whose number of the pair `(g, h)` stands at place
    /// `g n + h`, n the order of the group, and is taken modulo the number of roots:
    /// `w(g,h,k) b(h,k) b(g,hk) / (b(gh,k) b(g,h))`. It is refused with the least pair with the identity at which
    /// `b` is not 1.
    pub fn gauge(&self, alloc: Global, b: &Nats) -> Result<Cocycle, GaugeRefusal>
        requires square { length b.now ≡ self.now.group.order * self.now.group.order }
        ensures made { IfOk result
            (λ w. (gauge_fault self.now b.now ≡ None) × (w ≡ gauged self.now b.now)) }
        ensures refused { IfErr result
            (λ refusal. RefusesGauge refusal (gauge_fault self.now b.now)) }
    {
        match gauge_fault(&self.cochain, b.as_slice()) {
            Some(refusal) => Err(refusal),
            None => {
                let cochain = gauged(alloc, &self.cochain, b.as_slice())?;
                Ok(Cocycle { cochain })
            }
        }
    }

    /// The group of its arguments.
    pub fn group(&self) -> &Group
        ensures group { result.now ≡ self.now.group }
        ensures cocycle { IsCocycle self.now }
    {
        self.cochain.group()
    }

    /// How many roots of unity there are, from 1 to 64.
    pub fn roots(&self) -> u32
        ensures roots { result ≡ self.now.roots }
        ensures few { IsRoots self.now.roots }
    {
        self.cochain.roots()
    }

    /// The exponent at `(g, h, k)`, below the number of roots.
    pub fn value(&self, g: u32, h: u32, k: u32) -> u32
        requires g_below { g < self.now.group.order }
        requires h_below { h < self.now.group.order }
        requires k_below { k < self.now.group.order }
        ensures value { result ≡ value self.now g h k }
        ensures below { value self.now g h k < self.now.roots }
    {
        self.cochain.value(g, h, k)
    }
}
