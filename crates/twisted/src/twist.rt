//! Twists: subgroups with a normalised 2-cocycle.

ghost use Rattle.std.specs.Prelude.{◌≡◌, ◌≢◌, ℕ, ◌<◌, IfOk, IfSome, IfNone};
ghost use Rattle.twisted.specs.Twist.{size, element, place_of, phase, IsTwist};

use group_table::{Group, Memory, Nats};
use scan::first_below;
use std::alloc::Global;
use std::marker::Model;

/// A subgroup of a finite group with a normalised 2-cocycle, of exponents modulo a modulus.
///
/// The elements of the subgroup are numbers of the whole group, in ascending order. A place is the number of an element in that
/// list, and the group, the phases and all that is computed from them speak of places.
#[derive(Debug, Drop)]
pub struct Twist {
    at: u32,
    elements: Nats,
    group: Group,
    modulus: u32,
    phases: Nats,
}

impl Model for Twist {
    ghost use Rattle.twisted.specs.Twist.{TwistedSubgroup, IsTwist};

    ghost Value = { TwistedSubgroup };

    ghost view = { λ t. record { at = t.at; elements = t.elements; group = t.group; modulus = t.modulus; phases = t.phases } };

    ghost invariant = { λ t. IsTwist (record { at = t.at; elements = t.elements; group = t.group; modulus = t.modulus; phases = t.phases }) };
}

impl Twist {
    /// The twist at the element `at` over these ascending elements, with their group by places and the exponents of the 2-cocycle,
    /// one below the modulus for each pair of places, row after row.
    pub fn new(at: u32, elements: Nats, group: Group, modulus: u32, phases: Nats) -> Twist
        requires { IsTwist (record { at = at; elements = elements; group = group; modulus = modulus; phases = phases }) }
        ensures { result ≡ record { at = at; elements = elements; group = group; modulus = modulus; phases = phases } }
    {
        Twist {
            at,
            elements,
            group,
            modulus,
            phases,
        }
    }

    /// The element of the whole group that it belongs to. It is one of the elements.
    pub fn at(&self) -> u32
        ensures at { result ≡ self.now.at }
        ensures twist { IsTwist self.now }
    {
        self.at
    }

    /// How many places there are, from 1 to 60.
    pub fn size(&self) -> u32
        ensures size { result ≡ size self.now }
        ensures twist { IsTwist self.now }
    {
        self.group.order()
    }

    /// The element at the place `p`.
    pub fn element(&self, p: u32) -> u32
        requires p_below { p < size self.now }
        ensures element { result ≡ element self.now p }
    {
        self.elements.at(p)
    }

    /// The place of the element `x`; `None` exactly where it isn't an element.
    #[tactic(auto, using(crate::proofs::Places::place_there, crate::proofs::Places::place_absent))]
    pub fn place(&self, x: u32) -> Option<u32>
        ensures place { result ≡ place_of self.now x }
        ensures there { IfSome result (λ p. (p < size self.now) × (element self.now p ≡ x)) }
        ensures absent { IfNone result ((p : ℕ) → p < size self.now → element self.now p ≢ x) }
    {
        self.least_place(x)
    }

    fn least_place(&self, x: u32) -> Option<u32>
        ensures { result ≡ place_of self.now x }
    {
        first_below(self.size(), |p| {
            if self.element(p) == x { Some(p) } else { None }
        })
    }

    /// The group of the places.
    pub fn group(&self) -> &Group
        ensures group { result.now ≡ self.now.group }
        ensures twist { IsTwist self.now }
    {
        &self.group
    }

    /// The exponent of the 2-cocycle at the places `p` and `r`, below the modulus.
    pub fn phase(&self, p: u32, r: u32) -> u32
        requires p_below { p < size self.now }
        requires r_below { r < size self.now }
        ensures phase { result ≡ phase self.now p r }
        ensures below { result < self.now.modulus }
    {
        self.phases.at(p * self.group.order() + r)
    }

    /// How many roots of unity there are: the exponents count modulo it. It is from 1 to 64.
    pub fn modulus(&self) -> u32
        ensures modulus { result ≡ self.now.modulus }
        ensures twist { IsTwist self.now }
    {
        self.modulus
    }

    /// The same twist, in memory of its own.
    pub fn copy(&self, alloc: Global) -> Result<Twist, Memory>
        ensures same { IfOk result (λ twist. twist ≡ self.now) }
    {
        Ok(Twist {
            at: self.at,
            elements: self.elements.copy(alloc)?,
            group: self.group.copy(alloc)?,
            modulus: self.modulus,
            phases: self.phases.copy(alloc)?,
        })
    }
}
