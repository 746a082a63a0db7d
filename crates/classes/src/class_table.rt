//! The conjugacy classes of a group, as a table.

ghost use Rattle.std.specs.Prelude.{◌≡◌, ℕ, ◌*◌, ◌<◌, ◌≤◌, length, slice_index, IfOk};
ghost use Rattle.group_table.specs.Group.{IsGroup, IsSmall};
ghost use Rattle.classes.specs.Conjugacy.{conjugate, representative_of, transporter_of, representatives, representative_at, class_of, members_of, centraliser_of};
ghost use Rattle.classes.specs.Kept.{class_at};
ghost use Rattle.classes.specs.Sweep.{reach_of};

use crate::parts::{class_list, class_numbers};
use crate::sweep::{Reach, sweep};
use group_table::{Group, Memory, Nats};
use std::alloc::Global;
use std::marker::Model;

/// One class: its least member, its members and the centraliser of the least member, both ascending.
#[derive(Debug, Drop)]
pub struct Class {
    pub representative: u32,
    pub members: Nats,
    pub centraliser: Nats,
}

/// The conjugacy classes of a group: the class of the identity first, then by least member. A class is represented by its least
/// member.
#[derive(Debug, Drop)]
pub struct Classes {
    group: Group,
    classes: Vec<Class>,
    numbers: Nats,
    reaches: Vec<Reach>,
}

impl Model for Classes {
    ghost use Rattle.group_table.specs.Group.{Table};

    ghost Value = { Table };

    ghost use Rattle.classes.specs.Kept.{IsClassTable};

    ghost view = { λ classes. classes.group };

    ghost invariant = { λ classes.
        IsClassTable classes.group classes.classes.items classes.numbers classes.reaches.items };
}

impl Classes {
    /// The classes of `group`, found in one sweep over the pairs of elements.
    pub fn of(alloc: Global, group: &Group) -> Result<Classes, Memory>
        ensures of_group { IfOk result (λ classes. classes ≡ group.now) }
    {
        let reaches = sweep(alloc, group)?;
        let classes = class_list(alloc, group, &reaches)?;
        let numbers = class_numbers(alloc, group, &classes, &reaches)?;
        let group = group.copy(alloc)?;
        Ok(Classes {
            group,
            classes,
            numbers,
            reaches,
        })
    }

    /// How many classes there are.
    #[tactic(auto, using(crate::proofs::Lookups::few_kept))]
    pub fn count(&self) -> u32
        ensures count { result ≡ length (representatives self.now) }
        ensures positive { 1 ≤ result }
        ensures at_most_order { result ≤ self.now.order }
        ensures group { IsGroup self.now }
        ensures small { IsSmall self.now.order }
    {
        self.classes.len() as u32
    }

    /// The class with the number `c`.
    fn class(&self, c: u32) -> &Class
        requires c_below { c < length (representatives self.now) }
        ensures class { result.now ≡ class_at self.now (representative_at self.now c) }
        ensures group { IsGroup self.now }
    {
        &self.classes[c as usize]
    }

    /// How `g` is reached.
    fn reach(&self, g: u32) -> Reach
        requires g_below { g < self.now.order }
        ensures reach { result ≡ reach_of self.now g }
        ensures group { IsGroup self.now }
    {
        self.reaches[g as usize]
    }

    /// The least member of the class with the number `c`.
    #[tactic(auto, using(crate::proofs::Conjugacy::representative_at_is, crate::proofs::Conjugacy::class_of_representative))]
    pub fn representative(&self, c: u32) -> u32
        requires c_below { c < length (representatives self.now) }
        ensures representative { result ≡ representative_at self.now c }
        ensures below { result < self.now.order }
        ensures least { representative_of self.now result ≡ result }
        ensures class { class_of self.now result ≡ c }
    {
        self.class(c).representative
    }

    /// How many members the class with the number `c` has.
    #[tactic(auto, using(crate::proofs::Conjugacy::representative_at_is, crate::proofs::Conjugacy::some_member, crate::proofs::Conjugacy::few_members, crate::proofs::Counting::class_equation))]
    pub fn size(&self, c: u32) -> u32
        requires c_below { c < length (representatives self.now) }
        ensures size { result ≡ length (members_of self.now (representative_at self.now c)) }
        ensures positive { 1 ≤ result }
        ensures at_most_order { result ≤ self.now.order }
        ensures equation { result * length (centraliser_of self.now (representative_at self.now c))
            ≡ self.now.order }
    {
        self.class(c).members.len()
    }

    /// The member at place `i`, in ascending order, of the class with the number `c`.
    #[tactic(auto, using(crate::proofs::Conjugacy::member_below, crate::proofs::Conjugacy::member_class))]
    pub fn member(&self, c: u32, i: u32) -> u32
        requires c_below { c < length (representatives self.now) }
        requires i_below { i < length (members_of self.now (representative_at self.now c)) }
        ensures member { result
            ≡ slice_index (members_of self.now (representative_at self.now c)) i }
        ensures below { result < self.now.order }
        ensures class { class_of self.now result ≡ c }
    {
        self.class(c).members.at(i)
    }

    /// The number of the class of `g`.
    #[tactic(auto, using(crate::proofs::Conjugacy::class_below, crate::proofs::Conjugacy::class_represents))]
    pub fn class_of(&self, g: u32) -> u32
        requires g_below { g < self.now.order }
        ensures class { result ≡ class_of self.now g }
        ensures below { result < length (representatives self.now) }
        ensures representative { representative_at self.now result ≡ representative_of self.now g }
    {
        self.numbers.at(g)
    }

    /// The centraliser of the representative of the class with the number `c`: its elements, ascending.
    pub fn centraliser(&self, c: u32) -> &Nats
        requires c_below { c < length (representatives self.now) }
        ensures centraliser { result.now ≡ centraliser_of self.now (representative_at self.now c) }
    {
        &self.class(c).centraliser
    }

    /// The least `k` with `k a k^-1 = g`, where `a` is the representative of the class of `g`.
    #[tactic(auto, using(crate::proofs::Conjugacy::transporter_is))]
    pub fn transporter(&self, g: u32) -> u32
        requires g_below { g < self.now.order }
        ensures transporter { result ≡ transporter_of self.now g }
        ensures below { result < self.now.order }
        ensures carries { conjugate self.now result (representative_of self.now g) ≡ g }
        ensures least { (k : ℕ) → k < self.now.order
            → conjugate self.now k (representative_of self.now g) ≡ g → result ≤ k }
    {
        self.reach(g).transporter
    }
}
