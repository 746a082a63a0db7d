//! The classes and the numbers of the classes, from how each element is reached.

ghost use Rattle.std.specs.Prelude.{◌≡◌, ℕ, ◌<◌, ◌==◌, length, map, Some, None, if◌then◌else◌, IfOk};
ghost use Rattle.scan.specs.First.{first};
ghost use Rattle.group_table.specs.Group.{IsGroup, IsSmall};
ghost use Rattle.classes.specs.Conjugacy.{is_conjugate, representative_of, representatives, representative_at, other_representatives, class_of, members_of, centraliser_of};
ghost use Rattle.classes.specs.Kept.{class_at, ListsReaches, ListsNumbers};

use crate::class_table::Class;
use crate::sweep::Reach;
use group_table::{Group, Memory, Nats};
use scan::first_below;
use std::alloc::Global;

/// Whether `g` is in the class of `a`, which is a representative.
#[tactic(auto, using(crate::proofs::Conjugacy::member_test))]
fn is_member(group: &Group, reaches: &[Reach], a: u32, g: u32) -> bool
    requires group { IsGroup group.now }
    requires reaches { ListsReaches group.now reaches.now }
    requires representative { representative_of group.now a ≡ a }
    requires a_below { a < group.now.order }
    requires g_below { g < group.now.order }
    ensures member { result ≡ is_conjugate group.now a g }
{
    reaches[g as usize].representative == a
}

/// The members of the class of `a`, which is a representative.
#[tactic(auto, unfolding(crate::specs::Conjugacy::members_of))]
fn members(alloc: Global, group: &Group, reaches: &[Reach], a: u32) -> Result<Nats, Memory>
    requires group { IsGroup group.now }
    requires reaches { ListsReaches group.now reaches.now }
    requires representative { representative_of group.now a ≡ a }
    requires a_below { a < group.now.order }
    ensures members { IfOk result (λ members. members ≡ members_of group.now a) }
{
    Nats::passing_below(alloc, group.order(), |g| is_member(group, reaches, a, g))
}

/// The centraliser of `a`.
#[tactic(auto, unfolding(crate::specs::Conjugacy::centraliser_of))]
pub fn centraliser(alloc: Global, group: &Group, a: u32) -> Result<Nats, Memory>
    requires a_below { a < group.now.order }
    ensures centraliser { IfOk result (λ centraliser. centraliser ≡ centraliser_of group.now a) }
{
    Nats::passing_below(
        alloc,
        group.order(),
        |x| group.product(x, a) == group.product(a, x),
    )
}

/// The class of `a`, which is a representative.
fn class(alloc: Global, group: &Group, reaches: &[Reach], a: u32) -> Result<Class, Memory>
    requires group { IsGroup group.now }
    requires reaches { ListsReaches group.now reaches.now }
    requires representative { representative_of group.now a ≡ a }
    requires a_below { a < group.now.order }
    ensures class { IfOk result (λ class. class ≡ class_at group.now a) }
{
    Ok(Class {
        representative: a,
        members: members(alloc, group, reaches, a)?,
        centraliser: centraliser(alloc, group, a)?,
    })
}

/// The representatives other than the identity.
#[tactic(auto, unfolding(crate::specs::Conjugacy::other_representatives))]
fn other_representatives(alloc: Global, group: &Group, reaches: &[Reach]) -> Result<Nats, Memory>
    requires group { IsGroup group.now }
    requires reaches { ListsReaches group.now reaches.now }
    ensures others { IfOk result (λ others. others ≡ other_representatives group.now) }
{
    let identity = group.identity();
    Nats::passing_below(
        alloc,
        group.order(),
        |a| reaches[a as usize].representative == a && a != identity,
    )
}

/// The classes, in order.
#[tactic(auto, using(crate::proofs::Conjugacy::representative_of_identity, crate::proofs::Lookups::other_at, crate::proofs::Lookups::other_below))]
pub fn class_list(alloc: Global, group: &Group, reaches: &[Reach]) -> Result<Vec<Class>, Memory>
    requires group { IsGroup group.now }
    requires reaches { ListsReaches group.now reaches.now }
    ensures classes { IfOk result
        (λ classes. classes.items ≡ map (class_at group.now) (representatives group.now)) }
{
    let others = other_representatives(alloc, group, reaches)?;
    let mut classes = vec![in alloc; class(alloc, group, reaches, group.identity())?]?;
    for a in others.as_slice() {
        classes.push(class(alloc, group, reaches, *a)?)?;
    }
    Ok(classes)
}

/// How many classes there are.
#[tactic(auto, using(crate::proofs::Lookups::few_kept))]
fn class_count(group: &Group, classes: &[Class]) -> u32
    requires group { IsGroup group.now }
    requires small { IsSmall group.now.order }
    requires classes { classes.now ≡ map (class_at group.now) (representatives group.now) }
    ensures count { result ≡ length (representatives group.now) }
{
    classes.len() as u32
}

/// Whether the class with the number `c` has this representative.
fn is_represented(group: &Group, classes: &[Class], representative: u32, c: u32) -> bool
    requires classes { classes.now ≡ map (class_at group.now) (representatives group.now) }
    requires c_below { c < length (representatives group.now) }
    ensures represented { result ≡ (representative_at group.now c == representative) }
{
    classes[c as usize].representative == representative
}

/// The first class that has this representative.
fn first_class(group: &Group, classes: &[Class], representative: u32) -> Option<u32>
    requires group { IsGroup group.now }
    requires small { IsSmall group.now.order }
    requires classes { classes.now ≡ map (class_at group.now) (representatives group.now) }
    ensures first { result
        ≡ first (length (representatives group.now))
        (λ c. if representative_at group.now c == representative then Some c else None) }
{
    first_below(class_count(group, classes), |c| {
        if is_represented(group, classes, representative, c) {
            Some(c)
        } else {
            None
        }
    })
}

/// The number of the class of `g`.
#[tactic(auto, unfolding(crate::specs::Conjugacy::class_of))]
fn class_number(group: &Group, classes: &[Class], reaches: &[Reach], g: u32) -> u32
    requires group { IsGroup group.now }
    requires small { IsSmall group.now.order }
    requires classes { classes.now ≡ map (class_at group.now) (representatives group.now) }
    requires reaches { ListsReaches group.now reaches.now }
    requires g_below { g < group.now.order }
    ensures number { result ≡ class_of group.now g }
{
    first_class(group, classes, reaches[g as usize].representative).unwrap_or(0)
}

/// The number of the class of each element.
pub fn class_numbers(
    alloc: Global,
    group: &Group,
    classes: &[Class],
    reaches: &[Reach],
) -> Result<Nats, Memory>
    requires small { IsSmall group.now.order }
    requires classes { classes.now ≡ map (class_at group.now) (representatives group.now) }
    requires group { IsGroup group.now }
    requires reaches { ListsReaches group.now reaches.now }
    ensures numbers { IfOk result (ListsNumbers group.now) }
{
    let mut numbers = Nats::empty(alloc);
    for g in 0..group.order() {
        numbers.push(class_number(group, classes, reaches, g))?;
    }
    Ok(numbers)
}
