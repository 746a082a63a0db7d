//! What the sums ask of elements of the group.

ghost use Rattle.std.specs.Prelude.{◌≡◌, ◌%◌, ◌<◌, ◌==◌, true, length, slice_index};
ghost use Rattle.group_table.specs.Group.{IsSmall, commute};
ghost use Rattle.classes.specs.Conjugacy.{class_of, representatives};
ghost use Rattle.cyclotomic.specs.Conductors.{is_conductor};
ghost use Rattle.slant.specs.Phases.{gamma};
ghost use Rattle.transport.specs.Simples.{count, class_at};
ghost use Rattle.transport.specs.FullCharacters.{root_exponent};
ghost use Rattle.transport.specs.Fusion.{left_quotient};
ghost use Rattle.fusion.specs.Kept.{members_at};

use qd_ring::Root;
use slant::gamma;
use transport::Simples;

/// The order of the group.
pub fn order<const K: u32>(simples: &Simples<K>) -> u32
    ensures order { result ≡ simples.now.cocycle.group.order }
    ensures small { IsSmall simples.now.cocycle.group.order }
    ensures conductor { is_conductor K ≡ true }
{
    simples.cocycle().group().order()
}

/// Whether two elements commute.
pub fn commute<const K: u32>(simples: &Simples<K>, g: u32, x: u32) -> bool
    requires g_below { g < simples.now.cocycle.group.order }
    requires x_below { x < simples.now.cocycle.group.order }
    ensures commute { result ≡ commute simples.now.cocycle.group g x }
{
    let group = simples.cocycle().group();
    group.product(g, x) == group.product(x, g)
}

/// Whether `g` is in the class of simple `i`.
pub fn is_in_class<const K: u32>(simples: &Simples<K>, i: u32, g: u32) -> bool
    requires i_below { i < count K simples.now }
    requires g_below { g < simples.now.cocycle.group.order }
    ensures class { result ≡ (class_of simples.now.cocycle.group g == class_at K simples.now i) }
{
    simples.classes().class_of(g) == simples.class(i)
}

/// How many members the class of simple `i` has.
pub fn class_size<const K: u32>(simples: &Simples<K>, i: u32) -> u32
    requires i_below { i < count K simples.now }
    ensures size { result ≡ length (members_at K simples.now i) }
    ensures class { class_at K simples.now i < length (representatives simples.now.cocycle.group) }
{
    simples.classes().size(simples.class(i))
}

/// The member at place `q` of the class of simple `i`, in ascending order.
pub fn class_member<const K: u32>(simples: &Simples<K>, i: u32, q: u32) -> u32
    requires i_below { i < count K simples.now }
    requires q_below { q < length (members_at K simples.now i) }
    ensures member { result ≡ slice_index (members_at K simples.now i) q }
    ensures below { result < simples.now.cocycle.group.order }
    ensures class { class_of simples.now.cocycle.group result ≡ class_at K simples.now i }
{
    simples.classes().member(simples.class(i), q)
}

/// `h^-1 g`.
pub fn left_quotient<const K: u32>(simples: &Simples<K>, h: u32, g: u32) -> u32
    requires h_below { h < simples.now.cocycle.group.order }
    requires g_below { g < simples.now.cocycle.group.order }
    ensures quotient { result ≡ left_quotient simples.now.cocycle.group h g }
    ensures below { result < simples.now.cocycle.group.order }
{
    let group = simples.cocycle().group();
    group.product(group.inverse(h), g)
}

/// The root of the coproduct phase of `h` and `other` at `x`.
pub fn coproduct_root<const K: u32>(simples: &Simples<K>, x: u32, h: u32, other: u32) -> Root<K>
    requires x_below { x < simples.now.cocycle.group.order }
    requires h_below { h < simples.now.cocycle.group.order }
    requires other_below { other < simples.now.cocycle.group.order }
    ensures root { let w = simples.now.cocycle in
        result.exponent ≡ root_exponent K w (gamma w x h other) % K }
{
    let _order = order(simples);
    let w = simples.cocycle();
    Root::new(gamma(w, x, h, other) * (K / w.roots()))
}
