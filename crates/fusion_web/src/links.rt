//! The linking of nodes in their rings.

ghost use Rattle.std.specs.Prelude.{◌≡◌, ◌+◌, ◌*◌, ◌<◌, ◌≤◌, ℕ, map, length, slice_set, Some, None, slice_index_or};
ghost use Rattle.fusion_web.specs.Entries.{IsEntry, IsWeb};
ghost use Rattle.fusion_web.specs.Rings.{IsNext, IsLast, AreDistinct, IsPlaceBefore};
ghost use Rattle.fusion_web.specs.Links.{entry_of, node_at, with_next, ring_at, key_at, next_at, AreLinked, IsHead, IsLinkedWeb, web_of};
ghost use Rattle.fusion_web.specs.declared.side.Side.TheVariants as sides;

use crate::node::Node;
use crate::side::Side;

/// Changes the link of the node at a place.
fn set_next(nodes: &mut [Node], side: Side, place: u32, next: u32)
    requires place { place < length nodes.old }
    ensures changed { nodes.new
        ≡ slice_set nodes.old place (with_next side (node_at nodes.old place) next) }
{
    let node = nodes[place as usize];
    nodes[place as usize] = side.with_next(&node, next);
}

/// The place after which the node at `place` belongs in its ring, which ends at `last`; looked for from the end of the ring.
fn place_before(nodes: &[Node], side: Side, simples: u32, place: u32, last: u32) -> u32
    requires few { simples ≤ 256 }
    requires inside { place < length nodes.now }
    requires entries { (p : ℕ) → p < length nodes.now
        → IsEntry simples (entry_of (node_at nodes.now p)) }
    requires distinct { AreDistinct (ring_at side simples nodes.now)
        (key_at side simples nodes.now) (place + 1) }
    requires linked { (p : ℕ) → p < place → IsNext (ring_at side simples nodes.now)
        (key_at side simples nodes.now) place p (next_at side nodes.now p) }
    requires last { IsLast (ring_at side simples nodes.now)
        (key_at side simples nodes.now) place (ring_at side simples nodes.now place) last }
    ensures before { IsPlaceBefore (ring_at side simples nodes.now)
        (key_at side simples nodes.now) place (next_at side nodes.now) result }
{
    let key = side.key(simples, &nodes[place as usize]);
    if side.key(simples, &nodes[last as usize]) < key {
        return last;
    }
    let mut before = last;
    let mut after = side.next(&nodes[last as usize]);
    while side.key(simples, &nodes[after as usize]) < key {
        before = after;
        after = side.next(&nodes[before as usize]);
    }
    before
}

/// Links the last node, at `place`, in its ring.
fn link(nodes: &mut [Node], lasts: &mut [Option<u32>], side: Side, simples: u32, place: u32)
    requires few { simples ≤ 256 }
    requires place { place + 1 ≡ length nodes.old }
    requires entries { (p : ℕ) → p < length nodes.old
        → IsEntry simples (entry_of (node_at nodes.old p)) }
    requires ring { ring_at side simples nodes.old place < length lasts.old }
    requires distinct { AreDistinct (ring_at side simples nodes.old)
        (key_at side simples nodes.old) (place + 1) }
    requires linked { AreLinked side simples nodes.old place lasts.old }
    ensures linked { AreLinked side simples nodes.new (length nodes.new) lasts.new }
    ensures entries { map entry_of nodes.new ≡ map entry_of nodes.old }
    ensures others { (p : ℕ) → with_next side (node_at nodes.new p) 0
        ≡ with_next side (node_at nodes.old p) 0 }
{
    let ring = side.ring(simples, &nodes[place as usize]) as usize;
    let Some(last) = lasts[ring] else {
        set_next(nodes, side, place, place);
        lasts[ring] = Some(place);
        return;
    };
    let before = place_before(nodes, side, simples, place, last);
    let after = side.next(&nodes[before as usize]);
    let is_last = side.key(simples, &nodes[last as usize])
        < side.key(simples, &nodes[place as usize]);
    set_next(nodes, side, place, after);
    set_next(nodes, side, before, place);
    if is_last {
        lasts[ring] = Some(place);
    }
}

/// Links the last node of a web, at `place`, in both of its rings.
pub fn link_in_both(
    nodes: &mut [Node],
    row_lasts: &mut [Option<u32>],
    into_lasts: &mut [Option<u32>],
    simples: u32,
    place: u32,
)
    requires web { IsWeb (web_of simples nodes.old) }
    requires place { place + 1 ≡ length nodes.old }
    requires rows { AreLinked sides.Row simples nodes.old place row_lasts.old }
    requires row_count { length row_lasts.old ≡ simples * simples }
    requires intos { AreLinked sides.Into simples nodes.old place into_lasts.old }
    requires into_count { length into_lasts.old ≡ simples }
    ensures linked { IsLinkedWeb simples nodes.new row_lasts.new into_lasts.new }
    ensures entries { map entry_of nodes.new ≡ map entry_of nodes.old }
{
    link(nodes, row_lasts, Side::Row, simples, place);
    link(nodes, into_lasts, Side::Into, simples, place);
}

/// The place with the least key of a ring; `None` exactly where the ring is empty.
pub fn head(
    nodes: &[Node],
    lasts: &[Option<u32>],
    side: Side,
    ring: u32,
    simples: u32,
) -> Option<u32>
    requires ring { ring < length lasts.now }
    requires linked { AreLinked side simples nodes.now (length nodes.now) lasts.now }
    ensures head { IsHead side (web_of simples nodes.now) ring result }
{
    match lasts[ring as usize] {
        Some(last) => Some(side.next(&nodes[last as usize])),
        None => None,
    }
}
