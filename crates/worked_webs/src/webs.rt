//! A small web worked by hand, and a full one.

use fusion_web::{Node, Web, WebRefusal};
use std::process::Abort;

/// Adds an entry that the web doesn't have.
fn insert(
    rt: &impl Abort,
    web: &mut Web,
    i: u32,
    j: u32,
    k: u32,
    count: u32,
) -> Result<(), WebRefusal> {
    assert!(rt; i < web.simples() && j < web.simples() && k < web.simples() && count >= 1);
    assert!(rt; web.count(i, j, k) == 0);
    web.insert(i, j, k, count)
}

/// The node at a place.
fn node(rt: &impl Abort, web: &Web, place: u32) -> Node {
    assert!(rt; place < web.nodes());
    web.node(place)
}

#[test]
fn four_entries(rt: HostRuntime) {
    let mut web = Web::new(rt.alloc(), 2).expect(&rt, "memory");
    for (i, j, k, count) in [(1, 1, 0, 4), (0, 1, 1, 5), (1, 0, 1, 6), (0, 0, 0, 7)] {
        insert(&rt, &mut web, i, j, k, count).expect(&rt, "room");
    }
    assert!(rt; web.simples() == 2 && web.nodes() == 4);
    let links = [(0, 3), (1, 2), (2, 1), (3, 0)];
    for place in 0..4_usize {
        let found = node(&rt, &web, place as u32);
        assert_eq!(rt; (found.next_row, found.next_into), links[place]);
    }
    assert_eq!(rt; node(&rt, &web, 2).count, 6);
    assert_eq!(rt; web.into_head(0), Some(3));
    assert_eq!(rt; web.into_head(1), Some(1));
    assert_eq!(rt; web.row_head(1, 0), Some(2));
    assert_eq!(rt; web.count(1, 1, 0), 4);
    assert_eq!(rt; web.count(1, 1, 1), 0);
    let mut into = Web::into(&web, 0);
    assert_eq!(rt; into.next(), Some((0, 0, 7)));
    assert_eq!(rt; into.next(), Some((1, 1, 4)));
    assert_eq!(rt; into.next(), None);
    let mut row = web.row(0, 1);
    assert_eq!(rt; row.next(), Some((1, 5)));
    assert_eq!(rt; row.next(), None);
}

#[test]
fn full(rt: HostRuntime) {
    let mut web = Web::new(rt.alloc(), 65).expect(&rt, "memory");
    for pair in 0..64 * 64_u32 {
        for k in 0..64 {
            insert(&rt, &mut web, pair / 64, pair % 64, k, 1).expect(&rt, "room");
        }
    }
    assert_eq!(rt; insert(&rt, &mut web, 64, 0, 0, 1), Err(WebRefusal::Full));
    assert!(rt; web.simples() == 65 && web.nodes() == 262_144);
    assert_eq!(rt; web.count(64, 0, 0), 0);
    assert_eq!(rt; web.row_head(64, 0), None);
    let mut row = web.row(63, 62);
    assert_eq!(rt; row.next(), Some((0, 1)));
    let mut into = Web::into(&web, 63);
    assert_eq!(rt; into.next(), Some((0, 0, 1)));
}
