//! The classes of small groups, worked by hand.

use crate::made::{PERMUTATIONS, group_of};
use classes::Classes;
use std::process::Abort;

/// The class with the number `c` has this representative, these members and this centraliser.
fn expect_class(rt: &impl Abort, classes: &Classes, c: u32, members: &[u32], centraliser: &[u32]) {
    assert!(rt; c < classes.count());
    assert!(rt; members.len() > 0);
    assert_eq!(rt; classes.representative(c), members[0]);
    assert!(rt; classes.size(c) as usize == members.len());
    for i in 0..members.len() {
        assert_eq!(rt;
            classes.member(c, i as u32),
            members[i],
            "member {i} of class {c}"
        );
    }
    assert_eq!(rt; classes.centraliser(c).as_slice(), centraliser);
}

#[test]
fn permutations_of_three_points(rt: HostRuntime) {
    let group = group_of(&rt, rt.alloc(), 6, &PERMUTATIONS);
    let classes = Classes::of(rt.alloc(), &group).expect(&rt, "memory");
    assert_eq!(rt; classes.count(), 3);
    expect_class(&rt, &classes, 0, &[0], &[0, 1, 2, 3, 4, 5]);
    expect_class(&rt, &classes, 1, &[1, 2], &[0, 1, 2]);
    expect_class(&rt, &classes, 2, &[3, 4, 5], &[0, 3]);
    assert!(rt; group.order() == 6);
    for (g, number, transporter) in [
        (0, 0, 0),
        (1, 1, 0),
        (2, 1, 3),
        (3, 2, 0),
        (4, 2, 2),
        (5, 2, 1),
    ] {
        assert_eq!(rt; classes.class_of(g), number, "class of {g}");
        assert_eq!(rt; classes.transporter(g), transporter, "transporter of {g}");
    }
}

#[test]
fn identity_at_element_1(rt: HostRuntime) {
    let group = group_of(&rt, rt.alloc(), 2, &[1, 0, 0, 1]);
    let classes = Classes::of(rt.alloc(), &group).expect(&rt, "memory");
    assert_eq!(rt; classes.count(), 2);
    expect_class(&rt, &classes, 0, &[1], &[0, 1]);
    expect_class(&rt, &classes, 1, &[0], &[0, 1]);
    assert!(rt; group.order() == 2);
    assert_eq!(rt; classes.class_of(0), 1);
    assert_eq!(rt; classes.class_of(1), 0);
    assert_eq!(rt; classes.transporter(0), 0);
    assert_eq!(rt; classes.transporter(1), 0);
}
