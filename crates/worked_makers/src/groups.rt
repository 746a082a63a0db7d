//! Groups by formulas, with tables worked by hand, and numbers that are refused.

use group_make::{MakeRefusal, cyclic, dicyclic, dihedral, product, semidirect};
use group_table::Group;
use std::process::Abort;

/// The permutations of three points: the identity, the two turns and the three reflections.
const PERMUTATIONS: [u32; 36] = [
    0, 1, 2, 3, 4, 5, 1, 2, 0, 4, 5, 3, 2, 0, 1, 5, 3, 4, 3, 5, 4, 0, 2, 1, 4, 3, 5, 1, 0, 2, 5, 4,
    3, 2, 1, 0,
];

/// The cyclic group of order 4, which 2 generates: the square of 2 is 1, its cube 3.
const QUARTERS: [u32; 16] = [0, 1, 2, 3, 1, 0, 3, 2, 2, 3, 1, 0, 3, 2, 0, 1];

/// A group was made, and this is its table.
fn expect_table(rt: &impl Abort, made: Result<Group, MakeRefusal>, order: u32, table: &[u32]) {
    let group = made.expect(rt, "a group");
    assert!(rt; group.order() == order);
    assert!(rt; order <= 60 && table.len() == (order * order) as usize);
    for g in 0..order {
        for h in 0..order {
            let place = (g * order + h) as usize;
            assert!(rt; place < table.len());
            assert_eq!(rt; group.product(g, h), table[place], "{g} by {h}");
        }
    }
}

#[test]
fn tables(rt: HostRuntime) {
    let alloc = rt.alloc();
    expect_table(&rt, cyclic(alloc, 2), 2, &[0, 1, 1, 0]);
    expect_table(&rt, dihedral(alloc, 3), 6, &PERMUTATIONS);
    expect_table(&rt, semidirect(alloc, 3, 2, 2), 6, &PERMUTATIONS);
    expect_table(&rt, dicyclic(alloc, 1), 4, &QUARTERS);
    expect_table(&rt, product(alloc, 1, 2, 1), 2, &[0, 1, 1, 0]);
    expect_table(
        &rt,
        product(alloc, 2, 1, 2),
        4,
        &[0, 1, 2, 3, 1, 0, 3, 2, 2, 3, 0, 1, 3, 2, 1, 0],
    );
}

#[test]
fn refusals(rt: HostRuntime) {
    let alloc = rt.alloc();
    let most = 4_294_967_295;
    assert_eq!(rt;
        cyclic(alloc, 61).err(),
        Some(MakeRefusal::Size { order: 61 })
    );
    assert_eq!(rt;
        dihedral(alloc, 0).err(),
        Some(MakeRefusal::Size { order: 0 })
    );
    assert_eq!(rt;
        dicyclic(alloc, most).err(),
        Some(MakeRefusal::Size {
            order: 17_179_869_180
        })
    );
    assert_eq!(rt;
        product(alloc, most, most, most).err(),
        Some(MakeRefusal::Size {
            order: 79_228_162_458_924_105_385_300_197_375
        })
    );
    assert_eq!(rt;
        semidirect(alloc, 4, 2, 2).err(),
        Some(MakeRefusal::Action { power: 0 })
    );
    assert_eq!(rt;
        semidirect(alloc, 0, 2, 2).err(),
        Some(MakeRefusal::Size { order: 0 })
    );
    assert!(rt; semidirect(alloc, 1, 7, most).is_ok());
}
