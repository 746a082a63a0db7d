//! Lines of reports and of refusals.

ghost use Rattle.std.specs.Prelude.{◌≤◌, ◌↔◌, All, IsTrue};

use classes::Classes;
use cochain::{Cocycle, CocycleFault};
use data_print::{Cause, ShapeFault, append_classes, append_head, append_refusal, append_s};
use group_table::{Group, GroupFault, Nats};
use qd_ring::{Cyc, Part, Plain, Root, Rows, Site};
use qd_text::Expected;
use std::alloc::{AllocError, Global};
use std::process::Abort;
use std::test::Fail;
use table_check::IdentityName;

fn numbers(alloc: Global, list: &[u32]) -> Result<Nats, AllocError> {
    let mut numbers = Nats::empty(alloc);
    for number in list {
        if numbers.len() < 1000 {
            numbers.push(*number)?;
        }
    }
    Ok(numbers)
}

fn are_small(ranks: &Nats) -> bool
    ensures small { IsTrue result ↔ All (λ rank. rank ≤ 60) ranks.now }
{
    ranks.as_slice().iter().all(|&rank| rank <= 60)
}

#[test]
fn prints_a_head_and_classes(rt: HostRuntime) -> Result<(), Fail> {
    let alloc = rt.alloc();
    let table = numbers(alloc, &[0, 1, 1, 0])?;
    let exponents = numbers(alloc, &[0, 0, 0, 0, 0, 0, 0, 1])?;
    let ranks = numbers(alloc, &[2, 2])?;
    assert_eq!(rt; table.len(), 4);
    assert_eq!(rt; exponents.len(), 8);
    let group = Group::from_table(alloc, 2, &table).map_err(|_| "a group")?;
    assert_eq!(rt; group.order(), 2);
    let classes = Classes::of(alloc, &group)?;
    let w = Cocycle::from_exponents(alloc, group, 2, &exponents).map_err(|_| "a cocycle")?;
    let mut out = Vec::new(alloc);
    append_head(&mut out, &w)?;
    assert_eq!(rt; ranks.len(), classes.count());
    assert!(rt; are_small(&ranks));
    append_classes(&mut out, &classes, &ranks)?;
    let wanted = "group order 2 identity 0 exponent 2\ncocycle roots 2\n\
        class 0 at 0 size 1 centraliser 2 rank 2\nclass 1 at 1 size 1 centraliser 2 rank 2\nsimples 4\n";
    assert_eq!(rt; out.as_slice(), wanted.as_bytes());
    Ok(())
}

/// Two rows of one value each.
#[tactic(auto, unfolding(cyclotomic::specs::Conductors::is_conductor, cyclotomic::specs::Conductors::conductors))]
fn two_rows(rt: &impl Abort, alloc: Global, values: [Cyc<4>; 2]) -> Rows<4> {
    let mut rows = Rows::<4>::empty(alloc);
    for value in values {
        assert!(rt; rows.rows() < 2);
        rows.push_row().expect(rt, "memory");
        let last = rows.rows();
        assert!(rt; last > 0 && rows.width(last - 1) < 2);
        rows.push_value(value).expect(rt, "memory");
    }
    rows
}

#[test]
#[tactic(auto, unfolding(cyclotomic::specs::Conductors::is_conductor, cyclotomic::specs::Conductors::conductors))]
fn prints_rows_of_s(rt: HostRuntime) -> Result<(), Fail> {
    let alloc = rt.alloc();
    let rows = two_rows(&rt, alloc, [Cyc::from_root(Root::new(3)), Cyc::zero()]);
    let mut out = Vec::new(alloc);
    assert_eq!(rt; rows.rows(), 2);
    append_s(&mut out, 2, 0, &rows)?;
    append_s(&mut out, 2, 1, &rows)?;
    assert_eq!(rt; out.as_slice(), "S over 2\nS 0 -1z1\nS 1 0\n".as_bytes());
    Ok(())
}

/// A whole number as a value.
fn whole(number: i128) -> Plain {
    let mut coefficients = [0; 42];
    coefficients[0] = number;
    Plain { coefficients }
}

#[test]
fn prints_refusals_of_documents(rt: HostRuntime) -> Result<(), Fail> {
    let alloc = rt.alloc();
    let width = ShapeFault::Width {
        block: 1,
        row: 1,
        given: 1,
        wanted: 2,
    };
    let rows = [
        (
            Cause::NoConductor { multiple: 11 },
            "refused 6 conductor 11\n",
        ),
        (
            Cause::Conductor {
                stated: 8,
                needed: 4,
            },
            "refused 6 stated 8 needed 4\n",
        ),
        (
            Cause::Simples {
                ranks: 900,
                most: 256,
            },
            "refused 6 simples 900\n",
        ),
        (Cause::Shape(width), "refused 9 width 1 1 1 2\n"),
    ];
    for (why, wanted) in rows {
        let mut out = Vec::new(alloc);
        append_refusal(&mut out, &why)?;
        assert_eq!(rt; out.as_slice(), wanted.as_bytes());
    }
    Ok(())
}

#[test]
fn prints_refusals_of_makers(rt: HostRuntime) -> Result<(), Fail> {
    let alloc = rt.alloc();
    let rows = [
        (Cause::Size { order: 61 }, "refused 6 size 61\n"),
        (
            Cause::Size {
                order: 79_228_162_458_924_105_385_300_197_375,
            },
            "refused 6 size 79228162458924105385300197375\n",
        ),
        (Cause::Action { power: 0 }, "refused 4 action 0\n"),
    ];
    for (why, wanted) in rows {
        let mut out = Vec::new(alloc);
        append_refusal(&mut out, &why)?;
        assert_eq!(rt; out.as_slice(), wanted.as_bytes());
    }
    Ok(())
}

#[test]
fn prints_refusals_of_tables(rt: HostRuntime) -> Result<(), Fail> {
    let alloc = rt.alloc();
    let count = Cause::Count {
        at: 0,
        rows: 1,
        rank: 2,
    };
    let product = Cause::Identity {
        name: IdentityName::Product,
        at: 0,
        i: 0,
        j: 1,
        x: 0,
        left: whole(2),
        right: whole(0),
    };
    let twist = Cause::NoTwist {
        at: 1,
        row: 1,
        value: whole(2),
    };
    let site = Site {
        part: Part::Product,
        at: 0,
        i: 0,
        j: 1,
        x: 0,
    };
    let rows = [
        (count, "refused 9 count 0 1 2\n"),
        (product, "refused 9 product 0 0 1 0 2 0\n"),
        (twist, "refused 9 twist 1 1 2\n"),
        (
            Cause::Overflow { site },
            "refused 11 overflow product 0 0 1 0\n",
        ),
    ];
    for (why, wanted) in rows {
        let mut out = Vec::new(alloc);
        append_refusal(&mut out, &why)?;
        assert_eq!(rt; out.as_slice(), wanted.as_bytes());
    }
    Ok(())
}
