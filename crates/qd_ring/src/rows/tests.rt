//! Tests of rows of values.

use crate::cyc::Cyc;
use crate::rows::Rows;
use std::test::Fail;

#[test]
#[tactic(auto, unfolding(cyclotomic::specs::Conductors::is_conductor, cyclotomic::specs::Conductors::conductors))]
fn rows_grow(rt: HostRuntime) -> Result<(), Fail> {
    let mut rows = Rows::<12>::empty(rt.alloc());
    rows.push_row()?;
    rows.push_row()?;
    rows.push_value(Cyc::<12>::one())?;
    assert_eq!(rt; rows.rows(), 2);
    assert_eq!(rt; rows.width(0), 0);
    assert_eq!(rt; rows.width(1), 1);
    assert_eq!(rt; rows.value(1, 0), Cyc::<12>::one());
    Ok(())
}
