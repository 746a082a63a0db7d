//! Tests of roots of unity.

use crate::root::Root;
use crate::unit_group::UnitGroup;
use std::test::Fail;

fn square<G: UnitGroup>(g: G) -> G {
    g.compose(g)
}

#[test]
#[tactic(auto, unfolding(cyclotomic::specs::Conductors::is_conductor, cyclotomic::specs::Conductors::conductors))]
fn roots_multiply_by_exponents(rt: HostRuntime) -> Result<(), Fail> {
    let root = Root::<12>::new(7);
    assert_eq!(rt; square(root).exponent(), 2);
    assert_eq!(rt; (root * root.inverse()), Root::<12>::one());
    assert_eq!(rt; Root::<12>::new(31), root);
    Ok(())
}
