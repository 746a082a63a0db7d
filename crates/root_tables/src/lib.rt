//! Tables of sums of roots of unity: nothing that is formed of their values overflows.
#![tactic(auto)]

ghost use Rattle.root_tables.specs.RootRows.{RootRowsFit, RootRowsMissClauses, RootSimplesFit};

/// Of rows whose values are sums of as many roots of unity as their degrees say, no side of the check of the table overflows at any
/// place, so that the check answers a clause that fails or that the table is good; and no numerator of S overflows.
pub fn root_row_laws()
    ensures sides { RootRowsFit }
    ensures misses { RootRowsMissClauses }
    ensures numerators { RootSimplesFit }
{}
