//! Rows of good tables in another order: the tables stay good, and have the same simples.
#![tactic(auto)]

ghost use Rattle.row_order.specs.Reordering.{GoodInAnyOrder, RootRowsInAnyOrder};
ghost use Rattle.row_order.specs.SimpleRows.{RowsOfSimplesReorder, SimplesInOrder, RootRowsInOrder, SameSimplesInOrder, OrderIsKept};

/// A table with the rows of a good table in another order is good, and one with rows of sums of roots of unity has such rows.
pub fn reordering_laws()
    ensures good { GoodInAnyOrder }
    ensures roots { RootRowsInAnyOrder }
{}

/// The rows of the simples of a class, in the order of the simples, are those of the table of the class in another order. So simples by
/// good tables are simples by the tables with their rows in that order too, and these are the same simples. In that order the tables stay as
/// they are when they are put into order again.
pub fn simple_row_laws()
    ensures rows { RowsOfSimplesReorder }
    ensures simples { SimplesInOrder }
    ensures roots { RootRowsInOrder }
    ensures same { SameSimplesInOrder }
    ensures kept { OrderIsKept }
{}
