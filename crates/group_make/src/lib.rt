//! Finite groups by formulas: cyclic, dihedral and dicyclic groups, products of cyclic groups, and their
//! semidirect products.
#![tactic(auto)]

ghost use Rattle.group_make.specs.Laws.{LawfulTables, ProductsByFormula, CyclicIsGroup, DihedralIsGroup, DicyclicIsGroup, ProductIsGroup, SemidirectIsGroup};

mod formulas;
mod makers;
mod refusal;

pub use group_table::Memory;
pub use makers::{cyclic, dicyclic, dihedral, product, semidirect};
pub use refusal::MakeRefusal;

/// The formulas give groups, for numbers without bound, and their tables list the products of the formulas.
/// A table whose products are a group on the numbers below its order breaks no law.
pub fn formula_laws()
    ensures complete { LawfulTables }
    ensures products { ProductsByFormula }
    ensures cyclic { CyclicIsGroup }
    ensures dihedral { DihedralIsGroup }
    ensures dicyclic { DicyclicIsGroup }
    ensures product { ProductIsGroup }
    ensures semidirect { SemidirectIsGroup }
{}
