//! The check of a table of projective characters of a twisted centraliser.
#![tactic(auto)]

ghost use Rattle.table_check.specs.Fitting.{GoodTablesMissNothing};
ghost use Rattle.table_check.specs.Idempotents.{GoodTablesGiveIdempotents};

mod algebra_clauses;
mod candidate;
mod compared;
mod conjugated;
mod identity_name;
mod kept;
mod miss;
mod refusal;
mod row_clauses;
mod sides;
mod table;
mod walk;

pub use identity_name::IdentityName;
pub use miss::{Clause, Miss};
pub use qd_ring::Total;
pub use refusal::TableRefusal;
pub use table::Table;

/// The elements of the conjugates of a good table's rows are, up to whole factors, orthogonal central idempotents of the twisted group
/// algebra that add up to one; there are as many as the rank of its centre.
pub fn idempotent_laws()
    ensures idempotents { GoodTablesGiveIdempotents }
{}

/// The check is as strict as the nine clauses, and no stricter: a good table whose sides all fit misses nothing.
pub fn check_laws()
    ensures complete { GoodTablesMissNothing }
{}
