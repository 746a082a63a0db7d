//! The two sides of a clause, compared at one place.

ghost use Rattle.std.specs.Prelude.{◌≡◌, ℕ};
ghost use Rattle.cyclotomic.specs.CyclotomicRing.{cyclotomic_value};
ghost use Rattle.twisted.specs.Twist.{TwistedSubgroup};
ghost use Rattle.table_check.specs.Formed.{Forms};
ghost use Rattle.table_check.specs.Characters.{Characters};
ghost use Rattle.table_check.specs.Check.{is_same};
ghost use Rattle.table_check.specs.Answers.{clause_of, left_of, right_of, site_of, equation_miss, Finds};

use crate::identity_name::IdentityName;
use crate::refusal::TableRefusal;
use qd_ring::{Cyc, Part, Site};
use twisted::Twist;

/// Whether two values are the same.
pub fn is_same<const K: u32>(a: &Cyc<K>, b: &Cyc<K>) -> bool
    ensures same { result
        ≡ is_same (cyclotomic_value K a.now.coefficients) (cyclotomic_value K b.now.coefficients) }
{
    a == b
}

/// The site of sides over this twisted centraliser.
pub fn site_over(twist: &Twist, part: Part, i: u32, j: u32, x: u32) -> Site
    ensures site { result ≡ record { part = part; at = twist.now.at; i = i; j = j; x = x } }
{
    let at = twist.at();
    Site { part, at, i, j, x }
}

/// The refusal of an equation with these sides at this site, where one overflows (`None`) or they differ.
pub fn equation<const K: u32>(
    name: IdentityName,
    site: Site,
    left: Option<Cyc<K>>,
    right: Option<Cyc<K>>,
) -> Option<TableRefusal<K>>
    ensures finds { (s : TwistedSubgroup) (table : Characters K) (i j x : ℕ)
        → site ≡ site_of s (record { clause = clause_of name; i = i; j = j; x = x })
        → Forms (left_of s table (clause_of name) i j x) left.entry
        → Forms (right_of s table (clause_of name) i j x) right.entry
        → Finds s table (equation_miss s table (clause_of name) i j x) result }
{
    let Some(left) = left else {
        return Some(TableRefusal::Overflow { site });
    };
    let Some(right) = right else {
        return Some(TableRefusal::Overflow { site });
    };
    if is_same(&left, &right) {
        return None;
    }
    Some(TableRefusal::Identity {
        name,
        i: site.i,
        j: site.j,
        x: site.x,
        left,
        right,
    })
}
