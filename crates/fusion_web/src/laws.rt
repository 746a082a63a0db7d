//! Laws of webs.

ghost use Rattle.fusion_web.specs.Laws.{RowSums, IntoSums, CountsGrow};

/// A sum along a ring is the sum over all, where it is 0 at what isn't in the ring; and an insertion changes one count.
pub fn web_laws()
    ensures rows { RowSums }
    ensures intos { IntoSums }
    ensures counts { CountsGrow }
{}
