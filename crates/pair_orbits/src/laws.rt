//! Laws of the list of commuting pairs, and of sums over it.

ghost use Rattle.pair_orbits.specs.Listing.{AreCommuting, AreLeast, CoverCommuting, AreListedOnce, Ascend, HoldWeights};
ghost use Rattle.pair_orbits.specs.FormedSums.{FormedOverOrbits};
ghost use Rattle.pair_orbits.specs.Laws.{OfListedPairs, SumsOverOrbits, SizesOverOrbits};

/// Each pair of elements that commute is conjugate to exactly one listed pair, which is the least of its conjugates; the list ascends, and
/// the weight of a pair is the number of its conjugates.
pub fn listing_laws()
    ensures commute { OfListedPairs AreCommuting }
    ensures least { OfListedPairs AreLeast }
    ensures cover { OfListedPairs CoverCommuting }
    ensures unique { OfListedPairs AreListedOnce }
    ensures ascend { OfListedPairs Ascend }
    ensures weights { OfListedPairs HoldWeights }
{}

/// A sum over all pairs of elements that commute, of what is the same at all conjugates of a pair, is the sum over the listed pairs, each as
/// often as its weight says. The same holds of listed sums of values of the cyclotomic ring, with the places where they overflow.
pub fn sum_laws()
    ensures sums { SumsOverOrbits }
    ensures sizes { SizesOverOrbits }
    ensures formed { FormedOverOrbits }
{}
