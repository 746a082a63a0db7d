//! Laws of fusion numbers.

ghost use Rattle.transport.specs.Headline.{OfAllSimples};
ghost use Rattle.fusion.specs.Laws.{NumbersAreFound, NumbersAreOfSums};

/// A fusion sum that is the order of the group times a number has that fusion number and no fault; and one that has no fault is the order
/// of the group times its fusion number.
pub fn number_laws()
    ensures found { OfAllSimples NumbersAreFound }
    ensures sums { OfAllSimples NumbersAreOfSums }
{}
