//! Groups of units, as a trait.

ghost use Rattle.std.specs.Prelude.{◌≡◌};
ghost use Rattle.algebra.specs.Structures.{CommGroup};

/// A commutative group of units, written as a product.
///
/// Each element stands for one of an abstract commutative group, whose laws are the fields of
/// `group`.
pub trait UnitGroup: Copy {
    // what has to hold for an element to exist
    ghost CanOne: { Type 0 };

    ghost Carrier: { Type 0 };

    ghost group: { CanOne → CommGroup Carrier };

    ghost can: { Self → CanOne };

    ghost of: { Self → Carrier };

    /// The unit. It asks the condition under which the group has elements.
    fn one() -> Self
        requires { CanOne }
        ensures { (h : CanOne) → of result ≡ (group h).unit };

    /// The product of two elements.
    fn compose(self, other: Self) -> Self
        ensures { (h : CanOne) → of result ≡ (group h).op (of self) (of other) };

    /// The inverse.
    fn inverse(self) -> Self
        ensures { (h : CanOne) → of result ≡ (group h).inv (of self) };

    // two elements that stand for the same are one
    ghost same: { (x y : Self) → of x ≡ of y → x ≡ y };
}
