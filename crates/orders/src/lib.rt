//! Powers in a finite group whose elements are the numbers below its size: the order of an element, the exponent of the group, and
//! Lagrange's theorem for the powers of an element.
//!
//! The definitions stand in `specs/Group.antt` and `specs/Order.antt`, and the laws in `specs/Laws.antt`. Each function here does
//! nothing, and has laws as its contract.
#![tactic(auto)]

ghost use Rattle.orders.specs.Laws.{PowerBelow, PowerOne, PowerOfSum, PowerOfProduct, PowerOfUnit, PowerOfRemainder};
ghost use Rattle.orders.specs.Laws.{InverseOnLeft, InverseUnique, CancelLeft, CancelRight};
ghost use Rattle.orders.specs.Laws.{OrderFound, OrderIsLeast, OrderUnique, OrderAtMostSize, OrderDivides, PowersDiffer};
ghost use Rattle.orders.specs.Laws.{Lagrange, PowerOfSize};
ghost use Rattle.orders.specs.Laws.{ExponentFound, ExponentIsLeast, ExponentUnique, ExponentAtMostSize, ExponentDivides};
ghost use Rattle.orders.specs.Laws.{ExponentDividesSize, OrderDividesExponent, ExponentDividesMultiple};
ghost use Rattle.orders.specs.Instances.{CyclicOrders, SymmetricGroup, SymmetricOrders};

/// The laws of powers: of a sum, a product and a remainder of exponents, and of the identity.
pub fn power_laws()
    ensures below { PowerBelow }
    ensures one { PowerOne }
    ensures of_sum { PowerOfSum }
    ensures of_product { PowerOfProduct }
    ensures of_unit { PowerOfUnit }
    ensures of_remainder { PowerOfRemainder }
{}

/// A right inverse is a left inverse, an element has one inverse, and a factor on either side cancels.
pub fn inverse_laws()
    ensures on_left { InverseOnLeft }
    ensures unique { InverseUnique }
    ensures cancel_left { CancelLeft }
    ensures cancel_right { CancelRight }
{}

/// The order of an element is found from 1 to the size of the group, is the least number that gives the identity, and divides
/// exactly those that do.
#[tactic(auto, using(crate::proofs::Exponents::order_found, crate::proofs::Exponents::order_is_least, crate::proofs::Exponents::order_unique, crate::proofs::Exponents::order_at_most_size, crate::proofs::Exponents::order_divides, crate::proofs::Exponents::powers_differ))]
pub fn order_laws()
    ensures found { OrderFound }
    ensures least { OrderIsLeast }
    ensures unique { OrderUnique }
    ensures at_most_size { OrderAtMostSize }
    ensures divides { OrderDivides }
    ensures powers_differ { PowersDiffer }
{}

/// Lagrange's theorem for the powers of an element: its order divides the size of the group, so that power is the identity.
#[tactic(auto, using(crate::proofs::Exponents::lagrange, crate::proofs::Exponents::power_of_size))]
pub fn lagrange()
    ensures order_divides_size { Lagrange }
    ensures power_of_size { PowerOfSize }
{}

/// The exponent is found from 1 to the size of the group, is the least number that gives the identity for each element, and divides
/// exactly those that do; it is the least common multiple of the orders.
#[tactic(auto, using(crate::proofs::Exponents::exponent_found, crate::proofs::Exponents::exponent_is_least, crate::proofs::Exponents::exponent_unique, crate::proofs::Exponents::exponent_at_most_size, crate::proofs::Exponents::exponent_divides, crate::proofs::Exponents::exponent_divides_size, crate::proofs::Exponents::order_divides_exponent, crate::proofs::Exponents::exponent_divides_multiple))]
pub fn exponent_laws()
    ensures found { ExponentFound }
    ensures least { ExponentIsLeast }
    ensures unique { ExponentUnique }
    ensures at_most_size { ExponentAtMostSize }
    ensures divides { ExponentDivides }
    ensures divides_size { ExponentDividesSize }
    ensures order_divides { OrderDividesExponent }
    ensures divides_multiple { ExponentDividesMultiple }
{}

/// Worked values: orders in addition modulo 6; the permutations of three points are a group, with two of its orders and its exponent.
pub fn instances()
    ensures cyclic { CyclicOrders }
    ensures symmetric_group { SymmetricGroup }
    ensures symmetric_orders { SymmetricOrders }
{}
