//! Phases of a normalised 3-cocycle by the slant product, and the twisted centralisers that it gives.
#![tactic(auto)]

ghost use Rattle.slant.specs.Laws.{PhasesBelow, ThetaNormalised, GammaNormalised, ThetaAssociative, ThetaGammaCompatible, GammaIsTheta, ThetaAtItself, ThetaProductIndex};
ghost use Rattle.slant.specs.Laws.{TransportPhasesInverse, TransportPhaseOfItself, TransportPhaseComposes, TransportPhaseBack, TransportIsAlgebraMap, GammaTransport, KappaComposes, KappaIsTransport};
ghost use Rattle.slant.specs.TwistLaws.{CentraliserIsTwist, ElementsCommute, ProductsAgree, IdentitiesAgree, InversesAgree, PhasesAgree, KappasAgree};

mod centraliser;
mod slant_product;

pub use centraliser::twist_at;
pub use slant_product::{gamma, theta};

/// Every phase is an exponent below the number of roots; the slant product and the coproduct phase are 0 where an argument or the index
/// is the identity.
pub fn phase_values()
    ensures below { PhasesBelow }
    ensures theta { ThetaNormalised }
    ensures gamma { GammaNormalised }
{}

/// The laws of the slant product and the coproduct phase.
pub fn theta_laws()
    ensures associative { ThetaAssociative }
    ensures compatible { ThetaGammaCompatible }
    ensures gamma { GammaIsTheta }
    ensures at_itself { ThetaAtItself }
    ensures product_index { ThetaProductIndex }
{}

/// The laws of the phases by which the algebra of an element is carried to that of a conjugate.
pub fn transport_laws()
    ensures inverse { TransportPhasesInverse }
    ensures of_itself { TransportPhaseOfItself }
    ensures composes { TransportPhaseComposes }
    ensures back { TransportPhaseBack }
    ensures algebra_map { TransportIsAlgebraMap }
    ensures gamma { GammaTransport }
{}

/// The laws of the phases by which the elements of the algebra of `a` conjugate one another.
pub fn kappa_laws()
    ensures composes { KappaComposes }
    ensures transport { KappaIsTransport }
{}

/// The centraliser of an element, with the slant product at it, is a group of elements with a normalised 2-cocycle.
pub fn centraliser_laws()
    ensures twist { CentraliserIsTwist }
    ensures elements { ElementsCommute }
    ensures products { ProductsAgree }
    ensures identity { IdentitiesAgree }
    ensures inverses { InversesAgree }
    ensures phases { PhasesAgree }
    ensures kappa { KappasAgree }
{}
