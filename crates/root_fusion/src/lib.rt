//! Fusion and indicators of simples whose values are sums of roots of unity: nothing that is formed on the way overflows.
#![tactic(auto)]

ghost use Rattle.transport.specs.Headline.{OfAllSimples};
ghost use Rattle.root_fusion.specs.FusionFit.{OfRootSimples, CharactersFit, CharactersAreRootSums, TensorProductsFit, FusionSumsFit};
ghost use Rattle.root_fusion.specs.IndicatorsFit.{SmallSumsFit, DimensionsAreSmall, SimplesAreFew, NumbersAreSmall, IndicatorsFit};
ghost use Rattle.root_fusion.specs.IndicatorValues.{IndicatorValues};
ghost use Rattle.root_fusion.specs.Overflows.{NumeratorsNeverOverflow, FusionNeverOverflows, PlanesAreNumbers};

/// Of the simples by good tables whose values are sums of roots of unity, in each row of a number whose square is at most the order of the
/// centraliser: no full character, no character of a tensor product and no fusion sum overflows.
pub fn root_fusion_laws()
    ensures characters { OfRootSimples CharactersFit }
    ensures roots { OfRootSimples CharactersAreRootSums }
    ensures tensor_products { OfRootSimples TensorProductsFit }
    ensures fusion_sums { OfRootSimples FusionSumsFit }
{}

/// Of the simples by any good tables: the dimensions and the fusion numbers are small, so that no sum of an indicator overflows; and its
/// value is that of the formula of Ng and Schauenburg (2007), a sum over all pairs of simples.
pub fn indicator_laws()
    ensures small { SmallSumsFit }
    ensures dimensions { OfAllSimples DimensionsAreSmall }
    ensures simples { OfAllSimples SimplesAreFew }
    ensures numbers { OfAllSimples NumbersAreSmall }
    ensures sums { OfAllSimples IndicatorsFit }
    ensures values { OfAllSimples IndicatorValues }
{}

/// So of simples as in `root_fusion_laws` neither `modular_st::s_matrix` nor `fusion::numbers` answers the site of a sum that overflows.
/// What `fusion::plane` reads off a web are the numbers that the sums of `indicator_laws` are formed of.
pub fn overflow_laws()
    ensures numerators { OfRootSimples NumeratorsNeverOverflow }
    ensures fusion_numbers { OfRootSimples FusionNeverOverflows }
    ensures planes { PlanesAreNumbers }
{}
