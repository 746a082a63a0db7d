//! The list of all central characters of a twist modulo a prime, as a value of the twist and the prime.
#![tactic(auto)]

ghost use Rattle.character_lists.specs.Laws.{OneList, ListsCharacters};

use prime_field::ModRing;

/// The lists of residues that pass the test of a central character are all central characters, each once and in ascending order, as many
/// as the rank; and no other list of lists is so.
pub fn character_list_laws(ring: &ModRing)
    ensures one { OneList ring.now }
    ensures listed { ListsCharacters ring.now }
{}
