//! The laws of a closed day, as the contracts of calls that do nothing.
ghost use Rattle.cns_account.specs.Laws.{MovesAddUp, PlacesAreWhole};

/// Of the lines of movements, those at a place are all that movements booked there, each once.
#[tactic(auto, using(crate::proofs::AtPlaces::places_are_whole))]
pub fn places_are_whole()
    ensures { PlacesAreWhole }
{}

/// What moved a position on a day takes it from its opening to its closing, and its cents are the settling money; with the price
/// change it comes to the mark.
pub fn moves_add_up()
    ensures { MovesAddUp }
{}
