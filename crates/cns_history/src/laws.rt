//! The law of a history, as the contract of a call that does nothing.
ghost use Rattle.cns_history.specs.Laws.{SharesAddUp};

/// The shares of the lines of a history add up to the position that its records end with.
#[tactic(auto, using(crate::proofs::Adding::shares_add_up))]
pub fn shares_add_up()
    ensures { SharesAddUp }
{}
