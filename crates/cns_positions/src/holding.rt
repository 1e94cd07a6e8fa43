// What bookings and closes make of a holding.
ghost use Rattle.std.specs.Prelude.{◌≡◌, ◌+ℤ◌, FitsSigned};
ghost use Rattle.std.specs.Int.{w64, w128};
ghost use Rattle.cns_positions.specs.Rows.{rolled, is_held, with_age};

use cns_terms::Holding;
use cns_units::Cents;

/// What a close makes of a holding: its position is the next day's opening, its cents are gone, and a short is one close
/// older than its age and than what exchanges brought on the day, up to the highest number that an age can have (NSCC
/// Rule 11; ages are this project's profile).
pub fn rolled(holding: Holding) -> Holding
    ensures { result ≡ rolled holding }
{
    Holding {
        now: holding.now,
        opening: holding.now,
        contract: Cents::ZERO,
        run: if holding.now < 0 {
            holding.oldest().saturating_add(1)
        } else {
            0
        },
        carried: 0,
    }
}

/// Books shares and cents in a holding.
pub(crate) fn add_to(holding: &mut Holding, shares: i64, cents: i128)
    requires shares_fit { FitsSigned w64 (holding.old.now +ℤ shares) }
    requires cents_fit { FitsSigned w128 (holding.old.contract +ℤ cents) }
    ensures { holding.new
        ≡ record holding.old { now = holding.old.now +ℤ shares; contract = holding.old.contract +ℤ cents } }
{
    holding.now += shares;
    holding.contract = Cents::of(holding.contract.value() + cents);
}

/// Brings the age of a short to a holding, where the greatest that came on the day stays.
pub(crate) fn carry_to(holding: &mut Holding, age: u32)
    ensures { holding.new ≡ with_age age holding.old }
{
    holding.carried = holding.carried.max(age);
}

/// Whether anything but zeros stands there.
pub(crate) fn is_held(holding: Holding) -> bool
    ensures { result ≡ is_held holding }
{
    holding.now != 0
        || holding.opening != 0
        || holding.contract != Cents::ZERO
        || holding.run != 0
        || holding.carried != 0
}
