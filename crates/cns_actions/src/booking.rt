// What is booked at a key.
ghost use Rattle.std.specs.Prelude.{◌≡◌};
ghost use Rattle.cns_actions.specs.Bookings.{booking};

use cns_terms::Entry;

/// An entry, and the age that an exchange brings to its key.
#[derive(Clone, Copy)]
pub(crate) struct Booking {
    pub entry: Entry,
    /// The greatest age of the account's short in the old issue; 0 where none is brought.
    pub carried: u32,
}

impl Booking {
    /// An entry that brings no age.
    pub fn of(entry: &Entry) -> Booking
        ensures { result ≡ booking entry.now 0 }
    {
        Booking {
            entry: *entry,
            carried: 0,
        }
    }
}
