// What is booked at several keys, made first and booked then.
ghost use Rattle.std.specs.Prelude.{◌≡◌, OnErr, OnOk, true};
ghost use Rattle.std.specs.FinMap.{is_sorted};
ghost use Rattle.cns_terms.specs.declared.holding.Key.{Key};
ghost use Rattle.cns_terms.specs.Keys.{entry_key, key_cmp};
ghost use Rattle.cns_positions.specs.Rows.{has_row, holding_at};
ghost use Rattle.cns_actions.specs.Booked.{CanBeBooked};
ghost use Rattle.cns_actions.specs.Bookings.{AreElsewhere, AreEntered, AreSmall, HasSpace, HaveSpace, IsSmall, by_key, made, makes};

use crate::booking::Booking;
use cns_positions::Positions;
use cns_terms::NoMemory;
use std::alloc::Allocator;
use std::marker::Model;

/// What a split, an exchange or a day's trades book: one booking at each key at most, in the order of keys.
///
/// They are made beside the positions, which don't change meanwhile. `enter` gives each key a row, and may find no memory for
/// it; `book` then only writes. Contracts see the list.
#[derive(Drop)]
pub struct Bookings<A: Allocator + Drop> {
    bookings: Vec<Booking, A>,
}

impl<A: Allocator + Drop> Model for Bookings<A> {
    ghost use Rattle.std.specs.Prelude.{List};
    ghost use Rattle.cns_actions.specs.Bookings.{AreOrdered};
    ghost use Rattle.cns_actions.specs.declared.booking.Booking.{Booking};

    ghost Value = { List Booking };

    ghost view = { λ b. b.bookings.items };

    ghost invariant = { λ b. AreOrdered b.bookings.items };
}

// Gives each key a row.
#[tactic(auto, using(crate::proofs::Making::elsewhere_at, crate::proofs::Making::others_stay))]
fn enter_all<P: Positions<A>, A>(positions: &mut P, bookings: &[Booking]) -> Result<(), NoMemory>
    ensures same { (k : Key) → holding_at (P.rows positions.new) k ≡ holding_at (P.rows positions.old) k }
    ensures there { OnOk result (AreEntered (P.rows positions.new) bookings.now) }
    ensures others { (k : Key) → AreElsewhere k bookings.now
        → has_row (P.rows positions.new) k ≡ has_row (P.rows positions.old) k }
{
    for booking in bookings {
        positions.enter(booking.entry.key())?;
    }
    Ok(())
}

// Books one: the opening and the age of the key's row stay.
#[tactic(auto, using(crate::proofs::Making::made_alone, crate::proofs::Making::cents_passed, crate::proofs::Making::shares_passed))]
fn book_one<P: Positions<A>, A>(positions: &mut P, booking: &Booking)
    requires there { has_row (P.rows positions.old) (entry_key booking.now.entry) ≡ true }
    requires space { HasSpace (holding_at (P.rows positions.old) (entry_key booking.now.entry)) }
    requires small { IsSmall booking.now.entry }
    ensures made { (k : Key) → holding_at (P.rows positions.new) k
        ≡ made booking.now k (holding_at (P.rows positions.old) k) }
    ensures places { (k : Key) → has_row (P.rows positions.new) k ≡ has_row (P.rows positions.old) k }
{
    let key = &booking.entry.key();
    positions.add(*key, booking.entry.shares, booking.entry.cents);
    if booking.carried > 0 {
        positions.carry(*key, booking.carried);
    }
}

// Books them, one after another. It takes no memory.
#[tactic(auto, using(cns_terms::proofs::Facts::left_first, crate::proofs::Making::makes_first, crate::proofs::Making::next_ready))]
fn book_all<P: Positions<A>, A>(positions: &mut P, bookings: &[Booking])
    requires there { AreEntered (P.rows positions.old) bookings.now }
    requires space { HaveSpace (P.rows positions.old) bookings.now }
    requires small { AreSmall bookings.now }
    requires rise { is_sorted key_cmp (by_key bookings.now) ≡ true }
    ensures made { (k : Key) → holding_at (P.rows positions.new) k
        ≡ makes bookings.now k (holding_at (P.rows positions.old) k) }
    ensures places { (k : Key) → has_row (P.rows positions.new) k ≡ has_row (P.rows positions.old) k }
{
    for booking in bookings {
        book_one(positions, booking);
    }
}

impl<A: Allocator + Drop> Bookings<A> {
    /// Bookings of small numbers in the order of their keys, one at each key at most.
    pub(crate) fn of(bookings: Vec<Booking, A>) -> Self
        requires small { AreSmall bookings.items }
        requires rise { is_sorted key_cmp (by_key bookings.items) ≡ true }
        ensures { result ≡ bookings.items }
    {
        Bookings { bookings }
    }

    /// Gives each key a row, so that `book` takes no memory. What stands at each key stays, and no other key gets a row.
    ///
    /// `NoMemory` where an allocation failed; rows of zeros that were made stay then.
    pub fn enter<P: Positions<B>, B>(&self, positions: &mut P) -> Result<(), NoMemory>
        ensures same { (k : Key) → holding_at (P.rows positions.new) k ≡ holding_at (P.rows positions.old) k }
        ensures there { OnOk result (AreEntered (P.rows positions.new) self.now) }
        ensures others { (k : Key) → AreElsewhere k self.now
            → has_row (P.rows positions.new) k ≡ has_row (P.rows positions.old) k }
    {
        enter_all(positions, self.bookings.as_slice())
    }

    /// Makes the bookings: each key gets its shares and cents, and the age that is brought where that is greater than what was
    /// brought before. Its opening and its own age stay, and so does every other key. It takes no memory, and no key gets a
    /// row.
    #[tactic(auto, using(std::proofs::lemmas::List::Elements::recursion_from_All, crate::proofs::BookingOrder::has_space))]
    pub fn book<P: Positions<B>, B>(&self, positions: &mut P)
        requires there { AreEntered (P.rows positions.old) self.now }
        requires within { CanBeBooked (P.rows positions.old) }
        ensures made { (k : Key) → holding_at (P.rows positions.new) k
            ≡ makes self.now k (holding_at (P.rows positions.old) k) }
        ensures places { (k : Key) → has_row (P.rows positions.new) k ≡ has_row (P.rows positions.old) k }
    {
        book_all(positions, self.bookings.as_slice());
    }

    /// Makes the bookings at once, as `enter` and `book` do: no key gets a row but theirs.
    ///
    /// `NoMemory` where an allocation failed, and then what stands at each key stays.
    pub fn make<P: Positions<B>, B>(&self, positions: &mut P) -> Result<(), NoMemory>
        requires { CanBeBooked (P.rows positions.old) }
        ensures ok { OnOk result ((k : Key) → holding_at (P.rows positions.new) k
            ≡ makes self.now k (holding_at (P.rows positions.old) k)) }
        ensures err { OnErr result ((k : Key) → holding_at (P.rows positions.new) k ≡ holding_at (P.rows positions.old) k) }
        ensures others { (k : Key) → AreElsewhere k self.now
            → has_row (P.rows positions.new) k ≡ has_row (P.rows positions.old) k }
    {
        self.enter(positions)?;
        self.book(positions);
        Ok(())
    }
}
