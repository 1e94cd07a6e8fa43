// What trades book once their date has come, added up by key.
ghost use Rattle.std.specs.Prelude.{◌≡◌, ◌≢◌, ◌≤◌, ◌^◌, [], None, length, map, IfOk, OnOk};
ghost use Rattle.std.specs.FinMap.{find};
ghost use Rattle.cns_terms.specs.declared.holding.Key.{Key};
ghost use Rattle.cns_terms.specs.Entries.{trade_entries};
ghost use Rattle.cns_terms.specs.Keys.{entry_key, key_cmp};
ghost use Rattle.cns_actions.specs.Bookings.{IsSmall};
ghost use Rattle.cns_actions.specs.DueAmounts.{AreAmounts, AreApartFrom, IsSmallAmount, HasRoomForTrade, IsOneTradeMore, amount_at, amount_for, due_entries, as_booking, with_entry, amount_of, with_amount};

use crate::booking::Booking;
use cns_terms::{Entry, Key, NoMemory, Pend};
use cns_units::Day;
use std::alloc::Allocator;
use std::collections::BTreeMap;
use std::marker::Model;

/// Shares and cents that are booked together at a key.
#[derive(Clone, Copy)]
pub(crate) struct Amount {
    pub shares: i64,
    pub cents: i128,
}

impl Amount {
    /// What is booked at a key that no entry names.
    pub const NONE: Amount = Amount {
        shares: 0,
        cents: 0,
    };

    /// With what one more entry books.
    #[tactic(auto, using(std::proofs::lemmas::Int::ints, crate::proofs::Making::cents_passed, crate::proofs::Making::shares_passed))]
    pub fn with(self, entry: &Entry) -> Amount
        requires room { IsSmallAmount self }
        requires small { IsSmall entry.now }
        ensures { result ≡ with_entry self entry.now }
    {
        Amount {
            shares: self.shares + entry.shares,
            cents: self.cents + entry.cents,
        }
    }

    /// As one entry, which brings no age.
    pub fn booking(self, key: &Key) -> Booking
        ensures { result ≡ as_booking (key.now, self) }
    {
        Booking::of(&Entry {
            account: key.account,
            issue: key.issue,
            shares: self.shares,
            cents: self.cents,
        })
    }
}

/// What entries book, by key. Contracts see the list of it, in the order of keys.
#[derive(Drop)]
pub(crate) struct DueAmounts<A: Allocator + Drop> {
    amounts: BTreeMap<Key, Amount, A>,
}

impl<A: Allocator + Drop> Model for DueAmounts<A> {
    ghost use Rattle.cns_actions.specs.DueAmounts.{AreAmounts, AmountsByKey};

    ghost Value = { AmountsByKey };

    ghost view = { λ s. s.amounts.entries };

    ghost invariant = { λ s. AreAmounts s.amounts.entries };
}

impl<A: Allocator + Drop + Clone> DueAmounts<A> {
    /// What the trades that are due on a day book. Where none is due it takes no memory.
    #[tactic(auto, using(crate::proofs::DueAmounts::all_booked, crate::proofs::DueAmounts::none_booked, crate::proofs::DueAmounts::room_left, std::proofs::lemmas::List::drop_all))]
    pub fn of(alloc: A, pending: &[Pend], next: Day) -> Result<Self, NoMemory>
        requires { length pending.now ≤ 2 ^ 32 }
        ensures amounts { IfOk result (λ s. (k : Key) → amount_at s k ≡ amount_of (due_entries next pending.now) k) }
        ensures others { IfOk result (λ s. (k : Key) → AreApartFrom k (due_entries next pending.now) → find key_cmp k s ≡ None) }
    {
        let mut amounts = DueAmounts::nothing(alloc);
        for pend in pending {
            if pend.is_due(next) {
                amounts.add_trade(pend)?;
            }
        }
        Ok(amounts)
    }

    // Nothing is booked. It takes no memory.
    fn nothing(alloc: A) -> Self
        ensures { result ≡ [] }
    {
        DueAmounts {
            amounts: BTreeMap::new(alloc),
        }
    }

    // Books a trade, for its buyer and for its seller.
    #[tactic(auto, using(std::proofs::lemmas::Result::on_ok_weaker, crate::proofs::DueAmounts::trade_sums))]
    fn add_trade(&mut self, pend: &Pend) -> Result<(), NoMemory>
        requires { (k : Key) → HasRoomForTrade (amount_at self.old k) }
        ensures sums { OnOk result ((k : Key)
            → amount_at self.new k ≡ with_amount (amount_at self.old k) (amount_of (trade_entries pend.now) k)) }
        ensures bound { OnOk result ((k : Key) → IsOneTradeMore (amount_at self.old k) (amount_at self.new k)) }
        ensures others { OnOk result ((k : Key) → AreApartFrom k (trade_entries pend.now)
            → find key_cmp k self.new ≡ find key_cmp k self.old) }
    {
        self.add(&pend.buyer_entry())?;
        self.add(&pend.seller_entry())
    }

    // Books an entry.
    fn add(&mut self, entry: &Entry) -> Result<(), NoMemory>
        requires small { IsSmall entry.now }
        requires room { IsSmallAmount (with_entry (amount_at self.old (entry_key entry.now)) entry.now) }
        ensures amounts { OnOk result ((k : Key)
            → amount_at self.new k ≡ with_amount (amount_at self.old k) (amount_for entry.now k)) }
        ensures others { OnOk result ((k : Key) → k ≢ entry_key entry.now → find key_cmp k self.new ≡ find key_cmp k self.old) }
    {
        let key = entry.key();
        let had = self.amounts.get(&key).copied().unwrap_or(Amount::NONE);
        self.amounts.insert(key, had.with(entry))?;
        Ok(())
    }

    /// What is booked, as one entry a key, from the lowest key on.
    pub fn bookings<B: Allocator + Drop>(&self, alloc: B) -> Result<Vec<Booking, B>, NoMemory>
        ensures bookings { IfOk result (λ v. v.items ≡ map as_booking self.now) }
        ensures amounts { AreAmounts self.now }
    {
        let mut bookings = Vec::new(alloc);
        let mut rest = self.amounts.iter();
        while let Some((key, amount)) = rest.next() {
            bookings.push(amount.booking(key))?;
        }
        Ok(bookings)
    }
}
