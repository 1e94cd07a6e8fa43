// The declared dividends, in the order in which they are paid.
ghost use Rattle.std.specs.Prelude.{◌≡◌, ◌^◌, ◌<◌, [], length, OnOk, OnErr};
ghost use Rattle.std.specs.List.{filter};
ghost use Rattle.cns_terms.specs.Dividends.{is_due, pays_before};
ghost use Rattle.cns_terms.specs.Sums.{put};

use cns_terms::{Declared, NoMemory};
use cns_units::{Cusip, Day, Rate};
use std::alloc::Allocator;
use std::collections::BTreeMap;
use std::collections::btree_map::Range;
use std::marker::Model;
use std::ops::Bound;

// Where a dividend stands: its payable date, and how many were declared before it.
type Place = (Day, usize);

/// The declared dividends. Contracts see the list of them in the order in which they are paid: by payable date, and those
/// of one date in the order of declaration. None is ever removed.
#[derive(Drop)]
pub struct Dividends<A: Allocator + Drop> {
    placed: BTreeMap<Place, Declared, A>,
}

impl<A: Allocator + Drop> Model for Dividends<A> {
    ghost use Rattle.std.specs.Prelude.{List, length};
    ghost use Rattle.cns_terms.specs.declared.action.Declared.{Declared};
    ghost use Rattle.cns_dividends.specs.Placed.{AreBelow, dividends_of};

    ghost Value = { List Declared };

    ghost view = { λ d. dividends_of d.placed.entries };

    ghost invariant = { λ d. AreBelow (length d.placed.entries) d.placed.entries };
}

impl<A: Allocator + Drop> Dividends<A> {
    /// No dividend is declared yet. It takes no memory.
    pub fn new(alloc: A) -> Self
        ensures { result ≡ [] }
    {
        Dividends {
            placed: BTreeMap::new(alloc),
        }
    }

    /// Declares a dividend in an issue, of so many millionths of a dollar for each share: who holds shares at the close of
    /// the record date is paid at the first close on or after the payable date (NSCC Procedure VII). Two declarations that
    /// are alike are two dividends. Any dates are taken; the caller looks at them before.
    ///
    /// `NoMemory` where memory is refused, and then the dividends stay as they were.
    pub fn declare(
        &mut self,
        cusip: Cusip,
        recorded: Day,
        payable: Day,
        rate: Rate,
    ) -> Result<(), NoMemory>
    where
        A: Clone,
        ensures ok { OnOk result
            (self.new ≡ put pays_before
            (record { issue = cusip; recorded = recorded; payable = payable; rate = rate }) self.old) }
        ensures err { OnErr result (self.new ≡ self.old) }
    {
        let place = (payable, self.placed.len());
        let declared = Declared {
            issue: cusip,
            recorded,
            payable,
            rate,
        };
        self.placed.insert(place, declared)?;
        Ok(())
    }

    /// The dividends that the close of `this` day pays: those that are payable by then, and were not by the day of the
    /// `last` close, which is None before the first. They come in the order in which they are paid. It takes no memory, and
    /// costs a search and a step for each of them.
    pub fn due(&self, last: Option<Day>, this: Day) -> Due<'_>
        ensures due { result ≡ filter (is_due last this) self.now }
        ensures fits { length result < 2 ^ 63 }
    {
        // No dividend has this number, so a place with it lies behind all of its day.
        let number = self.placed.len();
        // A search may not begin behind its end; where the last close is not before this one, nothing is due.
        let start = match last {
            Some(day) => Bound::Excluded((day.min(this), number)),
            None => Bound::Unbounded,
        };
        let end = Bound::Included((this, number));
        Due {
            placed: self.placed.range((start, end)),
        }
    }
}

/// An iterator over the dividends that a close pays. Contracts see those that it has left.
#[derive(Drop)]
pub struct Due<'a> {
    placed: Range<'a, Place, Declared>,
}

impl<'a> Model for Due<'a> {
    ghost use Rattle.std.specs.Prelude.{List};
    ghost use Rattle.cns_terms.specs.declared.action.Declared.{Declared};
    ghost use Rattle.cns_dividends.specs.Placed.{dividends_of};

    ghost Value = { List Declared };

    ghost view = { λ d. dividends_of d.placed };
}

impl<'a> Iterator for Due<'a> {
    ghost use Rattle.std.specs.Iterator.{YieldsFirst, item_count};

    type Item = Declared;

    ghost next_gives = { YieldsFirst (λ d. d) };

    ghost remaining = { item_count (λ d. d) };

    fn next(&mut self) -> Option<Declared> {
        let (_place, declared) = self.placed.next()?;
        Some(*declared)
    }
}
