// The number of the last notice of each member in each issue.
ghost use Rattle.std.specs.Prelude.{◌≡◌, OnOk, OnErr, [], Some, if◌then◌else◌};
ghost use Rattle.std.specs.List.{All};
ghost use Rattle.std.specs.Ordering.{is_eq};
ghost use Rattle.cns_notices.specs.Latest.{number_at, Place, place_cmp, in_issue, shown};

use cns_terms::NoMemory;
use cns_units::{Cusip, Member};
use std::alloc::Allocator;
use std::collections::BTreeMap;
use std::collections::btree_map::Range;
use std::marker::Model;

/// An issue, and the number of a member: the numbers of an issue are a range.
pub type Place = (Cusip, u16);

/// The number of the last notice of each member in each issue. None is ever removed, so that only a notice takes memory.
///
/// The map is made with the first number: making it needs a copy of an allocator, which can be refused.
#[derive(Drop)]
pub struct Latest<A: Allocator + Drop> {
    numbers: Option<BTreeMap<Place, u32, A>>,
}

impl<A: Allocator + Drop> Model for Latest<A> {
    ghost use Rattle.cns_notices.specs.Latest.{HaveSmallMembers, Numbers, numbers_of};

    ghost Value = { Numbers };

    ghost view = { λ l. numbers_of l.numbers };

    ghost invariant = { λ l. HaveSmallMembers (numbers_of l.numbers) };
}

impl<A: Allocator + Drop> Latest<A> {
    /// No notice was given yet.
    pub fn new() -> Self
        ensures { result ≡ [] }
    {
        Latest { numbers: None }
    }

    /// The number of the member's last notice in the issue.
    pub fn number(&self, member: Member, cusip: Cusip) -> Option<u32>
        ensures { result ≡ number_at self.now (cusip, member) }
    {
        let numbers = self.numbers.as_ref()?;
        numbers.get(&(cusip, member.value())).copied()
    }

    /// The numbers of the last notices of the members in an issue. None where no notice was ever given.
    pub fn of_issue(&self, cusip: Cusip) -> Option<Range<'_, Place, u32>>
        ensures all { shown result ≡ in_issue cusip self.now }
        ensures found { All (λ e. number_at self.now e.0 ≡ Some e.1) (shown result) }
    {
        let numbers = self.numbers.as_ref()?;
        Some(numbers.range((cusip, u16::MIN)..=(cusip, u16::MAX)))
    }

    /// Puts a number at the member and the issue, in the place of one that is there. Where memory is refused, or a copy of
    /// the allocator, the numbers stay as they were.
    pub fn put(
        &mut self,
        alloc: &A,
        member: Member,
        cusip: Cusip,
        number: u32,
    ) -> Result<(), NoMemory>
    where
        A: Clone,
        ensures ok { OnOk result
            ((p : Place) → number_at self.new p
            ≡ (if is_eq (place_cmp (cusip, member) p) then Some number else number_at self.old p)) }
        ensures err { OnErr result (self.new ≡ self.old) }
    {
        let mut numbers = match self.numbers.take() {
            Some(numbers) => numbers,
            None => BTreeMap::new(alloc.clone()?),
        };
        let inserted = numbers.insert((cusip, member.value()), number);
        self.numbers = Some(numbers);
        match inserted {
            Ok(_) => Ok(()),
            Err(_) => Err(NoMemory),
        }
    }
}
