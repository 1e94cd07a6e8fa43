// The members.
ghost use Rattle.std.specs.Prelude.{◌≡◌, ℕ, ◌||◌, ◌==◌, OnOk, OnErr, false};
ghost use Rattle.cns_book.specs.Members.{has_member};

use cns_terms::NoMemory;
use cns_units::Account;
use std::alloc::Allocator;
use std::marker::Model;

/// The accounts of the members: a mark at each account's number, up to the highest member's.
///
/// Every trade asks for two members, and there are at most 9,999.
#[derive(Drop)]
pub struct Members<A: Allocator + Drop> {
    marks: Vec<bool, A>,
}

impl<A: Allocator + Drop> Model for Members<A> {
    ghost use Rattle.std.specs.Prelude.{List, Bool};

    ghost Value = { List Bool };

    ghost view = { λ m. m.marks.items };
}

impl<A: Allocator + Drop> Members<A> {
    /// There is no member yet.
    pub fn new(alloc: A) -> Self
        ensures { (m : ℕ) → has_member result m ≡ false }
    {
        Members {
            marks: Vec::new(alloc),
        }
    }

    /// Whether the account is a member's.
    pub fn contains(&self, account: Account) -> bool
        ensures { result ≡ has_member self.now account }
    {
        match self.marks.as_slice().get(account.value() as usize) {
            Some(is_member) => *is_member,
            None => false,
        }
    }

    /// Adds a member's account. Where memory is refused the members stay as they were.
    pub fn insert(&mut self, account: Account) -> Result<(), NoMemory>
        ensures ok { OnOk result ((m : ℕ) → has_member self.new m ≡ ((account == m) || has_member self.old m)) }
        ensures err { OnErr result (self.new ≡ self.old) }
    {
        let place = account.value() as usize;
        if self.marks.len() <= place {
            self.marks.resize(place + 1, false)?;
        }
        self.marks[place] = true;
        Ok(())
    }
}
