// The cents of dividends, handed out in the order of keys.
ghost use Rattle.std.specs.Prelude.{◌≡◌, ◌∷◌, [], MatchOption, Some, true};
ghost use Rattle.std.specs.FinMap.{is_sorted};
ghost use Rattle.std.specs.Option.{option_copied};
ghost use Rattle.cns_terms.specs.Keys.{key_cmp};
ghost use Rattle.cns_sheets.specs.Woven.{cents_at, higher, is_below, lower};

use cns_terms::Key;
use cns_units::Cents;
use std::collections::btree_map::Iter;
use std::marker::Model;

/// What is left of the cents by key that a map's iterator gives, the first of them read ahead.
#[derive(Drop)]
pub struct InOrder<'a> {
    next: Option<(Key, Cents)>,
    rest: Iter<'a, Key, Cents>,
}

impl<'a> Model for InOrder<'a> {
    ghost use Rattle.std.specs.Prelude.{◌≡◌, true};
    ghost use Rattle.std.specs.FinMap.{is_sorted};
    ghost use Rattle.cns_terms.specs.Keys.{key_cmp};
    ghost use Rattle.cns_sheets.specs.Woven.{CentsByKey, left_of};

    ghost Value = { CentsByKey };

    ghost view = { λ i. left_of i.next i.rest };

    ghost invariant = { λ i. is_sorted key_cmp (left_of i.next i.rest) ≡ true };
}

impl<'a> InOrder<'a> {
    /// All that a map's iterator gives.
    pub fn new(rest: Iter<'a, Key, Cents>) -> Self
        requires { is_sorted key_cmp rest ≡ true }
        ensures { result ≡ rest.entry }
    {
        let mut rest = rest;
        let next = first_of(&mut rest);
        InOrder { next, rest }
    }

    /// The next key with its cents, if it is below another; without one, the next of all.
    #[tactic(auto, using(cns_terms::proofs::Facts::and_left, crate::proofs::Weaving::none_lower))]
    pub fn next_below(&mut self, high: Option<&Key>) -> Option<(Key, Cents)>
        ensures { MatchOption result ((self.new ≡ self.old) × (lower (option_copied high.entry) self.old ≡ []))
            (λ e. (self.old ≡ e ∷ self.new) × (is_below (option_copied high.entry) e.0 ≡ true)) }
    {
        let (key, cents) = self.next?;
        if !is_below(high, &key) {
            return None;
        }
        self.next = first_of(&mut self.rest);
        Some((key, cents))
    }

    /// The cents of a key that has none below it, 0 where it has none. What is left are those of higher keys.
    pub fn take(&mut self, key: Key) -> Cents
        requires { lower (Some key) self.old ≡ [] }
        ensures cents { result ≡ cents_at self.old key }
        ensures left { self.new ≡ higher key self.old }
    {
        let Some((next, cents)) = self.next else {
            return Cents::ZERO;
        };
        if !next.is_same(&key) {
            return Cents::ZERO;
        }
        self.next = first_of(&mut self.rest);
        cents
    }
}

// Whether a key is below another, if there is one.
fn is_below(high: Option<&Key>, key: &Key) -> bool
    ensures { result ≡ is_below (option_copied high.entry) key.now }
{
    match high {
        Some(high) => key.cmp(high).is_lt(),
        None => true,
    }
}

// The first that an iterator gives.
fn first_of(rest: &mut Iter<'_, Key, Cents>) -> Option<(Key, Cents)>
    ensures { MatchOption result ((rest.old ≡ []) × (rest.new ≡ [])) (λ e. rest.old ≡ e ∷ rest.new) }
{
    let (key, cents) = rest.next()?;
    Some((*key, *cents))
}
