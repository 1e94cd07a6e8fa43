// The map of issues.
ghost use Rattle.std.specs.Prelude.{◌≡◌, ◌||◌, IfOk, OnOk, OnErr, Option, Some, None, bytes_eq, if◌then◌else◌, false, MatchOption, [], ◌∷◌, IsSome, true};
ghost use Rattle.std.specs.FinMap.{is_sorted};
ghost use Rattle.std.specs.Ordering.{nat_cmp};
ghost use Rattle.std.specs.Cmp.Lexicographic.{slice_cmp};
ghost use Rattle.cns_units.specs.declared.cusip.Cusip.{Cusip};
ghost use Rattle.cns_prices.specs.Listed.{price_in, retired_in, quote_in, listed_above, Quotes};

use cns_terms::NoMemory;
use cns_units::{Cusip, Price};
use std::alloc::Allocator;
use std::collections::BTreeMap;
use std::marker::Model;
use std::ops::Bound;

/// What is known of a listed issue.
#[derive(Clone, Copy)]
pub struct Quote {
    /// The price last set, in cents.
    pub price: Price,
    /// Whether the issue is retired for good.
    pub retired: bool,
}

/// The listed issues with their prices, in the order of the bytes of their CUSIPs.
#[derive(Drop)]
pub struct Prices<A: Allocator + Drop> {
    issues: BTreeMap<Cusip, Quote, A>,
}

impl<A: Allocator + Drop> Model for Prices<A> {
    ghost use Rattle.cns_prices.specs.Listed.{Listed};

    ghost Value = { Listed };

    ghost view = { λ p. p.issues.entries };
}

impl<A: Allocator + Drop> Prices<A> {
    /// No issue is listed yet. It takes no memory.
    pub fn new(alloc: A) -> Self
        ensures price { (c : Cusip) → price_in result c ≡ None }
        ensures retired { (c : Cusip) → retired_in result c ≡ false }
    {
        Prices {
            issues: BTreeMap::new(alloc),
        }
    }

    /// What is known of an issue; None where it is not listed.
    pub fn quote(&self, cusip: Cusip) -> Option<Quote>
        ensures { result ≡ quote_in self.now cusip }
    {
        self.issues.get(&cusip).copied()
    }

    /// The price of an issue in cents; None where it is not listed.
    pub fn price(&self, cusip: Cusip) -> Option<Price>
        ensures { result ≡ price_in self.now cusip }
    {
        self.quote(cusip).map(|quote| quote.price)
    }

    /// Whether the issue is retired.
    pub fn is_retired(&self, cusip: Cusip) -> bool
        ensures { result ≡ retired_in self.now cusip }
    {
        match self.quote(cusip) {
            Some(quote) => quote.retired,
            None => false,
        }
    }

    /// Lists an issue with its first price. Where memory is refused the issues stay as they were.
    pub fn list(&mut self, cusip: Cusip, price: Price) -> Result<(), NoMemory>
    where
        A: Clone,
        requires { price_in self.old cusip ≡ None }
        ensures price { OnOk result
            ((c : Cusip) → price_in self.new c ≡ (if bytes_eq cusip c then Some price else price_in self.old c)) }
        ensures retired { OnOk result ((c : Cusip) → retired_in self.new c ≡ retired_in self.old c) }
        ensures err { OnErr result (self.new ≡ self.old) }
    {
        let quote = Quote {
            price,
            retired: false,
        };
        self.issues.insert(cusip, quote)?;
        Ok(())
    }

    // Puts another quote at an issue that is listed: a key that is there keeps its place, so no memory is asked for.
    fn requote(&mut self, cusip: Cusip, quote: Quote)
    where
        A: Clone,
        requires { IsSome (quote_in self.old cusip) }
        ensures { Quotes self.old self.new cusip quote }
    {
        let _ = self.issues.insert(cusip, quote);
    }

    /// Sets the price of an issue that is listed and not retired. It takes no memory.
    pub fn set(&mut self, cusip: Cusip, price: Price)
    where
        A: Clone,
        requires listed { IsSome (price_in self.old cusip) }
        requires current { retired_in self.old cusip ≡ false }
        ensures price { (c : Cusip) → price_in self.new c
            ≡ (if bytes_eq cusip c then Some price else price_in self.old c) }
        ensures retired { (c : Cusip) → retired_in self.new c ≡ retired_in self.old c }
    {
        let current = Quote {
            price,
            retired: false,
        };
        self.requote(cusip, current);
    }

    /// Retires an issue that is listed and not retired, for good; its price stays. It takes no memory.
    pub fn retire(&mut self, cusip: Cusip)
    where
        A: Clone,
        requires listed { IsSome (price_in self.old cusip) }
        requires current { retired_in self.old cusip ≡ false }
        ensures price { (c : Cusip) → price_in self.new c ≡ price_in self.old c }
        ensures retired { (c : Cusip) → retired_in self.new c ≡ (bytes_eq cusip c || retired_in self.old c) }
    {
        if let Some(quote) = self.quote(cusip) {
            let price = quote.price;
            self.requote(
                cusip,
                Quote {
                    price,
                    retired: true,
                },
            );
        }
    }

    /// The first listed issue above another, or the first of all, with its price; retired ones too.
    #[tactic(auto, using(std::proofs::lemmas::Cmp::nat_list_cmp_total, cns_terms::proofs::Finds::sorted_from, crate::proofs::Next::next_listed, crate::proofs::Next::start_of))]
    pub fn next_listed(&self, after: Option<Cusip>) -> Option<(Cusip, Price)>
        ensures next { MatchOption result (listed_above self.now after ≡ [])
            (λ e. listed_above self.now after ≡ e ∷ listed_above self.now (Some e.0)) }
        ensures order { is_sorted (slice_cmp nat_cmp) self.now ≡ true }
    {
        let start = match after {
            Some(low) => Bound::Excluded(low),
            None => Bound::Unbounded,
        };
        let (cusip, quote) = self.issues.range((start, Bound::Unbounded)).next()?;
        Some((*cusip, quote.price))
    }
}
