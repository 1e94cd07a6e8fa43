// What is called at a close in each issue.
ghost use Rattle.std.specs.Prelude.{◌≡◌, [], ◌+◌, ◌^◌, ◌<◌, if◌then◌else◌, IfOk, OnErr, OnOk, IsSome, ◌↔◌, is_some, None, Some, option_map, true};
ghost use Rattle.std.specs.Cmp.Lexicographic.{slice_cmp};
ghost use Rattle.std.specs.FinMap.{is_sorted};
ghost use Rattle.std.specs.List.{AllByRecursion};
ghost use Rattle.std.specs.Option.{ForSome};
ghost use Rattle.std.specs.Ordering.{nat_cmp};
ghost use Rattle.cns_terms.specs.Sums.{same_issue};
ghost use Rattle.cns_units.specs.declared.cusip.Cusip.{Cusip};
ghost use Rattle.cns_retransmit.specs.Calls.{batches_of, called_in, CanBeChosen, shorts_in, total_in, with_short};
ghost use Rattle.cns_retransmit.specs.Days.{RiseByIssue};

use crate::Batch;
use crate::called::Called;
use cns_terms::{NoMemory, Short};
use cns_units::Cusip;
use std::alloc::Allocator;
use std::collections::BTreeMap;
use std::collections::btree_map::Iter;
use std::marker::Model;

/// What the notices of a day call for at its close, in each issue, and who is short there. Contracts see the list of
/// issues in the order of their bytes, each with the shares that are called and with the shorts.
///
/// First `call` each notice of the day, with what remains of it; then give each `short` of the close; then `choose`.
#[derive(Drop)]
pub struct Calls<A: Allocator + Drop> {
    alloc: A,
    issues: BTreeMap<Cusip, Called<A>, A>,
}

impl<A: Allocator + Drop> Model for Calls<A> {
    ghost use Rattle.std.specs.Prelude.{List};
    ghost use Rattle.cns_units.specs.declared.cusip.Cusip.{Cusip};
    ghost use Rattle.cns_retransmit.specs.Calls.{CalledIn};

    ghost Value = { List (Cusip × CalledIn) };

    ghost view = { λ c. c.issues.entries };
}

// Chooses the batches of the issues that an iterator has left.
fn choose_each<A: Allocator + Drop + Clone>(
    alloc: &A,
    issues: Iter<'_, Cusip, Called<A>>,
) -> Result<Vec<Batch<A>, A>, NoMemory>
    requires { AllByRecursion (λ e. CanBeChosen e.1) issues }
    ensures { IfOk result (λ v. v.items ≡ batches_of issues.entry) }
{
    let mut batches = Vec::new(alloc.clone()?);
    for (issue, called) in issues {
        let Some(batch) = called.choose(alloc.clone()?, *issue)? else {
            continue;
        };
        batches.push(batch)?;
    }
    Ok(batches)
}

impl<A: Allocator + Drop + Clone> Calls<A> {
    /// Nothing is called yet. `NoMemory` where the allocator could not be copied.
    pub fn new(alloc: A) -> Result<Self, NoMemory>
        ensures { IfOk result (λ c. c ≡ []) }
    {
        Ok(Calls {
            issues: BTreeMap::new(alloc.clone()?),
            alloc,
        })
    }

    // Calls shares in an issue in which nothing is called yet.
    fn open(&mut self, issue: Cusip, shares: u64) -> Result<(), NoMemory>
        ensures ok { OnOk result
            ((c : Cusip) → called_in self.new c
            ≡ (if same_issue issue c then Some (record { total = shares; shorts = [] }) else called_in self.old c)) }
        ensures err { OnErr result (self.new ≡ self.old) }
    {
        let called = Called::new(self.alloc.clone()?, shares);
        self.issues.insert(issue, called)?;
        Ok(())
    }

    /// Whether nothing is called in any issue. It takes no memory.
    pub fn is_empty(&self) -> bool
        ensures { (result ≡ true) ↔ (self.now ≡ []) }
    {
        self.issues.is_empty()
    }

    /// Whether anything is called in an issue. It takes no memory.
    pub fn is_called(&self, issue: Cusip) -> bool
        ensures { result ≡ is_some (called_in self.now issue) }
    {
        self.issues.contains_key(&issue)
    }

    /// Calls for so many shares more in an issue: what remains of a notice. Together they have to fit 64 bits. Only the
    /// first call in an issue asks for memory.
    ///
    /// `NoMemory` where an allocation or the copy of the allocator failed, and then nothing changes.
    pub fn call(&mut self, issue: Cusip, shares: u64) -> Result<(), NoMemory>
        requires fits { total_in self.old issue + shares < 2 ^ 64 }
        ensures ok { OnOk result
            ((c : Cusip) → called_in self.new c
            ≡ (if same_issue issue c then Some
            (record { total = total_in self.old issue + shares; shorts = shorts_in self.old issue })
            else called_in self.old c)) }
        ensures first { OnErr result (called_in self.old issue ≡ None) }
        ensures err { OnErr result (self.new ≡ self.old) }
    {
        if let Some(called) = self.issues.get_mut(&issue) {
            called.add(shares);
            return Ok(());
        }
        self.open(issue, shares)
    }

    /// Adds a short of the close after the others in its issue, where something is called there; where nothing is, nothing
    /// changes and no memory is asked for.
    ///
    /// `NoMemory` where an allocation failed, and then nothing changes.
    #[tactic(auto, using(std::proofs::lemmas::Map::Steps::set_value_same))]
    pub fn short(&mut self, issue: Cusip, short: Short) -> Result<(), NoMemory>
        ensures ok { OnOk result
            ((c : Cusip) → called_in self.new c
            ≡ (if same_issue issue c then option_map (with_short short)
            (called_in self.old c) else called_in self.old c)) }
        ensures called { OnErr result (IsSome (called_in self.old issue)) }
        ensures err { OnErr result (self.new ≡ self.old) }
    {
        let Some(called) = self.issues.get_mut(&issue) else {
            return Ok(());
        };
        called.push(short)
    }

    /// Chooses who is liable in each issue, as `Batch::choose` does: the batches in the order of their issues, without
    /// those in which nobody is liable. In no issue may a member stand twice among the shorts, and together they have to be
    /// below 2^63 shares.
    ///
    /// `NoMemory` where an allocation or a copy of the allocator failed.
    #[tactic(auto, using(std::proofs::lemmas::Cmp::nat_list_cmp_total, cns_terms::proofs::Finds::sorted_from, crate::proofs::Calling::batches_rise))]
    pub fn choose(&self) -> Result<Vec<Batch<A>, A>, NoMemory>
        requires { (c : Cusip) → ForSome (called_in self.now c) CanBeChosen }
        ensures batches { IfOk result (λ v. v.items ≡ batches_of self.now) }
        ensures rise { IfOk result (λ v. RiseByIssue v.items) }
        ensures order { OnOk result (is_sorted (slice_cmp nat_cmp) self.now ≡ true) }
    {
        choose_each(&self.alloc, self.issues.iter())
    }
}
