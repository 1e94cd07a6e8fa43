// Steps on an empty map.
ghost use Rattle.std.specs.Prelude.{◌≡◌, ◌+ℤ◌, ◌++◌, IfOk, OnOk, FitsSigned};
ghost use Rattle.std.specs.Int.{w64, w128};
ghost use Rattle.cns_terms.specs.declared.holding.Key.{Key};
ghost use Rattle.cns_positions.specs.Rows.{booked, entry_of, holding_at};
ghost use Rattle.cns_positions.specs.Steps.{StepFits, SumsFit, after_step, nowhere, replies, reply_to};

use crate::positions::Positions;
use cns_terms::{Holding, Key, NoMemory};
use std::alloc::Allocator;

/// A step on a map.
#[derive(Clone, Copy)]
pub enum Step {
    /// Asks what stands at a key.
    Get(Key),
    /// Books shares and cents at a key.
    Add { key: Key, shares: i64, cents: i128 },
    /// Closes a day.
    Roll,
}

// Makes room for a key and books there.
fn add<P: Positions<A>, A>(
    positions: &mut P,
    key: &Key,
    shares: i64,
    cents: i128,
) -> Result<(), NoMemory>
    requires shares_fit { FitsSigned w64 ((holding_at (P.rows positions.old) key.now).now +ℤ shares) }
    requires cents_fit { FitsSigned w128 ((holding_at (P.rows positions.old) key.now).contract +ℤ cents) }
    ensures { OnOk result
        ((k : Key) → holding_at (P.rows positions.new) k
        ≡ booked (entry_of key.now shares cents) k (holding_at (P.rows positions.old) k)) }
{
    positions.prepare(&[*key])?;
    positions.add(*key, shares, cents);
    Ok(())
}

// Takes a step, and notes the reply to a Get.
fn take_step<P: Positions<A>, A, B: Allocator + Drop>(
    positions: &mut P,
    holdings: &mut Vec<Holding, B>,
    step: &Step,
) -> Result<(), NoMemory>
    requires { StepFits (holding_at (P.rows positions.old)) step.now }
    ensures map { OnOk result
        ((k : Key) → holding_at (P.rows positions.new) k ≡ after_step (holding_at (P.rows positions.old)) step.now k) }
    ensures reply { OnOk result
        (holdings.new.items ≡ holdings.old.items ++ reply_to (holding_at (P.rows positions.old)) step.now) }
{
    match step {
        Step::Get(key) => {
            holdings.push(positions.get(*key))?;
        }
        Step::Add { key, shares, cents } => add(positions, key, *shares, *cents)?,
        Step::Roll => positions.roll(),
    }
    Ok(())
}

/// The replies to the Gets among steps on an empty map, whose Adds prepare their keys first.
///
/// Any form of positions gives the same replies. The sums at each key have to fit in what holds them; no more is asked.
/// `NoMemory` where an allocation failed.
#[tactic(auto, using(std::proofs::lemmas::Grind::common_steps), unfolding(crate::specs::Steps::replies))]
pub fn run<P: Positions<A>, A: Allocator + Clone + Drop>(
    alloc: A,
    steps: &[Step],
) -> Result<Vec<Holding, A>, NoMemory>
    requires { SumsFit nowhere steps.now }
    ensures { IfOk result (λ v. v.items ≡ replies nowhere steps.now) }
{
    let mut positions = P::new(alloc.clone()?);
    let mut holdings = Vec::new(alloc);
    for step in steps {
        take_step(&mut positions, &mut holdings, step)?;
    }
    Ok(holdings)
}
