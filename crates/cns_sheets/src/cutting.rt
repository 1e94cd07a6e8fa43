// Rows, cut from what stands at each key.
ghost use Rattle.std.specs.Prelude.{◌≡◌, ℤ, ◌∷◌, [], ◌++◌, IfOk, OnOk, true, unwrap_or, None, Some};
ghost use Rattle.std.specs.Cmp.Lexicographic.{slice_cmp};
ghost use Rattle.std.specs.FinMap.{is_sorted};
ghost use Rattle.std.specs.List.{AllByRecursion};
ghost use Rattle.std.specs.Option.{option_copied};
ghost use Rattle.std.specs.Ordering.{nat_cmp};
ghost use Rattle.cns_terms.specs.declared.holding.Key.{Key};
ghost use Rattle.cns_terms.specs.Keys.{key_cmp};
ghost use Rattle.cns_terms.specs.Sheets.{is_idle};
ghost use Rattle.cns_units.specs.declared.price.Price.{Price};
ghost use Rattle.cns_positions.specs.Rows.{Rows, held_above, last_of, present, zeros};
ghost use Rattle.cns_sheets.specs.Build.{HasSmallCents, IsMarked, priced_row};
ghost use Rattle.cns_sheets.specs.Woven.{cents_at, higher, lower, past, unheld, weave, woven_rows};

use crate::columns::Columns;
use crate::in_order::InOrder;
use crate::keyed::KeyedRows;
use crate::payments::Paid;
use crate::quotes::Quotes;
use cns_positions::{NextRows, Positions};
use cns_terms::{Holding, Key, NoMemory};
use cns_units::{Cents, Cusip, Price};
use std::alloc::Allocator;

// A price of an issue that may not be there.
fn or_zero(price: Option<Price>) -> Price
    ensures { result ≡ unwrap_or price 0 }
{
    price.unwrap_or(Price::ZERO)
}

// Whether the row of a holding and the cents of dividends says nothing, whatever the prices. A holding that is no more
// than an age makes such a row.
fn is_silent(holding: &Holding, dividend: Cents) -> bool
    ensures { (k : Key) (before : Price) (now : Price) → result
        ≡ is_idle (priced_row before now dividend (k, holding.entry.now)) }
{
    holding.opening == 0
        && holding.now == 0
        && holding.contract == Cents::ZERO
        && dividend == Cents::ZERO
}

// Puts the row of a holding and the cents of dividends after others, if it says something.
fn push_row<A: Allocator + Drop + Clone>(
    rows: &mut KeyedRows<A>,
    before: &mut Quotes,
    now: &mut Quotes,
    key: &Key,
    holding: &Holding,
    dividend: Cents,
) -> Result<(), NoMemory>
    requires small { HasSmallCents (key.now, holding.now) }
    requires marked { AllByRecursion IsMarked rows.old }
    ensures rows { OnOk result
        (rows.new ≡ rows.old ++ woven_rows before.old now.old ((key.now, (holding.entry.now, dividend)) ∷ [])) }
    ensures marked { OnOk result (AllByRecursion IsMarked rows.new) }
    ensures before { before.new ≡ before.old }
    ensures now { now.new ≡ now.old }
{
    if is_silent(holding, dividend) {
        return Ok(());
    }
    let opening_price = or_zero(before.price(&key.issue, 0));
    let price = or_zero(now.price(&key.issue, before.passed()));
    let columns = Columns::new(key, holding, dividend, opening_price, price);
    rows.push(*key, columns)
}

// Puts the rows of the dividends of lower keys after others, or of all that are left where no key is given. None of
// these keys has a holding.
#[tactic(auto, using(crate::proofs::Weaving::all_past))]
fn push_paid<A: Allocator + Drop + Clone>(
    rows: &mut KeyedRows<A>,
    before: &mut Quotes,
    now: &mut Quotes,
    paid: &mut InOrder,
    high: Option<&Key>,
) -> Result<(), NoMemory>
    requires marked { AllByRecursion IsMarked rows.old }
    ensures rows { OnOk result
        (rows.new ≡ rows.old ++ woven_rows before.old now.old (unheld (lower (option_copied high.entry) paid.old))) }
    ensures marked { OnOk result (AllByRecursion IsMarked rows.new) }
    ensures paid { OnOk result (paid.new ≡ past (option_copied high.entry) paid.old) }
    ensures none_lower { OnOk result (lower (option_copied high.entry) paid.new ≡ []) }
    ensures before { before.new ≡ before.old }
    ensures now { now.new ≡ now.old }
{
    while let Some((key, dividend)) = paid.next_below(high) {
        push_row(rows, before, now, &key, &Holding::ZEROS, dividend)?;
    }
    Ok(())
}

// Puts the row of a holding after others, behind those of the dividends of lower keys.
fn push_holding<A: Allocator + Drop + Clone>(
    rows: &mut KeyedRows<A>,
    before: &mut Quotes,
    now: &mut Quotes,
    paid: &mut InOrder,
    key: &Key,
    holding: &Holding,
) -> Result<(), NoMemory>
    requires small { HasSmallCents (key.now, holding.now) }
    requires marked { AllByRecursion IsMarked rows.old }
    ensures rows { OnOk result
        ((rest : Rows) → rows.old ++ woven_rows before.old now.old
        (weave ((key.now, holding.entry.now) ∷ rest) paid.old)
        ≡ rows.new ++ woven_rows before.old now.old (weave rest paid.new)) }
    ensures marked { OnOk result (AllByRecursion IsMarked rows.new) }
    ensures before { before.new ≡ before.old }
    ensures now { now.new ≡ now.old }
{
    push_paid(rows, before, now, paid, Some(key))?;
    let dividend = paid.take(*key);
    push_row(rows, before, now, key, holding, dividend)
}

// Puts the rows of holdings after others, with those of the dividends up to the last, and returns the key of the last
// holding.
fn push_rows<A: Allocator + Drop + Clone>(
    rows: &mut KeyedRows<A>,
    before: &mut Quotes,
    now: &mut Quotes,
    paid: &mut InOrder,
    holdings: &NextRows,
) -> Result<Option<Key>, NoMemory>
    requires small { AllByRecursion HasSmallCents (present holdings.now.items) }
    requires marked { AllByRecursion IsMarked rows.old }
    ensures rows { OnOk result
        ((rest : Rows) → rows.old ++ woven_rows before.old now.old
        (weave (present holdings.now.items ++ rest) paid.old)
        ≡ rows.new ++ woven_rows before.old now.old (weave rest paid.new)) }
    ensures last { IfOk result (λ key. key ≡ last_of None (present holdings.now.items)) }
    ensures marked { OnOk result (AllByRecursion IsMarked rows.new) }
    ensures before { before.new ≡ before.old }
    ensures now { now.new ≡ now.old }
{
    let mut last = None;
    for held in holdings.as_slice() {
        if let Some((key, holding)) = held {
            push_holding(rows, before, now, paid, key, holding)?;
            last = Some(*key);
        }
    }
    Ok(last)
}

/// The rows of a day, in the order of keys, of which `room` are expected, by the prices of the close before and of this
/// one. Where memory is refused nothing has changed.
#[tactic(auto, using(cns_positions::proofs::Held::last_given, cns_positions::proofs::Held::none_given))]
pub fn collect<P: Positions<B>, B, A: Allocator + Drop + Clone>(
    alloc: A,
    room: usize,
    positions: &P,
    paid: &Paid<A>,
    before: &[(Cusip, Price)],
    now: &[(Cusip, Price)],
) -> Result<KeyedRows<A>, NoMemory>
    requires before_rise { is_sorted (slice_cmp nat_cmp) before.now ≡ true }
    requires now_rise { is_sorted (slice_cmp nat_cmp) now.now ≡ true }
    requires small { is_sorted key_cmp (P.rows positions.now) ≡ true
        → AllByRecursion HasSmallCents (P.rows positions.now) }
    ensures rows { IfOk result
        (λ v. v ≡ woven_rows before.now now.now (weave (held_above (P.rows positions.now) None) paid.now)) }
    ensures marked { IfOk result (λ v. AllByRecursion IsMarked v) }
    ensures order { OnOk result (is_sorted key_cmp (P.rows positions.now) ≡ true) }
    ensures paid_rise { OnOk result (is_sorted key_cmp paid.now ≡ true) }
{
    let mut rows = KeyedRows::with_capacity(alloc, room)?;
    let mut before = Quotes::new(before);
    let mut now = Quotes::new(now);
    let mut paid = paid.in_order();
    let mut after = None;
    while let Some(last) = push_rows(
        &mut rows,
        &mut before,
        &mut now,
        &mut paid,
        &positions.next_rows(after),
    )? {
        after = Some(last);
    }
    push_paid(&mut rows, &mut before, &mut now, &mut paid, None)?;
    Ok(rows)
}
