// The fields of a record, each read as what it must be.
ghost use Rattle.std.specs.Prelude.{◌≡◌};
ghost use Rattle.csv.specs.Records.{fields_of};
ghost use Rattle.cns_feed.specs.Digits.{in_range, number_in};
ghost use Rattle.cns_feed.specs.Line.{field, member_at, account_at, reference_at, notice_at, shares_at, money_at, price_at, rate_at, part_at, ratio_at, cusip_at, date_at};

use crate::digits::{number_of, short_number_of};
use crate::fault::LineFault;
use cns_units::{Account, Cusip, Day, Member, Money, Price, Rate, Ratio, Shares, UnitFault};
use csv::ByteRecord;

const MOST_REFERENCE: u64 = 1_000_000_000_000_000_000;

// The most shares on one side of a ratio.
const MOST_PART: u16 = 10_000;

// The field at a place, the kind being at 0.
pub(crate) fn field(row: &ByteRecord, place: usize) -> &[u8]
    ensures { result.now ≡ field (fields_of row.now) place }
{
    row.get(place).unwrap_or(&[])
}

// A unit that a number was to be.
fn ranged<T>(unit: Result<T, UnitFault>) -> Result<T, LineFault>
    ensures { result ≡ in_range unit }
{
    match unit {
        Ok(unit) => Ok(unit),
        Err(_) => Err(LineFault::Range),
    }
}

pub(crate) fn member(row: &ByteRecord, place: usize) -> Result<Member, LineFault>
    ensures { result ≡ member_at (fields_of row.now) place }
{
    let number = short_number_of(field(row, place))?;
    ranged(Member::new(number))
}

/// The account with the number that a text of digits is, 0 to 9,999. `Number` where the text is empty or has something else
/// than digits, `Range` where no account has that number.
pub fn account_of(text: &[u8]) -> Result<Account, LineFault>
    ensures { result ≡ number_in 0 9999 text.now }
{
    let number = short_number_of(text)?;
    ranged(Account::new(number))
}

pub(crate) fn account(row: &ByteRecord, place: usize) -> Result<Account, LineFault>
    ensures { result ≡ account_at (fields_of row.now) place }
{
    account_of(field(row, place))
}

pub(crate) fn reference(row: &ByteRecord, place: usize) -> Result<u64, LineFault>
    ensures { result ≡ reference_at (fields_of row.now) place }
{
    let number = number_of(field(row, place))?;
    if number < 1 {
        return Err(LineFault::Range);
    }
    if number > MOST_REFERENCE {
        return Err(LineFault::Range);
    }
    Ok(number)
}

// The number of a notice.
pub(crate) fn notice(row: &ByteRecord, place: usize) -> Result<u32, LineFault>
    ensures { result ≡ notice_at (fields_of row.now) place }
{
    let number = number_of(field(row, place))?;
    if number < 1 {
        return Err(LineFault::Range);
    }
    if number > u64::from(u32::MAX) {
        return Err(LineFault::Range);
    }
    Ok(number as u32)
}

// The fields of a trade are read in line: the calls would cost as much as short numbers do.
#[inline(always)]
pub(crate) fn shares(row: &ByteRecord, place: usize) -> Result<Shares, LineFault>
    ensures { result ≡ shares_at (fields_of row.now) place }
{
    let number = number_of(field(row, place))?;
    ranged(Shares::new(number))
}

#[inline(always)]
pub(crate) fn money(row: &ByteRecord, place: usize) -> Result<Money, LineFault>
    ensures { result ≡ money_at (fields_of row.now) place }
{
    let number = number_of(field(row, place))?;
    ranged(Money::new(number))
}

pub(crate) fn price(row: &ByteRecord, place: usize) -> Result<Price, LineFault>
    ensures { result ≡ price_at (fields_of row.now) place }
{
    let number = number_of(field(row, place))?;
    ranged(Price::new(number))
}

pub(crate) fn rate(row: &ByteRecord, place: usize) -> Result<Rate, LineFault>
    ensures { result ≡ rate_at (fields_of row.now) place }
{
    let number = number_of(field(row, place))?;
    ranged(Rate::new(number))
}

// The shares on one side of a ratio. Each side is looked at by itself, so that the first invalid one decides.
fn part(row: &ByteRecord, place: usize) -> Result<u16, LineFault>
    ensures { result ≡ part_at (fields_of row.now) place }
{
    let number = short_number_of(field(row, place))?;
    if number < 1 {
        return Err(LineFault::Range);
    }
    if number > MOST_PART {
        return Err(LineFault::Range);
    }
    Ok(number)
}

// The ratio whose new shares stand at one place, and whose old ones at another.
pub(crate) fn ratio(row: &ByteRecord, new: usize, old: usize) -> Result<Ratio, LineFault>
    ensures { result ≡ ratio_at (fields_of row.now) new old }
{
    let new = part(row, new)?;
    let old = part(row, old)?;
    ranged(Ratio::new(new, old))
}

#[inline(always)]
pub(crate) fn cusip(row: &ByteRecord, place: usize) -> Result<Cusip, LineFault>
    ensures { result ≡ cusip_at (fields_of row.now) place }
{
    match Cusip::parse(field(row, place)) {
        Ok(cusip) => Ok(cusip),
        Err(_) => Err(LineFault::Cusip),
    }
}

#[inline(always)]
pub(crate) fn date(row: &ByteRecord, place: usize) -> Result<Day, LineFault>
    ensures { result ≡ date_at (fields_of row.now) place }
{
    match Day::parse(field(row, place)) {
        Ok(day) => Ok(day),
        Err(_) => Err(LineFault::Date),
    }
}
