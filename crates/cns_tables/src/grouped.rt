// Whole numbers and amounts of money with their thousands separated by commas.
ghost use Rattle.std.specs.Prelude.{◌≡◌, ◌<◌, ◌++◌, OnOk};
ghost use Rattle.std.specs.Fmt.{sign_text};
ghost use Rattle.std.specs.Int.{is_negative};
ghost use Rattle.cns_tables.specs.Grouped.{amount_text, count_text, digit_at, digit_text, dollars_text, fraction, grouped, rate_text, signed_text};

use itoa::Buffer;
use std::alloc::AllocError;

// A digit that has so many after it, with its comma.
fn write_digit(digit: u8, after: usize, out: &mut Vec<u8>) -> Result<(), AllocError>
    ensures { OnOk result (out.new.items ≡ out.old.items ++ digit_text digit after) }
{
    if after > 0 && after % 3 == 0 {
        out.extend_from_slice(&[digit, b','])
    } else {
        out.extend_from_slice(&[digit])
    }
}

// The digits of a whole number.
#[tactic(auto, using(crate::proofs::Digits::digits_more))]
fn write_digits(digits: &[u8], out: &mut Vec<u8>) -> Result<(), AllocError>
    ensures { OnOk result (out.new.items ≡ out.old.items ++ grouped digits.now) }
{
    for place in 0..digits.len() {
        write_digit(digits[place], digits.len() - place - 1, out)?;
    }
    Ok(())
}

/// Adds a whole number, as `1,234,567`.
#[tactic(auto, unfolding(crate::specs::Grouped::count_text), using(crate::proofs::Written::after))]
pub(crate) fn write_count(number: u128, out: &mut Vec<u8>) -> Result<(), AllocError>
    ensures { OnOk result (out.new.items ≡ out.old.items ++ count_text number) }
{
    let mut buffer = Buffer::new();
    write_digits(buffer.format(number).as_bytes(), out)
}

// A minus sign, where the number is negative.
fn write_sign(number: i128, out: &mut Vec<u8>) -> Result<(), AllocError>
    ensures { OnOk result (out.new.items ≡ out.old.items ++ sign_text (is_negative number)) }
{
    if number.is_negative() {
        out.extend_from_slice(b"-")
    } else {
        Ok(())
    }
}

/// Adds a number after a minus sign where it is negative, as `-1,234,567`.
#[tactic(auto, unfolding(crate::specs::Grouped::signed_text), using(crate::proofs::Written::after))]
pub(crate) fn write_signed(number: i128, out: &mut Vec<u8>) -> Result<(), AllocError>
    ensures { OnOk result (out.new.items ≡ out.old.items ++ signed_text number) }
{
    write_sign(number, out)?;
    write_count(number.unsigned_abs(), out)
}

// Dollars, a point and two digits.
fn write_dollars(cents: u128, out: &mut Vec<u8>) -> Result<(), AllocError>
    ensures { OnOk result (out.new.items ≡ out.old.items ++ dollars_text cents) }
{
    write_count(cents / 100, out)?;
    let tens = b'0' + (cents % 100 / 10) as u8;
    let units = b'0' + (cents % 10) as u8;
    out.extend_from_slice(&[b'.', tens, units])
}

/// Adds an amount of cents after a minus sign where it is negative, as `-1,234,567.89`.
#[tactic(auto, unfolding(crate::specs::Grouped::amount_text), using(crate::proofs::Written::after))]
pub(crate) fn write_amount(cents: i128, out: &mut Vec<u8>) -> Result<(), AllocError>
    ensures { OnOk result (out.new.items ≡ out.old.items ++ amount_text cents) }
{
    write_sign(cents, out)?;
    write_dollars(cents.unsigned_abs(), out)
}

// The digit of a number at a place: that of tens, of hundreds and so on.
fn digit_at(number: u128, place: u128) -> u8
    requires { 0 < place }
    ensures { result ≡ digit_at number place }
{
    b'0' + (number / place % 10) as u8
}

// A point, and the digits of millionths after it.
fn fraction(millionths: u128) -> [u8; 7]
    ensures { result ≡ fraction millionths }
{
    [
        b'.',
        digit_at(millionths, 100_000),
        digit_at(millionths, 10_000),
        digit_at(millionths, 1_000),
        digit_at(millionths, 100),
        digit_at(millionths, 10),
        digit_at(millionths, 1),
    ]
}

/// Adds millionths of a dollar as dollars with six digits after the point, as `1,234.567890`.
pub(crate) fn write_rate(millionths: u128, out: &mut Vec<u8>) -> Result<(), AllocError>
    ensures { OnOk result (out.new.items ≡ out.old.items ++ rate_text millionths) }
{
    write_count(millionths / 1_000_000, out)?;
    out.extend_from_slice(&fraction(millionths))
}
