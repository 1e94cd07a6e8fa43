// Numbers written as digits.
ghost use Rattle.std.specs.Prelude.{◌≡◌, ◌<◌, ◌≤◌, ◌^◌, ◌-◌, length, min, IfSome, Some, None, if◌then◌else◌};
ghost use Rattle.std.specs.Str.{all_ascii_digits};
ghost use Rattle.std.specs.Str.Parse.{digits_value};
ghost use Rattle.cns_feed.specs.Digits.{capped_number};

use crate::fault::LineFault;

// The number that at most nineteen digits stand for, which no `u64` is too small for; nothing where one is no digit.
fn exact(bytes: &[u8]) -> Option<u64>
    requires { length bytes.now ≤ 19 }
    ensures value { result ≡ (if all_ascii_digits bytes.now then Some (digits_value 10 bytes.now) else None) }
    ensures small { IfSome result (λ n. n < 10 ^ 19) }
{
    let mut value = 0u64;
    for byte in bytes {
        if !byte.is_ascii_digit() {
            return None;
        }
        value = value * 10 + u64::from(*byte - b'0');
    }
    Some(value)
}

// The number that digits stand for, or the greatest number where it is greater; nothing where one is no digit.
#[tactic(auto, using(crate::proofs::DigitLemmas::digits))]
fn capped(bytes: &[u8]) -> Option<u64>
    ensures { result ≡ (if all_ascii_digits bytes.now then Some
        (min (digits_value 10 bytes.now) (2 ^ 64 - 1)) else None) }
{
    let mut value = 0u64;
    for byte in bytes {
        if !byte.is_ascii_digit() {
            return None;
        }
        value = value
            .saturating_mul(10)
            .saturating_add(u64::from(*byte - b'0'));
    }
    Some(value)
}

// The same; fields of the formats' lengths are read without looking for the greatest number at each digit.
fn saturated(bytes: &[u8]) -> Option<u64>
    ensures { result ≡ (if all_ascii_digits bytes.now then Some
        (min (digits_value 10 bytes.now) (2 ^ 64 - 1)) else None) }
{
    if bytes.len() <= 19 {
        exact(bytes)
    } else {
        capped(bytes)
    }
}

// The number of one or more digits, or the greatest `u64` where it is greater.
pub(crate) fn number_of(bytes: &[u8]) -> Result<u64, LineFault>
    ensures { result ≡ capped_number (2 ^ 64 - 1) bytes.now }
{
    if bytes.is_empty() {
        return Err(LineFault::Number);
    }
    let Some(value) = saturated(bytes) else {
        return Err(LineFault::Number);
    };
    Ok(value)
}

// The number of one or more digits, or the greatest `u16` where it is greater.
pub(crate) fn short_number_of(bytes: &[u8]) -> Result<u16, LineFault>
    ensures { result ≡ capped_number (2 ^ 16 - 1) bytes.now }
{
    let number = number_of(bytes)?;
    Ok(number.min(u64::from(u16::MAX)) as u16)
}
