// Amounts of money, in whole cents.
ghost use Rattle.std.specs.Prelude.{◌≡◌, ◌^◌, ◌≤◌, Ok};
ghost use Rattle.std.proofs.Common.{rules};
ghost use Rattle.std.specs.Cmp.Rules.{comparing};
ghost use Rattle.std.specs.Ordering.{int_eq};
ghost use Rattle.cns_units.specs.Ranges.{within};
ghost use Rattle.cns_units.specs.Output.{Writes};
ghost use Rattle.cns_units.specs.Cents.{amount_text, cents_text};

use crate::fault::{UnitFault, WriteFault};
use crate::output::write_bytes;
use itoa::Buffer;
use std::io::Write;
use std::marker::Model;

const MOST: u64 = 1_000_000_000_000_000_000;

/// The money of one command, in whole cents from 0 to 10^18 (this project's profile).
#[derive(Clone, Copy, PartialEq, Eq)]
pub struct Money {
    cents: u64,
}

impl Model for Money {
    ghost use Rattle.std.specs.Prelude.{ℕ, ◌≤◌, ◌^◌};

    ghost Value = { ℕ };

    ghost view = { λ m. m.cents };

    ghost invariant = { λ m. m.cents ≤ 10 ^ 18 };

    ghost inverse = { λ n. record { cents = n } };
}

impl Money {
    /// That many cents. `OutOfRange` above 10^18.
    pub fn new(cents: u64) -> Result<Money, UnitFault>
        ensures { result ≡ within 0 (10 ^ 18) cents }
    {
        if cents > MOST {
            return Err(UnitFault::OutOfRange);
        }
        Ok(Money { cents })
    }

    /// The amount in cents.
    pub fn value(self) -> u64
        ensures value { result ≡ self }
        ensures range { self ≤ 10 ^ 18 }
    {
        self.cents
    }
}

/// An amount of whole cents that the book has reckoned, of either sign.
///
/// It is kept in two halves: a number of 128 bits stands at multiples of sixteen bytes, and so each position and each row
/// of a closed day would be eight bytes longer.
#[derive(Clone, Copy)]
pub struct Cents {
    high: u64,
    low: u64,
}

impl Model for Cents {
    ghost use Rattle.std.specs.Prelude.{ℤ, ◌+◌, ◌*◌, ◌^◌, ◌<◌, ◌/◌, ◌%◌};
    ghost use Rattle.std.specs.Int.{w128, cast_signed, cast_unsigned};
    ghost use Rattle.std.proofs.Common.{arith, ap, ◌∙◌};
    ghost use Rattle.std.proofs.lemmas.Int.{of_z-to_z};
    ghost use Rattle.std.proofs.lemmas.Nat.{shr_high, mod_low};

    ghost Value = { ℤ };

    ghost view = { λ c. cast_signed w128 (c.high * 2 ^ 64 + c.low) };

    ghost invariant = { λ c. (c.high < 2 ^ 64) × (c.low < 2 ^ 64) };

    ghost inverse = { λ n. record { high = cast_unsigned w128 n / 2 ^ 64; low = cast_unsigned w128 n % 2 ^ 64 } };

    ghost inverse_ok = { λ c h. let whole = of_z-to_z w128 (c.high * 2 ^ 64 + c.low) (omega (arith, h.0, h.1)) in
        λ i. record {
          high = (ap (λ n. n / 2 ^ 64) whole ∙ shr_high c.high 64 c.low h.1) i;
          low = (ap (λ n. n % 2 ^ 64) whole ∙ mod_low c.high 64 c.low h.1) i;
        } };
}

impl Cents {
    /// No cents.
    pub const ZERO: Cents = Cents { high: 0, low: 0 };

    /// That many cents, where the amount is known to be one.
    pub fn of(amount: i128) -> Cents
        ensures { result ≡ amount }
    {
        let bits = amount.cast_unsigned();
        Cents {
            high: (bits >> 64) as u64,
            low: (bits % (1 << 64)) as u64,
        }
    }

    /// That many cents. Each amount is accepted.
    pub fn new(amount: i128) -> Result<Cents, UnitFault>
        ensures { result ≡ Ok amount }
    {
        Ok(Cents::of(amount))
    }

    /// The amount in cents.
    pub fn value(self) -> i128
        ensures { result ≡ self }
    {
        (u128::from(self.high) * (1 << 64) + u128::from(self.low)).cast_signed()
    }
}

impl PartialEq for Cents {
    ghost eq = { int_eq };

    ghost laws = { Prim.search (comparing, rules) };

    fn eq(&self, other: &Cents) -> bool {
        self.value() == other.value()
    }
}

impl Eq for Cents {
    ghost laws = { Prim.search (comparing, rules) };
}

// Dollars, a point and two digits.
#[tactic(auto, using(std::proofs::lemmas::Result::err_from_is_err_and, crate::proofs::OutputLemmas::front_longer, crate::proofs::OutputLemmas::writes_then))]
fn write_amount<W: Write>(cents: u128, writer: &mut W) -> Result<(), WriteFault>
    ensures { Writes (W.contents writer.old) (W.contents writer.new) (amount_text cents) result }
{
    let mut dollars = Buffer::new();
    write_bytes(dollars.format(cents / 100).as_bytes(), writer)?;
    let tens = b'0' + (cents % 100 / 10) as u8;
    let units = b'0' + (cents % 10) as u8;
    write_bytes(&[b'.', tens, units], writer)
}

// The same after a minus sign, where the amount is negative.
fn write_signed<W: Write>(cents: i128, writer: &mut W) -> Result<(), WriteFault>
    ensures { Writes (W.contents writer.old) (W.contents writer.new) (cents_text cents) result }
{
    if cents < 0 {
        write_bytes(b"-", writer)?;
    }
    write_amount(cents.unsigned_abs(), writer)
}

/// Writes an amount of cents as a minus sign where it is negative, the dollars, a point and two digits, as `-0.01`.
///
/// Where the writer fails or takes no byte it answers `WriteFault`, and a prefix of that text was written.
pub fn write_cents<W: Write>(cents: Cents, writer: &mut W) -> Result<(), WriteFault>
    ensures { Writes (W.contents writer.old) (W.contents writer.new) (cents_text cents) result }
{
    write_signed(cents.value(), writer)
}
