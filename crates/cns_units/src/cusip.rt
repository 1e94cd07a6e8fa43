ghost use Rattle.std.specs.Prelude.{◌≡◌, ◌↔◌, ℕ, ◌+◌, ◌≤◌, ◌*◌, true, List, length, take, option_map, Bool, Option, IfSome};
ghost use Rattle.std.proofs.Common.{rules};
ghost use Rattle.std.specs.Cmp.{partial_order_from_own_ties};
ghost use Rattle.std.specs.Cmp.Lexicographic.{slice_cmp};
ghost use Rattle.std.specs.Cmp.Rules.{comparing};
ghost use Rattle.std.specs.Int.{w64, from_be_bytes};
ghost use Rattle.std.specs.Ordering.{nat_cmp, as_partial_cmp, is_eq};
ghost use Rattle.cns_units.specs.Cusip.{character_value, weight, sum_of, cusip_of, IsCusip};

use crate::fault::UnitFault;
use std::cmp::Ordering;
use std::marker::Model;

/// The number of a security, with its check digit. CUSIPs are in the order of their bytes.
#[derive(Clone, Copy)]
pub struct Cusip {
    text: [u8; 9],
}

impl Model for Cusip {
    ghost Value = { List ℕ };

    ghost view = { λ c. c.text };

    ghost invariant = { λ c. IsCusip c.text };

    ghost inverse = { λ bytes. record { text = bytes } };
}

// What stands in the tables for a character that has no value.
const NONE: u8 = 255;

// What each character from `#` to `Z` adds to the sum: the digits of its value, and of twice its value. Digits and
// letters follow one another in no order that a processor could guess, so tables are faster than branches.
#[rattlefmt::skip]
const PLAIN: [u8; 56] = [
    11, NONE, NONE, NONE, NONE, NONE, NONE, 9, NONE, NONE, NONE, NONE, NONE,
    0, 1, 2, 3, 4, 5, 6, 7, 8, 9,
    NONE, NONE, NONE, NONE, NONE, NONE, 10,
    1, 2, 3, 4, 5, 6, 7, 8, 9, 10, 2, 3, 4,
    5, 6, 7, 8, 9, 10, 11, 3, 4, 5, 6, 7, 8,
];

#[rattlefmt::skip]
const DOUBLED: [u8; 56] = [
    13, NONE, NONE, NONE, NONE, NONE, NONE, 9, NONE, NONE, NONE, NONE, NONE,
    0, 2, 4, 6, 8, 1, 3, 5, 7, 9,
    NONE, NONE, NONE, NONE, NONE, NONE, 11,
    2, 4, 6, 8, 10, 3, 5, 7, 9, 11, 4, 6, 8,
    10, 12, 5, 7, 9, 11, 13, 6, 8, 10, 12, 14, 7,
];

// What a character adds to the sum; nothing where it has no value.
#[tactic(auto, using(crate::proofs::CusipWeights::no_weight, crate::proofs::CusipWeights::some_weight))]
fn weight_of(is_doubled: bool, character: u8) -> Option<u32>
    ensures exact { result ≡ option_map (weight is_doubled) (character_value character) }
    ensures small { IfSome result (λ w. w ≤ 255) }
{
    let place = usize::from(character.wrapping_sub(b'#'));
    if place >= 56 {
        return None;
    }
    let weight = if is_doubled {
        DOUBLED[place]
    } else {
        PLAIN[place]
    };
    if weight == NONE {
        None
    } else {
        Some(u32::from(weight))
    }
}

// The sum over the first eight characters.
#[tactic(auto, using(crate::proofs::CusipLemmas::sum_step, crate::proofs::CusipLemmas::sum_stop, crate::proofs::CusipLemmas::sum_all))]
fn body_sum(body: &[u8]) -> Option<u32>
    requires { length body.now ≤ 8 }
    ensures { result ≡ sum_of Bool.false body.now }
{
    let mut sum = 0;
    let mut is_doubled = false;
    for character in body {
        sum += weight_of(is_doubled, *character)?;
        is_doubled = !is_doubled;
    }
    Some(sum)
}

impl Cusip {
    /// Reads a CUSIP. The faults come in the order length, character, check digit.
    pub fn parse(bytes: &[u8]) -> Result<Cusip, UnitFault>
        ensures { result ≡ cusip_of bytes.now }
    {
        let Ok(text) = <[u8; 9]>::try_from(bytes) else {
            return Err(UnitFault::Length);
        };
        let Some(sum) = body_sum(&text[..8]) else {
            return Err(UnitFault::Character);
        };
        if !text[8].is_ascii_digit() {
            return Err(UnitFault::Character);
        }
        if u32::from(text[8] - b'0') != (10 - sum % 10) % 10 {
            return Err(UnitFault::CheckDigit);
        }
        Ok(Cusip { text })
    }

    /// The nine characters.
    pub fn bytes(&self) -> &[u8]
        ensures text { result.now ≡ self.now }
        ensures valid { IsCusip self.now }
    {
        &self.text
    }

    /// Whether all characters are the same. `==` answers so too; its clause speaks of an order, this one of the value.
    pub fn is_same(&self, other: &Cusip) -> bool
        ensures { (result ≡ true) ↔ (self.now ≡ other.now) }
    {
        self == other
    }
}

impl Cusip {
    /// The characters before the check digit as one number, big end first. CUSIPs are in the order of these numbers,
    /// since the check digit follows from the characters.
    pub fn body(&self) -> u64
        ensures exact { result ≡ from_be_bytes w64 (take 8 self.now) }
        ensures valid { IsCusip self.now }
    {
        let [a, b, c, d, e, f, g, h, _check] = self.text;
        u64::from_be_bytes([a, b, c, d, e, f, g, h])
    }
}

impl PartialEq for Cusip {
    ghost eq = { λ x y. is_eq (slice_cmp nat_cmp x y) };

    ghost laws = { Prim.search (comparing, rules) };

    fn eq(&self, other: &Cusip) -> bool {
        self.cmp(other).is_eq()
    }
}

impl Eq for Cusip {
    ghost laws = { Prim.search (comparing, rules) };
}

impl Ord for Cusip {
    ghost cmp = { slice_cmp nat_cmp };

    ghost total = { Prim.search (comparing, rules) };

    ghost matches_partial_cmp = { Prim.search (comparing, rules) };

    ghost matches_eq = { Prim.search (comparing, rules) };

    // The check digit follows from the characters before it, so those decide.
    #[tactic(auto, using(crate::proofs::CusipOrder::cusips_order))]
    fn cmp(&self, other: &Cusip) -> Ordering {
        self.body().cmp(&other.body())
    }
}

impl PartialOrd for Cusip {
    ghost partial_cmp = { as_partial_cmp (slice_cmp nat_cmp) };

    ghost laws = { partial_order_from_own_ties (Prim.search (comparing, rules))
        (Prim.search (comparing, rules)) };

    fn partial_cmp(&self, other: &Cusip) -> Option<Ordering> {
        Some(self.cmp(other))
    }
}
