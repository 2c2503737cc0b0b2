//! Decimals with so many fraction digits.

ghost use Rattle.std.specs.Prelude.{◌≡◌, ◌+◌, ◌++◌, ℕ, Bool, List, true, IfOk, OnOk, drop, replicate, take};
ghost use Rattle.std.specs.Char.{is_ascii_digit};
ghost use Rattle.std.specs.List.{list_all};
ghost use Rattle.tool_decimals.specs.Decimals.{carried, carries, is_odd, is_rounded_up, number_of, one, rounded, stepped, value_back, without_zeros};

use crate::decimal::{Decimal, are_zeros};
use std::alloc::{AllocError, Global};

/// The digits of a number with so many fraction digits, rounded half to even or with zeros behind.
pub fn rounded(alloc: Global, number: &Decimal<'_>, places: usize) -> Result<Vec<u8>, AllocError>
    ensures { IfOk result (λ v. v.items ≡ rounded places (number_of number.now)) }
{
    let (kept, cut) = cut_fraction(number.fraction, places);
    let mut digits = Vec::new(alloc);
    digits.extend_from_slice(number.whole)?;
    digits.extend_from_slice(kept)?;
    digits.reverse();
    let is_up = is_rounded_up(is_odd(digits.as_slice()), cut);
    let mut rounded = carried(alloc, is_up, digits.as_slice())?;
    rounded.reverse();
    push_zeros(&mut rounded, places.saturating_sub(number.fraction.len()))?;
    Ok(rounded)
}

/// The fraction digits that stay, and those that are cut.
fn cut_fraction(fraction: &[u8], places: usize) -> (&[u8], &[u8])
    ensures kept { result.0.now ≡ take places fraction.now }
    ensures cut { result.1.now ≡ drop places fraction.now }
{
    fraction.split_at(places.min(fraction.len()))
}

/// Whether cut digits are more than half of the last digit that stays, or just half of it where that
/// is odd.
fn is_rounded_up(is_odd: bool, cut: &[u8]) -> bool
    ensures { result ≡ is_rounded_up is_odd cut.now }
{
    match cut {
        [] => false,
        [first, rest @ ..] => *first > b'5' || (*first == b'5' && (is_odd || !are_zeros(rest))),
    }
}

/// Whether the number of digits is odd, from their end on.
fn is_odd(digits: &[u8]) -> bool
    ensures { result ≡ is_odd digits.now }
{
    match digits {
        [] => false,
        [last, ..] => *last % 2 == 1,
    }
}

/// A digit, one more where 1 is carried.
fn stepped(carry: bool, digit: u8) -> u8
    ensures { result ≡ stepped carry digit }
{
    if !carry {
        digit
    } else if digit < b'9' {
        digit + 1
    } else {
        b'0'
    }
}

/// Whether 1 is carried on behind a digit.
fn carries(carry: bool, digit: u8) -> bool
    ensures { result ≡ carries carry digit }
{
    carry && digit >= b'9'
}

/// The digits of a number from its end on, one more where 1 is carried.
#[tactic(auto, unfolding(crate::specs::Decimals::carried))]
fn carried(alloc: Global, is_up: bool, digits: &[u8]) -> Result<Vec<u8>, AllocError>
    ensures { IfOk result (λ v. v.items ≡ carried is_up digits.now) }
{
    let mut raised = Vec::with_capacity(alloc, digits.len().saturating_add(1))?;
    let mut carry = is_up;
    for digit in digits {
        raised.push(stepped(carry, *digit))?;
        carry = carries(carry, *digit);
    }
    if carry {
        raised.push(b'1')?;
    }
    Ok(raised)
}

/// Where 1 is carried into the digits of a number, they are those of the next number.
#[tactic(auto, using(crate::proofs::RoundingLaw::carried_value))]
pub fn carried_digits_are_next()
    ensures { (carry : Bool) (ds : List ℕ) → list_all is_ascii_digit ds ≡ true → value_back (carried carry ds) ≡ value_back ds + one carry }
{}

/// Adds so many zeros.
pub fn push_zeros(digits: &mut Vec<u8>, count: usize) -> Result<(), AllocError>
    ensures { OnOk result (digits.new.items ≡ digits.old.items ++ replicate count 48) }
{
    let end = digits.len().checked_add(count).ok_or(AllocError)?;
    digits.resize(end, b'0')
}

/// The digits without zeros in front, at least one.
#[tactic(auto, unfolding(crate::specs::Decimals::without_zeros))]
pub fn without_zeros(digits: &[u8]) -> &[u8]
    ensures { result.now ≡ without_zeros digits.now }
{
    let mut rest = digits;
    while let [b'0', behind @ ..] = rest {
        if behind.is_empty() {
            break;
        }
        rest = behind;
    }
    rest
}
