//! Times, amounts of money and whole numbers, as they are written.

ghost use Rattle.std.specs.Prelude.{◌≡◌, ◌++◌, ◌^◌, ◌<◌, ◌≤◌, ◌≤ℤ◌, pos, true, length, IfSome};
ghost use Rattle.std.specs.Char.{is_ascii_digit};
ghost use Rattle.std.specs.List.{list_all};
ghost use Rattle.std.specs.Str.Parse.{digits_value_after};
ghost use Rattle.script_words.specs.Limits.{FRACTION_DIGITS};
ghost use Rattle.script_words.specs.Numbers.{short_number, offset_of_word, three_numbers, are_digits, within, signed_units, amount_of, unsigned_amount, amount_of_word, number_of, number_of_word};

use crate::given::{FRACTION_DIGITS, NUMBER_DIGITS, TIME_DIGITS, WHOLE_DIGITS, WrittenNumber};
use lc_base::{Amount, are_digits as all_digits, cut_at, few_digits};

/// The magnitude of the least number of 64 bits.
const MOST_UNITS: u64 = 1 << 63;

/// A number of 1 to 9 digits.
#[tactic(auto, unfolding(crate::specs::Numbers::short_number))]
pub fn short_number(word: &[u8]) -> Option<i32>
    ensures is { result ≡ short_number word.now }
    ensures whole { IfSome result (λ n. pos 0 ≤ℤ n) }
{
    Some(few_digits(TIME_DIGITS, word)? as i32)
}

/// A number of minutes, perhaps behind a `-`.
#[tactic(auto, unfolding(crate::specs::Numbers::offset_of_word))]
pub fn offset_of_word(word: &[u8]) -> Option<i32>
    ensures { result ≡ offset_of_word word.now }
{
    match word {
        [] => None,
        [b'-', digits @ ..] => Some(-short_number(digits)?),
        _ => short_number(word),
    }
}

/// Three numbers with a byte between them.
#[tactic(auto, unfolding(crate::specs::Numbers::three_numbers))]
pub fn three_numbers(between: u8, word: &[u8]) -> Option<(i32, i32, i32)>
    ensures { result ≡ three_numbers between word.now }
{
    let (first, rest) = cut_at(between, word)?;
    let (second, third) = cut_at(between, rest)?;
    Some((
        short_number(first)?,
        short_number(second)?,
        short_number(third)?,
    ))
}

/// Whether all bytes are digits, of which there are at most so many.
fn are_digits(most: usize, bytes: &[u8]) -> bool
    ensures { result ≡ are_digits most bytes.now }
{
    bytes.len() <= most && all_digits(bytes)
}

/// The number of digits behind those of a number, if it is at most `most`.
fn number_behind(most: u64, before: u64, digits: &[u8]) -> Option<u64>
    requires before { before ≤ most }
    requires digits { list_all is_ascii_digit digits.now ≡ true }
    ensures is { result ≡ within most (digits_value_after 10 before digits.now) }
    ensures small { IfSome result (λ n. n ≤ most) }
{
    let mut value = before;
    for digit in digits {
        let next = u128::from(value) * 10 + u128::from(*digit - b'0');
        if next > u128::from(most) {
            return None;
        }
        value = next as u64;
    }
    Some(value)
}

/// Units with their sign, where 64 bits hold them.
fn signed_units(negative: bool, magnitude: u64) -> Option<i64>
    requires { magnitude ≤ 2 ^ 63 }
    ensures { result ≡ signed_units negative magnitude }
{
    if !negative {
        return if magnitude < MOST_UNITS {
            Some(magnitude as i64)
        } else {
            None
        };
    }
    if magnitude == 0 {
        return Some(0);
    }
    Some(-((magnitude - 1) as i64) - 1)
}

/// The amount of whole digits and fraction digits.
#[tactic(auto, using(crate::proofs::WordLemmas::value_append, crate::proofs::WordLemmas::no_units_behind, crate::proofs::WordLemmas::no_units, crate::proofs::WordLemmas::within_none, crate::proofs::WordLemmas::within_some))]
fn amount_of(negative: bool, whole: &[u8], fraction: &[u8]) -> Option<Amount>
    ensures { result ≡ amount_of negative whole.now fraction.now }
{
    if whole.is_empty() || !are_digits(WHOLE_DIGITS, whole) {
        return None;
    }
    if !are_digits(FRACTION_DIGITS, fraction) {
        return None;
    }
    let front = number_behind(MOST_UNITS, 0, whole)?;
    let magnitude = number_behind(MOST_UNITS, front, fraction)?;
    let units = signed_units(negative, magnitude)?;
    Amount::new(units, fraction.len() as u8)
}

/// An amount without its sign.
fn unsigned_amount(negative: bool, word: &[u8]) -> Option<Amount>
    ensures { result ≡ unsigned_amount negative word.now }
{
    match cut_at(b'.', word) {
        None => amount_of(negative, word, &[]),
        Some((_, [])) => None,
        Some((whole, fraction)) => amount_of(negative, whole, fraction),
    }
}

/// An amount, perhaps behind a `-`.
#[tactic(auto, unfolding(crate::specs::Numbers::amount_of_word))]
pub fn amount_of_word(word: &[u8]) -> Option<Amount>
    ensures { result ≡ amount_of_word word.now }
{
    match word {
        [] => None,
        [b'-', rest @ ..] => unsigned_amount(true, rest),
        _ => unsigned_amount(false, word),
    }
}

/// The number of digits with this sign.
fn number_of(negative: bool, digits: &[u8]) -> Option<WrittenNumber>
    ensures { result ≡ number_of negative digits.now }
{
    if digits.is_empty() || !are_digits(NUMBER_DIGITS, digits) {
        return None;
    }
    let magnitude = i128::from(number_behind(u64::MAX, 0, digits)?);
    WrittenNumber::of(if negative { -magnitude } else { magnitude })
}

/// A whole number, perhaps behind a `-`.
#[tactic(auto, unfolding(crate::specs::Numbers::number_of_word))]
pub fn number_of_word(word: &[u8]) -> Option<WrittenNumber>
    ensures { result ≡ number_of_word word.now }
{
    match word {
        [] => None,
        [b'-', digits @ ..] => number_of(true, digits),
        _ => number_of(false, word),
    }
}
