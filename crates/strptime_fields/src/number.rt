//! Numbers of a text.

ghost use Rattle.std.specs.Prelude.{◌≡◌, ◌<◌, ◌≤◌, true, length, take, IfSome, option_map};
ghost use Rattle.std.specs.Char.{is_ascii_digit};
ghost use Rattle.std.specs.List.{list_all, take_while};
ghost use Rattle.std.specs.Str.Parse.{digits_value};
ghost use Rattle.strptime_fields.specs.Items.{most_digits};
ghost use Rattle.strptime_fields.specs.Reading.{behind_white, leading_digits, within, number};

use crate::item::{Digits, is_white};

/// What is left behind white space.
pub fn behind_white(mut left: &[u8]) -> &[u8]
    ensures { result.now ≡ behind_white left.entry.now }
{
    while let [byte, rest @ ..] = left {
        if !is_white(*byte) {
            return left;
        }
        left = rest;
    }
    left
}

/// How many digits the text begins with, of which so many count at most.
fn digit_count(left: &[u8], most: usize) -> usize
    ensures is { result ≡ length (leading_digits most left.now) }
{
    left.iter()
        .take(most)
        .take_while(|byte| byte.is_ascii_digit())
        .count()
}

/// The value of at most four digits.
fn value_of(digits: &[u8]) -> u16
    requires all_digits { list_all is_ascii_digit digits.now ≡ true }
    requires few { length digits.now ≤ 4 }
    ensures { result ≡ digits_value 10 digits.now }
{
    let mut value = 0;
    for digit in digits {
        value = value * 10 + u16::from(*digit - b'0');
    }
    value
}

/// The value of digits, at least one, within bounds.
fn within<'a>(low: u16, high: u16, digits: &[u8], rest: &'a [u8]) -> Option<(u16, &'a [u8])>
    requires all_digits { list_all is_ascii_digit digits.now ≡ true }
    requires few { length digits.now ≤ 4 }
    ensures is { option_map (λ n. (n.0, n.1.now)) result ≡ within low high digits.now rest.now }
    ensures bound { IfSome result (λ n. n.0 ≤ high) }
{
    if digits.is_empty() {
        return None;
    }
    let value = value_of(digits);
    if low <= value && value <= high {
        Some((value, rest))
    } else {
        None
    }
}

/// A number within bounds, behind perhaps white space, and what is left behind it.
pub fn number(digits: Digits, low: u16, high: u16, left: &[u8]) -> Option<(u16, &[u8])>
    ensures is { option_map (λ n. (n.0, n.1.now)) result ≡ number digits low high left.now }
    ensures bound { IfSome result (λ n. n.0 ≤ high) }
{
    let left = behind_white(left);
    let (digits, rest) = left.split_at(digit_count(left, digits.most()));
    within(low, high, digits, rest)
}
