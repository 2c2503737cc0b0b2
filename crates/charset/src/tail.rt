//! Names as their fronts and the digits that they end in.

ghost use Rattle.std.specs.Prelude.{◌≡◌, ◌<◌, ◌≤◌, ◌^◌, length};
ghost use Rattle.std.specs.Str.Parse.{AllDigits, digits_value};
ghost use Rattle.charset.specs.Tails.{tail_width, front, tail};

use crate::numbering::digit_count;

/// The most digits of a name that count as its tail.
pub const LONGEST: usize = 9;

/// A name as its front and its tail: the digits that it ends in, of which nine at most.
pub fn split_tail(name: &[u8]) -> (&[u8], &[u8])
    ensures front { result.0.now ≡ front name.now }
    ensures tail { result.1.now ≡ tail name.now }
    ensures all_digits { AllDigits 10 result.1.now }
    ensures width { length result.1.now ≡ tail_width name.now }
{
    let width = digit_count(name).min(LONGEST);
    name.split_at(name.len() - width)
}

/// The number that digits are.
pub fn number_of(digits: &[u8]) -> u32
    requires all_digits { AllDigits 10 digits.now }
    requires few { length digits.now ≤ 9 }
    ensures is { result ≡ digits_value 10 digits.now }
    ensures below { result < 10 ^ length digits.now }
{
    let mut number: u32 = 0;
    for digit in digits {
        number = number * 10 + u32::from(*digit - b'0');
    }
    number
}
