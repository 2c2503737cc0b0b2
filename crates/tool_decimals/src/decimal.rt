//! Decimals as they are written.

ghost use Rattle.std.specs.Prelude.{◌≡◌, nat_eq, option_map};
ghost use Rattle.std.specs.List.{list_all};
ghost use Rattle.tool_decimals.specs.Decimals.{decimal_of, decimal_of_word, is_below_zero, number_of, unsigned_decimal};

use lc_base::{are_digits, cut_at};

/// The most digits of a number.
pub const MOST_DIGITS: usize = 100;

/// A number by its digits, as a word has them.
#[derive(Clone, Copy)]
pub struct Decimal<'a> {
    /// Whether a `-` stands in front.
    pub has_minus: bool,
    /// The digits before the point.
    pub whole: &'a [u8],
    /// The digits behind the point.
    pub fraction: &'a [u8],
}

impl<'a> Decimal<'a> {
    /// Whether the number is below 0. `-0` is not.
    pub fn is_below_zero(&self) -> bool
        ensures { result ≡ is_below_zero (number_of self.now) }
    {
        self.has_minus && !(are_zeros(self.whole) && are_zeros(self.fraction))
    }
}

/// Whether each digit is a 0.
pub fn are_zeros(digits: &[u8]) -> bool
    ensures { result ≡ list_all (λ c. nat_eq c 48) digits.now }
{
    digits.iter().all(|digit| *digit == b'0')
}

/// The number that a word is: 1 to 100 digits, perhaps behind a `-`, and perhaps with a point, round
/// which digits stand.
#[tactic(auto, unfolding(crate::specs::Decimals::decimal_of_word))]
pub fn decimal_of_word(word: &[u8]) -> Option<Decimal<'_>>
    ensures { option_map (λ d. number_of d) result ≡ decimal_of_word word.now }
{
    match word {
        [] => None,
        [b'-', rest @ ..] => unsigned_decimal(true, rest),
        _ => unsigned_decimal(false, word),
    }
}

/// A number without its sign.
fn unsigned_decimal(has_minus: bool, word: &[u8]) -> Option<Decimal<'_>>
    ensures { option_map (λ d. number_of d) result ≡ unsigned_decimal has_minus word.now }
{
    match cut_at(b'.', word) {
        None => decimal_of(has_minus, word, &[]),
        Some((_, [])) => None,
        Some((whole, fraction)) => decimal_of(has_minus, whole, fraction),
    }
}

/// The number of whole digits and fraction digits.
fn decimal_of<'a>(has_minus: bool, whole: &'a [u8], fraction: &'a [u8]) -> Option<Decimal<'a>>
    ensures { option_map (λ d. number_of d) result ≡ decimal_of has_minus whole.now fraction.now }
{
    if whole.is_empty() || !are_digits(whole) || !are_digits(fraction) {
        return None;
    }
    if whole.len() > MOST_DIGITS || fraction.len() > MOST_DIGITS - whole.len() {
        return None;
    }
    Some(Decimal {
        has_minus,
        whole,
        fraction,
    })
}
