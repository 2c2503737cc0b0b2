//! Conversions of values, as a format has them behind a `%` (XSH fprintf and strfmon).

ghost use Rattle.std.specs.Prelude.{◌≡◌, ◌≤◌, length, IfSome};
ghost use Rattle.digit_groups.specs.Conversions.{number_after};

use crate::number::leading_number;
use lc_base::FormatRefusal;

/// A conversion of a value to text.
pub trait FormatConversion: Copy {
    ghost use Rattle.std.specs.Prelude.{◌≡◌, ◌≤◌, ◌<◌, ℕ, List, Option, Bool, true, length, IfSome};
    ghost use Rattle.lc_base.specs.declared.refusal.FormatRefusal.{FormatRefusal};
    ghost use Rattle.text_buffer.specs.Written.{over};

    /// What says how values are written, as a category of a locale.
    type Category;

    /// What is converted.
    type Value: Copy;

    /// The conversion that bytes behind a `%` begin with, and how many bytes it takes.
    ghost conversion: { List ℕ → Option (Self × ℕ) };

    /// The text of a value.
    ghost text: { Self.Category → Self → Self.Value → List ℕ };

    /// Whether a value can be converted.
    ghost is_value: { Self.Value → Bool };

    /// The refusal where no value is left for the `%` at a place.
    ghost lacks: { ℕ → FormatRefusal };

    /// Reads the conversion that bytes behind a `%` begin with.
    fn read(bytes: &[u8]) -> Option<(Self, usize)>
        ensures is { result ≡ conversion bytes.now }
        ensures within { IfSome result (λ r. r.1 ≤ length bytes.now) };

    /// The refusal where no value is left for the `%` at a place.
    fn lacking(at: usize) -> FormatRefusal
        ensures { result ≡ lacks at };

    /// How many bytes the text of a value has.
    fn width(&self, category: &Self::Category, value: Self::Value) -> u128
        requires { is_value value ≡ true }
        ensures { result ≡ length (text category.now self.now value) };

    /// Writes the text of a value to the front of a buffer, if it has room for all of it, and says how
    /// many bytes the text has.
    fn put(&self, target: &mut [u8], category: &Self::Category, value: Self::Value) -> u128
        requires { is_value value ≡ true }
        ensures width { result ≡ length (text category.now self.now value) }
        ensures written { result ≤ length target.old → target.new ≡ over target.old 0 (text category.now self.now value) }
        ensures kept { length target.old < result → target.new ≡ target.old };
}

/// The number behind a sign, if the sign is there, and how many bytes both take. `None` where the
/// number is over 255 or has fewer digits.
#[inline(always)]
pub fn number_after(sign: u8, least: usize, bytes: &[u8]) -> Option<(Option<u8>, usize)>
    ensures is { result ≡ number_after sign least bytes.now }
    ensures within { IfSome result (λ r. r.1 ≤ length bytes.now) }
{
    match bytes {
        [first, rest @ ..] if *first == sign => {
            let (value, count) = leading_number(rest)?;
            if count < least {
                return None;
            }
            Some((Some(value), count + 1))
        }
        _ => Some((None, 0)),
    }
}
