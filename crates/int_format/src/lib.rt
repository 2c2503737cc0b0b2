//! Whole numbers as text (XSH fprintf: `d`, `i` and `u` with the flag `'`).
#![tactic(auto)]

ghost use Rattle.std.specs.Prelude.{◌≡◌, true};
ghost use Rattle.std.specs.List.{list_all};
ghost use Rattle.text_buffer.specs.Written.{Written};
ghost use Rattle.int_format.specs.Ints.{is_number, ints, at_most, Answers};

mod digits;
mod fault;
mod format;
mod layout;
mod read;
mod write;

use digit_groups::{FormatConversion, format_into, write_format};
pub use fault::IntFault;
pub use format::{Flags, IntConversion, NumberField, conversion_of, field_of};
use lc_base::{ByteText, FormatRefusal};
use numeric_cat::Numeric;
pub use read::{numbers_are_told_apart, read_grouped};
use std::alloc::Global;
use text_buffer::Unwritten;
use write::{put_number, width_of};

/// How many bytes a text has at first room for beyond those of its format, and once more for each
/// number.
const SPARE: usize = 16;

/// The text of a format with its numbers, at most `max` bytes. Each number is from -2^63 to
/// 2^64 - 1; those that are left over are passed over.
///
/// A conversion is `%`, flags, a width, `.` with a precision, perhaps `l`, `ll` or `j`, and `d`, `i`
/// or `u`. A `%` that begins no conversion is `BadFormat`, and goes before a conversion without a
/// number, which is `MissingNumber`; both go before `TooBig`.
pub fn int_format(
    alloc: Global,
    n: &Numeric,
    format: &[u8],
    numbers: &[i128],
    max: usize,
) -> Result<ByteText, IntFault>
    requires { list_all is_number numbers.now ≡ true }
    ensures { Answers (λ text. text) result (at_most max (ints n.now format.now numbers.now)) }
{
    let mut out = Vec::new(alloc);
    let room = first_room(format, numbers.len());
    match format_into::<IntConversion>(&mut out, n, format, numbers, room, max) {
        Ok(()) => Ok(ByteText::from_vec(out)),
        Err(fault) => Err(IntFault::from(fault)),
    }
}

/// Writes the text of a format with its numbers, however long, to the front of a buffer, and says how
/// many bytes it has. No memory is asked for.
///
/// The refusals are those of [`int_format`], and go before `TooSmall`, which tells the length of the
/// text. Behind the text, and everywhere where there is none, the buffer is as before.
#[inline(always)]
pub fn int_format_to(
    buffer: &mut [u8],
    n: &Numeric,
    format: &[u8],
    numbers: &[i128],
) -> Result<usize, Unwritten>
    requires { list_all is_number numbers.now ≡ true }
    ensures { Written buffer.old buffer.new result (ints n.now format.now numbers.now) }
{
    write_format::<IntConversion>(buffer, n, format, numbers)
}

/// How many bytes a text of a format with so many numbers has at first room for. A conversion has two
/// bytes at least, so more numbers than half the format's bytes are left over.
#[inline(always)]
fn first_room(format: &[u8], numbers: usize) -> usize {
    let written = numbers.min(format.len() / 2).saturating_add(1);
    format.len().saturating_add(written.saturating_mul(SPARE))
}

impl FormatConversion for IntConversion {
    ghost use Rattle.lc_base.specs.declared.refusal.FormatRefusal.TheVariants.{MissingNumber};
    ghost use Rattle.int_format.specs.Formats.{conversion};
    ghost use Rattle.int_format.specs.Ints.{conversion_text, is_number};

    type Category = Numeric;

    type Value = i128;

    ghost conversion = { conversion };

    ghost text = { conversion_text };

    ghost is_value = { is_number };

    ghost lacks = { λ at. MissingNumber at };

    #[inline(always)]
    fn read(bytes: &[u8]) -> Option<(IntConversion, usize)> {
        conversion_of(bytes)
    }

    fn lacking(at: usize) -> FormatRefusal {
        FormatRefusal::MissingNumber { at }
    }

    #[inline(always)]
    fn width(&self, category: &Numeric, value: i128) -> u128 {
        width_of(category, self, value)
    }

    #[inline(always)]
    fn put(&self, target: &mut [u8], category: &Numeric, value: i128) -> u128 {
        put_number(target, category, self, value)
    }
}
