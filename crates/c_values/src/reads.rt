//! Locales that are made, and what is asked of one without a buffer.

ghost use Rattle.std.specs.Prelude.{◌≡◌, Some};
ghost use Rattle.c_values.specs.Answers.{IsNumberTold, IsReadBack, locale_told, new_told, number_told, class_told};

use crate::answer::{BAD_MASK, LobjAnswer, MISMATCH, NO_CLASS, NO_DATA, NO_LOCALE, OK, answered};
use lc_base::Mask;
use shared_objects::{LocaleParts, MarkedLibrary, NewFault, View};

/// Writes a locale that was made.
fn put_locale(out: &mut LocaleParts, made: Result<LocaleParts, NewFault>) -> LobjAnswer
    ensures { (result, out.new) ≡ locale_told out.old made }
{
    match made {
        Ok(locale) => {
            *out = locale;
            answered(OK, 0)
        }
        Err(NewFault::NoLocale) => answered(NO_LOCALE, 0),
        Err(NewFault::NoData(category)) => answered(NO_DATA, category.bit() as usize),
    }
}

/// Writes the locale of the bits of a mask, a name and a base.
pub fn put_new(
    out: &mut LocaleParts,
    library: &MarkedLibrary,
    bits: u32,
    name: &[u8],
    base: &LocaleParts,
) -> LobjAnswer
    ensures { (result, out.new) ≡ new_told out.old library.now bits name.now base.now }
{
    if bits < 32 {
        match Mask::of_bits(bits) {
            Some(mask) => put_locale(out, library.new_locale(mask, name, base)),
            None => unreachable!(),
        }
    } else {
        answered(BAD_MASK, 0)
    }
}

/// The number of a class.
#[inline(always)]
pub fn number_told(number: Option<usize>) -> LobjAnswer
    ensures { result ≡ number_told number }
{
    match number {
        None => answered(NO_CLASS, 0),
        Some(number) => answered(OK, number),
    }
}

/// Whether a character is of a class: 1 or 0.
#[inline(always)]
pub fn class_told(is: Option<bool>) -> LobjAnswer
    ensures { result ≡ class_told is }
{
    match is {
        None => answered(NO_CLASS, 0),
        Some(true) => answered(OK, 1),
        Some(false) => answered(OK, 0),
    }
}

/// Writes the whole number that a text spells, if it is one of an `i64`.
pub fn put_number(out: &mut i64, view: &View<'_>, text: &[u8]) -> LobjAnswer
    ensures told { IsNumberTold (Some view.now) text.now result out.old out.new }
    ensures back { IsReadBack (Some view.now) text.now result out.new }
{
    let Some(read) = view.read_number(text) else {
        return answered(MISMATCH, 0);
    };
    match i64::try_from(read) {
        Ok(number) => {
            *out = number;
            answered(OK, 0)
        }
        Err(_) => answered(MISMATCH, 0),
    }
}
