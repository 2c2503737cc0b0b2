//! What calls answer.

ghost use Rattle.std.specs.Prelude.{◌≡◌};
ghost use Rattle.c_values.specs.Answers.{answered, refusal_told};

use lc_base::FormatRefusal;

/// The version of the library: 100 of a major version and 1 of a minor one.
pub const VERSION: u32 = 100;

/// The call did what it says.
pub const OK: u32 = 0;

/// Out of memory.
pub const NO_MEMORY: u32 = 1;

/// The text has 2^31 bytes or more.
pub const TOO_LONG: u32 = 2;

/// The text breaks a rule.
pub const BAD_TEXT: u32 = 3;

/// The locale is not one of the library.
pub const NO_LOCALE: u32 = 4;

/// The mask has a bit that no category has.
pub const BAD_MASK: u32 = 5;

/// No locale with the name has data for a category.
pub const NO_DATA: u32 = 6;

/// The text does not fit into the buffer.
pub const TOO_SMALL: u32 = 7;

/// A `%` begins no conversion.
pub const BAD_FORMAT: u32 = 8;

/// A conversion has no argument.
pub const MISSING: u32 = 9;

/// The scale of an amount is over 18.
pub const BAD_AMOUNT: u32 = 10;

/// A field of a time is out of its range.
pub const TM_RANGE: u32 = 11;

/// There is no such item.
pub const NO_ITEM: u32 = 12;

/// There is no such class.
pub const NO_CLASS: u32 = 13;

/// The text does not meet the format.
pub const MISMATCH: u32 = 14;

/// The charset of the locale is not UTF-8.
pub const NOT_UTF8: u32 = 15;

/// The text is not UTF-8 at a byte.
pub const BAD_CHARACTER: u32 = 16;

/// There are too many parts of a kind, or too many locales or catalogs together.
pub const TOO_MANY: u32 = 17;

/// A name or a label of a part is not formed as one.
pub const BAD_NAME: u32 = 18;

/// Another part of the kind has the name already.
pub const NAME_TWICE: u32 = 19;

/// The charset of a source is neither built in nor a charmap among the parts.
pub const NO_CHARMAP: u32 = 20;

/// There is no such catalog.
pub const NO_CATALOG: u32 = 21;

/// The catalog has no such message.
pub const NO_MESSAGE: u32 = 22;

/// What a call answers: a code, and a number whose meaning the call says. C has `lobj_answer` for it.
#[repr(C)]
#[derive(Clone, Copy)]
pub struct LobjAnswer {
    pub code: u32,
    pub n: usize,
}

/// An answer.
#[inline(always)]
pub fn answered(code: u32, n: usize) -> LobjAnswer
    ensures { result ≡ answered code n }
{
    LobjAnswer { code, n }
}

/// The answer where a format has none.
pub fn refusal_told(refusal: FormatRefusal) -> LobjAnswer
    ensures { result ≡ refusal_told refusal }
{
    match refusal {
        FormatRefusal::BadFormat { at } => answered(BAD_FORMAT, at),
        FormatRefusal::MissingAmount { at } => answered(MISSING, at),
        FormatRefusal::MissingNumber { at } => answered(MISSING, at),
        FormatRefusal::Mismatch { at } => answered(MISMATCH, at),
        FormatRefusal::TooBig => answered(TOO_SMALL, 0),
    }
}
