//! Why numbers have no text.

ghost use Rattle.tool_decimals.specs.declared.fault.NumbersFault.TheVariants.{Memory};
ghost use Rattle.std.specs.Prelude.{◌≡◌};

use std::alloc::{AllocError, AllocFailed};

/// Why a format and its numbers have no text.
#[derive(Clone, Copy)]
pub enum NumbersFault<'a> {
    /// A word is no number.
    NoNumber(&'a str),
    /// The `%` at this byte of the format begins no conversion.
    BadFormat { at: usize },
    /// No number is left for the `%` at this byte of the format.
    MissingNumber { at: usize },
    /// A word is for a conversion of whole numbers, and no whole number from -2^63 to 2^64 - 1.
    NotWhole(&'a str),
    /// The text is longer than the limit.
    TooBig,
    /// Out of memory.
    Memory,
}

impl<'a> From<AllocError> for NumbersFault<'a> {
    ghost from_gives = { λ _ e. e ≡ Memory };

    fn from(_e: AllocError) -> NumbersFault<'a> {
        NumbersFault::Memory
    }
}

impl<'a, T: Drop> From<AllocFailed<T>> for NumbersFault<'a> {
    ghost from_gives = { λ _ e. e ≡ Memory };

    fn from(_e: AllocFailed<T>) -> NumbersFault<'a> {
        NumbersFault::Memory
    }
}
