//! Why values have no text.

ghost use Rattle.std.specs.Prelude.{◌≡◌};
ghost use Rattle.digit_groups.specs.declared.fault.FormatFault.TheVariants.{Memory};

use std::alloc::{AllocError, AllocFailed};

/// Why a format and its values have no text in a buffer.
#[derive(Clone, Copy)]
pub enum FormatStop {
    /// The `%` at this byte of the format begins no conversion.
    BadFormat { at: usize },
    /// No value is left for the `%` at this byte of the format.
    MissingValue { at: usize },
    /// The text is longer than the buffer: it has so many bytes, or more than `usize::MAX`.
    TooSmall { needed: usize },
}

/// Why a format and its values have no text in a `Vec`.
#[derive(Clone, Copy)]
pub enum FormatFault {
    /// There is no text, or it is longer than the limit.
    Stopped(FormatStop),
    /// Out of memory.
    Memory,
}

impl From<AllocError> for FormatFault {
    ghost from_gives = { λ _ e. e ≡ Memory };

    fn from(_e: AllocError) -> FormatFault {
        FormatFault::Memory
    }
}

impl<T: Drop> From<AllocFailed<T>> for FormatFault {
    ghost from_gives = { λ _ e. e ≡ Memory };

    fn from(_e: AllocFailed<T>) -> FormatFault {
        FormatFault::Memory
    }
}
