//! Why there is no text.

ghost use Rattle.std.specs.Prelude.{◌≡◌};
ghost use Rattle.strftime_fields.specs.Answers.{refusal_of, fault_of};
ghost use Rattle.strftime_fields.specs.declared.fault.TimeFault.TheVariants.{Memory};

use crate::Stop;
use lc_base::FormatRefusal;
use std::alloc::{AllocError, AllocFailed};
use thiserror::Error;

/// Why a time has no text.
#[derive(Clone, Copy, Debug, PartialEq, Eq, Error)]
pub enum TimeFault {
    /// The `%` at this byte of the format, counted from 0, begins no conversion.
    #[error("no conversion at byte {at}")]
    BadFormat { at: usize },
    /// The text is longer than it may be.
    #[error("the text is too long")]
    TooBig,
    /// Out of memory.
    #[error("out of memory")]
    Memory,
}

impl TimeFault {
    /// Why there is no text, unless it was out of memory.
    pub fn refusal(self) -> Option<FormatRefusal>
        ensures { result ≡ refusal_of self }
    {
        match self {
            TimeFault::BadFormat { at } => Some(FormatRefusal::BadFormat { at }),
            TimeFault::TooBig => Some(FormatRefusal::TooBig),
            TimeFault::Memory => None,
        }
    }
}

impl From<AllocError> for TimeFault {
    ghost from_gives = { λ _ e. e ≡ Memory };

    fn from(_e: AllocError) -> TimeFault {
        TimeFault::Memory
    }
}

impl<T: Drop> From<AllocFailed<T>> for TimeFault {
    ghost from_gives = { λ _ e. e ≡ Memory };

    fn from(_e: AllocFailed<T>) -> TimeFault {
        TimeFault::Memory
    }
}

impl From<Stop> for TimeFault {
    ghost from_gives = { λ s e. e ≡ fault_of s };

    fn from(stop: Stop) -> TimeFault {
        match stop {
            Stop::TooBig => TimeFault::TooBig,
            Stop::Memory => TimeFault::Memory,
        }
    }
}
