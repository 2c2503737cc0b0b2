//! Why numbers have no text.

ghost use Rattle.std.specs.Prelude.{◌≡◌};
ghost use Rattle.lc_base.specs.declared.refusal.FormatRefusal.TheVariants.{MissingNumber};
ghost use Rattle.digit_groups.specs.Formats as formats;
ghost use Rattle.int_format.specs.Ints.{refusal_of};

use digit_groups::{FormatFault, FormatStop};
use lc_base::FormatRefusal;
use thiserror::Error;

/// Why a format and its numbers have no text.
#[derive(Clone, Copy, Debug, PartialEq, Eq, Error)]
pub enum IntFault {
    /// The `%` at this byte of the format begins no conversion.
    #[error("the `%` at byte {at} begins no conversion")]
    BadFormat { at: usize },
    /// No number is left for the `%` at this byte of the format.
    #[error("no number is left for the `%` at byte {at}")]
    MissingNumber { at: usize },
    /// The text is longer than the limit.
    #[error("the text is longer than the limit")]
    TooBig,
    /// Out of memory.
    #[error("out of memory")]
    Memory,
}

impl IntFault {
    /// Why there is no text, unless it was out of memory.
    pub fn refusal(self) -> Option<FormatRefusal>
        ensures { result ≡ refusal_of self }
    {
        match self {
            IntFault::BadFormat { at } => Some(FormatRefusal::BadFormat { at }),
            IntFault::MissingNumber { at } => Some(FormatRefusal::MissingNumber { at }),
            IntFault::TooBig => Some(FormatRefusal::TooBig),
            IntFault::Memory => None,
        }
    }
}

impl From<FormatFault> for IntFault {
    ghost from_gives = { λ f e. refusal_of e ≡ formats.refusal_of (λ at. MissingNumber at) f };

    fn from(fault: FormatFault) -> IntFault {
        match fault {
            FormatFault::Stopped(FormatStop::BadFormat { at }) => IntFault::BadFormat { at },
            FormatFault::Stopped(FormatStop::MissingValue { at }) => IntFault::MissingNumber { at },
            FormatFault::Stopped(FormatStop::TooSmall { needed: _ }) => IntFault::TooBig,
            FormatFault::Memory => IntFault::Memory,
        }
    }
}
