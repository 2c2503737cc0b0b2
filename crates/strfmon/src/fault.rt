//! Why amounts have no text.

ghost use Rattle.std.specs.Prelude.{◌≡◌};
ghost use Rattle.lc_base.specs.declared.refusal.FormatRefusal.TheVariants.{MissingAmount};
ghost use Rattle.digit_groups.specs.Formats as formats;
ghost use Rattle.strfmon.specs.Money.{refusal_of};
ghost use Rattle.strfmon.specs.declared.fault.MoneyFault.TheVariants.{Memory};

use digit_groups::{FormatFault, FormatStop};
use lc_base::FormatRefusal;
use std::alloc::AllocError;
use thiserror::Error;

/// Why a format and its amounts have no text.
#[derive(Clone, Copy, Debug, PartialEq, Eq, Error)]
pub enum MoneyFault {
    /// The `%` at this byte of the format begins no conversion.
    #[error("the `%` at byte {at} begins no conversion")]
    BadFormat { at: usize },
    /// No amount is left for the `%` at this byte of the format.
    #[error("no amount is left for the `%` at byte {at}")]
    MissingAmount { at: usize },
    /// The text is longer than the limit.
    #[error("the text is longer than the limit")]
    TooBig,
    /// Out of memory.
    #[error("out of memory")]
    Memory,
}

impl MoneyFault {
    /// Why there is no text, unless it was out of memory.
    pub fn refusal(self) -> Option<FormatRefusal>
        ensures { result ≡ refusal_of self }
    {
        match self {
            MoneyFault::BadFormat { at } => Some(FormatRefusal::BadFormat { at }),
            MoneyFault::MissingAmount { at } => Some(FormatRefusal::MissingAmount { at }),
            MoneyFault::TooBig => Some(FormatRefusal::TooBig),
            MoneyFault::Memory => None,
        }
    }
}

impl From<AllocError> for MoneyFault {
    ghost from_gives = { λ _ e. e ≡ Memory };

    fn from(_e: AllocError) -> MoneyFault {
        MoneyFault::Memory
    }
}

impl From<FormatFault> for MoneyFault {
    ghost from_gives = { λ f e. refusal_of e ≡ formats.refusal_of (λ at. MissingAmount at) f };

    fn from(fault: FormatFault) -> MoneyFault {
        match fault {
            FormatFault::Stopped(FormatStop::BadFormat { at }) => MoneyFault::BadFormat { at },
            FormatFault::Stopped(FormatStop::MissingValue { at }) => {
                MoneyFault::MissingAmount { at }
            }
            FormatFault::Stopped(FormatStop::TooSmall { needed: _ }) => MoneyFault::TooBig,
            FormatFault::Memory => MoneyFault::Memory,
        }
    }
}
