//! Why a text has no fields.

ghost use Rattle.std.specs.Prelude.{◌≡◌};
ghost use Rattle.strptime_fields.specs.Scans.{refusal_of};

use lc_base::FormatRefusal;
use thiserror::Error;

/// Why a text is no time by a format.
#[derive(Clone, Copy, Debug, PartialEq, Eq, Error)]
pub enum ScanFault {
    /// The `%` at this byte of the format, counted from 0, begins no conversion that is read.
    #[error("no conversion at byte {at} of the format")]
    BadFormat { at: usize },
    /// An item that begins at this byte of the text, counted from 0, is not met.
    #[error("no match at byte {at} of the text")]
    Mismatch { at: usize },
}

impl ScanFault {
    /// Why the text has no fields.
    pub fn refusal(self) -> FormatRefusal
        ensures { result ≡ refusal_of self }
    {
        match self {
            ScanFault::BadFormat { at } => FormatRefusal::BadFormat { at },
            ScanFault::Mismatch { at } => FormatRefusal::Mismatch { at },
        }
    }
}
