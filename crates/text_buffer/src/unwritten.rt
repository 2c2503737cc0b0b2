//! Why a text is not in a buffer.

use lc_base::FormatRefusal;

/// Why a text is not in a buffer.
#[derive(Clone, Copy)]
pub enum Unwritten {
    /// There is no text.
    Refused(FormatRefusal),
    /// The buffer has fewer bytes than the text.
    TooSmall {
        /// The length of the text, or `usize::MAX` where it is longer than that.
        needed: usize,
    },
}
