//! Why a format and what it is given have no answer.

/// Why a format has no text of what it is given (XSH strfmon, strftime, fprintf), or a text none of what
/// the format reads (XSH strptime). Bytes are counted from 0.
#[derive(Clone, Copy, PartialEq, Eq)]
pub enum FormatRefusal {
    /// The `%` at this byte of the format begins no conversion.
    BadFormat { at: usize },
    /// No amount is left for the `%` at this byte of the format.
    MissingAmount { at: usize },
    /// No number is left for the `%` at this byte of the format.
    MissingNumber { at: usize },
    /// What begins at this byte of the text is not what the format wants there.
    Mismatch { at: usize },
    /// The text is longer than it may be.
    TooBig,
}
