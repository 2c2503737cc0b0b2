//! What the table says of a keyword.

/// What one operand is read as.
#[derive(Clone, Copy)]
pub enum Element {
    /// A pair of characters.
    CasePair,
    /// A name, in quotes or not.
    Word,
    /// A text in quotes.
    Quote,
    /// A number.
    Whole,
}

/// What a keyword takes.
#[derive(Clone, Copy)]
pub enum Operands {
    /// The name of the locale whose category is copied.
    Copied,
    /// Characters and ranges of them.
    Characters,
    /// One operand.
    One(Element),
    /// Any number of operands.
    Several(Element),
    /// Operands that are not read.
    PassedOver,
}

/// What the operands of a keyword must be, beyond their kind.
#[derive(Clone, Copy)]
pub enum Rule {
    /// Nothing more.
    Free,
    /// Texts that are not empty, else `EmptyRadix`.
    NotEmpty,
    /// Texts of no bytes or of four, else `BadCurrency`.
    EmptyOrFour,
    /// Numbers from the first to the second, else `BadNumber`.
    Between(i32, i32),
    /// The ten digits, else `DigitsNotTen`.
    TenDigits,
    /// Pairs of characters that have case, else `NotCased`.
    Cased,
    /// Names for classes, else `BadClassName`.
    ClassNames,
    /// So many names, else `WrongCount`.
    Names(usize),
    /// A format of this rank.
    Format(u8),
    /// Segments of eras.
    Segments,
    /// Alternative digits.
    Digits,
}

/// The value of a keyword in the POSIX locale, and where a section lacks it.
#[derive(Clone, Copy)]
pub enum Posix {
    /// None is kept.
    Nothing,
    Text(&'static [u8]),
    /// A number, alone where there may be several.
    Number(i32),
    Texts(&'static [&'static [u8]]),
    /// Ranges of wide values.
    Ranges(&'static [(u32, u32)]),
    /// Pairs of wide values.
    Pairs(&'static [(u32, u32)]),
    /// The pairs of `toupper` the other way round.
    TurnedUpper,
}

/// A keyword.
#[derive(Clone, Copy)]
pub struct Keyword {
    pub name: &'static [u8],
    pub takes: Operands,
    pub rule: Rule,
    pub posix: Posix,
}
