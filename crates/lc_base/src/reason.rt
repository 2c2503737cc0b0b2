//! Why a text is refused.

ghost use Rattle.std.specs.Prelude.{◌≡◌};
ghost use Rattle.lc_base.specs.Classes.{class_name};

/// A rule that a bundle, a charmap or a locale source breaks.
#[derive(Clone, Copy, Debug, PartialEq, Eq)]
pub enum Reason {
    /// A line of the bundle is wrong in this part.
    BadLine(LinePart),
    /// A block, a section or a charmap has no end.
    NoEnd,
    /// There are more of these than the limit allows.
    OverLimit(Limit),
    /// A name was given before.
    NameTwice,
    /// The charset is neither built in nor a charmap of the bundle.
    NoCharmap,
    /// The native locale is not there.
    NoNative,
    /// No `.thread` line names the thread.
    NoThread,
    /// No `.later` block has the key.
    NoLater,
    /// A header line of a charmap is wrong.
    BadHeader,
    /// An encoding of a charmap is wrong or missing.
    BadEncoding,
    /// A range of a charmap runs backward or is not formed as one.
    RangeBackward,
    /// A portable name has another encoding than its own.
    PortableMoved,
    /// An operand is missing, of the wrong kind or one too many.
    WrongOperand,
    /// An escape begins no byte.
    BadEscape,
    /// A quoted text is not closed.
    OpenString,
    /// A character's name is not closed.
    OpenName,
    /// A section of this category stands there already.
    SectionTwice,
    /// The section has no such keyword.
    UnknownKeyword,
    /// The keyword stands in the section already.
    KeywordTwice,
    /// A section that copies has another line.
    CopyNotAlone,
    /// The charset has no such character.
    UnknownCharacter,
    /// The copied locale is not there, or lacks the category.
    CopyMissing,
    /// The copies never end.
    CopyCycle,
    /// A class has a name that is not formed as one, or is taken.
    BadClassName,
    /// A digit is not one of the ten.
    DigitsNotTen,
    /// A case pair has a character without case.
    NotCased,
    /// Two classes that exclude one another share this wide value.
    Excluded(Class, Class, u32),
    /// The decimal point is empty.
    EmptyRadix,
    /// The international currency symbol has neither 0 nor 4 bytes.
    BadCurrency,
    /// A number is out of its range.
    BadNumber,
    /// A keyword of `LC_TIME` has the wrong number of texts.
    WrongCount,
    /// An era's segment is not formed as one.
    BadEra,
    /// A `%` at this byte of the decoded text, counted from 0, begins no conversion.
    BadFormat(u32),
    /// A format has a conversion of its own rank or above.
    FormatRank,
    /// There are more than 100 alternative digits.
    TooManyDigits,
    /// A line of a message catalog is wrong.
    BadMessage,
}

/// A part of a line of the bundle.
#[derive(Clone, Copy, Debug, PartialEq, Eq)]
pub enum LinePart {
    Directive,
    Command,
    Argument,
    Thread,
}

/// A limit of the bundle or of the texts in it.
#[derive(Clone, Copy, Debug, PartialEq, Eq)]
pub enum Limit {
    /// 64 locales.
    Locales,
    /// 64 later blocks.
    Later,
    /// 16 charmaps.
    Charmaps,
    /// 16 threads.
    Threads,
    /// 64 rounds.
    Rounds,
    /// 20000 commands.
    Commands,
    /// 1024 bytes of a format in a command.
    Format,
    /// 64 amounts of a command.
    Amounts,
    /// 64 whole numbers of a command.
    Numbers,
    /// 1024 bytes of a text in a command.
    CommandText,
    /// 64 message catalogs.
    Catalogs,
    /// 65536 names of a charmap.
    Names,
    /// 65536 operands in a line.
    Operands,
    /// 256 decoded bytes of a quoted operand.
    Text,
    /// 4096 bytes of a list of texts.
    Texts,
    /// 16 conversions of a format.
    Conversions,
    /// 4096 bytes of a message.
    Message,
    /// 4096 messages of a catalog.
    Messages,
}

/// A character class that another one excludes.
#[derive(Clone, Copy, Debug, PartialEq, Eq)]
pub enum Class {
    Upper,
    Lower,
    Alpha,
    Digit,
    Space,
    Cntrl,
    Punct,
    Graph,
    Print,
    Xdigit,
}

impl Class {
    /// The name of the class, as a locale source has it (XBD 7.3.1).
    pub fn name(self) -> &'static [u8]
        ensures { result.now ≡ class_name self }
    {
        match self {
            Class::Upper => b"upper",
            Class::Lower => b"lower",
            Class::Alpha => b"alpha",
            Class::Digit => b"digit",
            Class::Space => b"space",
            Class::Cntrl => b"cntrl",
            Class::Punct => b"punct",
            Class::Graph => b"graph",
            Class::Print => b"print",
            Class::Xdigit => b"xdigit",
        }
    }
}
