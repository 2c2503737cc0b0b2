//! What commands that format and scan are given.

ghost use Rattle.std.specs.Prelude.{◌≡◌, ◌≤◌, length};
ghost use Rattle.script_words.specs.Words.{bounded};

use lc_base::ByteText;
use std::marker::Model;

/// The most bytes of a format.
pub const FORMAT_LIMIT: usize = 1024;

/// The most bytes of a text, where a command says how many there may be.
pub const MAX_LIMIT: u32 = 4096;

/// The most bytes of a text, where a command does not say it.
pub const DEFAULT_MAX: u32 = 1024;

/// The most amounts of a command.
pub const AMOUNT_LIMIT: usize = 64;

/// The most digits of an amount in front of its point.
pub const WHOLE_DIGITS: usize = 19;

/// The most digits of an amount behind its point.
pub const FRACTION_DIGITS: usize = 18;

/// The most numbers of a command.
pub const NUMBER_LIMIT: usize = 64;

/// The most digits of a number.
pub const NUMBER_DIGITS: usize = 20;

/// The most bytes of a text that a command is given in quotes.
pub const TEXT_LIMIT: usize = 1024;

/// The most digits of a number of a time.
pub const TIME_DIGITS: usize = 9;

/// The most bytes of the name of a time zone.
pub const ZONE_LIMIT: usize = 32;

/// A format of at most 1024 bytes.
pub struct Format {
    text: ByteText,
}

impl Drop for Format {
    fn drop(self) {
        let Format { text: _ } = self;
    }
}

impl Model for Format {
    ghost use Rattle.std.specs.Prelude.{ℕ, ◌≤◌, List, length};
    ghost use Rattle.script_words.specs.Limits.{FORMAT_LIMIT};

    ghost Value = { List ℕ };

    ghost view = { λ f. f.text };

    ghost invariant = { λ f. length f.text ≤ FORMAT_LIMIT };
}

impl Format {
    ghost use Rattle.script_words.specs.Limits.{FORMAT_LIMIT};

    /// The format of a text; `None` where the text has more than 1024 bytes.
    pub fn of(text: ByteText) -> Option<Format>
        ensures { result ≡ bounded FORMAT_LIMIT text }
    {
        if text.as_bytes().len() > FORMAT_LIMIT {
            return None;
        }
        Some(Format { text })
    }

    /// The bytes of the format.
    pub fn as_bytes(&self) -> &[u8]
        ensures is { result.now ≡ self.now }
        ensures short { length result.now ≤ FORMAT_LIMIT }
    {
        self.text.as_bytes()
    }
}

/// A whole number as it is written, from -2^63 to 2^64 - 1.
#[derive(Clone, Copy)]
pub struct WrittenNumber {
    number: i128,
}

impl Model for WrittenNumber {
    ghost use Rattle.std.specs.Prelude.{◌≡◌, ℤ, true};
    ghost use Rattle.script_words.specs.Numbers.{is_number};

    ghost Value = { ℤ };

    ghost view = { λ n. n.number };

    ghost invariant = { λ n. is_number n.number ≡ true };

    ghost inverse = { λ n. record { number = n } };
}

impl WrittenNumber {
    ghost use Rattle.std.specs.Prelude.{true};
    ghost use Rattle.script_words.specs.Numbers.{is_number, in_range};

    /// The number, if it is from -2^63 to 2^64 - 1.
    pub fn of(number: i128) -> Option<WrittenNumber>
        ensures { result ≡ in_range number }
    {
        if number < i128::from(i64::MIN) || number > i128::from(u64::MAX) {
            return None;
        }
        Some(WrittenNumber { number })
    }

    pub fn value(self) -> i128
        ensures is { result ≡ self }
        ensures in_range { is_number result ≡ true }
    {
        self.number
    }
}

/// A text of at most 1024 bytes that a command is given in quotes.
pub struct CommandText {
    text: ByteText,
}

impl Drop for CommandText {
    fn drop(self) {
        let CommandText { text: _ } = self;
    }
}

impl Model for CommandText {
    ghost use Rattle.std.specs.Prelude.{ℕ, ◌≤◌, List, length};
    ghost use Rattle.script_words.specs.Limits.{TEXT_LIMIT};

    ghost Value = { List ℕ };

    ghost view = { λ t. t.text };

    ghost invariant = { λ t. length t.text ≤ TEXT_LIMIT };
}

impl CommandText {
    ghost use Rattle.script_words.specs.Limits.{TEXT_LIMIT};

    /// The text; `None` where it has more than 1024 bytes.
    pub fn of(text: ByteText) -> Option<CommandText>
        ensures { result ≡ bounded TEXT_LIMIT text }
    {
        if text.as_bytes().len() > TEXT_LIMIT {
            return None;
        }
        Some(CommandText { text })
    }

    /// The bytes of the text.
    pub fn as_bytes(&self) -> &[u8]
        ensures is { result.now ≡ self.now }
        ensures short { length result.now ≤ TEXT_LIMIT }
    {
        self.text.as_bytes()
    }

    /// The text itself. Takes no memory.
    pub fn into_text(self) -> ByteText
        ensures { result ≡ self }
    {
        let CommandText { text } = self;
        text
    }
}

/// A time as it is written, whose fields may be out of range.
pub struct UncheckedTime {
    pub year: i32,
    /// From 1.
    pub mon: i32,
    pub mday: i32,
    pub hour: i32,
    pub min: i32,
    pub sec: i32,
    /// From 0 on Sunday.
    pub wday: i32,
    /// From 0.
    pub yday: i32,
    /// Minutes east of UTC.
    pub offset: Option<i32>,
    /// The name of the time zone, which may be empty.
    pub zone: ByteText,
}

impl Drop for UncheckedTime {
    fn drop(self) {
        let UncheckedTime {
            year: _,
            mon: _,
            mday: _,
            hour: _,
            min: _,
            sec: _,
            wday: _,
            yday: _,
            offset: _,
            zone: _,
        } = self;
    }
}
