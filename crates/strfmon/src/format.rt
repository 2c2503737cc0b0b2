//! Formats of amounts (XSH strfmon).

ghost use Rattle.std.specs.Prelude.{◌≡◌, ◌+◌, ◌<◌, ◌≤◌, length, IfSome, IsTrue};
ghost use Rattle.strfmon.specs.Formats.{mark_of, with_mark, with_fill, with_flag, flags, is_international, conversion, plain};

use digit_groups::{leading_number, number_after};

/// How the sign of an amount shows.
#[derive(Clone, Copy)]
pub enum Signs {
    /// By the locale's signs.
    Plus,
    /// By parentheses round negative amounts.
    Parentheses,
}

/// A flag of one byte.
#[derive(Clone, Copy)]
pub enum MoneyFlag {
    /// `^`: digits without groups.
    NoGroups,
    /// `+`: the locale's signs.
    SignTexts,
    /// `(`: negative amounts in parentheses.
    InParentheses,
    /// `!`: no symbol.
    NoSymbol,
    /// `-`: to the left of its field.
    LeftAligned,
}

/// The flags of a conversion.
#[derive(Clone, Copy)]
pub struct Flags {
    /// The byte after `=`, which fills in front of whole digits.
    pub fill: Option<u8>,
    pub no_groups: bool,
    pub signs: Option<Signs>,
    pub no_symbol: bool,
    pub left: bool,
}

/// The conversion of one amount.
#[derive(Clone, Copy)]
pub struct MoneyConversion {
    pub flags: Flags,
    /// The least number of bytes.
    pub width: u8,
    /// The whole digits to align to.
    pub whole_digits: Option<u8>,
    /// The fraction digits.
    pub precision: Option<u8>,
    /// `i`, and not `n`.
    pub international: bool,
}

const NO_FLAGS: Flags = Flags {
    fill: None,
    no_groups: false,
    signs: None,
    no_symbol: false,
    left: false,
};

#[inline(always)]
fn mark_of(byte: u8) -> Option<MoneyFlag>
    ensures { result ≡ mark_of byte }
{
    match byte {
        b'^' => Some(MoneyFlag::NoGroups),
        b'+' => Some(MoneyFlag::SignTexts),
        b'(' => Some(MoneyFlag::InParentheses),
        b'!' => Some(MoneyFlag::NoSymbol),
        b'-' => Some(MoneyFlag::LeftAligned),
        _ => None,
    }
}

/// The flags with one more, if it was not given before.
#[inline(always)]
fn with_mark(flags: Flags, mark: MoneyFlag) -> Option<Flags>
    ensures { result ≡ with_mark flags mark }
{
    let mut more = flags;
    let given = match mark {
        MoneyFlag::NoGroups => {
            more.no_groups = true;
            flags.no_groups
        }
        MoneyFlag::SignTexts => {
            more.signs = Some(Signs::Plus);
            flags.signs.is_some()
        }
        MoneyFlag::InParentheses => {
            more.signs = Some(Signs::Parentheses);
            flags.signs.is_some()
        }
        MoneyFlag::NoSymbol => {
            more.no_symbol = true;
            flags.no_symbol
        }
        MoneyFlag::LeftAligned => {
            more.left = true;
            flags.left
        }
    };
    if given { None } else { Some(more) }
}

/// The flags with a fill, if none was given before.
fn with_fill(flags: Flags, byte: u8) -> Option<Flags>
    ensures { result ≡ with_fill flags byte }
{
    if flags.fill.is_some() || byte < 0x20 || byte > 0x7e {
        return None;
    }
    let mut more = flags;
    more.fill = Some(byte);
    Some(more)
}

/// The flags with the one that a byte and those behind it begin with, and how many bytes it takes.
#[inline(always)]
fn with_flag(flags: Flags, byte: u8, behind: &[u8]) -> Option<(Flags, usize)>
    ensures is { result ≡ with_flag flags byte behind.now }
    ensures within { IfSome result (λ r. r.1 ≤ length behind.now + 1) }
{
    if byte == b'=' {
        return Some((with_fill(flags, *behind.first()?)?, 2));
    }
    match mark_of(byte) {
        Some(mark) => Some((with_mark(flags, mark)?, 1)),
        None => Some((flags, 0)),
    }
}

/// The flags that bytes begin with, and how many bytes they take.
#[inline(always)]
fn flags_of(bytes: &[u8]) -> Option<(Flags, usize)>
    ensures is { result ≡ flags bytes.now }
    ensures within { IfSome result (λ r. r.1 ≤ length bytes.now) }
{
    let mut flags = NO_FLAGS;
    let mut at = 0;
    while at < bytes.len() {
        let Some((more, used)) = with_flag(flags, bytes[at], &bytes[at + 1..]) else {
            return None;
        };
        if used == 0 {
            break;
        }
        flags = more;
        at += used;
    }
    Some((flags, at))
}

/// Whether a conversion ends with `i` or with `n`.
#[inline(always)]
fn is_international(bytes: &[u8]) -> Option<bool>
    ensures is { result ≡ is_international bytes.now }
    ensures some { IfSome result (λ r. 0 < length bytes.now) }
{
    match bytes.first()? {
        b'i' => Some(true),
        b'n' => Some(false),
        _ => None,
    }
}

/// The conversion that bytes behind a `%` begin with, and how many bytes it takes.
#[inline(never)]
fn conversion_of(bytes: &[u8]) -> Option<(MoneyConversion, usize)>
    ensures is { result ≡ conversion bytes.now }
    ensures within { IfSome result (λ r. r.1 ≤ length bytes.now) }
{
    let (flags, mut at) = flags_of(bytes)?;
    let (width, digits) = leading_number(&bytes[at..])?;
    at += digits;
    let (whole_digits, more) = number_after(b'#', 1, &bytes[at..])?;
    at += more;
    let (precision, more) = number_after(b'.', 1, &bytes[at..])?;
    at += more;
    let international = is_international(&bytes[at..])?;
    let conversion = MoneyConversion {
        flags,
        width,
        whole_digits,
        precision,
        international,
    };
    Some((conversion, at + 1))
}

/// The conversion of a letter with nothing before it.
#[inline(always)]
pub fn plain_conversion(international: bool) -> MoneyConversion
    ensures { result ≡ plain international }
{
    MoneyConversion {
        flags: NO_FLAGS,
        width: 0,
        whole_digits: None,
        precision: None,
        international,
    }
}

/// Whether a conversion is that of a letter with nothing before it.
#[inline(always)]
pub fn is_plain(c: &MoneyConversion) -> bool
    ensures { IsTrue result → c.now ≡ plain c.now.international }
{
    match *c {
        MoneyConversion {
            flags: Flags {
                fill: None,
                no_groups: false,
                signs: None,
                no_symbol: false,
                left: false,
            },
            width: 0,
            whole_digits: None,
            precision: None,
            international: _,
        } => true,
        _ => false,
    }
}

/// The conversion that bytes behind a `%` begin with, and how many bytes it takes; at once where it is a
/// letter alone.
#[inline(always)]
pub fn quick_conversion(bytes: &[u8]) -> Option<(MoneyConversion, usize)>
    ensures is { result ≡ conversion bytes.now }
    ensures within { IfSome result (λ r. r.1 ≤ length bytes.now) }
{
    match is_international(bytes) {
        Some(international) => Some((plain_conversion(international), 1)),
        None => conversion_of(bytes),
    }
}
