//! Conversions of whole numbers (XSH fprintf).

ghost use Rattle.std.specs.Prelude.{◌≡◌, ◌+◌, ◌≤◌, ◌<◌, length, IfSome};
ghost use Rattle.int_format.specs.Formats.{mark_of, with_mark, flags, behind_width, behind_flags, field, modifier, is_signed, letter, conversion};

use digit_groups::{leading_number, number_after};

/// A flag.
#[derive(Clone, Copy)]
pub enum IntFlag {
    /// `'`: digits in groups.
    Groups,
    /// `-`: to the left of its field.
    LeftAligned,
    /// `+`: a sign before numbers that are not below 0.
    PlusSign,
    /// A space: a space before numbers that are not below 0.
    SpaceSign,
    /// `0`: zeros up to the width.
    Zeros,
}

/// The flags of a conversion.
#[derive(Clone, Copy)]
pub struct Flags {
    /// `'`: digits in groups.
    pub groups: bool,
    /// `-`: to the left of its field.
    pub left: bool,
    /// `+`: a sign before numbers that are not below 0.
    pub plus: bool,
    /// A space: a space before numbers that are not below 0.
    pub space: bool,
    /// `0`: zeros up to the width.
    pub zeros: bool,
}

/// What stands between the `%` of a conversion and its letter, but for `l`, `ll` or `j`.
#[derive(Clone, Copy)]
pub struct NumberField {
    pub flags: Flags,
    /// The least number of bytes.
    pub width: u8,
    /// The least number of digits, or of `f` the number of fraction digits.
    pub precision: Option<u8>,
}

/// The conversion of one number.
#[derive(Clone, Copy)]
pub struct IntConversion {
    pub flags: Flags,
    /// The least number of bytes.
    pub width: u8,
    /// The least number of digits.
    pub precision: Option<u8>,
    /// `d` or `i`, and not `u`.
    pub signed: bool,
}

const NO_FLAGS: Flags = Flags {
    groups: false,
    left: false,
    plus: false,
    space: false,
    zeros: false,
};

#[inline(always)]
fn mark_of(byte: u8) -> Option<IntFlag>
    ensures { result ≡ mark_of byte }
{
    match byte {
        b'\'' => Some(IntFlag::Groups),
        b'-' => Some(IntFlag::LeftAligned),
        b'+' => Some(IntFlag::PlusSign),
        b' ' => Some(IntFlag::SpaceSign),
        b'0' => Some(IntFlag::Zeros),
        _ => None,
    }
}

/// The flags with one more.
#[inline(always)]
fn with_mark(flags: Flags, mark: IntFlag) -> Flags
    ensures { result ≡ with_mark flags mark }
{
    let mut more = flags;
    match mark {
        IntFlag::Groups => more.groups = true,
        IntFlag::LeftAligned => more.left = true,
        IntFlag::PlusSign => more.plus = true,
        IntFlag::SpaceSign => more.space = true,
        IntFlag::Zeros => more.zeros = true,
    }
    more
}

/// The flags that bytes begin with, and how many bytes they take.
#[tactic(auto, unfolding(crate::specs::Formats::flags_behind))]
#[inline(always)]
fn flags_of(bytes: &[u8]) -> (Flags, usize)
    ensures is { result ≡ flags bytes.now }
    ensures within { result.1 ≤ length bytes.now }
{
    let mut flags = NO_FLAGS;
    let mut count = 0;
    for byte in bytes {
        let Some(mark) = mark_of(*byte) else {
            break;
        };
        flags = with_mark(flags, mark);
        count += 1;
    }
    (flags, count)
}

/// The field whose flags and width stand in front of these bytes, and how many of these it takes.
#[inline(always)]
fn behind_width(flags: Flags, width: u8, bytes: &[u8]) -> Option<(NumberField, usize)>
    ensures is { result ≡ behind_width flags width bytes.now }
    ensures within { IfSome result (λ r. r.1 ≤ length bytes.now) }
{
    let (precision, used) = number_after(b'.', 0, bytes)?;
    let field = NumberField {
        flags,
        width,
        precision,
    };
    Some((field, used))
}

/// The field whose flags stand in front of these bytes, and how many of these it takes.
#[inline(always)]
fn behind_flags(flags: Flags, bytes: &[u8]) -> Option<(NumberField, usize)>
    ensures is { result ≡ behind_flags flags bytes.now }
    ensures within { IfSome result (λ r. r.1 ≤ length bytes.now) }
{
    let (width, digits) = leading_number(bytes)?;
    let (field, more) = behind_width(flags, width, &bytes[digits..])?;
    Some((field, more + digits))
}

/// The flags, the width and the precision that bytes behind a `%` begin with, and how many bytes they
/// take; `None` where the width or the precision is over 255.
#[inline(always)]
pub fn field_of(bytes: &[u8]) -> Option<(NumberField, usize)>
    ensures is { result ≡ field bytes.now }
    ensures within { IfSome result (λ r. r.1 ≤ length bytes.now) }
{
    let (flags, used) = flags_of(bytes);
    let (field, more) = behind_flags(flags, &bytes[used..])?;
    Some((field, more + used))
}

/// How many bytes `l`, `ll` or `j` take, if one of them is there.
#[inline(always)]
fn modifier(bytes: &[u8]) -> usize
    ensures is { result ≡ modifier bytes.now }
    ensures within { result ≤ length bytes.now }
{
    match bytes {
        [b'l', b'l', ..] => 2,
        [b'l' | b'j', ..] => 1,
        _ => 0,
    }
}

/// Whether bytes begin with `d` or `i`, or with `u`.
#[inline(always)]
fn is_signed(bytes: &[u8]) -> Option<bool>
    ensures is { result ≡ is_signed bytes.now }
    ensures some { IfSome result (λ r. 0 < length bytes.now) }
{
    match bytes.first()? {
        b'd' | b'i' => Some(true),
        b'u' => Some(false),
        _ => None,
    }
}

/// Whether a conversion ends with `d` or `i`, or with `u`, and how many bytes that takes with `l`,
/// `ll` or `j` before it.
#[inline(always)]
fn letter_of(bytes: &[u8]) -> Option<(bool, usize)>
    ensures is { result ≡ letter bytes.now }
    ensures within { IfSome result (λ r. r.1 ≤ length bytes.now) }
{
    let used = modifier(bytes);
    let signed = is_signed(&bytes[used..])?;
    Some((signed, used + 1))
}

/// The conversion `d`, `i` or `u` that bytes behind a `%` begin with, and how many bytes it takes.
#[inline(always)]
pub fn conversion_of(bytes: &[u8]) -> Option<(IntConversion, usize)>
    ensures is { result ≡ conversion bytes.now }
    ensures within { IfSome result (λ r. r.1 ≤ length bytes.now) }
{
    let (field, used) = field_of(bytes)?;
    let (signed, last) = letter_of(&bytes[used..])?;
    let conversion = IntConversion {
        flags: field.flags,
        width: field.width,
        precision: field.precision,
        signed,
    };
    Some((conversion, last + used))
}
