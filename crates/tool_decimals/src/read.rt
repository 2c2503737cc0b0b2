//! Numbers as a locale writes them, read back.

ghost use Rattle.std.specs.Prelude.{◌≡◌, ◌+◌, ◌^◌, ◌++◌, ◌≤◌, ◌<◌, IfOk, IfSome, IsSome, IsTrue, OnOk, drop, false, length, nat_eq};
ghost use Rattle.std.specs.Char.{is_ascii_digit};
ghost use Rattle.std.specs.List.{common_prefix_len, prefix_len};
ghost use Rattle.digit_groups.specs.Groups.{grouped};
ghost use Rattle.tool_decimals.specs.declared.read.ReadFault.TheVariants.{Memory, At};
ghost use Rattle.tool_decimals.specs.Decimals.{number_of};
ghost use Rattle.tool_decimals.specs.Limits.{DIGITS_OF_A_NUMBER};
ghost use Rattle.tool_decimals.specs.Readings.{behind_text, first_digit, minus, plain_text};
ghost use Rattle.tool_decimals.specs.Scans.{digit_at, digits_at, fraction_at, fraction_digits, has_minus, in_groups, reading, whole_at};
ghost use Rattle.tool_decimals.specs.Told.{GivesPlain, GivesRead};

use crate::decimal::{Decimal, MOST_DIGITS};
use crate::rounding::without_zeros;
use digit_groups::group_into;
use lc_base::ByteText;
use numeric_cat::Numeric;
use std::alloc::{AllocError, AllocFailed, Global};

/// Why a text is no number.
#[derive(Clone, Copy)]
pub enum NumberWhy {
    /// No digit stands where the number begins.
    NoDigit,
    /// No digit stands behind the decimal point.
    NoFraction,
    /// A byte stands where none belongs to the number.
    OtherByte,
    /// The digits are in other groups than those of the locale.
    OtherGroups,
    /// The number has more than 100 digits.
    ManyDigits,
}

/// Why a text is no number, and where that shows.
#[derive(Clone, Copy)]
pub struct NumberFault {
    pub why: NumberWhy,
    /// The byte of the text, from 0; its length where a byte is missing.
    pub at: usize,
}

/// Why a text is not read as a number.
#[derive(Clone, Copy)]
pub enum ReadFault {
    /// The text is no number.
    At(NumberFault),
    /// Out of memory.
    Memory,
}

impl From<AllocError> for ReadFault {
    ghost from_gives = { λ _ e. e ≡ Memory };

    fn from(_e: AllocError) -> ReadFault {
        ReadFault::Memory
    }
}

impl<T: Drop> From<AllocFailed<T>> for ReadFault {
    ghost from_gives = { λ _ e. e ≡ Memory };

    fn from(_e: AllocFailed<T>) -> ReadFault {
        ReadFault::Memory
    }
}

/// The number that a text is in a locale, with a point and without groups, or its first fault from the
/// left: perhaps `-`, at least one digit before the decimal point, in groups or all without, and perhaps
/// the decimal point with at least one digit; at most 100 digits.
#[tactic(auto, unfolding(crate::specs::Scans::reading))]
pub fn read_number(alloc: Global, numeric: &Numeric, text: &[u8]) -> Result<ByteText, ReadFault>
    ensures { GivesPlain (λ plain. plain) result (reading numeric.now text.now) }
{
    let has_minus = has_minus(text);
    let (whole, end) = whole_at(alloc, numeric, text, usize::from(has_minus))?;
    let room = MOST_DIGITS.saturating_sub(whole.len());
    let fraction = fraction_at(numeric.decimal_point(), text, end, room)?;
    let number = Decimal {
        has_minus,
        whole: whole.as_slice(),
        fraction,
    };
    Ok(plain_text(alloc, &number)?)
}

/// Whether a `-` stands in front.
fn has_minus(text: &[u8]) -> bool
    ensures is { result ≡ has_minus text.now }
    ensures within { IsTrue result → 1 ≤ length text.now }
{
    match text {
        [first, ..] => *first == b'-',
        [] => false,
    }
}

/// A fault at a byte.
fn fault_at(why: NumberWhy, at: usize) -> ReadFault
    ensures { result ≡ At (record { why = why; at = at }) }
{
    ReadFault::At(NumberFault { why, at })
}

/// The digits before the decimal point, which a text has at a place, and the place behind them.
fn whole_at(
    alloc: Global,
    numeric: &Numeric,
    text: &[u8],
    at: usize,
) -> Result<(Vec<u8>, usize), ReadFault>
    requires { at ≤ length text.now }
    ensures is { GivesRead (λ r. (r.0.items, r.1)) result (whole_at numeric.now at (drop at text.now)) }
    ensures within { IfOk result (λ r. r.1 ≤ length text.now) }
{
    let (_, rest) = text.split_at(at);
    if first_digit(rest).is_none() {
        return Err(fault_at(NumberWhy::NoDigit, at));
    }
    let (digits, end) = digits_at(alloc, numeric.thousands_sep(), text, at)?;
    let groups = groups_of(alloc, numeric, digits.as_slice())?;
    let (written, _) = rest.split_at(end - at);
    in_groups(groups.as_slice(), at, written, digits, end)
}

/// Digits in the groups of a locale.
fn groups_of(alloc: Global, numeric: &Numeric, digits: &[u8]) -> Result<Vec<u8>, AllocError>
    ensures { IfOk result (λ v. v.items ≡ grouped digits.now numeric.now.grouping numeric.now.thousands_sep) }
{
    let mut groups = Vec::new(alloc);
    group_into(
        &mut groups,
        digits,
        numeric.grouping(),
        numeric.thousands_sep(),
    )?;
    Ok(groups)
}

/// Digits and the place behind them, where the bytes that they were read from are those digits in
/// groups, or without.
fn in_groups(
    groups: &[u8],
    at: usize,
    written: &[u8],
    digits: Vec<u8>,
    end: usize,
) -> Result<(Vec<u8>, usize), ReadFault>
    requires { at + length written.now ≤ end }
    ensures is { GivesRead (λ r. (r.0.items, r.1)) result (in_groups groups.now at written.now (digits.items, end)) }
    ensures end { IfOk result (λ r. r.1 ≡ end) }
{
    if written == groups || written == digits.as_slice() {
        return Ok((digits, end));
    }
    let same = common_length(written, groups);
    Err(fault_at(NumberWhy::OtherGroups, at + same))
}

/// The digits that a text has at a place, with separators between them, and the place behind them.
fn digits_at(
    alloc: Global,
    separator: &[u8],
    text: &[u8],
    start: usize,
) -> Result<(Vec<u8>, usize), ReadFault>
    requires { start ≤ length text.now }
    ensures is { GivesRead (λ r. (r.0.items, r.1)) result (digits_at separator.now DIGITS_OF_A_NUMBER 0 start (drop start text.now)) }
    ensures behind { IfOk result (λ r. start ≤ r.1) }
    ensures within { IfOk result (λ r. r.1 ≤ length text.now) }
{
    let mut digits = Vec::new(alloc);
    let mut at = start;
    while let Some((digit, before)) = digit_at(separator, text, at) {
        let place = at + before;
        if digits.len() >= MOST_DIGITS {
            return Err(fault_at(NumberWhy::ManyDigits, place));
        }
        digits.push(digit)?;
        at = place + 1;
    }
    Ok((digits, at))
}

/// The digit that a text has at a place, perhaps behind a separator, and how many bytes stand in front of
/// it.
fn digit_at(separator: &[u8], text: &[u8], at: usize) -> Option<(u8, usize)>
    requires { at ≤ length text.now }
    ensures is { result ≡ digit_at separator.now (drop at text.now) }
    ensures within { IfSome result (λ r. at + r.1 < length text.now) }
{
    let (_, rest) = text.split_at(at);
    if let Some(digit) = first_digit(rest) {
        return Some((digit, 0));
    }
    if !rest.starts_with(separator) {
        return None;
    }
    let (_, behind) = rest.split_at(separator.len());
    let digit = first_digit(behind)?;
    Some((digit, separator.len()))
}

/// The digit that bytes begin with.
fn first_digit(bytes: &[u8]) -> Option<u8>
    ensures is { result ≡ first_digit bytes.now }
    ensures within { IsSome result → 1 ≤ length bytes.now }
{
    match bytes {
        [first, ..] if first.is_ascii_digit() => Some(*first),
        _ => None,
    }
}

/// The digits behind the decimal point, which a text has at a place; none where it ends there.
fn fraction_at<'a>(
    point: &[u8],
    text: &'a [u8],
    at: usize,
    room: usize,
) -> Result<&'a [u8], ReadFault>
    requires { at ≤ length text.now }
    ensures { GivesRead (λ r. r.now) result (fraction_at point.now room at (drop at text.now)) }
{
    let (_, rest) = text.split_at(at);
    if rest.is_empty() {
        return Ok(rest);
    }
    if !rest.starts_with(point) {
        return Err(fault_at(NumberWhy::OtherByte, at));
    }
    let (_, digits) = rest.split_at(point.len());
    fraction_digits(room, at + point.len(), digits)
}

/// Digits that are all of the bytes at a place, one at least and at most so many.
fn fraction_digits(room: usize, at: usize, bytes: &[u8]) -> Result<&[u8], ReadFault>
    requires { at + length bytes.now < 2 ^ 64 }
    ensures { GivesRead (λ r. r.now) result (fraction_digits room at bytes.now) }
{
    let count = count_digits(bytes);
    if count == 0 {
        return Err(fault_at(NumberWhy::NoFraction, at));
    }
    if count > room {
        return Err(fault_at(NumberWhy::ManyDigits, at + room));
    }
    if count < bytes.len() {
        return Err(fault_at(NumberWhy::OtherByte, at + count));
    }
    Ok(bytes)
}

/// How many digits bytes begin with.
fn count_digits(bytes: &[u8]) -> usize
    ensures is { result ≡ prefix_len is_ascii_digit bytes.now }
    ensures within { result ≤ length bytes.now }
{
    bytes
        .iter()
        .take_while(|byte| byte.is_ascii_digit())
        .count()
}

/// How many bytes two texts begin with in common.
#[tactic(auto, using(crate::proofs::ReadingLaws::common_all))]
fn common_length(text: &[u8], other: &[u8]) -> usize
    ensures is { result ≡ common_prefix_len nat_eq text.now other.now }
    ensures within { result ≤ length text.now }
{
    for at in 0..text.len() {
        if !is_same_at(text, other, at) {
            return at;
        }
    }
    text.len()
}

/// Whether two texts have the same byte at a place.
#[tactic(auto, using(crate::proofs::ReadingLaws::common_more, crate::proofs::ReadingLaws::common_no_more, crate::proofs::ReadingLaws::common_none))]
fn is_same_at(text: &[u8], other: &[u8], at: usize) -> bool
    requires { at < length text.now }
    ensures same { IsTrue result → common_prefix_len nat_eq (drop at text.now) (drop at other.now) ≡ 1 + common_prefix_len nat_eq (drop (at + 1) text.now) (drop (at + 1) other.now) }
    ensures no_more { result ≡ false → common_prefix_len nat_eq (drop at text.now) (drop at other.now) ≡ 0 }
{
    match other.get(at) {
        Some(byte) => text[at] == *byte,
        None => false,
    }
}

/// The number with a point and without groups.
fn plain_text(alloc: Global, number: &Decimal<'_>) -> Result<ByteText, AllocError>
    ensures { IfOk result (λ text. text ≡ plain_text (number_of number.now)) }
{
    let mut text = Vec::new(alloc);
    text.extend_from_slice(minus(number.has_minus))?;
    text.extend_from_slice(without_zeros(number.whole))?;
    push_behind(&mut text, b".", number.fraction)?;
    Ok(ByteText::from_vec(text))
}

/// The sign of a number.
fn minus(has_minus: bool) -> &'static [u8]
    ensures { result.now ≡ minus has_minus }
{
    if has_minus { b"-" } else { b"" }
}

/// Adds a point with the digits behind it, if there are some.
fn push_behind(text: &mut Vec<u8>, point: &[u8], fraction: &[u8]) -> Result<(), AllocError>
    ensures { OnOk result (text.new.items ≡ text.old.items ++ behind_text point.now fraction.now) }
{
    if fraction.is_empty() {
        return Ok(());
    }
    text.extend_from_slice(point)?;
    text.extend_from_slice(fraction)
}
