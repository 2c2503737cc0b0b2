//! The parts and the width of a number's text (XSH fprintf).

ghost use Rattle.std.specs.Prelude.{◌≡◌, ◌+◌, ◌-◌, ◌^◌, ◌<◌, ◌≤◌, length, List, ℕ, true};
ghost use Rattle.digit_groups.specs.Groups.{grouped, grouped_width};
ghost use Rattle.digit_groups.specs.Digits.{last_digits};
ghost use Rattle.int_format.specs.Ints.{is_number, shown, least_digits, sizes_of, sign_text, fill_of, padded, conversion_text};

use crate::digits::digit_count;
use crate::format::IntConversion;
use digit_groups::grouped_width;
use numeric_cat::Numeric;

/// 2^64.
const MODULUS: u128 = 1 << 64;

/// Where the bytes stand that fill a field.
#[derive(Clone, Copy)]
pub enum Fill {
    /// Spaces before the sign.
    Before,
    /// Zeros between the sign and the digits.
    Between,
    /// Spaces behind the digits.
    Behind,
}

/// A number with all that its text shows.
#[derive(Clone, Copy)]
pub struct Laid {
    pub sign: &'static [u8],
    /// What the digits are of.
    pub magnitude: u64,
    /// How many digits there are.
    pub digits: usize,
    pub fill: Fill,
    /// How many bytes fill the field.
    pub padding: usize,
    /// How many bytes there are in all.
    pub width: u128,
}

/// The magnitude that a conversion shows; `u` shows a number below 0 with 2^64 more.
#[inline(always)]
fn magnitude_of(c: &IntConversion, value: i128) -> u64
    requires { is_number value ≡ true }
    ensures { result ≡ shown c.now.signed value }
{
    let magnitude = value.unsigned_abs();
    if c.signed || value >= 0 {
        magnitude as u64
    } else {
        (MODULUS - magnitude) as u64
    }
}

/// What stands for the sign.
#[inline(always)]
fn sign_of(c: &IntConversion, value: i128) -> &'static [u8]
    ensures is { result.now ≡ sign_text c.now value }
    ensures short { length result.now ≤ 1 }
{
    if !c.signed {
        b""
    } else if value < 0 {
        b"-"
    } else if c.flags.plus {
        b"+"
    } else if c.flags.space {
        b" "
    } else {
        b""
    }
}

/// Where the bytes stand that fill the field.
#[inline(always)]
fn fill_of(c: &IntConversion) -> Fill
    ensures { result ≡ fill_of c.now }
{
    if c.flags.left {
        Fill::Behind
    } else if c.flags.zeros && c.precision.is_none() {
        Fill::Between
    } else {
        Fill::Before
    }
}

/// The sizes of groups.
#[inline(always)]
pub fn sizes_of<'a>(n: &'a Numeric, c: &IntConversion) -> &'a [i32]
    ensures { result.now ≡ sizes_of n.now c.now }
{
    if c.flags.groups { n.grouping() } else { &[] }
}

/// The least number of digits.
#[inline(always)]
fn least_digits(c: &IntConversion) -> usize
    ensures is { result ≡ least_digits c.now }
    ensures few { result ≤ 255 }
{
    match c.precision {
        Some(digits) => usize::from(digits),
        None => 1,
    }
}

/// How many bytes fill a field that has so many.
#[inline(always)]
fn padding_of(width: u8, text: u128) -> usize
    ensures is { result ≡ width - text }
    ensures few { result ≤ 255 }
{
    u128::from(width).saturating_sub(text) as usize
}

/// A number laid out in a conversion.
#[inline(always)]
pub fn laid_out(n: &Numeric, c: &IntConversion, value: i128) -> Laid
    requires { is_number value ≡ true }
    ensures few { result.digits ≤ 255 }
    ensures text { padded result.fill result.padding result.sign.now (grouped (last_digits result.digits result.magnitude) (sizes_of n.now c.now) n.now.thousands_sep) ≡ conversion_text n.now c.now value }
    ensures width { result.width ≡ length (conversion_text n.now c.now value) }
{
    let sign = sign_of(c, value);
    let magnitude = magnitude_of(c, value);
    let digits = digit_count(magnitude).max(least_digits(c));
    let text = sign.len() as u128 + grouped_width(digits, sizes_of(n, c), n.thousands_sep());
    let padding = padding_of(c.width, text);
    Laid {
        sign,
        magnitude,
        digits,
        fill: fill_of(c),
        padding,
        width: text + padding as u128,
    }
}
