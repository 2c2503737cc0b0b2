//! The text of a decimal (XSH fprintf).

ghost use Rattle.std.specs.Prelude.{◌≡◌, ◌++◌, ◌+◌, ◌-◌, length, IfOk, OnOk, replicate};
ghost use Rattle.tool_decimals.specs.Decimals.{number_of};
ghost use Rattle.tool_decimals.specs.Texts.{body_text, decimal_text, padded, places, sign_text, sizes_of, split_text};

use crate::decimal::Decimal;
use crate::rounding::{push_zeros, rounded, without_zeros};
use digit_groups::group_into;
use int_format::NumberField;
use lc_base::ByteText;
use numeric_cat::Numeric;
use std::alloc::{AllocError, Global};

/// The number of fraction digits where a conversion does not say it.
const PLACES: u8 = 6;

/// The number of fraction digits.
fn places(field: &NumberField) -> usize
    ensures { result ≡ places field.now }
{
    usize::from(field.precision.unwrap_or(PLACES))
}

/// What stands for the sign.
fn sign_of(field: &NumberField, number: &Decimal<'_>) -> &'static [u8]
    ensures { result.now ≡ sign_text field.now (number_of number.now) }
{
    if number.is_below_zero() {
        b"-"
    } else if field.flags.plus {
        b"+"
    } else if field.flags.space {
        b" "
    } else {
        b""
    }
}

/// The sizes of groups.
fn sizes_of<'a>(numeric: &'a Numeric, field: &NumberField) -> &'a [i32]
    ensures { result.now ≡ sizes_of numeric.now field.now }
{
    if field.flags.groups {
        numeric.grouping()
    } else {
        &[]
    }
}

/// Digits of which so many stand behind the decimal point: those before it in groups.
fn split_text(
    alloc: Global,
    numeric: &Numeric,
    sizes: &[i32],
    places: usize,
    digits: &[u8],
) -> Result<Vec<u8>, AllocError>
    ensures { IfOk result (λ v. v.items ≡ split_text numeric.now sizes.now places digits.now) }
{
    let (whole, fraction) = digits.split_at(digits.len().saturating_sub(places));
    let mut text = Vec::new(alloc);
    group_into(
        &mut text,
        without_zeros(whole),
        sizes,
        numeric.thousands_sep(),
    )?;
    if places > 0 {
        text.extend_from_slice(numeric.decimal_point())?;
        text.extend_from_slice(fraction)?;
    }
    Ok(text)
}

/// The text of a number without its sign.
fn body_text(
    alloc: Global,
    numeric: &Numeric,
    field: &NumberField,
    number: &Decimal<'_>,
) -> Result<Vec<u8>, AllocError>
    ensures { IfOk result (λ v. v.items ≡ body_text numeric.now field.now (number_of number.now)) }
{
    let places = places(field);
    let digits = rounded(alloc, number, places)?;
    split_text(
        alloc,
        numeric,
        sizes_of(numeric, field),
        places,
        digits.as_slice(),
    )
}

/// Adds so many spaces.
fn push_spaces(out: &mut Vec<u8>, count: usize) -> Result<(), AllocError>
    ensures { OnOk result (out.new.items ≡ out.old.items ++ replicate count 32) }
{
    let end = out.len().checked_add(count).ok_or(AllocError)?;
    out.resize(end, b' ')
}

/// Adds a sign and digits with so many bytes that fill the field.
fn push_padded(
    out: &mut Vec<u8>,
    field: &NumberField,
    count: usize,
    sign: &[u8],
    body: &[u8],
) -> Result<(), AllocError>
    ensures { OnOk result (out.new.items ≡ out.old.items ++ padded field.now count sign.now body.now) }
{
    if field.flags.left {
        out.extend_from_slice(sign)?;
        out.extend_from_slice(body)?;
        push_spaces(out, count)
    } else if field.flags.zeros {
        out.extend_from_slice(sign)?;
        push_zeros(out, count)?;
        out.extend_from_slice(body)
    } else {
        push_spaces(out, count)?;
        out.extend_from_slice(sign)?;
        out.extend_from_slice(body)
    }
}

/// How many bytes fill a field.
fn padding(width: u8, sign: &[u8], body: &[u8]) -> usize
    ensures { result ≡ width - (length sign.now + length body.now) }
{
    usize::from(width)
        .saturating_sub(sign.len())
        .saturating_sub(body.len())
}

/// The text of a decimal by the field of its conversion.
#[tactic(auto, unfolding(crate::specs::Texts::decimal_text))]
pub fn decimal_text(
    alloc: Global,
    numeric: &Numeric,
    field: &NumberField,
    number: &Decimal<'_>,
) -> Result<ByteText, AllocError>
    ensures { IfOk result (λ text. text ≡ decimal_text numeric.now field.now (number_of number.now)) }
{
    let sign = sign_of(field, number);
    let body = body_text(alloc, numeric, field, number)?;
    let count = padding(field.width, sign, body.as_slice());
    let mut text = Vec::new(alloc);
    push_padded(&mut text, field, count, sign, body.as_slice())?;
    Ok(ByteText::from_vec(text))
}
