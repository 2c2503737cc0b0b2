//! Conversions of whole numbers and of decimals (XSH fprintf).

ghost use Rattle.std.specs.Prelude.{◌≡◌, ◌≤◌, length, IfSome};
ghost use Rattle.tool_decimals.specs.Conversions.{conversion, decimal, decimal_letter, part};

use int_format::{NumberField, conversion_of, field_of};

/// A part of a format.
#[derive(Clone, Copy)]
pub enum DecimalPart {
    /// A byte that is copied.
    Literal(u8),
    /// The conversion of a whole number.
    Whole,
    /// The conversion `f` of a decimal.
    Decimal(NumberField),
}

/// How many bytes `f` or `lf` take, if one of them is there.
fn decimal_letter(bytes: &[u8]) -> Option<usize>
    ensures is { result ≡ decimal_letter bytes.now }
    ensures within { IfSome result (λ n. n ≤ length bytes.now) }
{
    match bytes {
        [b'f', ..] => Some(1),
        [b'l', b'f', ..] => Some(2),
        _ => None,
    }
}

/// The conversion `f` that bytes behind a `%` begin with, and how many bytes it takes.
fn decimal_of(bytes: &[u8]) -> Option<(DecimalPart, usize)>
    ensures is { result ≡ decimal bytes.now }
    ensures within { IfSome result (λ r. r.1 ≤ length bytes.now) }
{
    let (field, used) = field_of(bytes)?;
    let last = decimal_letter(&bytes[used..])?;
    Some((DecimalPart::Decimal(field), last + used))
}

/// The conversion that bytes behind a `%` begin with, and how many bytes it takes.
fn part_behind(bytes: &[u8]) -> Option<(DecimalPart, usize)>
    ensures is { result ≡ conversion bytes.now }
    ensures within { IfSome result (λ r. r.1 ≤ length bytes.now) }
{
    match conversion_of(bytes) {
        Some((_, used)) => Some((DecimalPart::Whole, used)),
        None => decimal_of(bytes),
    }
}

/// The part that a byte begins, and how many of the bytes behind it belong to it.
#[tactic(auto, unfolding(crate::specs::Conversions::part))]
pub fn part_of(byte: u8, behind: &[u8]) -> Option<(DecimalPart, usize)>
    ensures is { result ≡ part byte behind.now }
    ensures within { IfSome result (λ r. r.1 ≤ length behind.now) }
{
    if byte != b'%' {
        return Some((DecimalPart::Literal(byte), 0));
    }
    match behind {
        [b'%', ..] => Some((DecimalPart::Literal(b'%'), 1)),
        _ => part_behind(behind),
    }
}
