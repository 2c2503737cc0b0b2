//! Characters, pairs and ranges of them (XBD 7.3.1).

ghost use Rattle.std.specs.Prelude.{◌≡◌, ◌≤◌, length, IfOk};
ghost use Rattle.std.specs.Option.{option_copied};
ghost use Rattle.lc_base.specs.Reading.{Gives};
ghost use Rattle.locale_reader.specs.Values.{lone_name, spelled, character, one_character, case_pair, is_dots, range_end, members};
ghost use Rattle.locale_reader.specs.Steps.{member, first_member};

use charset::Charset;
use keywords::{Value, Values};
use lc_base::{Place, Reason, TextFault};
use src_lines::{Operand, PieceRef, Pieces};
use std::alloc::Global;

/// A name that is alone.
fn lone_name(pieces: &Pieces) -> Option<&[u8]>
    ensures { option_copied result ≡ lone_name pieces.now }
{
    let mut walk = pieces.walk();
    let Some(PieceRef::Name(name)) = walk.next() else {
        return None;
    };
    if walk.next().is_some() {
        return None;
    }
    Some(name)
}

/// The character that bytes encode.
fn spelled(charset: &Charset, place: Place, bytes: Option<&[u8]>) -> Result<u32, TextFault>
    ensures { Gives (λ w. w) result (spelled charset.now place (option_copied bytes.entry)) }
{
    match bytes {
        Some(bytes) if !bytes.is_empty() => charset
            .value_of_bytes(bytes)
            .ok_or(TextFault::At(place, Reason::UnknownCharacter)),
        _ => Err(TextFault::At(place, Reason::WrongOperand)),
    }
}

/// The character that stands at a place, as its wide value.
#[tactic(auto, unfolding(crate::specs::Values::character))]
fn character(charset: &Charset, place: Place, pieces: &Pieces) -> Result<u32, TextFault>
    ensures { Gives (λ w. w) result (character charset.now place pieces.now) }
{
    match lone_name(pieces) {
        Some(name) => charset
            .value_of(name)
            .ok_or(TextFault::At(place, Reason::UnknownCharacter)),
        None => spelled(charset, place, pieces.as_bytes()),
    }
}

/// The character that an operand is, as its wide value.
#[tactic(auto, unfolding(crate::specs::Values::one_character))]
fn one_character(charset: &Charset, operand: &(Place, Operand)) -> Result<u32, TextFault>
    ensures { Gives (λ w. w) result (one_character charset.now operand.now) }
{
    match &operand.1 {
        Operand::Plain(pieces) => character(charset, operand.0, pieces),
        Operand::Quoted(_) | Operand::Dots | Operand::Pair(_, _) => {
            Err(TextFault::At(operand.0, Reason::WrongOperand))
        }
    }
}

/// The pair of characters that an operand is.
#[tactic(auto, unfolding(crate::specs::Values::case_pair))]
pub fn case_pair(charset: &Charset, operand: &(Place, Operand)) -> Result<Value, TextFault>
    ensures { Gives (λ v. v) result (case_pair charset.now operand.now) }
{
    match &operand.1 {
        Operand::Pair(left, right) => {
            let first = character(charset, operand.0, left)?;
            let second = character(charset, operand.0, right)?;
            Ok(Value::Pair(first, second))
        }
        Operand::Plain(_) | Operand::Quoted(_) | Operand::Dots => {
            Err(TextFault::At(operand.0, Reason::WrongOperand))
        }
    }
}

/// Whether an operand is `...`.
fn is_dots(operand: &Operand) -> bool
    ensures { result ≡ is_dots operand.now }
{
    match operand {
        Operand::Dots => true,
        Operand::Plain(_) | Operand::Quoted(_) | Operand::Pair(_, _) => false,
    }
}

/// The last character of a range that begins with this one, behind dots at this place.
fn range_end(
    charset: &Charset,
    first: u32,
    dots: Place,
    last: &(Place, Operand),
) -> Result<u32, TextFault>
    ensures { Gives (λ w. w) result (range_end charset.now first dots last.now) }
{
    if is_dots(&last.1) {
        return Err(TextFault::At(dots, Reason::WrongOperand));
    }
    let w = one_character(charset, last)?;
    if w < first {
        return Err(TextFault::At(dots, Reason::WrongOperand));
    }
    Ok(w)
}

/// The character or the range that begins with this character, and the operands behind it.
fn member<'a>(
    charset: &Charset,
    first: u32,
    operands: &'a [(Place, Operand)],
) -> Result<(Value, &'a [(Place, Operand)]), TextFault>
    ensures is { Gives (λ x. (x.0, x.1.now)) result (member charset.now first operands.now) }
    ensures shorter { IfOk result (λ x. length x.1.now ≤ length operands.now) }
{
    match operands {
        [dots, last, rest @ ..] if is_dots(&dots.1) => {
            let last = range_end(charset, first, dots.0, last)?;
            Ok((Value::Chars(first, last), rest))
        }
        [dots] if is_dots(&dots.1) => Err(TextFault::At(dots.0, Reason::WrongOperand)),
        _ => Ok((Value::Chars(first, first), operands)),
    }
}

/// The first character or range, and the operands behind it.
#[tactic(auto, unfolding(crate::specs::Steps::first_member))]
fn first_member<'a>(
    charset: &Charset,
    operand: &(Place, Operand),
    operands: &'a [(Place, Operand)],
) -> Result<(Value, &'a [(Place, Operand)]), TextFault>
    ensures is { Gives (λ x. (x.0, x.1.now)) result (first_member charset.now operand.now operands.now) }
    ensures shorter { IfOk result (λ x. length x.1.now ≤ length operands.now) }
{
    let first = one_character(charset, operand)?;
    member(charset, first, operands)
}

/// Characters and ranges of them.
pub fn members(
    alloc: Global,
    charset: &Charset,
    operands: &[(Place, Operand)],
) -> Result<Values, TextFault>
    ensures { Gives (λ v. v) result (members charset.now operands.now) }
{
    let mut values = Values::with_capacity(alloc, operands.len())?;
    let mut left = operands;
    while let [operand, rest @ ..] = left {
        let (value, after) = first_member(charset, operand, rest)?;
        values = values.with(operand.0, value)?;
        left = after;
    }
    Ok(values)
}
