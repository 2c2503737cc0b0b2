//! Operands as values.

ghost use Rattle.std.specs.Prelude.{◌≡◌};
ghost use Rattle.lc_base.specs.Reading.{Gives};
ghost use Rattle.locale_reader.specs.Values.{word, element, one, several};

use crate::character::case_pair;
use crate::number::number;
use crate::text::{quote, word};
use charset::Charset;
use keywords::{Element, Value, Values};
use lc_base::{ByteText, Place, Reason, TextFault};
use src_lines::Operand;
use std::alloc::Global;

/// An operand as a value of this kind.
#[tactic(auto, unfolding(crate::specs::Values::element))]
pub fn element(
    alloc: Global,
    charset: &Charset,
    kind: Element,
    operand: &(Place, Operand),
) -> Result<Value, TextFault>
    ensures { Gives (λ v. v) result (element charset.now kind operand.now) }
{
    match kind {
        Element::CasePair => case_pair(charset, operand),
        Element::Word => Ok(Value::Text(word(alloc, charset, operand)?)),
        Element::Quote => Ok(Value::Text(quote(alloc, charset, operand)?)),
        Element::Whole => Ok(Value::Number(number(operand)?)),
    }
}

/// The one operand of a keyword as a value of this kind, with its place.
pub fn one(
    alloc: Global,
    charset: &Charset,
    kind: Element,
    keyword: Place,
    operands: &[(Place, Operand)],
) -> Result<(Place, Value), TextFault>
    ensures { Gives (λ x. x) result (one (element charset.now kind) keyword operands.now) }
{
    match operands {
        [] => Err(TextFault::At(keyword, Reason::WrongOperand)),
        [operand, rest @ ..] => {
            let value = element(alloc, charset, kind, operand)?;
            match rest {
                [] => Ok((operand.0, value)),
                [second, ..] => Err(TextFault::At(second.0, Reason::WrongOperand)),
            }
        }
    }
}

/// The one name that `copy` takes, with its place.
pub fn copied_name(
    alloc: Global,
    charset: &Charset,
    keyword: Place,
    operands: &[(Place, Operand)],
) -> Result<(Place, ByteText), TextFault>
    ensures { Gives (λ x. x) result (one (word charset.now) keyword operands.now) }
{
    match operands {
        [] => Err(TextFault::At(keyword, Reason::WrongOperand)),
        [operand, rest @ ..] => {
            let name = word(alloc, charset, operand)?;
            match rest {
                [] => Ok((operand.0, name)),
                [second, ..] => Err(TextFault::At(second.0, Reason::WrongOperand)),
            }
        }
    }
}

/// Each operand as a value of this kind.
pub fn several(
    alloc: Global,
    charset: &Charset,
    kind: Element,
    operands: &[(Place, Operand)],
) -> Result<Values, TextFault>
    ensures { Gives (λ v. v) result (several charset.now kind operands.now) }
{
    let mut values = Values::with_capacity(alloc, operands.len())?;
    for operand in operands {
        let value = element(alloc, charset, kind, operand)?;
        values = values.with(operand.0, value)?;
    }
    Ok(values)
}
