//! Lines of numbers, and what is told of words that have none.

ghost use Rattle.std.specs.Prelude.{◌≡◌, ◌++◌, ◌∷◌, [], ℕ, Bool, false, List, Ok, Result, IfOk, map};
ghost use Rattle.tool_decimals.specs.Decimals.{Number};
ghost use Rattle.tool_decimals.specs.Formats.{Refusal, Refuses, numbers_text};
ghost use Rattle.tool_decimals.specs.Lines.{AnswersLine, IsOf, Tells};
ghost use Rattle.tool_decimals.specs.Readings.{AreToldApart, IsLineOf, IsSpelled};
ghost use Rattle.tool_decimals.specs.Scans.{reading};
ghost use Rattle.tool_decimals.specs.Told.{AnswersRead, IsToldBy, read_line_of, reason, rule};

use crate::fault::NumbersFault;
use crate::format::numbers_text;
use crate::read::{NumberFault, NumberWhy, ReadFault, read_number};
use crate::wrong::{number_cause, spot_problem, whole_cause};
use lc_base::ByteText;
use numeric_cat::Numeric;
use reason_rules::rule_of;
use std::alloc::{AllocError, Global};
use tool_messages::Problem;

/// The rule of a conversion.
const CONVERSIONS: &[u8] = b"a `%` of a format begins a conversion: of a number d, i, u, f or %";

/// The text of a format with whole numbers and decimals, and a newline (XSH fprintf).
///
/// A word that is no number, or no whole number where one is wanted, is a wrong word. A format that has
/// no text, or one of more than 1048576 bytes, is refused.
pub fn decimals_line(
    alloc: Global,
    numeric: &Numeric,
    format: &str,
    words: &[&str],
) -> Result<ByteText, Problem>
    ensures { AnswersLine (λ line. line) result (numbers_text numeric.now format.now (map (λ w. w.now) words.entry.now)) }
{
    match numbers_text(alloc, numeric, format.as_bytes(), words) {
        Ok(text) => Ok(with_newline(text)?),
        Err(fault) => Err(fault_problem(alloc, format.as_bytes(), fault)),
    }
}

/// The number that a text is in a locale, with a point and without groups, and a newline (XBD 7.3.4).
///
/// A number is perhaps `-`, 1 to 100 digits, and perhaps a decimal point with digits on both sides; the
/// digits before it are in the groups of the locale or all without. Any other text is refused, at its
/// first byte from the left that is wrong or missing: a missing digit in front or behind the point, a byte
/// that does not belong there, digits in other groups, or one digit too many.
#[tactic(auto, using(crate::proofs::LineLaws::line_found, crate::proofs::LineLaws::line_only))]
pub fn read_line(alloc: Global, numeric: &Numeric, text: &str) -> Result<ByteText, Problem>
    // Which number it is, or which fault, and where.
    ensures exact { AnswersRead (λ line. line) result (reading numeric.now text.now) }
    // What is read is a number as the locale writes it.
    ensures found { IfOk result (λ line. IsLineOf numeric.now text.now line) }
    // Each number as the locale writes it is read.
    ensures only { (d : Number) (is_grouped : Bool) → AreToldApart numeric.now → IsSpelled numeric.now text.now d is_grouped → AnswersRead (λ line. line) result (Ok d) }
{
    line_read(alloc, numeric, text)
}

/// The line of the number that a text is, or what is told of its fault.
#[tactic(auto, using(crate::proofs::LineLaws::ended))]
fn line_read(alloc: Global, numeric: &Numeric, text: &str) -> Result<ByteText, Problem>
    ensures { AnswersRead (λ line. line) result (reading numeric.now text.now) }
{
    match read_number(alloc, numeric, text.as_bytes()) {
        Ok(plain) => Ok(with_newline(plain)?),
        Err(ReadFault::At(fault)) => Err(read_problem(alloc, text.as_bytes(), fault)),
        Err(ReadFault::Memory) => Err(Problem::Memory),
    }
}

/// A text with a newline behind it.
fn with_newline(text: ByteText) -> Result<ByteText, AllocError>
    ensures { IfOk result (λ line. line ≡ text ++ 10 ∷ []) }
{
    let mut bytes = text.into_vec();
    bytes.extend_from_slice(b"\n")?;
    Ok(ByteText::from_vec(bytes))
}

fn fault_problem(alloc: Global, format: &[u8], fault: NumbersFault<'_>) -> Problem
    ensures { (text : Result (List ℕ) Refusal) → Refuses fault.entry text → Tells result text }
{
    match fault {
        NumbersFault::NoNumber(word) => number_cause(alloc, word.as_bytes()),
        NumbersFault::NotWhole(word) => whole_cause(alloc, word.as_bytes()),
        NumbersFault::BadFormat { at } => {
            spot_problem(alloc, b"FORMAT", format, at, b"BadFormat", CONVERSIONS)
        }
        NumbersFault::MissingNumber { at } => {
            let rule = rule_of("MissingNumber");
            spot_problem(
                alloc,
                b"FORMAT",
                format,
                at,
                b"MissingNumber",
                rule.as_bytes(),
            )
        }
        NumbersFault::TooBig => too_big(alloc),
        NumbersFault::Memory => Problem::Memory,
    }
}

fn too_big(alloc: Global) -> Problem
    ensures { IsOf result false }
{
    match too_big_message(alloc) {
        Ok(message) => Problem::Refused(message),
        Err(_) => Problem::Memory,
    }
}

fn too_big_message(alloc: Global) -> Result<ByteText, AllocError> {
    let mut message = Vec::new(alloc);
    message.extend_from_slice(b"locale_tool: TooBig: ")?;
    message.extend_from_slice(rule_of("TooBig").as_bytes())?;
    message.extend_from_slice(b", here 1048576\n")?;
    Ok(ByteText::from_vec(message))
}

/// The problem of a text that is no number.
fn read_problem(alloc: Global, text: &[u8], fault: NumberFault) -> Problem
    ensures { IsToldBy (read_line_of fault) result }
{
    let (reason, rule) = (reason(fault.why), rule(fault.why));
    spot_problem(alloc, b"TEXT", text, fault.at, reason, rule)
}

/// The reason of a fault.
fn reason(why: NumberWhy) -> &'static [u8]
    ensures { result.now ≡ reason why }
{
    match why {
        NumberWhy::ManyDigits => b"TooBig",
        NumberWhy::NoDigit | NumberWhy::NoFraction => b"Mismatch",
        NumberWhy::OtherByte | NumberWhy::OtherGroups => b"Mismatch",
    }
}

/// The rule that a fault breaks.
fn rule(why: NumberWhy) -> &'static [u8]
    ensures { result.now ≡ rule why }
{
    match why {
        NumberWhy::NoDigit =>
            b"no digit stands here; a number of the locale has 1 to 100 digits, perhaps behind a `-`: at least one before the decimal point, in its groups or all without, and at least one behind it where it is there",
        NumberWhy::NoFraction =>
            b"no digit stands behind the decimal point; a number of the locale has 1 to 100 digits, perhaps behind a `-`: at least one before the decimal point, in its groups or all without, and at least one behind it where it is there",
        NumberWhy::OtherByte =>
            b"this byte does not belong to a number; a number of the locale has 1 to 100 digits, perhaps behind a `-`: at least one before the decimal point, in its groups or all without, and at least one behind it where it is there",
        NumberWhy::OtherGroups =>
            b"the digits are in other groups than those of the locale; a number of the locale has 1 to 100 digits, perhaps behind a `-`: at least one before the decimal point, in its groups or all without, and at least one behind it where it is there",
        NumberWhy::ManyDigits =>
            b"this digit is one too many; a number of the locale has 1 to 100 digits, perhaps behind a `-`: at least one before the decimal point, in its groups or all without, and at least one behind it where it is there",
    }
}
