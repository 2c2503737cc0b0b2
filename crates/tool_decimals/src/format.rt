//! The text of a format with its numbers.

ghost use Rattle.std.specs.Prelude.{◌≡◌, ◌++◌, ◌+◌, ◌<◌, ◌≤◌, Ok, [], drop, length, map, option_map, slice_index, take, OnOk, IfErr, IfSome};
ghost use Rattle.tool_decimals.specs.Conversions.{part};
ghost use Rattle.tool_decimals.specs.Formats.{Answers, Refuses, first_wrong, fraction_text, numbers_text, part_text, text_behind, whole_text, with_text, within, words_behind};

use crate::conversion::{DecimalPart, part_of};
use crate::decimal::decimal_of_word;
use crate::fault::NumbersFault;
use crate::layout::decimal_text;
use int_format::{IntFault, NumberField, int_format};
use lc_base::ByteText;
use numeric_cat::Numeric;
use script_words::number_of_word;
use std::alloc::Global;

/// The most bytes of a text.
pub const TEXT_MOST: usize = 1_048_576;

/// The text of a format with the numbers that words are, at most 1048576 bytes. Words that are left over
/// are passed over, but have to be numbers.
///
/// A conversion is that of [`int_format`], or `%`, flags, a width, `.` with a precision, perhaps `l`, and
/// `f`. A word that is no number goes before what is wrong with the format; the first that is wrong there
/// is refused.
pub fn numbers_text<'a>(
    alloc: Global,
    numeric: &Numeric,
    format: &[u8],
    words: &[&'a str],
) -> Result<ByteText, NumbersFault<'a>>
    ensures { Answers (λ text. text) result (numbers_text numeric.now format.now (map (λ w. w.now) words.entry.now)) }
{
    match first_wrong(words) {
        Some(word) => Err(NumbersFault::NoNumber(word)),
        None => text_of(alloc, numeric, format, words),
    }
}

/// The first word that is no number.
#[tactic(auto, unfolding(crate::specs::Formats::first_wrong))]
fn first_wrong<'a>(words: &[&'a str]) -> Option<&'a str>
    ensures { option_map (λ w. w.now) result ≡ first_wrong (map (λ w. w.now) words.entry.now) }
{
    let mut left = words;
    while let [word, others @ ..] = left {
        if decimal_of_word(word.as_bytes()).is_none() {
            return Some(word);
        }
        left = others;
    }
    None
}

/// The text of a format with the numbers that words are.
fn text_of<'a>(
    alloc: Global,
    numeric: &Numeric,
    format: &[u8],
    words: &[&'a str],
) -> Result<ByteText, NumbersFault<'a>>
    ensures { Answers (λ text. text) result (text_behind numeric.now [] 0 0 format.now (map (λ w. w.now) words.entry.now)) }
{
    let mut out = Vec::new(alloc);
    let mut left = words;
    let mut at = 0;
    while at < format.len() {
        let Some((part, used)) = part_at(format, at) else {
            return Err(NumbersFault::BadFormat { at });
        };
        let bytes = bytes_of(format, at, used);
        if let Err(fault) = push_part(alloc, &mut out, numeric, part, at, bytes, left) {
            return Err(fault);
        }
        left = words_behind(part, left);
        at += 1 + used;
    }
    Ok(ByteText::from_vec(out))
}

/// The part at a place, and how many bytes behind that belong to it.
#[tactic(auto, using(crate::proofs::FormatLemmas::rest_of))]
fn part_at(format: &[u8], at: usize) -> Option<(DecimalPart, usize)>
    requires { at < length format.now }
    ensures is { result ≡ part (slice_index format.now at) (drop (at + 1) format.now) }
    ensures within { IfSome result (λ r. at + (1 + r.1) ≤ length format.now) }
{
    part_of(format[at], &format[at + 1..])
}

/// The bytes of a part at a place.
fn bytes_of(format: &[u8], at: usize, used: usize) -> &[u8]
    requires { at + (1 + used) ≤ length format.now }
    ensures { result.now ≡ take (1 + used) (drop at format.now) }
{
    let (_, rest) = format.split_at(at);
    let (bytes, _) = rest.split_at(1 + used);
    bytes
}

/// Adds the text of a part, unless the whole is then too long.
#[tactic(auto, using(crate::proofs::FormatLemmas::with_refused))]
fn push_part<'a>(
    alloc: Global,
    out: &mut Vec<u8>,
    numeric: &Numeric,
    part: DecimalPart,
    at: usize,
    bytes: &[u8],
    words: &[&'a str],
) -> Result<(), NumbersFault<'a>>
    ensures added { OnOk result (with_text out.old.items (part_text numeric.now part at bytes.now (map (λ w. w.now) words.entry.now)) ≡ Ok out.new.items) }
    ensures refused { IfErr result (λ e. Refuses e (with_text out.old.items (part_text numeric.now part at bytes.now (map (λ w. w.now) words.entry.now)))) }
{
    let text = part_text(alloc, numeric, part, at, bytes, words)?;
    push_within(out, text.as_bytes())
}

/// The words that a part leaves.
fn words_behind<'a, 'b>(part: DecimalPart, words: &'b [&'a str]) -> &'b [&'a str]
    ensures { map (λ w. w.now) result.now ≡ words_behind part (map (λ w. w.now) words.entry.now) }
{
    match (part, words) {
        (DecimalPart::Literal(_), _) | (_, []) => words,
        (_, [_, others @ ..]) => others,
    }
}

/// The text of a part.
fn part_text<'a>(
    alloc: Global,
    numeric: &Numeric,
    part: DecimalPart,
    at: usize,
    bytes: &[u8],
    words: &[&'a str],
) -> Result<ByteText, NumbersFault<'a>>
    ensures { Answers (λ text. text) result (part_text numeric.now part at bytes.now (map (λ w. w.now) words.entry.now)) }
{
    match (part, words) {
        (DecimalPart::Literal(byte), _) => Ok(ByteText::of(alloc, &[byte])?),
        (_, []) => Err(NumbersFault::MissingNumber { at }),
        (DecimalPart::Whole, [word, ..]) => whole_text(alloc, numeric, bytes, word),
        (DecimalPart::Decimal(field), [word, ..]) => fraction_text(alloc, numeric, &field, word),
    }
}

/// The text of a word by the bytes of a conversion of whole numbers.
fn whole_text<'a>(
    alloc: Global,
    numeric: &Numeric,
    conversion: &[u8],
    word: &'a str,
) -> Result<ByteText, NumbersFault<'a>>
    ensures { Answers (λ text. text) result (whole_text numeric.now conversion.now word.now) }
{
    let Some(number) = number_of_word(word.as_bytes()) else {
        return Err(NumbersFault::NotWhole(word));
    };
    match int_format(alloc, numeric, conversion, &[number.value()], TEXT_MOST) {
        Ok(text) => Ok(text),
        Err(IntFault::Memory) => Err(NumbersFault::Memory),
        Err(_) => Err(NumbersFault::TooBig),
    }
}

/// The text of a word by a conversion of decimals.
fn fraction_text<'a>(
    alloc: Global,
    numeric: &Numeric,
    field: &NumberField,
    word: &'a str,
) -> Result<ByteText, NumbersFault<'a>>
    ensures { Answers (λ text. text) result (fraction_text numeric.now field.now word.now) }
{
    match decimal_of_word(word.as_bytes()) {
        Some(number) => Ok(decimal_text(alloc, numeric, field, &number)?),
        None => Err(NumbersFault::NoNumber(word)),
    }
}

/// Adds a text, unless the whole is then too long.
fn push_within<'a>(out: &mut Vec<u8>, text: &[u8]) -> Result<(), NumbersFault<'a>>
    ensures added { OnOk result (within (out.old.items ++ text.now) ≡ Ok out.new.items) }
    ensures refused { IfErr result (λ e. Refuses e (within (out.old.items ++ text.now))) }
{
    if text.len() > TEXT_MOST || out.len() > TEXT_MOST - text.len() {
        return Err(NumbersFault::TooBig);
    }
    out.extend_from_slice(text)?;
    Ok(())
}
