//! The words of reasons.

ghost use Rattle.std.specs.Prelude.{◌≡◌, ◌++◌, OnOk};
ghost use Rattle.std.specs.Fmt.{decimal};
ghost use Rattle.reason_rules.specs.Words.{space, part_word, limit_word, reason_text};

use lc_base::{Class, Limit, LinePart, Reason, push_labelled};
use std::alloc::AllocError;

/// Adds a reason, and what it names, each behind a space.
pub fn push_reason(out: &mut Vec<u8>, reason: Reason) -> Result<(), AllocError>
    ensures { OnOk result (out.new.items ≡ out.old.items ++ reason_text reason) }
{
    match reason {
        Reason::BadLine(part) => push_words(out, b"BadLine", part_word(part)),
        Reason::NoEnd => push_word(out, b"NoEnd"),
        Reason::OverLimit(limit) => push_words(out, b"OverLimit", limit_word(limit)),
        Reason::NameTwice => push_word(out, b"NameTwice"),
        Reason::NoCharmap => push_word(out, b"NoCharmap"),
        Reason::NoNative => push_word(out, b"NoNative"),
        Reason::NoThread => push_word(out, b"NoThread"),
        Reason::NoLater => push_word(out, b"NoLater"),
        Reason::BadHeader => push_word(out, b"BadHeader"),
        Reason::BadEncoding => push_word(out, b"BadEncoding"),
        Reason::RangeBackward => push_word(out, b"RangeBackward"),
        Reason::PortableMoved => push_word(out, b"PortableMoved"),
        Reason::WrongOperand => push_word(out, b"WrongOperand"),
        Reason::BadEscape => push_word(out, b"BadEscape"),
        Reason::OpenString => push_word(out, b"OpenString"),
        Reason::OpenName => push_word(out, b"OpenName"),
        Reason::SectionTwice => push_word(out, b"SectionTwice"),
        Reason::UnknownKeyword => push_word(out, b"UnknownKeyword"),
        Reason::KeywordTwice => push_word(out, b"KeywordTwice"),
        Reason::CopyNotAlone => push_word(out, b"CopyNotAlone"),
        Reason::UnknownCharacter => push_word(out, b"UnknownCharacter"),
        Reason::CopyMissing => push_word(out, b"CopyMissing"),
        Reason::CopyCycle => push_word(out, b"CopyCycle"),
        Reason::BadClassName => push_word(out, b"BadClassName"),
        Reason::DigitsNotTen => push_word(out, b"DigitsNotTen"),
        Reason::NotCased => push_word(out, b"NotCased"),
        Reason::Excluded(first, second, value) => push_excluded(out, first, second, value),
        Reason::EmptyRadix => push_word(out, b"EmptyRadix"),
        Reason::BadCurrency => push_word(out, b"BadCurrency"),
        Reason::BadNumber => push_word(out, b"BadNumber"),
        Reason::WrongCount => push_word(out, b"WrongCount"),
        Reason::BadEra => push_word(out, b"BadEra"),
        Reason::BadFormat(at) => push_counted(out, b"BadFormat", at),
        Reason::FormatRank => push_word(out, b"FormatRank"),
        Reason::TooManyDigits => push_word(out, b"TooManyDigits"),
        Reason::BadMessage => push_word(out, b"BadMessage"),
    }
}

fn push_word(out: &mut Vec<u8>, word: &[u8]) -> Result<(), AllocError>
    ensures { OnOk result (out.new.items ≡ out.old.items ++ word.now) }
{
    out.extend_from_slice(word)
}

/// Adds two words with a space between them.
fn push_words(out: &mut Vec<u8>, first: &[u8], second: &[u8]) -> Result<(), AllocError>
    ensures { OnOk result (out.new.items ≡ out.old.items ++ (first.now ++ space ++ second.now)) }
{
    push_word(out, first)?;
    out.push(b' ')?;
    push_word(out, second)
}

/// Adds a word, a space and a number.
fn push_counted(out: &mut Vec<u8>, word: &[u8], count: u32) -> Result<(), AllocError>
    ensures { OnOk result (out.new.items ≡ out.old.items ++ (word.now ++ space ++ decimal count)) }
{
    push_word(out, word)?;
    push_labelled(out, b" ", u128::from(count))
}

/// Adds the classes that exclude one another, and the value that they share.
fn push_excluded(
    out: &mut Vec<u8>,
    first: Class,
    second: Class,
    value: u32,
) -> Result<(), AllocError>
    ensures { OnOk result (out.new.items ≡ out.old.items ++ reason_text (Reason.Excluded first second value)) }
{
    push_words(out, b"Excluded", first.name())?;
    out.push(b' ')?;
    push_counted(out, second.name(), value)
}

fn part_word(part: LinePart) -> &'static [u8]
    ensures { result.now ≡ part_word part }
{
    match part {
        LinePart::Directive => b"directive",
        LinePart::Command => b"command",
        LinePart::Argument => b"argument",
        LinePart::Thread => b"thread",
    }
}

fn limit_word(limit: Limit) -> &'static [u8]
    ensures { result.now ≡ limit_word limit }
{
    match limit {
        Limit::Locales => b"locales",
        Limit::Later => b"later",
        Limit::Charmaps => b"charmaps",
        Limit::Threads => b"threads",
        Limit::Rounds => b"rounds",
        Limit::Commands => b"commands",
        Limit::Format => b"format",
        Limit::Amounts => b"amounts",
        Limit::Numbers => b"numbers",
        Limit::CommandText => b"text",
        Limit::Catalogs => b"catalogs",
        Limit::Names => b"names",
        Limit::Operands => b"operands",
        Limit::Text => b"string",
        Limit::Texts => b"list",
        Limit::Conversions => b"conversions",
        Limit::Message => b"message",
        Limit::Messages => b"messages",
    }
}
