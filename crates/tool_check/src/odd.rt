//! Messages of what is found of a source that its reader passes over.

ghost use Rattle.std.specs.Prelude.{◌≡◌, ◌++◌, IfOk};
ghost use Rattle.tool_messages.specs.Message.{BeginsWith, fault_head};
ghost use Rattle.tool_check.specs.Odd.{AreFindingMessages, oddity_name, source_findings};

use crate::{Finding, Oddity, findings_in};
use lc_base::{Block, ByteText, is_blank};
use std::alloc::{AllocError, Global};
use tool_messages::{Spot, line_of, push_fault, push_word};

/// What is found of the first of these sources that its reader passes over.
pub fn source_findings(alloc: Global, locales: &[Block]) -> Result<Vec<Finding>, AllocError>
    ensures { IfOk result (λ found. found.items ≡ source_findings locales.now) }
{
    match locales {
        [first, ..] => findings_in(alloc, first.text.as_bytes()),
        [] => Ok(Vec::new(alloc)),
    }
}

/// The messages of findings, one after another.
#[tactic(auto, using(crate::proofs::OddLemmas::one_more_finding))]
pub fn finding_messages(
    alloc: Global,
    path: &str,
    locales: &[Block],
    findings: &[Finding],
) -> Result<ByteText, AllocError>
    ensures { IfOk result (AreFindingMessages path.now findings.now) }
{
    match findings {
        [] => Ok(ByteText::from_vec(Vec::new(alloc))),
        [first, later @ ..] => {
            let message = finding_message(alloc, path, locales, *first)?;
            let rest = finding_messages(alloc, path, locales, later)?;
            joined(message, rest.as_bytes())
        }
    }
}

/// A text with another behind it.
pub fn joined(text: ByteText, more: &[u8]) -> Result<ByteText, AllocError>
    ensures { IfOk result (λ both. both ≡ text ++ more.now) }
{
    let mut both = text.into_vec();
    both.extend_from_slice(more)?;
    Ok(ByteText::from_vec(both))
}

/// The message of a finding.
#[tactic(auto, using(tool_messages::proofs::MessageLemmas::begins_shorter))]
fn finding_message(
    alloc: Global,
    path: &str,
    locales: &[Block],
    finding: Finding,
) -> Result<ByteText, AllocError>
    ensures { IfOk result (BeginsWith (fault_head path.now finding.place.line finding.place.column (oddity_name finding.oddity))) }
{
    let mut message = Vec::new(alloc);
    let source = line_of(first_text(locales), finding.place.line);
    let spot = Spot {
        file: path.as_bytes(),
        line: finding.place.line,
        column: finding.place.column,
        source,
    };
    let words = finding_words(alloc, finding.oddity, source)?;
    push_fault(
        &mut message,
        &spot,
        oddity_name(finding.oddity),
        words.as_slice(),
    )?;
    Ok(ByteText::from_vec(message))
}

fn first_text(locales: &[Block]) -> &[u8] {
    match locales {
        [first, ..] => first.text.as_bytes(),
        [] => b"",
    }
}

/// The name of an oddity, which stands for the reason.
pub fn oddity_name(oddity: Oddity) -> &'static [u8]
    ensures { result.now ≡ oddity_name oddity }
{
    match oddity {
        Oddity::Return => b"CarriageReturn",
        Oddity::UnknownSection => b"UnknownSection",
        Oddity::NoSection => b"NoSection",
    }
}

/// What is wrong of a line, or of a source.
pub fn finding_words(alloc: Global, oddity: Oddity, line: &[u8]) -> Result<Vec<u8>, AllocError> {
    let mut words = Vec::new(alloc);
    match oddity {
        Oddity::Return => words.extend_from_slice(
            b"the line ends with CR LF, and CR is a byte of its last word; each line must end with LF alone",
        )?,
        Oddity::UnknownSection => {
            words.extend_from_slice(b"`")?;
            push_word(&mut words, first_word(line))?;
            words.extend_from_slice(
                b"` is no section of the standard, and nothing in it is read; the sections are LC_CTYPE, LC_COLLATE, LC_MESSAGES, LC_MONETARY, LC_NUMERIC and LC_TIME",
            )?;
            if is_gnu_section(first_word(line)) {
                words.extend_from_slice(
                    b"; this is an extension of GNU, and `locale_tool import` makes a standard source of it",
                )?;
            }
        }
        Oddity::NoSection => words.extend_from_slice(
            b"the file has no section; a source must have one, as the lines `LC_TIME` and `END LC_TIME`",
        )?,
    }
    Ok(words)
}

/// What stands between the blanks with which a line begins and the next ones.
fn first_word(line: &[u8]) -> &[u8] {
    for word in line.split(|byte| is_blank(*byte) || *byte == b'\r') {
        if !word.is_empty() {
            return word;
        }
    }
    b""
}

/// Whether a name is that of a section which GNU's sources have beyond the standard.
fn is_gnu_section(name: &[u8]) -> bool {
    match name {
        b"LC_IDENTIFICATION"
        | b"LC_PAPER"
        | b"LC_NAME"
        | b"LC_ADDRESS"
        | b"LC_TELEPHONE"
        | b"LC_MEASUREMENT"
        | b"LC_XLITERATE" => true,
        _ => false,
    }
}
