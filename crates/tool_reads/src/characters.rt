//! Characters, their classes and their cases.

ghost use Rattle.std.specs.Prelude.{◌≡◌, ◌++◌, Ok, IfOk, IfErr, OnOk, Some, codes, map};
ghost use Rattle.script_words.specs.Words.{behind_front};
ghost use Rattle.tool_reads.specs.Answers.{Answers, Tells, beside, each_of, value_or_wrong};
ghost use Rattle.tool_reads.specs.Printed.{case_line, character, character_line, class_line, class_text, numbered, zeros};

use crate::wrong_word::{unknown_problem, usage_problem};
use charset::Charset;
use ctype_classes::Ctype;
use lc_base::{ByteText, decimal_number, push_number};
use script_words::behind_front;
use std::alloc::{AllocError, Global};
use tool_messages::Problem;

/// What a character is.
const WANTED: &[u8] =
    b"a character is given as itself, as `U+00E9` or as the number of its wide value; the charset has no such character";

/// The digits that fill up a number.
const ZEROS: [u8; 8] = [b'0'; 8];

/// A line for each character: the word, and whether it is in the class (XSH iswctype).
///
/// A word that is no character is a wrong word; a class that the locale does not have is refused.
#[tactic(auto, using(crate::proofs::AnswerLemmas::one_more_line, crate::proofs::AnswerLemmas::no_line, crate::proofs::AnswerLemmas::last_line))]
pub fn class_lines(
    alloc: Global,
    ctype: &Ctype,
    charset: &Charset,
    class: &str,
    words: &[&str],
) -> Result<ByteText, Problem>
    ensures { Answers (λ lines. lines) result (each_of (class_line ctype.now charset.now class.now) (map (λ w. w.now) words.entry.now)) }
{
    let mut lines = Vec::new(alloc);
    for word in words {
        push_class(alloc, &mut lines, ctype, charset, class, word)?;
    }
    Ok(ByteText::from_vec(lines))
}

#[tactic(auto, using(crate::proofs::AnswerLemmas::told, crate::proofs::AnswerLemmas::passed_on))]
fn push_class(
    alloc: Global,
    lines: &mut Vec<u8>,
    ctype: &Ctype,
    charset: &Charset,
    class: &str,
    word: &str,
) -> Result<(), Problem>
    ensures added { OnOk result (beside lines.old.items (class_line ctype.now charset.now class.now word.now) ≡ Ok lines.new.items) }
    ensures told { IfErr result (λ problem. Tells problem (class_line ctype.now charset.now class.now word.now)) }
{
    let value = value_of(alloc, charset, word)?;
    match ctype.is(class.as_bytes(), value) {
        Some(is) => push_is(lines, word, is),
        None => Err(unknown_problem(alloc, class.as_bytes(), "NoClass")),
    }
}

fn push_is(lines: &mut Vec<u8>, word: &str, is: bool) -> Result<(), Problem>
    ensures added { OnOk result (beside lines.old.items (class_text word.now (Some is)) ≡ Ok lines.new.items) }
    ensures told { IfErr result (λ problem. Tells problem (class_text word.now (Some is))) }
{
    let said: &[u8] = if is { b" yes\n" } else { b" no\n" };
    lines.extend_from_slice(word.as_bytes())?;
    lines.extend_from_slice(said)?;
    Ok(())
}

/// The upper case of each character, a line each (XSH towupper). A word that is no character is a wrong
/// word.
#[tactic(auto, using(crate::proofs::AnswerLemmas::one_more_line, crate::proofs::AnswerLemmas::no_line, crate::proofs::AnswerLemmas::last_line))]
pub fn upper_lines(
    alloc: Global,
    ctype: &Ctype,
    charset: &Charset,
    words: &[&str],
) -> Result<ByteText, Problem>
    ensures { Answers (λ lines. lines) result (each_of (case_line charset.now ctype.now.upper) (map (λ w. w.now) words.entry.now)) }
{
    let mut lines = Vec::new(alloc);
    for word in words {
        push_upper(alloc, &mut lines, ctype, charset, word)?;
    }
    Ok(ByteText::from_vec(lines))
}

#[tactic(auto, using(crate::proofs::AnswerLemmas::told, crate::proofs::AnswerLemmas::passed_on))]
fn push_upper(
    alloc: Global,
    lines: &mut Vec<u8>,
    ctype: &Ctype,
    charset: &Charset,
    word: &str,
) -> Result<(), Problem>
    ensures added { OnOk result (beside lines.old.items (case_line charset.now ctype.now.upper word.now) ≡ Ok lines.new.items) }
    ensures told { IfErr result (λ problem. Tells problem (case_line charset.now ctype.now.upper word.now)) }
{
    let value = value_of(alloc, charset, word)?;
    push_character(lines, charset, ctype.upper(value))?;
    Ok(())
}

/// The lower case of each character, a line each (XSH towlower). A word that is no character is a wrong
/// word.
#[tactic(auto, using(crate::proofs::AnswerLemmas::one_more_line, crate::proofs::AnswerLemmas::no_line, crate::proofs::AnswerLemmas::last_line))]
pub fn lower_lines(
    alloc: Global,
    ctype: &Ctype,
    charset: &Charset,
    words: &[&str],
) -> Result<ByteText, Problem>
    ensures { Answers (λ lines. lines) result (each_of (case_line charset.now ctype.now.lower) (map (λ w. w.now) words.entry.now)) }
{
    let mut lines = Vec::new(alloc);
    for word in words {
        push_lower(alloc, &mut lines, ctype, charset, word)?;
    }
    Ok(ByteText::from_vec(lines))
}

#[tactic(auto, using(crate::proofs::AnswerLemmas::told, crate::proofs::AnswerLemmas::passed_on))]
fn push_lower(
    alloc: Global,
    lines: &mut Vec<u8>,
    ctype: &Ctype,
    charset: &Charset,
    word: &str,
) -> Result<(), Problem>
    ensures added { OnOk result (beside lines.old.items (case_line charset.now ctype.now.lower word.now) ≡ Ok lines.new.items) }
    ensures told { IfErr result (λ problem. Tells problem (case_line charset.now ctype.now.lower word.now)) }
{
    let value = value_of(alloc, charset, word)?;
    push_character(lines, charset, ctype.lower(value))?;
    Ok(())
}

/// Adds a line with a character, or with its number where the charset does not have it.
fn push_character(lines: &mut Vec<u8>, charset: &Charset, value: u32) -> Result<(), AllocError>
    ensures { OnOk result (lines.new.items ≡ lines.old.items ++ character_line charset.now value) }
{
    match charset.encode(value) {
        Some(code) => lines.extend_from_slice(code.as_bytes())?,
        None => push_number(lines, u128::from(value))?,
    }
    lines.extend_from_slice(b"\n")
}

/// The wide value of the character that a word is.
#[tactic(auto, using(crate::proofs::AnswerLemmas::told))]
fn value_of(alloc: Global, charset: &Charset, word: &str) -> Result<u32, Problem>
    ensures { Answers (λ value. value) result (value_or_wrong (character charset.now word.now)) }
{
    if let Some(value) = charset.value_of_bytes(word.as_bytes()) {
        return Ok(value);
    }
    match named_value(alloc, charset, word.as_bytes())? {
        Some(value) => Ok(value),
        None => Err(usage_problem(alloc, word.as_bytes(), WANTED)),
    }
}

/// The wide value of `U+HHHH`, or of a number.
fn named_value(alloc: Global, charset: &Charset, word: &[u8]) -> Result<Option<u32>, AllocError>
    ensures { IfOk result (λ value. value ≡ numbered charset.now word.now (behind_front (codes "U+") word.now)) }
{
    match behind_front(b"U+", word) {
        Some(digits) => {
            let mut name = Vec::new(alloc);
            name.push(b'U')?;
            push_zeros(&mut name, digits.len())?;
            name.extend_from_slice(digits)?;
            Ok(charset.value_of(name.as_slice()))
        }
        None => Ok(decimal_number(word)),
    }
}

/// Adds the zeros that so many digits lack of four, or of eight where they are more.
fn push_zeros(name: &mut Vec<u8>, digits: usize) -> Result<(), AllocError>
    ensures { OnOk result (name.new.items ≡ name.old.items ++ zeros digits) }
{
    let width: usize = if digits <= 4 { 4 } else { 8 };
    let all = width.saturating_sub(digits);
    name.extend_from_slice(&ZEROS[..all])
}
