//! Whole numbers as text.

ghost use Rattle.std.specs.Prelude.{◌≡◌, true, IfOk, map};
ghost use Rattle.std.specs.List.{list_all};
ghost use Rattle.int_format.specs.Ints.{is_number};
ghost use Rattle.script_words.specs.Numbers.{number_of_word};
ghost use Rattle.tool_reads.specs.Answers.{Answers, all_of};
ghost use Rattle.tool_reads.specs.Printed.{number_line};

use crate::format_fault::{TEXT_MOST, text_problem, with_newline};
use crate::wrong_word::usage_problem;
use int_format::int_format;
use lc_base::ByteText;
use numeric_cat::Numeric;
use script_words::number_of_word;
use std::alloc::Global;
use tool_messages::Problem;

/// What a number is.
const WANTED: &[u8] =
    b"a number is 1 to 20 digits, perhaps behind a `-`, from -9223372036854775808 to 18446744073709551615";

/// The text of a format with whole numbers, and a newline (XSH fprintf).
///
/// A word that is no number is a wrong word. A format or numbers that have no text, or one of more than
/// 1048576 bytes, are refused.
#[tactic(auto, using(crate::proofs::AnswerLemmas::passed_on))]
pub fn number_line(
    alloc: Global,
    numeric: &Numeric,
    format: &str,
    words: &[&str],
) -> Result<ByteText, Problem>
    ensures { Answers (λ line. line) result (number_line numeric.now format.now (map (λ w. w.now) words.entry.now)) }
{
    let numbers = numbers_of(alloc, words)?;
    let format = format.as_bytes();
    match int_format(alloc, numeric, format, numbers.as_slice(), TEXT_MOST) {
        Ok(text) => with_newline(text),
        Err(fault) => Err(text_problem(alloc, format, fault.refusal())),
    }
}

/// The numbers that words are.
#[tactic(auto, using(crate::proofs::NumberLemmas::one_more_number, crate::proofs::AnswerLemmas::one_more_value, crate::proofs::AnswerLemmas::wrong_value, crate::proofs::AnswerLemmas::last_value, crate::proofs::AnswerLemmas::told))]
fn numbers_of(alloc: Global, words: &[&str]) -> Result<Vec<i128>, Problem>
    ensures is { Answers (λ numbers. numbers.items) result (all_of number_of_word (map (λ w. w.now) words.entry.now)) }
    ensures in_range { IfOk result (λ numbers. list_all is_number numbers.items ≡ true) }
{
    let mut numbers = Vec::new(alloc);
    for word in words {
        match number_of_word(word.as_bytes()) {
            Some(number) => numbers.push(number.value())?,
            None => return Err(usage_problem(alloc, word.as_bytes(), WANTED)),
        }
    }
    Ok(numbers)
}
