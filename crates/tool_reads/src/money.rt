//! Amounts of money as text.

ghost use Rattle.std.specs.Prelude.{map};
ghost use Rattle.tool_reads.specs.Answers.{Answers, all_of};
ghost use Rattle.tool_reads.specs.Printed.{money_line};
ghost use Rattle.script_words.specs.Numbers.{amount_of_word};

use crate::format_fault::{TEXT_MOST, text_problem, with_newline};
use crate::wrong_word::usage_problem;
use lc_base::ByteText;
use monetary_cat::Monetary;
use script_words::amount_of_word;
use std::alloc::Global;
use strfmon::{Amount, strfmon};
use tool_messages::Problem;

/// What an amount is.
const WANTED: &[u8] =
    b"an amount is 1 to 19 digits, perhaps behind a `-`, and perhaps a point and 1 to 18 digits more; without the point they are a number of 64 bits";

/// The text of a format with amounts, and a newline (XSH strfmon).
///
/// A word that is no amount is a wrong word. A format or amounts that have no text, or one of more than
/// 1048576 bytes, are refused.
#[tactic(auto, using(crate::proofs::AnswerLemmas::passed_on))]
pub fn money_line(
    alloc: Global,
    monetary: &Monetary,
    format: &str,
    words: &[&str],
) -> Result<ByteText, Problem>
    ensures { Answers (λ line. line) result (money_line monetary.now format.now (map (λ w. w.now) words.entry.now)) }
{
    let amounts = amounts_of(alloc, words)?;
    let format = format.as_bytes();
    match strfmon(alloc, monetary, format, amounts.as_slice(), TEXT_MOST) {
        Ok(text) => with_newline(text),
        Err(fault) => Err(text_problem(alloc, format, fault.refusal())),
    }
}

/// The amounts that words are.
#[tactic(auto, using(crate::proofs::AnswerLemmas::one_more_value, crate::proofs::AnswerLemmas::wrong_value, crate::proofs::AnswerLemmas::last_value, crate::proofs::AnswerLemmas::told))]
fn amounts_of(alloc: Global, words: &[&str]) -> Result<Vec<Amount>, Problem>
    ensures { Answers (λ amounts. amounts.items) result (all_of amount_of_word (map (λ w. w.now) words.entry.now)) }
{
    let mut amounts = Vec::new(alloc);
    for word in words {
        match amount_of_word(word.as_bytes()) {
            Some(amount) => amounts.push(amount)?,
            None => return Err(usage_problem(alloc, word.as_bytes(), WANTED)),
        }
    }
    Ok(amounts)
}
