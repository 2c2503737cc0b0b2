//! The items of a locale.

ghost use Rattle.std.specs.Prelude.{◌≡◌, ◌++◌, Ok, IfOk, IfErr, OnOk, map};
ghost use Rattle.script_out.specs.Output.{quoted};
ghost use Rattle.lc_base.specs.Tables.{first_named};
ghost use Rattle.script_words.specs.Tables.{items_table};
ghost use Rattle.tool_reads.specs.Answers.{Answers, IsOf, Tells, WrongWord, beside, each_of, value_or_wrong};
ghost use Rattle.tool_reads.specs.Printed.{field, info_lines, item_names, named_line, plain_line, text_in};

use crate::wrong_word::usage_problem;
use langinfo::{LentCategories, nl_langinfo};
use lc_base::{ByteText, Item};
use script_out::push_quoted;
use script_words::{item_named, item_rows};
use std::alloc::{AllocError, Global};
use tool_messages::Problem;

/// What an item is.
const WANTED: &[u8] =
    b"there is no such item; `locale_tool info` prints all of them with their names";

/// The text of each item in a line; without names each item as `NAME="TEXT"` (XSH nl_langinfo).
///
/// A word that names no item is a wrong word.
pub fn info_lines(
    alloc: Global,
    locale: &LentCategories<'_>,
    names: &[&str],
) -> Result<ByteText, Problem>
    ensures { Answers (λ lines. lines) result (info_lines (text_in locale.entry.now) (map (λ name. name.now) names.entry.now)) }
{
    match names {
        [] => all_named(alloc, locale),
        _ => plain_lines(alloc, locale, names),
    }
}

#[tactic(auto, using(crate::proofs::AnswerLemmas::names_of_rows))]
fn all_named(alloc: Global, locale: &LentCategories<'_>) -> Result<ByteText, Problem>
    ensures { Answers (λ lines. lines) result (each_of (named_line (text_in locale.entry.now)) item_names) }
{
    named_lines(alloc, locale, item_rows())
}

#[tactic(auto, using(crate::proofs::AnswerLemmas::one_more_line, crate::proofs::AnswerLemmas::no_line, crate::proofs::AnswerLemmas::last_line))]
fn plain_lines(
    alloc: Global,
    locale: &LentCategories<'_>,
    names: &[&str],
) -> Result<ByteText, Problem>
    ensures { Answers (λ lines. lines) result (each_of (plain_line (text_in locale.entry.now)) (map (λ name. name.now) names.entry.now)) }
{
    let mut lines = Vec::new(alloc);
    for name in names {
        push_plain(alloc, &mut lines, locale, name)?;
    }
    Ok(ByteText::from_vec(lines))
}

#[tactic(auto, using(crate::proofs::AnswerLemmas::told, crate::proofs::AnswerLemmas::passed_on))]
fn push_plain(
    alloc: Global,
    lines: &mut Vec<u8>,
    locale: &LentCategories<'_>,
    name: &str,
) -> Result<(), Problem>
    ensures added { OnOk result (beside lines.old.items (plain_line (text_in locale.entry.now) name.now) ≡ Ok lines.new.items) }
    ensures told { IfErr result (λ problem. Tells problem (plain_line (text_in locale.entry.now) name.now)) }
{
    let item = item_of(alloc, name)?;
    let text = text_of(alloc, locale, item)?;
    lines.extend_from_slice(text.as_bytes())?;
    lines.extend_from_slice(b"\n")?;
    Ok(())
}

#[tactic(auto, using(crate::proofs::AnswerLemmas::one_more_line, crate::proofs::AnswerLemmas::no_line, crate::proofs::AnswerLemmas::last_line))]
fn named_lines(
    alloc: Global,
    locale: &LentCategories<'_>,
    rows: &[(&str, Item)],
) -> Result<ByteText, Problem>
    ensures { Answers (λ lines. lines) result (each_of (named_line (text_in locale.entry.now)) (map (λ row. row.0.now) rows.entry.now)) }
{
    let mut lines = Vec::new(alloc);
    for row in rows {
        push_named(alloc, &mut lines, locale, row.0)?;
    }
    Ok(ByteText::from_vec(lines))
}

#[tactic(auto, using(crate::proofs::AnswerLemmas::told, crate::proofs::AnswerLemmas::passed_on))]
fn push_named(
    alloc: Global,
    lines: &mut Vec<u8>,
    locale: &LentCategories<'_>,
    name: &str,
) -> Result<(), Problem>
    ensures added { OnOk result (beside lines.old.items (named_line (text_in locale.entry.now) name.now) ≡ Ok lines.new.items) }
    ensures told { IfErr result (λ problem. Tells problem (named_line (text_in locale.entry.now) name.now)) }
{
    let item = item_of(alloc, name)?;
    let text = text_of(alloc, locale, item)?;
    push_quoted_field(lines, name.as_bytes(), text.as_bytes())?;
    Ok(())
}

/// Adds a line `NAME="TEXT"`.
#[tactic(auto, unfolding(crate::specs::Printed::field))]
pub fn push_quoted_field(lines: &mut Vec<u8>, name: &[u8], text: &[u8]) -> Result<(), AllocError>
    ensures { OnOk result (lines.new.items ≡ lines.old.items ++ field name.now (quoted text.now)) }
{
    lines.extend_from_slice(name)?;
    lines.extend_from_slice(b"=")?;
    push_quoted(lines, text)?;
    lines.extend_from_slice(b"\n")
}

/// The item that a word names.
#[tactic(auto, using(crate::proofs::AnswerLemmas::told))]
pub fn item_of(alloc: Global, name: &str) -> Result<Item, Problem>
    ensures { Answers (λ item. item) result (value_or_wrong (first_named items_table name.now)) }
{
    match item_named(name.as_bytes()) {
        Some(item) => Ok(item),
        None => Err(no_item(alloc, name)),
    }
}

/// The problem of a word that names no item.
pub fn no_item(alloc: Global, name: &str) -> Problem
    ensures { IsOf result WrongWord }
{
    usage_problem(alloc, name.as_bytes(), WANTED)
}

/// The text of an item.
pub fn text_of(
    alloc: Global,
    locale: &LentCategories<'_>,
    item: Item,
) -> Result<ByteText, AllocError>
    ensures { IfOk result (λ text. text ≡ text_in locale.entry.now item) }
{
    nl_langinfo(
        alloc,
        locale.ctype,
        locale.numeric,
        locale.monetary,
        locale.time,
        locale.messages,
        item,
    )
}
