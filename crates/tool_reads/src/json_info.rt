//! The items of a locale.

ghost use Rattle.std.specs.Prelude.{◌≡◌, ◌∷◌, [], ◌++◌, Ok, IfErr, OnOk, map};
ghost use Rattle.lc_base.specs.Tables.{first_named};
ghost use Rattle.script_words.specs.Tables.{items_table};
ghost use Rattle.tool_reads.specs.Printed.{text_in};
ghost use Rattle.tool_reads.specs.Answers.{Answers, Tells, all_of, beside};
ghost use Rattle.tool_reads.specs.JsonReads.{info_json, is_asked, is_named, item_member, item_members, members_json};

use crate::{item_of, no_item, text_of};
use json::Writer;
use langinfo::LentCategories;
use lc_base::{ByteText, Item};
use script_words::{item_named, item_rows};
use std::alloc::Global;
use tool_json::{json_line, new_writer, push_member};
use tool_messages::Problem;

/// An object with a member for each item that is named, or for all of them without names, in the order of the
/// standard's table (XSH nl_langinfo).
///
/// A word that names no item is a wrong word.
#[tactic(auto, using(crate::proofs::AnswerLemmas::passed_on, crate::proofs::AnswerLemmas::names_of_rows))]
pub fn info_json(
    alloc: Global,
    locale: &LentCategories<'_>,
    names: &[&str],
) -> Result<ByteText, Problem>
    ensures { Answers (λ line. line) result (info_json (text_in locale.entry.now) (map (λ name. name.now) names.entry.now)) }
{
    let _named = items_of(alloc, names)?;
    items_json(alloc, locale, names, item_rows())
}

/// The items with these names.
#[tactic(auto, using(crate::proofs::AnswerLemmas::one_more_value, crate::proofs::AnswerLemmas::wrong_value, crate::proofs::AnswerLemmas::last_value, crate::proofs::AnswerLemmas::told))]
fn items_of(alloc: Global, names: &[&str]) -> Result<Vec<Item>, Problem>
    ensures { Answers (λ v. v.items) result (all_of (first_named items_table) (map (λ name. name.now) names.entry.now)) }
{
    let mut items = Vec::new(alloc);
    for name in names {
        match item_named(name.as_bytes()) {
            Some(item) => items.push(item)?,
            None => return Err(no_item(alloc, name)),
        }
    }
    Ok(items)
}

/// An object with a member for each of these items that is asked for.
#[tactic(auto, using(crate::proofs::MemberLemmas::one_more_member, crate::proofs::MemberLemmas::no_member, crate::proofs::MemberLemmas::last_member))]
fn items_json(
    alloc: Global,
    locale: &LentCategories<'_>,
    asked: &[&str],
    rows: &[(&str, Item)],
) -> Result<ByteText, Problem>
    ensures { Answers (λ line. line) result (members_json (item_members (text_in locale.entry.now) (map (λ name. name.now) asked.entry.now) (map (λ row. row.0.now) rows.entry.now))) }
{
    let mut json = new_writer(alloc);
    json.begin_object()?;
    for row in rows {
        push_item(alloc, &mut json, locale, asked, row.0)?;
    }
    json.end_object()?;
    Ok(json_line(json)?)
}

/// Adds the member of an item, where it is asked for.
#[tactic(auto, using(crate::proofs::AnswerLemmas::told, crate::proofs::AnswerLemmas::passed_on))]
fn push_item(
    alloc: Global,
    json: &mut Writer,
    locale: &LentCategories<'_>,
    asked: &[&str],
    name: &str,
) -> Result<(), Problem>
    ensures before { json.new.before ≡ json.old.before }
    ensures added { OnOk result (beside json.old.tokens (item_member (text_in locale.entry.now) (map (λ name. name.now) asked.entry.now) name.now) ≡ Ok json.new.tokens) }
    ensures told { IfErr result (λ problem. Tells problem (item_member (text_in locale.entry.now) (map (λ name. name.now) asked.entry.now) name.now)) }
{
    if !is_asked(asked, name) {
        return Ok(());
    }
    let item = item_of(alloc, name)?;
    let text = text_of(alloc, locale, item)?;
    push_member(alloc, json, name, text.as_bytes())?;
    Ok(())
}

/// Whether an item is asked for: it is named, or no item is.
fn is_asked(asked: &[&str], name: &str) -> bool
    ensures { result ≡ is_asked (map (λ name. name.now) asked.entry.now) name.now }
{
    match asked {
        [] => true,
        _ => is_named(asked, name),
    }
}

fn is_named(words: &[&str], name: &str) -> bool
    ensures { result ≡ is_named (map (λ name. name.now) words.entry.now) name.now }
{
    for word in words {
        if *word == name {
            return true;
        }
    }
    false
}
