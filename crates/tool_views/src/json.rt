//! What two locales define differently, as JSON text.

ghost use Rattle.std.specs.Prelude.{◌≡◌};

use crate::differences::{Named, rows_of};
use crate::table::Row;
use charset::Charset;
use std::alloc::{AllocError, Global};
use tool_json::{Writer, push_flag, push_member};

/// Adds an object with what two locales define differently, by category and keyword, over a charset. Whether they
/// define something differently.
pub fn push_differences_json(
    alloc: Global,
    json: &mut Writer,
    left: &Named<'_>,
    right: &Named<'_>,
    charset: &Charset,
) -> Result<bool, AllocError>
    ensures before { json.new.before ≡ json.old.before }
{
    let rows = rows_of(alloc, left, right, charset)?;
    let differ = !rows.is_empty();
    json.begin_object()?;
    push_member(alloc, json, "first", left.name.as_bytes())?;
    push_member(alloc, json, "second", right.name.as_bytes())?;
    push_flag(json, "differ", differ)?;
    json.key("categories")?;
    json.begin_array()?;
    push_categories(alloc, json, rows.as_slice())?;
    json.end_array()?;
    json.end_object()?;
    Ok(differ)
}

/// Adds an object for each category of rows.
fn push_categories(alloc: Global, json: &mut Writer, rows: &[Row]) -> Result<(), AllocError>
    ensures before { json.new.before ≡ json.old.before }
{
    let mut category: &[u8] = b"";
    for row in rows {
        if row.category.as_bytes() != category {
            if !category.is_empty() {
                close_category(json)?;
            }
            category = row.category.as_bytes();
            open_category(alloc, json, category)?;
        }
        push_keyword(alloc, json, row)?;
    }
    if !category.is_empty() {
        close_category(json)?;
    }
    Ok(())
}

fn open_category(alloc: Global, json: &mut Writer, category: &[u8]) -> Result<(), AllocError>
    ensures before { json.new.before ≡ json.old.before }
{
    json.begin_object()?;
    push_member(alloc, json, "category", category)?;
    json.key("keywords")?;
    json.begin_array()
}

fn close_category(json: &mut Writer) -> Result<(), AllocError>
    ensures before { json.new.before ≡ json.old.before }
{
    json.end_array()?;
    json.end_object()
}

/// Adds a keyword with its values in both locales, as the table shows them.
fn push_keyword(alloc: Global, json: &mut Writer, row: &Row) -> Result<(), AllocError>
    ensures before { json.new.before ≡ json.old.before }
{
    json.begin_object()?;
    push_member(alloc, json, "keyword", row.keyword.as_bytes())?;
    push_member(alloc, json, "first", row.left.as_bytes())?;
    push_member(alloc, json, "second", row.right.as_bytes())?;
    json.end_object()
}
