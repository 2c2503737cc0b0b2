//! Rows of the table of reasons.

ghost use Rattle.std.specs.Prelude.{◌≡◌, ◌++◌, OnOk};
ghost use Rattle.tool_json.specs.Json.{row_tokens};

use crate::members::push_member;
use json::Writer;
use reason_rules::ReasonRow;
use std::alloc::{AllocError, Global};

/// Adds what a row says: its name, its rule, lines that break it and lines that keep it.
pub fn push_row(alloc: Global, json: &mut Writer, row: &ReasonRow) -> Result<(), AllocError>
    ensures before { json.new.before ≡ json.old.before }
    ensures tokens { OnOk result (json.new.tokens ≡ json.old.tokens ++ (row_tokens row.now)) }
{
    json.begin_object()?;
    push_member(alloc, json, "name", row.name.as_bytes())?;
    push_member(alloc, json, "rule", row.rule.as_bytes())?;
    push_member(alloc, json, "refused", row.breaks.as_bytes())?;
    push_member(alloc, json, "accepted", row.keeps.as_bytes())?;
    json.end_object()
}
