//! The names and the rules of reasons, put into buffers of the caller.

ghost use Rattle.std.specs.Prelude.{◌≡◌, ◌<◌, ◌≤◌};
ghost use Rattle.reason_rules.specs.Limits.{ROW_COUNT};
ghost use Rattle.reason_rules.specs.Table.{name_at, rule_at};
ghost use Rattle.c_values.specs.Codes.{NO_ITEM};
ghost use Rattle.c_values.specs.Answers.{refused, told};

use crate::answer::{LobjAnswer, NO_ITEM, answered};
use crate::buffer::put_text;
use reason_rules::row_at;

/// Puts the rule of the reason with a number into a buffer.
pub fn put_rule(buffer: &mut [u8], number: u32) -> LobjAnswer
    ensures there { number < ROW_COUNT → (result, buffer.new) ≡ told buffer.old (rule_at number) }
    ensures none { ROW_COUNT ≤ number → (result, buffer.new) ≡ refused buffer.old NO_ITEM 0 }
{
    match row_at(number) {
        None => answered(NO_ITEM, 0),
        Some(row) => put_text(buffer, row.rule.as_bytes()),
    }
}

/// Puts the name of the reason with a number into a buffer.
pub fn put_reason_name(buffer: &mut [u8], number: u32) -> LobjAnswer
    ensures there { number < ROW_COUNT → (result, buffer.new) ≡ told buffer.old (name_at number) }
    ensures none { ROW_COUNT ≤ number → (result, buffer.new) ≡ refused buffer.old NO_ITEM 0 }
{
    match row_at(number) {
        None => answered(NO_ITEM, 0),
        Some(row) => put_text(buffer, row.name.as_bytes()),
    }
}
