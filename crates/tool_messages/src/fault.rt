//! How a fault is shown.

ghost use Rattle.std.specs.Prelude.{◌≡◌, ◌++◌, OnOk};
ghost use Rattle.tool_messages.specs.Message.{BeginsWith, fault_head, fault_line};

use crate::word::push_word;
use lc_base::push_number;
use std::alloc::AllocError;

/// How many bytes of a line are shown in front of a place.
const BYTES_BEFORE: usize = 60;

/// How many bytes of a line are shown.
const BYTES_SHOWN: usize = 120;

/// A place in a file, with the line that it is in.
#[derive(Clone, Copy)]
pub struct Spot<'a> {
    pub file: &'a [u8],
    /// From 1.
    pub line: u32,
    /// The byte in the line, from 1.
    pub column: u32,
    pub source: &'a [u8],
}

/// Adds `FILE:LINE:COLUMN: REASON: RULE`, the line and a mark under the place.
#[tactic(auto, using(crate::proofs::MessageLemmas::begins_equal))]
pub fn push_fault(
    out: &mut Vec<u8>,
    spot: &Spot<'_>,
    reason: &[u8],
    rule: &[u8],
) -> Result<(), AllocError>
    ensures { OnOk result (BeginsWith (out.old.items ++ fault_line spot.now.file.now spot.now.line spot.now.column reason.now rule.now) out.new.items) }
{
    push_line(out, spot, reason, rule)?;
    push_marked(out, spot.source, spot.column as usize)
}

/// Adds `FILE:LINE:COLUMN: REASON: RULE`.
fn push_line(
    out: &mut Vec<u8>,
    spot: &Spot<'_>,
    reason: &[u8],
    rule: &[u8],
) -> Result<(), AllocError>
    ensures { OnOk result (out.new.items ≡ out.old.items ++ fault_line spot.now.file.now spot.now.line spot.now.column reason.now rule.now) }
{
    push_head(out, spot, reason)?;
    out.extend_from_slice(b": ")?;
    out.extend_from_slice(rule)?;
    out.extend_from_slice(b"\n")
}

/// Adds `FILE:LINE:COLUMN: REASON`.
fn push_head(out: &mut Vec<u8>, spot: &Spot<'_>, reason: &[u8]) -> Result<(), AllocError>
    ensures { OnOk result (out.new.items ≡ out.old.items ++ fault_head spot.now.file.now spot.now.line spot.now.column reason.now) }
{
    push_word(out, spot.file)?;
    out.extend_from_slice(b":")?;
    push_number(out, u128::from(spot.line))?;
    out.extend_from_slice(b":")?;
    push_number(out, u128::from(spot.column))?;
    out.extend_from_slice(b": ")?;
    out.extend_from_slice(reason)
}

/// Adds a line, cut where it is long, and a mark under a column.
#[tactic(auto, using(crate::proofs::MessageLemmas::begins_same, crate::proofs::MessageLemmas::begins_more, crate::proofs::MessageLemmas::begins_twice))]
fn push_marked(out: &mut Vec<u8>, line: &[u8], column: usize) -> Result<(), AllocError>
    ensures { OnOk result (BeginsWith out.old.items out.new.items) }
{
    let at = column.saturating_sub(1).min(line.len());
    let start = at.saturating_sub(BYTES_BEFORE);
    let end = start.saturating_add(BYTES_SHOWN).min(line.len());
    push_shown(out, &line[start..end])?;
    out.extend_from_slice(b"\n")?;
    push_blank(out, &line[start..at])?;
    out.extend_from_slice(b"^\n")
}

/// Adds a part of a line, without control bytes but for tabs.
#[tactic(auto, using(crate::proofs::MessageLemmas::begins_same, crate::proofs::MessageLemmas::begins_more, crate::proofs::MessageLemmas::begins_twice))]
fn push_shown(out: &mut Vec<u8>, part: &[u8]) -> Result<(), AllocError>
    ensures { OnOk result (BeginsWith out.old.items out.new.items) }
{
    for byte in part {
        let shown = if is_shown(*byte) { *byte } else { b'?' };
        out.push(shown)?;
    }
    Ok(())
}

fn is_shown(byte: u8) -> bool {
    byte == b'\t' || (byte >= b' ' && byte != 127)
}

/// Adds blanks that are as wide as a part of a line: a tab for a tab, and none for what goes on a
/// character of several bytes.
#[tactic(auto, using(crate::proofs::MessageLemmas::begins_same, crate::proofs::MessageLemmas::begins_more, crate::proofs::MessageLemmas::begins_twice))]
fn push_blank(out: &mut Vec<u8>, part: &[u8]) -> Result<(), AllocError>
    ensures { OnOk result (BeginsWith out.old.items out.new.items) }
{
    for byte in part {
        if *byte == b'\t' {
            out.push(b'\t')?;
        } else if *byte < 128 || *byte >= 192 {
            out.push(b' ')?;
        }
    }
    Ok(())
}
