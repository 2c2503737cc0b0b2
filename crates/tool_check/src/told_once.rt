//! Messages that are told once.

ghost use Rattle.std.specs.Prelude.{OnOk};
ghost use Rattle.tool_messages.specs.Message.{BeginsWith};
ghost use Rattle.tool_check.specs.Odd.{IsAdded};

use lc_base::next_line;
use std::alloc::{AllocError, Global};
use std::collections::BTreeSet;
use tool_messages::push_word;

/// The messages of the files so far.
pub struct Told {
    messages: BTreeSet<Vec<u8>>,
}

impl Drop for Told {
    fn drop(self) {
        let Told { messages: _ } = self;
    }
}

impl Told {
    /// None yet.
    pub fn new(alloc: Global) -> Told {
        Told {
            messages: BTreeSet::new(alloc),
        }
    }
}

/// Adds those of the messages of a file that are not told yet; where all are, that they are told above.
#[tactic(auto, using(crate::proofs::OddLemmas::longer_added, crate::proofs::OddLemmas::line_added))]
pub fn push_untold(
    out: &mut Vec<u8>,
    told: &mut Told,
    path: &str,
    messages: &[u8],
) -> Result<(), AllocError>
    ensures { OnOk result (IsAdded out.old.items out.new.items) }
{
    let before = out.len();
    push_new(out, told, messages)?;
    if out.len() == before {
        push_above(out, path, messages)?;
    }
    Ok(())
}

/// Adds those of these messages that are not told yet.
#[tactic(auto, using(tool_messages::proofs::MessageLemmas::begins_same, tool_messages::proofs::MessageLemmas::begins_twice))]
fn push_new(out: &mut Vec<u8>, told: &mut Told, messages: &[u8]) -> Result<(), AllocError>
    ensures { OnOk result (BeginsWith out.old.items out.new.items) }
{
    let mut rest = messages;
    for _ in 0..messages.len() {
        if rest.is_empty() {
            return Ok(());
        }
        let following = behind_message(rest);
        let length = rest.len().saturating_sub(following.len());
        push_once(out, told, &rest[..length.min(rest.len())])?;
        rest = following;
    }
    Ok(())
}

/// Adds a message, unless it is told.
#[tactic(auto, using(tool_messages::proofs::MessageLemmas::begins_same, tool_messages::proofs::MessageLemmas::begins_more))]
fn push_once(out: &mut Vec<u8>, told: &mut Told, message: &[u8]) -> Result<(), AllocError>
    ensures { OnOk result (BeginsWith out.old.items out.new.items) }
{
    if told.messages.contains(message) {
        return Ok(());
    }
    let mut kept = Vec::new(*out.allocator());
    kept.extend_from_slice(message)?;
    told.messages.insert(kept)?;
    out.extend_from_slice(message)
}

/// Whether what tells a fault from others is not told yet; it is then told.
pub fn is_new(told: &mut Told, key: Vec<u8>) -> Result<bool, AllocError> {
    if told.messages.contains(key.as_slice()) {
        return Ok(false);
    }
    told.messages.insert(key)?;
    Ok(true)
}

/// What stands behind the first message: behind three lines, the place with the reason, the line and the mark, and
/// its hints.
fn behind_message(messages: &[u8]) -> &[u8] {
    let mut rest = messages;
    for _ in 0..3 {
        match next_line(rest) {
            Some((_, following)) => rest = following,
            None => return rest,
        }
    }
    for _ in 0..messages.len() {
        match next_line(rest) {
            Some((line, following)) if line.starts_with(b"hint: ") => rest = following,
            _ => return rest,
        }
    }
    rest
}

/// Adds that the faults of a file are told above, with the place of the first one.
#[tactic(auto, using(crate::proofs::OddLemmas::head_added))]
fn push_above(out: &mut Vec<u8>, path: &str, messages: &[u8]) -> Result<(), AllocError>
    ensures { OnOk result (IsAdded out.old.items out.new.items) }
{
    out.extend_from_slice(b"locale_tool: ")?;
    push_above_of(out, path, messages)
}

/// Adds the path of a file, and that its faults are told above.
#[tactic(auto, using(tool_messages::proofs::MessageLemmas::begins_same, tool_messages::proofs::MessageLemmas::begins_more))]
fn push_above_of(out: &mut Vec<u8>, path: &str, messages: &[u8]) -> Result<(), AllocError>
    ensures { OnOk result (BeginsWith out.old.items out.new.items) }
{
    push_word(out, path.as_bytes())?;
    out.extend_from_slice(b": it is refused, too, for what is told above of ")?;
    push_word(out, place_of(messages))?;
    out.extend_from_slice(b"\n")
}

/// The place with which a message begins, up to the blank.
fn place_of(message: &[u8]) -> &[u8] {
    for part in message.split(|byte| *byte == b' ') {
        return part.strip_suffix(b":").unwrap_or(part);
    }
    b""
}
