//! Texts in buffers of the caller.

ghost use Rattle.std.specs.Prelude.{◌≡◌, ◌<◌, length};
ghost use Rattle.c_values.specs.Answers.{filled, told, ended, closed, UnlessOk};

use crate::answer::{LobjAnswer, OK, TOO_SMALL, answered, refusal_told};
use text_buffer::Unwritten;

/// Puts a text with a NUL behind it to the front of a buffer, if it has room for both.
#[inline(always)]
pub fn put_text(buffer: &mut [u8], text: &[u8]) -> LobjAnswer
    ensures told { (result, buffer.new) ≡ told buffer.old text.now }
    ensures untouched { UnlessOk result (buffer.new ≡ buffer.old) }
{
    if text.len() < buffer.len() {
        put_front(buffer, text);
        answered(OK, text.len())
    } else {
        answered(TOO_SMALL, text.len().saturating_add(1))
    }
}

/// Puts a text with a NUL behind it to the front of a buffer.
#[tactic(auto, using(crate::proofs::BufferLemmas::ended_by))]
#[inline(always)]
fn put_front(buffer: &mut [u8], text: &[u8])
    requires { length text.now < length buffer.old }
    ensures { buffer.new ≡ filled buffer.old text.now }
{
    buffer[text.len()] = 0;
    buffer[..text.len()].copy_from_slice(text);
}

/// Puts a NUL behind a text that was written into all of a buffer but its last byte, if there is one.
pub fn close(buffer: &mut [u8], written: Result<usize, Unwritten>) -> LobjAnswer
    ensures { (result, buffer.new) ≡ closed buffer.old written }
{
    match written {
        Ok(n) => end_text(buffer, n),
        Err(Unwritten::Refused(why)) => refusal_told(why),
        Err(Unwritten::TooSmall { needed }) => answered(TOO_SMALL, needed.saturating_add(1)),
    }
}

/// Puts a NUL behind a text of so many bytes, if the buffer has more.
fn end_text(buffer: &mut [u8], n: usize) -> LobjAnswer
    ensures { (result, buffer.new) ≡ ended buffer.old n }
{
    if n < buffer.len() {
        buffer[n] = 0;
        answered(OK, n)
    } else {
        answered(TOO_SMALL, 1)
    }
}
