//! A line.

ghost use Rattle.std.specs.Prelude.{◌≡◌, true, IfOk};
ghost use Rattle.script_out.specs.Output.{line_text};
ghost use Rattle.lc_base.specs.Lines.{ended};
ghost use Rattle.output_reader.specs.Lines.{AreThreadNames};
ghost use Rattle.output_reader.specs.Ranges.{IsLine};
ghost use Rattle.output_reader.specs.Reading.{ReadsBack};

use crate::items::{places, thread, version};
use crate::pieces::{cut, is_word, small_number};
use crate::reply::reply;
use crate::unread::Unread;
use lc_base::{ByteText, List};
use script_out::{OutLine, push_line};
use std::alloc::Global;

/// The line that prints as these bytes and a newline.
pub fn line(alloc: Global, bytes: &[u8], threads: &List<ByteText>) -> Result<OutLine, Unread>
    requires { AreThreadNames threads.now }
    ensures read { IfOk result (λ l. IsLine threads.now l × (line_text threads.now l ≡ ended bytes.now)) }
    ensures back { ReadsBack (line_text threads.now) (IsLine threads.now) threads.now (ended bytes.now) result }
{
    let line = line_of_pieces(alloc, bytes, threads)?;
    let mut text = Vec::new(alloc);
    push_line(&mut text, &line, threads)?;
    if is_ended(text.as_slice(), bytes) {
        Ok(line)
    } else {
        Err(Unread::Unprinted)
    }
}

/// Whether a text is these bytes and a newline.
fn is_ended(text: &[u8], bytes: &[u8]) -> bool
    ensures is { result ≡ true → text.now ≡ ended bytes.now }
    ensures back { text.now ≡ ended bytes.now → result ≡ true }
{
    match text.strip_suffix(b"\n") {
        Some(line) => is_word(line, bytes),
        None => false,
    }
}

/// The one line that may print as these bytes and a newline.
fn line_of_pieces(alloc: Global, bytes: &[u8], threads: &List<ByteText>) -> Result<OutLine, Unread>
    requires { AreThreadNames threads.now }
    ensures is { IfOk result (λ l. IsLine threads.now l) }
    ensures back { ReadsBack (line_text threads.now) (IsLine threads.now) threads.now (ended bytes.now) result }
{
    let (round_digits, rest) = cut(bytes, b' ')?;
    let (name, rest) = cut(rest, b' ')?;
    let (index_digits, rest) = cut(rest, b' ')?;
    let (place_digits, rest) = cut(rest, b' ')?;
    let (version_digits, rest) = cut(rest, b' ')?;
    let round = small_number(round_digits)?;
    let thread = thread(name, threads)?;
    let index = small_number(index_digits)?;
    let places = places(place_digits)?;
    let global = version(version_digits)?;
    let reply = reply(alloc, rest, threads)?;
    Ok(OutLine {
        round,
        thread,
        index,
        places,
        global,
        reply,
    })
}
