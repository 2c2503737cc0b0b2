//! Lines with the commands that they answer.

ghost use Rattle.std.specs.Prelude.{◌≡◌, ◌<◌, ◌^◌, ◌++◌, [], length, map, take_while, count_by, not, ◌==◌, option_map, IfOk, OnOk};
ghost use Rattle.std.specs.List.{flat_map};
ghost use Rattle.script_out.specs.Output.{newline, refusal_text};
ghost use Rattle.tool_script.specs.Commands.{line_seen, lines_seen, command_of};
ghost use Rattle.tool_script.specs.Explained.{bare_line, comment, explained_line, reason_word, reason_words, is_refused_for, refused_count, count_text, counts_text, explained_text};

use crate::commands::{command_of, lines_by_thread};
use handle_table::Refusal;
use lc_base::{ByteText, List, push_labelled};
use script_commands::Placed;
use script_out::{OutLine, Said, Why, push_line};
use std::alloc::{AllocError, Global};

/// The words of the reasons for which commands are refused.
const REASONS: [&[u8]; 18] = [
    b"Unset",
    b"BadMask",
    b"NoData",
    b"GlobalHandle",
    b"NeverMade",
    b"Stale",
    b"TooMany",
    b"AlreadyHeld",
    b"NotHeld",
    b"EmptyCell",
    b"NoClass",
    b"TmRange",
    b"BadFormat",
    b"MissingAmount",
    b"MissingNumber",
    b"Mismatch",
    b"TooBig",
    b"NoCatalog",
];

/// The lines, each with its command, and then how many are refused for each reason. The commands stand in
/// the text, and the threads have these names.
pub fn explained_text(
    alloc: Global,
    lines: &List<OutLine>,
    threads: &List<ByteText>,
    commands: &[Placed],
    text: &[u8],
) -> Result<ByteText, AllocError>
    requires { length text.now < 2 ^ 31 }
    ensures { IfOk result (λ explained. explained ≡ explained_text threads.now commands.now text.now lines.now) }
{
    let written = lines_by_thread(alloc, commands, text, threads.len())?;
    let mut out = Vec::new(alloc);
    push_lines(&mut out, lines.as_slice(), threads, written.as_slice())?;
    push_all_counts(&mut out, lines.as_slice())?;
    Ok(ByteText::from_vec(out))
}

/// Adds lines, each with its command.
fn push_lines(
    out: &mut Vec<u8>,
    lines: &[OutLine],
    threads: &List<ByteText>,
    commands: &[Vec<&[u8]>],
) -> Result<(), AllocError>
    ensures { OnOk result (out.new.items ≡ out.old.items ++ flat_map (explained_line threads.now (map lines_seen commands.now)) lines.now) }
{
    for line in lines {
        push_bare_line(out, line, threads)?;
        push_comment(out, command_of(commands, line.thread, line.index))?;
        out.push(b'\n')?;
    }
    Ok(())
}

/// Adds a line without its newline.
fn push_bare_line(
    out: &mut Vec<u8>,
    line: &OutLine,
    threads: &List<ByteText>,
) -> Result<(), AllocError>
    ensures { OnOk result (out.new.items ≡ out.old.items ++ bare_line threads.now line.now) }
{
    push_line(out, line, threads)?;
    let _newline = out.pop();
    Ok(())
}

/// Adds a command behind its line, if there is one.
fn push_comment(out: &mut Vec<u8>, command: Option<&[u8]>) -> Result<(), AllocError>
    ensures { OnOk result (out.new.items ≡ out.old.items ++ comment (option_map line_seen command.entry)) }
{
    match command {
        Some(command) => {
            out.extend_from_slice(b"  # ")?;
            out.extend_from_slice(command)
        }
        None => Ok(()),
    }
}

/// Adds how many lines are refused for each reason that there is.
#[tactic(auto, unfolding(crate::specs::Explained::reason_words))]
fn push_all_counts(out: &mut Vec<u8>, lines: &[OutLine]) -> Result<(), AllocError>
    ensures { OnOk result (out.new.items ≡ out.old.items ++ counts_text lines.now reason_words) }
{
    push_counts(out, lines, &REASONS)
}

/// Adds how many lines are refused for each reason that comes.
fn push_counts(out: &mut Vec<u8>, lines: &[OutLine], reasons: &[&[u8]]) -> Result<(), AllocError>
    ensures { OnOk result (out.new.items ≡ out.old.items ++ counts_text lines.now (map line_seen reasons.now)) }
{
    for reason in reasons {
        push_refused_count(out, reason, refused_count(lines, reason))?;
    }
    Ok(())
}

/// Adds how many lines are refused for a reason, if any is.
fn push_refused_count(out: &mut Vec<u8>, reason: &[u8], count: usize) -> Result<(), AllocError>
    ensures { OnOk result (out.new.items ≡ out.old.items ++ count_text reason.now count) }
{
    if count == 0 {
        return Ok(());
    }
    push_labelled(out, b"# refused: ", count as u128)?;
    out.push(b' ')?;
    out.extend_from_slice(reason)?;
    out.push(b'\n')?;
    Ok(())
}

/// How many lines are refused for a reason.
fn refused_count(lines: &[OutLine], reason: &[u8]) -> usize
    ensures { result ≡ refused_count lines.now reason.now }
{
    let mut count = 0;
    for line in lines {
        if is_refused_for(&line.reply, reason) {
            count += 1;
        }
    }
    count
}

/// Whether a reply is a refusal for a reason.
fn is_refused_for(reply: &Said, reason: &[u8]) -> bool
    ensures { result ≡ is_refused_for reason.now reply.now }
{
    match reply {
        Said::Refused(why) => reason_word(*why) == reason,
        _ => false,
    }
}

fn reason_word(why: Why) -> &'static [u8]
    ensures { result.now ≡ reason_word why }
{
    match why {
        Why::Unset => b"Unset",
        Why::BadMask => b"BadMask",
        Why::Table(refusal) => refusal_word(refusal),
        Why::NoClass => b"NoClass",
        Why::TmRange(_) => b"TmRange",
        Why::BadFormat(_) => b"BadFormat",
        Why::MissingAmount(_) => b"MissingAmount",
        Why::MissingNumber(_) => b"MissingNumber",
        Why::Mismatch(_) => b"Mismatch",
        Why::TooBig => b"TooBig",
        Why::NoCatalog => b"NoCatalog",
    }
}

fn refusal_word(refusal: Refusal) -> &'static [u8]
    ensures { result.now ≡ take_while (λ c. not (c == 32)) (refusal_text refusal) }
{
    match refusal {
        Refusal::NoData(_) => b"NoData",
        Refusal::GlobalHandle => b"GlobalHandle",
        Refusal::NeverMade => b"NeverMade",
        Refusal::Stale => b"Stale",
        Refusal::TooMany => b"TooMany",
        Refusal::AlreadyHeld => b"AlreadyHeld",
        Refusal::NotHeld => b"NotHeld",
        Refusal::EmptyCell => b"EmptyCell",
    }
}
