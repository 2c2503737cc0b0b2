//! The commands of an accepted bundle, as they are written.

ghost use Rattle.std.specs.Prelude.{◌≡◌, ◌<◌, ◌^◌, ◌++◌, ◌∷◌, ℕ, List, length, map, option_map, IfOk};
ghost use Rattle.script_lang.specs.Reading.{begins_with};
ghost use Rattle.tool_script.specs.Commands.{is_command, has_block, begins_block, is_inside_behind, written, written_in, lines_of_thread, lines_by_thread, line_at, command_of, line_seen, written_seen, lines_seen};

use lc_base::next_line;
use script_commands::Placed;
use script_words::{Directive, Stretch, directive_named};
use std::alloc::{AllocError, Global};

/// A command as it is written, with the number of its thread.
#[derive(Clone, Copy)]
struct Written<'a> {
    thread: u32,
    line: &'a [u8],
}

/// The lines of the commands of a text, by the numbers of so many threads and in their order.
pub fn lines_by_thread<'a>(
    alloc: Global,
    commands: &[Placed],
    text: &'a [u8],
    count: usize,
) -> Result<Vec<Vec<&'a [u8]>>, AllocError>
    requires { length text.now < 2 ^ 31 }
    ensures { IfOk result (λ threads. map lines_seen threads.items ≡ lines_by_thread count (written_in commands.now text.now)) }
{
    let written = written_in(alloc, commands, text)?;
    let mut threads = Vec::new(alloc);
    for thread in 0..count {
        threads.push(lines_of_thread(alloc, written.as_slice(), thread)?)?;
    }
    Ok(threads)
}

/// The lines of a thread's commands, in their order.
fn lines_of_thread<'a>(
    alloc: Global,
    written: &[Written<'a>],
    thread: usize,
) -> Result<Vec<&'a [u8]>, AllocError>
    ensures { IfOk result (λ lines. map line_seen lines.items ≡ lines_of_thread thread (map written_seen written.now)) }
{
    let mut lines = Vec::new(alloc);
    for command in written {
        if command.thread as usize == thread {
            lines.push(command.line)?;
        }
    }
    Ok(lines)
}

/// The command of a thread with a number, from 1.
pub fn command_of<'a>(threads: &[Vec<&'a [u8]>], thread: u32, number: u32) -> Option<&'a [u8]>
    ensures { option_map line_seen result ≡ command_of (map lines_seen threads.now) thread number }
{
    match threads.get(thread as usize) {
        Some(lines) => line_at(lines.as_slice(), number as usize),
        None => None,
    }
}

/// The line with a number, from 1.
fn line_at<'a>(lines: &[&'a [u8]], number: usize) -> Option<&'a [u8]>
    ensures { option_map line_seen result ≡ line_at (map line_seen lines.now) number }
{
    if number == 0 {
        return None;
    }
    lines.get(number - 1).copied()
}

/// The commands of a text, as they are written.
fn written_in<'a>(
    alloc: Global,
    commands: &[Placed],
    text: &'a [u8],
) -> Result<Vec<Written<'a>>, AllocError>
    requires { length text.now < 2 ^ 31 }
    ensures { IfOk result (λ those. map written_seen those.items ≡ written_in commands.now text.now) }
{
    let mut those = Vec::new(alloc);
    let mut left = commands;
    let mut is_inside = false;
    let mut rest = text;
    while let Some((line, following)) = next_line(rest) {
        if !is_inside && is_command(line) {
            left = push_written(&mut those, left, line)?;
        }
        is_inside = is_inside_behind(is_inside, line);
        rest = following;
    }
    Ok(those)
}

/// Adds the first of the commands that are left, if there is one: those that are left then.
fn push_written<'a, 'b>(
    those: &mut Vec<Written<'a>>,
    left: &'b [Placed],
    line: &'a [u8],
) -> Result<&'b [Placed], AllocError>
    ensures { IfOk result (λ behind. (lines : List (List ℕ)) → map written_seen those.new.items ++ written behind.now lines
        ≡ map written_seen those.old.items ++ written left.now (line.now ∷ lines)) }
{
    match left {
        [first, others @ ..] => {
            those.push(Written {
                thread: first.thread,
                line,
            })?;
            Ok(others)
        }
        [] => Ok(left),
    }
}

/// Whether what follows a line is in a block.
fn is_inside_behind(is_inside: bool, line: &[u8]) -> bool
    requires { length line.now < 2 ^ 31 }
    ensures { result ≡ is_inside_behind is_inside line.now }
{
    if is_inside {
        line != b".end".as_slice()
    } else {
        begins_block(line)
    }
}

/// Whether a line outside of blocks is a command.
#[tactic(auto, unfolding(crate::specs::Commands::is_command))]
fn is_command(line: &[u8]) -> bool
    requires { length line.now < 2 ^ 31 }
    ensures { result ≡ is_command line.now }
{
    if begins_with(b'.', line) {
        return false;
    }
    match Stretch::whole_line(1, line).next_word() {
        None => false,
        Some((word, _)) => !begins_with(b'#', word.bytes),
    }
}

/// Whether a line outside of blocks begins one.
#[tactic(auto, unfolding(crate::specs::Commands::begins_block))]
fn begins_block(line: &[u8]) -> bool
    requires { length line.now < 2 ^ 31 }
    ensures { result ≡ begins_block line.now }
{
    if !begins_with(b'.', line) {
        return false;
    }
    match Stretch::whole_line(1, line).next_word() {
        None => false,
        Some((word, _)) => has_block(directive_named(word.bytes)),
    }
}

/// Whether a block follows the line of a directive.
fn has_block(directive: Option<Directive>) -> bool
    ensures { result ≡ has_block directive }
{
    match directive {
        Some(Directive::Charmap | Directive::Locale | Directive::Later | Directive::Catalog) => {
            true
        }
        Some(Directive::Native | Directive::Thread | Directive::Round) | None => false,
    }
}

/// Whether a text begins with a byte.
fn begins_with(byte: u8, text: &[u8]) -> bool
    ensures { result ≡ begins_with byte text.now }
{
    match text {
        [] => false,
        [first, ..] => *first == byte,
    }
}
