//! The lines of a bundle, read one after another.

ghost use Rattle.std.specs.Prelude.{◌≡◌, ℕ, ◌+◌, ◌<◌, ◌≤◌, ◌^◌, ◌++◌, length, IfOk, OnOk, Ok, Some};
ghost use Rattle.std.specs.Option.{option_copied};
ghost use Rattle.lc_base.specs.Lines.{lines_of, ended};
ghost use Rattle.lc_base.specs.Reading.{Gives};
ghost use Rattle.script_words.specs.Spans.{span, whole_line};
ghost use Rattle.script_lang.specs.Reading.{begins_with, command_line, outside, with_command, more_blocks, with_block, line_read, at_first, lines_read};
ghost use Rattle.script_commands.specs.InRange.{IsInRange};
ghost use Rattle.script_lang.specs.Accepted.{IsAccepted, finished, bundle_with, known_of};
ghost use Rattle.script_lang.specs.Kept.{IsBegun, begun_size, IsReading};

use crate::bundle::{Bundle, COMMAND_LIMIT};
use crate::directive::directive_line;
use crate::reading::{BlockKind, Opened, Reading};
use crate::steps::{at_first, push_command, push_value};
use lc_base::{Block, ByteText, Later, Limit, LinePart, List, Place, Reason, TextFault, next_line};
use script_commands::{Command, Known, Scope, THREAD_LIMIT, command_of_line};
use script_words::Stretch;
use std::alloc::{AllocError, Global};

/// The thread and the command of a line with this first word and the rest of it.
#[tactic(auto, unfolding(crate::specs::Reading::command_line))]
fn thread_command(
    alloc: Global,
    known: Option<&Known>,
    reading: &Reading,
    word: Stretch<'_>,
    rest: Stretch<'_>,
) -> Result<(u32, Command), TextFault>
    requires { IsReading 0 reading.now }
    ensures is { Gives (λ x. with_command reading.now x.0 x.1) result (command_line (option_copied known.entry) reading.now (span word.entry) (span rest.entry)) }
    ensures room { IfOk result (λ x. length reading.now.bundle.commands < COMMAND_LIMIT) }
    ensures thread { IfOk result (λ x. x.0 < length reading.now.bundle.threads) }
    ensures in_range { IfOk result (λ x. IsInRange (length reading.now.bundle.threads) x.1) }
{
    let Some(thread) = reading.current else {
        return Err(TextFault::At(word.place, Reason::BadLine(LinePart::Thread)));
    };
    if reading.bundle.commands.len() >= COMMAND_LIMIT {
        return Err(TextFault::At(word.place, Reason::OverLimit(Limit::Commands)));
    }
    let scope = Scope {
        known,
        threads: &reading.bundle.threads,
    };
    let command = command_of_line(alloc, scope, word, rest)?;
    Ok((thread, command))
}

/// A line with this first word and the rest of it.
fn command_line(
    alloc: Global,
    known: Option<&Known>,
    reading: &mut Reading,
    word: Stretch<'_>,
    rest: Stretch<'_>,
) -> Result<(), TextFault>
    requires { IsReading 0 reading.old }
    ensures is { Gives (λ x. reading.new) result (command_line (option_copied known.entry) reading.old (span word.entry) (span rest.entry)) }
    ensures kept { OnOk result (IsReading 0 reading.new) }
{
    let (thread, command) = thread_command(alloc, known, reading, word, rest)?;
    Ok(push_command(alloc, reading, thread, command)?)
}

/// Whether a text begins with this byte.
fn begins_with(c: u8, bytes: &[u8]) -> bool
    ensures { result ≡ begins_with c bytes.now }
{
    match bytes {
        [] => false,
        [first, ..] => *first == c,
    }
}

/// A line outside of blocks.
#[tactic(auto, unfolding(crate::specs::Reading::outside))]
fn outside(
    alloc: Global,
    known: Option<&Known>,
    reading: &mut Reading,
    number: u32,
    line: &[u8],
) -> Result<(), TextFault>
    requires short { length line.now < 2 ^ 31 }
    requires number { number + length line.now ≤ 2 ^ 31 }
    requires kept { IsReading 0 reading.old }
    ensures is { Gives (λ x. reading.new) result (outside (option_copied known.entry) reading.old number line.now) }
    ensures kept { OnOk result (IsReading 0 reading.new) }
{
    if begins_with(b'.', line) {
        return directive_line(alloc, known, reading, number, line);
    }
    match Stretch::whole_line(number, line).next_word() {
        None => Ok(()),
        Some((word, _)) if begins_with(b'#', word.bytes) => Ok(()),
        Some((word, rest)) => command_line(alloc, known, reading, word, rest),
    }
}

/// Adds a block of this kind.
fn push_block(
    alloc: Global,
    bundle: &mut Bundle,
    kind: BlockKind,
    block: Block,
) -> Result<(), AllocError>
    ensures { OnOk result (bundle.new ≡ more_blocks bundle.old kind block) }
{
    match kind {
        BlockKind::Charmap => push_value(alloc, &mut bundle.charmaps, block),
        BlockKind::Locale => push_value(alloc, &mut bundle.locales, block),
        BlockKind::Later(key) => push_value(alloc, &mut bundle.later, Later { key, block }),
        BlockKind::Catalog => push_value(alloc, &mut bundle.catalogs, block),
    }
}

/// Adds a line and its newline to a text.
fn push_ended(alloc: Global, text: &mut ByteText, line: &[u8]) -> Result<(), AllocError>
    ensures { OnOk result (text.new ≡ text.old ++ ended line.now) }
{
    let mut bytes = std::mem::replace(text, ByteText::from_vec(Vec::new(alloc))).into_vec();
    bytes.extend_from_slice(line)?;
    bytes.push(b'\n')?;
    *text = ByteText::from_vec(bytes);
    Ok(())
}

/// The block that was begun is closed.
fn close_block(alloc: Global, reading: &mut Reading) -> Result<(), AllocError>
    requires text { begun_size reading.old.begun < 2 ^ 31 }
    requires kept { IsReading (begun_size reading.old.begun) reading.old }
    ensures is { (o : Opened) → reading.old.begun ≡ Some o → OnOk result (reading.new ≡ with_block reading.old.bundle reading.old.current o.kind o.block) }
    ensures kept { (n : ℕ) → OnOk result (IsReading n reading.new) }
{
    match reading.begun.take() {
        None => Ok(()),
        Some(opened) => push_block(alloc, &mut reading.bundle, opened.kind, opened.block),
    }
}

/// A line with its number.
#[tactic(auto, unfolding(crate::specs::Reading::line_read))]
fn line_read(
    alloc: Global,
    known: Option<&Known>,
    reading: &mut Reading,
    number: u32,
    line: &[u8],
) -> Result<(), TextFault>
    requires short { length line.now < 2 ^ 31 }
    requires number { number + length line.now ≤ 2 ^ 31 }
    requires text { begun_size reading.old.begun < 2 ^ 31 }
    requires kept { IsReading (begun_size reading.old.begun) reading.old }
    ensures is { Gives (λ x. reading.new) result (line_read (option_copied known.entry) reading.old number line.now) }
    ensures kept { OnOk result (IsReading (begun_size reading.old.begun + length line.now + 1) reading.new) }
{
    match &mut reading.begun {
        None => outside(alloc, known, reading, number, line),
        Some(_) if line == b".end".as_slice() => Ok(close_block(alloc, reading)?),
        Some(opened) => Ok(push_ended(alloc, &mut opened.block.text, line)?),
    }
}

/// What the lines of a text give.
fn lines_read(
    alloc: Global,
    known: Option<&Known>,
    first: Reading,
    text: &[u8],
) -> Result<Reading, TextFault>
    requires short { length text.now < 2 ^ 31 }
    requires kept { IsReading 0 first }
    ensures is { Gives (λ r. r) result (lines_read (option_copied known.entry) first 1 (lines_of text.now)) }
    ensures accepted { IfOk result (λ r. IsAccepted r.bundle) }
    ensures begun { IfOk result (λ r. IsBegun r.begun r.bundle) }
{
    let mut reading = first;
    let mut number = 1;
    let mut rest = text;
    while let Some((line, following)) = next_line(rest) {
        line_read(alloc, known, &mut reading, number, line)?;
        number += 1;
        rest = following;
    }
    Ok(reading)
}

/// The bundle, unless a block is still open.
fn finished(reading: Reading) -> Result<Bundle, TextFault>
    requires accepted { IsAccepted reading.bundle }
    requires begun { IsBegun reading.begun reading.bundle }
    ensures is { Gives (λ b. b) result (finished reading) }
    ensures accepted { IfOk result IsAccepted }
{
    let Reading { bundle, begun, .. } = reading;
    match begun {
        None => Ok(bundle),
        Some(opened) => Err(TextFault::At(
            Place {
                line: opened.block.first_line - 1,
                column: 1,
            },
            Reason::NoEnd,
        )),
    }
}

/// The bundle that a text spells: without known blocks no name is looked for, and with them each is.
#[tactic(auto, unfolding(crate::specs::Accepted::bundle_with))]
pub fn bundle_with(
    alloc: Global,
    known: Option<&Known>,
    threads: List<ByteText>,
    text: &[u8],
) -> Result<Bundle, TextFault>
    requires short { length text.now < 2 ^ 31 }
    requires few { length threads ≤ THREAD_LIMIT }
    ensures is { Gives (λ b. b) result (bundle_with (option_copied known.entry) threads (lines_of text.now)) }
    ensures accepted { IfOk result IsAccepted }
{
    let reading = lines_read(alloc, known, at_first(alloc, threads), text)?;
    finished(reading)
}

/// The blocks of a bundle that are named, and the names of its threads.
pub fn known_of(bundle: Bundle) -> (Known, List<ByteText>)
    requires { length bundle.threads ≤ THREAD_LIMIT }
    ensures known { result.0 ≡ known_of bundle }
    ensures threads { result.1 ≡ bundle.threads }
    ensures few { length result.1 ≤ THREAD_LIMIT }
{
    let Bundle {
        charmaps,
        locales,
        later,
        catalogs: _,
        native: _,
        threads,
        rounds: _,
        commands: _,
    } = bundle;
    let known = Known {
        charmaps,
        locales,
        later,
    };
    (known, threads)
}
