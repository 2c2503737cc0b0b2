//! How a line changes what was read so far.

ghost use Rattle.std.specs.Prelude.{◌≡◌, ◌+◌, ◌<◌, ◌≤◌, ◌^◌, ◌++◌, ◌∷◌, [], length, IfOk, OnOk};
ghost use Rattle.script_commands.specs.InRange.{IsInRange};
ghost use Rattle.script_lang.specs.Kept.{HasRoomFor, IsReading};
ghost use Rattle.script_lang.specs.Reading.{at_first, with_open, with_native, with_current, with_thread, with_round, with_command};

use crate::bundle::{Bundle, COMMAND_LIMIT, ROUND_LIMIT};
use crate::reading::{BlockKind, Opened, Reading};
use lc_base::{Block, ByteText, List};
use script_commands::{Command, Placed, THREAD_LIMIT};
use std::alloc::{AllocError, Global};

/// Adds a value to a list.
pub fn push_value<T: Drop>(alloc: Global, list: &mut List<T>, value: T) -> Result<(), AllocError>
    ensures { OnOk result (list.new ≡ list.old ++ value ∷ []) }
{
    let mut values = std::mem::replace(list, List::of(Vec::new(alloc))).into_vec();
    values.push(value)?;
    *list = List::of(values);
    Ok(())
}

/// Before the first line, where these threads are known.
#[tactic(auto, using(crate::proofs::KeptLemmas::kept_at_first))]
pub fn at_first(alloc: Global, threads: List<ByteText>) -> Reading
    requires { length threads ≤ THREAD_LIMIT }
    ensures is { result ≡ at_first threads }
    ensures kept { IsReading 0 result }
{
    Reading {
        bundle: Bundle {
            charmaps: List::of(Vec::new(alloc)),
            locales: List::of(Vec::new(alloc)),
            later: List::of(Vec::new(alloc)),
            catalogs: List::of(Vec::new(alloc)),
            native: None,
            threads,
            rounds: 1,
            commands: List::of(Vec::new(alloc)),
        },
        current: None,
        begun: None,
    }
}

/// A block without a line, behind the line with this number.
fn empty_block(alloc: Global, name: &[u8], charset: &[u8], number: u32) -> Result<Block, AllocError>
    requires { number + 1 < 2 ^ 31 }
    ensures { IfOk result (λ block. block ≡ record { name = name.now; charset = charset.now; first_line = number + 1; text = [] }) }
{
    Ok(Block {
        name: ByteText::of(alloc, name)?,
        charset: ByteText::of(alloc, charset)?,
        first_line: number + 1,
        text: ByteText::from_vec(Vec::new(alloc)),
    })
}

/// A block begins behind the line with this number.
#[tactic(auto, using(crate::proofs::KeptLemmas::kept_with_open))]
pub fn begin_block(
    alloc: Global,
    reading: &mut Reading,
    kind: BlockKind,
    name: &[u8],
    charset: &[u8],
    number: u32,
) -> Result<(), AllocError>
    requires number { number + 1 < 2 ^ 31 }
    requires room { HasRoomFor kind reading.old.bundle }
    requires kept { IsReading 0 reading.old }
    ensures is { OnOk result (reading.new ≡ with_open reading.old kind name.now charset.now number) }
    ensures kept { OnOk result (IsReading 0 reading.new) }
{
    let block = empty_block(alloc, name, charset, number)?;
    reading.begun = Some(Opened { kind, block });
    Ok(())
}

/// This name is the native locale's.
#[tactic(auto, using(crate::proofs::KeptLemmas::kept_with_native))]
pub fn set_native(alloc: Global, reading: &mut Reading, name: &[u8]) -> Result<(), AllocError>
    requires { IsReading 0 reading.old }
    ensures is { OnOk result (reading.new ≡ with_native reading.old name.now) }
    ensures kept { OnOk result (IsReading 0 reading.new) }
{
    reading.bundle.native = Some(ByteText::of(alloc, name)?);
    Ok(())
}

/// The thread with this number goes on.
#[tactic(auto, using(crate::proofs::KeptLemmas::kept_with_current))]
pub fn set_current(reading: &mut Reading, thread: u32)
    requires thread { thread < length reading.old.bundle.threads }
    requires kept { IsReading 0 reading.old }
    ensures is { reading.new ≡ with_current reading.old thread }
    ensures kept { IsReading 0 reading.new }
{
    reading.current = Some(thread);
}

/// A thread that was not named before begins.
#[tactic(auto, using(crate::proofs::KeptLemmas::kept_with_thread))]
pub fn begin_thread(alloc: Global, reading: &mut Reading, name: &[u8]) -> Result<(), AllocError>
    requires room { length reading.old.bundle.threads < THREAD_LIMIT }
    requires kept { IsReading 0 reading.old }
    ensures is { OnOk result (reading.new ≡ with_thread reading.old name.now) }
    ensures kept { OnOk result (IsReading 0 reading.new) }
{
    let thread = reading.bundle.threads.len() as u32;
    push_value(
        alloc,
        &mut reading.bundle.threads,
        ByteText::of(alloc, name)?,
    )?;
    reading.current = Some(thread);
    Ok(())
}

/// The next round begins.
#[tactic(auto, using(crate::proofs::KeptLemmas::kept_with_round))]
pub fn begin_round(reading: &mut Reading)
    requires room { reading.old.bundle.rounds < ROUND_LIMIT }
    requires kept { IsReading 0 reading.old }
    ensures is { reading.new ≡ with_round reading.old }
    ensures kept { IsReading 0 reading.new }
{
    reading.bundle.rounds += 1;
    reading.current = None;
}

/// One more command of a thread.
#[tactic(auto, using(crate::proofs::KeptLemmas::kept_with_command))]
pub fn push_command(
    alloc: Global,
    reading: &mut Reading,
    thread: u32,
    command: Command,
) -> Result<(), AllocError>
    requires room { length reading.old.bundle.commands < COMMAND_LIMIT }
    requires thread { thread < length reading.old.bundle.threads }
    requires in_range { IsInRange (length reading.old.bundle.threads) command }
    requires kept { IsReading 0 reading.old }
    ensures is { OnOk result (reading.new ≡ with_command reading.old thread command) }
    ensures kept { OnOk result (IsReading 0 reading.new) }
{
    let placed = Placed {
        round: reading.bundle.rounds,
        thread,
        command,
    };
    push_value(alloc, &mut reading.bundle.commands, placed)
}
