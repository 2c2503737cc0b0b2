//! Whose turn it is.

ghost use Rattle.std.specs.Prelude.{◌≡◌, ◌≤◌, ◌++◌, length, map, IfOk, OnOk};
ghost use Rattle.script_commands.specs.Limits.{THREAD_LIMIT};
ghost use Rattle.script_lang.specs.Limits.{ROUND_LIMIT};
ghost use Rattle.script_wishes.specs.Seen.{turn_seen, placed_seen};
ghost use Rattle.script_wishes.specs.Turns.{turn_of, in_round, thread_turns, turns_of_threads, round_turns, command_turns};

use lc_base::Handle;
use script_commands::{Command, Placed};
use script_lang::Bundle;
use std::alloc::{AllocError, Global};

/// What a line is printed for.
#[derive(Clone, Copy)]
pub enum Task<'a> {
    /// A command of the script.
    Command(&'a Command),
    /// A Release that closes a thread.
    Release(Handle),
    /// The end of a thread.
    End,
}

/// A task of a thread in a round.
#[derive(Clone, Copy)]
pub struct Turn<'a> {
    pub round: u32,
    pub thread: u32,
    pub task: Task<'a>,
}

/// The turns of a bundle's commands: round by round, in a round thread by thread, and in a thread in
/// order of the text.
pub fn command_turns<'a>(alloc: Global, bundle: &'a Bundle) -> Result<Vec<Turn<'a>>, AllocError>
    requires threads { length bundle.now.threads ≤ THREAD_LIMIT }
    requires rounds { bundle.now.rounds ≤ ROUND_LIMIT }
    ensures { IfOk result (λ turns. map turn_seen turns.items ≡ command_turns bundle.now) }
{
    let threads = bundle.threads.len() as u32;
    let mut turns = Vec::with_capacity(alloc, bundle.commands.len())?;
    for i in 0..bundle.rounds {
        let commands = in_round(alloc, bundle.commands.as_slice(), i + 1)?;
        push_round(&mut turns, threads, commands.as_slice())?;
    }
    Ok(turns)
}

/// The turns of the commands of one round, thread by thread.
pub fn round_turns<'a>(
    alloc: Global,
    bundle: &'a Bundle,
    round: u32,
) -> Result<Vec<Turn<'a>>, AllocError>
    requires { length bundle.now.threads ≤ THREAD_LIMIT }
    ensures { IfOk result (λ turns. map turn_seen turns.items ≡ round_turns (length bundle.now.threads) bundle.now.commands round) }
{
    let threads = bundle.threads.len() as u32;
    let commands = in_round(alloc, bundle.commands.as_slice(), round)?;
    let mut turns = Vec::with_capacity(alloc, commands.len())?;
    push_round(&mut turns, threads, commands.as_slice())?;
    Ok(turns)
}

/// The commands of a round.
fn in_round<'a>(
    alloc: Global,
    commands: &'a [Placed],
    round: u32,
) -> Result<Vec<&'a Placed>, AllocError>
    ensures { IfOk result (λ those. map placed_seen those.items ≡ in_round round commands.now) }
{
    let mut those = Vec::new(alloc);
    for command in commands {
        if command.round == round {
            those.push(command)?;
        }
    }
    Ok(those)
}

/// Adds the turns of the commands of a round.
fn push_round<'a>(
    turns: &mut Vec<Turn<'a>>,
    threads: u32,
    commands: &[&'a Placed],
) -> Result<(), AllocError>
    ensures { OnOk result (map turn_seen turns.new.items ≡ map turn_seen turns.old.items ++ turns_of_threads threads (map placed_seen commands.now)) }
{
    for i in 0..threads {
        push_thread(turns, i, commands)?;
    }
    Ok(())
}

/// Adds the turns of a thread among these commands.
fn push_thread<'a>(
    turns: &mut Vec<Turn<'a>>,
    thread: u32,
    commands: &[&'a Placed],
) -> Result<(), AllocError>
    ensures { OnOk result (map turn_seen turns.new.items ≡ map turn_seen turns.old.items ++ thread_turns (map placed_seen commands.now) thread) }
{
    for command in commands {
        if command.thread == thread {
            turns.push(turn_of(command))?;
        }
    }
    Ok(())
}

/// The turn of a command.
fn turn_of(command: &Placed) -> Turn<'_>
    ensures { turn_seen result ≡ turn_of command.now }
{
    Turn {
        round: command.round,
        thread: command.thread,
        task: Task::Command(&command.command),
    }
}
