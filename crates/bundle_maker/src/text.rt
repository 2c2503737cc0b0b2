//! The text of a made bundle.

ghost use Rattle.std.specs.Prelude.{◌≡◌, ◌+◌, ◌*◌, ◌≤◌, ◌++◌, length, IfOk, OnOk};
ghost use Rattle.bundle_maker.specs.Limits.{MOST_COMMANDS};
ghost use Rattle.bundle_maker.specs.Generated.{next_number, own_line, commands_text, thread_text, generated};

use crate::commands::push_command;
use crate::locales::LOCALES;
use lc_base::{ByteText, push_number};
use std::alloc::{AllocError, Global};

/// The threads of a made bundle.
pub const THREADS: u32 = 4;

/// The most commands of a made bundle.
pub const MOST_COMMANDS: u32 = 20000;

/// What a number is multiplied by, for the next one.
pub const FACTOR: u64 = 6364136223846793005;

/// What is added then, modulo 2^64.
pub const SUMMAND: u64 = 1442695040888963407;

/// The text of the bundle with this many commands that a seed makes: two locales, and four threads
/// with the commands in turn.
pub fn generate(alloc: Global, seed: u64, commands: u32) -> Result<ByteText, AllocError>
    requires some { 1 ≤ commands }
    requires most { commands ≤ MOST_COMMANDS }
    ensures is { IfOk result (λ text. text ≡ generated seed commands) }
    ensures short { IfOk result (λ text. length text ≤ 16777216) }
{
    let mut text = Vec::new(alloc);
    text.extend_from_slice(LOCALES)?;
    for thread in 0..THREADS {
        push_thread(&mut text, seed, commands, thread)?;
    }
    Ok(ByteText::from_vec(text))
}

/// Adds a thread and its commands.
fn push_thread(text: &mut Vec<u8>, seed: u64, commands: u32, thread: u32) -> Result<(), AllocError>
    ensures { OnOk result (text.new.items ≡ text.old.items ++ thread_text seed commands thread) }
{
    text.extend_from_slice(b".thread T")?;
    push_number(text, u128::from(thread))?;
    text.push(b'\n')?;
    push_commands(text, seed, commands, thread)
}

/// Adds the commands of a thread.
fn push_commands(
    text: &mut Vec<u8>,
    seed: u64,
    commands: u32,
    thread: u32,
) -> Result<(), AllocError>
    ensures { OnOk result (text.new.items ≡ text.old.items ++ commands_text seed commands thread) }
{
    let mut number = seed;
    for i in 0..commands {
        number = next_number(number);
        push_own(text, i, number, thread)?;
    }
    Ok(())
}

/// Adds a command where its turn is that of the thread.
fn push_own(text: &mut Vec<u8>, i: u32, number: u64, thread: u32) -> Result<(), AllocError>
    ensures { OnOk result (text.new.items ≡ text.old.items ++ own_line thread i number) }
{
    if i % THREADS == thread {
        push_command(text, i, number)?;
    }
    Ok(())
}

/// The number behind another one.
fn next_number(number: u64) -> u64
    ensures { result ≡ next_number number }
{
    number.wrapping_mul(FACTOR).wrapping_add(SUMMAND)
}
