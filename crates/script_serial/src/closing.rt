//! The turns that close threads.

ghost use Rattle.std.specs.Prelude.{◌≡◌, ◌++◌, map, flat_map, IfOk, OnOk};
ghost use Rattle.script_wishes.specs.Seen.{turn_seen};
ghost use Rattle.script_wishes.specs.Turns.{releases, closing};
ghost use Rattle.script_serial.specs.Session.{ThreadData};

use crate::alone::AloneSide;
use script_lines::board::Side;
use script_lines::thread::Thread;
use script_wishes::holds::OpenHold;
use script_wishes::turns::{Task, Turn};
use std::alloc::{AllocError, Global};

/// The turns that close all threads, in order of their numbers.
pub fn closing_turns(
    alloc: Global,
    round: u32,
    threads: &[Thread<AloneSide>],
) -> Result<Vec<Turn<'static>>, AllocError>
    ensures { IfOk result (λ turns. map turn_seen turns.items ≡ flat_map (λ (t : ThreadData). closing round t.side.number t.side.holds) threads.now) }
{
    let mut turns = Vec::new(alloc);
    for thread in threads {
        push_closing(&mut turns, round, thread)?;
    }
    Ok(turns)
}

/// Adds the turns that close a thread: a Release of each open Hold in the order made, and its end.
fn push_closing(
    turns: &mut Vec<Turn<'static>>,
    round: u32,
    thread: &Thread<AloneSide>,
) -> Result<(), AllocError>
    ensures { OnOk result (map turn_seen turns.new.items ≡ map turn_seen turns.old.items ++ closing round thread.now.side.number thread.now.side.holds) }
{
    push_releases(turns, round, thread.side.number(), thread.side.holds())?;
    turns.push(Turn {
        round,
        thread: thread.side.number(),
        task: Task::End,
    })?;
    Ok(())
}

/// Adds a Release of each Hold.
fn push_releases(
    turns: &mut Vec<Turn<'static>>,
    round: u32,
    thread: u32,
    holds: &[OpenHold],
) -> Result<(), AllocError>
    ensures { OnOk result (map turn_seen turns.new.items ≡ map turn_seen turns.old.items ++ releases round thread holds.now) }
{
    for hold in holds {
        turns.push(Turn {
            round,
            thread,
            task: Task::Release(hold.handle),
        })?;
    }
    Ok(())
}
