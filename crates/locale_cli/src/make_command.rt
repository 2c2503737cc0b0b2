//! The answer to `make`.

ghost use Rattle.std.specs.Prelude.{◌≡◌, map, IfOk};
ghost use Rattle.lc_base.specs.Reading.{Gives};
ghost use Rattle.bundle_maker.specs.Limits.{MOST_COMMANDS};
ghost use Rattle.locale_cli.specs.Limits.{DEFAULT_ROWS, DEFAULT_GENERATIONS};
ghost use Rattle.locale_cli.specs.Answer.{answer_for};
ghost use Rattle.locale_cli.specs.Made.{made_line, made_text};
ghost use Rattle.locale_cli.specs.Words.{IsFromOneTo};
ghost use Rattle.script_plan.specs.Private.{placeless};
ghost use Rattle.script_plan.specs.Serial.{serial_lines};

use crate::answer::{Answer, Status, refusal};
use crate::pieces::Pieces;
use crate::words::{DEFAULT_GENERATIONS, DEFAULT_ROWS};
use bundle_maker::{generate, summary};
use lc_base::{ByteText, List, TextFault};
use script_out::OutLine;
use script_plan::{Plan, keep_to_themselves, prepare, print_alike};
use script_run::run;
use script_seats::Pause;
use script_serial::serial;
use std::alloc::{AllocError, Global};
use std::sync::Wait;
use std::thread::Threads;

/// The answer to a request for a made bundle: the summary of what it prints, or its first fault.
pub fn made_answer<R: Threads + Wait + Sync, P: Pause + Sync>(
    rt: &R,
    alloc: Global,
    seed: u64,
    commands: u32,
    pause: &P,
) -> Result<Answer, AllocError>
    requires { IsFromOneTo MOST_COMMANDS commands }
    ensures { IfOk result (λ a. a ≡ answer_for (made_text seed commands)) }
{
    match made_text(rt, alloc, seed, commands, pause) {
        Ok(text) => Ok(Answer {
            status: Status::Done,
            text: Pieces::of(alloc, text),
        }),
        Err(TextFault::At(place, reason)) => {
            let text = refusal(alloc, place, reason)?;
            Ok(Answer {
                status: Status::Refused,
                text: Pieces::of(alloc, text),
            })
        }
        Err(TextFault::Memory) => Err(AllocError),
    }
}

/// The summary of what the made bundle prints.
fn made_text<R: Threads + Wait + Sync, P: Pause + Sync>(
    rt: &R,
    alloc: Global,
    seed: u64,
    commands: u32,
    pause: &P,
) -> Result<ByteText, TextFault>
    requires { IsFromOneTo MOST_COMMANDS commands }
    ensures { Gives (λ text. text) result (made_text seed commands) }
{
    let bundle = generate(alloc, seed, commands)?;
    let plan = prepare(alloc, bundle.as_bytes())?;
    let line = made_line(rt, alloc, &plan, commands, pause);
    drop(plan);
    Ok(line?)
}

/// The summary of what a bundle with so many commands prints.
fn made_line<R: Threads + Wait + Sync, P: Pause + Sync>(
    rt: &R,
    alloc: Global,
    plan: &Plan,
    commands: u32,
    pause: &P,
) -> Result<ByteText, AllocError>
    ensures { IfOk result (λ text. text ≡ made_line commands plan.now) }
{
    let lines = lines_of(rt, alloc, plan, pause)?;
    summary(
        alloc,
        commands,
        plan.bundle().rounds,
        &lines,
        plan.threads(),
    )
}

/// What a bundle prints, but for the places: its threads run concurrently where they keep to
/// themselves, so that no order of their calls shows.
fn lines_of<R: Threads + Wait + Sync, P: Pause + Sync>(
    rt: &R,
    alloc: Global,
    plan: &Plan,
    pause: &P,
) -> Result<List<OutLine>, AllocError>
    ensures { IfOk result (λ lines. map placeless lines ≡ map placeless (serial_lines DEFAULT_ROWS DEFAULT_GENERATIONS plan.now)) }
{
    if !keep_to_themselves(plan.bundle()) {
        return serial(alloc, plan, DEFAULT_ROWS, DEFAULT_GENERATIONS);
    }
    print_alike();
    run(rt, alloc, plan, DEFAULT_ROWS, DEFAULT_GENERATIONS, pause)
}
