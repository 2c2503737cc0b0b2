//! The answer to an input that was read whole.

ghost use Rattle.std.specs.Prelude.{◌≡◌, ◌<◌, ◌^◌, ◌++◌, length, IfOk, OnOk};
ghost use Rattle.std.specs.Fmt.{decimal};
ghost use Rattle.lc_base.specs.Reading.{Gives};
ghost use Rattle.locale_cli.specs.Answer.{IsAnswer, MayPrint, Outputs, counts_line, counts_text};
ghost use Rattle.locale_cli.specs.declared.words.Mode.TheVariants.{Serial, Run};
ghost use Rattle.locale_cli.specs.StatusCode.{status_code};
ghost use Rattle.locale_cli.specs.Words.{IsSized};
ghost use Rattle.script_out.specs.Refusal.{refusal_line};

use crate::concurrent::print_concurrently;
use crate::pieces::Pieces;
use crate::words::Mode;
use lc_base::{ByteText, Place, Reason, TextFault, push_labelled};
use script_out::{print, push_refusal};
use script_plan::{Counts, Plan, check, prepare};
use script_run::run;
use script_seats::Pause;
use script_serial::serial;
use std::alloc::{AllocError, Global};
use std::mem::forget;
use std::sync::Wait;
use std::thread::Threads;

/// How the program ended.
#[derive(Clone, Copy)]
pub enum Status {
    /// 0: all was written.
    Done,
    /// 2: the words are not in the grammar.
    Usage,
    /// 3: the bundle is refused.
    Refused,
    /// 4: the source failed.
    ReadFault,
    /// 5: the sink failed.
    WriteFault,
    /// 6: out of memory.
    Memory,
    /// 7: more bytes came than the limit allows.
    TooLarge,
}

impl Status {
    /// The status as the exit code of the program.
    pub fn code(self) -> u8
        ensures { result ≡ status_code self }
    {
        match self {
            Status::Done => 0,
            Status::Usage => 2,
            Status::Refused => 3,
            Status::ReadFault => 4,
            Status::WriteFault => 5,
            Status::Memory => 6,
            Status::TooLarge => 7,
        }
    }
}

/// A status and the text that goes with it.
#[derive(Drop)]
pub struct Answer {
    pub status: Status,
    pub text: Pieces,
}

/// The answer to an input.
pub fn answer_to<R: Threads + Wait + Sync, P: Pause + Sync>(
    rt: &R,
    alloc: Global,
    mode: Mode,
    input: &[u8],
    pause: &P,
) -> Result<Answer, AllocError>
    requires length { length input.now < 2 ^ 31 }
    requires sized { IsSized mode }
    ensures { IfOk result (IsAnswer mode input.now) }
{
    match printed(rt, alloc, mode, input, pause) {
        Ok(text) => Ok(Answer {
            status: Status::Done,
            text,
        }),
        Err(TextFault::At(place, reason)) => {
            let text = refusal(alloc, place, reason)?;
            Ok(Answer {
                status: Status::Refused,
                text: Pieces::of(alloc, text),
            })
        }
        Err(TextFault::Memory) => Err(AllocError),
    }
}

/// What the mode prints of a bundle.
fn printed<R: Threads + Wait + Sync, P: Pause + Sync>(
    rt: &R,
    alloc: Global,
    mode: Mode,
    input: &[u8],
    pause: &P,
) -> Result<Pieces, TextFault>
    requires length { length input.now < 2 ^ 31 }
    requires sized { IsSized mode }
    ensures { MayPrint mode input.now result }
{
    match mode {
        Mode::Check => checked(alloc, input),
        Mode::Serial { rows, generations } => alone(alloc, input, rows, generations),
        Mode::Run { rows, generations } => beside(rt, alloc, input, rows, generations, pause),
    }
}

/// The line of counts of a bundle.
fn checked(alloc: Global, input: &[u8]) -> Result<Pieces, TextFault>
    requires { length input.now < 2 ^ 31 }
    ensures { Gives (λ text. text) result (counts_text input.now) }
{
    let counts = check(alloc, input)?;
    Ok(Pieces::of(alloc, counts_line(alloc, &counts)?))
}

/// The lines of a bundle's script, run on one thread.
fn alone(alloc: Global, input: &[u8], rows: u32, generations: u32) -> Result<Pieces, TextFault>
    requires length { length input.now < 2 ^ 31 }
    requires sized { IsSized (Serial rows generations) }
    ensures { MayPrint (Serial rows generations) input.now result }
{
    let plan = prepare(alloc, input)?;
    let text = serial_text(alloc, &plan, rows, generations);
    // The program ends soon, and gives all memory back at once.
    forget(plan);
    Ok(Pieces::of(alloc, text?))
}

/// The lines of a bundle's script, run with the threads of each round in parallel.
fn beside<R: Threads + Wait + Sync, P: Pause + Sync>(
    rt: &R,
    alloc: Global,
    input: &[u8],
    rows: u32,
    generations: u32,
    pause: &P,
) -> Result<Pieces, TextFault>
    requires length { length input.now < 2 ^ 31 }
    requires sized { IsSized (Run rows generations) }
    ensures { MayPrint (Run rows generations) input.now result }
{
    let plan = prepare(alloc, input)?;
    let text = run_text(rt, alloc, &plan, rows, generations, pause);
    // The program ends soon, and gives all memory back at once.
    forget(plan);
    Ok(text?)
}

/// The line of counts.
fn counts_line(alloc: Global, counts: &Counts) -> Result<ByteText, AllocError>
    ensures { IfOk result (λ text. text ≡ counts_line counts.now) }
{
    let mut line = Vec::new(alloc);
    push_labelled(&mut line, b"ok: locales ", u128::from(counts.locales))?;
    push_labelled(&mut line, b" charmaps ", u128::from(counts.charmaps))?;
    push_labelled(&mut line, b" threads ", u128::from(counts.threads))?;
    push_labelled(&mut line, b" rounds ", u128::from(counts.rounds))?;
    push_labelled(&mut line, b" commands ", u128::from(counts.commands))?;
    line.push(b'\n')?;
    Ok(ByteText::from_vec(line))
}

/// The lines of an accepted bundle's script.
fn serial_text(
    alloc: Global,
    plan: &Plan,
    rows: u32,
    generations: u32,
) -> Result<ByteText, AllocError>
    requires { IsSized (Serial rows generations) }
    ensures { IfOk result (Outputs (Serial rows generations) plan.now) }
{
    let lines = serial(alloc, plan, rows, generations)?;
    let text = print(alloc, &lines, plan.threads());
    // The program ends soon, and gives all memory back at once.
    forget(lines);
    text
}

/// The lines of an accepted bundle's script, run with the threads of each round in parallel.
fn run_text<R: Threads + Wait + Sync, P: Pause + Sync>(
    rt: &R,
    alloc: Global,
    plan: &Plan,
    rows: u32,
    generations: u32,
    pause: &P,
) -> Result<Pieces, AllocError>
    requires { IsSized (Run rows generations) }
    ensures { IfOk result (Outputs (Run rows generations) plan.now) }
{
    let lines = run(rt, alloc, plan, rows, generations, pause)?;
    let text = print_concurrently(rt, alloc, &lines, plan.threads());
    // The program ends soon, and gives all memory back at once.
    forget(lines);
    text
}

/// The line of a refused bundle.
pub fn refusal(alloc: Global, place: Place, reason: Reason) -> Result<ByteText, AllocError>
    ensures { IfOk result (λ text. text ≡ refusal_line place reason) }
{
    let mut line = Vec::new(alloc);
    push_refusal(&mut line, place, reason)?;
    Ok(ByteText::from_vec(line))
}
