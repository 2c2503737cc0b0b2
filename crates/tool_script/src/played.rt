//! A bundle whose script is run.

ghost use Rattle.std.specs.Prelude.{◌≡◌, ◌^◌, ◌<◌, length, Ok, IfOk, IfErr};
ghost use Rattle.script_plan.specs.Plan.{PlanData, plan_of};
ghost use Rattle.tool_messages.specs.declared.answer.Problem.TheVariants.{Memory};
ghost use Rattle.tool_script.specs.Explained.{is_refused};
ghost use Rattle.tool_script.specs.Played.{MayPrint, shown, has_refusal, IsPlayed, MayPlay};

use crate::explained::explained_text;
use lc_base::{ByteText, List, TextFault};
use script_out::{OutLine, Said, print};
use script_plan::{Plan, prepare};
use script_run::run;
use script_seats::NoPause;
use script_serial::serial;
use std::alloc::{AllocError, Global};
use std::sync::Wait;
use std::thread::Threads;
use tool_files::{FILE_LIMIT, text_problem};
use tool_messages::Problem;

/// The rows of each thread.
const ROWS: u32 = 16;

/// How many objects a row has in all its time.
const GENERATIONS: u32 = 65535;

/// How a script is run.
#[derive(Clone, Copy)]
pub struct Playing {
    /// Whether the threads of a round run concurrently.
    pub is_run: bool,
    /// Whether each line stands with its command.
    pub explain: bool,
}

/// What a script prints, and whether a command of it is refused.
#[derive(Drop)]
pub struct Played {
    pub output: ByteText,
    pub has_refusal: bool,
}

/// Runs the script of a bundle that a file has. A bundle that is accepted fails only when it is out of memory, as
/// one does that is larger than a file may be.
pub fn play<R: Threads + Wait + Sync>(
    rt: &R,
    alloc: Global,
    path: &str,
    text: &[u8],
    how: Playing,
) -> Result<Played, Problem>
    ensures played { IfOk result (IsPlayed text.now how) }
    ensures memory { (plan : PlanData) → plan_of text.now ≡ Ok plan → IfErr result (λ problem. problem ≡ Memory) }
{
    if text.len() > FILE_LIMIT {
        return Err(Problem::Memory);
    }
    match played_of(rt, alloc, text, how) {
        Ok(played) => Ok(played),
        Err(TextFault::Memory) => Err(Problem::Memory),
        Err(fault) => Err(text_problem(alloc, path, text, fault)),
    }
}

/// Runs the script of a text.
fn played_of<R: Threads + Wait + Sync>(
    rt: &R,
    alloc: Global,
    text: &[u8],
    how: Playing,
) -> Result<Played, TextFault>
    requires { length text.now < 2 ^ 31 }
    ensures { MayPlay text.now how result }
{
    let plan = prepare(alloc, text)?;
    let played = plan_played(rt, alloc, &plan, text, how);
    drop(plan);
    Ok(played?)
}

/// Runs the script of a plan that the text has.
fn plan_played<R: Threads + Wait + Sync>(
    rt: &R,
    alloc: Global,
    plan: &Plan,
    text: &[u8],
    how: Playing,
) -> Result<Played, AllocError>
    requires short { length text.now < 2 ^ 31 }
    requires accepted { plan_of text.now ≡ Ok plan.now }
    ensures { IfOk result (IsPlayed text.now how) }
{
    let lines = lines_of(rt, alloc, plan, how.is_run)?;
    let output = shown(alloc, plan, text, how.explain, &lines)?;
    Ok(Played {
        output,
        has_refusal: has_refusal(lines.as_slice()),
    })
}

/// The text of lines.
fn shown(
    alloc: Global,
    plan: &Plan,
    text: &[u8],
    explain: bool,
    lines: &List<OutLine>,
) -> Result<ByteText, AllocError>
    requires { length text.now < 2 ^ 31 }
    ensures { IfOk result (λ output. output ≡ shown explain plan.now text.now lines.now) }
{
    if explain {
        let commands = plan.bundle().commands.as_slice();
        explained_text(alloc, lines, plan.threads(), commands, text)
    } else {
        print(alloc, lines, plan.threads())
    }
}

/// The lines that a plan prints.
fn lines_of<R: Threads + Wait + Sync>(
    rt: &R,
    alloc: Global,
    plan: &Plan,
    is_run: bool,
) -> Result<List<OutLine>, AllocError>
    ensures { IfOk result (MayPrint is_run plan.now) }
{
    if is_run {
        run(rt, alloc, plan, ROWS, GENERATIONS, &NoPause)
    } else {
        serial(alloc, plan, ROWS, GENERATIONS)
    }
}

/// Whether a command is refused.
fn has_refusal(lines: &[OutLine]) -> bool
    ensures { result ≡ has_refusal lines.now }
{
    for line in lines {
        if is_refused(&line.reply) {
            return true;
        }
    }
    false
}

/// Whether a reply is a refusal.
fn is_refused(reply: &Said) -> bool
    ensures { result ≡ is_refused reply.now }
{
    matches!(reply, Said::Refused(_))
}
