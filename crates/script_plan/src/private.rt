//! Scripts whose threads share nothing, and what they print.

ghost use Rattle.std.specs.Prelude.{◌≡◌};
ghost use Rattle.script_plan.specs.Private.{is_own_target, is_own_base, keeps_to_itself, all_keep_to_themselves, PrintAlike};

use script_commands::{Command, Target};
use script_lang::Bundle;

/// Whether each command of the bundle makes, changes, frees or selects an object of its thread, counts
/// its pins, or reads without a handle. Then no thread takes anything from another.
pub fn keep_to_themselves(bundle: &Bundle) -> bool
    ensures { result ≡ all_keep_to_themselves bundle.now }
{
    let commands = bundle.commands.as_slice();
    commands
        .iter()
        .all(|placed| keeps_to_itself(&placed.command))
}

/// A script whose threads keep to themselves prints the same, but for the places of its calls, in
/// whatever order its threads called. Nothing is done here: the contract is the law.
pub fn print_alike()
    ensures print_alike { PrintAlike }
{}

fn keeps_to_itself(command: &Command) -> bool
    ensures { result ≡ keeps_to_itself command.now }
{
    match command {
        Command::New { base, .. } => base.as_ref().is_none_or(is_own_target),
        Command::Dup { from: named, .. }
        | Command::Free(named)
        | Command::Use(named)
        | Command::Pins(named) => is_own_target(named),
        Command::Selected | Command::LocaleName(_) | Command::Read(_) => true,
        _ => false,
    }
}

/// Whether a variable or the global locale is named. A handle that is written out can be another
/// thread's.
fn is_own_target(target: &Target) -> bool
    ensures { result ≡ is_own_target target.now }
{
    match target {
        Target::Global | Target::Variable(_) => true,
        Target::Handle(_) => false,
    }
}
