//! The line of a turn, whoever answers the calls.

ghost use Rattle.std.specs.Prelude.{◌≡◌, ◌+◌, ◌<◌, ◌^◌, ℕ, List, Ok, IfOk, OnOk};
ghost use Rattle.std.specs.Option.{option_map};
ghost use Rattle.handle_table.specs.Seen.{op_of};
ghost use Rattle.catalog_handles.specs.Entry as catalogs;
ghost use Rattle.category_store.specs.Library.{opening};
ghost use Rattle.category_store.specs.Shelf.{IsNumbered, IsInstallable};
ghost use Rattle.script_wishes.specs.Seen.{task_seen, turn_seen, variable_seen, wished};
ghost use Rattle.script_wishes.specs.Variables.{Bound, variable_of, variable_bound, bindings_after};
ghost use Rattle.script_wishes.specs.Wishes.{Calls, ReadsOf, Reads, AsksName, Fitting, TaskMay};
ghost use Rattle.script_lines.specs.Granted.{GivesLine, ReadsBetween, Grants, TakesTurn, BindsBy};
ghost use Rattle.script_lines.specs.Lines.{object_line};
ghost use Rattle.script_lines.specs.Seen.{caller};

use crate::board::{Board, Side};
use crate::catalog_lines::{close_line, message_line, open_line};
use crate::catalogs::Books;
use crate::lines::{Caller, handle_said, line, placed_line, plain_line};
use crate::thread::Thread;
use category_store::{Library, Share};
use handle_table::Op;
use lc_base::Named;
use mask_compose::Object;
use script_commands::{Command, Read};
use script_out::{OutLine, Places, Said, Why};
use script_reads::names::object_name;
use script_reads::reads::local;
use script_wishes::holds::object_held;
use script_wishes::turns::{Task, Turn};
use script_wishes::variables::{Variable, catalog_variable, locale_variable};
use script_wishes::wishes::{Wish, wish_of};
use script_words::CategoryArgument;
use std::alloc::{AllocError, Global};

/// The line of a turn of a thread.
pub fn turn_line<B: Board>(
    alloc: Global,
    library: &Library,
    books: &Books<'_>,
    board: &mut B,
    thread: &mut Thread<B::Side>,
    turn: Turn<'_>,
) -> Result<OutLine, AllocError>
    requires numbered { IsNumbered library.now }
    requires installable { IsInstallable library.now }
    requires ready { B.ready 2 board.old thread.old.side }
    requires opening { (B.setting_of board.old).opening ≡ opening library.now }
    requires thread { turn.thread ≡ B.Side.number_of thread.old.side }
    requires fits { TaskMay library.now (B.may (B.setting_of board.old)) (task_seen turn.task) }
    requires few { thread.old.lines + 1 < 2 ^ 32 }
    ensures leaves { IfOk result (TakesTurn B.Board B.Side.Side library.now books.now board.old thread.old board.new thread.new (turn_seen turn.entry)) }
    ensures variables { IfOk result (λ l. BindsBy B.Side.Side thread.old thread.new (task_seen turn.entry.task) l.reply) }
    ensures number { OnOk result (B.Side.number_of thread.new.side ≡ B.Side.number_of thread.old.side) }
    ensures lines { OnOk result (thread.new.lines ≡ thread.old.lines + 1) }
    ensures setting { OnOk result (B.setting_of board.new ≡ B.setting_of board.old) }
    ensures ready { OnOk result ((n : ℕ) → B.ready (n + 2) board.old thread.old.side → B.ready n board.new thread.new.side) }
{
    let at = thread.next_caller(turn.round);
    let wish = wish_of(library, &thread.variables, turn.task);
    let line = granted(alloc, library, books, board, &mut thread.side, at, wish)?;
    bind_said(alloc, thread, turn.task, &line.reply)?;
    Ok(line)
}

/// Binds the variable of a task to the handle that the reply has.
fn bind_said<S: Side>(
    alloc: Global,
    thread: &mut Thread<S>,
    task: Task<'_>,
    reply: &Said,
) -> Result<(), AllocError>
    ensures variables { OnOk result (BindsBy S.Side thread.old thread.new (task_seen task.entry) reply.now) }
    ensures side { OnOk result (thread.new.side ≡ thread.old.side) }
    ensures lines { OnOk result (thread.new.lines ≡ thread.old.lines) }
{
    let Some(variable) = variable_bound(task) else {
        return Ok(());
    };
    match handle_said(reply) {
        Some(handle) => thread.bind(alloc, variable, handle),
        None => Ok(()),
    }
}

/// The variable that a task binds.
fn variable_bound(task: Task<'_>) -> Option<Variable<'_>>
    ensures { option_map variable_seen result ≡ variable_bound (task_seen task.entry) }
{
    match task {
        Task::Command(command) => variable_of(command),
        Task::Release(_) | Task::End => None,
    }
}

/// The variable that a command binds.
fn variable_of(command: &Command) -> Option<Variable<'_>>
    ensures { option_map variable_seen result ≡ variable_of command.now }
{
    match command {
        Command::New { variable, .. }
        | Command::Dup { variable, .. }
        | Command::Fetch { variable, .. } => Some(locale_variable(variable)),
        Command::CatOpen { variable, .. } => Some(catalog_variable(variable)),
        Command::Free(_)
        | Command::Use(_)
        | Command::Selected
        | Command::Hold(_)
        | Command::Release(_)
        | Command::Setlocale { .. }
        | Command::LocaleName(_)
        | Command::Install(_)
        | Command::Post { .. }
        | Command::Pins(_)
        | Command::Read(_)
        | Command::ReadOf { .. }
        | Command::CatGets { .. }
        | Command::CatClose(_) => None,
    }
}

/// The line of a wish of the thread, or of its refusal without an entry.
pub fn granted<B: Board>(
    alloc: Global,
    library: &Library,
    books: &Books<'_>,
    board: &mut B,
    side: &mut B::Side,
    at: Caller,
    wish: Result<Wish<'_>, Why>,
) -> Result<OutLine, AllocError>
    requires ready { B.ready 2 board.old side.old }
    requires caller { at.thread ≡ B.Side.number_of side.old }
    requires fits { IfOk (wished wish) (Fitting (B.may (B.setting_of board.old))) }
    ensures leaves { IfOk result (Grants B.Board B.Side.Side library.now books.now board.old side.old board.new side.new (caller at) (wished wish.entry)) }
    ensures number { OnOk result (B.Side.number_of side.new ≡ B.Side.number_of side.old) }
    ensures setting { OnOk result (B.setting_of board.new ≡ B.setting_of board.old) }
    ensures ready { OnOk result ((n : ℕ) → B.ready (n + 2) board.old side.old → B.ready n board.new side.new) }
{
    match wish {
        Err(why) => Ok(plain_line(at, Said::Refused(why))),
        Ok(Wish::Call(categories, op)) => {
            call_line(alloc, library, board, side, at, categories, op)
        }
        Ok(Wish::ReadOf(named, read)) => read_of_line(alloc, library, board, side, at, named, read),
        Ok(Wish::Read(read)) => read_line(alloc, library, board, side, at, read),
        Ok(Wish::Selection) => Ok(plain_line(at, Said::Is(side.selected()))),
        Ok(Wish::Name(categories)) => name_line(alloc, library, board, side, at, categories),
        Ok(Wish::OpenCatalog(name)) => Ok(open_line(alloc, library, books, board, side, at, name)),
        Ok(Wish::GetMessage(handle, wanted)) => {
            message_line(alloc, books, board, side, at, handle, wanted)
        }
        Ok(Wish::CloseCatalog(handle)) => Ok(close_line(alloc, board, side, at, handle)),
    }
}

/// The line of a call.
fn call_line<B: Board>(
    alloc: Global,
    library: &Library,
    board: &mut B,
    side: &mut B::Side,
    at: Caller,
    categories: CategoryArgument,
    op: Op<Share>,
) -> Result<OutLine, AllocError>
    requires ready { B.ready 1 board.old side.old }
    requires caller { at.thread ≡ B.Side.number_of side.old }
    requires fits { B.may (B.setting_of board.old) (op_of op) }
    ensures leaves { IfOk result (GivesLine B.Board B.Side.Side library.now board.old side.old board.new side.new (caller at) (Ok (Calls categories (op_of op)))) }
    ensures catalogs { OnOk result ((M : catalogs.History) → B.catalogs_at board.old side.old M → B.catalogs_at board.new side.new M) }
    ensures number { OnOk result (B.Side.number_of side.new ≡ B.Side.number_of side.old) }
    ensures setting { OnOk result (B.setting_of board.new ≡ B.setting_of board.old) }
    ensures ready { OnOk result ((n : ℕ) → B.ready (n + 1) board.old side.old → B.ready n board.new side.new) }
{
    let (place, reply) = board.call(side, op)?;
    placed_line(alloc, library, at, place, categories, &reply)
}

/// The line of a read of what is named: of the object of the thread's open Hold, or else between a
/// Hold and a Release.
fn read_of_line<B: Board>(
    alloc: Global,
    library: &Library,
    board: &mut B,
    side: &mut B::Side,
    at: Caller,
    named: Named,
    read: &Read,
) -> Result<OutLine, AllocError>
    requires ready { B.ready 2 board.old side.old }
    requires caller { at.thread ≡ B.Side.number_of side.old }
    requires fits { Fitting (B.may (B.setting_of board.old)) (ReadsOf named read.now) }
    ensures leaves { IfOk result (GivesLine B.Board B.Side.Side library.now board.old side.old board.new side.new (caller at) (Ok (ReadsOf named read.now))) }
    ensures catalogs { OnOk result ((M : catalogs.History) → B.catalogs_at board.old side.old M → B.catalogs_at board.new side.new M) }
    ensures number { OnOk result (B.Side.number_of side.new ≡ B.Side.number_of side.old) }
    ensures setting { OnOk result (B.setting_of board.new ≡ B.setting_of board.old) }
    ensures ready { OnOk result ((n : ℕ) → B.ready (n + 2) board.old side.old → B.ready n board.new side.new) }
{
    match side.held_as(named) {
        Some(object) => object_line(alloc, library, at, read, object),
        None => read_between(alloc, library, board, side, at, named, read),
    }
}

/// The line of a read between a Hold and a Release, or of a Hold that is refused.
#[inline(never)]
fn read_between<B: Board>(
    alloc: Global,
    library: &Library,
    board: &mut B,
    side: &mut B::Side,
    at: Caller,
    named: Named,
    read: &Read,
) -> Result<OutLine, AllocError>
    requires ready { B.ready 2 board.old side.old }
    requires caller { at.thread ≡ B.Side.number_of side.old }
    requires fits { Fitting (B.may (B.setting_of board.old)) (ReadsOf named read.now) }
    ensures leaves { IfOk result (ReadsBetween B.Board B.Side.Side library.now board.old side.old board.new side.new (caller at) named read.now) }
    ensures catalogs { OnOk result ((M : catalogs.History) → B.catalogs_at board.old side.old M → B.catalogs_at board.new side.new M) }
    ensures number { OnOk result (B.Side.number_of side.new ≡ B.Side.number_of side.old) }
    ensures setting { OnOk result (B.setting_of board.new ≡ B.setting_of board.old) }
    ensures ready { OnOk result ((n : ℕ) → B.ready (n + 2) board.old side.old → B.ready n board.new side.new) }
{
    let (place, reply) = board.call(side, Op::Hold { h: named })?;
    match object_held(&reply) {
        Some(object) => {
            let said = local(alloc, library, object, read)?;
            let (release, _) = board.call(side, Op::Release { h: named })?;
            Ok(line(at, Places::Two(place, release), None, said))
        }
        None => placed_line(alloc, library, at, place, CategoryArgument::All, &reply),
    }
}

/// The line of a read of an object.
fn object_line(
    alloc: Global,
    library: &Library,
    at: Caller,
    read: &Read,
    object: &Object<Share>,
) -> Result<OutLine, AllocError>
    ensures { IfOk result (λ l. l ≡ object_line library.now (caller at) read.now object.now) }
{
    let said = local(alloc, library, object, read)?;
    Ok(plain_line(at, said))
}

/// The line of a read: it reads the thread's own object, or the global locale with its version.
fn read_line<B: Board>(
    alloc: Global,
    library: &Library,
    board: &mut B,
    side: &mut B::Side,
    at: Caller,
    read: &Read,
) -> Result<OutLine, AllocError>
    requires ready { B.ready 0 board.old side.old }
    requires caller { at.thread ≡ B.Side.number_of side.old }
    ensures leaves { IfOk result (GivesLine B.Board B.Side.Side library.now board.old side.old board.new side.new (caller at) (Ok (Reads read.now))) }
    ensures catalogs { OnOk result ((M : catalogs.History) → B.catalogs_at board.old side.old M → B.catalogs_at board.new side.new M) }
    ensures number { OnOk result (B.Side.number_of side.new ≡ B.Side.number_of side.old) }
    ensures setting { OnOk result (B.setting_of board.new ≡ B.setting_of board.old) }
    ensures ready { OnOk result ((n : ℕ) → B.ready n board.old side.old → B.ready n board.new side.new) }
{
    match side.own() {
        Some(own) => object_line(alloc, library, at, read, own),
        None => {
            let (version, object) = board.global(side);
            let said = local(alloc, library, &object, read)?;
            Ok(line(at, Places::None, Some(version), said))
        }
    }
}

/// The line of a setlocale that asks: the name of the global locale with its version.
fn name_line<B: Board>(
    alloc: Global,
    library: &Library,
    board: &mut B,
    side: &mut B::Side,
    at: Caller,
    categories: CategoryArgument,
) -> Result<OutLine, AllocError>
    requires ready { B.ready 0 board.old side.old }
    requires caller { at.thread ≡ B.Side.number_of side.old }
    ensures leaves { IfOk result (GivesLine B.Board B.Side.Side library.now board.old side.old board.new side.new (caller at) (Ok (AsksName categories))) }
    ensures catalogs { OnOk result ((M : catalogs.History) → B.catalogs_at board.old side.old M → B.catalogs_at board.new side.new M) }
    ensures number { OnOk result (B.Side.number_of side.new ≡ B.Side.number_of side.old) }
    ensures setting { OnOk result (B.setting_of board.new ≡ B.setting_of board.old) }
    ensures ready { OnOk result ((n : ℕ) → B.ready n board.old side.old → B.ready n board.new side.new) }
{
    let (version, object) = board.global(side);
    let name = object_name(alloc, library, &object, categories)?;
    Ok(line(at, Places::None, Some(version), Said::Name(name)))
}
