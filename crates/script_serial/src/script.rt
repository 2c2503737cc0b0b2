//! Runs a script on one thread.

ghost use Rattle.std.specs.Prelude.{◌≡◌, ◌≤◌, ◌<◌, ◌+◌, ◌*◌, ◌^◌, [], length, map, All, IfOk, OnOk};
ghost use Rattle.category_store.specs.Library.{opening};
ghost use Rattle.category_store.specs.Shelf.{IsNumbered, IsInstallable};
ghost use Rattle.handle_table.specs.Table.{StandsFor};
ghost use Rattle.script_wishes.specs.Seen.{turn_seen, TurnFits};
ghost use Rattle.script_plan.specs.Isolation.{IsIsolated};
ghost use Rattle.script_plan.specs.Plan.{PlanData, IsSound};
ghost use Rattle.script_plan.specs.Prints.{PrintsInOrder};
ghost use Rattle.script_plan.specs.Serial.{Run, played, begun, closed, commands_played, serial_lines, setting};
ghost use Rattle.script_serial.specs.Session.{Follows, AreAt, CatalogsAreAt, AreNumbered, GoesOn, CanPlay};

use crate::alone::{Alone, AloneSide};
use crate::closing::closing_turns;
use catalog_handles::Catalogs;
use category_store::Library;
use handle_table::Table;
use lc_base::List;
use script_lang::Bundle;
use script_lines::catalogs::Books;
use script_lines::granted::turn_line;
use script_lines::thread::Thread;
use script_out::OutLine;
use script_plan::Plan;
use script_wishes::turns::{Turn, command_turns};
use std::alloc::{AllocError, Global};

/// The lines of the script's commands, round by round and in a round thread by thread, and then the
/// lines that close the threads: a Release of each open Hold, and the end. The table has so many rows
/// a thread and generations a row. A plan without threads has no line.
pub fn serial(
    alloc: Global,
    plan: &Plan,
    rows: u32,
    generations: u32,
) -> Result<List<OutLine>, AllocError>
    requires some_row { 1 ≤ rows }
    requires rows { rows ≤ 64 }
    requires some_generation { 1 ≤ generations }
    requires generations { generations ≤ 2147483647 }
    ensures lines { IfOk result (λ lines. lines ≡ serial_lines rows generations plan.now) }
    ensures prints { IfOk result (λ lines. PrintsInOrder (setting plan.now rows generations) plan.now lines) }
    ensures isolated { IfOk result (λ lines. IsIsolated (setting plan.now rows generations) plan.now lines) }
{
    let bundle = plan.bundle();
    if bundle.threads.is_empty() {
        return Ok(List::of(Vec::new(alloc)));
    }
    let count = bundle.threads.len() as u32;
    let library = plan.library();
    let books = plan.books();
    let mut alone = new_alone(alloc, library, count, rows, generations)?;
    let mut threads = new_threads(alloc, count)?;
    let lines = all_lines(
        alloc,
        library,
        bundle,
        &books,
        &mut alone,
        threads.as_mut_slice(),
    )?;
    Ok(List::of(lines))
}

/// A table with catalogs, before the first call.
fn new_alone(
    alloc: Global,
    library: &Library,
    count: u32,
    rows: u32,
    generations: u32,
) -> Result<Alone, AllocError>
    requires some_thread { 1 ≤ count }
    requires threads { count ≤ 16 }
    requires some_row { 1 ≤ rows }
    requires rows { rows ≤ 64 }
    requires some_generation { 1 ≤ generations }
    requires generations { generations ≤ 2147483647 }
    ensures setting { IfOk result (λ alone. alone.table.setting ≡ record { threads = count; rows = rows; generations = generations; opening = opening library.now }) }
    ensures stands { IfOk result (λ alone. StandsFor alone.table []) }
    ensures catalogs { IfOk result (λ alone. CatalogsAreAt alone []) }
{
    let shelf = library.opening(alloc)?;
    let table = Table::new(alloc, count, rows, generations, shelf)?;
    let catalogs = Catalogs::new(alloc, count, rows, generations)?;
    Ok(Alone::new(table, catalogs))
}

/// Threads before their first command, by their numbers.
fn new_threads(alloc: Global, count: u32) -> Result<Vec<Thread<AloneSide>>, AllocError>
    ensures length { IfOk result (λ threads. length threads.items ≡ count) }
    ensures numbered { IfOk result (λ threads. AreNumbered 0 threads.items) }
    ensures follow { IfOk result (λ threads. All (λ t. Follows t begun) threads.items) }
{
    let mut threads = Vec::new(alloc);
    for number in 0..count {
        threads.push(Thread::new(alloc, AloneSide::new(alloc, number)))?;
    }
    Ok(threads)
}

/// The lines of all commands and of what closes the threads.
fn all_lines(
    alloc: Global,
    library: &Library,
    bundle: &Bundle,
    books: &Books<'_>,
    alone: &mut Alone,
    threads: &mut [Thread<AloneSide>],
) -> Result<Vec<OutLine>, AllocError>
    requires sound { IsSound (record { bundle = bundle.now; library = library.now; books = books.now.books }) }
    requires blocks { books.now.blocks ≡ bundle.now.catalogs }
    requires begun { AreAt alone.old threads.old begun }
    requires numbered { AreNumbered 0 threads.old }
    requires opening { alone.old.table.setting.opening ≡ opening library.now }
    requires threads { alone.old.table.setting.threads ≡ length bundle.now.threads }
    requires length { length threads.old ≡ length bundle.now.threads }
    ensures { IfOk result (λ lines. let plan : PlanData = record { bundle = bundle.now; library = library.now; books = books.now.books } in lines.items ≡ (closed alone.old.table.setting plan (commands_played alone.old.table.setting plan)).lines) }
{
    let turns = command_turns(alloc, bundle)?;
    let mut lines = Vec::with_capacity(alloc, turns.len())?;
    play(
        alloc,
        library,
        books,
        alone,
        threads,
        turns.as_slice(),
        &mut lines,
    )?;
    let turns = closing_turns(alloc, bundle.rounds + 1, threads)?;
    play(
        alloc,
        library,
        books,
        alone,
        threads,
        turns.as_slice(),
        &mut lines,
    )?;
    Ok(lines)
}

/// Adds the lines of turns.
fn play(
    alloc: Global,
    library: &Library,
    books: &Books<'_>,
    alone: &mut Alone,
    threads: &mut [Thread<AloneSide>],
    turns: &[Turn<'_>],
    lines: &mut Vec<OutLine>,
) -> Result<(), AllocError>
    requires numbered { IsNumbered library.now }
    requires installable { IsInstallable library.now }
    requires can { CanPlay library.now alone.old threads.old (length turns.now) }
    requires threads { AreNumbered (length lines.old.items) threads.old }
    requires few { length lines.old.items + length turns.now < 2 ^ 32 }
    requires fit { All (TurnFits (length threads.old)) (map turn_seen turns.now) }
    ensures at { OnOk result ((run : Run) → AreAt alone.old threads.old run → run.lines ≡ lines.old.items → AreAt alone.new threads.new (played alone.old.table.setting library.now books.now run (map turn_seen turns.now))) }
    ensures lines { OnOk result ((run : Run) → AreAt alone.old threads.old run → run.lines ≡ lines.old.items → lines.new.items ≡ (played alone.old.table.setting library.now books.now run (map turn_seen turns.now)).lines) }
    ensures threads { OnOk result (AreNumbered (length lines.new.items) threads.new) }
    ensures length { OnOk result (length lines.new.items ≡ length lines.old.items + length turns.now) }
    ensures table { OnOk result (GoesOn (2 * length turns.now) alone.old alone.new) }
{
    for turn in turns {
        let thread = &mut threads[turn.thread as usize];
        let line = turn_line(alloc, library, books, alone, thread, *turn)?;
        lines.push(line)?;
    }
    Ok(())
}
