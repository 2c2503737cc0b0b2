//! A thread of the script that runs beside the others.

ghost use Rattle.std.specs.Prelude.{◌≡◌, [], map, IfOk, OnOk};
ghost use Rattle.turn_gate.specs.Callers.{IsSeatOf};
ghost use Rattle.script_wishes.specs.Seen.{turn_seen};
ghost use Rattle.script_run.specs.Beside.{CanAdd, AddsLine, CanClose, EndsSeat};
ghost use Rattle.script_run.specs.Workers.{gates_of, texts_of, MayWork, MakesTurns, MakesTurn, GivesUpAll, ClosesWorker};

use catalog_handles::{BookShare, SharedCatalogs};
use category_store::{Library, Share};
use script_lines::catalogs::Books;
use script_lines::granted::turn_line;
use script_lines::lines::line;
use script_lines::thread::Thread;
use script_out::{OutLine, Places, Said};
use script_seats::{Beside, OneTable, Pause, Seated};
use script_wishes::turns::{Task, Turn};
use std::alloc::{AllocError, Global};
use std::marker::Brand;
use std::sync::Wait;
use thread_current::{Locales, Shared};
use turn_gate::Seat;

/// A thread with the lines that it has made in the round, or that it was out of memory, which ended it.
#[derive(Drop)]
pub struct Worker {
    pub thread: Thread<Seated>,
    pub lines: Vec<OutLine>,
    pub outcome: Result<(), AllocError>,
}

/// What all workers of a script share.
#[derive(Drop)]
pub struct Common<'a, R, P> {
    pub rt: &'a R,
    pub alloc: Global,
    pub library: &'a Library,
    pub books: &'a Books<'a>,
    pub shared: &'a Shared<Share>,
    pub catalogs: &'a SharedCatalogs<BookShare>,
    pub pause: &'a P,
}

// The line of a turn of a thread at a shared table and at shared catalogs.
fn seat_line<R: Wait, P, G: OneTable>(
    common: &Common<'_, R, P>,
    thread: &mut Thread<Seated>,
    turn: Turn<'_>,
) -> Result<OutLine, AllocError>
    requires table { common.now.shared.now ≡ G.gate }
    requires catalogs { common.now.catalogs.now ≡ G.desk }
    requires can { CanAdd (gates_of common.now) (texts_of common.now) thread.old (turn_seen turn) }
    ensures { IfOk result (λ l. AddsLine (gates_of common.now) (texts_of common.now) (turn_seen turn.entry) thread.old thread.new l) }
{
    let mut board = Beside::<R, G>::new(common.rt, common.shared, common.catalogs);
    let line = turn_line(
        common.alloc,
        common.library,
        common.books,
        &mut board,
        thread,
        turn,
    )?;
    Ok(line)
}

impl Worker {
    /// A worker before its first command.
    pub fn new(alloc: Global, side: Seated) -> Worker
        ensures { (result.thread.side ≡ side) × (result.thread.lines ≡ 0) × (result.lines.items ≡ []) × (result.thread.variables ≡ []) }
    {
        Worker {
            thread: Thread::new(alloc, side),
            lines: Vec::new(alloc),
            outcome: Ok(()),
        }
    }

    /// Makes the lines of its turns among these of a round, in order. It ends when it is out of memory.
    pub fn work<R: Wait, P: Pause>(&mut self, common: &Common<'_, R, P>, turns: &[Turn<'_>])
        requires can { MayWork (gates_of common.now) (texts_of common.now) (map turn_seen turns.now) self.old }
        ensures works { OnOk self.new.outcome (MakesTurns (gates_of common.now) (texts_of common.now) (map turn_seen turns.now) self.old self.new) }
        ensures number { OnOk self.new.outcome (self.new.thread.side.number ≡ self.old.thread.side.number) }
    {
        self.outcome = self.lines_of(common, turns);
    }

    // Makes the lines of its turns among these of a round, or says that it is out of memory.
    fn lines_of<R: Wait, P: Pause>(
        &mut self,
        common: &Common<'_, R, P>,
        turns: &[Turn<'_>],
    ) -> Result<(), AllocError>
        requires can { MayWork (gates_of common.now) (texts_of common.now) (map turn_seen turns.now) self.old }
        ensures works { OnOk result (MakesTurns (gates_of common.now) (texts_of common.now) (map turn_seen turns.now) self.old self.new) }
        ensures number { OnOk result (self.new.thread.side.number ≡ self.old.thread.side.number) }
    {
        let number = self.thread.number();
        for turn in turns {
            if turn.thread == number {
                common
                    .pause
                    .before(number, turn.round, self.thread.lines + 1);
                self.add(common, *turn)?;
            }
        }
        Ok(())
    }

    // Makes the line of a turn.
    fn add<R: Wait, P>(
        &mut self,
        common: &Common<'_, R, P>,
        turn: Turn<'_>,
    ) -> Result<(), AllocError>
        requires { CanAdd (gates_of common.now) (texts_of common.now) self.old.thread (turn_seen turn) }
        ensures { OnOk result (MakesTurn (gates_of common.now) (texts_of common.now) (turn_seen turn.entry) self.old self.new) }
    {
        let line = seat_line::<R, P, Brand>(common, &mut self.thread, turn)?;
        self.lines.push(line)?;
        Ok(())
    }

    /// Closes the thread in a round: a Release of each open Hold, in the order made, and its end. Gives
    /// its lines and its seat.
    pub fn close<R: Wait, P>(
        mut self,
        common: &Common<'_, R, P>,
        round: u32,
    ) -> Result<(Vec<OutLine>, Seat<Locales<Share>>), AllocError>
        requires can { CanClose (gates_of common.now) (texts_of common.now) self.thread }
        ensures closes { IfOk result (λ r. ClosesWorker (gates_of common.now) (texts_of common.now) round self r.1 r.0.items) }
        ensures seat { IfOk result (λ r. IsSeatOf common.now.shared.now r.1 × (r.1.number ≡ self.thread.side.number)) }
    {
        self.release_all(common, round)?;
        self.end(common, round)
    }

    // Ends the thread, which holds nothing.
    fn end<R: Wait, P>(
        mut self,
        common: &Common<'_, R, P>,
        round: u32,
    ) -> Result<(Vec<OutLine>, Seat<Locales<Share>>), AllocError>
        requires can { CanClose (gates_of common.now) (texts_of common.now) self.thread }
        requires empty { self.thread.side.holds.items ≡ [] }
        ensures ends { IfOk result (λ r. EndsSeat common.now.shared.now round self.thread r.1 self.lines.items r.0.items) }
        ensures seat { IfOk result (λ r. IsSeatOf common.now.shared.now r.1 × (r.1.number ≡ self.thread.side.number)) }
    {
        let at = self.thread.next_caller(round);
        let Worker {
            thread,
            mut lines,
            ..
        } = self;
        let side = thread.side;
        let (place, seat) = common.shared.end(common.rt, side.mine);
        lines.push(line(at, Places::One(place), None, Said::Ended))?;
        Ok((lines, seat))
    }

    // Gives up each open Hold, in the order made.
    fn release_all<R: Wait, P>(
        &mut self,
        common: &Common<'_, R, P>,
        round: u32,
    ) -> Result<(), AllocError>
        requires { CanClose (gates_of common.now) (texts_of common.now) self.old.thread }
        ensures { OnOk result (GivesUpAll (gates_of common.now) (texts_of common.now) round self.old self.new) }
    {
        let thread = self.thread.number();
        while let Some(handle) = self.thread.side.first_hold() {
            let task = Task::Release(handle);
            let turn = Turn {
                round,
                thread,
                task,
            };
            self.add(common, turn)?;
        }
        Ok(())
    }
}
