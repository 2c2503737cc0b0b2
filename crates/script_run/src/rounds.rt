//! Runs a script with the threads of each round in parallel.

ghost use Rattle.std.specs.Prelude.{◌≡◌, ◌+◌, ◌*◌, ◌<◌, ◌≤◌, [], ◌++◌, length, map, flat_map, take, drop, All, IfOk, OnOk};
ghost use Rattle.std.specs.List.{range_with_len};
ghost use Rattle.category_store.specs.Library.{opening};
ghost use Rattle.turn_gate.specs.Callers.{IsSeatOf};
ghost use Rattle.thread_current.specs.Thread.{IsThreadOf, IsInOrder, SawMore, GoesOnFrom, first_thread, thread_of};
ghost use Rattle.script_wishes.specs.Seen.{turn_seen};
ghost use Rattle.script_plan.specs.Isolation.{IsIsolated};
ghost use Rattle.catalog_handles.specs.Reader as readers;
ghost use Rattle.script_plan.specs.Plan.{IsSound};
ghost use Rattle.script_plan.specs.Prints.{Prints};
ghost use Rattle.script_plan.specs.Serial.{setting};
ghost use Rattle.script_seats.specs.Seated.{gates};
ghost use Rattle.script_run.specs.Workers.{gates_of, texts_of, MayWork};
ghost use Rattle.script_run.specs.Rounds.{Each, EachTwo, plan_of, mine_of, reader_at, IsFor, IsForAsked, IsFirst, HasWorked, HasGiven, IsOfBoth, IsOrderly, HasSeenOf, SeesMore, HasMetWorker, AllMet, AreBetween, SeatSeesMore, AreClosing};

use crate::worker::{Common, Worker};
use catalog_handles::{BookShare, Reader, SharedCatalogs};
use category_store::Share;
use lc_base::List;
use script_lang::Bundle;
use script_lines::thread::Thread;
use script_out::OutLine;
use script_plan::Plan;
use script_seats::{Pause, Seated, for_each_beside};
use script_wishes::turns::{Turn, round_turns};
use std::alloc::{AllocError, Global};
use std::sync::Wait;
use std::thread::Threads;
use thread_current::{Locales, Mine, Shared};
use turn_gate::Seat;

type Seats = Vec<Seat<Locales<Share>>>;

/// The lines of the script's commands and of what closes the threads, as `serial` has them, but that
/// the threads of a round call in whatever order they come to it. Between rounds each thread sees what
/// any has seen. The pause is called before each command. A plan without threads has no line.
pub fn run<R: Threads + Wait + Sync, P: Pause + Sync>(
    rt: &R,
    alloc: Global,
    plan: &Plan,
    rows: u32,
    generations: u32,
    pause: &P,
) -> Result<List<OutLine>, AllocError>
    requires some_row { 1 ≤ rows }
    requires rows { rows ≤ 64 }
    requires some_generation { 1 ≤ generations }
    requires generations { generations ≤ 2147483647 }
    ensures prints { IfOk result (λ lines. Prints (setting plan.now rows generations) plan.now lines) }
    ensures isolated { IfOk result (λ lines. IsIsolated (setting plan.now rows generations) plan.now lines) }
{
    let bundle = plan.bundle();
    if bundle.threads.is_empty() {
        return Ok(List::of(Vec::new(alloc)));
    }
    let count = bundle.threads.len() as u32;
    let quota = 2 * bundle.commands.len() as u32 + 1;
    let library = plan.library();
    let shelf = library.opening(alloc)?;
    let books = plan.books();
    let (shared, mine) = Shared::new(rt, alloc, count, rows, generations, quota, shelf)?;
    let (catalogs, readers) = SharedCatalogs::new(rt, alloc, count, rows, generations, quota)?;
    let workers = new_workers(alloc, mine, readers)?;
    let common = &Common {
        rt,
        alloc,
        library,
        books: &books,
        shared: &shared,
        catalogs: &catalogs,
        pause,
    };
    let (lines, seats) = all_rounds(common, bundle, workers)?;
    shared.close(List::of(seats));
    Ok(List::of(lines))
}

/// Workers before their first command, by their numbers.
fn new_workers(
    alloc: Global,
    all: List<Mine<Share>>,
    readers: List<Reader<BookShare>>,
) -> Result<Vec<Worker>, AllocError>
    requires few { length all ≤ 16 }
    requires many { length readers ≡ length all }
    ensures length { IfOk result (λ workers. length workers.items ≡ length all) }
    ensures first { IfOk result (λ workers. Each workers.items (λ i w. IsFirst all readers i w)) }
{
    let mut workers = Vec::new(alloc);
    let mut left = readers.into_vec().into_iter();
    for mine in all.into_vec() {
        let Some(reader) = left.next() else {
            unreachable!()
        };
        let number = workers.len() as u32;
        workers.push(Worker::new(alloc, Seated::new(alloc, number, mine, reader)))?;
    }
    Ok(workers)
}

/// The lines of all rounds and of what closes the threads, and their seats.
fn all_rounds<R: Threads + Wait + Sync, P: Pause + Sync>(
    common: &Common<'_, R, P>,
    bundle: &Bundle,
    mut workers: Vec<Worker>,
) -> Result<(Vec<OutLine>, Seats), AllocError>
    requires sound { IsSound (plan_of bundle.now common.now) }
    requires terms { IsFor (plan_of bundle.now common.now) common.now.shared.now.terms }
    requires asked { IsForAsked common.now.shared.now.terms common.now.catalogs.now.terms }
    requires catalogs { common.now.books.now.blocks ≡ bundle.now.catalogs }
    requires begun { AreBetween (gates_of common.now) (plan_of bundle.now common.now) 0 [] workers.items }
    ensures { IfOk result (λ r. AreClosing (gates_of common.now) (plan_of bundle.now common.now) r.1.items [] r.0.items) }
{
    let mut lines = Vec::new(common.alloc);
    for i in 0..bundle.rounds {
        let turns = round_turns(common.alloc, bundle, i + 1)?;
        side_by_side(common, workers.as_mut_slice(), turns.as_slice());
        gather(&mut lines, workers.as_mut_slice())?;
        meet_all(common.shared, common.catalogs, &mut workers);
    }
    let seats = close_all(common, bundle, &mut lines, workers)?;
    Ok((lines, seats))
}

/// Lets all workers work on their turns among these, each in a thread of its own.
fn side_by_side<R: Threads + Wait + Sync, P: Pause + Sync>(
    common: &Common<'_, R, P>,
    workers: &mut [Worker],
    turns: &[Turn<'_>],
)
    requires { Each workers.old (λ i w. MayWork (gates_of common.now) (texts_of common.now) (map turn_seen turns.now) w) }
    ensures { EachTwo workers.old workers.new (λ i old new. HasWorked (gates_of common.now) (texts_of common.now) (map turn_seen turns.now) old new) }
{
    let work = |_: usize, worker: &mut Worker|
        requires { MayWork (gates_of common.now) (texts_of common.now) (map turn_seen turns.now) worker.old }
        ensures { HasWorked (gates_of common.entry.now) (texts_of common.entry.now) (map turn_seen turns.entry.now) worker.old worker.new }
    { worker.work(common, turns) };
    for_each_beside(common.rt, workers, &work);
}

/// Takes the lines of the round from the workers, in order of their numbers.
fn gather(lines: &mut Vec<OutLine>, workers: &mut [Worker]) -> Result<(), AllocError>
    ensures lines { OnOk result (lines.new.items ≡ lines.old.items ++ flat_map (λ w. w.lines.items) workers.old) }
    ensures given { OnOk result (EachTwo workers.old workers.new (λ i old new. HasGiven old new)) }
{
    for worker in workers {
        worker.outcome?;
        lines.append(&mut worker.lines)?;
    }
    Ok(())
}

/// Afterwards each worker has seen what any has seen: the last one meets each other, and then each
/// once more.
fn meet_all(shared: &Shared<Share>, catalogs: &SharedCatalogs<BookShare>, workers: &mut Vec<Worker>)
    requires threads { Each workers.old.items (λ i w. IsOfBoth (gates shared.now catalogs.now) w) }
    requires some { 0 < length workers.old.items }
    requires in_order { Each workers.old.items (λ i w. IsOrderly (gates shared.now catalogs.now) w) }
    ensures length { length workers.new.items ≡ length workers.old.items }
    ensures met { AllMet (gates shared.now catalogs.now) workers.old.items workers.new.items }
{
    if let Some(mut one) = workers.pop() {
        meet_each(shared, catalogs, &mut one, workers.as_mut_slice());
        meet_each(shared, catalogs, &mut one, workers.as_mut_slice());
        workers.push_reserved(one);
    }
}

/// Lets a worker meet each other one, in order.
fn meet_each(
    shared: &Shared<Share>,
    catalogs: &SharedCatalogs<BookShare>,
    first: &mut Worker,
    others: &mut [Worker],
)
    requires first { IsOfBoth (gates shared.now catalogs.now) first.old }
    requires threads { Each others.old (λ i w. IsOfBoth (gates shared.now catalogs.now) w) }
    ensures first { SeesMore (gates shared.now catalogs.now) first.old first.new }
    ensures others { EachTwo others.old others.new (λ i old new. HasMetWorker (gates shared.now catalogs.now) first.old old new) }
    ensures seen { Each others.old (λ i w. HasSeenOf w first.new) }
{
    for other in others {
        meet_both(
            shared,
            catalogs,
            &mut first.thread.side,
            &mut other.thread.side,
        );
    }
}

/// Afterwards each of two threads has seen what either had seen, of the table and of the catalogs.
fn meet_both(
    shared: &Shared<Share>,
    catalogs: &SharedCatalogs<BookShare>,
    one: &mut Seated,
    two: &mut Seated,
)
    requires one { IsThreadOf shared.now one.old.mine × readers.IsReaderOf catalogs.now one.old.reader }
    requires two { IsThreadOf shared.now two.old.mine × readers.IsReaderOf catalogs.now two.old.reader }
    ensures same_one { one.new ≡ record one.old { mine = one.new.mine; reader = one.new.reader } }
    ensures same_two { two.new ≡ record two.old { mine = two.new.mine; reader = two.new.reader } }
    ensures saw_one { SawMore one.old.mine one.new.mine × GoesOnFrom one.new.mine.seen two.old.mine.seen }
    ensures saw_two { SawMore two.old.mine two.new.mine × GoesOnFrom two.new.mine.seen one.old.mine.seen }
    ensures order_one { IsInOrder shared.now.terms one.new.mine }
    ensures order_two { IsInOrder shared.now.terms two.new.mine }
    ensures asked_one { readers.SawMore one.old.reader one.new.reader × readers.GoesOnFrom one.new.reader.seen two.old.reader.seen }
    ensures asked_two { readers.SawMore two.old.reader two.new.reader × readers.GoesOnFrom two.new.reader.seen one.old.reader.seen }
    ensures asked_order_one { readers.IsInOrder catalogs.now.terms one.new.reader }
    ensures asked_order_two { readers.IsInOrder catalogs.now.terms two.new.reader }
{
    shared.meet(&mut one.mine, &mut two.mine);
    catalogs.meet(&mut one.reader, &mut two.reader);
}

/// Adds the lines that close the threads, in order of their numbers. Each thread has seen the end of the
/// one before it.
fn close_all<R: Threads + Wait + Sync, P: Pause + Sync>(
    common: &Common<'_, R, P>,
    bundle: &Bundle,
    lines: &mut Vec<OutLine>,
    workers: Vec<Worker>,
) -> Result<Seats, AllocError>
    requires sound { IsSound (plan_of bundle.now common.now) }
    requires terms { IsFor (plan_of bundle.now common.now) common.now.shared.now.terms }
    requires asked { IsForAsked common.now.shared.now.terms common.now.catalogs.now.terms }
    requires catalogs { common.now.books.now.blocks ≡ bundle.now.catalogs }
    requires between { AreBetween (gates_of common.now) (plan_of bundle.now common.now) bundle.now.rounds lines.old.items workers.items }
    ensures { IfOk result (λ seats. AreClosing (gates_of common.now) (plan_of bundle.now common.now) seats.items [] lines.new.items) }
{
    let mut seats = Vec::new(common.alloc);
    for mut worker in workers {
        meet_last(common.shared, seats.as_mut_slice(), &mut worker.thread);
        let (mut closing, seat) = worker.close(common, bundle.rounds + 1)?;
        lines.append(&mut closing)?;
        seats.push(seat)?;
    }
    Ok(seats)
}

/// Afterwards a thread has seen what the last of these seats had seen.
fn meet_last(
    shared: &Shared<Share>,
    seats: &mut [Seat<Locales<Share>>],
    thread: &mut Thread<Seated>,
)
    requires seats { Each seats.old (λ i seat. IsSeatOf shared.now seat) }
    requires thread { IsThreadOf shared.now thread.old.side.mine }
    ensures thread { thread.new ≡ record thread.old { side = record thread.old.side { mine = thread.new.side.mine } } }
    ensures saw { SawMore thread.old.side.mine thread.new.side.mine }
    ensures in_order { IsInOrder shared.now.terms thread.old.side.mine → IsInOrder shared.now.terms thread.new.side.mine }
    ensures seats { EachTwo seats.old seats.new (λ i old new. SeatSeesMore shared.now old new) }
    ensures last { Each seats.old (λ i seat. i + 1 ≡ length seats.old → GoesOnFrom thread.new.side.mine.seen (thread_of 0 seat).seen) }
{
    let count = seats.len();
    if count > 0 {
        shared.meet_ended(&mut seats[count - 1], &mut thread.side.mine);
    }
}
