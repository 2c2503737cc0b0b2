//! Tests of threads that run concurrently.
ghost use Rattle.std.specs.Prelude.{◌≡◌, ℕ, ◌+◌, ◌*◌, ◌<◌, ◌≤◌, length, IfOk, map};
ghost use Rattle.std.specs.List.{range_with_len};
ghost use Rattle.turn_gate.specs.Callers.{IsSeatOf};
ghost use Rattle.handle_table.specs.Table.{IsOpening};
ghost use Rattle.thread_tests.specs.declared.threads.TheConstants.{ENTRIES};
ghost use Rattle.thread_current.specs.Thread.{IsThreadOf, first_thread};
ghost use Rattle.thread_tests.specs.Back.{AreBack};
ghost use Rattle.thread_tests.specs.Rounds.{MayMake};

use crate::watch::{Calls, EACH_CALL_ENDS, Watch};
use lc_base::{CATEGORIES, List, Mask, Named};
use mask_compose::{Object, Offer, Part};
use std::alloc::{AllocError, Global};
use std::sync::Wait;
use std::sync::atomic::{AtomicU64, Ordering};
use std::test::Fail;
use std::thread::{Threads, map_vec};
use thread_current::{Locales, Mine, Shared};
use turn_gate::Seat;

/// How many objects each thread makes.
const MAKES: u32 = 5000;

/// How often the global locale is set.
const SETS: u32 = 1000;

/// How many entries a maker makes: four for each object, and its end.
const ENTRIES: u32 = 4 * MAKES + 1;

/// A part that is its number.
#[derive(Clone, Copy)]
pub(crate) struct Number(pub(crate) u32);

impl Part for Number {
    ghost use Rattle.std.specs.Prelude.{};

    ghost number = { λ n. n.0 };

    fn share(&self) -> Number {
        *self
    }
}

// The object whose parts are all this number.
fn all_of(number: u32) -> Object<Number> {
    Object::of(
        Number(number),
        Number(number),
        Number(number),
        Number(number),
        Number(number),
    )
}

// Whether all parts of the object are this number.
fn is_all_of(object: &Object<Number>, number: u32) -> bool {
    CATEGORIES
        .iter()
        .all(|category| object.part(*category).0 == number)
}

// What a name stands for that has this number in these categories.
fn offered(number: u32, available: Mask) -> Offer<Number>
    ensures { result.available ≡ available }
{
    Offer {
        object: all_of(number),
        available,
    }
}

// A shelf of three names, with the numbers 0, 1 and 2, the last with these categories.
pub(crate) fn shelf(alloc: Global, last: Mask) -> Result<List<Offer<Number>>, AllocError>
    ensures opening { IfOk result IsOpening }
    ensures three { IfOk result (λ offers. length offers ≡ 3) }
{
    let mut offers = Vec::with_capacity(alloc, 3)?;
    offers.push_reserved(offered(0, Mask::all()));
    offers.push_reserved(offered(1, Mask::all()));
    offers.push_reserved(offered(2, last));
    Ok(List::of(offers))
}

// The number of all parts of the global object after so many changes.
fn number_of(version: u32) -> u32 {
    if version == 0 { 0 } else { 1 + version % 2 }
}

// Makes an object of this number. Gives the global locale where that is refused.
#[tactic(auto, using(crate::proofs::Rounds::made_one))]
fn make<R: Wait>(rt: &R, shared: &Shared<Number>, mine: &mut Mine<Number>, number: u32) -> Named
    requires may { MayMake shared.now 1 mine.old }
    requires number { number < length shared.now.terms.setting.opening }
    ensures may { (n : ℕ) → MayMake shared.now (n + 1) mine.old → MayMake shared.now n mine.new }
    ensures same { mine.new.number ≡ mine.old.number }
{
    let names = [number, number, number, number, number];
    match shared.newlocale(rt, mine, Mask::all(), names, None) {
        Ok((_place, handle)) => Named::Of(handle),
        Err(_) => Named::Global,
    }
}

// Whether what is named was selected.
#[tactic(auto, using(crate::proofs::Rounds::made_one))]
fn select<R: Wait>(rt: &R, shared: &Shared<Number>, mine: &mut Mine<Number>, named: Named) -> bool
    requires { MayMake shared.now 1 mine.old }
    ensures may { (n : ℕ) → MayMake shared.now (n + 1) mine.old → MayMake shared.now n mine.new }
    ensures same { mine.new.number ≡ mine.old.number }
{
    shared.uselocale(rt, mine, named).is_ok()
}

// Whether the object was freed.
#[tactic(auto, using(crate::proofs::Rounds::made_one))]
fn free<R: Wait>(rt: &R, shared: &Shared<Number>, mine: &mut Mine<Number>, named: Named) -> bool
    requires { MayMake shared.now 1 mine.old }
    ensures may { (n : ℕ) → MayMake shared.now (n + 1) mine.old → MayMake shared.now n mine.new }
    ensures same { mine.new.number ≡ mine.old.number }
{
    shared.freelocale(rt, mine, named).is_ok()
}

// Whether the thread's own object has this number in all parts.
fn reads(mine: &Mine<Number>, number: u32) -> bool {
    match mine.own() {
        Some(object) => is_all_of(object, number),
        None => false,
    }
}

// Makes an object, selects it, frees it, reads it, and lets it go. Whether all that went well.
fn round<R: Wait>(rt: &R, shared: &Shared<Number>, mine: &mut Mine<Number>, number: u32) -> bool
    requires may { MayMake shared.now 4 mine.old }
    requires number { number < length shared.now.terms.setting.opening }
    ensures may { (n : ℕ) → MayMake shared.now (n + 4) mine.old → MayMake shared.now n mine.new }
    ensures same { mine.new.number ≡ mine.old.number }
{
    let made = make(rt, shared, mine, number);
    let selected = select(rt, shared, mine, made);
    let freed = free(rt, shared, mine, made);
    let read = reads(mine, number);
    let back = select(rt, shared, mine, Named::Global);
    selected && freed && read && back
}

// Reads the current locale. Its version, and whether that is not below the one before and the
// object is the version's.
#[tactic(auto, using(crate::proofs::Rounds::made_none))]
fn read<R: Wait>(
    rt: &R,
    shared: &Shared<Number>,
    mine: &mut Mine<Number>,
    before: u32,
) -> (u32, bool)
    requires { IsThreadOf shared.now mine.old }
    ensures may { (n : ℕ) → MayMake shared.now n mine.old → MayMake shared.now n mine.new }
    ensures same { mine.new.number ≡ mine.old.number }
{
    let (version, object) = shared.current(rt, mine);
    let version = version.unwrap_or(0);
    let is_later = before <= version;
    (version, is_later && is_all_of(&object, number_of(version)))
}

// Makes all objects, and reads the global locale between them. Whether all that went well.
fn make_all<R: Wait>(
    rt: &R,
    shared: &Shared<Number>,
    mine: &mut Mine<Number>,
    calls: &Calls,
) -> bool
    requires may { MayMake shared.now ENTRIES mine.old }
    requires shelf { length shared.now.terms.setting.opening ≡ 3 }
    ensures may { MayMake shared.now 1 mine.new }
    ensures same { mine.new.number ≡ mine.old.number }
{
    let mut is_well = true;
    let mut version = 0;
    for i in 0..MAKES {
        let went = round(rt, shared, mine, 1 + i % 2);
        let (found, is_right) = read(rt, shared, mine, version);
        version = found;
        is_well = is_well && went && is_right;
        calls.count();
    }
    is_well
}

// Sets the global locale once. Whether this version came of it.
#[tactic(auto, using(crate::proofs::Rounds::made_one))]
fn set<R: Wait>(rt: &R, shared: &Shared<Number>, mine: &mut Mine<Number>, version: u32) -> bool
    requires may { MayMake shared.now 1 mine.old }
    requires shelf { length shared.now.terms.setting.opening ≡ 3 }
    ensures may { (n : ℕ) → MayMake shared.now (n + 1) mine.old → MayMake shared.now n mine.new }
    ensures same { mine.new.number ≡ mine.old.number }
{
    let name = 1 + version % 2;
    match shared.setlocale(rt, mine, Mask::all(), [name, name, name, name, name]) {
        Ok((_place, made)) => made == version,
        Err(_) => false,
    }
}

// Sets the global locale again and again. Whether each version came of it in turn.
fn set_all<R: Wait>(rt: &R, shared: &Shared<Number>, mine: &mut Mine<Number>, calls: &Calls) -> bool
    requires may { MayMake shared.now ENTRIES mine.old }
    requires shelf { length shared.now.terms.setting.opening ≡ 3 }
    ensures may { MayMake shared.now 1 mine.new }
    ensures same { mine.new.number ≡ mine.old.number }
{
    let mut is_well = true;
    for i in 0..SETS {
        let went = set(rt, shared, mine, i + 1);
        is_well = is_well && went;
        calls.count();
    }
    is_well
}

// Sets the global locale, or makes objects. Whether all that went well.
fn set_or_make<R: Wait>(
    rt: &R,
    shared: &Shared<Number>,
    mine: &mut Mine<Number>,
    sets: bool,
    calls: &Calls,
) -> bool
    requires may { MayMake shared.now ENTRIES mine.old }
    requires shelf { length shared.now.terms.setting.opening ≡ 3 }
    ensures may { MayMake shared.now 1 mine.new }
    ensures same { mine.new.number ≡ mine.old.number }
{
    if sets {
        set_all(rt, shared, mine, calls)
    } else {
        make_all(rt, shared, mine, calls)
    }
}

type Ended = Seat<Locales<Number>>;

// The thread ends, with its seat.
fn end<R: Wait>(rt: &R, shared: &Shared<Number>, mine: Mine<Number>) -> Ended
    requires { MayMake shared.now 1 mine }
    ensures { IsSeatOf shared.now result × (result.number ≡ mine.number) }
{
    let (_place, seat) = shared.end(rt, mine);
    seat
}

/// How many threads have come, and for how many all went well.
#[derive(Drop)]
struct Counts {
    came: AtomicU64,
    well: AtomicU64,
}

// The whole of a thread: the last one to come sets the global locale, and the others make objects.
fn work<R: Wait>(
    rt: &R,
    shared: &Shared<Number>,
    counts: &Counts,
    calls: &Calls,
    mut mine: Mine<Number>,
) -> Ended
    requires may { MayMake shared.now ENTRIES mine }
    requires shelf { length shared.now.terms.setting.opening ≡ 3 }
    ensures { IsSeatOf shared.now result × (result.number ≡ mine.number) }
{
    let is_last = counts.came.fetch_add(1, Ordering::SeqCst) == 4;
    if set_or_make(rt, shared, &mut mine, is_last, calls) {
        counts.well.fetch_add(1, Ordering::SeqCst);
    }
    end(rt, shared, mine)
}

// The work of five concurrent threads.
#[tactic(auto, using(crate::proofs::Rounds::starts))]
fn five_threads<R: Threads + Wait + Sync>(
    rt: &R,
    shared: &Shared<Number>,
    counts: &Counts,
    calls: &Calls,
    threads: List<Mine<Number>>,
) -> Result<List<Ended>, AllocError>
    requires threads { threads ≡ map (first_thread shared.now) (range_with_len 0 5) }
    requires terms { (shared.now.terms.seats ≡ 5) × (shared.now.terms.quota ≡ ENTRIES) }
    requires shelf { length shared.now.terms.setting.opening ≡ 3 }
    ensures { IfOk result (AreBack shared.now) }
{
    let back = map_vec(
        rt,
        threads.into_vec(),
        &|mine: Mine<Number>| -> Ended
            requires { MayMake shared.now ENTRIES mine × (length shared.now.terms.setting.opening ≡ 3) }
            ensures { IsSeatOf shared.entry.now result × (result.number ≡ mine.number) }
        { work(rt, shared, counts, calls, mine) },
    )?;
    Ok(List::of(back))
}

/// Four threads that each make, use, free and read 5000 objects of their own in one row, while a
/// fifth sets the global locale 1000 times: what each reads of its own object never changes, what it
/// reads of the global locale never goes back, and no row and no entry is lost.
#[test]
fn five_threads_at_one_table(rt: HostRuntime) -> Result<(), Fail> {
    let alloc = rt.alloc();
    let names = shelf(alloc, Mask::all())?;
    let (shared, threads) = Shared::new(&rt, alloc, 5, 1, MAKES, ENTRIES, names)?;
    let counts = Counts {
        came: AtomicU64::new(0),
        well: AtomicU64::new(0),
    };
    let watch = Watch::start(rt, alloc, EACH_CALL_ENDS);
    let ended = five_threads(&rt, &shared, &counts, watch.calls(), threads);
    watch.end(&rt);
    let table = shared.close(ended?);
    assert_eq!(rt; counts.well.load(Ordering::SeqCst), 5);
    assert_eq!(rt; table.steps(), 4 * ENTRIES + SETS + 1);
    assert!(rt; table.global().version() == SETS && is_all_of(table.global().peek(), 1));
    Ok(())
}
