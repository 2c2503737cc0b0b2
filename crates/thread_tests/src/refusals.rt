//! Tests of two threads that one thread calls for: the cached global object, and each refusal.
ghost use Rattle.std.specs.Prelude.{◌≡◌, ℕ, ◌+◌, ◌<◌, ◌≤◌, length, IfOk, map};
ghost use Rattle.std.specs.List.{range_with_len};
ghost use Rattle.thread_current.specs.Thread.{IsThreadOf, first_thread};
ghost use Rattle.thread_tests.specs.Rounds.{MayMake};

use crate::threads::{Number, shelf};
use crate::watch::{EACH_CALL_ENDS, Watch};
use handle_table::Refusal;
use lc_base::{Category, Handle, List, Mask, Named};
use mask_compose::Object;
use std::alloc::{AllocError, Global};
use std::process::Abort;
use std::sync::Wait;
use std::test::Fail;
use thread_current::{Fault, Mine, Shared};

type TwoThreads = (Shared<Number>, Mine<Number>, Mine<Number>);

// The two threads before their first calls.
#[tactic(auto, using(crate::proofs::Rounds::starts))]
fn two_of(shared: &Shared<Number>, threads: List<Mine<Number>>) -> (Mine<Number>, Mine<Number>)
    requires threads { threads ≡ map (first_thread shared.now) (range_with_len 0 2) }
    requires quota { 120 ≤ shared.now.terms.quota }
    ensures first { MayMake shared.now 120 result.0 }
    ensures second { MayMake shared.now 120 result.1 }
{
    let mut all = threads.into_vec();
    let (Some(second), Some(first)) = (all.pop(), all.pop()) else {
        unreachable!()
    };
    (first, second)
}

// A version, and the number of its object's character classes.
fn numbers(read: (u32, Object<Number>)) -> (u32, u32) {
    (read.0, read.1.part(Category::Ctype).0)
}

// Why a call is refused.
fn refusal_in<T: Drop>(said: Result<T, Fault>) -> Option<Refusal> {
    match said {
        Ok(_) => None,
        Err(fault) => Some(fault.refusal),
    }
}

// Why a hold is refused, and a second one after it; the first is released.
fn held_twice<R: Wait>(
    rt: &R,
    shared: &Shared<Number>,
    mine: &mut Mine<Number>,
    h: Named,
) -> (Option<Refusal>, Option<Refusal>)
    requires { MayMake shared.now 3 mine.old }
    ensures { (n : ℕ) → MayMake shared.now (n + 3) mine.old → MayMake shared.now n mine.new }
{
    let first = shared.hold(rt, mine, h);
    match first {
        Err(fault) => (Some(fault.refusal), None),
        Ok((_place, held)) => {
            let second = shared.hold(rt, mine, h);
            shared.release(rt, mine, held);
            (None, refusal_in(second))
        }
    }
}

/// A call of a thread that holds nothing.
#[derive(Clone, Copy)]
enum Call {
    /// Makes an object from a base.
    New(Option<Named>),
    /// Makes an object by a name that has numbers alone.
    NewByNumbers,
    Dup(Named),
    Free(Named),
    Use(Named),
    /// Sets the global locale by a name that has numbers alone.
    SetByNumbers,
    Hold(Named),
    /// Holds again what it holds.
    HoldAgain(Named),
    Release(Named),
    Post(Named),
    /// Looks into a cell of the first thread.
    Fetch,
    Pins(Named),
}

// Why the call is refused.
fn refusal<R: Wait>(
    rt: &R,
    shared: &Shared<Number>,
    mine: &mut Mine<Number>,
    call: Call,
) -> Option<Refusal>
    requires may { MayMake shared.now 3 mine.old }
    requires shelf { length shared.now.terms.setting.opening ≡ 3 }
    requires threads { shared.now.terms.setting.threads ≡ 2 }
    ensures { (n : ℕ) → MayMake shared.now (n + 3) mine.old → MayMake shared.now n mine.new }
{
    let all = Mask::all();
    match call {
        Call::New(base) => refusal_in(shared.newlocale(rt, mine, all, [1, 1, 1, 1, 1], base)),
        Call::NewByNumbers => refusal_in(shared.newlocale(rt, mine, all, [2, 2, 2, 2, 2], None)),
        Call::Dup(from) => refusal_in(shared.duplocale(rt, mine, from)),
        Call::Free(h) => refusal_in(shared.freelocale(rt, mine, h)),
        Call::Use(to) => refusal_in(shared.uselocale(rt, mine, to)),
        Call::SetByNumbers => refusal_in(shared.setlocale(rt, mine, all, [2, 2, 2, 2, 2])),
        Call::Hold(h) => held_twice(rt, shared, mine, h).0,
        Call::HoldAgain(h) => held_twice(rt, shared, mine, h).1,
        Call::Release(h) => Some(shared.release_unheld(rt, mine, h).1),
        Call::Post(h) => refusal_in(shared.post(rt, mine, 3, h)),
        Call::Fetch => refusal_in(shared.fetch(rt, mine, 0, 3)),
        Call::Pins(h) => refusal_in(shared.pins(rt, mine, h)),
    }
}

type RefusedCall = (Call, Option<Refusal>);

// Makes the calls of the rows, each of which is refused so.
fn check_rows<R: Wait + Abort>(
    rt: &R,
    shared: &Shared<Number>,
    mine: &mut Mine<Number>,
    rows: &[RefusedCall],
)
    requires may { MayMake shared.now 120 mine.old }
    requires few { length rows.now ≤ 40 }
    requires shelf { length shared.now.terms.setting.opening ≡ 3 }
    requires threads { shared.now.terms.setting.threads ≡ 2 }
{
    for i in 0..rows.len() {
        let (call, wanted) = rows[i];
        let why = refusal(rt, shared, mine, call);
        assert_eq!(rt; why, wanted, "row {i}");
    }
}

// A table of three names, the last with numbers alone, and its two threads.
fn two_threads<R: Wait>(rt: &R, alloc: Global) -> Result<TwoThreads, AllocError>
    ensures first { IfOk result (λ r. MayMake r.0 120 r.1) }
    ensures second { IfOk result (λ r. MayMake r.0 120 r.2) }
    ensures shelf { IfOk result (λ r. length r.0.terms.setting.opening ≡ 3) }
    ensures threads { IfOk result (λ r. r.0.terms.setting.threads ≡ 2) }
{
    let names = shelf(alloc, Mask::one(Category::Numeric))?;
    let (shared, threads) = Shared::new(rt, alloc, 2, 1, 4, 120, names)?;
    let (first, second) = two_of(&shared, threads);
    Ok((shared, first, second))
}

// What the thread has read of the global locale, where no later version was seen.
#[tactic(auto, using(crate::proofs::Rounds::made_none))]
fn cached(shared: &Shared<Number>, mine: &mut Mine<Number>) -> Option<(u32, u32)>
    requires { IsThreadOf shared.now mine.old }
    ensures { (n : ℕ) → MayMake shared.now n mine.old → MayMake shared.now n mine.new }
{
    shared.cached(mine).map(numbers)
}

// What the thread reads of the global locale.
#[tactic(auto, using(crate::proofs::Rounds::made_none))]
fn current<R: Wait>(rt: &R, shared: &Shared<Number>, mine: &mut Mine<Number>) -> (Option<u32>, u32)
    requires { IsThreadOf shared.now mine.old }
    ensures { (n : ℕ) → MayMake shared.now n mine.old → MayMake shared.now n mine.new }
{
    let (version, object) = shared.current(rt, mine);
    (version, object.part(Category::Ctype).0)
}

// Sets the global locale to the second name.
#[tactic(auto, using(crate::proofs::Rounds::made_one))]
fn set_second<R: Wait>(
    rt: &R,
    shared: &Shared<Number>,
    mine: &mut Mine<Number>,
) -> Result<(u64, u32), Fault>
    requires may { MayMake shared.now 1 mine.old }
    requires shelf { length shared.now.terms.setting.opening ≡ 3 }
    ensures { (n : ℕ) → MayMake shared.now (n + 1) mine.old → MayMake shared.now n mine.new }
{
    shared.setlocale(rt, mine, Mask::all(), [1; 5])
}

// Each of the two threads sees what the other has seen.
#[tactic(auto, using(crate::proofs::Rounds::made_none))]
fn meet(shared: &Shared<Number>, a: &mut Mine<Number>, b: &mut Mine<Number>)
    requires a { IsThreadOf shared.now a.old }
    requires b { IsThreadOf shared.now b.old }
    ensures a { (n : ℕ) → MayMake shared.now n a.old → MayMake shared.now n a.new }
    ensures b { (n : ℕ) → MayMake shared.now n b.old → MayMake shared.now n b.new }
{
    shared.meet(a, b);
}

// The first thread reads the global locale before and after the second one sets it.
fn check_cached<R: Wait + Abort>(
    rt: &R,
    shared: &Shared<Number>,
    a: &mut Mine<Number>,
    b: &mut Mine<Number>,
)
    requires a { MayMake shared.now 120 a.old }
    requires b { MayMake shared.now 120 b.old }
    requires shelf { length shared.now.terms.setting.opening ≡ 3 }
{
    let first = cached(shared, a);
    let set = set_second(rt, shared, b);
    meet(shared, a, b);
    let late = cached(shared, a);
    let (version, number) = current(rt, shared, a);
    let last = cached(shared, a);
    let own = cached(shared, b);
    assert_eq!(rt;
        (first, late, last, own),
        (Some((0, 0)), None, Some((1, 1)), Some((1, 1)))
    );
    assert_eq!(rt; set, Ok((0, 1)));
    assert_eq!(rt; (version, number), (Some(1), 1));
}

/// A thread goes on with the global object that it read last until it has seen a later version.
#[test]
fn cached_pair(rt: HostRuntime) -> Result<(), Fail> {
    let (shared, mut a, mut b) = two_threads(&rt, rt.alloc())?;
    let watch = Watch::start(rt, rt.alloc(), EACH_CALL_ENDS);
    check_cached(&rt, &shared, &mut a, &mut b);
    watch.end(&rt);
    Ok(())
}

const FIRST: Named = Named::Of(Handle {
    owner: 0,
    row: 0,
    generation: 1,
});

const NEVER_MADE: Option<Refusal> = Some(Refusal::NeverMade);

const STALE: Option<Refusal> = Some(Refusal::Stale);

const GLOBAL: Option<Refusal> = Some(Refusal::GlobalHandle);

const NO_DATA: Option<Refusal> = Some(Refusal::NoData(Category::Ctype));

/// The calls of the first thread, which makes an object and frees it.
const FIRST_ROWS: [RefusedCall; 33] = [
    (Call::New(Some(FIRST)), NEVER_MADE),
    (Call::Dup(FIRST), NEVER_MADE),
    (Call::Free(FIRST), NEVER_MADE),
    (Call::Use(FIRST), NEVER_MADE),
    (Call::Hold(FIRST), NEVER_MADE),
    (Call::Release(FIRST), Some(Refusal::NotHeld)),
    (Call::Post(FIRST), NEVER_MADE),
    (Call::Fetch, Some(Refusal::EmptyCell)),
    (Call::Pins(FIRST), NEVER_MADE),
    (Call::New(Some(Named::Global)), GLOBAL),
    (Call::Dup(Named::Global), None),
    (Call::Free(Named::Global), GLOBAL),
    (Call::Use(Named::Global), None),
    (Call::Hold(Named::Global), GLOBAL),
    (Call::Release(Named::Global), GLOBAL),
    (Call::Post(Named::Global), GLOBAL),
    (Call::Pins(Named::Global), GLOBAL),
    (Call::NewByNumbers, NO_DATA),
    (Call::SetByNumbers, NO_DATA),
    (Call::New(None), Some(Refusal::TooMany)),
    (Call::Dup(FIRST), Some(Refusal::TooMany)),
    (Call::New(Some(FIRST)), None),
    (Call::Use(FIRST), None),
    (Call::Hold(FIRST), None),
    (Call::HoldAgain(FIRST), Some(Refusal::AlreadyHeld)),
    (Call::Release(FIRST), Some(Refusal::NotHeld)),
    (Call::Post(FIRST), None),
    (Call::Fetch, None),
    (Call::Pins(FIRST), None),
    (Call::Free(FIRST), None),
    (Call::Free(FIRST), STALE),
    (Call::Use(FIRST), STALE),
    (Call::Pins(FIRST), None),
];

/// The calls of the second thread behind them.
const SECOND_ROWS: [RefusedCall; 9] = [
    (Call::New(Some(FIRST)), STALE),
    (Call::Dup(FIRST), STALE),
    (Call::Free(FIRST), STALE),
    (Call::Use(FIRST), STALE),
    (Call::Hold(FIRST), STALE),
    (Call::Release(FIRST), Some(Refusal::NotHeld)),
    (Call::Post(FIRST), STALE),
    (Call::Fetch, None),
    (Call::Pins(FIRST), None),
];

/// Each call with each of its refusals.
#[test]
fn refusals(rt: HostRuntime) -> Result<(), Fail> {
    let (shared, mut first, mut second) = two_threads(&rt, rt.alloc())?;
    let watch = Watch::start(rt, rt.alloc(), EACH_CALL_ENDS);
    check_rows(&rt, &shared, &mut first, &FIRST_ROWS);
    check_rows(&rt, &shared, &mut second, &SECOND_ROWS);
    watch.end(&rt);
    Ok(())
}
