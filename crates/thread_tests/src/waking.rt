//! The test that a release wakes those who sleep.
ghost use Rattle.std.specs.Prelude.{◌≡◌, ◌<◌, length, IfOk, map};
ghost use Rattle.std.specs.List.{range_with_len};
ghost use Rattle.turn_gate.specs.Callers.{IsSeatOf, first_caller};
ghost use Rattle.thread_tests.specs.Back.{AreBack};
ghost use Rattle.thread_tests.specs.declared.waking.TheConstants.{CALLERS};

use crate::watch::{Calls, Watch};
use lc_base::List;
use std::alloc::{AllocError, Global};
use std::sync::atomic::{AtomicU64, Ordering};
use std::sync::{Arc, Wait};
use std::test::Fail;
use std::thread;
use std::thread::{Threads, map_vec};
use std::time::Duration;
use turn_gate::{Machine, Seat, Turns};

/// How many callers there are.
const CALLERS: u32 = 4;

/// How long the first call holds the turn after all have come, in milliseconds.
const HOLD: u64 = 200;

/// A counter of calls. The first call holds the turn until all callers have come and had time to
/// fall asleep.
#[derive(Drop)]
struct Holder {
    clock: HostRuntime,
    came: Arc<AtomicU64, Global>,
    calls: u32,
}

impl Machine for Holder {
    ghost use Rattle.std.specs.Prelude.{◌≡◌, ◌<◌, length};
    ghost use Rattle.thread_tests.specs.declared.waking.TheConstants.{CALLERS};

    type Op = ();

    type Reply = ();

    type Query = ();

    type Found = ();

    type Setting = ();

    ghost setting = { λ _. tt };

    ghost room = { λ _. 2147483647 };

    ghost stands = { λ m H. m.calls ≡ length H };

    ghost legal = { λ _ _. Unit {0} };

    ghost may = { λ _ who _. who < CALLERS };

    ghost answer = { λ _ _ _. tt };

    ghost version_of = { λ _. 0 };

    fn step(&mut self, _who: u32, _op: ()) {
        if self.calls == 0 {
            hold(self.clock, &self.came);
        }
        self.calls += 1;
    }

    fn ask(&self, _query: &()) {}

    fn version(&self) -> u32 {
        0
    }
}

// Waits until all callers have come, and then for as long as they need to fall asleep.
fn hold(clock: HostRuntime, came: &AtomicU64) {
    for _ in 0..u64::MAX {
        if came.load(Ordering::SeqCst) == u64::from(CALLERS) {
            break;
        }
        thread::yield_now();
    }
    thread::sleep(&clock, Duration::from_millis(HOLD));
}

type Caller = Seat<Holder>;

// One call of the caller.
fn call<R: Wait>(
    rt: &R,
    turns: &Turns<Holder>,
    came: &AtomicU64,
    calls: &Calls,
    mut seat: Caller,
) -> Caller
    requires seat { IsSeatOf turns.now seat × (seat.number < CALLERS) }
    requires quota { length seat.own < turns.now.terms.quota }
    ensures { IsSeatOf turns.now result × (result.number ≡ seat.number) }
{
    came.fetch_add(1, Ordering::SeqCst);
    turns.turn(rt, &mut seat, ());
    calls.count();
    seat
}

// One call of each of four callers, in threads of their own.
fn call_all<R: Threads + Wait + Sync>(
    rt: &R,
    turns: &Turns<Holder>,
    came: &AtomicU64,
    calls: &Calls,
    seats: List<Caller>,
) -> Result<List<Caller>, AllocError>
    requires seats { seats ≡ map (first_caller turns.now) (range_with_len 0 4) }
    requires terms { (turns.now.terms.seats ≡ 4) × (turns.now.terms.quota ≡ 1) }
    ensures { IfOk result (AreBack turns.now) }
{
    let back = map_vec(
        rt,
        seats.into_vec(),
        &|seat: Caller| -> Caller
            requires { IsSeatOf turns.now seat × (seat.number < CALLERS) × (length seat.own < turns.now.terms.quota) }
            ensures { IsSeatOf turns.entry.now result × (result.number ≡ seat.number) }
        { call(rt, turns, came, calls, seat) },
    )?;
    Ok(List::of(back))
}

/// Callers that fell asleep while another had the turn are woken, one after the other.
#[test]
fn sleepers_are_woken(rt: HostRuntime) -> Result<(), Fail> {
    let came = Arc::new(rt.alloc(), AtomicU64::new(0))?;
    let holder = Holder {
        clock: rt,
        came: Arc::try_clone(&came)?,
        calls: 0,
    };
    let (turns, seats) = Turns::new(&rt, rt.alloc(), holder, CALLERS, 1)?;
    let watch = Watch::start(rt, rt.alloc(), "a release wakes a caller that sleeps");
    let seats = call_all(&rt, &turns, &came, watch.calls(), seats);
    watch.end(&rt);
    let holder = turns.close(seats?);
    assert_eq!(rt; holder.calls, CALLERS);
    Ok(())
}
