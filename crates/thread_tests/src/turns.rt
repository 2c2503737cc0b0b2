//! Tests of the turn, at a register that four threads write to.
ghost use Rattle.std.specs.Prelude.{◌≡◌, ℕ, ◌+◌, ◌<◌, ◌≤◌, [], ◌∷◌, length, IfOk};
ghost use Rattle.std.specs.Prelude.{map};
ghost use Rattle.std.specs.List.{range_with_len};
ghost use Rattle.turn_gate.specs.Callers.{IsSeatOf, first_caller};
ghost use Rattle.thread_tests.specs.Back.{AreBack};

use crate::watch::{Calls, EACH_CALL_ENDS, Watch};
use lc_base::List;
use std::alloc::{AllocError, Global};
use std::sync::Wait;
use std::sync::atomic::{AtomicU64, Ordering};
use std::test::Fail;
use std::thread::{Threads, join, map_vec};
use turn_gate::{Machine, Seat, Turns};

/// A register, whose calls write a number and reply with the one before. Its version counts the
/// calls that changed it.
#[derive(Drop)]
struct Register {
    number: u32,
    changes: u32,
    calls: u32,
    callers: u32,
}

impl Machine for Register {
    ghost use Rattle.std.specs.Prelude.{◌<◌};
    ghost use Rattle.turn_gate.specs.Register.{value, changes, RegisterStands, IsLegalRegister};

    type Op = u32;

    type Reply = u32;

    type Query = ();

    type Found = u32;

    type Setting = u32;

    ghost setting = { λ m. m.callers };

    ghost room = { λ _. 2147483647 };

    ghost stands = { λ m H. RegisterStands m.number m.changes m.calls H };

    ghost legal = { λ _ H. IsLegalRegister H };

    ghost may = { λ callers who _. who < callers };

    ghost answer = { λ _ _ H. value H };

    ghost version_of = { changes };

    fn step(&mut self, _who: u32, op: u32) -> u32 {
        let former = self.number;
        if op != former {
            self.changes += 1;
        }
        self.number = op;
        self.calls += 1;
        former
    }

    fn ask(&self, _query: &()) -> u32 {
        self.number
    }

    fn version(&self) -> u32 {
        self.changes
    }
}

fn empty_register(callers: u32) -> Register
    ensures setting { result.callers ≡ callers }
    ensures stands { (result.number ≡ 0) × (result.changes ≡ 0) × (result.calls ≡ 0) }
{
    Register {
        number: 0,
        changes: 0,
        calls: 0,
        callers,
    }
}

type Caller = Seat<Register>;

// Writes the numbers from 1 on, and counts each call at the mark of its place.
fn write_all<R: Wait>(
    rt: &R,
    turns: &Turns<Register>,
    mut seat: Caller,
    count: u32,
    marks: &[AtomicU64],
    calls: &Calls,
) -> Caller
    requires seat { IsSeatOf turns.now seat }
    requires may { seat.number < turns.now.terms.setting }
    requires quota { length seat.own + count ≤ turns.now.terms.quota }
    ensures { IsSeatOf turns.now result × (result.number ≡ seat.number) }
{
    for number in 0..count {
        let (place, _former) = turns.turn(rt, &mut seat, number + 1);
        mark(marks, place);
        calls.count();
    }
    seat
}

// Counts a call at the mark of its place.
fn mark(marks: &[AtomicU64], place: u64) {
    if let Some(mark) = marks.get(place as usize) {
        mark.fetch_add(1, Ordering::SeqCst);
    }
}

// Looks again and again. True if no version was lower than the one before.
fn look_all(turns: &Turns<Register>, mut seat: Caller, count: u32) -> (Caller, bool)
    requires { IsSeatOf turns.now seat }
    ensures { IsSeatOf turns.now result.0 × (result.0.number ≡ seat.number) }
{
    let mut version = 0;
    let mut rises = true;
    for _ in 0..count {
        let found = turns.look(&mut seat);
        rises = rises && version <= found;
        version = found;
    }
    (seat, rises)
}

// The last two seats.
fn two_of(turns: &Turns<Register>, seats: List<Caller>) -> (Caller, Caller)
    requires { seats ≡ map (first_caller turns.now) (range_with_len 0 2) }
    ensures { (result.0 ≡ first_caller turns.now 0) × (result.1 ≡ first_caller turns.now 1) }
{
    let mut all = seats.into_vec();
    let Some(second) = all.pop() else {
        unreachable!()
    };
    let Some(first) = all.pop() else {
        unreachable!()
    };
    (first, second)
}

// Closes two seats, and gives the register.
fn close_two(
    alloc: Global,
    turns: Turns<Register>,
    first: Caller,
    second: Caller,
) -> Result<Register, AllocError>
    requires seats { IsSeatOf turns first × IsSeatOf turns second }
    requires numbers { (turns.terms.seats ≡ 2) × (first.number ≡ 0) × (second.number ≡ 1) }
{
    let mut all = Vec::with_capacity(alloc, 2)?;
    all.push_reserved(first);
    all.push_reserved(second);
    Ok(turns.close(List::of(all)))
}

// Writes two numbers, and gives the places.
fn write_two<R: Wait>(
    rt: &R,
    turns: &Turns<Register>,
    seat: &mut Caller,
    numbers: [u32; 2],
) -> [u64; 2]
    requires seat { IsSeatOf turns.now seat.old }
    requires may { seat.old.number < turns.now.terms.setting }
    requires quota { length seat.old.own + 2 ≤ turns.now.terms.quota }
    ensures { IsSeatOf turns.now seat.new × (seat.new.number ≡ seat.old.number) }
{
    let [one, two] = numbers;
    let (first, _) = turns.turn(rt, seat, one);
    let (second, _) = turns.turn(rt, seat, two);
    [first, second]
}

// What both look up after they met.
fn versions_of_both(turns: &Turns<Register>, first: &mut Caller, second: &mut Caller) -> (u32, u32)
    requires { IsSeatOf turns.now first.old × IsSeatOf turns.now second.old }
    ensures first { IsSeatOf turns.now first.new × (first.new.number ≡ first.old.number) }
    ensures second { IsSeatOf turns.now second.new × (second.new.number ≡ second.old.number) }
{
    turns.meet(first, second);
    (turns.look(first), turns.look(second))
}

// The version and the number, by a turn.
fn peek<R: Wait>(rt: &R, turns: &Turns<Register>, seat: &mut Caller) -> (u32, u32)
    requires { IsSeatOf turns.now seat.old }
    ensures { IsSeatOf turns.now seat.new × (seat.new.number ≡ seat.old.number) }
{
    turns.peek(rt, seat, &())
}

/// Two seats with a quota of 2 make two calls each; both then see the version after all four, and
/// the register that comes back has made them.
#[test]
fn quotas(rt: HostRuntime) -> Result<(), Fail> {
    let (turns, seats) = Turns::new(&rt, rt.alloc(), empty_register(2), 2, 2)?;
    let (mut first, mut second) = two_of(&turns, seats);
    let watch = Watch::start(rt, rt.alloc(), EACH_CALL_ENDS);
    let places = (
        write_two(&rt, &turns, &mut first, [7, 7]),
        write_two(&rt, &turns, &mut second, [8, 9]),
    );
    let versions = versions_of_both(&turns, &mut first, &mut second);
    let peeked = peek(&rt, &turns, &mut first);
    watch.end(&rt);
    assert_eq!(rt; places, ([0, 1], [2, 3]));
    assert_eq!(rt; (versions, peeked), ((3, 3), (3, 9)));
    let register = close_two(rt.alloc(), turns, first, second)?;
    assert_eq!(rt;
        (register.calls, register.changes, register.number),
        (4, 3, 9)
    );
    Ok(())
}

// Four threads each write the numbers from 1 on, and count each call at the mark of its place.
fn write_by_four<R: Threads + Wait + Sync>(
    rt: &R,
    turns: &Turns<Register>,
    seats: List<Caller>,
    marks: &[AtomicU64],
    calls: &Calls,
) -> Result<List<Caller>, AllocError>
    requires seats { seats ≡ map (first_caller turns.now) (range_with_len 0 4) }
    requires terms { (turns.now.terms.seats ≡ 4) × (turns.now.terms.setting ≡ 4) × (turns.now.terms.quota ≡ 10000) }
    ensures { IfOk result (AreBack turns.now) }
{
    let back = map_vec(
        rt,
        seats.into_vec(),
        &|seat: Caller| -> Caller
            requires { IsSeatOf turns.now seat × (seat.number < turns.now.terms.setting) × (length seat.own + 10000 ≤ turns.now.terms.quota) }
            ensures { IsSeatOf turns.entry.now result × (result.number ≡ seat.number) }
        { write_all(rt, turns, seat, 10000, marks, calls) },
    )?;
    Ok(List::of(back))
}

// So many marks, at which nothing is counted yet.
fn unmarked(alloc: Global, count: usize) -> Result<Vec<AtomicU64>, AllocError> {
    let mut marks = Vec::with_capacity(alloc, count)?;
    for _ in 0..count {
        marks.push(AtomicU64::new(0))?;
    }
    Ok(marks)
}

// Whether one call is counted at each mark.
fn are_marked_once(marks: &[AtomicU64]) -> bool {
    marks.iter().all(|mark| mark.load(Ordering::SeqCst) == 1)
}

/// Four threads of 10000 calls each get the places 0 to 39999, each once, and the register that
/// comes back has made them all.
#[test]
fn four_threads(rt: HostRuntime) -> Result<(), Fail> {
    let marks = unmarked(rt.alloc(), 40000)?;
    let (turns, seats) = Turns::new(&rt, rt.alloc(), empty_register(4), 4, 10000)?;
    let watch = Watch::start(rt, rt.alloc(), EACH_CALL_ENDS);
    let seats = write_by_four(&rt, &turns, seats, marks.as_slice(), watch.calls());
    watch.end(&rt);
    let register = turns.close(seats?);
    assert!(rt; are_marked_once(marks.as_slice()) && register.calls == 40000);
    Ok(())
}

// One thread writes, and the other looks.
fn write_and_look<R: Threads + Wait + Sync>(
    rt: &R,
    turns: &Turns<Register>,
    first: Caller,
    second: Caller,
    count: u32,
    calls: &Calls,
) -> (Caller, (Caller, bool))
    requires first { IsSeatOf turns.now first × (first.number < turns.now.terms.setting) × (length first.own + count ≤ turns.now.terms.quota) }
    requires second { IsSeatOf turns.now second }
    ensures first { IsSeatOf turns.now result.0 × (result.0.number ≡ first.number) }
    ensures second { IsSeatOf turns.now result.1.0 × (result.1.0.number ≡ second.number) }
{
    join(
        rt,
        || -> Caller
            requires { IsSeatOf turns.now first × (first.number < turns.now.terms.setting) × (length first.own + count ≤ turns.now.terms.quota) }
            ensures { IsSeatOf turns.entry.now result × (result.number ≡ first.number) }
        { write_all(rt, turns, first, count, &[], calls) },
        || -> (Caller, bool)
            requires { IsSeatOf turns.now second }
            ensures { IsSeatOf turns.entry.now result.0 × (result.0.number ≡ second.number) }
        { look_all(turns, second, count) },
    )
}

/// A thread that only looks sees versions that never fall, while another writes. After they met,
/// it sees the version after all that the other wrote, by a look and by a turn that enters nothing.
#[test]
fn looks_and_meets(rt: HostRuntime) -> Result<(), Fail> {
    let alloc = rt.alloc();
    let (turns, seats) = Turns::new(&rt, alloc, empty_register(2), 2, 2000)?;
    let (first, second) = two_of(&turns, seats);
    let watch = Watch::start(rt, alloc, EACH_CALL_ENDS);
    let (mut first, (mut second, rises)) = write_and_look(
        &rt,
        &turns,
        first,
        second,
        2000,
        watch.calls(),
    );
    turns.meet(&mut first, &mut second);
    let version = turns.look(&mut second);
    let (later, number) = peek(&rt, &turns, &mut second);
    watch.end(&rt);
    let register = close_two(alloc, turns, first, second)?;
    assert!(rt; rises);
    assert_eq!(rt; [version, later, number, register.calls], [2000; 4]);
    Ok(())
}
