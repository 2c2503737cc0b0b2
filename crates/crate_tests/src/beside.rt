//! Threads of a script that run concurrently: each waits for a command of the other.

use bundle_maker::{generate, summary};
use lc_base::{ByteText, TextFault};
use script_out::print;
use script_plan::{Plan, prepare};
use script_run::run;
use script_seats::Pause;
use script_serial::serial;
use std::alloc::{AllocError, Global};
use std::sync::Wait;
use std::sync::atomic::{AtomicU64, Ordering};
use std::test::Fail;
use std::thread;
use std::thread::Threads;

/// How often a command looks whether another is about to run, before it gives up.
const LOOKS: u64 = 100_000_000;

/// A command: its thread, and the index of its line.
type Which = (u32, u32);

/// A pause that holds commands until others are about to run.
#[derive(Drop)]
struct Until {
    /// A command, and the one that it waits for.
    waits: [(Which, Which); 2],
    /// A bit for each command that was about to run.
    about: AtomicU64,
    /// How often it was called.
    calls: AtomicU64,
    /// How many commands gave up.
    given_up: AtomicU64,
}

impl Until {
    fn new(waits: [(Which, Which); 2]) -> Until {
        Until {
            waits,
            about: AtomicU64::new(0),
            calls: AtomicU64::new(0),
            given_up: AtomicU64::new(0),
        }
    }

    // Waits until the command is about to run.
    fn wait_for(&self, which: Which) {
        for _ in 0..LOOKS {
            if self.about.load(Ordering::SeqCst) & bit(which) != 0 {
                return;
            }
            thread::yield_now();
        }
        self.given_up.fetch_add(1, Ordering::SeqCst);
    }
}

impl Pause for Until {
    fn before(&self, thread: u32, _round: u32, command: u32) {
        let which = (thread, command);
        self.calls.fetch_add(1, Ordering::SeqCst);
        self.about.fetch_or(bit(which), Ordering::SeqCst);
        for (held, other) in &self.waits {
            if *held == which {
                self.wait_for(*other);
            }
        }
    }
}

// The bit of a command, where there are four threads with at most 15 commands each.
fn bit(which: Which) -> u64 {
    1 << (which.0 % 4 * 16 + which.1 % 16)
}

// Whether a text has this line.
fn has_line(text: &[u8], line: &[u8]) -> bool {
    text.windows(line.len() + 1).any(|window| window.starts_with(line) && window.ends_with(b"\n"))
}

/// What a script printed, how often its pause was called, and how many commands gave up.
type Ran = (Vec<u8>, u64, u64);

// Runs a bundle whose commands wait so.
fn ran<R: Threads + Wait + Sync>(
    rt: &R,
    alloc: Global,
    bundle: &[u8],
    waits: [(Which, Which); 2],
) -> Result<Ran, TextFault> {
    let pause = Until::new(waits);
    let text = printed(rt, alloc, bundle, &pause)?;
    let calls = pause.calls.load(Ordering::SeqCst);
    let given_up = pause.given_up.load(Ordering::SeqCst);
    Ok((text, calls, given_up))
}

// What the bundle prints. Those of the tests are short: `prepare` takes no text of 2^31 bytes.
fn printed<R: Threads + Wait + Sync>(
    rt: &R,
    alloc: Global,
    bundle: &[u8],
    pause: &Until,
) -> Result<Vec<u8>, TextFault> {
    if bundle.len() > 65_536 {
        return Err(TextFault::Memory);
    }
    let plan = prepare(alloc, bundle)?;
    let text = text_of(rt, alloc, &plan, pause);
    drop(plan);
    Ok(text?)
}

// What the script of a plan prints.
fn text_of<R: Threads + Wait + Sync>(
    rt: &R,
    alloc: Global,
    plan: &Plan,
    pause: &Until,
) -> Result<Vec<u8>, AllocError> {
    let lines = run(rt, alloc, plan, 16, 65535, pause)?;
    let text = print(alloc, &lines, plan.threads())?;
    Vec::from_slice(alloc, text.as_bytes())
}

const ALONE_AND_BESIDE: &[u8] = b".locale us UTF-8
LC_CTYPE
END LC_CTYPE
LC_NUMERIC
decimal_point \".\"
END LC_NUMERIC
LC_MONETARY
END LC_MONETARY
LC_TIME
END LC_TIME
LC_MESSAGES
END LC_MESSAGES
.end
.locale fr UTF-8
LC_CTYPE
END LC_CTYPE
LC_NUMERIC
decimal_point \",\"
END LC_NUMERIC
LC_MONETARY
END LC_MONETARY
LC_TIME
END LC_TIME
LC_MESSAGES
END LC_MESSAGES
.end
.thread A
new x LC_ALL us
use x
info RADIXCHAR
class alpha 97
.thread B
new y LC_ALL fr
use y
info RADIXCHAR
class alpha 97
";

/// Each of two threads holds a command until one of the other is about to run, so neither can run
/// before the other has begun.
#[test]
fn alone_and_beside(rt: HostRuntime) -> Result<(), Fail> {
    let waits = [((0, 1), (1, 2)), ((1, 2), (0, 1))];
    let (printed, calls, given_up) = ran(&rt, rt.alloc(), ALONE_AND_BESIDE, waits)?;
    assert_eq!(rt; (calls, given_up), (8, 0));
    assert!(rt; has_line(printed.as_slice(), b"1 B 1 0 - handle B.0.1"));
    assert!(rt; has_line(printed.as_slice(), b"1 A 3 - - text \".\""));
    assert!(rt; has_line(printed.as_slice(), b"1 B 3 - - text \",\""));
    Ok(())
}

const LOOK_LOADS_ANEW: &[u8] = b".locale fr UTF-8
LC_CTYPE
END LC_CTYPE
LC_NUMERIC
decimal_point \",\"
END LC_NUMERIC
LC_MONETARY
END LC_MONETARY
LC_TIME
END LC_TIME
LC_MESSAGES
END LC_MESSAGES
.end
.thread A
info RADIXCHAR
info RADIXCHAR
.thread B
setlocale LC_ALL fr
info RADIXCHAR
";

/// A read of the global locale behind another thread's setlocale tells of it, also where an earlier
/// read of the thread kept the former object.
#[test]
fn look_loads_anew(rt: HostRuntime) -> Result<(), Fail> {
    let waits = [((0, 2), (1, 2)), ((0, 2), (1, 2))];
    let (printed, calls, given_up) = ran(&rt, rt.alloc(), LOOK_LOADS_ANEW, waits)?;
    assert_eq!(rt; (calls, given_up), (4, 0));
    assert!(rt; has_line(printed.as_slice(), b"1 A 2 - g1 text \",\""));
    Ok(())
}

// The summary of a made bundle with eight commands whose threads run concurrently, and that of the
// same bundle on one thread.
fn made_summaries<R: Threads + Wait + Sync>(
    rt: &R,
    alloc: Global,
    pause: &Until,
) -> Result<(ByteText, ByteText), TextFault> {
    let bundle = generate(alloc, 0, 8)?;
    let plan = prepare(alloc, bundle.as_bytes())?;
    let summaries = summaries(rt, alloc, &plan, pause);
    drop(plan);
    Ok(summaries?)
}

// Both summaries of a plan with eight commands.
fn summaries<R: Threads + Wait + Sync>(
    rt: &R,
    alloc: Global,
    plan: &Plan,
    pause: &Until,
) -> Result<(ByteText, ByteText), AllocError> {
    let rounds = plan.bundle().rounds;
    let lines = run(rt, alloc, plan, 16, 65535, pause)?;
    let beside = summary(alloc, 8, rounds, &lines, plan.threads())?;
    let lines = serial(alloc, plan, 16, 65535)?;
    let alone = summary(alloc, 8, rounds, &lines, plan.threads())?;
    Ok((beside, alone))
}

/// The threads of a made bundle run concurrently: two of them hold a command until one of the
/// other is about to run. What they come to is what they come to one after the other.
#[test]
fn workers_of_make(rt: HostRuntime) -> Result<(), Fail> {
    let pause = Until::new([((0, 1), (1, 2)), ((1, 2), (0, 1))]);
    let (beside, alone) = made_summaries(&rt, rt.alloc(), &pause)?;
    let calls = pause.calls.load(Ordering::SeqCst);
    let given_up = pause.given_up.load(Ordering::SeqCst);
    assert_eq!(rt; (calls, given_up), (8, 0));
    assert_eq!(rt; beside.as_bytes(), alone.as_bytes());
    Ok(())
}
