//! A thread that watches a test, so that the test ends and says what failed where its threads hang.
use std::alloc::Global;
use std::process::Abort;
use std::sync::Arc;
use std::sync::atomic::{AtomicBool, AtomicU64, Ordering};
use std::thread;
use std::thread::{JoinHandle, Threads};
use std::time::{Clock, Duration};

/// The condition that fails where a turn is never got, or never given back.
pub(crate) const EACH_CALL_ENDS: &str = "each call at the turn ends";

/// After how many looks without a new call the test is stopped: ten seconds.
const LOOKS: u64 = 200;

/// How long the thread sleeps before each look, in milliseconds.
const PAUSE: u64 = 50;

/// The calls of a test's threads.
#[derive(Drop)]
pub(crate) struct Calls {
    ended: AtomicU64,
    are_over: AtomicBool,
}

impl Calls {
    /// Counts a call that has ended.
    pub(crate) fn count(&self) {
        self.ended.fetch_add(1, Ordering::SeqCst);
    }
}

// Stops the test where no call has ended for ten seconds, until all are over.
fn stop_if_idle<R: Abort + Clock>(rt: &R, calls: &Calls, condition: &str) {
    let mut before = 0;
    let mut looks = 0u64;
    for _ in 0..u64::MAX {
        if calls.are_over.load(Ordering::SeqCst) {
            return;
        }
        thread::sleep(rt, Duration::from_millis(PAUSE));
        let ended = calls.ended.load(Ordering::SeqCst);
        looks = if ended == before {
            looks.saturating_add(1)
        } else {
            0
        };
        before = ended;
        assert!(rt;
            looks < LOOKS,
            "failed: {condition}; {ended} of the calls ended, and none in the last ten seconds"
        );
    }
}

/// A test's calls, with the thread that watches them.
pub(crate) struct Watch {
    calls: Arc<Calls, Global>,
    thread: JoinHandle<()>,
}

impl Watch {
    /// Watches calls of which this condition is to hold.
    pub(crate) fn start<R: Threads + Abort + Clock + Copy + Send + 'static>(
        rt: R,
        alloc: Global,
        condition: &'static str,
    ) -> Watch {
        let calls = Calls {
            ended: AtomicU64::new(0),
            are_over: AtomicBool::new(false),
        };
        let calls = Arc::new(alloc, calls).expect(&rt, "memory for the calls");
        let theirs = Arc::try_clone(&calls).expect(&rt, "a second owner of the calls");
        let thread = thread::spawn(&rt, move || stop_if_idle(&rt, &theirs, condition)).expect(
            &rt,
            "a thread that watches",
        );
        Watch { calls, thread }
    }

    /// The calls, to be counted.
    pub(crate) fn calls(&self) -> &Calls {
        &self.calls
    }

    /// The calls are over.
    pub(crate) fn end<R: Threads>(self, rt: &R) {
        let Watch { calls, thread } = self;
        calls.are_over.store(true, Ordering::SeqCst);
        thread.join(rt);
    }
}
