//! A test of the program as a function: the pause that it is given is called before each command.

use crate::answer::Status;
use crate::top::top;
use lc_base::{ByteText, List, MemSink, MemSource};
use script_seats::Pause;
use std::alloc::{AllocError, Global};
use std::sync::atomic::{AtomicU64, Ordering};
use std::test::Fail;

/// A pause that counts its calls.
#[derive(Drop)]
struct Counted {
    calls: AtomicU64,
}

impl Pause for Counted {
    fn before(&self, _thread: u32, _round: u32, _command: u32) {
        self.calls.fetch_add(1, Ordering::SeqCst);
    }
}

// The words of a command line.
fn words_of(alloc: Global, texts: &[&[u8]]) -> Result<Vec<ByteText>, AllocError> {
    let mut words = Vec::new(alloc);
    for text in texts {
        words.push(ByteText::of(alloc, text)?)?;
    }
    Ok(words)
}

/// `make` with eight commands calls the pause that `top` is given eight times.
#[test]
fn make_pauses_before_each_command(rt: HostRuntime) -> Result<(), Fail> {
    let alloc = rt.alloc();
    let words = words_of(alloc, &[b"make", b"seed=0", b"commands=8"])?;
    let mut source = MemSource::new(ByteText::of(alloc, b"")?, 1, List::of(Vec::new(alloc)));
    let mut sink = MemSink::new(alloc, 1000, 1000, List::of(Vec::new(alloc)))?;
    let pause = Counted {
        calls: AtomicU64::new(0),
    };
    let status = top(&rt, alloc, words.as_slice(), &mut source, &mut sink, &pause);
    assert!(rt; matches!(status, Status::Done));
    assert_eq!(rt; pause.calls.load(Ordering::SeqCst), 8);
    Ok(())
}
