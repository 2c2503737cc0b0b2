//! Sinks in memory and over writers, and whole texts to them, where writes fail.

use lc_base::{Failed, List, MemSink, Sink, StdSink, write_all};
use std::alloc::{AllocError, Global};
use std::io;
use std::io::{ErrorKind, Write};
use std::process::Abort;
use std::test::Fail;

/// Adds the number of bytes that one write takes, which is below 10, or a `!` where it fails. Gives
/// the bytes that are left.
fn add_write<'a, K: Sink>(
    sink: &mut K,
    piece: &'a [u8],
    shown: &mut Vec<u8>,
) -> Result<&'a [u8], AllocError> {
    match sink.write(piece) {
        Ok(count) => {
            shown.push(b'0' + count.min(9) as u8)?;
            Ok(&piece[count..])
        }
        Err(Failed) => {
            shown.push(b'!')?;
            Ok(piece)
        }
    }
}

/// What six writes of `hello`, and then of what is left of it, give.
fn writes<K: Sink>(alloc: Global, sink: &mut K) -> Result<Vec<u8>, AllocError> {
    let mut shown = Vec::new(alloc);
    let mut rest = b"hello".as_slice();
    for _ in 0..6 {
        rest = add_write(sink, rest, &mut shown)?;
    }
    Ok(shown)
}

/// The room of a sink, the most bytes of a write, the numbers of the writes that fail, what six
/// writes give, the bytes that were taken, and the number of the faults.
type InMemory = (
    usize,
    usize,
    &'static [u32],
    &'static [u8],
    &'static [u8],
    u64,
);

const IN_MEMORY: [InMemory; 5] = [
    (64, 2, &[9], b"221000", b"hello", 0),
    (5, 64, &[], b"500000", b"hello", 0),
    (3, 2, &[2], b"21!!!!", b"hel", 4),
    (0, 64, &[], b"!!!!!!", b"", 6),
    (64, 2, &[1, 0], b"!!2210", b"hello", 2),
];

/// Whether a row holds.
fn holds(alloc: Global, row: &InMemory) -> Result<bool, AllocError> {
    let failing = List::of(Vec::from_slice(alloc, row.2)?);
    let mut sink = MemSink::new(alloc, row.0, row.1.max(1), failing)?;
    let shown = writes(alloc, &mut sink)?;
    Ok(shown.as_slice() == row.3 && sink.bytes() == row.4 && sink.faults() == row.5)
}

fn check_in_memory(rt: &impl Abort, alloc: Global, rows: &[InMemory]) -> Result<(), AllocError> {
    for row in rows {
        assert!(rt; holds(alloc, row)?, "{}", row.1);
    }
    Ok(())
}

#[test]
fn sinks_in_memory(rt: HostRuntime) -> Result<(), Fail> {
    check_in_memory(&rt, rt.alloc(), &IN_MEMORY)?;
    Ok(())
}

/// Takes a fixed number of bytes a call, but gives an error at the call of one number.
#[derive(Drop)]
struct FailingWriter {
    takes: usize,
    call: u32,
    failing: u32,
    kind: ErrorKind,
}

impl Write for FailingWriter {
    fn write(&mut self, buf: &[u8]) -> io::Result<usize> {
        let call = self.call;
        self.call = call.saturating_add(1);
        if call == self.failing {
            return Err(io::Error::from(self.kind));
        }
        Ok(self.takes.min(buf.len()))
    }

    fn flush(&mut self) -> io::Result<()> {
        Ok(())
    }
}

/// The number of bytes of a write, the number of the write that fails, with the kind of its error,
/// what six writes give, the number of the faults, and whether a whole text is written.
type OverWriter = (usize, u32, ErrorKind, &'static [u8], u64, bool);

const OVER_WRITER: [OverWriter; 5] = [
    (2, 9, ErrorKind::Other, b"221000", 0, true),
    (2, 0, ErrorKind::Interrupted, b"!22100", 1, false),
    (2, 2, ErrorKind::WouldBlock, b"22!100", 1, false),
    (2, 3, ErrorKind::Interrupted, b"221!00", 1, true),
    (0, 9, ErrorKind::Other, b"!!!!!!", 6, false),
];

fn over_writer(row: &OverWriter) -> StdSink<FailingWriter> {
    StdSink::new(FailingWriter {
        takes: row.0,
        call: 0,
        failing: row.1,
        kind: row.2,
    })
}

/// What six writes give, and the number of the faults.
fn writes_over(alloc: Global, row: &OverWriter) -> Result<(Vec<u8>, u64), AllocError> {
    let mut sink = over_writer(row);
    let shown = writes(alloc, &mut sink)?;
    Ok((shown, sink.faults()))
}

/// Whether a whole text is written, and just where it is not a fault is counted.
fn writes_whole(row: &OverWriter) -> bool {
    let mut sink = over_writer(row);
    let written = write_all(&mut sink, b"hello").is_ok();
    written == row.5 && sink.faults() == u64::from(!written)
}

fn check_over_writer(
    rt: &impl Abort,
    alloc: Global,
    rows: &[OverWriter],
) -> Result<(), AllocError> {
    for row in rows {
        let (shown, faults) = writes_over(alloc, row)?;
        assert!(rt; shown.as_slice() == row.3 && faults == row.4, "{}", row.1);
    }
    Ok(())
}

fn check_whole(rt: &impl Abort, rows: &[OverWriter]) {
    for row in rows {
        assert!(rt; writes_whole(row), "{}", row.1);
    }
}

#[test]
fn sinks_over_writers(rt: HostRuntime) -> Result<(), Fail> {
    check_over_writer(&rt, rt.alloc(), &OVER_WRITER)?;
    Ok(())
}

#[test]
fn a_write_that_fails_once_ends_the_text(rt: HostRuntime) {
    check_whole(&rt, &OVER_WRITER);
}
