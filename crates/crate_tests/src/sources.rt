//! Sources in memory and over readers, and whole texts from them, where reads fail.

use lc_base::{ByteText, Failed, List, MemSource, ReadRefusal, Source, StdSource, read_all};
use std::alloc::{AllocError, Global};
use std::io;
use std::io::{ErrorKind, Read};
use std::process::Abort;
use std::test::Fail;

/// Adds what one read into three bytes gives, and a bar, or a `!` where it fails.
fn add_read<S: Source>(source: &mut S, shown: &mut Vec<u8>) -> Result<(), AllocError> {
    let mut buf = [b'?'; 3];
    match source.read(&mut buf) {
        Ok(count) => {
            shown.extend_from_slice(&buf[..count])?;
            shown.push(b'|')?;
        }
        Err(Failed) => shown.push(b'!')?,
    }
    Ok(())
}

/// What six reads give.
fn reads<S: Source>(alloc: Global, source: &mut S) -> Result<Vec<u8>, AllocError> {
    let mut shown = Vec::new(alloc);
    for _ in 0..6 {
        add_read(source, &mut shown)?;
    }
    Ok(shown)
}

/// What reads gave, and the number of the faults, below 10.
fn with_faults(shown: Vec<u8>, faults: u64) -> Result<Vec<u8>, AllocError> {
    let mut shown = shown;
    shown.push(b'0' + faults.min(9) as u8)?;
    Ok(shown)
}

/// The most bytes of a read, the numbers of the reads that fail, and what six reads of `hello` give.
type InMemory = (usize, &'static [u32], &'static [u8]);

const IN_MEMORY: [InMemory; 4] = [
    (64, &[9], b"hel|lo|||||0"),
    (1, &[], b"h|e|l|l|o||0"),
    (2, &[0], b"!he|ll|o|||1"),
    (2, &[4, 3], b"he|ll|o|!!|2"),
];

fn in_memory(alloc: Global, step: usize, failing: &[u32]) -> Result<Vec<u8>, AllocError> {
    let bytes = ByteText::of(alloc, b"hello")?;
    let failing = List::of(Vec::from_slice(alloc, failing)?);
    let mut source = MemSource::new(bytes, step.max(1), failing);
    let shown = reads(alloc, &mut source)?;
    with_faults(shown, source.faults())
}

fn check_in_memory(rt: &impl Abort, alloc: Global, rows: &[InMemory]) -> Result<(), AllocError> {
    for (step, failing, wanted) in rows {
        assert_eq!(rt; in_memory(alloc, *step, failing)?.as_slice(), *wanted);
    }
    Ok(())
}

#[test]
fn sources_in_memory(rt: HostRuntime) -> Result<(), Fail> {
    check_in_memory(&rt, rt.alloc(), &IN_MEMORY)?;
    Ok(())
}

/// Gives `hello`, at most two bytes a call, but an error at the call of one number.
#[derive(Drop)]
struct FailingReader {
    given: usize,
    call: u32,
    failing: u32,
    kind: ErrorKind,
}

impl Read for FailingReader {
    fn read(&mut self, buf: &mut [u8]) -> io::Result<usize> {
        let call = self.call;
        self.call = call.saturating_add(1);
        if call == self.failing {
            return Err(io::Error::from(self.kind));
        }
        let rest = &b"hello"[self.given.min(5)..];
        let count = rest.len().min(buf.len()).min(2);
        buf[..count].copy_from_slice(&rest[..count]);
        self.given = self.given.saturating_add(count);
        Ok(count)
    }
}

fn over_reader(failing: u32, kind: ErrorKind) -> StdSource<FailingReader> {
    StdSource::new(FailingReader {
        given: 0,
        call: 0,
        failing,
        kind,
    })
}

/// The number of the read that fails, with the kind of its error, and what six reads give.
type OverReader = (u32, ErrorKind, &'static [u8]);

const OVER_READER: [OverReader; 4] = [
    (0, ErrorKind::Interrupted, b"!he|ll|o|||1"),
    (1, ErrorKind::WouldBlock, b"he|!ll|o|||1"),
    (3, ErrorKind::Other, b"he|ll|o|!||1"),
    (9, ErrorKind::Other, b"he|ll|o||||0"),
];

fn reads_over(alloc: Global, failing: u32, kind: ErrorKind) -> Result<Vec<u8>, AllocError> {
    let mut source = over_reader(failing, kind);
    let shown = reads(alloc, &mut source)?;
    with_faults(shown, source.faults())
}

fn check_over_reader(
    rt: &impl Abort,
    alloc: Global,
    rows: &[OverReader],
) -> Result<(), AllocError> {
    for (failing, kind, wanted) in rows {
        assert_eq!(rt; reads_over(alloc, *failing, *kind)?.as_slice(), *wanted);
    }
    Ok(())
}

#[test]
fn sources_over_readers(rt: HostRuntime) -> Result<(), Fail> {
    check_over_reader(&rt, rt.alloc(), &OVER_READER)?;
    Ok(())
}

/// The number of the read that fails, with the kind of its error, the most bytes of the text, the
/// answer, and the number of the faults.
type Whole = (u32, ErrorKind, usize, Result<(), ReadRefusal>, u64);

const WHOLES: [Whole; 6] = [
    (9, ErrorKind::Other, 5, Ok(()), 0),
    (9, ErrorKind::Other, 4, Err(ReadRefusal::TooLarge), 0),
    (0, ErrorKind::Interrupted, 5, Err(ReadRefusal::ReadFault), 1),
    (2, ErrorKind::WouldBlock, 5, Err(ReadRefusal::ReadFault), 1),
    (3, ErrorKind::Interrupted, 5, Err(ReadRefusal::ReadFault), 1),
    (3, ErrorKind::Interrupted, 4, Err(ReadRefusal::TooLarge), 0),
];

/// Whether the text is `hello` or is refused, and the number of the faults.
fn whole(alloc: Global, row: &Whole) -> (Result<(), ReadRefusal>, u64) {
    let mut source = over_reader(row.0, row.1);
    let answer = match read_all(alloc, &mut source, row.2) {
        Ok(text) if text.as_bytes() == b"hello".as_slice() => Ok(()),
        Ok(_) => Err(ReadRefusal::Memory),
        Err(refusal) => Err(refusal),
    };
    (answer, source.faults())
}

fn check_wholes(rt: &impl Abort, alloc: Global, rows: &[Whole]) {
    for row in rows {
        assert_eq!(rt; whole(alloc, row), (row.3, row.4));
    }
}

#[test]
fn a_read_that_fails_once_ends_the_text(rt: HostRuntime) {
    check_wholes(&rt, rt.alloc(), &WHOLES);
}
