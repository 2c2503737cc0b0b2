//! Sources and sinks in memory, whose calls fail where they are told to.

ghost use Rattle.std.specs.Prelude.{◌≡◌, ◌<◌, ◌≤◌, ◌↔◌, [], length, take, IfOk, IsErr, OnOk, OnErr, IsTrue};
ghost use Rattle.std.specs.Io.KnownBytes.{ReadConsumes, WriteAppends};
ghost use Rattle.lc_base.specs.Faults.{Rose};
ghost use Rattle.lc_base.specs.Memory.{is_among, read_fails, read_count, after_read, after_failed_read, filled, write_fails, write_count, after_write, after_failed_write};

use crate::list::{ByteText, List};
use crate::stream::{Failed, Sink, Source};
use std::alloc::{AllocError, Global};
use std::marker::Model;

/// A source of bytes in memory.
///
/// Its calls are numbered from 0, up to 2^64 - 1, which is above each number of a failing call.
/// Exactly the calls whose numbers it was given fail. Each other call gives as many bytes as the
/// buffer takes and are left, but no more than a step.
#[derive(Drop)]
pub struct MemSource {
    bytes: ByteText,
    given: usize,
    step: usize,
    call: u64,
    failing: List<u32>,
    faults: u64,
}

impl Model for MemSource {
    ghost use Rattle.std.specs.Prelude.{◌<◌, ◌≤◌, length, drop};
    ghost use Rattle.lc_base.specs.Memory.{SourceState};

    ghost Value = { SourceState };

    ghost view = { λ s. record { rest = drop s.given s.bytes; step = s.step; call = s.call; failing = s.failing; faults = s.faults } };

    ghost invariant = { λ s. (s.given ≤ length s.bytes) × (0 < s.step) };
}

impl MemSource {
    /// A source that gives the bytes, at most `step` of them a call, and fails at the calls whose
    /// numbers are in `failing`.
    pub fn new(bytes: ByteText, step: usize, failing: List<u32>) -> MemSource
        requires { 0 < step }
        ensures { result ≡ record { rest = bytes; step = step; call = 0; failing = failing; faults = 0 } }
    {
        MemSource {
            bytes,
            given: 0,
            step,
            call: 0,
            failing,
            faults: 0,
        }
    }

    /// How many reads failed, up to 2^64 - 1.
    pub fn faults(&self) -> u64
        ensures { result ≡ self.now.faults }
    {
        self.faults
    }
}

impl Source for MemSource {
    ghost use Rattle.std.specs.Prelude.{Some};

    ghost left = { λ s. Some s.rest };

    ghost faults = { λ s. s.faults };

    fn read(&mut self, buf: &mut [u8]) -> Result<usize, Failed>
        // As at any source.
        ensures within { IfOk result (λ n. n ≤ length buf.old) }
        ensures moved { ReadConsumes (Some self.old.rest) (Some self.new.rest) result buf.new }
        ensures fault { OnErr result (Rose self.old.faults self.new.faults) }
        ensures sound { OnOk result (self.new.faults ≡ self.old.faults) }
        ensures never_falls { self.old.faults ≤ self.new.faults }

        // Just what this one does.
        ensures fails { IsErr result ↔ IsTrue (read_fails self.old) }
        ensures failed { OnErr result (self.new ≡ after_failed_read self.old) }
        ensures kept { OnErr result (buf.new ≡ buf.old) }
        ensures count { IfOk result (λ n. n ≡ read_count self.old (length buf.old)) }
        ensures gave { IfOk result (λ n. self.new ≡ after_read self.old n) }
        ensures filled { IfOk result (λ n. buf.new ≡ filled buf.old self.old n) }
    {
        let call = self.call;
        self.call = call.saturating_add(1);
        if is_among(self.failing.as_slice(), call) {
            self.faults = self.faults.saturating_add(1);
            return Err(Failed);
        }
        let rest = &self.bytes.as_bytes()[self.given..];
        let count = self.step.min(buf.len()).min(rest.len());
        buf[..count].copy_from_slice(&rest[..count]);
        self.given += count;
        Ok(count)
    }
}

/// Whether the number of the call is in the list.
fn is_among(failing: &[u32], call: u64) -> bool
    ensures { result ≡ is_among failing.now call }
{
    failing.iter().any(|number| u64::from(*number) == call)
}

/// A sink for bytes in memory, with room for a fixed number of them.
///
/// Its calls are numbered from 0, up to 2^64 - 1, which is above each number of a failing call.
/// Exactly the calls whose numbers it was given fail, and each write of a piece that is not empty
/// to a full sink. Each other call takes as many bytes as there are and it has room for, but no
/// more than a step.
#[derive(Drop)]
pub struct MemSink {
    bytes: Vec<u8>,
    room: usize,
    step: usize,
    call: u64,
    failing: List<u32>,
    faults: u64,
}

impl Model for MemSink {
    ghost use Rattle.std.specs.Prelude.{◌<◌, ◌≤◌, vec_len, vec_capacity};
    ghost use Rattle.lc_base.specs.Memory.{SinkState};

    ghost Value = { SinkState };

    ghost view = { λ s. record { taken = s.bytes.items; room = s.room; step = s.step; call = s.call; failing = s.failing; faults = s.faults } };

    ghost invariant = { λ s. (vec_len s.bytes ≤ s.room) × (s.room ≤ vec_capacity s.bytes) × (0 < s.step) };
}

impl MemSink {
    /// An empty sink with room for `room` bytes, which takes at most `step` bytes a call and fails
    /// at the calls whose numbers are in `failing`. No write takes memory later.
    pub fn new(
        alloc: Global,
        room: usize,
        step: usize,
        failing: List<u32>,
    ) -> Result<MemSink, AllocError>
        requires { 0 < step }
        ensures { IfOk result (λ s. s ≡ record { taken = []; room = room; step = step; call = 0; failing = failing; faults = 0 }) }
    {
        let bytes = Vec::with_capacity(alloc, room)?;
        Ok(MemSink {
            bytes,
            room,
            step,
            call: 0,
            failing,
            faults: 0,
        })
    }

    /// The bytes that were taken, in order.
    pub fn bytes(&self) -> &[u8]
        ensures { result.now ≡ self.now.taken }
    {
        self.bytes.as_slice()
    }

    /// How many writes failed, up to 2^64 - 1.
    pub fn faults(&self) -> u64
        ensures { result ≡ self.now.faults }
    {
        self.faults
    }
}

impl Sink for MemSink {
    ghost use Rattle.std.specs.Prelude.{Some};

    ghost written = { λ s. Some s.taken };

    ghost faults = { λ s. s.faults };

    fn write(&mut self, piece: &[u8]) -> Result<usize, Failed>
        // As at any sink.
        ensures within { IfOk result (λ n. n ≤ length piece.now) }
        ensures some { IfOk result (λ n. 0 < length piece.now → 0 < n) }
        ensures moved { WriteAppends (Some self.old.taken) (Some self.new.taken) result piece.now }
        ensures fault { OnErr result (Rose self.old.faults self.new.faults) }
        ensures sound { OnOk result (self.new.faults ≡ self.old.faults) }
        ensures never_falls { self.old.faults ≤ self.new.faults }

        // Just what this one does.
        ensures fails { IsErr result ↔ IsTrue (write_fails self.old (length piece.now)) }
        ensures failed { OnErr result (self.new ≡ after_failed_write self.old) }
        ensures count { IfOk result (λ n. n ≡ write_count self.old (length piece.now)) }
        ensures took { IfOk result (λ n. self.new ≡ after_write self.old (take n piece.now)) }
    {
        let call = self.call;
        self.call = call.saturating_add(1);
        let room_left = self.room - self.bytes.len();
        if is_among(self.failing.as_slice(), call) || room_left == 0 && !piece.is_empty() {
            self.faults = self.faults.saturating_add(1);
            return Err(Failed);
        }
        let count = self.step.min(piece.len()).min(room_left);
        self.bytes.extend_from_slice(&piece[..count]).unwrap();
        Ok(count)
    }
}
