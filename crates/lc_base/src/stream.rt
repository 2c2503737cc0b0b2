//! Sources of bytes and sinks for bytes, which count their faults.

ghost use Rattle.std.specs.Prelude.{◌≡◌, ℕ, List, ◌<◌, ◌≤◌, length, IfOk, OnOk, OnErr, Option};
ghost use Rattle.std.specs.Io.KnownBytes.{ReadConsumes, WriteAppends};
ghost use Rattle.lc_base.specs.Faults.{Rose};

/// A read or a write failed.
#[derive(Clone, Copy, PartialEq, Eq)]
pub struct Failed;

/// Where bytes come from.
pub trait Source {
    /// The bytes still to come, where the source tells them.
    ghost left: { Self → Option (List ℕ) };

    /// A count of faults, up to 2^64 - 1: it rises where a read fails, and nowhere else.
    ghost faults: { Self → ℕ };

    /// Moves the next bytes to the front of `buf` and gives their number, 0 at the end or with no
    /// room. A read that fails moves nothing and is counted.
    fn read(&mut self, buf: &mut [u8]) -> Result<usize, Failed>
        ensures within { IfOk result (λ n. n ≤ length buf.old) }
        ensures moved { ReadConsumes (left self.old) (left self.new) result buf.new }
        ensures fault { OnErr result (Rose (faults self.old) (faults self.new)) }
        ensures sound { OnOk result (faults self.new ≡ faults self.old) }
        ensures never_falls { faults self.old ≤ faults self.new };
}

/// Where bytes go.
pub trait Sink {
    /// The bytes that were written, where the sink tells them.
    ghost written: { Self → Option (List ℕ) };

    /// A count of faults, up to 2^64 - 1: it rises where a write fails, and nowhere else.
    ghost faults: { Self → ℕ };

    /// Takes bytes from the front of `piece` and gives their number, at least 1 of a piece that is
    /// not empty. A write that fails takes nothing and is counted.
    fn write(&mut self, piece: &[u8]) -> Result<usize, Failed>
        ensures within { IfOk result (λ n. n ≤ length piece.now) }
        ensures some { IfOk result (λ n. 0 < length piece.now → 0 < n) }
        ensures moved { WriteAppends (written self.old) (written self.new) result piece.now }
        ensures fault { OnErr result (Rose (faults self.old) (faults self.new)) }
        ensures sound { OnOk result (faults self.new ≡ faults self.old) }
        ensures never_falls { faults self.old ≤ faults self.new };
}
