//! A text that several threads made, and how it is written.

ghost use Rattle.std.specs.Prelude.{◌≡◌, ◌≤◌, ◌++◌, OnOk, OnErr};
ghost use Rattle.std.specs.Io.KnownBytes.{Appends};
ghost use Rattle.lc_base.specs.Bytes.{AddsPrefix};
ghost use Rattle.lc_base.specs.Faults.{Rose};

use lc_base::{ByteText, Failed, Sink, write_all};
use std::alloc::Global;
use std::marker::Model;

/// A text in two pieces, one behind the other.
#[derive(Drop)]
pub struct Halves {
    pub front: Vec<u8>,
    pub back: Vec<u8>,
}

/// A text in four pieces, one behind the other.
pub struct Pieces {
    front: Halves,
    back: Halves,
}

impl Drop for Pieces {
    fn drop(self) {
        let Pieces { front: _, back: _ } = self;
    }
}

impl Model for Pieces {
    ghost use Rattle.std.specs.Prelude.{List, ℕ, ◌++◌};

    ghost Value = { List ℕ };

    ghost view = { λ p. (p.front.front.items ++ p.front.back.items) ++ (p.back.front.items ++ p.back.back.items) };
}

impl Pieces {
    /// A text that is in one piece.
    pub fn of(alloc: Global, text: ByteText) -> Pieces
        ensures { result ≡ text }
    {
        Pieces {
            front: Halves {
                front: text.into_vec(),
                back: Vec::new(alloc),
            },
            back: Halves {
                front: Vec::new(alloc),
                back: Vec::new(alloc),
            },
        }
    }

    /// The one text behind the other.
    pub fn new(front: Halves, back: Halves) -> Pieces
        ensures { result ≡ (front.front.items ++ front.back.items) ++ (back.front.items ++ back.back.items) }
    {
        Pieces { front, back }
    }

    /// Writes the whole text. After `Failed` the sink has taken the front of it.
    pub fn write_all<K: Sink>(&self, sink: &mut K) -> Result<(), Failed>
        ensures ok { OnOk result (Appends (K.written sink.old) (K.written sink.new) self.now) }
        ensures front { OnErr result (AddsPrefix (K.written sink.old) (K.written sink.new) self.now) }
        ensures fault { OnErr result (Rose (K.faults sink.old) (K.faults sink.new)) }
        ensures sound { OnOk result (K.faults sink.new ≡ K.faults sink.old) }
        ensures never_falls { K.faults sink.old ≤ K.faults sink.new }
    {
        write_halves(sink, &self.front)?;
        write_halves(sink, &self.back)
    }
}

/// Writes both pieces.
fn write_halves<K: Sink>(sink: &mut K, text: &Halves) -> Result<(), Failed>
    ensures ok { OnOk result (Appends (K.written sink.old) (K.written sink.new) (text.now.front.items ++ text.now.back.items)) }
    ensures front { OnErr result (AddsPrefix (K.written sink.old) (K.written sink.new) (text.now.front.items ++ text.now.back.items)) }
    ensures fault { OnErr result (Rose (K.faults sink.old) (K.faults sink.new)) }
    ensures sound { OnOk result (K.faults sink.new ≡ K.faults sink.old) }
    ensures never_falls { K.faults sink.old ≤ K.faults sink.new }
{
    write_all(sink, text.front.as_slice())?;
    write_all(sink, text.back.as_slice())
}
