//! The logical lines of a text, in few blocks of memory.

ghost use Rattle.std.specs.Prelude.{◌≡◌, ◌+◌, ◌-◌, ◌^◌, ◌<◌, ◌≤◌, ◌++◌, ◌∷◌, [], length, OnOk, OnErr};
ghost use Rattle.src_lines.specs.Held.{Held};
ghost use Rattle.src_lines.specs.Places.{fresh, extended, continued, line_at};
ghost use Rattle.src_lines.specs.Rows.{line_of};

use crate::row::LogicalLine;
use crate::signs::Signs;
use std::alloc::{AllocError, Global};
use std::marker::Model;

/// From this byte of a logical line on its bytes stand in this line of the text.
#[derive(Clone, Copy)]
pub struct Join {
    pub at: u32,
    pub line: u32,
}

/// A logical line: a part of the bytes, and a part of the joins.
#[derive(Clone, Copy)]
struct Span {
    signs: Signs,
    line: u32,
    start: u32,
    end: u32,
    first: u32,
    last: u32,
}

/// Logical lines, and behind them the one that is being joined, the draft.
#[derive(Drop)]
pub struct Store {
    bytes: Vec<u8>,
    joins: Vec<Join>,
    spans: Vec<Span>,
    signs: Signs,
    line: u32,
    start: usize,
    first: usize,
}

impl Model for Store {
    ghost use Rattle.src_lines.specs.Held.{Held};

    ghost Value = { Held };

    ghost use Rattle.src_lines.specs.Stored.{held, IsStored};

    ghost view = { held };

    ghost invariant = { IsStored };
}

impl Store {
    /// No line, and a draft that begins at this line of the text.
    pub fn new(alloc: Global, signs: Signs, line: u32) -> Store
        ensures kept { result.kept ≡ [] }
        ensures draft { result.draft ≡ fresh signs line }
        ensures room { result.room ≡ 0 }
    {
        Store {
            bytes: Vec::new(alloc),
            joins: Vec::new(alloc),
            spans: Vec::new(alloc),
            signs,
            line,
            start: 0,
            first: 0,
        }
    }

    /// Adds bytes to the draft.
    pub fn add(&mut self, part: &[u8]) -> Result<(), AllocError>
        requires { self.old.room + length part.now < 2 ^ 31 }
        ensures ok { OnOk result (self.new ≡ record self.old { draft = extended self.old.draft part.now; room = self.old.room + length part.now }) }
    {
        self.bytes.extend_from_slice(part)?;
        Ok(())
    }

    /// Lets the draft go on in this line of the text.
    pub fn join(&mut self, line: u32) -> Result<(), AllocError>
        requires { self.old.room + 1 < 2 ^ 31 }
        ensures ok { OnOk result (self.new ≡ record self.old { draft = continued self.old.draft line; room = self.old.room + 1 }) }
    {
        let at = (self.bytes.len() - self.start) as u32;
        self.joins.push(Join { at, line })?;
        Ok(())
    }

    /// Keeps the draft as a line, and begins another one.
    pub fn keep(&mut self, signs: Signs, line: u32) -> Result<(), AllocError>
        ensures ok { OnOk result (self.new ≡ record self.old { kept = self.old.kept ++ self.old.draft ∷ []; draft = fresh signs line }) }
    {
        let end = self.bytes.len();
        let last = self.joins.len();
        self.spans.push(Span {
            signs: self.signs,
            line: self.line,
            start: self.start as u32,
            end: end as u32,
            first: self.first as u32,
            last: last as u32,
        })?;
        self.signs = signs;
        self.line = line;
        self.start = end;
        self.first = last;
        Ok(())
    }

    /// Forgets the draft, and begins another one.
    pub fn discard(&mut self, signs: Signs, line: u32)
        ensures kept { self.new.kept ≡ self.old.kept }
        ensures draft { self.new.draft ≡ fresh signs line }
        ensures room { self.new.room ≤ self.old.room }
    {
        self.bytes.truncate(self.start);
        self.joins.truncate(self.first);
        self.signs = signs;
        self.line = line;
    }

    /// The draft.
    pub fn draft(&self) -> LogicalLine<'_>
        ensures { line_of result ≡ self.now.draft }
    {
        LogicalLine {
            signs: self.signs,
            line: self.line,
            bytes: &self.bytes[self.start..],
            joins: &self.joins[self.first..],
        }
    }

    /// The number of lines.
    pub fn len(&self) -> usize
        ensures { result ≡ length self.now.kept }
    {
        self.spans.len()
    }

    /// The line with this number, counted from 0.
    pub fn row(&self, i: usize) -> LogicalLine<'_>
        requires { i < length self.now.kept }
        ensures { line_of result ≡ line_at self.now.kept i }
    {
        let span = self.spans[i];
        LogicalLine {
            signs: span.signs,
            line: span.line,
            bytes: &self.bytes[span.start as usize..span.end as usize],
            joins: &self.joins[span.first as usize..span.last as usize],
        }
    }
}
