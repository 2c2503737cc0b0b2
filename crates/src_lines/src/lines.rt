//! The logical lines of a text (XBD 7.3).

ghost use Rattle.std.specs.Prelude.{◌≡◌, ◌+◌, ◌^◌, ◌<◌, ◌≤◌, ◌↔◌, [], length, drop, position, option_map, IfOk, IfSome, OnOk, OnErr, IsTrue};
ghost use Rattle.lc_base.specs.Reading.{Gives};
ghost use Rattle.src_lines.specs.Rows.{line_of};
ghost use Rattle.src_lines.specs.Places.{Logical, line_at, start, closes_line};
ghost use Rattle.src_lines.specs.Words.{first_word, second_word};
ghost use Rattle.src_lines.specs.Logical.{front, logical, takes_next};
ghost use Rattle.src_lines.specs.Steps.{state_of, ended_draft, taken};

use crate::head::fate_of;
use crate::row::LogicalLine;
use crate::signs::{Kind, Signs};
use crate::store::Store;
use crate::words::{blanks, closes, next_word};
use lc_base::{Place, Reason, TextFault, ended_line};
use std::alloc::{AllocError, Global};
use std::marker::Model;

/// The logical lines of a text: joined, without comments, blank lines and head lines.
pub struct Lines {
    store: Store,
}

impl Drop for Lines {
    fn drop(self) {
        let Lines { store: _ } = self;
    }
}

impl Model for Lines {
    ghost use Rattle.std.specs.Prelude.{List};
    ghost use Rattle.src_lines.specs.Places.{Logical};

    ghost Value = { List Logical };

    ghost view = { λ l. l.store.kept };
}

impl Lines {
    /// The number of lines.
    pub fn len(&self) -> usize
        ensures { result ≡ length self.now }
    {
        self.store.len()
    }

    /// Whether there is no line.
    pub fn is_empty(&self) -> bool
        ensures { IsTrue result ↔ (self.now ≡ []) }
    {
        self.store.len() == 0
    }

    /// The place of the line's first word.
    pub fn place(&self, i: usize) -> Place
        requires { i < length self.now }
        ensures { result ≡ start (line_at self.now i) }
    {
        let row = self.store.row(i);
        row.place_at(blanks(row.bytes))
    }

    /// The line's first two words, perhaps empty, as they stand.
    pub fn first_words(&self, i: usize) -> (&[u8], &[u8])
        requires { i < length self.now }
        ensures first { result.0.now ≡ first_word (line_at self.now i).bytes }
        ensures second { result.1.now ≡ second_word (line_at self.now i).bytes }
    {
        let row = self.store.row(i);
        let first = next_word(row.bytes);
        (first.text, next_word(first.rest).text)
    }

    /// The line with this number, counted from 0.
    pub fn row(&self, i: usize) -> LogicalLine<'_>
        requires { i < length self.now }
        ensures { line_of result ≡ line_at self.now i }
    {
        self.store.row(i)
    }

    /// The line's bytes as they stand, with the joins taken out.
    pub fn bytes(&self, i: usize) -> &[u8]
        requires { i < length self.now }
        ensures { result.now ≡ (line_at self.now i).bytes }
    {
        self.store.row(i).bytes
    }

    /// The number of the first line from `start` on that closes the part of this name: `END` and the
    /// name alone.
    pub fn closing(&self, name: &[u8], start: usize) -> Option<usize>
        requires { start ≤ length self.now }
        ensures is { result ≡ option_map (λ k. start + k) (position (closes_line name.now) (drop start self.now)) }
        ensures within { IfSome result (λ k. (start ≤ k) × (k < length self.now)) }
        ensures fits { IfSome result (λ k. k + 1 < 2 ^ 64) }
    {
        for i in start..self.len() {
            if closes(name, self.bytes(i)) {
                return Some(i);
            }
        }
        None
    }

    /// The signs in force at the line.
    pub fn signs(&self, i: usize) -> Signs
        requires { i < length self.now }
        ensures { result ≡ (line_at self.now i).signs }
    {
        self.store.row(i).signs
    }
}

/// The signs at a text's first line.
const AT_FIRST: Signs = Signs {
    escape: b'\\',
    comment: b'#',
};

/// Ends the draft as a logical line, where the next one begins at the line `next` of the text.
///
/// Where it is a wrong head line, its fault is given and no line is lost.
#[tactic(auto, unfolding(crate::specs::Steps::ended_draft))]
fn end_line(
    store: &mut Store,
    kind: Kind,
    heads: bool,
    next: u32,
) -> Result<Result<bool, (Place, Reason)>, AllocError>
    ensures is { IfOk result (λ r. state_of r store.new.kept store.new.draft ≡ ended_draft kind heads next store.old.kept store.old.draft) }
    ensures kept { IfOk result (λ r. OnErr r (store.new.kept ≡ store.old.kept)) }
    ensures room { OnOk result (store.new.room ≤ store.old.room) }
{
    let fate = match fate_of(kind, heads, &store.draft()) {
        Ok(fate) => fate,
        Err(fault) => return Ok(Err(fault)),
    };
    if fate.kept {
        store.keep(fate.signs, next)?;
    } else {
        store.discard(fate.signs, next);
    }
    Ok(Ok(fate.heads))
}

/// Takes a line of the text, before the line `next`.
#[tactic(auto, unfolding(crate::specs::Steps::taken))]
fn take_line(
    store: &mut Store,
    kind: Kind,
    heads: bool,
    part: &[u8],
    next: u32,
) -> Result<Result<bool, (Place, Reason)>, AllocError>
    requires { store.old.room + length part.now < 2 ^ 31 }
    ensures is { IfOk result (λ r. state_of r store.new.kept store.new.draft ≡ taken kind heads next store.old.kept store.old.draft part.now) }
    ensures kept { IfOk result (λ r. OnErr r (store.new.kept ≡ store.old.kept)) }
    ensures room { OnOk result (store.new.room ≤ store.old.room + length part.now) }
{
    if takes_next(store.draft().signs.escape, part) {
        store.add(&part[..part.len() - 1])?;
        store.join(next)?;
        return Ok(Ok(heads));
    }
    store.add(part)?;
    end_line(store, kind, heads, next)
}

/// Whether the next line is joined to this one.
fn takes_next(escape: u8, part: &[u8]) -> bool
    ensures is { result ≡ takes_next escape part.now }
{
    !part.is_empty() && part[part.len() - 1] == escape
}

/// The logical lines before the first wrong head line, and that line's fault, if there is one.
pub fn split_front(
    alloc: Global,
    text: &[u8],
    first_line: u32,
    kind: Kind,
) -> Result<(Lines, Option<(Place, Reason)>), AllocError>
    requires text_size { length text.now < 2 ^ 31 }
    requires line_size { first_line < 2 ^ 31 }
    ensures lines { IfOk result (λ x. x.0 ≡ (front text.now first_line kind).lines) }
    ensures fault { IfOk result (λ x. x.1 ≡ (front text.now first_line kind).fault) }
{
    let mut store = Store::new(alloc, AT_FIRST, first_line);
    let mut heads = true;
    let mut line = first_line;
    let mut rest = text;
    while let Some((part, after)) = ended_line(rest) {
        line += 1;
        match take_line(&mut store, kind, heads, part, line)? {
            Ok(more) => heads = more,
            Err(fault) => return Ok((Lines { store }, Some(fault))),
        }
        rest = after;
    }
    store.add(rest)?;
    let last = end_line(&mut store, kind, heads, line)?;
    Ok((Lines { store }, last.err()))
}

/// The logical lines of a text whose first line has the number `first_line`.
///
/// Head lines stand before the first section or the line `CHARMAP`. A wrong one is `WrongOperand`
/// in a locale source and `BadHeader` in a charmap.
#[tactic(auto, unfolding(crate::specs::Logical::logical))]
pub fn split(alloc: Global, text: &[u8], first_line: u32, kind: Kind) -> Result<Lines, TextFault>
    requires text_size { length text.now < 2 ^ 31 }
    requires line_size { first_line < 2 ^ 31 }
    ensures { Gives (λ lines. lines) result (logical text.now first_line kind) }
{
    let (lines, fault) = split_front(alloc, text, first_line, kind)?;
    match fault {
        None => Ok(lines),
        Some((place, reason)) => Err(TextFault::At(place, reason)),
    }
}
