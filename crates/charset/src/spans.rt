//! Names that count up, kept as one entry, and found by their last ones.

ghost use Rattle.std.specs.Prelude.{◌≡◌, ◌+◌, ◌^◌, ◌<◌, [], find, IfOk, OnErr, MatchBool};
ghost use Rattle.charset.specs.Spans.{last_of, end_of, is_in, Meets, IsClear, Adds, IsFirstFrom, IsNext};

use crate::byte_strings::number_of;
use std::alloc::{AllocError, Global};
use std::collections::BTreeMap;
use std::marker::Model;

/// Tails of one width that count up by one, and wide values that do so with them.
#[derive(Clone, Copy)]
pub struct Block {
    pub width: u32,
    /// The number of the first tail.
    pub first: u32,
    /// How many tails follow it.
    pub more: u32,
    /// The first wide value.
    pub value: u32,
}

/// The names of a front with these tails.
#[derive(Clone, Copy)]
pub struct Span {
    /// The number of the front.
    pub front: u32,
    pub block: Block,
}

/// Where a tail stands: the number of its front, its width and its number.
pub type Spot = (u32, u32, u32);

/// The spans that end at each spot.
type Ends = BTreeMap<Spot, u32>;

/// Spans of which no two have a name in common, in the order of the text.
#[derive(Drop)]
pub struct Spans {
    spans: Vec<Span>,
    ends: Ends,
}

impl Model for Spans {
    ghost use Rattle.std.specs.Prelude.{List};
    ghost use Rattle.charset.specs.declared.spans.Span.{Span};

    ghost Value = { List Span };

    ghost use Rattle.charset.specs.Spans.{IsIndexed};

    ghost view = { λ s. s.spans.items };

    ghost invariant = { λ s. IsIndexed s.spans.items s.ends };
}

/// The first end from a spot on.
fn end_from(ends: &Ends, spot: Spot) -> Option<(Spot, u32)>
    ensures { IsFirstFrom ends.now spot result }
{
    let (end, at) = ends.range(spot..).next()?;
    Some((*end, *at))
}

/// The number of the last tail.
fn last_of(span: &Span) -> u32
    requires { last_of span.now < 2 ^ 32 }
    ensures { result ≡ last_of span.now }
{
    span.block.first + span.block.more
}

/// Where a span ends.
fn end_of(span: &Span) -> Spot
    requires { last_of span.now < 2 ^ 32 }
    ensures { result ≡ end_of span.now }
{
    (span.front, span.block.width, last_of(span))
}

impl Spans {
    pub fn new(alloc: Global) -> Spans
        ensures { result ≡ [] }
    {
        Spans {
            spans: Vec::new(alloc),
            ends: BTreeMap::new(alloc),
        }
    }

    /// The span that has a spot or else the first one that ends behind it, at its front and width.
    fn next(&self, spot: Spot) -> Option<Span>
        ensures { IsNext self.now spot result }
    {
        let (end, at) = end_from(&self.ends, spot)?;
        if end.0 != spot.0 || end.1 != spot.1 {
            return None;
        }
        Some(self.spans[at as usize])
    }

    /// The span that has a name.
    pub fn find(&self, spot: Spot) -> Option<Span>
        ensures { result ≡ find (is_in spot) self.now }
    {
        let span = self.next(spot)?;
        if span.block.first <= spot.2 {
            Some(span)
        } else {
            None
        }
    }

    /// Whether a name of the span is there already.
    fn meets(&self, span: &Span) -> bool
        requires { last_of span.now < 2 ^ 32 }
        ensures { MatchBool result (Meets self.now span.now) (IsClear self.now span.now) }
    {
        match self.next((span.front, span.block.width, span.block.first)) {
            Some(next) => next.block.first <= last_of(span),
            None => false,
        }
    }

    /// Adds a span, and tells whether all its names are new.
    pub fn add(&mut self, span: Span) -> Result<bool, AllocError>
        requires { last_of span < 2 ^ 32 }
        ensures adds { IfOk result (Adds self.old span self.new) }
        ensures err { OnErr result (self.new ≡ self.old) }
    {
        if self.meets(&span) {
            return Ok(false);
        }
        let at = number_of(self.spans.len())?;
        self.spans.push(span)?;
        if let Err(_) = self.ends.insert(end_of(&span), at) {
            self.spans.pop();
            return Err(AllocError);
        }
        Ok(true)
    }

    /// The spans in the order of the text.
    pub fn as_slice(&self) -> &[Span]
        ensures { result.now ≡ self.now }
    {
        self.spans.as_slice()
    }
}
