//! The names of a charmap with their wide values, in the order of the text.

ghost use Rattle.std.specs.Prelude.{◌≡◌, ℕ, ◌+◌, ◌<◌, ◌≤◌, [], All, length, IfOk, option_map};
ghost use Rattle.std.specs.List.{list_any};
ghost use Rattle.lc_base.specs.Tables.{first_named};
ghost use Rattle.charset.specs.CodedSet.{big_endian, has_value};
ghost use Rattle.class_ranges.specs.Ranges.{covers};
ghost use Rattle.charset.specs.Listing.{IsShort};
ghost use Rattle.charset.specs.CharacterNames.{block_entries, IsBlockOf, IsAdded};

use crate::fronts::Fronts;
use crate::spans::{Block, Span, Spans};
use crate::tail::{number_of, split_tail};
use std::alloc::{AllocError, Global};
use std::marker::Model;

/// The most names of a charmap (our own rule).
pub const NAME_LIMIT: usize = 65536;

/// Names with wide values. Names that count up are one entry.
#[derive(Drop)]
pub struct CharacterNames {
    fronts: Fronts,
    spans: Spans,
    len: usize,
}

impl Model for CharacterNames {
    ghost use Rattle.std.specs.Prelude.{List};
    ghost use Rattle.charset.specs.Entries.{Entry};

    ghost Value = { List Entry };

    ghost use Rattle.charset.specs.CharacterNames.{all_entries, IsKept};

    ghost view = { λ n. all_entries n.fronts n.spans };

    ghost invariant = { λ n. IsKept n.fronts n.spans n.len };
}

impl CharacterNames {
    /// No names.
    pub fn new(alloc: Global) -> CharacterNames
        ensures { result ≡ [] }
    {
        CharacterNames {
            fronts: Fronts::new(alloc),
            spans: Spans::new(alloc),
            len: 0,
        }
    }

    /// How many names there are.
    pub fn len(&self) -> usize
        ensures is { result ≡ length self.now }
        ensures few { result ≤ NAME_LIMIT }
    {
        self.len
    }

    /// The wide value of a name.
    pub(crate) fn value(&self, name: &[u8]) -> Option<u32>
        ensures { result ≡ option_map big_endian (first_named self.now name.now) }
    {
        let (front, tail) = split_tail(name);
        let front = self.fronts.find(front)?;
        let number = number_of(tail);
        let span = self.spans.find((front, tail.len() as u32, number))?;
        Some(span.block.value + (number - span.block.first))
    }

    /// Adds the names of a front with the tails of a block, and tells whether all are new.
    pub(crate) fn add(
        &mut self,
        alloc: Global,
        front: &[u8],
        block: Block,
    ) -> Result<bool, AllocError>
        requires formed { IsBlockOf front.now block }
        requires few { length self.old + block.more < NAME_LIMIT }
        ensures { IfOk result (IsAdded self.old (block_entries front.now block) self.new) }
    {
        let front = self.fronts.number(alloc, front)?;
        let is_new = self.spans.add(Span { front, block })?;
        if is_new {
            self.len += block.more as usize + 1;
        }
        Ok(is_new)
    }

    /// The wide values of the names, as ranges in the order of the text.
    pub(crate) fn ranges(&self, alloc: Global) -> Result<Vec<(u32, u32)>, AllocError>
        ensures covered { IfOk result (λ ranges. (w : ℕ) → covers ranges.items w ≡ list_any (has_value w) self.now) }
        ensures forward { IfOk result (λ ranges. All (λ range. range.0 ≤ range.1) ranges.items) }
        ensures short { IfOk result (λ _. All IsShort self.now) }
    {
        let spans = self.spans.as_slice();
        let mut ranges = Vec::with_capacity(alloc, spans.len())?;
        for span in spans {
            let Block { value, more, .. } = span.block;
            ranges.push((value, value + more))?;
        }
        Ok(ranges)
    }
}
