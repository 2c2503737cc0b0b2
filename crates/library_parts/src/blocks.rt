//! The blocks of parts: all lines of all parts have different numbers.

ghost use Rattle.std.specs.Prelude.{◌≡◌, ◌+◌, ◌<◌, ◌^◌, ◌++◌, ◌∷◌, [], All, IfOk, OnOk};
ghost use Rattle.lc_base.specs.Blocks.{IsSized};
ghost use Rattle.library_parts.specs.Places.{AreSized, with_block, blocks_of_parts, no_blocks};

use crate::lines::line_count;
use crate::part::{LibraryPart, PartKind};
use lc_base::{Block, List};
use std::alloc::{AllocError, Global};

/// The blocks of parts by their kinds, and how many lines stand before each part.
pub struct Blocks {
    pub charmaps: List<Block>,
    pub sources: List<Block>,
    pub catalogs: List<Block>,
    pub befores: List<u32>,
}

impl Drop for Blocks {
    fn drop(self) {
        let Blocks {
            charmaps: _,
            sources: _,
            catalogs: _,
            befores: _,
        } = self;
    }
}

/// Adds a value to a list.
fn push_value<T: Drop>(alloc: Global, list: &mut List<T>, value: T) -> Result<(), AllocError>
    ensures { OnOk result (list.new ≡ list.old ++ value ∷ []) }
{
    let mut values = std::mem::replace(list, List::of(Vec::new(alloc))).into_vec();
    values.push(value)?;
    *list = List::of(values);
    Ok(())
}

impl Blocks {
    /// No blocks.
    fn new(alloc: Global) -> Blocks
        ensures { result ≡ no_blocks }
    {
        Blocks {
            charmaps: List::of(Vec::new(alloc)),
            sources: List::of(Vec::new(alloc)),
            catalogs: List::of(Vec::new(alloc)),
            befores: List::of(Vec::new(alloc)),
        }
    }

    /// Takes a part behind so many lines.
    fn add(&mut self, alloc: Global, before: u32, part: LibraryPart) -> Result<(), AllocError>
        requires { before + 1 < 2 ^ 31 }
        ensures { OnOk result (self.new ≡ with_block self.old before part) }
    {
        push_value(alloc, &mut self.befores, before)?;
        match part.kind {
            PartKind::Charmap => push_value(alloc, &mut self.charmaps, part.into_block(before)),
            PartKind::Source => push_value(alloc, &mut self.sources, part.into_block(before)),
            PartKind::Catalog => push_value(alloc, &mut self.catalogs, part.into_block(before)),
        }
    }

    /// The blocks of parts. Copies no text.
    pub fn of(alloc: Global, parts: Vec<LibraryPart>) -> Result<Blocks, AllocError>
        requires { AreSized 0 parts.items }
        ensures is { IfOk result (λ b. b ≡ blocks_of_parts parts.items) }
        ensures charmaps { IfOk result (λ b. All IsSized b.charmaps) }
        ensures sources { IfOk result (λ b. All IsSized b.sources) }
        ensures catalogs { IfOk result (λ b. All IsSized b.catalogs) }
    {
        let mut blocks = Blocks::new(alloc);
        let mut before = 0;
        for part in parts {
            let lines = line_count(part.text.as_bytes());
            blocks.add(alloc, before, part)?;
            before += lines + 1;
        }
        Ok(blocks)
    }
}
