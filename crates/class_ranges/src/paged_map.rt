//! Maps of wide values that are asked by blocks.

ghost use Rattle.std.specs.Prelude.{◌≡◌, ℕ, ◌≤◌, IfOk, IfSome};
ghost use Rattle.class_ranges.specs.Maps.{image, key_ranges, IsFixedOutside};

use crate::Ranges;
use crate::alike::{Stretch, stretch_from};
use crate::block::{Block, block_gives, block_number, image};
use std::alloc::{AllocError, Global};
use std::collections::BTreeMap;
use std::marker::Model;

/// As many blocks as have the values up to 10FFFF.
const BLOCK_LIMIT: usize = 17408;

/// As many blocks are numbered for each entry at most, so that memory grows with the entries.
const BLOCKS_PER_ENTRY: usize = 16;

/// A map of wide values, seen as its entries in order, with a table of its first blocks, and what is
/// said of the values after these: whether they are keys.
pub struct PagedMap {
    entries: BTreeMap<u32, u32>,
    numbers: Vec<u16>,
    blocks: Vec<Block>,
    rest: Stretch,
}

impl Drop for PagedMap {
    fn drop(self) {
        let PagedMap {
            entries: _,
            numbers: _,
            blocks: _,
            rest: _,
        } = self;
    }
}

impl Model for PagedMap {
    ghost use Rattle.std.specs.Prelude.{ℕ, List, length, ◌*◌};
    ghost use Rattle.class_ranges.specs.Maps.{IsPagedMap, IsFixedUnless};

    ghost Value = { List (ℕ × ℕ) };

    ghost view = { λ m. m.entries.entries };

    ghost invariant = { λ m. IsPagedMap m.numbers.items m.blocks.items m.entries.entries × IsFixedUnless m.rest.is_in m.entries.entries (length m.numbers.items * 64) m.rest.last };
}

/// The ranges of the keys, each alone.
fn key_ranges(alloc: Global, entries: &BTreeMap<u32, u32>) -> Result<Vec<(u32, u32)>, AllocError>
    ensures { IfOk result (λ v. v.items ≡ key_ranges entries.now.entries) }
{
    entries.iter().map(|(key, _)| (*key, *key)).collect(alloc)
}

/// The keys.
fn keys_of(alloc: Global, entries: &BTreeMap<u32, u32>) -> Result<Ranges, AllocError>
    ensures { IfOk result (λ keys. IsFixedOutside keys entries.now.entries) }
{
    let ranges = key_ranges(alloc, entries)?;
    let keys = Ranges::of_pairs(alloc, &ranges)?;
    Ok(keys)
}

/// As many blocks as a map with these keys is given.
fn block_count(keys: &Ranges, key_count: usize) -> usize
    ensures { result ≤ 17408 }
{
    match keys.as_slice().last() {
        None => 0,
        Some(range) => {
            let count = range.1 as usize / 64 + 1;
            count
                .min(BLOCK_LIMIT)
                .min(key_count.min(BLOCK_LIMIT) * BLOCKS_PER_ENTRY)
        }
    }
}

impl PagedMap {
    /// The map with a table of its blocks, up to its last key, but no further than 10FFFF, and of at
    /// most 16 blocks for each entry, of which one for each four entries and one more have images.
    pub fn of(alloc: Global, entries: BTreeMap<u32, u32>) -> Result<PagedMap, AllocError>
        ensures { IfOk result (λ m. m ≡ entries.entries) }
    {
        let keys = keys_of(alloc, &entries)?;
        let count = block_count(&keys, entries.len());
        let mut numbers = Vec::with_capacity(alloc, count)?;
        let mut blocks = Vec::new(alloc);
        for block in 0..count {
            if blocks.len() > entries.len() / 4 {
                break;
            }
            numbers.push(block_number(&mut blocks, &entries, &keys, block as u32 * 64)?)?;
        }
        let rest = stretch_from(&keys, numbers.len() as u32 * 64);
        Ok(PagedMap {
            entries,
            numbers,
            blocks: Vec::from_slice(alloc, &blocks)?,
            rest,
        })
    }

    /// What the map gives for a value whose block is in the table, or that is no key, as the first one
    /// after the table.
    fn tabled(&self, w: u32) -> Option<u32>
        ensures { IfSome result (λ v. v ≡ image self.now w) }
    {
        let block = (w / 64) as usize;
        if block < self.numbers.len() {
            block_gives(&self.blocks, self.numbers[block], w % 64, w)
        } else if w <= self.rest.last && !self.rest.is_in {
            Some(w)
        } else {
            None
        }
    }

    /// What the map gives for a value: the value itself where it has none. Takes a few steps in the
    /// table and after all keys, and else the logarithm of the entries.
    pub fn image(&self, w: u32) -> u32
        ensures { result ≡ image self.now w }
    {
        match self.tabled(w) {
            Some(v) => v,
            None => image(&self.entries, w),
        }
    }
}
