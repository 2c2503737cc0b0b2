//! Blocks of 64 values with their images.

ghost use Rattle.std.specs.Prelude.{◌≡◌, ℕ, ◌+◌, ◌<◌, ◌≤◌, ◌^◌, length, slice_index, IfOk, Some};
ghost use Rattle.std.specs.Option.{option_copied};
ghost use Rattle.class_ranges.specs.Maps.{image, block_gives, IsFixedOutside};

use crate::Ranges;
use crate::alike::stretch_from;
use std::alloc::AllocError;
use std::collections::BTreeMap;

/// The images of 64 values.
pub type Block = [u32; 64];

/// What a map gives for a value: the value itself where it has none.
pub fn image(entries: &BTreeMap<u32, u32>, w: u32) -> u32
    ensures { result ≡ image entries.now.entries w }
{
    entries.get(&w).copied().unwrap_or(w)
}

/// The images of 64 values from one on.
fn block_from(entries: &BTreeMap<u32, u32>, first: u32) -> Block
    requires { first + 63 < 2 ^ 32 }
    ensures { (k : ℕ) → k < 64 → slice_index result k ≡ image entries.now.entries (first + k) }
{
    let mut block = [0u32; 64];
    for k in 0..64u32 {
        block[k as usize] = image(entries, first + k);
    }
    block
}

/// The number of the block for 64 values from one on, which is added unless none of them is one of
/// the keys.
pub fn block_number(
    blocks: &mut Vec<Block>,
    entries: &BTreeMap<u32, u32>,
    keys: &Ranges,
    first: u32,
) -> Result<u16, AllocError>
    requires first { first + 63 < 2 ^ 32 }
    requires room { length blocks.old.items < 17408 }
    requires keys { IsFixedOutside keys.now entries.now.entries }
    ensures gives { IfOk result (λ n. (k : ℕ) → k < 64 → block_gives blocks.new.items n k (first + k) ≡ Some (image entries.now.entries (first + k))) }
    ensures kept { IfOk result (λ _. (n k w v : ℕ) → block_gives blocks.old.items n k w ≡ Some v → block_gives blocks.new.items n k w ≡ Some v) }
    ensures grown { IfOk result (λ _. length blocks.new.items ≤ length blocks.old.items + 1) }
{
    let stretch = stretch_from(keys, first);
    if !stretch.is_in && stretch.last >= first + 63 {
        return Ok(0);
    }
    let number = blocks.len() as u16 + 1;
    blocks.push(block_from(entries, first))?;
    Ok(number)
}

/// What the block with a number gives for a value, at its place in the block.
pub fn block_gives(blocks: &[Block], number: u16, k: u32, w: u32) -> Option<u32>
    requires { k < 64 }
    ensures { result ≡ block_gives blocks.now number k w }
{
    if number == 0 {
        return Some(w);
    }
    let block = blocks.get(number as usize - 1)?;
    Some(block[k as usize])
}
