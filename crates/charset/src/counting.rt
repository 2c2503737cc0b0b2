//! Names that count up, added a block at a time (XBD 6.4).

ghost use Rattle.std.specs.Prelude.{◌≡◌, ◌+◌, ◌^◌, ◌<◌, ◌≤◌, ◌++◌, IfOk, length};
ghost use Rattle.std.specs.Str.Parse.{AllDigits};
ghost use Rattle.charset.specs.Blocks.{block_from};
ghost use Rattle.charset.specs.CharacterNames.{valued_names, IsAdded};

use crate::names::{CharacterNames, NAME_LIMIT};
use crate::numbering::{next_block, split_number};
use crate::spans::Block;
use crate::tail::{number_of, split_tail};
use std::alloc::{AllocError, Global};

/// Two parts of a name as one.
fn joined(alloc: Global, front: &[u8], back: &[u8]) -> Result<Vec<u8>, AllocError>
    ensures { IfOk result (λ name. name.items ≡ front.now ++ back.now) }
{
    let mut name = Vec::with_capacity(alloc, front.len() + back.len())?;
    name.extend_from_slice(front)?;
    name.extend_from_slice(back)?;
    Ok(name)
}

/// The tails from this one on, with so many more or as far as their width goes.
fn block_from(tail: &[u8], more: u32, value: u32) -> Block
    requires all_digits { AllDigits 10 tail.now }
    requires few { length tail.now ≤ 9 }
    ensures { result ≡ block_from tail.now more value }
{
    let width = tail.len() as u32;
    let first = number_of(tail);
    let last = 10u32.pow(width) - 1;
    let more = more.min(last - first);
    Block {
        width,
        first,
        more,
        value,
    }
}

/// Adds names that count up: the first one and so many more, the first with this wide value, and
/// tells whether all are new. Where one is not, or memory runs out, some may have been added.
pub fn add_names(
    alloc: Global,
    names: &mut CharacterNames,
    first: &[u8],
    more: u32,
    value: u32,
) -> Result<bool, AllocError>
    requires few { length names.old + more < NAME_LIMIT }
    requires fits { value + more < 2 ^ 32 }
    ensures { IfOk result (IsAdded names.old (valued_names first.now value more) names.new) }
{
    let (stem, digits) = split_number(first);
    let mut digits = Vec::from_slice(alloc, digits)?;
    let mut done = 0;
    loop {
        let (head, tail) = split_tail(&digits);
        let block = block_from(tail, more - done, value + done);
        let front = joined(alloc, stem, head)?;
        if !names.add(alloc, &front, block)? {
            return Ok(false);
        }
        if done + block.more == more {
            return Ok(true);
        }
        done += block.more + 1;
        digits = next_block(alloc, head, tail.len())?;
    }
}
