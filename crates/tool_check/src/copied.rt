//! What is looked at of a source, and of the files that it copies there.

ghost use Rattle.std.specs.Prelude.{◌≡◌, map, take, IfOk, OnOk, IfSome};
ghost use Rattle.std.specs.List.{Contains};
ghost use Rattle.tool_check.specs.Looks.{AddsAlone, AreAlone, block_alone};

use crate::looks::{Look, block_alone};
use charset::Charset;
use lc_base::{Block, List};
use std::alloc::{AllocError, Global};
use tool_files::{CopiedName, copied_names};

/// What is looked at of the first block, and of those that it copies there, one after another: a fault of
/// another block, or of another part, is not found in them.
#[tactic(auto, using(crate::proofs::CopiedLemmas::none_added, crate::proofs::CopiedLemmas::added_twice))]
pub fn blocks_alone(
    alloc: Global,
    blocks: &[Block],
    look: Look,
    charset: &Charset,
) -> Result<List<Block>, AllocError>
    ensures { IfOk result (AreAlone look blocks.now) }
{
    let mut alone = first_alone(alloc, blocks, look)?;
    for number in 0..blocks.len() {
        let names = names_at(alloc, alone.as_slice(), number, charset)?;
        add_copied(alloc, &mut alone, names.as_slice(), blocks, look)?;
    }
    Ok(List::of(alone))
}

/// What is looked at of the first block, if there is one.
fn first_alone(alloc: Global, blocks: &[Block], look: Look) -> Result<Vec<Block>, AllocError>
    ensures { IfOk result (λ alone. alone.items ≡ map (block_alone look) (take 1 blocks.now)) }
{
    let mut alone = Vec::new(alloc);
    if let [first, ..] = blocks {
        alone.push(block_alone(alloc, first, look)?)?;
    }
    Ok(alone)
}

/// The names of the locales that the block with a number copies.
fn names_at(
    alloc: Global,
    alone: &[Block],
    number: usize,
    charset: &Charset,
) -> Result<Vec<CopiedName>, AllocError> {
    match alone.get(number) {
        Some(block) => copied_names(alloc, block, charset),
        None => Ok(Vec::new(alloc)),
    }
}

/// Adds what is looked at of the blocks with these names that are not there yet.
#[tactic(auto, using(crate::proofs::CopiedLemmas::none_added, crate::proofs::CopiedLemmas::added_twice))]
fn add_copied(
    alloc: Global,
    alone: &mut Vec<Block>,
    names: &[CopiedName],
    blocks: &[Block],
    look: Look,
) -> Result<(), AllocError>
    ensures { OnOk result (AddsAlone look blocks.now alone.old.items alone.new.items) }
{
    for copied in names {
        add_new(alloc, alone, copied.name.as_bytes(), blocks, look)?;
    }
    Ok(())
}

/// Adds what is looked at of the block with a name, unless it is there.
#[tactic(auto, using(crate::proofs::CopiedLemmas::none_added))]
fn add_new(
    alloc: Global,
    alone: &mut Vec<Block>,
    name: &[u8],
    blocks: &[Block],
    look: Look,
) -> Result<(), AllocError>
    ensures { OnOk result (AddsAlone look blocks.now alone.old.items alone.new.items) }
{
    match block_named(alone.as_slice(), name) {
        Some(_) => Ok(()),
        None => add_named(alloc, alone, name, blocks, look),
    }
}

/// Adds what is looked at of the block with a name, if there is one.
#[tactic(auto, using(crate::proofs::CopiedLemmas::none_added, crate::proofs::CopiedLemmas::one_added))]
fn add_named(
    alloc: Global,
    alone: &mut Vec<Block>,
    name: &[u8],
    blocks: &[Block],
    look: Look,
) -> Result<(), AllocError>
    ensures { OnOk result (AddsAlone look blocks.now alone.old.items alone.new.items) }
{
    match block_named(blocks, name) {
        Some(block) => {
            alone.push(block_alone(alloc, block, look)?)?;
            Ok(())
        }
        None => Ok(()),
    }
}

/// The block with a name.
fn block_named<'a>(blocks: &'a [Block], name: &[u8]) -> Option<&'a Block>
    ensures { IfSome result (λ block. Contains blocks.now block.now) }
{
    for block in blocks {
        if block.name.as_bytes() == name {
            return Some(block);
        }
    }
    None
}
