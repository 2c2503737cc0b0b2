//! The blocks of a bundle that have a locale's source, in the order of their places.

ghost use Rattle.std.specs.Prelude.{◌≡◌, map, IfOk, option_map};
ghost use Rattle.category_store.specs.Blocks.{by_place, first_block, locale_block, later_block};
ghost use Rattle.category_store.specs.Seen.{placed, taken};

use lc_base::{Block, Later, List};
use std::alloc::{AllocError, Global};

/// A block with a locale's source, with its key where it is a later version.
#[derive(Clone, Copy)]
pub struct Placed<'a> {
    pub key: Option<&'a [u8]>,
    pub block: &'a Block,
}

impl<'a> Placed<'a> {
    fn of_locale(block: &'a Block) -> Placed<'a>
        ensures { placed result ≡ locale_block block.now }
    {
        Placed { key: None, block }
    }

    fn of_later(later: &'a Later) -> Placed<'a>
        ensures { placed result ≡ later_block later.now }
    {
        Placed {
            key: Some(later.key.as_bytes()),
            block: &later.block,
        }
    }
}

/// The first block of two lists by place, with what is left of each.
fn first_block<'a>(
    locales: &'a [Block],
    later: &'a [Later],
) -> Option<(Placed<'a>, &'a [Block], &'a [Later])>
    ensures { option_map taken result ≡ first_block locales.now later.now }
{
    let Some(block) = locales.first() else {
        return Some((Placed::of_later(later.first()?), locales, &later[1..]));
    };
    let Some(other) = later.first() else {
        return Some((Placed::of_locale(block), &locales[1..], later));
    };
    if other.block.first_line < block.first_line {
        Some((Placed::of_later(other), locales, &later[1..]))
    } else {
        Some((Placed::of_locale(block), &locales[1..], later))
    }
}

/// The blocks of both lists by the numbers of their first lines.
pub fn by_place<'a>(
    alloc: Global,
    locales: &'a List<Block>,
    later: &'a List<Later>,
) -> Result<Vec<Placed<'a>>, AllocError>
    ensures { IfOk result (λ v. map placed v.items ≡ by_place locales.now later.now) }
{
    let mut blocks = Vec::new(alloc);
    let mut locales = locales.as_slice();
    let mut later = later.as_slice();
    while let Some((block, other_locales, other_later)) = first_block(locales, later) {
        blocks.push(block)?;
        locales = other_locales;
        later = other_later;
    }
    Ok(blocks)
}
