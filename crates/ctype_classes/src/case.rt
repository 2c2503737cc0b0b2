//! Case maps.

ghost use Rattle.std.specs.Prelude.{◌≡◌, ◌++◌, map, IfOk};
ghost use Rattle.ctype_classes.specs.Case.{reversed, upper_pairs, lower_pairs, map_of};

use crate::first_lines::KeywordList;
use class_ranges::PagedMap;
use keywords::{pairs, posix_pairs};
use lc_base::Category;
use std::alloc::{AllocError, Global};
use std::collections::BTreeMap;

/// The pairs that map to upper case.
pub fn upper_pairs(alloc: Global, list: &KeywordList<'_>) -> Result<Vec<(u32, u32)>, AllocError>
    ensures { IfOk result (λ v. v.items ≡ upper_pairs list.now) }
{
    match list.operands(b"toupper") {
        None => Vec::from_slice(alloc, posix_pairs(Category::Ctype, b"toupper")),
        Some(operands) => pairs(alloc, operands),
    }
}

/// Pairs the other way round.
fn reversed(alloc: Global, pairs: &[(u32, u32)]) -> Result<Vec<(u32, u32)>, AllocError>
    ensures { IfOk result (λ v. v.items ≡ map reversed pairs.now) }
{
    pairs.iter().map(|pair| (pair.1, pair.0)).collect(alloc)
}

/// The pairs that map to lower case. `upper` are those that map to upper case.
pub fn lower_pairs(
    alloc: Global,
    list: &KeywordList<'_>,
    upper: &[(u32, u32)],
) -> Result<Vec<(u32, u32)>, AllocError>
    requires { upper.now ≡ upper_pairs list.now }
    ensures { IfOk result (λ v. v.items ≡ lower_pairs list.now) }
{
    match list.operands(b"tolower") {
        None => reversed(alloc, upper),
        Some(operands) => pairs(alloc, operands),
    }
}

/// The entries of pairs. Of pairs with one first member the first counts, so the last are put first.
fn entries_of(alloc: Global, pairs: &[(u32, u32)]) -> Result<BTreeMap<u32, u32>, AllocError>
    ensures { IfOk result (λ m. m.entries ≡ map_of pairs.now) }
{
    let mut entries = BTreeMap::new(alloc);
    let mut left = pairs.len();
    while left > 0 {
        left -= 1;
        let (first, image) = pairs[left];
        entries.insert(first, image)?;
    }
    Ok(entries)
}

/// The map of pairs.
pub fn map_of(alloc: Global, pairs: &[(u32, u32)]) -> Result<PagedMap, AllocError>
    ensures { IfOk result (λ m. m ≡ map_of pairs.now) }
{
    let entries = entries_of(alloc, pairs)?;
    let map = PagedMap::of(alloc, entries)?;
    Ok(map)
}
