//! Copies of categories, each followed from file to file.

ghost use Rattle.std.specs.Prelude.{IfErr};
ghost use Rattle.tool_messages.specs.Status.{IsSpoken};

use crate::files::file_text;
use crate::folders::{is_file, path_in};
use crate::loading::{Loaded, Reading, charset_name};
use crate::parts::with_categories;
use crate::{CopiedName, Sources, copied_names, fault_problem};
use charset::Charset;
use lc_base::{
    Block, ByteText, CATEGORIES, Category, Limit, List, Reason, TextFault, is_posix_locale,
};
use std::alloc::{AllocError, Global};
use std::mem;
use std::rt::Files;
use tool_messages::Problem;

/// The most files of locales.
const FILES_MOST: usize = 64;

/// A category that is copied of a source.
#[derive(Clone, Copy)]
pub struct CopiedCategory {
    /// The number of the source, from 0.
    number: usize,
    category: Category,
}

/// Follows the copies of each category that the first source copies under these names: adds the files, and what
/// is copied of each.
pub fn follow_all<R: Files>(
    rt: &R,
    alloc: Global,
    reading: &Reading<'_>,
    names: &[CopiedName],
    loaded: &mut Loaded,
    parts: &mut Vec<CopiedCategory>,
) -> Result<(), Problem>
    ensures { IfErr result IsSpoken }
{
    for category in CATEGORIES.iter() {
        if let Some(name) = name_for(alloc, names, *category)? {
            follow(rt, alloc, reading, *category, name, loaded, parts)?;
        }
    }
    Ok(())
}

/// Follows the copies of a category, of which the first names this locale.
fn follow<R: Files>(
    rt: &R,
    alloc: Global,
    reading: &Reading<'_>,
    category: Category,
    name: CopiedName,
    loaded: &mut Loaded,
    parts: &mut Vec<CopiedCategory>,
) -> Result<(), Problem>
    ensures { IfErr result IsSpoken }
{
    let mut next = Some(name);
    for _ in 0..FILES_MOST {
        match next {
            Some(copied) => {
                add_copied(rt, alloc, reading, &copied, &mut loaded.sources)?;
                next = next_name(alloc, category, copied.name.as_bytes(), loaded, parts)?;
            }
            None => return Ok(()),
        }
    }
    Ok(())
}

/// The first of these names that is copied for a category.
fn name_for(
    alloc: Global,
    names: &[CopiedName],
    category: Category,
) -> Result<Option<CopiedName>, AllocError> {
    for copied in names {
        if copied.category == category {
            return Ok(Some(CopiedName {
                category,
                place: copied.place,
                name: ByteText::of(alloc, copied.name.as_bytes())?,
            }));
        }
    }
    Ok(None)
}

/// The name that the source with this name copies in turn for a category, which is copied of it from now on;
/// `None` where it is not there, or was followed before.
fn next_name(
    alloc: Global,
    category: Category,
    name: &[u8],
    loaded: &Loaded,
    parts: &mut Vec<CopiedCategory>,
) -> Result<Option<CopiedName>, AllocError> {
    let number = number_named(loaded.sources.locales.as_slice(), name);
    if number == 0 || has_part(parts.as_slice(), number, category) {
        return Ok(None);
    }
    match loaded.sources.locales.as_slice().get(number) {
        Some(block) => {
            parts.push(CopiedCategory { number, category })?;
            name_in(alloc, block, category, &loaded.charset)
        }
        None => Ok(None),
    }
}

/// The name that a source copies for a category.
fn name_in(
    alloc: Global,
    block: &Block,
    category: Category,
    charset: &Charset,
) -> Result<Option<CopiedName>, AllocError> {
    let part = part_of(alloc, block, &[category])?;
    let names = copied_names(alloc, &part, charset)?;
    name_for(alloc, names.as_slice(), category)
}

/// A block in which the sections of other categories are empty.
fn part_of(alloc: Global, block: &Block, categories: &[Category]) -> Result<Block, AllocError> {
    let text = ByteText::of(alloc, block.text.as_bytes())?;
    Ok(Block {
        name: ByteText::of(alloc, block.name.as_bytes())?,
        charset: ByteText::of(alloc, block.charset.as_bytes())?,
        first_line: block.first_line,
        text: with_categories(alloc, text, categories)?,
    })
}

/// The number of the source with a name, or how many there are.
fn number_named(locales: &[Block], name: &[u8]) -> usize {
    for (number, block) in locales.iter().enumerate() {
        if block.name.as_bytes() == name {
            return number;
        }
    }
    locales.len()
}

fn has_part(parts: &[CopiedCategory], number: usize, category: Category) -> bool {
    for part in parts {
        if part.number == number && part.category == category {
            return true;
        }
    }
    false
}

/// Adds the file of a locale that is copied, unless it is there.
fn add_copied<R: Files>(
    rt: &R,
    alloc: Global,
    reading: &Reading<'_>,
    copied: &CopiedName,
    sources: &mut Sources,
) -> Result<(), Problem>
    ensures { IfErr result IsSpoken }
{
    let name = copied.name.as_bytes();
    let locales = sources.locales.as_slice();
    if is_posix_locale(name) || number_named(locales, name) < locales.len() {
        return Ok(());
    }
    add_found(rt, alloc, reading, copied, sources)
}

/// Adds the file of a locale from the first folder that has it.
fn add_found<R: Files>(
    rt: &R,
    alloc: Global,
    reading: &Reading<'_>,
    copied: &CopiedName,
    sources: &mut Sources,
) -> Result<(), Problem>
    ensures { IfErr result IsSpoken }
{
    for folder in reading.folders {
        let path = path_in(alloc, folder, copied.name.as_bytes())?;
        if is_file(rt, path.as_str()) {
            return add_next(rt, alloc, path.as_str(), copied, sources);
        }
    }
    Ok(())
}

/// Adds the file of a locale that is copied, unless it is one too many.
fn add_next<R: Files>(
    rt: &R,
    alloc: Global,
    path: &str,
    copied: &CopiedName,
    sources: &mut Sources,
) -> Result<(), Problem>
    ensures { IfErr result IsSpoken }
{
    if sources.locales.len() >= FILES_MOST {
        let fault = TextFault::At(copied.place, Reason::OverLimit(Limit::Locales));
        return Err(fault_problem(alloc, sources, None, fault));
    }
    let text = file_text(rt, alloc, path)?;
    let charset = charset_name(alloc, sources.charmaps.as_slice())?;
    Ok(sources.add_locale(alloc, path, charset.as_bytes(), text)?)
}

/// Keeps of each source but the first just what is copied of it.
pub fn keep_parts(
    alloc: Global,
    sources: &mut Sources,
    parts: &[CopiedCategory],
) -> Result<(), AllocError> {
    let blocks = mem::replace(&mut sources.locales, List::of(Vec::new(alloc))).into_vec();
    let mut kept = Vec::new(alloc);
    let mut number = 0usize;
    for block in blocks {
        kept.push(kept_block(alloc, block, number, parts)?)?;
        number = number.saturating_add(1);
    }
    sources.locales = List::of(kept);
    Ok(())
}

/// A source with just what is copied of it; the first one as it is.
fn kept_block(
    alloc: Global,
    block: Block,
    number: usize,
    parts: &[CopiedCategory],
) -> Result<Block, AllocError> {
    if number == 0 {
        return Ok(block);
    }
    let mut categories = Vec::new(alloc);
    for part in parts {
        if part.number == number {
            categories.push(part.category)?;
        }
    }
    part_of(alloc, &block, categories.as_slice())
}
