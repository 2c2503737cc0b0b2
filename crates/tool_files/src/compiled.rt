//! What the files give.

ghost use Rattle.std.specs.Prelude.{◌≡◌, ◌≤◌, [], ◌∷◌, length, All, IsTrue};
ghost use Rattle.lc_base.specs.Reading.{Gives};
ghost use Rattle.lc_base.specs.Blocks.{IsSized};
ghost use Rattle.tool_files.specs.Library.{are_taken, charset_of, library};

use crate::sized::{are_sized, is_sized};
use crate::sources::Sources;
use category_store::Library;
use charmap_reader::read_charmap;
use charset::Charset;
use keywords::Section;
use lc_base::{Block, Limit, List, Place, Reason, TextFault};
use locale_reader::read_locale;
use std::alloc::Global;

/// What is refused of files that are more, or larger, than readers take.
const TOO_MANY: TextFault = TextFault::At(
    Place { line: 1, column: 1 },
    Reason::OverLimit(Limit::Locales),
);

/// The most locales of a library.
const LOCALE_LIMIT: usize = 64;

/// Whether readers take so many locales, and blocks of these sizes.
fn are_taken(charmaps: &[Block], locales: &[Block]) -> bool
    ensures is { result ≡ are_taken charmaps.now locales.now }
    ensures few { IsTrue result → length locales.now ≤ 64 }
    ensures charmaps { IsTrue result → All IsSized charmaps.now }
    ensures locales { IsTrue result → All IsSized locales.now }
{
    locales.len() <= LOCALE_LIMIT && are_sized(charmaps) && are_sized(locales)
}

/// The charset of the first charmap; without one UTF-8, and that of the POSIX locale where there is
/// no source.
pub fn charset_of(alloc: Global, sources: &Sources) -> Result<Charset, TextFault>
    ensures { Gives (λ c. c) result (charset_of sources.now.charmaps sources.now.locales) }
{
    match sources.charmaps.as_slice() {
        [block, ..] => listed_charset(alloc, block),
        [] if sources.locales.is_empty() => Ok(Charset::portable(alloc)?),
        [] => Ok(Charset::utf8(alloc)?),
    }
}

fn listed_charset(alloc: Global, block: &Block) -> Result<Charset, TextFault>
    ensures { Gives (λ c. c) result (charset_of (block.now ∷ []) []) }
{
    if !is_sized(block) {
        return Err(TOO_MANY);
    }
    read_charmap(
        alloc,
        block.name.as_bytes(),
        block.text.as_bytes(),
        block.first_line,
    )
}

/// The compiled locales of files: the i-th source has the number i, from 1.
pub fn library_of(alloc: Global, sources: &Sources) -> Result<Library, TextFault>
    ensures { Gives (λ l. l) result (library sources.now.charmaps sources.now.locales) }
{
    sized_library(alloc, &sources.charmaps, &sources.locales)
}

/// The compiled locales of blocks, if they are of the sizes that readers take.
#[tactic(auto, using(crate::proofs::SizeLemmas::none_later_sized))]
pub fn sized_library(
    alloc: Global,
    charmaps: &List<Block>,
    locales: &List<Block>,
) -> Result<Library, TextFault>
    ensures { Gives (λ l. l) result (library charmaps.now locales.now) }
{
    if !are_taken(charmaps.as_slice(), locales.as_slice()) {
        return Err(TOO_MANY);
    }
    let later = List::of(Vec::new(alloc));
    Library::build(alloc, charmaps, locales, &later, None)
}

/// The sections of a source.
pub fn sections_in(
    alloc: Global,
    source: &Block,
    charset: &Charset,
) -> Result<List<Section>, TextFault> {
    if !is_sized(source) {
        return Err(TOO_MANY);
    }
    let read = read_locale(alloc, source.text.as_bytes(), source.first_line, charset)?;
    Ok(read.sections)
}
