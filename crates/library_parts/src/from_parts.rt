//! Libraries made of parts.

ghost use Rattle.std.specs.Prelude.{◌≡◌, ◌≤◌, All, length, IfOk};
ghost use Rattle.lc_base.specs.Reading as texts;
ghost use Rattle.lc_base.specs.Blocks.{IsSized};
ghost use Rattle.category_store.specs.Shelf.{IsNumbered, IsInstallable};
ghost use Rattle.library_parts.specs.Told.{Gives};
ghost use Rattle.library_parts.specs.Made.{made_from, made};

use crate::blocks::Blocks;
use crate::books::Books;
use crate::fault::PartFault;
use crate::part::LibraryPart;
use crate::place::part_fault;
use crate::seen::{PART_LIMIT, charsets_known, parts_seen};
use category_store::Library;
use lc_base::{List, TextFault};
use std::alloc::Global;

/// What is made of parts.
pub struct Made {
    /// The compiled locales, by the order of their sources among the parts.
    pub library: Library,
    /// The message catalogs, by their order among the parts.
    pub books: Books,
    /// The number of the compiled locales.
    pub locales: usize,
}

impl Drop for Made {
    fn drop(self) {
        let Made {
            library: _,
            books: _,
            locales: _,
        } = self;
    }
}

impl Made {
    /// The library, and the catalogs.
    pub fn into_both(self) -> (Library, Books)
        ensures library { result.0 ≡ self.library }
        ensures books { result.1 ≡ self.books }
    {
        let Made {
            library,
            books,
            locales: _,
        } = self;
        (library, books)
    }
}

/// The library and the catalogs of blocks.
fn made_from(alloc: Global, blocks: &Blocks) -> Result<Made, TextFault>
    requires charmaps { All IsSized blocks.now.charmaps }
    requires sources { All IsSized blocks.now.sources }
    requires catalogs { All IsSized blocks.now.catalogs }
    requires few_sources { length blocks.now.sources ≤ PART_LIMIT }
    requires few_catalogs { length blocks.now.catalogs ≤ PART_LIMIT }
    ensures is { texts.Gives (λ m. m) result (made_from blocks.now) }
    ensures numbered { IfOk result (λ m. IsNumbered m.library) }
    ensures installable { IfOk result (λ m. IsInstallable m.library) }
{
    let later = List::of(Vec::new(alloc));
    let library = Library::build(alloc, &blocks.charmaps, &blocks.sources, &later, None)?;
    let books = Books::read(alloc, blocks.catalogs.as_slice())?;
    Ok(Made {
        library,
        books,
        locales: blocks.sources.len(),
    })
}

/// Makes the library and the message catalogs of parts. Copies no text.
///
/// The refusal is the first fault of the parts in their order, each by its size, its name, that
/// another has the name, and the number of its kind; then of the charsets; then of the charmaps in
/// their order, of the sources, of their copies and of their categories; and then of the catalogs.
pub fn made_of(alloc: Global, parts: Vec<LibraryPart>) -> Result<Made, PartFault>
    ensures is { Gives (λ m. m) result (made parts.items) }
    ensures numbered { IfOk result (λ m. IsNumbered m.library) }
    ensures installable { IfOk result (λ m. IsInstallable m.library) }
{
    let seen = parts_seen(alloc, parts.as_slice())?;
    charsets_known(&seen.charmaps, parts.as_slice())?;
    let blocks = Blocks::of(alloc, parts)?;
    match made_from(alloc, &blocks) {
        Ok(made) => Ok(made),
        Err(fault) => Err(part_fault(blocks.befores.as_slice(), fault)),
    }
}
