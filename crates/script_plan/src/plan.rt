//! A bundle with its compiled locales and its message catalogs.

ghost use Rattle.std.specs.Prelude.{◌≡◌, ◌<◌, ◌^◌, length, All, IfOk};
ghost use Rattle.category_store.specs.Library.{catalog};
ghost use Rattle.category_store.specs.Shelf.{IsNumbered, IsInstallable};
ghost use Rattle.lc_base.specs.Reading.{Gives};
ghost use Rattle.lc_base.specs.Blocks.{IsSized};
ghost use Rattle.script_lang.specs.Accepted.{IsAccepted};
ghost use Rattle.script_plan.specs.Plan.{IsSound, books_of, books_read, plan_of, counts, counts_of};

use category_store::Library;
use lc_base::{Block, ByteText, List, TextFault};
use msg_catalog::{Book, read_catalog};
use script_lang::Bundle;
use script_lines::catalogs::Books;
use std::alloc::Global;
use std::marker::Model;

/// An accepted bundle with its compiled locales and its message catalogs.
pub struct Plan {
    bundle: Bundle,
    library: Library,
    books: List<Book>,
}

impl Drop for Plan {
    fn drop(self) {
        let Plan {
            bundle: _,
            library: _,
            books: _,
        } = self;
    }
}

impl Model for Plan {
    ghost use Rattle.script_plan.specs.Plan.{PlanData, IsSound};

    ghost Value = { PlanData };

    ghost view = { λ p. record { bundle = p.bundle; library = p.library; books = p.books } };

    ghost invariant = { λ p. IsSound (record { bundle = p.bundle; library = p.library; books = p.books }) };
}

impl Plan {
    /// The names of the threads, by their numbers.
    pub fn threads(&self) -> &List<ByteText>
        ensures { result.now ≡ self.now.bundle.threads }
    {
        &self.bundle.threads
    }

    /// The bundle.
    pub fn bundle(&self) -> &Bundle
        ensures bundle { result.now ≡ self.now.bundle }
        ensures sound { IsSound self.now }
    {
        &self.bundle
    }

    /// Its compiled locales.
    pub fn library(&self) -> &Library
        ensures { result.now ≡ self.now.library }
    {
        &self.library
    }

    /// Its message catalogs.
    pub fn books(&self) -> Books<'_>
        ensures { result ≡ books_of self.now }
    {
        Books::new(&self.bundle.catalogs, &self.books)
    }
}

/// How many of each a bundle has.
#[derive(Clone, Copy)]
pub struct Counts {
    /// `.locale` blocks; later versions are not counted, nor are catalogs.
    pub locales: u32,
    pub charmaps: u32,
    pub threads: u32,
    /// One more than the `.round` lines.
    pub rounds: u32,
    pub commands: u32,
}

/// Reads a bundle, compiles its locales and reads its message catalogs.
///
/// The refusal is the bundle's first fault: of its lines, then of its names, then of its charmaps,
/// its locale sources, its copies and its categories, and then of its catalogs.
pub fn prepare(alloc: Global, text: &[u8]) -> Result<Plan, TextFault>
    requires { length text.now < 2 ^ 31 }
    ensures { Gives (λ plan. plan) result (plan_of text.now) }
{
    let bundle = Bundle::read(alloc, text)?;
    let library = library_of(alloc, &bundle)?;
    match read_books(alloc, bundle.catalogs.as_slice()) {
        Ok(books) => Ok(Plan {
            bundle,
            library,
            books: List::of(books),
        }),
        Err(fault) => Err(fault_alone(bundle, library, fault)),
    }
}

/// The compiled locales of a bundle.
fn library_of(alloc: Global, bundle: &Bundle) -> Result<Library, TextFault>
    requires { IsAccepted bundle.now }
    ensures library { Gives (λ library. library) result (catalog bundle.now.charmaps bundle.now.locales bundle.now.later bundle.now.native) }
    ensures numbered { IfOk result IsNumbered }
    ensures installable { IfOk result IsInstallable }
{
    let native = bundle.native.as_ref().map(|name| name.as_bytes());
    Library::build(
        alloc,
        &bundle.charmaps,
        &bundle.locales,
        &bundle.later,
        native,
    )
}

/// A fault, once what was made before it is let go.
fn fault_alone(bundle: Bundle, library: Library, fault: TextFault) -> TextFault
    ensures { result ≡ fault }
{
    drop(library);
    drop(bundle);
    fault
}

/// Reads the message catalogs of blocks, in their order (XCU gencat).
fn read_books(alloc: Global, blocks: &[Block]) -> Result<Vec<Book>, TextFault>
    requires { All IsSized blocks.now }
    ensures { Gives (λ books. books.items) result (books_read blocks.now) }
{
    let mut books = Vec::new(alloc);
    for block in blocks {
        books.push(read_catalog(alloc, block.text.as_bytes(), block.first_line)?)?;
    }
    Ok(books)
}

/// Counts what an accepted bundle has. The refusals are those of `prepare`.
pub fn check(alloc: Global, text: &[u8]) -> Result<Counts, TextFault>
    requires { length text.now < 2 ^ 31 }
    ensures { Gives (λ counts. counts) result (counts_of text.now) }
{
    let plan = prepare(alloc, text)?;
    Ok(counts_in(&plan.bundle))
}

fn counts_in(bundle: &Bundle) -> Counts
    requires { IsAccepted bundle.now }
    ensures { result ≡ counts bundle.now }
{
    Counts {
        locales: bundle.locales.len() as u32,
        charmaps: bundle.charmaps.len() as u32,
        threads: bundle.threads.len() as u32,
        rounds: bundle.rounds,
        commands: bundle.commands.len() as u32,
    }
}
