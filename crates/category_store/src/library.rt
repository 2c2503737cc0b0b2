//! The library of a bundle's compiled locales.

ghost use Rattle.std.specs.Prelude.{◌≡◌, ◌+◌, ◌<◌, ◌≤◌, ◌^◌, List, Ok, Err, length, map, All, IfOk, MatchResult};
ghost use Rattle.std.specs.Option.{option_copied};
ghost use Rattle.lc_base.specs.Reading.{Gives};
ghost use Rattle.mask_compose.specs.Names.{spanned};
ghost use Rattle.locale_sources.specs.Seen.{source};
ghost use Rattle.lc_base.specs.Blocks.{IsSized};
ghost use Rattle.locale_sources.specs.Copies.{locale_numbers, copy_fault};
ghost use Rattle.category_store.specs.Compiled.{locales_of};
ghost use Rattle.category_store.specs.Library.{catalog, catalog_over, catalog_from, locale_at, number_of, number_in, numbers, names_given, posix_object, object_of, offer_at, first_offer, name_at, opening, later, unless_fault};
ghost use Rattle.category_store.specs.Joined.{joined, KeepsNumbers, StandsBehind, NamesLater, InstallsLater, NativeLater};
ghost use Rattle.category_store.specs.Shelf.{IsNumbered, IsInstallable};

use crate::joined::join_names;
use crate::names::{Names, plain_number};
use crate::share::Share;
use crate::{Charsets, Compiled, Locales, read_blocks};
use lc_base::{Block, ByName, Category, Later, List, Mask, TextFault};
use locale_sources::{Source, read_rows};
use mask_compose::{Object, Offer, read_names};
use std::alloc::{AllocError, Global};
use std::marker::Model;

/// The most locales of a bundle of which a library is built, and the most later versions.
pub const LIBRARY_LIMIT: usize = 4096;

/// The compiled locales of a bundle, with the numbers of their names.
pub struct Library {
    locales: Locales,
    names: Names,
}

impl Drop for Library {
    fn drop(self) {
        let Library {
            locales: _,
            names: _,
        } = self;
    }
}

impl Model for Library {
    ghost use Rattle.std.specs.Prelude.{length};
    ghost use Rattle.category_store.specs.LibraryData.{LibraryData};
    ghost use Rattle.category_store.specs.Within.{IsWithin};

    ghost Value = { LibraryData };

    ghost view = { λ l. record {
      locales = l.locales;
      names = l.names.names;
      first = l.names.first;
      keys = l.names.keys;
      native = l.names.native;
    } };

    ghost invariant = { λ l. IsWithin (length l.locales) l.names };
}

/// A category of the mask whose locale no block names.
#[derive(Clone, Copy, PartialEq, Eq)]
pub struct NoData {
    pub category: Category,
}

impl Library {
    /// Compiles the locales of a bundle and their later versions.
    ///
    /// The refusal is the first fault: of the charmaps in order, then of the sources in order of
    /// place, then `CopyMissing` or `CopyCycle` of a copy, and last of the categories, by locale in
    /// order of place and in a locale in the order of `Category`.
    pub fn build(
        alloc: Global,
        charmaps: &List<Block>,
        locales: &List<Block>,
        later: &List<Later>,
        native: Option<&[u8]>,
    ) -> Result<Library, TextFault>
        requires few { (length locales.now ≤ LIBRARY_LIMIT) × (length later.now ≤ LIBRARY_LIMIT) }
        requires charmaps { All IsSized charmaps.now }
        requires locales { All IsSized locales.now }
        requires later { All (λ l. IsSized l.block) later.now }
        ensures library { Gives (λ l. l) result (catalog charmaps.now locales.now later.now (option_copied native.entry)) }
        ensures numbered { IfOk result IsNumbered }
        ensures installable { IfOk result IsInstallable }
    {
        let charsets = Charsets::read(alloc, charmaps)?;
        library_over(alloc, &charsets, locales, later, native)
    }

    /// A library, and behind it another. Nothing is compiled: both may be given up before this one, or
    /// later.
    ///
    /// The locales of the earlier library keep their numbers, and those of the later follow them. A
    /// name or key of both means what it means in the later library, whose native locale is the
    /// native locale if it names one, the POSIX locale too.
    pub fn joined(alloc: Global, earlier: &Library, later: &Library) -> Result<Library, AllocError>
        requires { length earlier.now.locales + length later.now.locales < 2 ^ 31 }
        ensures library { IfOk result (λ l. l ≡ joined earlier.now later.now) }
        ensures kept { IfOk result (KeepsNumbers earlier.now) }
        ensures behind { IfOk result (StandsBehind (length earlier.now.locales) later.now) }
        ensures named { IfOk result (NamesLater earlier.now later.now) }
        ensures keyed { IfOk result (InstallsLater earlier.now later.now) }
        ensures native { IfOk result (NativeLater earlier.now later.now) }
        ensures numbered { IfOk result IsNumbered }
    {
        let count = earlier.locales.len() as u32;
        let names = join_names(alloc, &earlier.names, &later.names, count)?;
        let locales = Locales::joined(alloc, &earlier.locales, &later.locales)?;
        Ok(Library { locales, names })
    }

    /// The number of compiled locales.
    pub fn count(&self) -> usize
        ensures { result ≡ length self.now.locales }
    {
        self.locales.len()
    }

    /// The compiled locale of a share. The POSIX locale has the number 0, and stands for a number
    /// that the library does not have.
    pub fn compiled(&self, share: Share) -> Compiled<'_>
        ensures { result ≡ locale_at self.now share.number }
    {
        self.locales.get(share.number)
    }

    /// The object of the POSIX locale.
    pub fn posix(&self) -> Object<Share>
        ensures { result ≡ posix_object }
    {
        object_of(Mask::all(), 0)
    }

    /// The number of a name that is no mixed one.
    fn number_of(&self, name: &[u8]) -> Option<u32>
        ensures { result ≡ number_of self.now name.now }
    {
        if name.is_empty() {
            return Some(self.names.native.unwrap_or(0));
        }
        plain_number(&self.names.names, name)
    }

    /// The number of a name in a category.
    fn number_in(&self, mask: Mask, category: Category, name: &[u8]) -> Result<u32, NoData>
        ensures { MatchResult result (λ n. number_in self.now mask category name.now ≡ Ok n) (λ e. number_in self.now mask category name.now ≡ Err e.category) }
    {
        if !mask.has(category) {
            return Ok(0);
        }
        match self.number_of(name) {
            Some(number) => Ok(number),
            None => Err(NoData { category }),
        }
    }

    /// The numbers that a name gives the categories of the mask, in the order of the categories; 0
    /// outside of the mask. An empty name is the native locale's, and a mixed name gives each
    /// category its own part (XSH newlocale, setlocale).
    ///
    /// `NoData` names the first category of the mask whose locale no block names.
    pub fn numbers(&self, name: &[u8], mask: Mask) -> Result<[u32; 5], NoData>
        ensures { MatchResult result (λ ns. numbers self.now name.now mask ≡ Ok ns) (λ e. numbers self.now name.now mask ≡ Err e.category) }
    {
        let given = names_given(name);
        let ctype = self.number_in(mask, Category::Ctype, given[0])?;
        let numeric = self.number_in(mask, Category::Numeric, given[1])?;
        let monetary = self.number_in(mask, Category::Monetary, given[2])?;
        let time = self.number_in(mask, Category::Time, given[3])?;
        let messages = self.number_in(mask, Category::Messages, given[4])?;
        Ok([ctype, numeric, monetary, time, messages])
    }

    /// What a compiled locale offers.
    fn offer_at(&self, number: u32) -> Offer<Share>
        ensures { result ≡ offer_at self.now number }
    {
        let available = self.compiled(Share { number }).available();
        Offer {
            object: object_of(available, number),
            available,
        }
    }

    /// What a name offers at first.
    fn first_offer(&self, name: &[u8]) -> Offer<Share>
        ensures { result ≡ first_offer self.now name.now }
    {
        match self.names.first.get(name) {
            Some(number) => self.offer_at(*number),
            None => Offer {
                object: object_of(Mask::all(), 0),
                available: Mask::of_bits(0).unwrap(),
            },
        }
    }

    /// The number of names, without those of the POSIX locale.
    fn name_count(&self) -> usize
        ensures { result ≡ length self.now.names }
    {
        self.names.names.len()
    }

    /// A name by its place, from 0.
    fn name_at(&self, i: usize) -> &[u8]
        ensures { result.now ≡ name_at self.now i }
    {
        match self.names.names.name_at(i) {
            Some(name) => name,
            None => b"",
        }
    }

    /// What the names offer at first, by their numbers. A name that only a later version has offers
    /// nothing.
    pub fn opening(&self, alloc: Global) -> Result<List<Offer<Share>>, AllocError>
        ensures { IfOk result (λ offers. offers ≡ opening self.now) }
    {
        let mut offers = Vec::new(alloc);
        offers.push(self.offer_at(0))?;
        for i in 0..self.name_count() {
            offers.push(self.first_offer(self.name_at(i)))?;
        }
        Ok(List::of(offers))
    }

    /// What a key installs: the number of its name, and what that name offers from then on. `None`
    /// exactly where no block has the key.
    pub fn later(&self, key: &[u8]) -> Option<(u32, Offer<Share>)>
        ensures { result ≡ later self.now key.now }
    {
        let number = *self.names.keys.get(key)?;
        let name = self.compiled(Share { number }).name();
        let name_number = self.names.names.get(name).copied().unwrap_or(0);
        Some((name_number, self.offer_at(number)))
    }
}

/// The object with a number in the categories of a mask, and the POSIX locale in the others.
fn object_of(mask: Mask, number: u32) -> Object<Share>
    ensures { result ≡ object_of mask number }
{
    let part = |category: Category| Share {
        number: if mask.has(category) { number } else { 0 },
    };
    Object::of(
        part(Category::Ctype),
        part(Category::Numeric),
        part(Category::Monetary),
        part(Category::Time),
        part(Category::Messages),
    )
}

/// The names that a name gives the categories: the parts of a mixed one, or itself.
fn names_given(name: &[u8]) -> [&[u8]; 5]
    ensures { map (λ n. n.now) result ≡ names_given name.now }
{
    match read_names(name) {
        None => [name, name, name, name, name],
        Some(spans) => [
            spanned(name, spans[0]),
            spanned(name, spans[1]),
            spanned(name, spans[2]),
            spanned(name, spans[3]),
            spanned(name, spans[4]),
        ],
    }
}

/// The bytes of a span: its start and its length.
fn spanned(text: &[u8], span: (usize, usize)) -> &[u8]
    requires { span.0 + span.1 ≤ length text.now }
    ensures { result.now ≡ spanned text.now span }
{
    &text[span.0..span.0 + span.1]
}

/// Compiles the locales of sources, or refuses the first fault of their copies.
fn compile(alloc: Global, sources: &[Source<'_>], first: &ByName<u32>) -> Result<Locales, TextFault>
    requires known { first.now ≡ locale_numbers (map source sources.now) }
    requires few { length sources.now < 2 ^ 31 }
    ensures { let S = map source sources.now in Gives (λ l. l) result (unless_fault (copy_fault S) (locales_of S)) }
{
    let rows = read_rows(alloc, sources, first)?;
    Locales::compile(alloc, sources, rows)
}

/// The library of sources, or the first fault of their copies or categories.
fn library_of(
    alloc: Global,
    sources: &[Source<'_>],
    native: Option<&[u8]>,
) -> Result<Library, TextFault>
    requires { length sources.now < 2 ^ 31 }
    ensures library { Gives (λ l. l) result (catalog_from (option_copied native.entry) (map source sources.now)) }
    ensures numbered { IfOk result IsNumbered }
    ensures installable { IfOk result IsInstallable }
{
    let names = Names::read(alloc, sources, native)?;
    let locales = compile(alloc, sources, &names.first)?;
    Ok(Library { locales, names })
}

/// The library of the blocks of locales and later versions, over charsets that were read.
fn library_over(
    alloc: Global,
    charsets: &Charsets,
    locales: &List<Block>,
    later: &List<Later>,
    native: Option<&[u8]>,
) -> Result<Library, TextFault>
    requires few { (length locales.now ≤ LIBRARY_LIMIT) × (length later.now ≤ LIBRARY_LIMIT) }
    requires locales { All IsSized locales.now }
    requires later { All (λ l. IsSized l.block) later.now }
    ensures library { Gives (λ l. l) result (catalog_over charsets.now locales.now later.now (option_copied native.entry)) }
    ensures numbered { IfOk result IsNumbered }
    ensures installable { IfOk result IsInstallable }
{
    let sources = read_blocks(alloc, charsets, locales, later)?;
    library_of(alloc, sources.as_slice(), native)
}
