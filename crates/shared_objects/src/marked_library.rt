//! A library of compiled locales and message catalogs, with its mark.

ghost use Rattle.std.specs.Prelude.{◌≡◌, ◌<◌, ◌^◌, length, Some, None, IfOk};
ghost use Rattle.std.specs.Option.{option_copied};
ghost use Rattle.lc_base.specs.Reading.{Gives};
ghost use Rattle.library_parts.specs.Told as told;
ghost use Rattle.script_lang.specs.Accepted.{IsAccepted};
ghost use Rattle.shared_objects.specs.Objects.{catalog_of};
ghost use Rattle.shared_objects.specs.Locales.{marked_in, marked_of, has_number, name_with, has_locale, shared_of, posix_of, located, new_locale};
ghost use Rattle.shared_objects.specs.Catalogs.{catalog_with, has_catalog, message_in, opened};
ghost use Rattle.shared_objects.specs.Joined.{has_room, Joins};
ghost use Rattle.shared_objects.specs.Parts.{marked_built};

use crate::catalog::CatalogParts;
use crate::draft::copied_parts;
use crate::fault::{JoinFault, NewFault, OpenFault};
use crate::locale::{LocaleParts, locale_of, object_of};
use crate::mark::{joined_mark, parts_mark, text_mark};
use crate::view::View;
use crate::with_offers::LibraryWithOffers;
use category_store::{Library, Share};
use lc_base::{Category, Mask, TextFault};
use library_parts::{Books, LibraryPart, Made, PART_LIMIT, PartFault, made_of};
use mask_compose::Object;
use script_lang::Bundle;
use std::alloc::{AllocError, Global};
use std::marker::Model;

/// A library: its compiled locales, its message catalogs, and the mark of what it was made of. It never changes.
pub struct MarkedLibrary {
    with_offers: LibraryWithOffers,
    books: Books,
    mark: u64,
}

impl Drop for MarkedLibrary {
    fn drop(self) {
        let MarkedLibrary {
            with_offers: _,
            books: _,
            mark: _,
        } = self;
    }
}

impl Model for MarkedLibrary {
    ghost use Rattle.shared_objects.specs.Shared.{MarkedLibraryData};

    ghost Value = { MarkedLibraryData };

    ghost view = { λ s. record { library = s.with_offers; books = s.books; mark = s.mark } };
}

impl MarkedLibrary {
    /// The library of the charmaps, locales and message catalogs of a text in the form of a bundle. The
    /// commands of the bundle are read and passed over.
    ///
    /// The refusal is the bundle's first fault, and where it has none, that of its locales, and then
    /// that of its catalogs.
    pub fn read(alloc: Global, text: &[u8]) -> Result<MarkedLibrary, TextFault>
        requires { length text.now < 2 ^ 31 }
        ensures { Gives (λ s. s) result (marked_in text.now) }
    {
        let bundle = Bundle::read(alloc, text)?;
        MarkedLibrary::of_bundle(alloc, &bundle, text_mark(text))
    }

    /// The library of a bundle, with a mark.
    fn of_bundle(alloc: Global, bundle: &Bundle, mark: u64) -> Result<MarkedLibrary, TextFault>
        requires { IsAccepted bundle.now }
        ensures { Gives (λ s. s) result (marked_of bundle.now mark) }
    {
        let library = library_of(alloc, bundle)?;
        let with_offers = LibraryWithOffers::of(alloc, library)?;
        let books = Books::read(alloc, bundle.catalogs.as_slice())?;
        Ok(MarkedLibrary {
            with_offers,
            books,
            mark,
        })
    }

    /// The library of parts: charmaps, locale sources and message catalogs.
    ///
    /// The refusal is the first fault, with the number of the part that has it.
    pub fn build(alloc: Global, parts: &[LibraryPart]) -> Result<MarkedLibrary, PartFault>
        ensures { told.Gives (λ s. s) result (marked_built parts.now) }
    {
        let made = made_of(alloc, copied_parts(alloc, parts)?)?;
        Ok(MarkedLibrary::of_made(alloc, made, parts_mark(parts))?)
    }

    /// The library that was made of parts, with a mark.
    fn of_made(alloc: Global, made: Made, mark: u64) -> Result<MarkedLibrary, AllocError>
        ensures { IfOk result (λ s. s ≡ record { library = made.library; books = made.books; mark = mark }) }
    {
        let (library, books) = made.into_both();
        let with_offers = LibraryWithOffers::of(alloc, library)?;
        Ok(MarkedLibrary {
            with_offers,
            books,
            mark,
        })
    }

    /// Whether two libraries together have no more locales and catalogs than one may have.
    fn has_room(&self, other: &MarkedLibrary) -> bool
        ensures { result ≡ has_room self.now other.now }
    {
        self.with_offers.count() as u128 + other.with_offers.count() as u128 <= PART_LIMIT as u128
            && self.books.len() as u128 + other.books.len() as u128 <= PART_LIMIT as u128
    }

    /// A library, and behind it another, whose meaning of a name of both holds. Nothing is read again:
    /// both may be dropped before the new one, or later.
    pub fn join(
        alloc: Global,
        first: &MarkedLibrary,
        second: &MarkedLibrary,
    ) -> Result<MarkedLibrary, JoinFault>
        ensures { Joins result first.now second.now }
    {
        if first.has_room(second) {
            let with_offers = LibraryWithOffers::joined(
                alloc,
                &first.with_offers,
                &second.with_offers,
            )?;
            let books = Books::joined(alloc, &first.books, &second.books)?;
            Ok(MarkedLibrary {
                with_offers,
                books,
                mark: joined_mark(first.mark, second.mark),
            })
        } else {
            Err(JoinFault::TooMany)
        }
    }

    /// The POSIX locale.
    pub fn posix(&self) -> LocaleParts
        ensures { result ≡ posix_of self.now }
    {
        LocaleParts {
            mark: self.mark,
            ctype: 0,
            numeric: 0,
            monetary: 0,
            time: 0,
            messages: 0,
        }
    }

    /// Whether the library has a compiled locale with a number.
    #[inline(always)]
    fn has_number(&self, number: u32) -> bool
        ensures { result ≡ has_number self.now number }
    {
        number as usize <= self.with_offers.count()
    }

    /// Whether a locale is of this library.
    #[inline(always)]
    fn has(&self, locale: &LocaleParts) -> bool
        ensures { result ≡ has_locale self.now locale.now }
    {
        locale.mark == self.mark
            && self.has_number(locale.ctype)
            && self.has_number(locale.numeric)
            && self.has_number(locale.monetary)
            && self.has_number(locale.time)
            && self.has_number(locale.messages)
    }

    /// The name of the compiled locale with a number: `C` of 0, and that of the i-th locale or later
    /// version of i. `None` exactly where the library has no such number.
    pub fn name_at(&self, number: u32) -> Option<&[u8]>
        ensures { option_copied result ≡ name_with self.now number }
    {
        if self.has_number(number) {
            Some(self.with_offers.compiled(Share { number }).name())
        } else {
            None
        }
    }

    /// What a locale of this library is.
    #[inline(always)]
    pub fn view<'a>(&'a self, locale: &'a LocaleParts) -> Option<View<'a>>
        ensures { result ≡ shared_of self.now locale.now }
    {
        if self.has(locale) {
            Some(View::of(&self.with_offers, locale))
        } else {
            None
        }
    }

    /// The locale of composed parts.
    fn located(&self, composed: Result<Object<Share>, Category>) -> Result<LocaleParts, NewFault>
        ensures { result ≡ located self.now composed }
    {
        match composed {
            Ok(object) => Ok(locale_of(self.mark, &object)),
            Err(category) => Err(NewFault::NoData(category)),
        }
    }

    /// The locale of a name in the categories of a mask, and of the base in the others (XSH
    /// newlocale).
    ///
    /// `NoLocale` says that the base is no locale of this library, and `NoData` names the first
    /// category of the mask that no locale with its name has.
    pub fn new_locale(
        &self,
        mask: Mask,
        name: &[u8],
        base: &LocaleParts,
    ) -> Result<LocaleParts, NewFault>
        ensures { result ≡ new_locale self.now mask name.now base.now }
    {
        if self.has(base) {
            self.located(self.with_offers.compose(mask, name, &object_of(base)))
        } else {
            Err(NewFault::NoLocale)
        }
    }

    /// The catalog with a number.
    fn catalog_with(&self, number: Option<u32>) -> Result<CatalogParts, OpenFault>
        ensures { result ≡ catalog_with self.now number }
    {
        match number {
            Some(number) => Ok(CatalogParts {
                mark: self.mark,
                number,
            }),
            None => Err(OpenFault::NoCatalog),
        }
    }

    /// The catalog that a name opens for a locale: that for the name of its `LC_MESSAGES` (XSH
    /// catopen).
    pub fn open_catalog(&self, locale: &LocaleParts, name: &[u8]) -> Result<CatalogParts, OpenFault>
        ensures { result ≡ opened self.now locale.now name.now }
    {
        match self.view(locale) {
            Some(view) => {
                self.catalog_with(self.books.number(name, view.name(Category::Messages)))
            }
            None => Err(OpenFault::NoLocale),
        }
    }

    /// Whether a catalog is of this library.
    pub fn has_catalog(&self, catalog: &CatalogParts) -> bool
        ensures { result ≡ has_catalog self.now catalog.now }
    {
        catalog.mark == self.mark && (catalog.number as usize) < self.books.len()
    }

    /// The text of a message of a catalog of this library (XSH catgets).
    pub fn message(&self, catalog: &CatalogParts, set: u32, number: u32) -> Option<&[u8]>
        ensures { option_copied result ≡ message_in self.now catalog.now set number }
    {
        if self.has_catalog(catalog) {
            self.books.message(catalog.number, set, number)
        } else {
            None
        }
    }
}

/// The library of a bundle.
fn library_of(alloc: Global, bundle: &Bundle) -> Result<Library, TextFault>
    requires { IsAccepted bundle.now }
    ensures { Gives (λ l. l) result (catalog_of bundle.now) }
{
    let native = bundle.native.as_ref().map(|name| name.as_bytes());
    Library::build(
        alloc,
        &bundle.charmaps,
        &bundle.locales,
        &bundle.later,
        native,
    )
}
