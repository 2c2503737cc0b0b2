//! A library with what its names offer.

ghost use Rattle.std.specs.Prelude.{◌≡◌, IfOk, ◌+◌, ◌^◌, ◌<◌, length};
ghost use Rattle.std.specs.List.{find};
ghost use Rattle.lc_base.specs.declared.category.Category.{Category};
ghost use Rattle.category_store.specs.Joined.{joined};
ghost use Rattle.category_store.specs.Library.{locale_at};
ghost use Rattle.shared_objects.specs.Objects.{offer_of, is_lacking, lacking, picked_part, picked, composed_from, new_parts};
ghost use Rattle.lc_base.specs.Categories.{number_for};

use category_store::{Compiled, Library, NoData, Share};
use lc_base::{CATEGORIES, Category, List, Mask, number_for};
use mask_compose::{Object, Offer, compose};
use std::alloc::{AllocError, Global};
use std::marker::Model;

/// A library with what its names offer.
pub struct LibraryWithOffers {
    library: Library,
    offers: List<Offer<Share>>,
}

impl Drop for LibraryWithOffers {
    fn drop(self) {
        let LibraryWithOffers {
            library: _,
            offers: _,
        } = self;
    }
}

impl Model for LibraryWithOffers {
    ghost use Rattle.std.specs.Prelude.{◌≡◌};
    ghost use Rattle.category_store.specs.LibraryData.{LibraryData};
    ghost use Rattle.category_store.specs.Library.{opening};

    ghost Value = { LibraryData };

    ghost view = { λ s. s.library };

    ghost invariant = { λ s. s.offers ≡ opening s.library };
}

impl LibraryWithOffers {
    /// A library with what its names offer at first.
    pub fn of(alloc: Global, library: Library) -> Result<LibraryWithOffers, AllocError>
        ensures { IfOk result (λ s. s ≡ library) }
    {
        let offers = library.opening(alloc)?;
        Ok(LibraryWithOffers { library, offers })
    }

    /// Two libraries as one, with what its names offer at first.
    pub fn joined(
        alloc: Global,
        first: &LibraryWithOffers,
        second: &LibraryWithOffers,
    ) -> Result<LibraryWithOffers, AllocError>
        requires { length first.now.locales + length second.now.locales < 2 ^ 31 }
        ensures { IfOk result (λ s. s ≡ joined first.now second.now) }
    {
        let library = Library::joined(alloc, &first.library, &second.library)?;
        LibraryWithOffers::of(alloc, library)
    }

    /// The number of compiled locales.
    #[inline(always)]
    pub fn count(&self) -> usize
        ensures { result ≡ length self.now.locales }
    {
        self.library.count()
    }

    /// The compiled locale of a share.
    pub fn compiled(&self, share: Share) -> Compiled<'_>
        ensures { result ≡ locale_at self.now share.number }
    {
        self.library.compiled(share)
    }

    /// What the name with a number offers.
    fn offer_of(&self, number: u32) -> Offer<Share>
        ensures { result ≡ offer_of self.now number }
    {
        match self.offers.as_slice().get(number as usize) {
            Some(offer) => offer.share(),
            None => Offer {
                object: self.library.posix(),
                available: no_category(),
            },
        }
    }

    /// Whether the mask has a category that the offer of its name lacks.
    fn is_lacking(&self, mask: Mask, numbers: &[u32; 5], category: Category) -> bool
        ensures { result ≡ is_lacking self.now mask numbers.now category }
    {
        let offer = self.offer_of(number_for(numbers, category));
        mask.has(category) && !offer.available.has(category)
    }

    /// The first of the categories that the mask has and the offer of its name lacks.
    fn first_lacking(
        &self,
        mask: Mask,
        numbers: &[u32; 5],
        categories: &[Category],
    ) -> Option<Category>
        ensures { result ≡ find (is_lacking self.now mask numbers.now) categories.now }
    {
        for category in categories {
            if self.is_lacking(mask, numbers, *category) {
                return Some(*category);
            }
        }
        None
    }

    /// The first category of the mask that the offer of its name lacks.
    fn lacking(&self, mask: Mask, numbers: &[u32; 5]) -> Option<Category>
        ensures { result ≡ lacking self.now mask numbers.now }
    {
        self.first_lacking(mask, numbers, &CATEGORIES)
    }

    /// The part that the offer of a category's name has.
    fn picked_part(&self, numbers: &[u32; 5], category: Category) -> Share
        ensures { result.number ≡ picked_part self.now numbers.now category }
    {
        *self
            .offer_of(number_for(numbers, category))
            .object
            .part(category)
    }

    /// The parts that the offers of names have.
    fn picked(&self, numbers: &[u32; 5]) -> Object<Share>
        ensures { result ≡ picked self.now numbers.now }
    {
        Object::of(
            self.picked_part(numbers, Category::Ctype),
            self.picked_part(numbers, Category::Numeric),
            self.picked_part(numbers, Category::Monetary),
            self.picked_part(numbers, Category::Time),
            self.picked_part(numbers, Category::Messages),
        )
    }

    /// The object of names by their numbers, or the first category of the mask without data.
    fn composed_from(
        &self,
        mask: Mask,
        numbers: &[u32; 5],
        base: &Object<Share>,
    ) -> Result<Object<Share>, Category>
        ensures { result ≡ composed_from self.now mask numbers.now base.now }
    {
        match self.lacking(mask, numbers) {
            Some(category) => Err(category),
            None => Ok(compose(mask, &self.picked(numbers), base)),
        }
    }

    /// The object of a name in the categories of a mask, and of a base in the others; or the first
    /// category of the mask that no locale with its name has.
    pub fn compose(
        &self,
        mask: Mask,
        name: &[u8],
        base: &Object<Share>,
    ) -> Result<Object<Share>, Category>
        ensures { result ≡ new_parts self.now mask name.now base.now }
    {
        match self.library.numbers(name, mask) {
            Ok(numbers) => self.composed_from(mask, &numbers, base),
            Err(NoData { category }) => Err(category),
        }
    }
}

/// The empty mask.
fn no_category() -> Mask
    ensures { result ≡ 0 }
{
    match Mask::of_bits(0) {
        Some(mask) => mask,
        None => unreachable!(),
    }
}
