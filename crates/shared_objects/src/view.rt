//! A library as one of its locales has it.

ghost use Rattle.std.specs.Prelude.{◌≡◌};
ghost use Rattle.shared_objects.specs.Locales.{parts_of};
ghost use Rattle.shared_objects.specs.Objects.{compiled_in};

use crate::locale::LocaleParts;
use crate::with_offers::LibraryWithOffers;
use category_store::{Compiled, Share};
use lc_base::Category;
use std::marker::Model;

/// A library and one of its locales. Whatever is read of it takes no memory and writes nothing.
pub struct View<'a> {
    with_offers: &'a LibraryWithOffers,
    locale: &'a LocaleParts,
}

impl<'a> Drop for View<'a> {
    fn drop(self) {
        let View {
            with_offers: _,
            locale: _,
        } = self;
    }
}

impl<'a> Model for View<'a> {
    ghost use Rattle.shared_objects.specs.Shared.{Shared};
    ghost use Rattle.shared_objects.specs.Locales.{parts_of};

    ghost Value = { Shared };

    ghost view = { λ v. record { library = v.with_offers.now; object = parts_of v.locale.now } };
}

impl<'a> View<'a> {
    /// A library and one of its locales.
    #[inline(always)]
    pub(crate) fn of(with_offers: &'a LibraryWithOffers, locale: &'a LocaleParts) -> View<'a>
        ensures { result ≡ record { library = with_offers.now; object = parts_of locale.now } }
    {
        View {
            with_offers,
            locale,
        }
    }

    /// The compiled locale of a category.
    #[inline(always)]
    pub(crate) fn compiled(&self, category: Category) -> Compiled<'_>
        ensures { result ≡ compiled_in self.now category }
    {
        self.with_offers.compiled(Share {
            number: self.locale.number(category),
        })
    }
}
