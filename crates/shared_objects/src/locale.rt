//! Locales as plain values.

ghost use Rattle.std.specs.Prelude.{◌≡◌};
ghost use Rattle.mask_compose.specs.Parts.{part_of};
ghost use Rattle.shared_objects.specs.Locales.{locale_of, parts_of};

use category_store::Share;
use lc_base::Category;
use mask_compose::Object;

/// A locale of a library: the mark of the library, and the numbers of the compiled locales that have its
/// categories. C has `lobj_locale` for it.
#[repr(C)]
#[derive(Clone, Copy)]
pub struct LocaleParts {
    pub mark: u64,
    pub ctype: u32,
    pub numeric: u32,
    pub monetary: u32,
    pub time: u32,
    pub messages: u32,
}

impl LocaleParts {
    /// The number of the compiled locale that has a category.
    #[inline(always)]
    pub(crate) fn number(&self, category: Category) -> u32
        ensures { result ≡ part_of (parts_of self.now) category }
    {
        match category {
            Category::Ctype => self.ctype,
            Category::Numeric => self.numeric,
            Category::Monetary => self.monetary,
            Category::Time => self.time,
            Category::Messages => self.messages,
        }
    }
}

/// The locale of an object over the library with a mark.
pub(crate) fn locale_of(mark: u64, object: &Object<Share>) -> LocaleParts
    ensures { result ≡ locale_of mark object.now }
{
    LocaleParts {
        mark,
        ctype: object.part(Category::Ctype).number,
        numeric: object.part(Category::Numeric).number,
        monetary: object.part(Category::Monetary).number,
        time: object.part(Category::Time).number,
        messages: object.part(Category::Messages).number,
    }
}

/// The object of a locale.
pub(crate) fn object_of(locale: &LocaleParts) -> Object<Share>
    ensures { result ≡ parts_of locale.now }
{
    Object::of(
        Share {
            number: locale.ctype,
        },
        Share {
            number: locale.numeric,
        },
        Share {
            number: locale.monetary,
        },
        Share {
            number: locale.time,
        },
        Share {
            number: locale.messages,
        },
    )
}
