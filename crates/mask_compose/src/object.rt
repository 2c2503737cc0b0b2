//! Locale objects and how they are composed.

ghost use Rattle.std.specs.Prelude.{◌≡◌};
ghost use Rattle.lc_base.specs.declared.category.Category.{Category};
ghost use Rattle.mask_compose.specs.Parts.{part_of, composed};

use crate::part::Part;
use lc_base::{ByCategory, Category, Mask};
use std::marker::Model;

/// A locale object: a part for each category (POSIX.1-2017, XBD 3.204 and XSH newlocale).
pub struct Object<P: Part> {
    parts: ByCategory<P>,
}

impl<P: Part> Drop for Object<P> {
    fn drop(self) {
        let Object { parts: _ } = self;
    }
}

impl<P: Part> Model for Object<P> {
    ghost use Rattle.mask_compose.specs.Parts.{Parts};

    ghost Value = { Parts };

    ghost view = { λ o. record {
      ctype = P.number o.parts.ctype;
      numeric = P.number o.parts.numeric;
      monetary = P.number o.parts.monetary;
      time = P.number o.parts.time;
      messages = P.number o.parts.messages;
    } };
}

impl<P: Part> Object<P> {
    /// The object of these parts.
    pub fn of(ctype: P, numeric: P, monetary: P, time: P, messages: P) -> Object<P>
        ensures ctype { result.ctype ≡ P.number ctype }
        ensures numeric { result.numeric ≡ P.number numeric }
        ensures monetary { result.monetary ≡ P.number monetary }
        ensures time { result.time ≡ P.number time }
        ensures messages { result.messages ≡ P.number messages }
    {
        Object {
            parts: ByCategory {
                ctype,
                numeric,
                monetary,
                time,
                messages,
            },
        }
    }

    /// The part of a category.
    pub fn part(&self, category: Category) -> &P
        ensures { P.number result.now ≡ part_of self.now category }
    {
        self.parts.get(category)
    }

    /// The object once more, without taking memory.
    pub fn share(&self) -> Object<P>
        ensures { result ≡ self.now }
    {
        let parts = &self.parts;
        Object::of(
            parts.ctype.share(),
            parts.numeric.share(),
            parts.monetary.share(),
            parts.time.share(),
            parts.messages.share(),
        )
    }
}

/// The object with the parts of `picks` in the categories of the mask and those of `base` in the
/// others (XSH newlocale and setlocale). Takes no memory.
pub fn compose<P: Part>(mask: Mask, picks: &Object<P>, base: &Object<P>) -> Object<P>
    ensures composed { result ≡ composed mask picks.now base.now }
{
    let chosen = |category: Category| {
        let from = if mask.has(category) { picks } else { base };
        from.part(category).share()
    };
    Object::of(
        chosen(Category::Ctype),
        chosen(Category::Numeric),
        chosen(Category::Monetary),
        chosen(Category::Time),
        chosen(Category::Messages),
    )
}
