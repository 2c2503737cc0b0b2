//! A compiled locale.

ghost use Rattle.std.specs.Prelude.{◌≡◌};
ghost use Rattle.category_store.specs.Kept.{locale_with};

use crate::kept::CategoryLists;
use ctype_classes::Ctype;
use lc_base::{ByCategory, Mask};
use messages_cat::Messages;
use monetary_cat::Monetary;
use numeric_cat::Numeric;
use std::marker::Model;
use time_cat::Time;

/// A compiled locale of a library. A category that it lacks is the POSIX locale's.
#[derive(Drop)]
pub struct Compiled<'a> {
    name: &'a [u8],
    available: Mask,
    kept: &'a CategoryLists,
    ends: &'a ByCategory<u32>,
}

impl<'a> Model for Compiled<'a> {
    ghost use Rattle.category_store.specs.Locale.{Locale};
    ghost use Rattle.category_store.specs.Kept.{locale_with};

    ghost Value = { Locale };

    ghost view = { λ c. locale_with c.name.now c.available c.kept.now c.ends.now };
}

impl<'a> Compiled<'a> {
    pub(crate) fn of(
        name: &'a [u8],
        available: Mask,
        kept: &'a CategoryLists,
        ends: &'a ByCategory<u32>,
    ) -> Compiled<'a>
        ensures { result ≡ locale_with name.now available kept.now ends.now }
    {
        Compiled {
            name,
            available,
            kept,
            ends,
        }
    }

    /// The name of the locale; that of the POSIX locale is `C`.
    pub fn name(&self) -> &'a [u8]
        ensures { result.now ≡ self.now.name }
    {
        self.name
    }

    /// The categories that the locale has.
    pub fn available(&self) -> Mask
        ensures { result ≡ self.now.available }
    {
        self.available
    }

    /// The locale's LC_CTYPE.
    pub fn ctype(&self) -> &'a Ctype
        ensures { result.now ≡ self.now.ctype }
    {
        self.kept.ctype.get(self.ends.ctype)
    }

    /// The locale's LC_NUMERIC.
    pub fn numeric(&self) -> &'a Numeric
        ensures { result.now ≡ self.now.numeric }
    {
        self.kept.numeric.get(self.ends.numeric)
    }

    /// The locale's LC_MONETARY.
    pub fn monetary(&self) -> &'a Monetary
        ensures { result.now ≡ self.now.monetary }
    {
        self.kept.monetary.get(self.ends.monetary)
    }

    /// The locale's LC_TIME.
    pub fn time(&self) -> &'a Time
        ensures { result.now ≡ self.now.time }
    {
        self.kept.time.get(self.ends.time)
    }

    /// The locale's LC_MESSAGES.
    pub fn messages(&self) -> &'a Messages
        ensures { result.now ≡ self.now.messages }
    {
        self.kept.messages.get(self.ends.messages)
    }
}
