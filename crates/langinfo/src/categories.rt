//! What has the categories of a locale.

ghost use Rattle.std.specs.Prelude.{◌≡◌};
ghost use Rattle.ctype_classes.specs.CtypeValues.{CtypeValues};
ghost use Rattle.numeric_cat.specs.NumericValues.{NumericValues};
ghost use Rattle.monetary_cat.specs.Monetary.{MonetaryValues};
ghost use Rattle.time_cat.specs.TimeValues.{TimeValues};
ghost use Rattle.messages_cat.specs.MessagesValues.{MessagesValues};

use ctype_classes::Ctype;
use messages_cat::Messages;
use monetary_cat::Monetary;
use numeric_cat::Numeric;
use time_cat::Time;

/// What has the categories of a locale. An item asks for the one that it reads.
pub trait Categories {
    /// The values of `LC_CTYPE`.
    ghost ctype_of: { Self → CtypeValues };

    /// The values of `LC_NUMERIC`.
    ghost numeric_of: { Self → NumericValues };

    /// The values of `LC_MONETARY`.
    ghost monetary_of: { Self → MonetaryValues };

    /// The values of `LC_TIME`.
    ghost time_of: { Self → TimeValues };

    /// The values of `LC_MESSAGES`.
    ghost messages_of: { Self → MessagesValues };

    /// The `LC_CTYPE`.
    fn ctype(&self) -> &Ctype
        ensures { result.now ≡ ctype_of self.now };

    /// The `LC_NUMERIC`.
    fn numeric(&self) -> &Numeric
        ensures { result.now ≡ numeric_of self.now };

    /// The `LC_MONETARY`.
    fn monetary(&self) -> &Monetary
        ensures { result.now ≡ monetary_of self.now };

    /// The `LC_TIME`.
    fn time(&self) -> &Time
        ensures { result.now ≡ time_of self.now };

    /// The `LC_MESSAGES`.
    fn messages(&self) -> &Messages
        ensures { result.now ≡ messages_of self.now };
}

/// The categories of a locale, lent.
#[derive(Clone, Copy)]
pub struct LentCategories<'a> {
    pub ctype: &'a Ctype,
    pub numeric: &'a Numeric,
    pub monetary: &'a Monetary,
    pub time: &'a Time,
    pub messages: &'a Messages,
}

impl<'a> Categories for LentCategories<'a> {
    ghost ctype_of = { λ g. g.ctype.now };

    ghost numeric_of = { λ g. g.numeric.now };

    ghost monetary_of = { λ g. g.monetary.now };

    ghost time_of = { λ g. g.time.now };

    ghost messages_of = { λ g. g.messages.now };

    fn ctype(&self) -> &Ctype {
        self.ctype
    }

    fn numeric(&self) -> &Numeric {
        self.numeric
    }

    fn monetary(&self) -> &Monetary {
        self.monetary
    }

    fn time(&self) -> &Time {
        self.time
    }

    fn messages(&self) -> &Messages {
        self.messages
    }
}
