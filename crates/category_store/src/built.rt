//! Categories that are compiled from keyword lists.

ghost use Rattle.std.specs.Prelude.{◌≡◌, IfOk};
ghost use Rattle.lc_base.specs.Reading.{Reads, Gives};
ghost use Rattle.category_store.specs.Written.{Written as List};
ghost use Rattle.category_store.specs.SeenWritten.{written};

use crate::written::Written;
use ctype_classes::Ctype;
use lc_base::TextFault;
use messages_cat::Messages;
use monetary_cat::Monetary;
use numeric_cat::Numeric;
use std::alloc::{AllocError, Global};
use time_cat::Time;

/// A category that is compiled from a keyword list.
pub trait Built: Drop {
    /// What a keyword list gives.
    ghost gives: { List → Reads Self };

    /// The category of the POSIX locale.
    ghost posix_value: { Self };

    /// Compiles a keyword list.
    fn build(alloc: Global, list: Written<'_>) -> Result<Self, TextFault>
        ensures { Gives (λ c. c) result (gives (written list.entry)) };

    /// The category of the POSIX locale.
    fn posix(alloc: Global) -> Result<Self, AllocError>
        ensures { IfOk result (λ c. c ≡ posix_value) };
}

impl Built for Ctype {
    ghost use Rattle.ctype_classes.specs.Ctype.{posix_values};
    ghost use Rattle.category_store.specs.Compiled.{ctype_of};

    ghost gives = { ctype_of };

    ghost posix_value = { posix_values };

    fn build(alloc: Global, list: Written<'_>) -> Result<Ctype, TextFault> {
        Ctype::build(alloc, list.entries, list.place, list.charset)
    }

    fn posix(alloc: Global) -> Result<Ctype, AllocError> {
        Ctype::posix(alloc)
    }
}

impl Built for Numeric {
    ghost use Rattle.numeric_cat.specs.Numeric.{posix_values};
    ghost use Rattle.category_store.specs.Compiled.{numeric_of};

    ghost gives = { numeric_of };

    ghost posix_value = { posix_values };

    fn build(alloc: Global, list: Written<'_>) -> Result<Numeric, TextFault> {
        Numeric::build(alloc, list.entries)
    }

    fn posix(alloc: Global) -> Result<Numeric, AllocError> {
        Numeric::posix(alloc)
    }
}

impl Built for Monetary {
    ghost use Rattle.monetary_cat.specs.Monetary.{posix_values};
    ghost use Rattle.category_store.specs.Compiled.{monetary_of};

    ghost gives = { monetary_of };

    ghost posix_value = { posix_values };

    fn build(alloc: Global, list: Written<'_>) -> Result<Monetary, TextFault> {
        Monetary::build(alloc, list.entries)
    }

    fn posix(alloc: Global) -> Result<Monetary, AllocError> {
        Monetary::posix(alloc)
    }
}

impl Built for Time {
    ghost use Rattle.time_cat.specs.Values.{posix_values};
    ghost use Rattle.category_store.specs.Compiled.{time_of};

    ghost gives = { time_of };

    ghost posix_value = { posix_values };

    fn build(alloc: Global, list: Written<'_>) -> Result<Time, TextFault> {
        Time::build(alloc, list.entries)
    }

    fn posix(alloc: Global) -> Result<Time, AllocError> {
        Time::posix(alloc)
    }
}

impl Built for Messages {
    ghost use Rattle.messages_cat.specs.Messages.{posix_values};
    ghost use Rattle.category_store.specs.Compiled.{messages_of};

    ghost gives = { messages_of };

    ghost posix_value = { posix_values };

    fn build(alloc: Global, list: Written<'_>) -> Result<Messages, TextFault> {
        Messages::build(alloc, list.entries)
    }

    fn posix(alloc: Global) -> Result<Messages, AllocError> {
        Messages::posix(alloc)
    }
}
