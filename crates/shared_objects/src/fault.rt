//! Why there is no locale, no catalog and no library.

ghost use Rattle.std.specs.Prelude.{◌≡◌};
ghost use Rattle.shared_objects.specs.declared.fault.JoinFault.TheVariants.{Memory};

use lc_base::Category;
use std::alloc::AllocError;
use thiserror::Error;

/// Why a library, a mask, a name and a base make no locale.
#[derive(Clone, Copy, Debug, PartialEq, Eq, Error)]
pub enum NewFault {
    /// The base is no locale of the library.
    #[error("the base is no locale of the library")]
    NoLocale,
    /// The category of the mask for which no locale with its name has data, the first one.
    #[error("no locale has data for a category")]
    NoData(Category),
}

/// Why no catalog is opened.
#[derive(Clone, Copy, PartialEq, Eq)]
pub enum OpenFault {
    /// The locale is none of the library.
    NoLocale,
    /// No catalog has the name for the locale.
    NoCatalog,
}

/// Why two libraries are not joined.
#[derive(Clone, Copy, PartialEq, Eq)]
pub enum JoinFault {
    /// They have more than 4096 locales together, or more than 4096 catalogs.
    TooMany,
    /// Out of memory.
    Memory,
}

impl From<AllocError> for JoinFault {
    ghost from_gives = { λ _ e. e ≡ Memory };

    fn from(_e: AllocError) -> JoinFault {
        JoinFault::Memory
    }
}
