//! Why a library is not made of its parts.

ghost use Rattle.std.specs.Prelude.{◌≡◌};
ghost use Rattle.library_parts.specs.declared.fault.PartFault.TheVariants.{Memory};

use lc_base::{Place, Reason};
use std::alloc::{AllocError, AllocFailed};

/// A rule that a part breaks.
#[derive(Clone, Copy, PartialEq, Eq)]
pub enum Wrong {
    /// The text has 2^31 bytes or more, or stands behind so many lines of other parts.
    TooLong,
    /// The name or the label is not formed as one of the part's kind.
    BadName,
    /// A part of the kind has the name, and of a catalog the locale, already.
    NameTwice,
    /// There are more than 4096 parts of the kind.
    TooMany,
    /// The charset is neither built in nor a charmap among the parts.
    NoCharmap,
    /// The text breaks a rule at a place of its own.
    Text(Place, Reason),
}

/// Why a library is not made.
#[derive(Clone, Copy, PartialEq, Eq)]
pub enum PartFault {
    /// The first broken rule, and the number of the part that breaks it, from 0.
    At(usize, Wrong),
    /// Out of memory.
    Memory,
}

impl From<AllocError> for PartFault {
    ghost from_gives = { λ _ e. e ≡ Memory };

    fn from(_e: AllocError) -> PartFault {
        PartFault::Memory
    }
}

impl<T: Drop> From<AllocFailed<T>> for PartFault {
    ghost from_gives = { λ _ e. e ≡ Memory };

    fn from(_e: AllocFailed<T>) -> PartFault {
        PartFault::Memory
    }
}
