//! Why a piece of a line is not read.

ghost use Rattle.std.specs.Prelude.{◌≡◌};
ghost use Rattle.output_reader.specs.declared.unread.Unread.TheVariants.{Memory};

use std::alloc::{AllocError, AllocFailed};

/// Why a piece of a line is not read.
#[derive(Clone, Copy)]
pub enum Unread {
    /// No value prints as these bytes.
    Unprinted,
    /// Out of memory.
    Memory,
}

impl From<AllocError> for Unread {
    ghost from_gives = { λ _ e. e ≡ Memory };

    fn from(_e: AllocError) -> Unread {
        Unread::Memory
    }
}

impl<T: Drop> From<AllocFailed<T>> for Unread {
    ghost from_gives = { λ _ e. e ≡ Memory };

    fn from(_e: AllocFailed<T>) -> Unread {
        Unread::Memory
    }
}
