//! Why a text is given up.

ghost use Rattle.std.specs.Prelude.{◌≡◌};
ghost use Rattle.strftime_fields.specs.declared.stop.Stop.TheVariants.{Memory};

use std::alloc::{AllocError, AllocFailed};

/// Why a text is given up. It is as small as can be, since each piece of a text is asked for it.
#[derive(Clone, Copy)]
pub enum Stop {
    /// The text is longer than it may be.
    TooBig,
    /// Out of memory.
    Memory,
}

impl From<AllocError> for Stop {
    ghost from_gives = { λ _ s. s ≡ Memory };

    fn from(_e: AllocError) -> Stop {
        Stop::Memory
    }
}

impl<T: Drop> From<AllocFailed<T>> for Stop {
    ghost from_gives = { λ _ s. s ≡ Memory };

    fn from(_e: AllocFailed<T>) -> Stop {
        Stop::Memory
    }
}
