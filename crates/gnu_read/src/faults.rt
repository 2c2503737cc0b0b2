//! Why no text is made.

use crate::notes::Origin;
use lc_base::{Reason, TextFault};
use std::alloc::{AllocError, AllocFailed};

/// Why no text is made.
#[derive(Clone, Copy)]
pub enum SourceFault {
    /// A rule that a file breaks, where it stands.
    At(Origin, Reason),
    /// Out of memory.
    Memory,
}

impl From<AllocError> for SourceFault {
    fn from(_e: AllocError) -> SourceFault {
        SourceFault::Memory
    }
}

impl<T: Drop> From<AllocFailed<T>> for SourceFault {
    fn from(_e: AllocFailed<T>) -> SourceFault {
        SourceFault::Memory
    }
}

/// A fault of the file with a number.
pub fn in_file(file: usize, fault: TextFault) -> SourceFault {
    match fault {
        TextFault::At(place, reason) => SourceFault::At(Origin::at(file, place), reason),
        TextFault::Memory => SourceFault::Memory,
    }
}
