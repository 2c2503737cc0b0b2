//! Why a source is not imported.

use gnu_text::{Origin, SourceFault};
use lc_base::{Place, Reason};

/// Why a source is not imported.
#[derive(Clone, Copy)]
pub enum ImportFault {
    /// A rule that a file breaks, where it stands.
    At(Origin, Reason),
    /// The source that was made would be refused: at this place of it, for this reason, in a line that comes from
    /// there.
    Refused(Place, Reason, Origin),
    /// The source that was made has 2^31 bytes or more.
    TooLarge,
    /// Out of memory.
    Memory,
}

impl From<SourceFault> for ImportFault {
    fn from(fault: SourceFault) -> ImportFault {
        match fault {
            SourceFault::At(at, reason) => ImportFault::At(at, reason),
            SourceFault::Memory => ImportFault::Memory,
        }
    }
}
