//! What threads ask, and what is replied.

use crate::handle::CatalogHandle;
use mask_compose::Part;

/// What a thread asks.
#[derive(Drop)]
pub enum CatalogOp<B: Part> {
    /// Open a catalog (XSH catopen).
    Open {
        /// The catalog.
        book: B,
    },
    /// Read from an open catalog (XSH catgets).
    Get {
        /// Its handle.
        h: CatalogHandle,
    },
    /// Close a catalog (XSH catclose).
    Close {
        /// Its handle.
        h: CatalogHandle,
    },
}

/// What is replied.
#[derive(Drop)]
pub enum CatalogReply<B: Part> {
    /// The catalog is open under this handle.
    Opened(CatalogHandle),
    /// The catalog that the handle was opened with.
    Book(B),
    /// The handle was closed.
    Closed,
    /// The op was refused and changed nothing.
    Refused(CatalogRefusal),
}

/// Why an op is refused.
#[derive(Clone, Copy, PartialEq, Eq)]
pub enum CatalogRefusal {
    /// No thread was given the handle.
    NeverMade,
    /// The handle was closed.
    Stale,
    /// The thread has no free row.
    TooMany,
}
