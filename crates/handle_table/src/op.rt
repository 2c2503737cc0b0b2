//! What threads ask of the table, and what it replies.

use lc_base::{Category, Handle, Mask, Named};
use mask_compose::{Object, Offer, Part};

/// What a thread asks of the table.
///
/// Locale names are numbers of the table's shelf, of which 0 is the POSIX locale. Five names stand
/// in the order of the categories, and those outside the mask are not looked at.
#[derive(Drop)]
pub enum Op<P: Part> {
    /// Make an object, or change one: in the categories of the mask the parts of the named locales,
    /// in the others those of the base, or of the POSIX locale where there is none (XSH newlocale).
    New {
        /// The categories that are taken from the named locales.
        mask: Mask,
        /// The name for each category.
        names: [u32; 5],
        /// The object that is changed. It keeps its handle.
        base: Option<Named>,
    },
    /// Make a copy of an object, or of the global locale (XSH duplocale).
    Dup {
        /// What is copied.
        from: Named,
    },
    /// Free an object (XSH freelocale).
    Free {
        /// The object.
        h: Named,
    },
    /// Select an object or the global locale for the thread (XSH uselocale).
    Use {
        /// What is selected.
        to: Named,
    },
    /// Hold on to an object, so that its row is not used again.
    Hold {
        /// The object.
        h: Named,
    },
    /// Give up a hold.
    Release {
        /// The object that is held.
        h: Named,
    },
    /// Change the global locale in the categories of the mask (XSH setlocale).
    SetGlobal {
        /// The categories that change.
        mask: Mask,
        /// The name for each category.
        names: [u32; 5],
    },
    /// Let a locale name stand for something else from now on. Objects stay as they are.
    Install {
        /// The name, which is not 0.
        name: u32,
        /// What it stands for.
        offer: Offer<P>,
    },
    /// Put a handle into a cell of the thread.
    Post {
        /// The cell, from 0 to 7.
        cell: u32,
        /// The object.
        h: Named,
    },
    /// Take the handle that stands in a thread's cell. It stays there.
    Fetch {
        /// The thread.
        owner: u32,
        /// The cell, from 0 to 7.
        cell: u32,
    },
    /// Count who selects or holds an object, which may be freed.
    Pins {
        /// The object.
        h: Named,
    },
    /// End the thread: it selects and holds nothing any more. Its objects stay.
    End,
}

/// What the table replies to an op.
#[derive(Drop)]
pub enum Reply<P: Part> {
    /// The handle of the object that was made or changed.
    Made(Handle),
    /// The object was freed.
    Freed,
    /// The selection was changed.
    Was {
        /// What the thread had selected before.
        former: Named,
        /// The object that it has selected now; `None` for the global locale.
        now: Option<Object<P>>,
    },
    /// The object that is held from now on.
    Held(Object<P>),
    /// The hold was given up.
    Released,
    /// The global locale was changed.
    Set {
        /// The number of changes so far, this one included.
        version: u32,
        /// The global object from now on.
        object: Object<P>,
    },
    /// The number of installs so far, this one included.
    Installed(u32),
    /// The handle was posted.
    Posted,
    /// The handle that stands in the cell.
    Got(Handle),
    /// The number of pins: each thread counts once for selecting the object, and once for holding it.
    Pins(u32),
    /// The thread has ended.
    Ended,
    /// The op was refused and changed nothing.
    Refused(Refusal),
}

/// Why an op is refused.
#[derive(Clone, Copy, Debug, PartialEq, Eq)]
pub enum Refusal {
    /// The locale that is named for this category of the mask lacks it; it is the first such.
    NoData(Category),
    /// The op needs an object, and names the global locale.
    GlobalHandle,
    /// No thread made the named object.
    NeverMade,
    /// The named object was freed.
    Stale,
    /// The thread has no free row.
    TooMany,
    /// The thread holds the object already.
    AlreadyHeld,
    /// The thread does not hold the object.
    NotHeld,
    /// Nothing was posted to the cell.
    EmptyCell,
}
