//! Handles of locale objects.

/// A handle: the `generation`-th object that its owner made in a row.
#[derive(Clone, Copy, PartialEq, Eq)]
pub struct Handle {
    /// The number of the thread that made the object.
    pub owner: u32,
    /// The row of the owner that the object stands in, from 0.
    pub row: u32,
    /// How many objects the owner had made in the row, this one included.
    pub generation: u32,
}

/// What an op names: an object by its handle, or the global locale (`LC_GLOBAL_LOCALE`).
#[derive(Clone, Copy, PartialEq, Eq)]
pub enum Named {
    /// The global locale.
    Global,
    /// The object of a handle.
    Of(Handle),
}
