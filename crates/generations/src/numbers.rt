//! The numbers of a handle.

/// What a handle of any kind says: it is the `generation`-th that its owner made in a row.
#[derive(Clone, Copy)]
pub struct Numbers {
    /// The number of the thread that made it.
    pub owner: u32,
    /// The row of the owner that it stands in, from 0.
    pub row: u32,
    /// How many the owner had made in the row, this one included.
    pub generation: u32,
}
