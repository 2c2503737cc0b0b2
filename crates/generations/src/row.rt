//! Rows.

ghost use Rattle.std.specs.Prelude.{◌≡◌};
ghost use Rattle.generations.specs.Rows.{Counts};

/// What is kept of a row. Of the handles that were made in it only the newest can be kept, since a
/// row is used again only when that is not.
pub trait HandleRow {
    /// What a row says of its handles.
    ghost counts: { Counts Self };

    /// How many handles were made in the row.
    fn makes(&self) -> u32
        ensures { result ≡ counts.makes self.now };

    /// Whether the newest of them is kept.
    fn is_kept(&self) -> bool
        ensures { result ≡ counts.is_kept self.now };
}
