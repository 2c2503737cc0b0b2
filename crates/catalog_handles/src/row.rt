//! One row of a thread.

ghost use Rattle.std.specs.Prelude.{◌≡◌, ◌<◌};
ghost use Rattle.catalog_handles.specs.Rows.{no_row, opened, closed};

use generations::HandleRow;
use mask_compose::Part;
use std::marker::Model;

/// What is kept of a row.
pub struct Row<B: Part> {
    /// How many handles were made in the row.
    pub makes: u32,
    /// The catalog of the newest, while it is live.
    pub book: Option<B>,
}

impl<B: Part> Drop for Row<B> {
    fn drop(self) {
        let Row { makes: _, book: _ } = self;
    }
}

impl<B: Part> Model for Row<B> {
    ghost use Rattle.std.specs.Option.{option_map};
    ghost use Rattle.catalog_handles.specs.Rows.{RowData};

    ghost Value = { RowData };

    ghost view = { λ row. record { makes = row.makes; book = option_map B.number row.book } };
}

impl<B: Part> Row<B> {
    /// A row in which nothing was made.
    pub fn new() -> Row<B>
        ensures { result ≡ no_row }
    {
        Row {
            makes: 0,
            book: None,
        }
    }

    /// The row with one more handle, of this catalog.
    pub fn opened(&self, book: B) -> Row<B>
        requires { self.now.makes < 4294967295 }
        ensures { result ≡ opened (B.number book) self.now }
    {
        Row {
            makes: self.makes + 1,
            book: Some(book),
        }
    }

    /// The row after its newest handle was closed.
    pub fn closed(&self) -> Row<B>
        ensures { result ≡ closed self.now }
    {
        Row {
            makes: self.makes,
            book: None,
        }
    }
}

impl<B: Part> HandleRow for Row<B> {
    ghost use Rattle.catalog_handles.specs.Rows.{counts};

    ghost counts = { counts };

    fn makes(&self) -> u32 {
        self.makes
    }

    fn is_kept(&self) -> bool {
        self.book.is_some()
    }
}
