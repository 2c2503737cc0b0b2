//! One row of a thread.

ghost use Rattle.std.specs.Prelude.{◌≡◌, ◌<◌};
ghost use Rattle.handle_table.specs.Row.{pinned, unpinned, opened, closed, let_go, freed, with_next};

use generations::HandleRow;

/// The most threads that a table is made for.
pub const MAX_THREADS: usize = 16;

/// What a table keeps of a row.
#[derive(Clone, Copy)]
pub struct Row {
    /// How many objects were made in the row.
    pub makes: u32,
    /// Whether the newest is live.
    pub is_live: bool,
    /// The pins of the newest: at most two for each thread.
    pub pins: u32,
    /// Which threads hold the newest, by their numbers.
    pub holds: [bool; MAX_THREADS],
}

impl Row {
    /// A row in which nothing was made.
    pub const EMPTY: Row = Row {
        makes: 0,
        is_live: false,
        pins: 0,
        holds: [false; MAX_THREADS],
    };

    /// The row with one more pin.
    pub fn pinned(self) -> Row
        ensures { result ≡ pinned self }
    {
        Row {
            pins: self.pins.saturating_add(1),
            ..self
        }
    }

    /// The row with one pin less.
    pub fn unpinned(self) -> Row
        ensures { result ≡ unpinned self }
    {
        Row {
            pins: self.pins.saturating_sub(1),
            ..self
        }
    }

    /// The row with a Hold of the thread, and its pin.
    pub fn opened(self, who: u32) -> Row
        requires { who < MAX_THREADS }
        ensures { result ≡ opened who self }
    {
        let mut holds = self.holds;
        holds[who as usize] = true;
        Row { holds, ..self }.pinned()
    }

    /// The row without a Hold of the thread and its pin.
    pub fn closed(self, who: u32) -> Row
        requires { who < MAX_THREADS }
        ensures { result ≡ closed who self }
    {
        let mut holds = self.holds;
        holds[who as usize] = false;
        Row { holds, ..self }.unpinned()
    }

    /// The row without a Hold of the thread, if there is one.
    pub fn let_go(self, who: u32) -> Row
        requires { who < MAX_THREADS }
        ensures { result ≡ let_go who self }
    {
        if self.holds[who as usize] {
            self.closed(who)
        } else {
            self
        }
    }

    /// The row after a Free of its newest object.
    pub fn freed(self) -> Row
        ensures { result ≡ freed self }
    {
        Row {
            is_live: false,
            ..self
        }
    }

    /// The row with one more object, which is live.
    pub fn with_next(self) -> Row
        requires { self.makes < 4294967295 }
        ensures { result ≡ with_next self }
    {
        Row {
            makes: self.makes + 1,
            is_live: true,
            ..self
        }
    }
}

impl HandleRow for Row {
    ghost use Rattle.handle_table.specs.Rows.{counts};

    ghost counts = { counts };

    fn makes(&self) -> u32 {
        self.makes
    }

    fn is_kept(&self) -> bool {
        self.is_live || self.pins != 0
    }
}
