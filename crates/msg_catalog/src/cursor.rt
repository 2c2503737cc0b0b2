//! The bytes of a source, each with its place.

ghost use Rattle.std.specs.Prelude.{◌+◌, ◌^◌, ◌<◌, length};

use crate::joins::past_join;
use lc_base::Place;

/// A byte of a source, and its place.
#[derive(Clone, Copy)]
pub struct Spot {
    pub place: Place,
    pub byte: u8,
}

/// What is still to be read of a source, from a place on.
///
/// A `\` and the LF after it, by which a line goes on in the next one, are not among the bytes to
/// come.
#[derive(Clone, Copy)]
pub struct Cursor<'a> {
    rest: &'a [u8],
    line: u32,
    column: u32,
    ghost room: { (line + length rest.now < 2 ^ 32) × (column + length rest.now < 2 ^ 32) },
}

impl<'a> Cursor<'a> {
    ghost use Rattle.std.specs.Prelude.{◌≡◌, ◌+◌, ◌^◌, ◌<◌, ◌≤◌, ◌↔◌, [], ◌∷◌, length, IsTrue, IfSome, false, MatchOption};
    ghost use Rattle.msg_catalog.specs.Spots.{spots, joins_here};
    ghost use Rattle.msg_catalog.specs.Cursors.{to_come, line_of, later};

    /// A cursor at the front of a text whose first line has this number.
    pub fn new(text: &'a [u8], first_line: u32) -> Cursor<'a>
        requires text_size { length text.now < 2 ^ 31 }
        requires line_size { first_line < 2 ^ 31 }
        ensures { to_come result ≡ spots first_line 1 text.now }
    {
        Cursor {
            rest: text,
            line: first_line,
            column: 1,
        }
    }

    /// The cursor behind each `\` and LF that stand here.
    fn past_joins(self) -> Cursor<'a>
        ensures same { to_come result ≡ to_come self.entry }
        ensures bare { joins_here result.rest.now ≡ false }
        ensures shorter { length result.rest.now ≤ length self.entry.rest.now }
    {
        let mut rest = self.rest;
        let mut line = self.line;
        let mut column = self.column;
        while let Some(after) = past_join(rest) {
            rest = after;
            line += 1;
            column = 1;
        }
        Cursor { rest, line, column }
    }

    /// The next byte, a newline included, and what follows it; `None` at the end of the text.
    fn split_first(self) -> Option<(Spot, Cursor<'a>)>
        ensures is { MatchOption result (to_come self.entry ≡ []) (λ x. to_come self.entry ≡ x.0 ∷ to_come x.1) }
        ensures shorter { IfSome result (λ x. length x.1.rest.now < length self.entry.rest.now) }
    {
        let here = self.past_joins();
        let (byte, rest) = here.rest.split_first()?;
        let spot = Spot {
            place: Place {
                line: here.line,
                column: here.column,
            },
            byte: *byte,
        };
        if *byte == b'\n' {
            let next = Cursor {
                rest,
                line: here.line + 1,
                column: 1,
            };
            return Some((spot, next));
        }
        let next = Cursor {
            rest,
            line: here.line,
            column: here.column + 1,
        };
        Some((spot, next))
    }

    /// The next byte of the line, and what follows it; `None` at the line's end.
    pub fn next(self) -> Option<(Spot, Cursor<'a>)>
        ensures line { MatchOption result (line_of self.entry ≡ []) (λ x. line_of self.entry ≡ x.0 ∷ line_of x.1) }
        ensures shorter { IfSome result (λ x. length x.1.rest.now < length self.entry.rest.now) }
    {
        let (spot, rest) = self.split_first()?;
        if spot.byte == b'\n' {
            return None;
        }
        Some((spot, rest))
    }

    /// Whether there is no further byte.
    pub fn is_at_end(self) -> bool
        ensures { IsTrue result ↔ (to_come self.entry ≡ []) }
    {
        self.split_first().is_none()
    }

    /// A cursor at the next line.
    pub fn next_line(self) -> Cursor<'a>
        ensures { to_come result ≡ later self.entry }
    {
        let mut cursor = self;
        while let Some((spot, next)) = cursor.split_first() {
            if spot.byte == b'\n' {
                return next;
            }
            cursor = next;
        }
        cursor
    }
}
