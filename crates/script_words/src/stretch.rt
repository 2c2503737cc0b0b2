//! Words of a line, each with its place.

ghost use Rattle.std.specs.Prelude.{ℕ, ◌≡◌, ◌+◌, ◌<◌, ◌≤◌, ◌^◌, length};

use crate::bytes::{blanks, word_length};
use lc_base::Place;

/// Where a byte of a line stands.
#[derive(Clone, Copy)]
pub enum Within {
    /// Outside of quotes.
    Bare,
    /// Between quotes.
    Quoted,
    /// Between quotes, behind a backslash.
    Escaped,
}

/// Bytes of a line, with the place of the first.
#[derive(Clone, Copy)]
pub struct Stretch<'a> {
    pub place: Place,
    pub bytes: &'a [u8],
    ghost in_range: { place.column + length bytes.now < 2 ^ 32 },
}

impl<'a> Stretch<'a> {
    ghost use Rattle.std.specs.Prelude.{take, IfSome, option_map};
    ghost use Rattle.script_words.specs.Spans.{span, spans, whole_line, end_of, behind, from_word, next_word};

    /// A line.
    pub fn whole_line(number: u32, line: &'a [u8]) -> Stretch<'a>
        requires { length line.now < 2 ^ 31 }
        ensures { span result ≡ whole_line number line.now }
    {
        Stretch {
            place: Place {
                line: number,
                column: 1,
            },
            bytes: line,
        }
    }

    /// The place behind the last byte.
    pub fn end(self) -> Place
        ensures { result ≡ end_of (span self.entry) }
    {
        Place {
            line: self.place.line,
            column: self.place.column + self.bytes.len() as u32,
        }
    }

    /// What stands behind the first `n` bytes.
    fn behind(self, n: usize) -> Stretch<'a>
        requires { n ≤ length self.bytes.now }
        ensures is { span result ≡ behind n (span self.entry) }
        ensures shorter { length result.bytes.now + n ≡ length self.entry.bytes.now }
    {
        let (_, rest) = self.bytes.split_at(n);
        Stretch {
            place: Place {
                line: self.place.line,
                column: self.place.column + n as u32,
            },
            bytes: rest,
        }
    }

    /// The first `n` bytes.
    fn front(self, n: usize) -> Stretch<'a>
        requires { n ≤ length self.bytes.now }
        ensures { span result ≡ record { place = self.entry.place; bytes = take n self.entry.bytes.now } }
    {
        let (front, _) = self.bytes.split_at(n);
        Stretch {
            place: self.place,
            bytes: front,
        }
    }

    /// What stands behind the blanks in front.
    fn from_word(self) -> Stretch<'a>
        ensures is { span result ≡ from_word (span self.entry) }
        ensures shorter { length result.bytes.now ≤ length self.entry.bytes.now }
    {
        self.behind(blanks(self.bytes))
    }

    /// The next word, and what follows it; `None` where only blanks are left.
    ///
    /// A word ends before a blank, but not between quotes.
    #[tactic(auto, unfolding(crate::specs::Spans::next_word))]
    pub fn next_word(self) -> Option<(Stretch<'a>, Stretch<'a>)>
        ensures is { option_map spans result ≡ next_word (span self.entry) }
        ensures shorter { IfSome result (λ x. length x.1.bytes.now < length self.entry.bytes.now) }
    {
        let rest = self.from_word();
        let n = word_length(rest.bytes);
        if n == 0 {
            return None;
        }
        Some((rest.front(n), rest.behind(n)))
    }
}
