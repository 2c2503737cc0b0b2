//! Pieces of a format that are told at first sight.

ghost use Rattle.std.specs.Prelude.{◌≡◌, ◌≤◌, ℕ, length, drop, IfSome};
ghost use Rattle.time_cat.specs.Formats.{step};
ghost use Rattle.strftime_fields.specs.Reading.{IsShort};

use time_cat::{TimeConversion, TimeText, conversion_of};

/// A piece of a format that needs no second look.
#[derive(Clone, Copy)]
pub enum Short {
    /// A byte that stands for itself.
    Byte(u8),
    /// A conversion without a modifier.
    Plain { letter: u8, found: TimeConversion },
}

/// What a first look at the piece did that bytes begin with.
#[derive(Clone, Copy)]
pub enum Seen {
    /// It is this piece, and its text is added.
    Added(Short),
    /// It is a conversion without a modifier that stands for this format of the locale. Nothing is
    /// added.
    Inner(TimeText),
    /// It needs a second look. Nothing is added.
    Other,
}

/// The piece that bytes begin with, if it is a byte or a conversion without a modifier.
#[tactic(auto, using(crate::proofs::Shorts::no_modifier))]
#[inline(always)]
pub fn short_of(rest: &[u8]) -> Option<Short>
    ensures { IfSome result (λ r. (at : ℕ) → IsShort at (step at rest.now) r) }
{
    match rest {
        [] => None,
        [b'%', behind @ ..] => match behind {
            [] => None,
            [letter, ..] => match conversion_of(0, *letter) {
                None => None,
                Some(found) => Some(Short::Plain {
                    letter: *letter,
                    found,
                }),
            },
        },
        [byte, ..] => Some(Short::Byte(*byte)),
    }
}

/// The piece at a place of a format, if it is a byte or a conversion without a modifier.
#[inline(always)]
pub fn short_at(format: &[u8], at: usize) -> Option<Short>
    requires { at ≤ length format.now }
    ensures { IfSome result (IsShort at (step at (drop at format.now))) }
{
    short_of(&format[at..])
}
