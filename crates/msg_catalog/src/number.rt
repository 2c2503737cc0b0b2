//! Numbers of sets and messages.

ghost use Rattle.std.specs.Prelude.{◌≡◌, ◌<◌, option_map};
ghost use Rattle.msg_catalog.specs.Cursors.{line_of};
ghost use Rattle.msg_catalog.specs.Numbers.{number, number_from, within};

use crate::cursor::Cursor;

/// A number from 1 to `most`, without leading zeros, and what follows it.
pub fn number(most: u32, cursor: Cursor<'_>) -> Option<(u32, Cursor<'_>)>
    requires { most < 100000 }
    ensures { option_map (λ x. (x.0, line_of x.1)) result ≡ number most (line_of cursor.entry) }
{
    let (first, _) = cursor.next()?;
    if first.byte == b'0' || !first.byte.is_ascii_digit() {
        return None;
    }
    digits(most, cursor)
}

/// The number that the digits of which the line begins with give, at most `most`, and what follows
/// it.
fn digits(most: u32, cursor: Cursor<'_>) -> Option<(u32, Cursor<'_>)>
    requires { most < 100000 }
    ensures { option_map (λ x. (x.0, line_of x.1)) result ≡ within most (number_from 0 (line_of cursor.entry)) }
{
    let mut value = 0;
    let mut rest = cursor;
    while let Some((spot, next)) = rest.next() {
        if !spot.byte.is_ascii_digit() {
            break;
        }
        value = value * 10 + (spot.byte - b'0') as u32;
        if value > most {
            return None;
        }
        rest = next;
    }
    Some((value, rest))
}
