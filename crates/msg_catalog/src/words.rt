//! Words and blanks of a line.

ghost use Rattle.std.specs.Prelude.{◌≡◌, option_map};
ghost use Rattle.msg_catalog.specs.Cursors.{line_of};
ghost use Rattle.msg_catalog.specs.Words.{after_word, past_blanks, ends_word};

use crate::cursor::Cursor;
use lc_base::is_blank;

/// What follows these bytes, where the line begins with them.
pub fn after_word<'a>(word: &[u8], cursor: Cursor<'a>) -> Option<Cursor<'a>>
    ensures { option_map line_of result ≡ after_word word.now (line_of cursor.entry) }
{
    let mut rest = cursor;
    for byte in word {
        match rest.next() {
            Some((spot, next)) if spot.byte == *byte => rest = next,
            _ => return None,
        }
    }
    Some(rest)
}

/// What follows the blanks, perhaps none.
pub fn past_blanks(cursor: Cursor<'_>) -> Cursor<'_>
    ensures { line_of result ≡ past_blanks (line_of cursor.entry) }
{
    let mut rest = cursor;
    while let Some((spot, next)) = rest.next() {
        if !is_blank(spot.byte) {
            break;
        }
        rest = next;
    }
    rest
}

/// Whether a word ends here: at the line's end, or before a blank.
pub fn ends_word(cursor: Cursor<'_>) -> bool
    ensures { result ≡ ends_word (line_of cursor.entry) }
{
    match cursor.next() {
        Some((spot, _)) => is_blank(spot.byte),
        None => true,
    }
}
