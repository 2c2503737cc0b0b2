//! The directives of a source (XCU gencat).

ghost use Rattle.std.specs.Prelude.{◌≡◌, ◌↔◌, IsTrue, option_map};
ghost use Rattle.msg_catalog.specs.Cursors.{line_of};
ghost use Rattle.msg_catalog.specs.Directives.{set_number, quote_sign, directive_of};

use crate::cursor::Cursor;
use crate::number::number;
use crate::words::{after_word, ends_word, past_blanks};
use lc_base::is_blank;

/// The largest number of a set.
const SETS: u32 = 255;

/// What a line that begins with `$` says.
#[derive(Clone, Copy)]
pub enum Directive {
    /// Nothing.
    Comment,
    /// The messages that follow are in this set.
    Set(u32),
    /// The messages of this set go.
    DeleteSet(u32),
    /// This is the quote character, or there is none.
    Quote(Option<u8>),
}

/// The number of a set behind a directive's word, and perhaps a blank and more.
fn set_number(cursor: Cursor<'_>) -> Option<u32>
    ensures { result ≡ set_number (line_of cursor.entry) }
{
    let (first, next) = cursor.next()?;
    if !is_blank(first.byte) {
        return None;
    }
    let (set, rest) = number(SETS, past_blanks(next))?;
    if ends_word(rest) { Some(set) } else { None }
}

/// The quote character behind the word `$quote` and blanks, if there is one.
fn quote_sign(cursor: Cursor<'_>) -> Option<Option<u8>>
    ensures { result ≡ quote_sign (line_of cursor.entry) }
{
    let Some((first, next)) = cursor.next() else {
        return Some(None);
    };
    if !is_blank(first.byte) {
        return None;
    }
    let Some((sign, rest)) = past_blanks(next).next() else {
        return Some(None);
    };
    match rest.next() {
        None => Some(Some(sign.byte)),
        Some(_) => None,
    }
}

/// What a line says behind its `$`; `None` where that is no directive.
pub fn directive_of(cursor: Cursor<'_>) -> Option<Directive>
    ensures { result ≡ directive_of (line_of cursor.entry) }
{
    if ends_word(cursor) {
        return Some(Directive::Comment);
    }
    if let Some(rest) = after_word(b"set", cursor) {
        return Some(Directive::Set(set_number(rest)?));
    }
    if let Some(rest) = after_word(b"delset", cursor) {
        return Some(Directive::DeleteSet(set_number(rest)?));
    }
    let rest = after_word(b"quote", cursor)?;
    Some(Directive::Quote(quote_sign(rest)?))
}
