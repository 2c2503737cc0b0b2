//! Head lines, which change the signs (XBD 7.3 and 6.4).

ghost use Rattle.std.specs.Prelude.{◌≡◌, ◌≤◌, ℕ, Err, length};
ghost use Rattle.src_lines.specs.Logical.{is_dropped, sign_of, escape_word, comment_word, bad_head, head_sign, ends_head, fate};
ghost use Rattle.src_lines.specs.Rows.{line_of};

use crate::row::LogicalLine;
use crate::signs::{Kind, Signs};
use crate::words::{Word, blanks, next_word};
use lc_base::{Place, Reason};

/// What becomes of a logical line.
#[derive(Clone, Copy)]
pub struct Fate {
    /// The signs from the next line on.
    pub signs: Signs,
    /// Whether head lines may still come.
    pub heads: bool,
    /// Whether it is kept.
    pub kept: bool,
}

/// Whether a line is a comment or has blanks alone.
fn is_dropped(comment: u8, bytes: &[u8]) -> bool
    ensures { result ≡ is_dropped comment bytes.now }
{
    if !bytes.is_empty() && bytes[0] == comment {
        return true;
    }
    blanks(bytes) == bytes.len()
}

/// The sign that a word gives.
fn sign_of(word: &[u8]) -> Option<u8>
    ensures { result ≡ sign_of word.now }
{
    match word {
        [sign] if 0x21 <= *sign && *sign <= 0x7e => Some(*sign),
        _ => None,
    }
}

/// The word that changes the escape character.
fn escape_word(kind: Kind) -> &'static [u8]
    ensures { result.now ≡ escape_word kind }
{
    match kind {
        Kind::Locale => b"escape_char",
        Kind::Charmap => b"<escape_char>",
    }
}

/// The word that changes the comment character.
fn comment_word(kind: Kind) -> &'static [u8]
    ensures { result.now ≡ comment_word kind }
{
    match kind {
        Kind::Locale => b"comment_char",
        Kind::Charmap => b"<comment_char>",
    }
}

/// The fault of a head line that is wrong at its byte `k`.
fn bad_head(kind: Kind, row: &LogicalLine<'_>, k: usize) -> (Place, Reason)
    requires { k ≤ length row.now.bytes.now }
    ensures { bad_head {A = ℕ} kind (line_of row.now) k ≡ Err result }
{
    match kind {
        Kind::Locale => (row.place_at(k), Reason::WrongOperand),
        Kind::Charmap => (row.place_at(blanks(row.bytes)), Reason::BadHeader),
    }
}

/// The sign that a head line gives.
fn head_sign(kind: Kind, row: &LogicalLine<'_>, other: u8) -> Result<u8, (Place, Reason)>
    ensures { result ≡ head_sign kind (line_of row.now) other }
{
    let first = next_word(row.bytes);
    let second = next_word(first.rest);
    let third = next_word(second.rest);
    let second_at = first.skipped + first.text.len() + second.skipped;
    let third_at = second_at + second.text.len() + third.skipped;
    if second.text.is_empty() {
        return Err(bad_head(kind, row, first.skipped));
    }
    match sign_of(second.text) {
        Some(sign) if sign != other => {
            if third.text.is_empty() {
                Ok(sign)
            } else {
                Err(bad_head(kind, row, third_at))
            }
        }
        _ => Err(bad_head(kind, row, second_at)),
    }
}

/// Whether the head lines end at a line with these first two words: `CHARMAP` alone in a charmap, and
/// in a locale source one word that begins with `LC_`.
pub fn ends_head(kind: Kind, first: &[u8], second: &[u8]) -> bool
    ensures { result ≡ ends_head kind first.now second.now }
{
    match kind {
        Kind::Locale => first.starts_with(b"LC_") && second.is_empty(),
        Kind::Charmap => first == b"CHARMAP".as_slice() && second.is_empty(),
    }
}

/// What becomes of a line, where head lines may still come or not.
pub fn fate_of(kind: Kind, heads: bool, row: &LogicalLine<'_>) -> Result<Fate, (Place, Reason)>
    ensures { result ≡ fate kind heads (line_of row.now) }
{
    let Signs { escape, comment } = row.signs;
    if is_dropped(comment, row.bytes) {
        return Ok(Fate {
            signs: row.signs,
            heads,
            kept: false,
        });
    }
    let first = next_word(row.bytes);
    if heads && first.text == escape_word(kind) {
        let escape = head_sign(kind, row, comment)?;
        return Ok(Fate {
            signs: Signs { escape, comment },
            heads: true,
            kept: false,
        });
    }
    if heads && first.text == comment_word(kind) {
        let comment = head_sign(kind, row, escape)?;
        return Ok(Fate {
            signs: Signs { escape, comment },
            heads: true,
            kept: false,
        });
    }
    let second = next_word(first.rest);
    Ok(Fate {
        signs: row.signs,
        heads: heads && !ends_head(kind, first.text, second.text),
        kept: true,
    })
}
