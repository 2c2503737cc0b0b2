//! Words of a line: what stands between blanks.

ghost use Rattle.std.specs.Prelude.{◌≡◌, ◌+◌, ◌≤◌, length};
ghost use Rattle.src_lines.specs.Words.{blanks, solid, next_word, closes};

use lc_base::is_blank;

/// The next word of a text.
#[derive(Clone, Copy)]
pub struct Word<'a> {
    /// How many blanks come before it.
    pub skipped: usize,
    /// The word, perhaps empty.
    pub text: &'a [u8],
    /// What follows it.
    pub rest: &'a [u8],
}

/// How many blanks come first.
pub fn blanks(bytes: &[u8]) -> usize
    ensures is { result ≡ blanks bytes.now }
    ensures within { result ≤ length bytes.now }
{
    for (i, byte) in bytes.iter().enumerate() {
        if !is_blank(*byte) {
            return i;
        }
    }
    bytes.len()
}

/// How many bytes come before the first blank, or the end.
fn solid(bytes: &[u8]) -> usize
    ensures is { result ≡ solid bytes.now }
    ensures within { result ≤ length bytes.now }
{
    for (i, byte) in bytes.iter().enumerate() {
        if is_blank(*byte) {
            return i;
        }
    }
    bytes.len()
}

/// The next word of a text.
pub fn next_word(bytes: &[u8]) -> Word<'_>
    ensures skipped { result.skipped ≡ (next_word bytes.now).skipped }
    ensures text { result.text.now ≡ (next_word bytes.now).text }
    ensures rest { result.rest.now ≡ (next_word bytes.now).rest }
    ensures lengths { result.skipped + length result.text.now + length result.rest.now ≡ length bytes.now }
{
    let skipped = blanks(bytes);
    let (_, front) = bytes.split_at(skipped);
    let (text, rest) = front.split_at(solid(front));
    Word {
        skipped,
        text,
        rest,
    }
}

/// Whether a line closes what has this name: just the two words `END` and the name.
pub fn closes(name: &[u8], line: &[u8]) -> bool
    ensures { result ≡ closes name.now line.now }
{
    let first = next_word(line);
    let second = next_word(first.rest);
    first.text == b"END".as_slice() && second.text == name && next_word(second.rest).text.is_empty()
}
