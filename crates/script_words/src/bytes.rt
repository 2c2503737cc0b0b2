//! How far words and blanks go.

ghost use Rattle.std.specs.Prelude.{◌≡◌, ◌≤◌, not, length};
ghost use Rattle.std.specs.List.{position_or_len};
ghost use Rattle.script_words.specs.declared.stretch.Within.TheVariants.{Bare};
ghost use Rattle.script_words.specs.Spans.{stops_bare, within_after, ends_word, word_length};
ghost use Rattle.lc_base.specs.Blanks.{is_blank};

use crate::stretch::Within;
use lc_base::is_blank;

/// How many blanks stand in front.
pub fn blanks(bytes: &[u8]) -> usize
    ensures is { result ≡ position_or_len (λ c. not (is_blank c)) bytes.now }
    ensures within { result ≤ length bytes.now }
{
    for (i, c) in bytes.iter().enumerate() {
        if !is_blank(*c) {
            return i;
        }
    }
    bytes.len()
}

/// Where the next byte stands.
fn within_after(within: Within, c: u8) -> Within
    ensures { result ≡ within_after within c }
{
    match within {
        Within::Bare if c == b'"' => Within::Quoted,
        Within::Bare => Within::Bare,
        Within::Quoted if c == b'"' => Within::Bare,
        Within::Quoted if c == b'\\' => Within::Escaped,
        Within::Quoted => Within::Quoted,
        Within::Escaped => Within::Quoted,
    }
}

/// Whether a word ends before this byte.
fn ends_word(within: Within, c: u8) -> bool
    ensures { result ≡ ends_word within c }
{
    match within {
        Within::Bare => is_blank(c),
        Within::Quoted | Within::Escaped => false,
    }
}

/// How many bytes stand in front of the first blank or quote.
fn bare_length(bytes: &[u8]) -> usize
    ensures is { result ≡ position_or_len stops_bare bytes.now }
    ensures within { result ≤ length bytes.now }
{
    for (i, c) in bytes.iter().enumerate() {
        if is_blank(*c) || *c == b'"' {
            return i;
        }
    }
    bytes.len()
}

/// How many bytes stand in front of the blank that ends a word, looked for quote by quote.
fn quoted_length(bytes: &[u8]) -> usize
    ensures is { result ≡ word_length Bare bytes.now }
    ensures within { result ≤ length bytes.now }
{
    let mut within = Within::Bare;
    for (i, c) in bytes.iter().enumerate() {
        if ends_word(within, *c) {
            return i;
        }
        within = within_after(within, *c);
    }
    bytes.len()
}

/// How many bytes the word has with which a text begins.
#[tactic(auto, using(crate::proofs::ReadLemmas::bare_front))]
pub fn word_length(bytes: &[u8]) -> usize
    ensures is { result ≡ word_length Bare bytes.now }
    ensures within { result ≤ length bytes.now }
{
    let bare = bare_length(bytes);
    let (_, rest) = bytes.split_at(bare);
    bare + quoted_length(rest)
}
