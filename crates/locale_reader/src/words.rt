//! Sets of words, in order of their bytes.

ghost use Rattle.std.specs.Prelude.{◌≡◌, ◌||◌, OnOk};
ghost use Rattle.locale_reader.specs.Words.{has_word, AddsWord};

use std::alloc::AllocFailed;
use std::collections::BTreeSet;

/// Words that are looked up by their bytes.
pub type Words = BTreeSet<Vec<u8>>;

/// Whether a word is among these.
pub fn has_word(words: &Words, word: &[u8]) -> bool
    ensures { result ≡ has_word words.now word.now }
{
    words.contains(word)
}

/// Adds a word, which may be there.
pub fn add_word(words: &mut Words, word: Vec<u8>) -> Result<(), AllocFailed<Vec<u8>>>
    ensures { OnOk result (AddsWord words.old words.new word.items) }
{
    words.insert(word)?;
    Ok(())
}
