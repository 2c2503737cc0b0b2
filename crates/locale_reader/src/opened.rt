//! What the lines of a section gave so far.

ghost use Rattle.std.specs.Prelude.{◌≡◌, ◌||◌, ◌&&◌, ℕ, List, Some, IfOk};
ghost use Rattle.std.specs.List.{list_any};
ghost use Rattle.locale_reader.specs.Opened.{is_copy, is_charclass, is_text, nothing, is_given, is_begun, is_declared, with_entry, body_of};
ghost use Rattle.locale_reader.specs.Words.{has_word};

use crate::words::{Words, add_word, has_word};
use keywords::{Body, Entry, ValueRef, Values};
use lc_base::{ByteText, List, Place};
use src_lines::Line;
use std::alloc::{AllocError, Global};
use std::marker::Model;

/// The keyword that copies another locale's category.
const COPY: &[u8] = b"copy";

/// The keyword that declares classes.
const CHARCLASS: &[u8] = b"charclass";

/// What the lines of a section gave so far, with their keywords and the classes that they declare
/// in sets.
#[derive(Drop)]
pub struct Opened {
    copy: Option<(Place, ByteText)>,
    entries: Vec<Entry>,
    given: Words,
    declared: Words,
}

impl Model for Opened {
    ghost use Rattle.locale_reader.specs.Opened.{Opened};

    ghost Value = { Opened };

    ghost use Rattle.locale_reader.specs.Kept.{opened, IsKept};

    ghost view = { opened };

    ghost invariant = { IsKept };
}

/// Whether a keyword copies another locale's category.
pub fn is_copy(keyword: &[u8]) -> bool
    ensures { result ≡ is_copy keyword.now }
{
    keyword == COPY
}

/// Whether a keyword declares classes.
pub fn is_charclass(keyword: &[u8]) -> bool
    ensures { result ≡ is_charclass keyword.now }
{
    keyword == CHARCLASS
}

/// Adds the texts among values to the words.
fn add_texts(alloc: Global, words: Words, values: &Values) -> Result<Words, AllocError>
    ensures { IfOk result (λ all. (word : List ℕ) → has_word all word ≡ (has_word words word || list_any (λ v. is_text word v.1) values.now)) }
{
    let mut words = words;
    let mut walk = values.walk();
    while let Some((_, value)) = walk.next() {
        if let ValueRef::Text(text) = value {
            add_word(&mut words, Vec::from_slice(alloc, text)?)?;
        }
    }
    Ok(words)
}

/// Adds the names of the classes that a line with this keyword declares.
fn add_declared(
    alloc: Global,
    words: Words,
    keyword: &[u8],
    values: &Values,
) -> Result<Words, AllocError>
    ensures { IfOk result (λ all. (word : List ℕ) → has_word all word ≡ (has_word words word || (is_charclass keyword.now && list_any (λ v. is_text word v.1) values.now))) }
{
    if is_charclass(keyword) {
        add_texts(alloc, words, values)
    } else {
        Ok(words)
    }
}

impl Opened {
    /// Nothing yet.
    pub fn new(alloc: Global) -> Opened
        ensures { result ≡ nothing }
    {
        Opened {
            copy: None,
            entries: Vec::new(alloc),
            given: Words::new(alloc),
            declared: Words::new(alloc),
        }
    }

    /// Whether a line with this keyword was given.
    pub fn is_given(&self, keyword: &[u8]) -> bool
        ensures { result ≡ is_given self.now keyword.now }
    {
        has_word(&self.given, keyword) || (self.copy.is_some() && is_copy(keyword))
    }

    /// Whether any line was given.
    pub fn is_begun(&self) -> bool
        ensures { result ≡ is_begun self.now }
    {
        !self.entries.is_empty() || self.copy.is_some()
    }

    /// Whether a line declared a class of this name.
    pub fn is_declared(&self, name: &[u8]) -> bool
        ensures { result ≡ is_declared self.now name.now }
    {
        has_word(&self.declared, name)
    }

    /// With the name that is copied, which stands at this place.
    pub fn with_copy(self, place: Place, name: ByteText) -> Opened
        ensures { result ≡ record self { copy = Some (place, name) } }
    {
        let mut opened = self;
        opened.copy = Some((place, name));
        opened
    }

    /// With one more keyword line.
    pub fn with_entry(self, alloc: Global, line: Line, values: Values) -> Result<Opened, AllocError>
        ensures { IfOk result (λ opened. opened ≡ with_entry self line values) }
    {
        let Opened {
            copy,
            mut entries,
            mut given,
            declared,
        } = self;
        add_word(&mut given, Vec::from_slice(alloc, line.keyword.as_bytes())?)?;
        let declared = add_declared(alloc, declared, line.keyword.as_bytes(), &values)?;
        entries.push(Entry {
            place: line.place,
            keyword: line.keyword,
            values,
        })?;
        Ok(Opened {
            copy,
            entries,
            given,
            declared,
        })
    }

    /// A copy, or the keyword lines.
    pub fn into_body(self) -> Body
        ensures { result ≡ body_of self }
    {
        let Opened { copy, entries, .. } = self;
        match copy {
            Some((place, name)) => Body::Copy(place, name),
            None => Body::Entries(List::of(entries)),
        }
    }
}
