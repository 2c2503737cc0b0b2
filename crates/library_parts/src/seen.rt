//! The checks of parts by their names and sizes.

ghost use Rattle.std.specs.Prelude.{◌≡◌, ◌+◌, ◌<◌, ◌≤◌, ◌^◌, length, IfOk, OnOk};
ghost use Rattle.library_parts.specs.Told.{Gives};
ghost use Rattle.library_parts.specs.Parts.{is_named, key, at_first, names_in, with_name, wrong_with, part_seen, parts_seen, lacks_charset, charsets_known};
ghost use Rattle.library_parts.specs.Lines.{line_count};
ghost use Rattle.library_parts.specs.Places.{AreSized, blocks_of};
ghost use Rattle.library_parts.specs.declared.part.PartKind.TheVariants.{Source, Catalog};

use crate::fault::{PartFault, Wrong};
use crate::lines::line_count;
use crate::part::{LibraryPart, PartKind};
use lc_base::{ByName, is_built_in_charset};
use script_words::{is_charmap_name, is_formed, is_locale_name, is_part_name};
use std::alloc::{AllocError, Global};

/// The most parts of a kind.
pub const PART_LIMIT: usize = 4096;

/// How long a text is at least that is too long, and behind how many lines it is.
const SIZE_LIMIT: usize = 0x8000_0000;

/// The names of parts, each with the number of its part, and how many lines stand before the next
/// part.
pub struct Seen {
    pub charmaps: ByName<usize>,
    pub sources: ByName<usize>,
    pub catalogs: ByName<usize>,
    pub before: u32,
}

impl Drop for Seen {
    fn drop(self) {
        let Seen {
            charmaps: _,
            sources: _,
            catalogs: _,
            before: _,
        } = self;
    }
}

/// Whether a part has a name and a label that are formed as those of its kind.
fn is_named(part: &LibraryPart) -> bool
    ensures { result ≡ is_named part.now }
{
    let name = part.name.as_bytes();
    let label = part.label.as_bytes();
    match part.kind {
        PartKind::Charmap => is_charmap_name(name) && label.is_empty(),
        PartKind::Source => is_locale_name(name) && is_formed(label),
        PartKind::Catalog => is_locale_name(name) && is_part_name(label),
    }
}

/// The key of a part among those of its kind.
fn key(alloc: Global, part: &LibraryPart) -> Result<Vec<u8>, AllocError>
    ensures { IfOk result (λ v. v.items ≡ key part.now) }
{
    let mut key = Vec::from_slice(alloc, part.name.as_bytes())?;
    if let PartKind::Catalog = part.kind {
        key.push(b'/')?;
        key.extend_from_slice(part.label.as_bytes())?;
    }
    Ok(key)
}

impl Seen {
    /// Before the first part.
    pub fn new(alloc: Global) -> Seen
        ensures { result ≡ at_first }
    {
        Seen {
            charmaps: ByName::new(alloc),
            sources: ByName::new(alloc),
            catalogs: ByName::new(alloc),
            before: 0,
        }
    }

    /// The names of a kind.
    fn names_in(&self, kind: PartKind) -> &ByName<usize>
        ensures { result.now ≡ names_in self.now kind }
    {
        match kind {
            PartKind::Charmap => &self.charmaps,
            PartKind::Source => &self.sources,
            PartKind::Catalog => &self.catalogs,
        }
    }

    /// Adds a name of a kind.
    fn add_name(
        &mut self,
        alloc: Global,
        kind: PartKind,
        name: &[u8],
        number: usize,
    ) -> Result<(), AllocError>
        ensures { OnOk result (self.new ≡ with_name self.old kind name.now number) }
    {
        match kind {
            PartKind::Charmap => self.charmaps.add(alloc, name, number),
            PartKind::Source => self.sources.add(alloc, name, number),
            PartKind::Catalog => self.catalogs.add(alloc, name, number),
        }
    }

    /// What is wrong with a part that has this key.
    fn wrong_with(&self, part: &LibraryPart, bytes: &[u8]) -> Option<Wrong>
        requires { bytes.now ≡ key part.now }
        ensures { result ≡ wrong_with self.now part.now }
    {
        let names = self.names_in(part.kind);
        if part.text.as_bytes().len() >= SIZE_LIMIT || self.before as usize + 1 >= SIZE_LIMIT {
            return Some(Wrong::TooLong);
        }
        if !is_named(part) {
            return Some(Wrong::BadName);
        }
        if names.get(bytes).is_some() {
            return Some(Wrong::NameTwice);
        }
        if names.len() >= PART_LIMIT {
            return Some(Wrong::TooMany);
        }
        None
    }

    /// Takes the part with this number.
    fn add(&mut self, alloc: Global, number: usize, part: &LibraryPart) -> Result<(), PartFault>
        ensures { Gives (λ _. self.new) result (part_seen self.old number part.now) }
    {
        let key = key(alloc, part)?;
        if let Some(wrong) = self.wrong_with(part, key.as_slice()) {
            return Err(PartFault::At(number, wrong));
        }
        self.add_name(alloc, part.kind, key.as_slice(), number)?;
        self.before += line_count(part.text.as_bytes()) + 1;
        Ok(())
    }
}

/// What is known of parts, or the first that is wrong.
pub fn parts_seen(alloc: Global, parts: &[LibraryPart]) -> Result<Seen, PartFault>
    ensures is { Gives (λ s. s) result (parts_seen at_first 0 parts.now) }
    ensures sized { IfOk result (λ s. AreSized 0 parts.now) }
    ensures few_sources { IfOk result (λ s. length (blocks_of Source 0 parts.now) ≤ PART_LIMIT) }
    ensures few_catalogs { IfOk result (λ s. length (blocks_of Catalog 0 parts.now) ≤ PART_LIMIT) }
{
    let mut seen = Seen::new(alloc);
    for (number, part) in parts.iter().enumerate() {
        seen.add(alloc, number, part)?;
    }
    Ok(seen)
}

/// Whether a part is a source whose charset is neither built in nor one of these charmaps.
fn lacks_charset(charmaps: &ByName<usize>, part: &LibraryPart) -> bool
    ensures { result ≡ lacks_charset charmaps.now part.now }
{
    let charset = part.label.as_bytes();
    match part.kind {
        PartKind::Source => !is_built_in_charset(charset) && charmaps.get(charset).is_none(),
        _ => false,
    }
}

/// The first source whose charset is not known.
pub fn charsets_known(charmaps: &ByName<usize>, parts: &[LibraryPart]) -> Result<(), PartFault>
    ensures { Gives (λ x. x) result (charsets_known charmaps.now 0 parts.now) }
{
    for (number, part) in parts.iter().enumerate() {
        if lacks_charset(charmaps, part) {
            return Err(PartFault::At(number, Wrong::NoCharmap));
        }
    }
    Ok(())
}
