//! Marks of libraries.

ghost use Rattle.std.specs.Prelude.{◌≡◌};
ghost use Rattle.shared_objects.specs.Marks.Origin.{OfText, OfParts, OfLibraries};
ghost use Rattle.shared_objects.specs.Marks.{fed, kind_number, mark_of, part_bytes, sized};

use library_parts::{LibraryPart, PartKind};
use std::hash::{DefaultHasher, Hasher};

/// The mark of a text.
pub(crate) fn text_mark(text: &[u8]) -> u64
    ensures { result ≡ mark_of (OfText text.now) }
{
    let mut hasher = DefaultHasher::new();
    hasher.write(&[0]);
    hasher.write(text);
    hasher.finish()
}

/// The mark of parts in their order.
pub(crate) fn parts_mark(parts: &[LibraryPart]) -> u64
    ensures { result ≡ mark_of (OfParts parts.now) }
{
    let mut hasher = DefaultHasher::new();
    hasher.write(&[1]);
    for part in parts {
        write_part(&mut hasher, part);
    }
    hasher.finish()
}

/// The mark of two joined libraries by theirs.
pub(crate) fn joined_mark(first: u64, second: u64) -> u64
    ensures { result ≡ mark_of (OfLibraries first second) }
{
    let mut hasher = DefaultHasher::new();
    hasher.write(&[2]);
    hasher.write(&first.to_le_bytes());
    hasher.write(&second.to_le_bytes());
    hasher.finish()
}

/// The number of a kind of parts.
fn kind_number(kind: PartKind) -> u8
    ensures { result ≡ kind_number kind }
{
    match kind {
        PartKind::Charmap => 0,
        PartKind::Source => 1,
        PartKind::Catalog => 2,
    }
}

/// Hands a text behind its length to a hasher.
fn write_sized(hasher: &mut DefaultHasher, text: &[u8])
    ensures { hasher.new ≡ fed hasher.old (sized text.now) }
{
    hasher.write(&text.len().to_le_bytes());
    hasher.write(text);
}

/// Hands a part to a hasher.
fn write_part(hasher: &mut DefaultHasher, part: &LibraryPart)
    ensures { hasher.new ≡ fed hasher.old (part_bytes part.now) }
{
    hasher.write(&[kind_number(part.kind)]);
    write_sized(hasher, part.name.as_bytes());
    write_sized(hasher, part.label.as_bytes());
    write_sized(hasher, part.text.as_bytes());
}
