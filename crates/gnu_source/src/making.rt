//! The standard source of a system's one.

ghost use Rattle.std.specs.Prelude.{◌≡◌, Ok, IfOk};
ghost use Rattle.std.specs.List.Sorted.{IsSorted};
ghost use Rattle.gnu_source.specs.Standard.{standard};

use crate::accepted::check_source;
use crate::faults::ImportFault;
use gnu_text::{Named, Note, Origin, made_text};
use lc_base::{ByteText, List, Place, TextFault};
use std::alloc::Global;

/// From so many bytes on a source is too large.
const TEXT_MOST: usize = 1 << 31;

/// A standard source.
pub struct Imported {
    /// The source, in UTF-8. It copies nothing.
    pub text: ByteText,
    /// What it lacks or has otherwise, in the order of where that comes from.
    pub notes: List<Note>,
}

impl Drop for Imported {
    fn drop(self) {
        let Imported { text: _, notes: _ } = self;
    }
}

impl Imported {
    /// The source alone.
    pub fn into_text(self) -> ByteText
        ensures { result ≡ self.text }
    {
        let Imported { text, notes: _ } = self;
        text
    }
}

/// Where the line of a place comes from.
fn origin_of(origins: &[Origin], place: Place) -> Origin {
    let mut number: u32 = 1;
    let mut at = Origin {
        file: 0,
        line: 1,
        column: 1,
    };
    for origin in origins {
        if number <= place.line {
            at = *origin;
        }
        number = number.saturating_add(1);
    }
    at
}

/// Nothing where a text is a standard source, whose lines come from these places.
fn accepted(alloc: Global, text: &[u8], origins: &[Origin]) -> Result<(), ImportFault>
    ensures { IfOk result (λ _. standard text.now ≡ Ok tt) }
{
    if text.len() >= TEXT_MOST {
        return Err(ImportFault::TooLarge);
    }
    match check_source(alloc, text) {
        Ok(()) => Ok(()),
        Err(TextFault::At(place, reason)) => {
            let at = origin_of(origins, place);
            Err(ImportFault::Refused(place, reason, at))
        }
        Err(TextFault::Memory) => Err(ImportFault::Memory),
    }
}

/// The standard source that a system's source gives, the first of these files. The others are those that it copies,
/// and those that they copy. A copy of `POSIX` or `C` needs no file.
///
/// The text is read and compiled before it is given, so that nothing of it is refused later.
pub fn import(alloc: Global, files: &[Named<'_>]) -> Result<Imported, ImportFault>
    ensures standard { IfOk result (λ i. standard i.text ≡ Ok tt) }
    ensures sorted { IfOk result (λ i. IsSorted ⟦<Note as Ord>⟧.cmp i.notes) }
{
    let made = made_text(alloc, files)?;
    accepted(alloc, made.text.as_bytes(), made.origins.as_slice())?;
    let (text, notes) = made.into_parts();
    Ok(Imported { text, notes })
}
