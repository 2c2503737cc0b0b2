//! The parts of a library that is yet to be made.

ghost use Rattle.std.specs.Prelude.{◌≡◌, ◌++◌, [], ◌∷◌, IfOk, OnOk, OnErr};
ghost use Rattle.shared_objects.specs.Parts.{part_of};

use lc_base::ByteText;
use library_parts::{LibraryPart, PartKind};
use std::alloc::{AllocError, Global};
use std::marker::Model;

/// The parts of a library that is yet to be made, in the order in which they were added.
pub struct Draft {
    parts: Vec<LibraryPart>,
}

impl Drop for Draft {
    fn drop(self) {
        let Draft { parts: _ } = self;
    }
}

impl Model for Draft {
    ghost use Rattle.std.specs.Prelude.{List};
    ghost use Rattle.library_parts.specs.declared.part.LibraryPart.{LibraryPart};

    ghost Value = { List LibraryPart };

    ghost view = { λ d. d.parts.items };
}

impl Draft {
    /// No part yet.
    pub fn new(alloc: Global) -> Draft
        ensures { result ≡ [] }
    {
        Draft {
            parts: Vec::new(alloc),
        }
    }

    /// The parts.
    pub fn parts(&self) -> &[LibraryPart]
        ensures { result.now ≡ self.now }
    {
        self.parts.as_slice()
    }

    /// Adds a part. Its bytes are copied.
    pub fn add(
        &mut self,
        alloc: Global,
        kind: PartKind,
        name: &[u8],
        label: &[u8],
        text: &[u8],
    ) -> Result<(), AllocError>
        ensures added { OnOk result (self.new ≡ self.old ++ part_of kind name.now label.now text.now ∷ []) }
        ensures kept { OnErr result (self.new ≡ self.old) }
    {
        let part = new_part(alloc, kind, name, label, text)?;
        self.parts.push(part)?;
        Ok(())
    }
}

/// A part whose bytes are copied.
fn new_part(
    alloc: Global,
    kind: PartKind,
    name: &[u8],
    label: &[u8],
    text: &[u8],
) -> Result<LibraryPart, AllocError>
    ensures { IfOk result (λ p. p ≡ part_of kind name.now label.now text.now) }
{
    Ok(LibraryPart {
        kind,
        name: ByteText::of(alloc, name)?,
        label: ByteText::of(alloc, label)?,
        text: ByteText::of(alloc, text)?,
    })
}

/// Copies of parts.
pub(crate) fn copied_parts(
    alloc: Global,
    parts: &[LibraryPart],
) -> Result<Vec<LibraryPart>, AllocError>
    ensures { IfOk result (λ copies. copies.items ≡ parts.now) }
{
    let mut copies = Vec::new(alloc);
    for part in parts {
        copies.push(new_part(
            alloc,
            part.kind,
            part.name.as_bytes(),
            part.label.as_bytes(),
            part.text.as_bytes(),
        )?)?;
    }
    Ok(copies)
}
