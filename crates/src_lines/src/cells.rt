//! Atoms in little memory: a byte and its mark.

ghost use Rattle.std.specs.Prelude.{◌≡◌, ◌+◌, ◌<◌, ◌≤◌, ◌∷◌, ◌++◌, [], length, map, count_by, replicate, option_map, IfOk, OnOk, IfSome, IsNone, IsTrue, ◌↔◌};
ghost use Rattle.std.specs.List.{list_any};
ghost use Rattle.src_lines.specs.declared.cells.CellMark.TheVariants.{InName, NameEnd};
ghost use Rattle.src_lines.specs.Atoms.{piece, up_to};
ghost use Rattle.src_lines.specs.Cells.{atom_seen, atoms_of, IsWhole, leading, ends_atom, ends_name, marked};
ghost use Rattle.src_lines.specs.Pieces.{only_bytes};

use crate::atom::Atom;
use crate::line::OperandPiece;
use lc_base::{ByteText, List};
use std::alloc::{AllocError, Global};
use std::marker::Model;

/// What a byte is.
#[derive(Clone, Copy)]
pub enum CellMark {
    /// A byte that stands bare.
    AsItself,
    /// A byte that is written as a number.
    AsNumber,
    /// An escaped byte.
    AsEscaped,
    /// A byte of a character's name.
    InName,
    /// What follows the last byte of a name.
    NameEnd,
}

/// Atoms of a line, in two bytes of memory for each byte.
#[derive(Drop)]
pub struct Atoms {
    marks: Vec<CellMark>,
    bytes: Vec<u8>,
}

impl Model for Atoms {
    ghost use Rattle.std.specs.Prelude.{List};
    ghost use Rattle.src_lines.specs.declared.atom.Atom.{Atom};

    ghost Value = { List Atom };

    ghost use Rattle.src_lines.specs.Cells.{atoms_of, IsWhole};

    ghost view = { λ a. atoms_of a.marks.items a.bytes.items };

    ghost invariant = { λ a. IsWhole a.marks.items a.bytes.items };
}

/// An atom, borrowed.
#[derive(Clone, Copy)]
pub enum AtomRef<'a> {
    Bare(u8),
    Number(u8),
    Escaped(u8),
    Name(&'a [u8]),
}

/// Atoms that are still to come.
#[derive(Drop)]
pub struct AtomWalk<'a> {
    marks: &'a [CellMark],
    bytes: &'a [u8],
}

impl<'a> Model for AtomWalk<'a> {
    ghost use Rattle.std.specs.Prelude.{List};
    ghost use Rattle.src_lines.specs.declared.atom.Atom.{Atom};

    ghost Value = { List Atom };

    ghost use Rattle.src_lines.specs.Cells.{atoms_of};

    ghost view = { λ a. atoms_of a.marks.now a.bytes.now };
}

/// Adds a cell.
fn push_cell(
    marks: &mut Vec<CellMark>,
    bytes: &mut Vec<u8>,
    mark: CellMark,
    byte: u8,
) -> Result<(), AllocError>
    ensures { OnOk result ((marks.new.items ≡ marks.old.items ++ mark ∷ []) × (bytes.new.items ≡ bytes.old.items ++ byte ∷ [])) }
{
    bytes.push(byte)?;
    marks.push(mark)?;
    Ok(())
}

/// Adds the cells of a name.
fn push_name(marks: &mut Vec<CellMark>, bytes: &mut Vec<u8>, name: &[u8]) -> Result<(), AllocError>
    ensures { OnOk result ((marks.new.items ≡ (marks.old.items ++ replicate (length name.now) InName) ++ NameEnd ∷ []) × (bytes.new.items ≡ (bytes.old.items ++ name.now) ++ 0 ∷ [])) }
{
    bytes.extend_from_slice(name)?;
    let len = marks.len() + name.len();
    marks.resize(len, CellMark::InName)?;
    push_cell(marks, bytes, CellMark::NameEnd, 0)
}

/// Adds the cells of an atom.
fn push_atom(marks: &mut Vec<CellMark>, bytes: &mut Vec<u8>, atom: Atom) -> Result<(), AllocError>
    requires { IsWhole marks.old.items bytes.old.items }
    ensures is { OnOk result (atoms_of marks.new.items bytes.new.items ≡ atoms_of marks.old.items bytes.old.items ++ atom ∷ []) }
    ensures whole { OnOk result (IsWhole marks.new.items bytes.new.items) }
{
    match atom {
        Atom::Bare(byte) => push_cell(marks, bytes, CellMark::AsItself, byte),
        Atom::Number(byte) => push_cell(marks, bytes, CellMark::AsNumber, byte),
        Atom::Made(OperandPiece::Byte(byte)) => push_cell(marks, bytes, CellMark::AsEscaped, byte),
        Atom::Made(OperandPiece::Name(name)) => push_name(marks, bytes, name.as_bytes()),
    }
}

/// How many cells of a name come first.
fn name_len(marks: &[CellMark]) -> usize
    ensures is { result ≡ leading marks.now }
    ensures within { result ≤ length marks.now }
{
    for (i, mark) in marks.iter().enumerate() {
        if *mark != CellMark::InName {
            return i;
        }
    }
    marks.len()
}

/// Whether a cell ends an atom.
fn ends_atom(mark: CellMark) -> bool
    ensures { result ≡ ends_atom mark }
{
    match mark {
        CellMark::AsItself | CellMark::AsNumber | CellMark::AsEscaped | CellMark::NameEnd => true,
        CellMark::InName => false,
    }
}

/// How many cells end an atom.
fn end_count(marks: &[CellMark]) -> usize
    ensures { result ≡ count_by ends_atom marks.now }
{
    marks.iter().filter(|mark| ends_atom(**mark)).count()
}

/// Whether a cell ends a name.
fn ends_name(mark: CellMark) -> bool
    ensures { result ≡ ends_name mark }
{
    match mark {
        CellMark::AsItself | CellMark::AsNumber | CellMark::AsEscaped | CellMark::InName => false,
        CellMark::NameEnd => true,
    }
}

/// Whether there is a name.
fn has_name(marks: &[CellMark]) -> bool
    ensures { result ≡ list_any ends_name marks.now }
{
    marks.iter().any(|mark| ends_name(*mark))
}

/// The atom of a cell behind the bytes of a name.
fn marked<'a>(mark: CellMark, name: &'a [u8], byte: u8) -> AtomRef<'a>
    ensures { atom_seen result ≡ marked mark name.now byte }
{
    match mark {
        CellMark::AsItself => AtomRef::Bare(byte),
        CellMark::AsNumber => AtomRef::Number(byte),
        CellMark::AsEscaped => AtomRef::Escaped(byte),
        CellMark::InName | CellMark::NameEnd => AtomRef::Name(name),
    }
}

impl<'a> AtomWalk<'a> {
    /// The next atom.
    pub fn next(&mut self) -> Option<AtomRef<'a>>
        ensures some { IfSome result (λ atom. self.old ≡ atom_seen atom ∷ self.new) }
        ensures none { IsNone result → self.old ≡ [] }
        ensures over { IsNone result → self.new ≡ [] }
    {
        let marks = self.marks;
        let bytes = self.bytes;
        let len = name_len(marks);
        if len >= marks.len() || len >= bytes.len() {
            return None;
        }
        let (name, _) = bytes.split_at(len);
        let atom = marked(marks[len], name, bytes[len]);
        (_, self.marks) = marks.split_at(len + 1);
        (_, self.bytes) = bytes.split_at(len + 1);
        Some(atom)
    }
}

impl AtomRef<'_> {
    /// The atom, with a copy of its name.
    pub fn to_atom(self, alloc: Global) -> Result<Atom, AllocError>
        ensures { IfOk result (λ atom. atom ≡ atom_seen self.entry) }
    {
        Ok(match self {
            AtomRef::Bare(byte) => Atom::Bare(byte),
            AtomRef::Number(byte) => Atom::Number(byte),
            AtomRef::Escaped(byte) => Atom::Made(OperandPiece::Byte(byte)),
            AtomRef::Name(name) => Atom::Made(OperandPiece::Name(ByteText::of(alloc, name)?)),
        })
    }
}

impl Atoms {
    /// No atom.
    pub fn new(alloc: Global) -> Atoms
        ensures { result ≡ [] }
    {
        Atoms {
            marks: Vec::new(alloc),
            bytes: Vec::new(alloc),
        }
    }

    /// These atoms and one more.
    pub fn with(self, atom: Atom) -> Result<Atoms, AllocError>
        ensures { IfOk result (λ atoms. atoms ≡ self ++ atom ∷ []) }
    {
        let Atoms {
            mut marks,
            mut bytes,
        } = self;
        push_atom(&mut marks, &mut bytes, atom)?;
        Ok(Atoms { marks, bytes })
    }

    /// Whether there is no atom.
    pub fn is_empty(&self) -> bool
        ensures { IsTrue result ↔ (self.now ≡ []) }
    {
        self.walk().next().is_none()
    }

    /// The number of atoms, which is counted.
    pub fn len(&self) -> usize
        ensures { result ≡ length self.now }
    {
        end_count(&self.marks)
    }

    /// The bytes that the atoms' pieces are, unless there is a name among them.
    pub fn as_bytes(&self) -> Option<&[u8]>
        ensures { option_map (λ bytes. bytes.now) result ≡ only_bytes (map piece self.now) }
    {
        if has_name(&self.marks) {
            return None;
        }
        Some(&self.bytes)
    }

    /// The atoms, one after the other.
    pub(crate) fn walk(&self) -> AtomWalk<'_>
        ensures { result ≡ self.now }
    {
        AtomWalk {
            marks: &self.marks,
            bytes: &self.bytes,
        }
    }

    /// The atoms, where they are at most `max`.
    pub fn up_to(&self, alloc: Global, max: usize) -> Result<Option<List<Atom>>, AllocError>
        ensures { IfOk result (λ o. o ≡ up_to max self.now) }
    {
        let mut found = Vec::new(alloc);
        let mut walk = self.walk();
        while let Some(atom) = walk.next() {
            if found.len() == max {
                return Ok(None);
            }
            found.push(atom.to_atom(alloc)?)?;
        }
        Ok(Some(List::of(found)))
    }
}
