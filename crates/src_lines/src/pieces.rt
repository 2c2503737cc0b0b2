//! Pieces of an operand, in little memory.

ghost use Rattle.std.specs.Prelude.{◌≡◌, ◌∷◌, ◌++◌, [], length, map, option_map, IfOk, IfSome, IsNone, IsTrue, ◌↔◌};
ghost use Rattle.src_lines.specs.Atoms.{piece};
ghost use Rattle.src_lines.specs.Pieces.{seen, only_bytes};

use crate::atom::Atom;
use crate::cells::{AtomRef, AtomWalk, Atoms};
use std::alloc::{AllocError, Global};
use std::marker::Model;

/// The pieces of an operand: bytes and characters' names.
#[derive(Drop)]
pub struct Pieces {
    atoms: Atoms,
}

impl Model for Pieces {
    ghost use Rattle.std.specs.Prelude.{List, map};
    ghost use Rattle.src_lines.specs.declared.line.OperandPiece.{OperandPiece};

    ghost Value = { List OperandPiece };

    ghost use Rattle.src_lines.specs.Atoms.{piece};

    ghost view = { λ p. map piece p.atoms };
}

/// A piece, borrowed.
#[derive(Clone, Copy)]
pub enum PieceRef<'a> {
    /// A byte, written as itself, after the escape character, or as a number.
    Byte(u8),
    /// A character's name, without its `<` and `>`.
    Name(&'a [u8]),
}

/// Pieces that are still to come.
#[derive(Drop)]
pub struct Walk<'a> {
    atoms: AtomWalk<'a>,
}

impl<'a> Model for Walk<'a> {
    ghost use Rattle.std.specs.Prelude.{List, map};
    ghost use Rattle.src_lines.specs.declared.line.OperandPiece.{OperandPiece};

    ghost Value = { List OperandPiece };

    ghost use Rattle.src_lines.specs.Atoms.{piece};

    ghost view = { λ w. map piece w.atoms };
}

impl<'a> Walk<'a> {
    /// The next piece.
    pub fn next(&mut self) -> Option<PieceRef<'a>>
        ensures some { IfSome result (λ piece. self.old ≡ seen piece ∷ self.new) }
        ensures none { IsNone result → self.old ≡ [] }
        ensures over { IsNone result → self.new ≡ [] }
    {
        match self.atoms.next() {
            Some(AtomRef::Bare(byte)) => Some(PieceRef::Byte(byte)),
            Some(AtomRef::Number(byte)) => Some(PieceRef::Byte(byte)),
            Some(AtomRef::Escaped(byte)) => Some(PieceRef::Byte(byte)),
            Some(AtomRef::Name(name)) => Some(PieceRef::Name(name)),
            None => None,
        }
    }
}

impl Pieces {
    /// The pieces of atoms. Takes no memory.
    pub fn of(atoms: Atoms) -> Pieces
        ensures { result ≡ map piece atoms }
    {
        Pieces { atoms }
    }

    /// The number of pieces, which is counted.
    pub fn len(&self) -> usize
        ensures { result ≡ length self.now }
    {
        self.atoms.len()
    }

    /// Whether there is no piece.
    pub fn is_empty(&self) -> bool
        ensures { IsTrue result ↔ (self.now ≡ []) }
    {
        self.walk().next().is_none()
    }

    /// The bytes that the pieces are, unless there is a name among them.
    pub fn as_bytes(&self) -> Option<&[u8]>
        ensures { option_map (λ bytes. bytes.now) result ≡ only_bytes self.now }
    {
        self.atoms.as_bytes()
    }

    /// The pieces, one after the other.
    pub fn walk(&self) -> Walk<'_>
        ensures { result ≡ self.now }
    {
        Walk {
            atoms: self.atoms.walk(),
        }
    }
}
