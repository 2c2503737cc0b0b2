//! What a whole run is: dots, a pair or plain.

ghost use Rattle.std.specs.Prelude.{◌≡◌, ◌==◌, ◌∷◌, true, count_by, IfOk, IsTrue};
ghost use Rattle.src_lines.specs.declared.atom.Atom.TheVariants.{Bare};
ghost use Rattle.src_lines.specs.Atoms.{is_bare};
ghost use Rattle.src_lines.specs.Cells.{atom_seen};
ghost use Rattle.src_lines.specs.Shapes.{is_dots, starts, stops, is_pair, before_bare, behind_bare, without_last, pair, shape};

use crate::cells::{AtomRef, AtomWalk, Atoms};
use crate::line::Operand;
use crate::pieces::Pieces;
use std::alloc::{AllocError, Global};

/// Whether an atom is this byte, bare.
fn is_bare(byte: u8, atom: AtomRef<'_>) -> bool
    ensures { result ≡ is_bare byte (atom_seen atom.entry) }
{
    match atom {
        AtomRef::Bare(bare) => bare == byte,
        AtomRef::Number(_) | AtomRef::Escaped(_) | AtomRef::Name(_) => false,
    }
}

/// Whether the next atom is this byte, bare.
fn takes(byte: u8, walk: &mut AtomWalk<'_>) -> bool
    ensures is { result ≡ starts byte walk.old }
    ensures next { IsTrue result → walk.old ≡ Bare byte ∷ walk.new }
{
    match walk.next() {
        Some(atom) => is_bare(byte, atom),
        None => false,
    }
}

/// Whether a run is three bare dots.
fn is_dots(atoms: &Atoms) -> bool
    ensures { result ≡ is_dots atoms.now }
{
    let mut walk = atoms.walk();
    for _ in 0..3u32 {
        if !takes(b'.', &mut walk) {
            return false;
        }
    }
    walk.next().is_none()
}

/// Whether the last atom is this byte, bare.
fn stops(byte: u8, atoms: &Atoms) -> bool
    ensures { result ≡ stops byte atoms.now }
{
    let mut stops = false;
    let mut walk = atoms.walk();
    while let Some(atom) = walk.next() {
        stops = is_bare(byte, atom);
    }
    stops
}

/// Whether just one atom is this byte, bare.
fn stands_once(byte: u8, atoms: &Atoms) -> bool
    ensures { result ≡ (count_by (is_bare byte) atoms.now == 1) }
{
    let mut stands = false;
    let mut walk = atoms.walk();
    while let Some(atom) = walk.next() {
        if is_bare(byte, atom) {
            if stands {
                return false;
            }
            stands = true;
        }
    }
    stands
}

/// Whether a run is a pair.
fn is_pair(atoms: &Atoms) -> bool
    ensures { result ≡ is_pair atoms.now }
{
    takes(b'(', &mut atoms.walk()) && stops(b')', atoms) && stands_once(b',', atoms)
}

/// The atoms before the first one that is this byte, bare. The walk goes on behind that one.
fn take_before(alloc: Global, byte: u8, walk: &mut AtomWalk<'_>) -> Result<Atoms, AllocError>
    ensures taken { IfOk result (λ atoms. atoms ≡ before_bare byte walk.old) }
    ensures rest { IfOk result (λ _. walk.new ≡ behind_bare byte walk.old) }
{
    let mut taken = Atoms::new(alloc);
    while let Some(atom) = walk.next() {
        if is_bare(byte, atom) {
            return Ok(taken);
        }
        taken = taken.with(atom.to_atom(alloc)?)?;
    }
    Ok(taken)
}

/// All atoms but the last.
fn take_front(alloc: Global, walk: AtomWalk<'_>) -> Result<Atoms, AllocError>
    ensures { IfOk result (λ atoms. atoms ≡ without_last walk.entry) }
{
    let mut walk = walk;
    let mut taken = Atoms::new(alloc);
    let Some(mut last) = walk.next() else {
        return Ok(taken);
    };
    while let Some(atom) = walk.next() {
        taken = taken.with(last.to_atom(alloc)?)?;
        last = atom;
    }
    Ok(taken)
}

/// The pair that a run is.
fn pair(alloc: Global, atoms: &Atoms) -> Result<Operand, AllocError>
    requires { is_pair atoms.now ≡ true }
    ensures { IfOk result (λ operand. operand ≡ pair atoms.now) }
{
    let mut walk = atoms.walk();
    walk.next();
    let left = take_before(alloc, b',', &mut walk)?;
    let right = take_front(alloc, walk)?;
    Ok(Operand::Pair(Pieces::of(left), Pieces::of(right)))
}

/// What a whole run is.
pub fn shape_of(alloc: Global, atoms: Atoms) -> Result<Operand, AllocError>
    ensures { IfOk result (λ operand. operand ≡ shape atoms) }
{
    if is_dots(&atoms) {
        return Ok(Operand::Dots);
    }
    if is_pair(&atoms) {
        return pair(alloc, &atoms);
    }
    Ok(Operand::Plain(Pieces::of(atoms)))
}
