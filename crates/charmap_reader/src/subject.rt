//! What a line of a charmap's body speaks of (XBD 6.4).

ghost use Rattle.std.specs.Prelude.{◌≡◌, ◌∷◌, [], min, option_map, None, Some};
ghost use Rattle.std.specs.Prelude.{List as AllOf};
ghost use Rattle.src_lines.specs.declared.atom.Atom.{Atom as AtomValue};
ghost use Rattle.src_lines.specs.Atoms.{up_to};
ghost use Rattle.src_lines.specs.Shapes.{is_dots};
ghost use Rattle.charmap_reader.specs.Subject.{atom_name, subject, more_between, more_names};
ghost use Rattle.charmap_reader.specs.Seen.{seen};

use crate::distance::distance;
use charset::split_number;
use lc_base::List;
use src_lines::{Atom, OperandPiece};

/// The most atoms of a subject: two names, with three dots between them.
pub const SUBJECT_ATOMS: usize = 5;

/// The characters that a line gives an encoding: one name, or with a last name a range.
#[derive(Clone, Copy)]
pub struct Subject<'a> {
    pub first: &'a [u8],
    pub last: Option<&'a [u8]>,
}

/// A character's name, if an atom is one.
fn atom_name(atom: &Atom) -> Option<&[u8]>
    ensures { option_map (λ name. name.now) result ≡ atom_name atom.now }
{
    match atom {
        Atom::Made(OperandPiece::Name(name)) => Some(name.as_bytes()),
        _ => None,
    }
}

/// Whether atoms are three bare dots.
fn are_dots(first: &Atom, second: &Atom, third: &Atom) -> bool
    ensures { result ≡ is_dots (first.now ∷ second.now ∷ third.now ∷ []) }
{
    first.is_bare(b'.') && second.is_bare(b'.') && third.is_bare(b'.')
}

/// The subject that a whole field is.
fn subject_of(atoms: &[Atom]) -> Option<Subject<'_>>
    ensures { option_map seen result ≡ subject atoms.now }
{
    match atoms {
        [name] => Some(Subject {
            first: atom_name(name)?,
            last: None,
        }),
        [first, a, b, c, last] if are_dots(a, b, c) => Some(Subject {
            first: atom_name(first)?,
            last: Some(atom_name(last)?),
        }),
        _ => None,
    }
}

/// The subject that a field is which has these atoms, or more than a subject has.
pub fn subject_in(atoms: &Option<List<Atom>>) -> Option<Subject<'_>>
    ensures { (all : AllOf AtomValue) → atoms.now ≡ up_to SUBJECT_ATOMS all → option_map seen result ≡ subject all }
{
    match atoms {
        Some(atoms) => subject_of(atoms.as_slice()),
        None => None,
    }
}

/// How many names follow the first one of a range, up to `FAR`. None where an end has no digits,
/// where the parts before them differ, or where the range runs backward.
fn more_between(first: &[u8], last: &[u8]) -> Option<u64>
    ensures { result ≡ option_map (λ n. min n 4294967296) (more_between first.now last.now) }
{
    let (first_stem, first_digits) = split_number(first);
    let (last_stem, last_digits) = split_number(last);
    if first_digits.is_empty() || last_digits.is_empty() || first_stem != last_stem {
        return None;
    }
    distance(first_digits, last_digits)
}

/// How many names follow the first one of a subject, up to `FAR`.
pub fn more_names(subject: &Subject<'_>) -> Option<u64>
    ensures { result ≡ option_map (λ n. min n 4294967296) (more_names (seen subject.now)) }
{
    match subject.last {
        None => Some(0),
        Some(last) => more_between(subject.first, last),
    }
}
