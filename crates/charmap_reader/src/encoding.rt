//! Encodings in a charmap (XBD 6.4).

ghost use Rattle.std.specs.Prelude.{◌≡◌, ◌<◌, ◌≤◌, length, option_map, if◌then◌else◌, IfOk, Some, None};
ghost use Rattle.charset.specs.Code.{code_bytes};
ghost use Rattle.charmap_reader.specs.Encoding.{atom_number, is_encoding, encoding};

use charset::Code;
use src_lines::{Atom, Atoms};
use std::alloc::{AllocError, Global};

/// The byte of an atom that is a number.
fn number(atom: &Atom) -> Option<u8>
    ensures { result ≡ atom_number atom.now }
{
    match atom {
        Atom::Number(byte) => Some(*byte),
        _ => None,
    }
}

/// The encoding of these bytes, unless there are several and the first is 0.
fn coded(bytes: &[u8]) -> Option<Code>
    requires some { 0 < length bytes.now }
    requires few { length bytes.now ≤ 4 }
    ensures { option_map code_bytes result ≡ (if is_encoding bytes.now then Some bytes.now else None) }
{
    if bytes.len() > 1 && bytes[0] == 0 {
        return None;
    }
    Some(Code::of(bytes))
}

/// The encoding that a whole field is: one to four numbers, of which the first of several is not 0.
fn encoding_of(atoms: &[Atom]) -> Option<Code>
    ensures { option_map code_bytes result ≡ encoding atoms.now }
{
    match atoms {
        [a] => coded(&[number(a)?]),
        [a, b] => coded(&[number(a)?, number(b)?]),
        [a, b, c] => coded(&[number(a)?, number(b)?, number(c)?]),
        [a, b, c, d] => coded(&[number(a)?, number(b)?, number(c)?, number(d)?]),
        _ => None,
    }
}

/// The encoding that a field's atoms are, all of them.
pub fn encoding_in(alloc: Global, atoms: &Atoms) -> Result<Option<Code>, AllocError>
    ensures { IfOk result (λ o. option_map code_bytes o ≡ encoding atoms.now) }
{
    match atoms.up_to(alloc, 4)? {
        Some(atoms) => Ok(encoding_of(atoms.as_slice())),
        None => Ok(None),
    }
}
