//! Lines of a charmap's body (XBD 6.4).

ghost use Rattle.std.specs.Prelude.{◌≡◌, ◌+◌, ◌^◌, ◌<◌, ◌≤◌, ℕ, Some, true, length, min, option_map};
ghost use Rattle.std.specs.List.{list_any};
ghost use Rattle.lc_base.specs.Reading.{Gives};
ghost use Rattle.charset.specs.CodedSet.{big_endian};
ghost use Rattle.charset.specs.Code.{code_bytes};
ghost use Rattle.charmap_reader.specs.Subject.{more_names};
ghost use Rattle.charmap_reader.specs.Encoding.{is_encoding};
ghost use Rattle.charmap_reader.specs.Seen.{seen};
ghost use Rattle.charmap_reader.specs.Charmap.{entries, is_moved, listed_at, counted_at, mapped};

use crate::encoding::encoding_in;
use crate::subject::{SUBJECT_ATOMS, Subject, more_names, subject_in};
use charset::{CharacterNames, Code, NAME_LIMIT, add_names, portable_code};
use lc_base::{Limit, Place, Reason, TextFault};
use src_lines::Field;
use std::alloc::Global;

/// Whether a subject is a portable name with another code than its own.
fn is_moved(subject: &Subject<'_>, code: &Code) -> bool
    requires { 1 ≤ code.now.len }
    ensures { (more : ℕ) → more_names (seen subject.now) ≡ Some more → result ≡ list_any is_moved (entries (seen subject.now) (code_bytes code.now) more) }
{
    let value = code.value();
    match (subject.last, portable_code(subject.first)) {
        (None, Some(own)) => code.len > 1 || value != own,
        _ => false,
    }
}

/// The first encoding that has more bytes than these.
fn past(code: &Code) -> u64
    requires { 1 ≤ code.now.len }
    ensures { result ≡ 256 ^ code.now.len }
{
    match code.len {
        1 => 1 << 8,
        2 => 1 << 16,
        3 => 1 << 24,
        _ => 1 << 32,
    }
}

/// Adds the names of a line's first field, the first with this encoding.
fn add_subject(
    alloc: Global,
    names: &mut CharacterNames,
    place: Place,
    subject: &Subject<'_>,
    more: u32,
    code: &Code,
) -> Result<(), TextFault>
    requires names { more_names (seen subject.now) ≡ Some more }
    requires few { length names.old + more < NAME_LIMIT }
    requires encoding { is_encoding (code_bytes code.now) ≡ true }
    requires fits { big_endian (code_bytes code.now) + more < 256 ^ length (code_bytes code.now) }
    ensures { Gives (λ _. names.new) result (listed_at place names.old (entries (seen subject.now) (code_bytes code.now) more)) }
{
    if !add_names(alloc, names, subject.first, more, code.value())? {
        return Err(TextFault::At(place, Reason::NameTwice));
    }
    if is_moved(subject, code) {
        return Err(TextFault::At(place, Reason::PortableMoved));
    }
    Ok(())
}

/// Adds the names of a line with these two fields, which begin with this subject and this encoding,
/// unless the encodings or the names would be too many.
fn add_counted(
    alloc: Global,
    names: &mut CharacterNames,
    name: &Field,
    code: &Field,
    subject: &Subject<'_>,
    more: u64,
    first: &Code,
) -> Result<(), TextFault>
    requires names { option_map (λ n. min n 4294967296) (more_names (seen subject.now)) ≡ Some more }
    requires encoding { is_encoding (code_bytes first.now) ≡ true }
    ensures { (m : ℕ) → more_names (seen subject.now) ≡ Some m → Gives (λ _. names.new) result (counted_at name.now.place code.now.place names.old (seen subject.now) (code_bytes first.now) m) }
{
    if u64::from(first.value()) + more >= past(first) {
        return Err(TextFault::At(code.place, Reason::BadEncoding));
    }
    if names.len() as u64 + more >= NAME_LIMIT as u64 {
        return Err(TextFault::At(name.place, Reason::OverLimit(Limit::Names)));
    }
    add_subject(alloc, names, name.place, subject, more as u32, first)
}

/// Adds the names of a line with these two fields.
pub fn add_line(
    alloc: Global,
    names: &mut CharacterNames,
    name: &Field,
    code: &Field,
) -> Result<(), TextFault>
    ensures { Gives (λ _. names.new) result (mapped names.old name.now code.now) }
{
    let atoms = name.atoms.up_to(alloc, SUBJECT_ATOMS)?;
    let Some(subject) = subject_in(&atoms) else {
        return Err(TextFault::At(name.place, Reason::BadEncoding));
    };
    let Some(more) = more_names(&subject) else {
        return Err(TextFault::At(name.place, Reason::RangeBackward));
    };
    let Some(first) = encoding_in(alloc, &code.atoms)? else {
        let missing = code.atoms.is_empty();
        let place = if missing { name.place } else { code.place };
        return Err(TextFault::At(place, Reason::BadEncoding));
    };
    add_counted(alloc, names, name, code, &subject, more, &first)
}
