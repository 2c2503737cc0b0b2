//! What an import left out or changed, as it is told.

use crate::gathered::{GnuFile, path_of};
use gnu_source::Note;
use lc_base::push_number;
use std::alloc::{AllocError, Global};
use tool_messages::push_word;

/// How many notes have a code, and the first of them.
#[derive(Clone, Copy)]
pub struct Tally {
    pub first: Note,
    pub count: u64,
}

/// Adds a line for each note: `FILE:LINE:COLUMN: CODE: SENTENCE`.
pub fn push_notes(out: &mut Vec<u8>, files: &[GnuFile], notes: &[Note]) -> Result<(), AllocError> {
    for note in notes {
        push_note(out, files, note)?;
        out.extend_from_slice(b"\n")?;
    }
    Ok(())
}

/// Adds a line for each code: `FILE:LINE:COLUMN: CODE: SENTENCE (COUNT)`, with the place of its first note.
pub fn push_summary(
    alloc: Global,
    out: &mut Vec<u8>,
    files: &[GnuFile],
    notes: &[Note],
) -> Result<(), AllocError> {
    for tally in tallies_of(alloc, notes)?.as_slice() {
        push_note(out, files, &tally.first)?;
        if tally.count > 1 {
            out.extend_from_slice(b" (")?;
            push_number(out, u128::from(tally.count))?;
            out.extend_from_slice(b" times)")?;
        }
        out.extend_from_slice(b"\n")?;
    }
    Ok(())
}

/// The notes by their codes, in the order of the first of each.
pub fn tallies_of(alloc: Global, notes: &[Note]) -> Result<Vec<Tally>, AllocError> {
    let mut tallies = Vec::new(alloc);
    for note in notes {
        if !is_counted(tallies.as_mut_slice(), note) {
            tallies.push(Tally {
                first: *note,
                count: 1,
            })?;
        }
    }
    Ok(tallies)
}

/// Each note by itself.
pub fn each_note(alloc: Global, notes: &[Note]) -> Result<Vec<Tally>, AllocError> {
    let mut tallies = Vec::new(alloc);
    for note in notes {
        tallies.push(Tally {
            first: *note,
            count: 1,
        })?;
    }
    Ok(tallies)
}

/// Counts a note among those of its code, if there are some.
fn is_counted(tallies: &mut [Tally], note: &Note) -> bool {
    for tally in tallies {
        if tally.first.code.code() == note.code.code() {
            tally.count = tally.count.saturating_add(1);
            return true;
        }
    }
    false
}

/// Adds the place, the code and the sentence of a note.
fn push_note(out: &mut Vec<u8>, files: &[GnuFile], note: &Note) -> Result<(), AllocError> {
    push_word(out, path_of(files, note.at.file).as_bytes())?;
    out.extend_from_slice(b":")?;
    push_number(out, u128::from(note.at.line))?;
    out.extend_from_slice(b":")?;
    push_number(out, u128::from(note.at.column))?;
    out.extend_from_slice(b": ")?;
    out.extend_from_slice(note.code.code().as_bytes())?;
    out.extend_from_slice(b": ")?;
    out.extend_from_slice(note.code.sentence().as_bytes())
}
