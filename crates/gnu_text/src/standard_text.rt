//! The text that is made of files.

ghost use Rattle.std.specs.Prelude.{◌≡◌, IfOk};
ghost use Rattle.std.specs.List.Sorted.{IsSorted};

use crate::category::{Files, Named, section_of};
use crate::exclusions::keep_apart;
use crate::times::renew_times;
use crate::writer::Writer;
use charset::Charset;
use gnu_read::{GnuFile, Note, NoteCode, Notes, Origin, SourceFault, in_file, read_file};
use lc_base::{ByteText, CATEGORIES, Category, List};
use std::alloc::{AllocError, Global};

/// The text of a source, which was not read yet.
pub struct MadeText {
    /// The text, in UTF-8. It copies nothing.
    pub text: ByteText,
    /// Where each of its lines comes from.
    pub origins: List<Origin>,
    /// What it lacks or has otherwise, in the order of where that comes from.
    pub notes: List<Note>,
}

impl Drop for MadeText {
    fn drop(self) {
        let MadeText {
            text: _,
            origins: _,
            notes: _,
        } = self;
    }
}

impl MadeText {
    /// The text, and what it lacks or has otherwise.
    pub fn into_parts(self) -> (ByteText, List<Note>)
        ensures { result ≡ (self.text, self.notes) }
    {
        let MadeText {
            text,
            origins: _,
            notes,
        } = self;
        (text, notes)
    }
}

/// Reads the files.
fn read_all(alloc: Global, files: &[Named<'_>]) -> Result<Vec<GnuFile>, SourceFault> {
    let mut read = Vec::new(alloc);
    for (number, file) in files.iter().enumerate() {
        match read_file(alloc, file.text) {
            Ok(file) => read.push(file)?,
            Err(fault) => return Err(in_file(number, fault)),
        }
    }
    Ok(read)
}

/// Writes the section of a category, if the first file has one.
fn write_category(
    files: &Files<'_>,
    category: Category,
    writer: &mut Writer,
    notes: &mut Notes,
) -> Result<(), SourceFault> {
    let Some(section) = files
        .read
        .first()
        .and_then(|file| section_of(file, category))
    else {
        return Ok(());
    };
    let mut draft = files.draft(category, notes)?;
    match category {
        Category::Ctype => keep_apart(files.alloc, &mut draft, notes)?,
        Category::Time => renew_times(files.alloc, &mut draft, notes)?,
        Category::Numeric | Category::Monetary | Category::Messages => {}
    }
    let at = Origin::at(0, section.place);
    Ok(writer.section(files.alloc, category, at, &draft)?)
}

/// Notes each section of the first file that is passed over.
fn note_sections(files: &Files<'_>, notes: &mut Notes) -> Result<(), AllocError> {
    let Some(file) = files.read.first() else {
        return Ok(());
    };
    for section in &file.sections {
        if section.category.is_none() {
            notes.add(Origin::at(0, section.place), NoteCode::Section)?;
        }
    }
    Ok(())
}

/// The text of a standard source that a system's source gives, the first of these files. The others are those that
/// it copies, and those that they copy. A copy of `POSIX` or `C` needs no file.
pub fn made_text(alloc: Global, files: &[Named<'_>]) -> Result<MadeText, SourceFault>
    ensures sorted { IfOk result (λ made. IsSorted ⟦<Note as Ord>⟧.cmp made.notes) }
{
    let charset = Charset::utf8(alloc)?;
    let read = read_all(alloc, files)?;
    let files = Files {
        alloc,
        charset: &charset,
        named: files,
        read: read.as_slice(),
    };
    let mut notes = Notes::new(alloc);
    let mut writer = Writer::new(alloc);
    for category in CATEGORIES {
        write_category(&files, category, &mut writer, &mut notes)?;
    }
    note_sections(&files, &mut notes)?;
    let (text, origins) = writer.finished();
    Ok(MadeText {
        text: ByteText::from_vec(text),
        origins: List::of(origins),
        notes: List::of(notes.sorted()?),
    })
}
