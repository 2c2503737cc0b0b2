//! The sections of a file.

use crate::line::GnuLine;
use crate::mark::{LineMark, from_word, mark_of};
use lc_base::{Category, Place, Reason, TextFault};
use std::alloc::{AllocError, Global};
use std::mem::replace;

/// A section of a file.
#[derive(Clone, Copy)]
pub struct GnuSection {
    /// Its category; `None` of one that is passed over.
    pub category: Option<Category>,
    /// Where its header stands.
    pub place: Place,
}

/// What is read of a file.
#[derive(Drop)]
pub struct GnuFile {
    /// Its sections, in the order of the text.
    pub sections: Vec<GnuSection>,
    /// The lines of the sections of the five categories. Of transliterations there is the first line alone.
    pub lines: Vec<GnuLine>,
}

/// Where a line stands.
#[derive(Clone, Copy)]
enum Inside {
    /// Outside of sections.
    Nothing,
    /// In a section whose lines are kept.
    Kept(Category),
    /// In a section that is passed over.
    PassedOver,
    /// Among the transliterations of a section.
    Transliterations(Category),
}

/// What was read so far.
#[derive(Drop)]
struct Reader {
    alloc: Global,
    escape: u8,
    comment: u8,
    inside: Inside,
    /// The number of lines.
    count: u32,
    /// The number of the first line of the logical line that is read.
    first: u32,
    /// Whether the logical line goes on.
    goes_on: bool,
    bytes: Vec<u8>,
    file: GnuFile,
}

/// A line without the escape character that joins the next one to it, and whether it does.
fn without_escape(line: &[u8], escape: u8) -> (&[u8], bool) {
    match line {
        [front @ .., last] if *last == escape => (front, true),
        _ => (line, false),
    }
}

/// Whether a line is a comment.
fn is_comment(line: &[u8], comment: u8) -> bool {
    match from_word(line) {
        [first, ..] => *first == comment,
        [] => false,
    }
}

impl Reader {
    fn new(alloc: Global) -> Reader {
        Reader {
            alloc,
            escape: b'\\',
            comment: b'#',
            inside: Inside::Nothing,
            count: 0,
            first: 0,
            goes_on: false,
            bytes: Vec::new(alloc),
            file: GnuFile {
                sections: Vec::new(alloc),
                lines: Vec::new(alloc),
            },
        }
    }

    /// Takes a line of the text.
    fn take(&mut self, line: &[u8]) -> Result<(), TextFault> {
        self.count = self.count.saturating_add(1);
        if self.goes_on {
            self.bytes.push(b'\n')?;
        } else {
            if is_comment(line, self.comment) {
                return Ok(());
            }
            self.first = self.count;
        }
        let (front, goes_on) = without_escape(line, self.escape);
        self.bytes.extend_from_slice(front)?;
        self.goes_on = goes_on;
        if goes_on { Ok(()) } else { self.end_line() }
    }

    /// Ends a logical line.
    fn end_line(&mut self) -> Result<(), TextFault> {
        let bytes = replace(&mut self.bytes, Vec::new(self.alloc));
        let mark = mark_of(bytes.as_slice());
        match self.inside {
            Inside::Nothing => self.outside(mark),
            Inside::Kept(category) => Ok(self.inside_of(category, mark, bytes)?),
            Inside::PassedOver => {
                if let LineMark::Ends = mark {
                    self.inside = Inside::Nothing;
                }
                Ok(())
            }
            Inside::Transliterations(category) => {
                self.among_transliterations(category, mark);
                Ok(())
            }
        }
    }

    /// The place of the logical line.
    fn place(&self) -> Place {
        Place {
            line: self.first,
            column: 1,
        }
    }

    /// Takes a line outside of sections.
    fn outside(&mut self, mark: LineMark) -> Result<(), TextFault> {
        match mark {
            LineMark::Empty => Ok(()),
            LineMark::Escape(sign) => {
                self.escape = sign;
                Ok(())
            }
            LineMark::Comment(sign) => {
                self.comment = sign;
                Ok(())
            }
            LineMark::Opens(category) => Ok(self.open(category)?),
            LineMark::Ends
            | LineMark::TransliterationsBegin
            | LineMark::TransliterationsEnd
            | LineMark::Other => Err(TextFault::At(self.place(), Reason::UnknownKeyword)),
        }
    }

    /// Opens a section.
    fn open(&mut self, category: Option<Category>) -> Result<(), AllocError> {
        let place = self.place();
        self.file.sections.push(GnuSection { category, place })?;
        self.inside = match category {
            Some(category) => Inside::Kept(category),
            None => Inside::PassedOver,
        };
        Ok(())
    }

    /// Takes a line of a section that is kept.
    fn inside_of(
        &mut self,
        category: Category,
        mark: LineMark,
        bytes: Vec<u8>,
    ) -> Result<(), AllocError> {
        match mark {
            LineMark::Empty | LineMark::TransliterationsEnd => Ok(()),
            LineMark::Ends => {
                self.inside = Inside::Nothing;
                Ok(())
            }
            LineMark::TransliterationsBegin => {
                self.inside = Inside::Transliterations(category);
                self.keep(category, bytes)
            }
            LineMark::Escape(_) | LineMark::Comment(_) | LineMark::Opens(_) | LineMark::Other => {
                self.keep(category, bytes)
            }
        }
    }

    /// Keeps a line.
    fn keep(&mut self, category: Category, bytes: Vec<u8>) -> Result<(), AllocError> {
        self.file.lines.push(GnuLine {
            category,
            number: self.first,
            escape: self.escape,
            comment: self.comment,
            bytes,
        })?;
        Ok(())
    }

    /// Takes a line among transliterations.
    fn among_transliterations(&mut self, category: Category, mark: LineMark) {
        match mark {
            LineMark::TransliterationsEnd => self.inside = Inside::Kept(category),
            LineMark::Ends => self.inside = Inside::Nothing,
            LineMark::Empty
            | LineMark::Escape(_)
            | LineMark::Comment(_)
            | LineMark::Opens(_)
            | LineMark::TransliterationsBegin
            | LineMark::Other => {}
        }
    }

    /// What was read, at the text's end.
    fn finished(self) -> Result<GnuFile, TextFault> {
        let Reader { inside, file, .. } = self;
        match (inside, file.sections.last()) {
            (Inside::Nothing, _) | (_, None) => Ok(file),
            (_, Some(section)) => Err(TextFault::At(section.place, Reason::NoEnd)),
        }
    }
}

/// Reads the sections of a file.
///
/// Refused where a line stands outside of sections that none opens, with `UnknownKeyword`, and where a section
/// has no end, with `NoEnd` at its header.
pub fn read_file(alloc: Global, text: &[u8]) -> Result<GnuFile, TextFault> {
    let mut reader = Reader::new(alloc);
    for line in text.split(|byte| *byte == b'\n') {
        reader.take(line)?;
    }
    reader.finished()
}
