//! Notes: what a standard source lacks or has otherwise.

ghost use Rattle.std.specs.Prelude.{IfOk};
ghost use Rattle.std.specs.List.Sorted.{IsSorted};

use lc_base::Place;
use std::alloc::{AllocError, Global};

/// Where something stands in the files.
#[derive(Clone, Copy, PartialEq, Eq, PartialOrd, Ord)]
pub struct Origin {
    /// The number of the file, from 0.
    pub file: usize,
    pub line: u32,
    pub column: u32,
}

impl Origin {
    /// A place of the file with a number.
    pub fn at(file: usize, place: Place) -> Origin {
        Origin {
            file,
            line: place.line,
            column: place.column,
        }
    }

    /// The place in the file.
    pub fn place(self) -> Place {
        Place {
            line: self.line,
            column: self.column,
        }
    }
}

/// What the standard source lacks or has otherwise.
#[derive(Clone, Copy, PartialEq, Eq, PartialOrd, Ord)]
pub enum NoteCode {
    Section,
    Transliterations,
    Mapping,
    OutputDigits,
    Keyword,
    KeywordAgain,
    Operand,
    UnknownCharacter,
    ClassName,
    ClassTaken,
    Excluded,
    AlternativeDigits,
    Padding,
    LowerCase,
    Flag,
    Modifier,
    Conversion,
    NestedFormat,
}

/// A note, with where it comes from.
#[derive(Clone, Copy, PartialEq, Eq, PartialOrd, Ord)]
pub struct Note {
    pub at: Origin,
    pub code: NoteCode,
}

impl NoteCode {
    /// The code of the note, one or two words.
    pub fn code(self) -> &'static str {
        match self {
            NoteCode::Section => "section",
            NoteCode::Transliterations => "transliterations",
            NoteCode::Mapping => "mapping",
            NoteCode::OutputDigits => "output-digits",
            NoteCode::Keyword => "keyword",
            NoteCode::KeywordAgain => "keyword-again",
            NoteCode::Operand => "operand",
            NoteCode::UnknownCharacter => "unknown-character",
            NoteCode::ClassName => "class-name",
            NoteCode::ClassTaken => "class-taken",
            NoteCode::Excluded => "excluded",
            NoteCode::AlternativeDigits => "alternative-digits",
            NoteCode::Padding => "padding",
            NoteCode::LowerCase => "lower-case",
            NoteCode::Flag => "flag",
            NoteCode::Modifier => "modifier",
            NoteCode::Conversion => "conversion",
            NoteCode::NestedFormat => "nested-format",
        }
    }

    /// What the note says, as a sentence.
    pub fn sentence(self) -> &'static str {
        match self {
            NoteCode::Section => "The section of a category that is not read is left out.",
            NoteCode::Transliterations => "The transliterations are left out.",
            NoteCode::Mapping => "A mapping that is neither toupper nor tolower is left out.",
            NoteCode::OutputDigits => "The digits for output are left out.",
            NoteCode::Keyword => "The line is left out: the standard has no such keyword here.",
            NoteCode::KeywordAgain => {
                "The line is left out: its keyword is given in the category already."
            }
            NoteCode::Operand => {
                "An operand is left out that is not of the kind that the keyword takes."
            }
            NoteCode::UnknownCharacter => "A character is left out: UTF-8 has none of this name.",
            NoteCode::ClassName => {
                "The class has another name: 1 to 14 letters and digits, of which the first is a letter."
            }
            NoteCode::ClassTaken => "The class is left out: its name is that of a keyword.",
            NoteCode::Excluded => "Characters of space are taken out of the class.",
            NoteCode::AlternativeDigits => {
                "The locale gets alternative digits, by which the format writes numbers without a zero in front."
            }
            NoteCode::Padding => "A number below 10 is written with a zero in front.",
            NoteCode::LowerCase => "The text for the half of the day keeps its capital letters.",
            NoteCode::Flag => "A flag of a conversion is left out.",
            NoteCode::Modifier => "A modifier of a conversion is left out.",
            NoteCode::Conversion => "A conversion is left out: the standard has none for it.",
            NoteCode::NestedFormat => {
                "A conversion that stands for a format of the locale is written out as in the POSIX locale."
            }
        }
    }
}

/// The notes so far.
pub struct Notes {
    list: Vec<Note>,
}

impl Drop for Notes {
    fn drop(self) {
        let Notes { list: _ } = self;
    }
}

impl Notes {
    /// No notes.
    pub fn new(alloc: Global) -> Notes {
        Notes {
            list: Vec::new(alloc),
        }
    }

    /// Adds a note, unless it is the last one already.
    pub fn add(&mut self, at: Origin, code: NoteCode) -> Result<(), AllocError> {
        let note = Note { at, code };
        if self.list.last().copied() != Some(note) {
            self.list.push(note)?;
        }
        Ok(())
    }

    /// The notes in the order of where they come from.
    pub fn sorted(self) -> Result<Vec<Note>, AllocError>
        ensures { IfOk result (λ notes. IsSorted ⟦<Note as Ord>⟧.cmp notes.items) }
    {
        let Notes { mut list } = self;
        list.sort()?;
        Ok(list)
    }
}
