//! The lines of a category before they are written.

use crate::notes::Origin;
use lc_base::ByName;
use std::alloc::{AllocError, Global};

/// The keyword that declares classes.
pub const CLASSES: &[u8] = b"charclass";

/// The most characters that the ranges with a step of a category have.
const STEPPED_MOST: u32 = 65536;

/// A text with where it comes from.
#[derive(Drop)]
pub struct DraftText {
    pub at: Origin,
    pub bytes: Vec<u8>,
}

/// What a line says.
#[derive(Drop)]
pub enum Content {
    /// The characters of a class, as ranges of wide values in any order.
    Characters(Vec<(u32, u32)>),
    /// Pairs of characters.
    Pairs(Vec<(u32, u32)>),
    /// Words without quotes: names of classes, or numbers.
    Words(Vec<Vec<u8>>),
    /// Texts.
    Texts(Vec<DraftText>),
}

/// A line.
#[derive(Drop)]
pub struct DraftLine {
    pub keyword: Vec<u8>,
    pub at: Origin,
    pub content: Content,
}

/// The lines of a category, each keyword once.
pub struct Draft {
    pub lines: Vec<DraftLine>,
    /// How many characters ranges with a step may have still.
    pub room: u32,
    alloc: Global,
    /// The number of the line of each keyword.
    numbers: ByName<usize>,
    /// The declared classes.
    declared: ByName<()>,
    /// The last file that copies the category of another one.
    copying: Option<usize>,
}

impl Drop for Draft {
    fn drop(self) {
        let Draft {
            lines: _,
            room: _,
            alloc: _,
            numbers: _,
            declared: _,
            copying: _,
        } = self;
    }
}

impl Draft {
    /// No lines.
    pub fn new(alloc: Global) -> Draft {
        Draft {
            lines: Vec::new(alloc),
            room: STEPPED_MOST,
            alloc,
            numbers: ByName::new(alloc),
            declared: ByName::new(alloc),
            copying: None,
        }
    }

    /// Whether there is a line of this keyword.
    pub fn has(&self, keyword: &[u8]) -> bool {
        self.numbers.get(keyword).is_some()
    }

    /// Whether a class of this name is declared.
    pub fn declares(&self, name: &[u8]) -> bool {
        self.declared.get(name).is_some()
    }

    /// Takes a line by which a file copies the category of another one. Whether it is the first one of the file,
    /// which alone counts.
    pub fn copies(&mut self, file: usize) -> bool {
        self.copying.replace(file) != Some(file)
    }

    /// Declares a class, unless it is declared already.
    pub fn declare(&mut self, at: Origin, name: &[u8]) -> Result<(), AllocError> {
        if self.declares(name) {
            return Ok(());
        }
        self.declared.add(self.alloc, name, ())?;
        let mut words = Vec::new(self.alloc);
        words.push(Vec::from_slice(self.alloc, name)?)?;
        let _is_taken = self.add(DraftLine {
            keyword: Vec::from_slice(self.alloc, CLASSES)?,
            at,
            content: Content::Words(words),
        })?;
        Ok(())
    }

    /// Adds a line. Where its keyword is there, a class gets the characters of both, a case map the pairs, and the
    /// declared classes are those of both; of other keywords the first line stays. Tells whether the line was taken.
    pub fn add(&mut self, line: DraftLine) -> Result<bool, AllocError> {
        let number = self.numbers.get(line.keyword.as_slice()).copied();
        match number.and_then(|number| self.lines.get_mut(number)) {
            Some(other) => {
                let is_joined = line.keyword.as_slice() == CLASSES;
                joined(&mut other.content, line.content, is_joined)
            }
            None => {
                let number = self.lines.len();
                self.numbers
                    .add(self.alloc, line.keyword.as_slice(), number)?;
                self.lines.push(line)?;
                Ok(true)
            }
        }
    }
}

/// Adds characters to characters, pairs to pairs and names of classes to such names. Tells whether they were.
fn joined(content: &mut Content, more: Content, are_classes: bool) -> Result<bool, AllocError> {
    match (content, more) {
        (Content::Characters(ranges), Content::Characters(others)) => {
            ranges.extend_from_slice(others.as_slice())?;
            Ok(true)
        }
        (Content::Pairs(pairs), Content::Pairs(others)) => {
            pairs.extend_from_slice(others.as_slice())?;
            Ok(true)
        }
        (Content::Words(words), Content::Words(others)) if are_classes => {
            for word in others {
                words.push(word)?;
            }
            Ok(true)
        }
        _ => Ok(false),
    }
}
