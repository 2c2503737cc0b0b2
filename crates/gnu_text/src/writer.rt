//! The text of a standard source, with where each line comes from.

use gnu_read::{CLASSES, Content, Draft, DraftLine, Origin};
use lc_base::Category;
use std::alloc::{AllocError, Global};

/// The bytes of a line from which on the next operand stands on a line of its own.
const WIDTH: usize = 60;

/// A text that is written line by line.
#[derive(Drop)]
pub struct Writer {
    text: Vec<u8>,
    /// Where each line comes from.
    origins: Vec<Origin>,
    /// Where the line that is written comes from.
    at: Origin,
    /// The bytes of the line.
    width: usize,
}

/// A hexadecimal digit.
fn hex_digit(value: u32) -> u8 {
    let digit = (value % 16) as u8;
    if digit < 10 {
        b'0' + digit
    } else {
        b'A' + (digit - 10)
    }
}

/// The values of ranges in order of their first values, joined where they meet or touch.
fn joined(alloc: Global, ranges: &[(u32, u32)]) -> Result<Vec<(u32, u32)>, AllocError> {
    let mut sorted = Vec::from_slice(alloc, ranges)?;
    sorted.sort_unstable_by_key(|range| range.0);
    let mut joined = Vec::new(alloc);
    let mut open: Option<(u32, u32)> = None;
    for range in &sorted {
        open = match open {
            Some((first, last)) if range.0 <= last.saturating_add(1) => {
                Some((first, last.max(range.1)))
            }
            Some(whole) => {
                joined.push(whole)?;
                Some(*range)
            }
            None => Some(*range),
        };
    }
    if let Some(whole) = open {
        joined.push(whole)?;
    }
    Ok(joined)
}

impl Writer {
    pub fn new(alloc: Global) -> Writer {
        Writer {
            text: Vec::new(alloc),
            origins: Vec::new(alloc),
            at: Origin {
                file: 0,
                line: 1,
                column: 1,
            },
            width: 0,
        }
    }

    /// The text, and where each of its lines comes from.
    pub fn finished(self) -> (Vec<u8>, Vec<Origin>) {
        let Writer { text, origins, .. } = self;
        (text, origins)
    }

    /// Writes the section of a category whose lines are these.
    pub fn section(
        &mut self,
        alloc: Global,
        category: Category,
        at: Origin,
        draft: &Draft,
    ) -> Result<(), AllocError> {
        self.header(at, b"", category)?;
        for line in &draft.lines {
            if line.keyword.as_slice() == CLASSES {
                self.line(alloc, line)?;
            }
        }
        for line in &draft.lines {
            if line.keyword.as_slice() != CLASSES {
                self.line(alloc, line)?;
            }
        }
        self.header(at, b"END ", category)
    }

    /// Writes a line of these words and the name of a category.
    fn header(&mut self, at: Origin, words: &[u8], category: Category) -> Result<(), AllocError> {
        self.at = at;
        self.push(words)?;
        self.push(category.name())?;
        self.end_line()
    }

    /// Adds bytes to the line.
    fn push(&mut self, bytes: &[u8]) -> Result<(), AllocError> {
        self.text.extend_from_slice(bytes)?;
        self.width = self.width.saturating_add(bytes.len());
        Ok(())
    }

    /// Ends the line.
    fn end_line(&mut self) -> Result<(), AllocError> {
        self.text.push(b'\n')?;
        self.width = 0;
        self.origins.push(self.at)?;
        Ok(())
    }

    /// Writes what stands before an operand: a blank, or a `;` behind another one, and a new line where this one is
    /// long.
    fn separate(&mut self, is_first: bool) -> Result<(), AllocError> {
        self.push(if is_first { b" " } else { b";" })?;
        if self.width > WIDTH {
            self.push(b"\\")?;
            self.end_line()?;
            self.push(b"  ")?;
        }
        Ok(())
    }

    /// Writes a keyword line.
    fn line(&mut self, alloc: Global, line: &DraftLine) -> Result<(), AllocError> {
        self.at = line.at;
        self.push(line.keyword.as_slice())?;
        match &line.content {
            Content::Characters(ranges) => self.ranges(joined(alloc, ranges.as_slice())?)?,
            Content::Pairs(pairs) => self.pairs(pairs.as_slice())?,
            Content::Words(words) => self.words(words.as_slice())?,
            Content::Texts(texts) => {
                let mut is_first = true;
                for text in texts {
                    self.at = text.at;
                    self.separate(is_first)?;
                    self.quoted(text.bytes.as_slice())?;
                    is_first = false;
                }
            }
        }
        self.end_line()
    }

    /// Writes ranges of characters.
    fn ranges(&mut self, ranges: Vec<(u32, u32)>) -> Result<(), AllocError> {
        let mut is_first = true;
        for (first, last) in ranges {
            self.separate(is_first)?;
            self.character(first)?;
            if last > first {
                self.push(b";...;")?;
                self.character(last)?;
            }
            is_first = false;
        }
        Ok(())
    }

    /// Writes pairs of characters.
    fn pairs(&mut self, pairs: &[(u32, u32)]) -> Result<(), AllocError> {
        let mut is_first = true;
        for (first, second) in pairs {
            self.separate(is_first)?;
            self.push(b"(")?;
            self.character(*first)?;
            self.push(b",")?;
            self.character(*second)?;
            self.push(b")")?;
            is_first = false;
        }
        Ok(())
    }

    /// Writes words.
    fn words(&mut self, words: &[Vec<u8>]) -> Result<(), AllocError> {
        let mut is_first = true;
        for word in words {
            self.separate(is_first)?;
            self.push(word.as_slice())?;
            is_first = false;
        }
        Ok(())
    }

    /// Writes the name of a character.
    fn character(&mut self, value: u32) -> Result<(), AllocError> {
        self.push(b"<U")?;
        if value > 0xFFFF {
            self.four_digits(value / 0x10000)?;
        }
        self.four_digits(value)?;
        self.push(b">")
    }

    /// Writes the last four hexadecimal digits of a number.
    fn four_digits(&mut self, value: u32) -> Result<(), AllocError> {
        self.push(&[
            hex_digit(value / 0x1000),
            hex_digit(value / 0x100),
            hex_digit(value / 0x10),
            hex_digit(value),
        ])
    }

    /// Writes a text in quotes.
    fn quoted(&mut self, text: &[u8]) -> Result<(), AllocError> {
        self.push(b"\"")?;
        for byte in text {
            match *byte {
                b'"' | b'\\' | b'<' => self.push(&[b'\\', *byte])?,
                0..=31 | 127 => {
                    let value = u32::from(*byte);
                    self.push(&[b'\\', b'x', hex_digit(value / 16), hex_digit(value)])?;
                }
                _ => self.push(&[*byte])?,
            }
        }
        self.push(b"\"")
    }
}
