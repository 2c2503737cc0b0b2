//! Operands as the contents of lines.

use crate::draft::DraftText;
use crate::faults::SourceFault;
use crate::notes::{NoteCode, Notes, Origin};
use crate::{Placed, Token};
use charset::Charset;
use lc_base::{Limit, Reason};
use std::alloc::{AllocError, Global};

/// What an operand is read with.
#[derive(Clone, Copy)]
pub struct Reading<'a> {
    pub alloc: Global,
    pub charset: &'a Charset,
    /// The number of the file.
    pub file: usize,
}

/// The character that a token is.
fn character(charset: &Charset, token: &Token) -> Option<u32> {
    match token {
        Token::Character(value) => Some(*value),
        Token::Word(bytes) => charset.value_of_bytes(bytes.as_slice()),
        Token::Text(_) | Token::UnknownName | Token::Sign(_) | Token::Dots(_) => None,
    }
}

/// The note of a token that is left out.
pub fn left_out(token: &Token) -> NoteCode {
    match token {
        Token::UnknownName => NoteCode::UnknownCharacter,
        Token::Character(_) | Token::Word(_) | Token::Text(_) | Token::Sign(_) | Token::Dots(_) =>
            NoteCode::Operand,
    }
}

/// What a token among characters was.
#[derive(Clone, Copy)]
enum Taken {
    /// A character, or what stands beside one.
    Member,
    /// A token of another kind.
    Other,
    /// The end of a range with a step that has too many characters.
    TooMany,
}

/// Characters and ranges that were read so far.
#[derive(Drop)]
struct Members {
    ranges: Vec<(u32, u32)>,
    /// How many characters ranges with a step may have still.
    room: u32,
    /// The last character.
    last: Option<u32>,
    /// The step of the range that the next character ends.
    step: Option<u32>,
}

/// How many characters a range with a step has, unless it goes backward.
fn count_of(first: u32, last: u32, step: u32) -> Option<u32> {
    let steps = last.checked_sub(first)?.checked_div(step)?;
    Some(steps.saturating_add(1))
}

/// Adds the characters among so many values, each a step after the one before it.
fn add_steps(
    ranges: &mut Vec<(u32, u32)>,
    first: u32,
    step: u32,
    count: u32,
) -> Result<(), AllocError> {
    let mut value = first;
    for _number in 0..count {
        if char::from_u32(value).is_some() {
            ranges.push((value, value))?;
        }
        value = value.saturating_add(step);
    }
    Ok(())
}

impl Members {
    /// Takes a token. Tells what it was.
    fn take(&mut self, charset: &Charset, token: &Token) -> Result<Taken, AllocError> {
        match (token, character(charset, token)) {
            (_, Some(value)) => self.add(value),
            (Token::Dots(step), _) if self.last.is_some() => {
                self.step = Some(*step);
                Ok(Taken::Member)
            }
            (Token::Sign(b';'), _) => Ok(Taken::Member),
            _ => Ok(Taken::Other),
        }
    }

    /// Adds a character, or the range that it ends.
    fn add(&mut self, value: u32) -> Result<Taken, AllocError> {
        let last = self.last.replace(value);
        match (last, self.step.take()) {
            (Some(first), Some(1)) if first <= value => self.ranges.push((first, value))?,
            (Some(first), Some(step)) => return self.add_range(first, value, step),
            (_, None) | (None, _) => self.ranges.push((value, value))?,
        }
        Ok(Taken::Member)
    }

    /// Adds each character of a range with a step, unless there is no room for them. None where the range goes
    /// backward.
    fn add_range(&mut self, first: u32, last: u32, step: u32) -> Result<Taken, AllocError> {
        let Some(count) = count_of(first, last, step) else {
            return Ok(Taken::Other);
        };
        match self.room.checked_sub(count) {
            Some(room) => {
                self.room = room;
                add_steps(&mut self.ranges, first, step, count)?;
                Ok(Taken::Member)
            }
            None => Ok(Taken::TooMany),
        }
    }
}

/// Notes that the last token of a line lacks what it asks for.
fn note_last(
    reading: &Reading<'_>,
    tokens: &[Placed],
    notes: &mut Notes,
) -> Result<(), AllocError> {
    match tokens.last() {
        Some(placed) => notes.add(Origin::at(reading.file, placed.place), NoteCode::Operand),
        None => Ok(()),
    }
}

/// Characters and ranges of them. Ranges with a step have at most as many characters as there is room for, of which
/// they take theirs.
///
/// Refused with `OverLimit operands` at the end of one that has more.
pub fn characters(
    reading: &Reading<'_>,
    tokens: &[Placed],
    room: &mut u32,
    notes: &mut Notes,
) -> Result<Vec<(u32, u32)>, SourceFault> {
    let mut members = Members {
        ranges: Vec::new(reading.alloc),
        room: *room,
        last: None,
        step: None,
    };
    for placed in tokens {
        let at = Origin::at(reading.file, placed.place);
        match members.take(reading.charset, &placed.token)? {
            Taken::Member => {}
            Taken::Other => notes.add(at, left_out(&placed.token))?,
            Taken::TooMany => {
                return Err(SourceFault::At(at, Reason::OverLimit(Limit::Operands)));
            }
        }
    }
    let Members {
        ranges,
        room: left,
        step,
        ..
    } = members;
    *room = left;
    if step.is_some() {
        note_last(reading, tokens, notes)?;
    }
    Ok(ranges)
}

/// Pairs that were read so far.
#[derive(Drop)]
struct Couples {
    pairs: Vec<(u32, u32)>,
    /// Whether a pair is open.
    is_open: bool,
    first: Option<u32>,
    second: Option<u32>,
}

impl Couples {
    /// Takes a token. Tells whether it belongs to pairs.
    fn take(&mut self, charset: &Charset, token: &Token) -> Result<bool, AllocError> {
        match (token, character(charset, token)) {
            (_, Some(value)) => Ok(self.add(value)),
            (Token::Sign(b'('), _) => {
                let is_second = self.is_open;
                self.is_open = true;
                self.first = None;
                self.second = None;
                Ok(!is_second)
            }
            (Token::Sign(b')'), _) => self.end(),
            (Token::Sign(_), _) => Ok(true),
            _ => Ok(false),
        }
    }

    /// Adds a character of a pair. Tells whether one is wanted.
    fn add(&mut self, value: u32) -> bool {
        if !self.is_open || self.second.is_some() {
            return false;
        }
        if self.first.is_none() {
            self.first = Some(value);
        } else {
            self.second = Some(value);
        }
        true
    }

    /// Ends a pair. Tells whether it has two characters.
    fn end(&mut self) -> Result<bool, AllocError> {
        self.is_open = false;
        match (self.first.take(), self.second.take()) {
            (Some(first), Some(second)) => {
                self.pairs.push((first, second))?;
                Ok(true)
            }
            _ => Ok(false),
        }
    }
}

/// Pairs of characters.
pub fn pairs(
    reading: &Reading<'_>,
    tokens: &[Placed],
    notes: &mut Notes,
) -> Result<Vec<(u32, u32)>, AllocError> {
    let mut couples = Couples {
        pairs: Vec::new(reading.alloc),
        is_open: false,
        first: None,
        second: None,
    };
    for placed in tokens {
        if !couples.take(reading.charset, &placed.token)? {
            notes.add(
                Origin::at(reading.file, placed.place),
                left_out(&placed.token),
            )?;
        }
    }
    let Couples { pairs, is_open, .. } = couples;
    if is_open {
        note_last(reading, tokens, notes)?;
    }
    Ok(pairs)
}

/// Texts.
pub fn texts(
    reading: &Reading<'_>,
    tokens: &[Placed],
    notes: &mut Notes,
) -> Result<Vec<DraftText>, AllocError> {
    let mut texts = Vec::new(reading.alloc);
    for placed in tokens {
        let at = Origin::at(reading.file, placed.place);
        match &placed.token {
            Token::Text(bytes) => {
                let bytes = Vec::from_slice(reading.alloc, bytes.as_slice())?;
                texts.push(DraftText { at, bytes })?;
            }
            Token::Sign(b';') => {}
            token => notes.add(at, left_out(token))?,
        }
    }
    Ok(texts)
}

/// Words without quotes.
pub fn words(
    reading: &Reading<'_>,
    tokens: &[Placed],
    notes: &mut Notes,
) -> Result<Vec<Vec<u8>>, AllocError> {
    let mut words = Vec::new(reading.alloc);
    for placed in tokens {
        match &placed.token {
            Token::Word(bytes) => words.push(Vec::from_slice(reading.alloc, bytes.as_slice())?)?,
            Token::Sign(b';') => {}
            token => notes.add(Origin::at(reading.file, placed.place), left_out(token))?,
        }
    }
    Ok(words)
}
