//! Tokens of a logical line, byte by byte.

use crate::line::GnuLine;
use crate::token::{Placed, Token};
use charset::Charset;
use lc_base::{Place, Reason, TextFault, is_blank};
use std::alloc::{AllocError, Global};
use std::mem::replace;

/// The tokens of a logical line.
#[derive(Drop)]
pub struct Scanned {
    pub tokens: Vec<Placed>,
    /// Where names stand in texts that no character has.
    pub unknown: Vec<Place>,
}

/// What the bytes before belong to.
#[derive(Clone, Copy)]
enum State {
    Between,
    /// A text in quotes.
    Text,
    /// The name of a character in a text.
    NameInText,
    /// The name of a character.
    Name,
    /// Bytes that stand as they are.
    Word,
    /// The dots of a range.
    Dots,
    Comment,
}

/// What was scanned so far.
#[derive(Drop)]
struct Scanner<'a> {
    alloc: Global,
    charset: &'a Charset,
    escape: u8,
    comment: u8,
    state: State,
    is_escaped: bool,
    /// The place of the next byte.
    at: Place,
    /// Where the token began.
    start: Place,
    /// The bytes of the token.
    bytes: Vec<u8>,
    /// The bytes of the name.
    name: Vec<u8>,
    scanned: Scanned,
}

/// The step of a range with these dots: the number in parentheses, or else 1.
fn step_in(dots: &[u8]) -> u32 {
    let mut step: u32 = 0;
    for byte in dots {
        if byte.is_ascii_digit() {
            step = step
                .saturating_mul(10)
                .saturating_add(u32::from(*byte - b'0'));
        }
    }
    step.max(1)
}

/// The number that hexadecimal digits write.
fn hex_number(digits: &[u8]) -> Option<u32> {
    let mut number: u32 = 0;
    for digit in digits {
        let value = char::from(*digit).to_digit(16)?;
        number = number.checked_mul(16)?.checked_add(value)?;
    }
    Some(number)
}

/// The value of a name with four or eight hexadecimal digits, as nearly each name is.
fn numbered(name: &[u8]) -> Option<u32> {
    match name {
        [b'U', digits @ ..] if digits.len() == 4 || digits.len() == 8 => hex_number(digits),
        _ => None,
    }
}

/// Whether a byte goes on a range's dots.
fn is_in_dots(byte: u8) -> bool {
    byte.is_ascii_digit() || byte == b'.' || byte == b'(' || byte == b')'
}

/// Whether a byte ends a word.
fn ends_word(byte: u8) -> bool {
    is_blank(byte) || byte == b'\r' || is_sign(byte) || byte == b'"' || byte == b'<'
}

fn is_sign(byte: u8) -> bool {
    byte == b';' || byte == b',' || byte == b'(' || byte == b')'
}

impl<'a> Scanner<'a> {
    fn new(alloc: Global, charset: &'a Charset, line: &GnuLine) -> Scanner<'a> {
        let at = Place {
            line: line.number,
            column: 1,
        };
        Scanner {
            alloc,
            charset,
            escape: line.escape,
            comment: line.comment,
            state: State::Between,
            is_escaped: false,
            at,
            start: at,
            bytes: Vec::new(alloc),
            name: Vec::new(alloc),
            scanned: Scanned {
                tokens: Vec::new(alloc),
                unknown: Vec::new(alloc),
            },
        }
    }

    /// Takes a byte of the line.
    fn take(&mut self, byte: u8) -> Result<(), AllocError> {
        if byte == b'\n' {
            self.take_newline();
            return Ok(());
        }
        if self.is_escaped {
            self.is_escaped = false;
            self.take_plainly(byte)?;
        } else {
            self.take_bare(byte)?;
        }
        self.at.column = self.at.column.saturating_add(1);
        Ok(())
    }

    /// Takes the newline between two lines that are joined. It ends a comment.
    fn take_newline(&mut self) {
        if let State::Comment = self.state {
            self.state = State::Between;
        }
        self.at = Place {
            line: self.at.line.saturating_add(1),
            column: 1,
        };
    }

    /// Takes a byte that stands for itself.
    fn take_plainly(&mut self, byte: u8) -> Result<(), AllocError> {
        match self.state {
            State::Text | State::Word => self.bytes.push(byte)?,
            State::Name | State::NameInText => self.name.push(byte)?,
            State::Comment => {}
            State::Between | State::Dots => {
                self.end_token()?;
                self.start = self.at;
                self.state = State::Word;
                self.bytes.push(byte)?;
            }
        }
        Ok(())
    }

    /// Takes a byte that no escape character stands before.
    fn take_bare(&mut self, byte: u8) -> Result<(), AllocError> {
        match self.state {
            State::Comment => Ok(()),
            _ if byte == self.escape => {
                self.is_escaped = true;
                Ok(())
            }
            State::Between => self.begin(byte),
            State::Text => self.take_in_text(byte),
            State::NameInText if byte == b'>' => self.end_name_in_text(),
            State::Name if byte == b'>' => self.end_name(),
            State::NameInText | State::Name => Ok(self.name.push(byte)?),
            State::Word if !ends_word(byte) => Ok(self.bytes.push(byte)?),
            State::Dots if is_in_dots(byte) => Ok(self.bytes.push(byte)?),
            State::Word | State::Dots => {
                self.end_token()?;
                self.begin(byte)
            }
        }
    }

    /// Takes a byte between tokens.
    fn begin(&mut self, byte: u8) -> Result<(), AllocError> {
        self.start = self.at;
        if is_sign(byte) {
            return self.push(Token::Sign(byte));
        }
        self.state = match byte {
            b' ' | b'\t' | b'\r' => State::Between,
            b'"' => State::Text,
            b'<' => State::Name,
            _ if byte == self.comment => State::Comment,
            b'.' => State::Dots,
            _ => {
                self.bytes.push(byte)?;
                State::Word
            }
        };
        Ok(())
    }

    /// Takes a byte of a text.
    fn take_in_text(&mut self, byte: u8) -> Result<(), AllocError> {
        match byte {
            b'"' => {
                let text = self.taken_bytes();
                self.push(Token::Text(text))
            }
            b'<' => {
                self.state = State::NameInText;
                Ok(())
            }
            _ => Ok(self.bytes.push(byte)?),
        }
    }

    /// The bytes of the token, which are then none.
    fn taken_bytes(&mut self) -> Vec<u8> {
        replace(&mut self.bytes, Vec::new(self.alloc))
    }

    /// Adds a token.
    fn push(&mut self, token: Token) -> Result<(), AllocError> {
        self.state = State::Between;
        self.scanned.tokens.push(Placed {
            place: self.start,
            token,
        })?;
        Ok(())
    }

    /// The value of the name, whose bytes are then none.
    fn taken_name(&mut self) -> Option<u32> {
        let value = match numbered(self.name.as_slice()) {
            Some(value) if self.charset.has(value) => Some(value),
            _ => self.charset.value_of(self.name.as_slice()),
        };
        self.name.clear();
        value
    }

    /// Ends a name in a text.
    fn end_name_in_text(&mut self) -> Result<(), AllocError> {
        self.state = State::Text;
        let value = self.taken_name();
        match value.and_then(|value| self.charset.encode(value)) {
            Some(code) => Ok(self.bytes.extend_from_slice(code.as_bytes())?),
            None => Ok(self.scanned.unknown.push(self.at)?),
        }
    }

    /// Ends a name that is a token.
    fn end_name(&mut self) -> Result<(), AllocError> {
        match self.taken_name() {
            Some(value) => self.push(Token::Character(value)),
            None => self.push(Token::UnknownName),
        }
    }

    /// Ends a word or dots.
    fn end_token(&mut self) -> Result<(), AllocError> {
        match self.state {
            State::Word => {
                let word = self.taken_bytes();
                self.push(Token::Word(word))
            }
            State::Dots => {
                let step = step_in(self.bytes.as_slice());
                self.bytes.clear();
                self.push(Token::Dots(step))
            }
            State::Between | State::Text | State::NameInText | State::Name | State::Comment => {
                Ok(())
            }
        }
    }

    /// What was scanned, at the line's end.
    fn finished(self) -> Result<Scanned, TextFault> {
        let mut scanner = self;
        scanner.end_token()?;
        let start = scanner.start;
        let state = scanner.state;
        let Scanner { scanned, .. } = scanner;
        match state {
            State::Text | State::NameInText => Err(TextFault::At(start, Reason::OpenString)),
            State::Name => Err(TextFault::At(start, Reason::OpenName)),
            State::Between | State::Word | State::Dots | State::Comment => Ok(scanned),
        }
    }
}

/// The tokens of a logical line, its keyword first. The charset is UTF-8.
///
/// Refused with `OpenString` or `OpenName` where a text or a name does not end.
pub fn tokens(alloc: Global, charset: &Charset, line: &GnuLine) -> Result<Scanned, TextFault> {
    let mut scanner = Scanner::new(alloc, charset, line);
    for byte in &line.bytes {
        scanner.take(*byte)?;
    }
    scanner.finished()
}
