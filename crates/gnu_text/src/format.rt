//! Formats of times (XSH strftime) with conversions beyond the standard's.

use gnu_read::NoteCode;
use std::alloc::{AllocError, Global};
use time_cat::conversion_of;

/// A part of a format.
#[derive(Clone, Copy)]
pub enum FormatPart {
    /// A byte that stands for itself.
    Byte(u8),
    /// A conversion: its flag and its modifier, each 0 where there is none, and its letter.
    Conversion(u8, u8, u8),
}

/// The digits that the formats of a locale may use.
#[derive(Clone, Copy, PartialEq, Eq)]
pub enum Digits {
    /// Alternative digits of the locale's own.
    Own,
    /// Numbers without a zero or a space in front.
    Bare,
    /// Numbers of two places, with a space in front.
    Spaced,
    /// None.
    Absent,
}

/// What a format is written by.
#[derive(Clone, Copy)]
pub struct Style {
    pub digits: Digits,
    /// The rank of the format.
    pub rank: u8,
    /// Whether the locale has a time of 12 hours.
    pub has_half_days: bool,
}

/// What stands for a conversion.
#[derive(Clone, Copy)]
enum Shown {
    /// A conversion with a modifier, or 0.
    Conversion(u8, u8),
    /// A format.
    Format(&'static [u8]),
}

/// The format of `%r` in the POSIX locale.
const HALF_DAY_CLOCK: &[u8] = b"%I:%M:%S %p";

/// A flag in place of more than one.
const SEVERAL: u8 = b'+';

/// The flag of a conversion that has one more.
fn with_flag(flag: u8, more: u8) -> u8 {
    if flag == 0 { more } else { SEVERAL }
}

/// The parts of a format. A `%` at its end is a conversion without a letter, of byte 0. The flag `+` stands for
/// several flags.
pub fn parts(alloc: Global, format: &[u8]) -> Result<Vec<FormatPart>, AllocError> {
    let mut parts = Vec::new(alloc);
    let mut begun: Option<(u8, u8)> = None;
    for byte in format {
        begun = match (begun, *byte) {
            (None, b'%') => Some((0, 0)),
            (None, byte) => {
                parts.push(FormatPart::Byte(byte))?;
                None
            }
            (Some((flag, modifier)), b'-' | b'_' | b'0'..=b'9' | b'^' | b'#' | b'+') => {
                Some((with_flag(flag, *byte), modifier))
            }
            (Some((flag, 0)), b'E' | b'O') => Some((flag, *byte)),
            (Some((flag, modifier)), letter) => {
                parts.push(FormatPart::Conversion(flag, modifier, letter))?;
                None
            }
        };
    }
    if let Some((flag, modifier)) = begun {
        parts.push(FormatPart::Conversion(flag, modifier, 0))?;
    }
    Ok(parts)
}

/// Whether a conversion writes a number of two digits that alternative digits may write.
fn is_number(letter: u8) -> bool {
    matches!(
        letter,
        b'd' | b'e' | b'm' | b'H' | b'I' | b'M' | b'S' | b'y' | b'k' | b'l'
    )
}

/// The digits that a part of a format wants.
pub fn wanted_digits(part: FormatPart) -> Digits {
    match part {
        FormatPart::Conversion(b'-', 0 | b'O', letter) if is_number(letter) => Digits::Bare,
        FormatPart::Conversion(0 | b'_', 0, b'k' | b'l') => Digits::Spaced,
        FormatPart::Conversion(..) | FormatPart::Byte(_) => Digits::Absent,
    }
}

/// Whether what stands for a conversion does what its flag asks for.
fn keeps_flag(flag: u8, letter: u8) -> bool {
    flag == 0 || (matches!(flag, b'-' | b'_' | b'0') && is_number(letter))
}

/// The letter of the standard's conversion of a number.
fn standard_letter(letter: u8) -> u8 {
    match letter {
        b'k' => b'H',
        b'l' => b'I',
        b'e' => b'd',
        _ => letter,
    }
}

/// The format of a conversion in the POSIX locale.
fn posix_format(letter: u8) -> &'static [u8] {
    match letter {
        b'c' => b"%a %b %e %H:%M:%S %Y",
        b'x' => b"%m/%d/%y",
        b'X' => b"%H:%M:%S",
        b'r' => HALF_DAY_CLOCK,
        _ => b"",
    }
}

impl Style {
    /// What stands for a conversion, and what it has otherwise: by its letter, its flag and its modifier.
    fn shown(self, flag: u8, modifier: u8, letter: u8) -> (Shown, [Option<NoteCode>; 3]) {
        if self.has_modified(modifier, letter) {
            let of_flag = note_if(flag != 0, NoteCode::Flag);
            return (Shown::Conversion(modifier, letter), [None, of_flag, None]);
        }
        let (shown, note) = self.plain(flag, letter);
        let of_flag = note_if(!keeps_flag(flag, letter), NoteCode::Flag);
        let of_modifier = note_if(!self.is_plain(modifier, letter), NoteCode::Modifier);
        (shown, [note, of_flag, of_modifier])
    }

    /// Whether a format may have the conversion of a letter with this modifier.
    fn has_modified(self, modifier: u8, letter: u8) -> bool {
        let has_digits = modifier != b'O' || self.digits == Digits::Own;
        match conversion_of(modifier, letter) {
            Some(conversion) => modifier != 0 && has_digits && conversion.rank < self.rank,
            None => false,
        }
    }

    /// Whether a conversion is the same without its modifier: it has none, or alternative digits are asked for
    /// where there are none.
    fn is_plain(self, modifier: u8, letter: u8) -> bool {
        let lacks_digits = modifier == b'O' && self.digits != Digits::Own;
        modifier == 0 || (lacks_digits && conversion_of(modifier, letter).is_some())
    }

    /// What stands for a conversion without a modifier.
    fn plain(self, flag: u8, letter: u8) -> (Shown, Option<NoteCode>) {
        match (flag, letter) {
            (_, b'P') => (Shown::Conversion(0, b'p'), Some(NoteCode::LowerCase)),
            (b'-', _) if is_number(letter) => self.number(Digits::Bare, letter),
            (b'_', b'd' | b'e') => (Shown::Conversion(0, b'e'), None),
            (b'0', _) if is_number(letter) => (Shown::Conversion(0, standard_letter(letter)), None),
            (_, b'k' | b'l') => self.number(Digits::Spaced, letter),
            (b'_', b'm' | b'H' | b'I' | b'M' | b'S' | b'y') => {
                self.number(Digits::Spaced, letter)
            }
            _ => self.standard(letter),
        }
    }

    /// What stands for a number that is written by these digits.
    fn number(self, digits: Digits, letter: u8) -> (Shown, Option<NoteCode>) {
        let letter = standard_letter(letter);
        if self.digits == digits {
            (
                Shown::Conversion(b'O', letter),
                Some(NoteCode::AlternativeDigits),
            )
        } else {
            (Shown::Conversion(0, letter), Some(NoteCode::Padding))
        }
    }

    /// What stands for a conversion that the standard may have.
    fn standard(self, letter: u8) -> (Shown, Option<NoteCode>) {
        match conversion_of(0, letter) {
            None => (Shown::Format(b""), Some(NoteCode::Conversion)),
            Some(conversion) if conversion.rank >= self.rank => (
                Shown::Format(posix_format(letter)),
                Some(NoteCode::NestedFormat),
            ),
            Some(_) if letter == b'r' && !self.has_half_days => (
                Shown::Format(HALF_DAY_CLOCK),
                Some(NoteCode::NestedFormat),
            ),
            Some(_) => (Shown::Conversion(0, letter), None),
        }
    }
}

/// Adds what stands for a conversion.
fn push_shown(text: &mut Vec<u8>, shown: Shown) -> Result<(), AllocError> {
    match shown {
        Shown::Conversion(0, letter) => text.extend_from_slice(&[b'%', letter]),
        Shown::Conversion(modifier, letter) => { text.extend_from_slice(&[b'%', modifier, letter]) }
        Shown::Format(format) => text.extend_from_slice(format),
    }
}

/// A note where there is something to note.
fn note_if(is_noted: bool, code: NoteCode) -> Option<NoteCode> {
    if is_noted { Some(code) } else { None }
}

/// Adds what stands for a part of a format. Tells what it has otherwise.
pub fn push_part(
    text: &mut Vec<u8>,
    style: Style,
    part: FormatPart,
) -> Result<[Option<NoteCode>; 3], AllocError> {
    match part {
        FormatPart::Byte(byte) => {
            text.push(byte)?;
            Ok([None, None, None])
        }
        FormatPart::Conversion(flag, modifier, letter) => {
            let (shown, notes) = style.shown(flag, modifier, letter);
            push_shown(text, shown)?;
            Ok(notes)
        }
    }
}
