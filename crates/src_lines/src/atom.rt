//! Atoms of a line (XBD 7.3.1): bytes that stand bare, escaped bytes, numbers, and characters' names.

ghost use Rattle.std.specs.Prelude.{◌≡◌, ◌+◌, ◌^◌, ◌<◌, ◌≤◌, false, length, slice_index, IfOk, IfSome};
ghost use Rattle.src_lines.specs.Atoms.{digit, decimal, hexadecimal, octal, number, number_atom, escaped, name, name_atom, atom, is_bare, IsNext};
ghost use Rattle.src_lines.specs.Rows.{line_of};

use crate::LogicalLine;
use crate::line::OperandPiece;
use lc_base::{ByteText, Reason, is_blank};
use std::alloc::{AllocError, Global};

/// The least part of a line that has a meaning of its own.
#[derive(Drop)]
pub enum Atom {
    /// A byte that stands for itself, with the meaning that it has by its place.
    Bare(u8),
    /// A byte that is written as a number.
    Number(u8),
    /// An escaped byte or a name.
    Made(OperandPiece),
}

impl Atom {
    /// Whether it is this byte, bare.
    pub fn is_bare(&self, byte: u8) -> bool
        ensures { result ≡ is_bare byte self.now }
    {
        match self {
            Atom::Bare(bare) => *bare == byte,
            Atom::Number(_) | Atom::Made(_) => false,
        }
    }
}

/// How a number is written: its base, and how many digits it has at most; it has two at least.
#[derive(Clone, Copy)]
pub struct Notation {
    pub base: u16,
    pub most: usize,
}

const DECIMAL: Notation = Notation { base: 10, most: 3 };

const HEXADECIMAL: Notation = Notation { base: 16, most: 2 };

const OCTAL: Notation = Notation { base: 8, most: 3 };

/// The value of a digit up to f, or 16.
fn digit(byte: u8) -> u16
    ensures is { result ≡ digit byte }
    ensures small { result ≤ 16 }
{
    match byte {
        b'0'..=b'9' => u16::from(byte) - 48,
        b'a'..=b'f' => u16::from(byte) - 87,
        b'A'..=b'F' => u16::from(byte) - 55,
        _ => 16,
    }
}

/// The value of the digit with this number, or 16.
fn digit_at(bytes: &[u8], k: usize) -> u16
    ensures is { result ≡ digit (slice_index bytes.now k) }
    ensures small { result ≤ 16 }
    ensures within { result < 16 → k < length bytes.now }
{
    if k < bytes.len() { digit(bytes[k]) } else { 16 }
}

/// The number at the front, and how many digits it has.
fn number(notation: Notation, bytes: &[u8]) -> Option<(u16, usize)>
    requires { notation.base ≤ 16 }
    ensures is { result ≡ number notation bytes.now }
    ensures within { IfSome result (λ n. n.1 ≤ length bytes.now) }
{
    let base = notation.base;
    let first = digit_at(bytes, 0);
    let second = digit_at(bytes, 1);
    if first >= base || second >= base {
        return None;
    }
    let third = digit_at(bytes, 2);
    if notation.most > 2 && third < base {
        return Some(((first * base + second) * base + third, 3));
    }
    Some((first * base + second, 2))
}

/// A number as a byte, behind so many bytes.
fn number_atom(lead: usize, number: Option<(u16, usize)>) -> (Result<Atom, Reason>, usize)
    requires { IfSome number (λ n. lead + n.1 < 2 ^ 32) }
    ensures { result ≡ number_atom lead number }
{
    match number {
        Some((value, digits)) if value < 256 => (Ok(Atom::Number(value as u8)), lead + digits),
        _ => (Err(Reason::BadEscape), 2),
    }
}

/// What the escape character makes of the bytes after it, and how many bytes go with it.
fn escaped(bytes: &[u8]) -> (Result<Atom, Reason>, usize)
    ensures is { result ≡ escaped bytes.now }
    ensures some { 0 < result.1 }
    ensures within { result.1 ≤ length bytes.now + 1 }
{
    match bytes {
        [] => (Err(Reason::BadEscape), 1),
        [byte, rest @ ..] => {
            if *byte == b'd' {
                number_atom(2, number(DECIMAL, rest))
            } else if *byte == b'x' {
                number_atom(2, number(HEXADECIMAL, rest))
            } else if digit(*byte) < 8 {
                number_atom(1, number(OCTAL, bytes))
            } else {
                (Ok(Atom::Made(OperandPiece::Byte(*byte))), 2)
            }
        }
    }
}

/// The name up to its `>`, if that comes before a blank and the end, and how many bytes go by.
fn name(alloc: Global, escape: u8, bytes: &[u8]) -> Result<(Option<ByteText>, usize), AllocError>
    ensures is { IfOk result (λ x. x ≡ name escape false bytes.now) }
    ensures within { IfOk result (λ x. x.1 ≤ length bytes.now) }
{
    let mut text = Vec::new(alloc);
    let mut taken = false;
    for (i, byte) in bytes.iter().enumerate() {
        if !taken && *byte == escape {
            taken = true;
        } else if !taken && *byte == b'>' {
            return Ok((Some(ByteText::from_vec(text)), i + 1));
        } else if !taken && is_blank(*byte) {
            return Ok((None, i));
        } else {
            text.push(*byte)?;
            taken = false;
        }
    }
    Ok((None, bytes.len()))
}

/// What is read at a byte of a line, an atom or a fault, and where the next one begins.
pub type Read = (Result<Atom, Reason>, usize);

/// What begins with this byte, before the others, and how many bytes it takes.
pub fn atom_of(alloc: Global, escape: u8, byte: u8, rest: &[u8]) -> Result<Read, AllocError>
    ensures is { IfOk result (λ x. x ≡ atom escape byte rest.now) }
    ensures some { IfOk result (λ x. 0 < x.1) }
    ensures within { IfOk result (λ x. x.1 ≤ length rest.now + 1) }
{
    if is_blank(byte) {
        return Ok((Ok(Atom::Bare(byte)), 1));
    }
    if byte == escape {
        return Ok(escaped(rest));
    }
    if byte != b'<' {
        return Ok((Ok(Atom::Bare(byte)), 1));
    }
    let (text, len) = name(alloc, escape, rest)?;
    let atom = match text {
        Some(text) => Ok(Atom::Made(OperandPiece::Name(text))),
        None => Err(Reason::OpenName),
    };
    Ok((atom, len + 1))
}

/// What stands at a byte of a line, and where the next one begins.
pub fn next_atom(
    alloc: Global,
    row: &LogicalLine<'_>,
    at: usize,
) -> Result<Option<Read>, AllocError>
    requires { at ≤ length row.now.bytes.now }
    ensures { IfOk result (IsNext (line_of row.now) at) }
{
    if at == row.bytes.len() {
        return Ok(None);
    }
    let (_, rest) = row.bytes.split_at(at + 1);
    let (atom, len) = atom_of(alloc, row.signs.escape, row.bytes[at], rest)?;
    Ok(Some((atom, at + len)))
}
