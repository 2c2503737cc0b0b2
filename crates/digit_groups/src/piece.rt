//! The pieces of a format: bytes that are copied, and conversions.

ghost use Rattle.std.specs.Prelude.{◌≡◌, ◌≤◌, length, IfSome};
ghost use Rattle.digit_groups.specs.Formats.{behind_percent, piece};

use crate::conversion::FormatConversion;

/// A part of a format.
#[derive(Clone, Copy)]
pub enum Piece<C> {
    /// A byte that is copied.
    Literal(u8),
    /// The conversion of a value.
    Convert(C),
}

/// What a `%` begins, and how many bytes behind it belong to it.
#[inline(always)]
fn behind_percent<C: FormatConversion>(bytes: &[u8]) -> Option<(Piece<C>, usize)>
    ensures is { result ≡ behind_percent C.conversion bytes.now }
    ensures within { IfSome result (λ r. r.1 ≤ length bytes.now) }
{
    if *bytes.first()? == b'%' {
        return Some((Piece::Literal(b'%'), 1));
    }
    let (conversion, used) = C::read(bytes)?;
    Some((Piece::Convert(conversion), used))
}

/// The piece that a byte begins, and how many of the bytes behind it belong to it.
#[tactic(auto, unfolding(crate::specs::Formats::piece))]
#[inline(always)]
pub fn piece_of<C: FormatConversion>(byte: u8, behind: &[u8]) -> Option<(Piece<C>, usize)>
    ensures is { result ≡ piece C.conversion byte behind.now }
    ensures within { IfSome result (λ r. r.1 ≤ length behind.now) }
{
    if byte == b'%' {
        behind_percent(behind)
    } else {
        Some((Piece::Literal(byte), 0))
    }
}
