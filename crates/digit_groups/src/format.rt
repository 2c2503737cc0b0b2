//! Formats with their values, one piece after another: what is wrong with them.

ghost use Rattle.std.specs.Prelude.{◌≡◌, ◌≢◌, ◌+◌, ◌<◌, ◌≤◌, length, drop, List, [], ◌∷◌, ℕ, Result, Ok, Some, None, option_map, IfSome};
ghost use Rattle.lc_base.specs.declared.refusal.FormatRefusal.{FormatRefusal};
ghost use Rattle.digit_groups.specs.Formats.{pieces, followed, values_behind, refusal, refusal_behind, unwritten_of};
ghost use Rattle.digit_groups.specs.declared.piece.Piece.{Piece};
ghost use Rattle.digit_groups.specs.declared.piece.Piece.TheVariants.{Convert};
ghost use Rattle.text_buffer.specs.declared.unwritten.Unwritten.TheVariants.{Refused};

use crate::conversion::FormatConversion;
use crate::fault::FormatStop;
use crate::piece::{Piece, piece_of};

/// Why a format with so many values, of which something is wrong, has no text: a conversion that is
/// bad goes before a value that is missing.
#[cold]
#[inline(never)]
pub fn first_stop<C: FormatConversion>(format: &[u8], values: usize) -> FormatStop
    requires { refusal C.lacks (pieces C.conversion 0 0 format.now) values ≢ None }
    ensures { Some (unwritten_of C.lacks result) ≡ option_map (λ why. Refused why) (refusal C.lacks (pieces C.conversion 0 0 format.now) values) }
{
    match refusal::<C>(format, values) {
        Some(stop) => stop,
        None => unreachable!(),
    }
}

/// The first refusal of a format with so many values.
fn refusal<C: FormatConversion>(format: &[u8], values: usize) -> Option<FormatStop>
    ensures { option_map (λ stop. unwritten_of C.lacks stop) result ≡ option_map (λ why. Refused why) (refusal C.lacks (pieces C.conversion 0 0 format.now) values) }
{
    let mut at = 0;
    let mut left = values;
    let mut lacking = None;
    while at < format.len() {
        let Some((piece, used)) = piece_of::<C>(format[at], &format[at + 1..]) else {
            return Some(FormatStop::BadFormat { at });
        };
        (left, lacking) = behind_piece(piece, at, left, lacking);
        at += 1 + used;
    }
    Some(FormatStop::MissingValue { at: lacking? })
}

/// The values that a piece leaves of so many, and the place of the first one that is missing.
#[tactic(auto, using(crate::proofs::FormatLemmas::refusal_literal, crate::proofs::FormatLemmas::refusal_value, crate::proofs::FormatLemmas::refusal_lacking, crate::proofs::FormatLemmas::refusal_missing))]
#[inline(always)]
fn behind_piece<C: Copy>(
    piece: Piece<C>,
    at: usize,
    values: usize,
    lacking: Option<usize>,
) -> (usize, Option<usize>)
    ensures { (lacks : ℕ → FormatRefusal) (r : Result (List (ℕ × Piece C)) ℕ) → refusal_behind lacks lacking (followed (at, piece) r) values ≡ refusal_behind lacks result.1 r result.0 }
{
    match (piece, lacking) {
        (Piece::Literal(_), _) => (values, lacking),
        (Piece::Convert(_), Some(_)) => (values, lacking),
        (Piece::Convert(_), None) if values > 0 => (values - 1, None),
        (Piece::Convert(_), None) => (0, Some(at)),
    }
}

/// The piece at a place, how many bytes behind that place belong to it, and the values that it
/// leaves; `None` where it is bad or its value is missing.
#[inline(always)]
pub fn piece_at<'a, C: FormatConversion>(
    format: &[u8],
    at: usize,
    values: &'a [C::Value],
) -> Option<(Piece<C>, usize, &'a [C::Value])>
    requires { at < length format.now }
    ensures pieces { IfSome result (λ r. pieces C.conversion 0 at (drop at format.now) ≡ followed (at, r.0) (pieces C.conversion 0 (at + (1 + r.1)) (drop (at + (1 + r.1)) format.now))) }
    ensures within { IfSome result (λ r. at + (1 + r.1) ≤ length format.now) }
    ensures behind { IfSome result (λ r. r.2.now ≡ values_behind r.0 values.now) }
    ensures same { IfSome result (λ r. refusal C.lacks (pieces C.conversion 0 at (drop at format.now)) (length values.now) ≡ refusal C.lacks (pieces C.conversion 0 (at + (1 + r.1)) (drop (at + (1 + r.1)) format.now)) (length (values_behind r.0 values.now))) }
    ensures none { result ≡ None → refusal C.lacks (pieces C.conversion 0 at (drop at format.now)) (length values.now) ≢ None }
{
    let (piece, used) = piece_of::<C>(format[at], &format[at + 1..])?;
    let behind = values_behind(piece, values)?;
    Some((piece, used, behind))
}

/// The values that a piece leaves, if its own is there.
#[inline(always)]
fn values_behind<C: Copy, V>(piece: Piece<C>, values: &[V]) -> Option<&[V]>
    ensures is { IfSome result (λ r. r.now ≡ values_behind piece values.now) }
    ensures same { IfSome result (λ r. (lacks : ℕ → FormatRefusal) (at : ℕ) (rest : Result (List (ℕ × Piece C)) ℕ) → refusal lacks (followed (at, piece) rest) (length values.now) ≡ refusal lacks rest (length (values_behind piece values.now))) }
    ensures none { result ≡ None → (lacks : ℕ → FormatRefusal) (at : ℕ) (rest : Result (List (ℕ × Piece C)) ℕ) → refusal lacks (followed (at, piece) rest) (length values.now) ≢ None }
{
    match (piece, values) {
        (Piece::Literal(_), _) => Some(values),
        (Piece::Convert(_), [_, rest @ ..]) => Some(rest),
        (Piece::Convert(_), []) => None,
    }
}

/// The conversion that a format is, where it is nothing else.
#[inline(always)]
pub fn only_conversion<C: FormatConversion>(format: &[u8]) -> Option<C>
    ensures { IfSome result (λ c. pieces C.conversion 0 0 format.now ≡ Ok ((0, Convert c) ∷ [])) }
{
    if format.is_empty() {
        return None;
    }
    match piece_of::<C>(format[0], &format[1..]) {
        Some((Piece::Convert(c), used)) if 1 + used == format.len() => Some(c),
        _ => None,
    }
}
