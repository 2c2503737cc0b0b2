//! Formats with their values, one piece after another: their texts, in memory of the caller.

ghost use Rattle.std.specs.Prelude.{◌≡◌, ◌≢◌, ◌+◌, ◌-◌, ◌^◌, ◌<◌, ◌≤◌, length, min, Ok, None, IfSome, true};
ghost use Rattle.std.specs.List.{list_all};
ghost use Rattle.text_buffer.specs.Written.{over, Written};
ghost use Rattle.digit_groups.specs.Formats.{pieces, good_pieces, piece_text, pieces_text, refusal, formatted, unwritten_of, result_of};

use crate::conversion::FormatConversion;
use crate::fault::FormatStop;
use crate::format::{first_stop, only_conversion, piece_at};
use crate::piece::Piece;
use lc_base::FormatRefusal;
use text_buffer::{Unwritten, put_byte};

/// Writes the text of a format with its values to the front of a buffer, and says how long it is. Under
/// a refusal the buffer is as before. No memory is asked for.
#[inline(always)]
pub fn write_format<C: FormatConversion>(
    buffer: &mut [u8],
    category: &C::Category,
    format: &[u8],
    values: &[C::Value],
) -> Result<usize, Unwritten>
    requires good { list_all C.is_value values.now ≡ true }
    ensures { Written buffer.old buffer.new result (formatted C.conversion (C.text category.now) C.lacks format.now values.now) }
{
    match write_text::<C>(buffer, category, format, values) {
        Ok(len) => Ok(len),
        Err(stop) => Err(unwritten::<C>(stop)),
    }
}

/// What is told of a stop.
fn unwritten<C: FormatConversion>(stop: FormatStop) -> Unwritten
    ensures { result ≡ unwritten_of C.lacks stop }
{
    match stop {
        FormatStop::BadFormat { at } => Unwritten::Refused(FormatRefusal::BadFormat { at }),
        FormatStop::MissingValue { at } => Unwritten::Refused(C::lacking(at)),
        FormatStop::TooSmall { needed } => Unwritten::TooSmall { needed },
    }
}

/// Writes the text of a format to the front of a buffer. That of a single conversion is laid out once.
#[inline(always)]
pub fn write_text<C: FormatConversion>(
    buffer: &mut [u8],
    category: &C::Category,
    format: &[u8],
    values: &[C::Value],
) -> Result<usize, FormatStop>
    requires good { list_all C.is_value values.now ≡ true }
    ensures { Written buffer.old buffer.new (result_of C.lacks result) (formatted C.conversion (C.text category.now) C.lacks format.now values.now) }
{
    match (only_conversion::<C>(format), values) {
        (Some(c), [value, ..]) => write_value::<C>(buffer, category, c, *value),
        _ => write_measured::<C>(buffer, category, format, values),
    }
}

/// Writes the text of a value to the front of a buffer.
#[inline(always)]
fn write_value<C: FormatConversion>(
    buffer: &mut [u8],
    category: &C::Category,
    c: C,
    value: C::Value,
) -> Result<usize, FormatStop>
    requires { C.is_value value ≡ true }
    ensures { Written buffer.old buffer.new (result_of C.lacks result) (Ok (C.text category.now c value)) }
{
    let width = c.put(buffer, category, value);
    if width <= buffer.len() as u128 {
        Ok(width as usize)
    } else {
        Err(FormatStop::TooSmall {
            needed: told_length(width),
        })
    }
}

/// The length that is told of a text of so many bytes.
#[inline(always)]
fn told_length(length: u128) -> usize
    ensures { result ≡ min length (2 ^ 64 - 1) }
{
    length.min(usize::MAX as u128) as usize
}

/// Writes the text of a format to the front of a buffer, once it is known how long it is.
#[inline(never)]
fn write_measured<C: FormatConversion>(
    buffer: &mut [u8],
    category: &C::Category,
    format: &[u8],
    values: &[C::Value],
) -> Result<usize, FormatStop>
    requires good { list_all C.is_value values.now ≡ true }
    ensures { Written buffer.old buffer.new (result_of C.lacks result) (formatted C.conversion (C.text category.now) C.lacks format.now values.now) }
{
    let Some(length) = measured::<C>(category, format, values) else {
        return Err(first_stop::<C>(format, values.len()));
    };
    if length > buffer.len() as u128 {
        return Err(FormatStop::TooSmall {
            needed: told_length(length),
        });
    }
    write_pieces::<C>(buffer, category, format, values);
    Ok(length as usize)
}

/// How many bytes the text of a format has, if no conversion is bad and no value is missing. The
/// greatest number stands for those above it.
fn measured<C: FormatConversion>(
    category: &C::Category,
    format: &[u8],
    values: &[C::Value],
) -> Option<u128>
    requires good { list_all C.is_value values.now ≡ true }
    ensures some { IfSome result (λ n. refusal C.lacks (pieces C.conversion 0 0 format.now) (length values.now) ≡ None) }
    ensures length { IfSome result (λ n. n ≡ min (length (pieces_text (C.text category.now) (good_pieces (pieces C.conversion 0 0 format.now)) values.now)) (2 ^ 128 - 1)) }
    ensures none { result ≡ None → refusal C.lacks (pieces C.conversion 0 0 format.now) (length values.now) ≢ None }
{
    let mut at = 0;
    let mut left = values;
    let mut total: u128 = 0;
    while at < format.len() {
        let Some((piece, used, behind)) = piece_at::<C>(format, at, left) else {
            return None;
        };
        total = total.saturating_add(piece_width(category, piece, left));
        left = behind;
        at += 1 + used;
    }
    Some(total)
}

/// How many bytes the text of a piece has.
#[inline(always)]
fn piece_width<C: FormatConversion>(
    category: &C::Category,
    piece: Piece<C>,
    values: &[C::Value],
) -> u128
    requires { list_all C.is_value values.now ≡ true }
    ensures { result ≡ length (piece_text (C.text category.now) piece values.now) }
{
    match (piece, values) {
        (Piece::Literal(_), _) => 1,
        (Piece::Convert(c), [value, ..]) => c.width(category, *value),
        (Piece::Convert(_), []) => 0,
    }
}

/// Writes the text of a format, in which nothing is wrong, to the front of a buffer with room for it.
fn write_pieces<C: FormatConversion>(
    buffer: &mut [u8],
    category: &C::Category,
    format: &[u8],
    values: &[C::Value],
)
    requires good { list_all C.is_value values.now ≡ true }
    requires accepted { refusal C.lacks (pieces C.conversion 0 0 format.now) (length values.now) ≡ None }
    requires room { length (pieces_text (C.text category.now) (good_pieces (pieces C.conversion 0 0 format.now)) values.now) ≤ length buffer.old }
    ensures { buffer.new ≡ over buffer.old 0 (pieces_text (C.text category.now) (good_pieces (pieces C.conversion 0 0 format.now)) values.now) }
{
    let mut at = 0;
    let mut left = values;
    let mut end = 0;
    while at < format.len() {
        let Some((piece, used, behind)) = piece_at::<C>(format, at, left) else {
            unreachable!()
        };
        end = write_piece(buffer, end, category, piece, left);
        left = behind;
        at += 1 + used;
    }
}

/// Writes the text of a piece over the bytes of a buffer from a place on, and says where it ends.
#[inline(always)]
fn write_piece<C: FormatConversion>(
    buffer: &mut [u8],
    at: usize,
    category: &C::Category,
    piece: Piece<C>,
    values: &[C::Value],
) -> usize
    requires good { list_all C.is_value values.now ≡ true }
    requires room { at + length (piece_text (C.text category.now) piece values.now) ≤ length buffer.old }
    ensures ends { result ≡ at + length (piece_text (C.text category.now) piece values.now) }
    ensures written { buffer.new ≡ over buffer.old at (piece_text (C.text category.now) piece values.now) }
{
    match (piece, values) {
        (Piece::Literal(byte), _) => put_byte(buffer, at, byte),
        (Piece::Convert(c), [value, ..]) => at
            + c.put(&mut buffer[at..], category, *value) as usize,
        (Piece::Convert(_), []) => at,
    }
}
