//! The text of a time in a buffer of the caller.

ghost use Rattle.std.specs.Prelude.{◌≡◌, ◌<◌, None, length};
ghost use Rattle.lc_base.specs.declared.refusal.FormatRefusal.TheVariants.{BadFormat};
ghost use Rattle.text_buffer.specs.Written.{Written};
ghost use Rattle.text_buffer.specs.declared.unwritten.Unwritten.TheVariants.{Refused};
ghost use Rattle.time_cat.specs.Formats.{pieces, bad_place};
ghost use Rattle.time_cat.specs.Shown.{expanded};
ghost use Rattle.strftime_fields.specs.Answers.{whole_answer};
ghost use Rattle.strftime_fields.specs.Zones.{in_zone};

use crate::expand::{put_format, put_whole};
use crate::text::{LEVELS, bad_byte};
use crate::{Counter, Output, Place, TimeFields};
use lc_base::FormatRefusal;
use std::marker::Brand;
use std::sync::ledger::{Blank, Ledger};
use text_buffer::{Unwritten, put_at};
use time_cat::{Steps, Time, Tm};

/// How many bytes a text has at most that is made in one go.
const DRAFT: usize = 128;

/// A `%` that begins no conversion.
#[inline(always)]
fn bad_format(at: usize) -> Unwritten
    ensures { result ≡ Refused (BadFormat at) }
{
    Unwritten::Refused(FormatRefusal::BadFormat { at })
}

/// Puts the text of a time at the front of a buffer, by a format whose conversions are right. The
/// length of the text is known.
fn put_known<L: Ledger>(
    buffer: &mut [u8],
    t: &Time,
    format: &[u8],
    tm: &TimeFields,
    steps: &mut Steps<L>,
    len: usize,
) -> Result<usize, Unwritten>
    requires good { bad_place (pieces format.now) ≡ None }
    requires long { length (expanded 5 t.now tm.now format.now) ≡ len }
    ensures { Written buffer.old buffer.new result (whole_answer t.now tm.now format.now) }
{
    if buffer.len() < len {
        return Err(Unwritten::TooSmall { needed: len });
    }
    let mut place = Place { at: 0 };
    let front = &mut buffer[..len];
    let _done = put_format(LEVELS, t, tm, len, format, steps, &mut place, front);
    Ok(len)
}

/// Puts a text at the front of a buffer that is longer than a draft: once its length is known.
#[cold]
#[inline(never)]
fn put_long<L: Ledger>(
    buffer: &mut [u8],
    t: &Time,
    format: &[u8],
    tm: &TimeFields,
    steps: &mut Steps<L>,
) -> Result<usize, Unwritten>
    ensures { Written buffer.old buffer.new result (whole_answer t.now tm.now format.now) }
{
    let mut counter = Counter { count: 0 };
    match put_format(
        LEVELS,
        t,
        tm,
        usize::MAX,
        format,
        steps,
        &mut counter,
        &mut [],
    ) {
        Ok(None) => put_known(buffer, t, format, tm, steps, counter.count),
        Ok(Some(at)) => Err(bad_format(at)),
        Err(_) => match bad_byte(format, steps) {
            Some(at) => Err(bad_format(at)),
            None => Err(Unwritten::TooSmall { needed: usize::MAX }),
        },
    }
}

/// Puts a text at the front of a buffer, with a ledger that has not begun. A text that is no longer
/// than a draft is made there, and copied once it is known to fit.
#[inline(always)]
fn put_text<L: Ledger>(
    buffer: &mut [u8],
    t: &Time,
    format: &[u8],
    tm: &TimeFields,
    blank: Blank,
) -> Result<usize, Unwritten>
    requires name { blank.name ≡ L.name }
    requires parts { blank.parts ≡ L.parts }
    requires some { 0 < blank.parts }
    ensures { Written buffer.old buffer.new result (whole_answer t.now tm.now format.now) }
{
    let mut steps = Steps::<L>::new(blank);
    let mut draft = [0; DRAFT];
    let mut place = Place { at: 0 };
    match put_whole(
        LEVELS, t, tm, DRAFT, format, &mut steps, &mut place, &mut draft,
    ) {
        Ok(None) => {
            let len = place.text_len(&draft);
            let text = &draft[..len];
            if buffer.len() < text.len() {
                return Err(Unwritten::TooSmall { needed: text.len() });
            }
            Ok(put_at(buffer, 0, text))
        }
        Ok(Some(at)) => Err(bad_format(at)),
        Err(_) => put_long(buffer, t, format, tm, &mut steps),
    }
}

/// Puts the text of a time by a format at the front of a buffer, with this name of its zone, and says
/// how many bytes it has (XSH strftime). Asks for no memory.
///
/// `BadFormat` comes exactly where a `%` of the format begins no conversion, at the first one, and
/// `TooSmall` exactly where none does and the text is longer than the buffer, with the text's length.
/// Under both the buffer is as it was, and what it has beyond the text always is.
// In code of its own, so that no digits of a time are made before a conversion asks for them.
#[inline(never)]
pub fn strftime_to(
    buffer: &mut [u8],
    t: &Time,
    format: &[u8],
    tm: &Tm,
    zone: &[u8],
) -> Result<usize, Unwritten>
    ensures { Written buffer.old buffer.new result (whole_answer t.now (in_zone tm.now zone.now) format.now) }
{
    put_text::<Brand>(
        buffer,
        t,
        format,
        &TimeFields::in_zone(tm, zone),
        Blank::new(1),
    )
}
