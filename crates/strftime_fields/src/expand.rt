//! Formats within formats.

ghost use Rattle.std.specs.Prelude.{◌≡◌, ◌+◌, ◌<◌, ◌≤◌, length, IfOk, ℕ};
ghost use Rattle.time_cat.specs.Conversions.{conversion};
ghost use Rattle.time_cat.specs.Formats.{pieces, bad_place, step};
ghost use Rattle.time_cat.specs.Shown.{expanded, converted};
ghost use Rattle.strftime_fields.specs.Appending.{Appends};
ghost use Rattle.strftime_fields.specs.Cost.{read_for, reads, CountsTo};
ghost use Rattle.strftime_fields.specs.Going.{Stands, Goes, Ends, added, place_of};
ghost use Rattle.strftime_fields.specs.Kept.{Holds};
ghost use Rattle.strftime_fields.specs.Reading.{IsSeen, SeenFormatless, AddsSeen};

use crate::read::{Seen, Short, short_of};
use crate::{
    Output, Stop, TimeFields, format_for, full_time, name, put_byte, put_here, put_name_here,
    put_number_here, put_plain, short_time,
};
use std::sync::ledger::Ledger;
use time_cat::{NAME_FRONT, Shows, Step, Steps, Time, conversion_of, step_at};

/// How many bytes a piece that is told at first sight adds at most, with a byte behind it.
const MOST: usize = NAME_FRONT + 1;

/// Where the reading of formats stands.
#[derive(Clone, Copy)]
struct Left<'a> {
    /// The format that is read: the caller's, or one that ends it.
    format: &'a [u8],
    /// What is left of it.
    rest: &'a [u8],
    /// How many formats may lie within one another, with this one.
    levels: u8,
    /// Whether it is the caller's.
    whole: bool,
}

/// Adds what the caller's format gives, with so many formats within one another, up to the first `%`
/// that begins no conversion, and says where that stands. It lies in the code of its caller, and should
/// have one caller for each output: a function with several is compiled by itself.
#[inline(always)]
pub fn put_whole<L: Ledger, O: Output>(
    levels: u8,
    t: &Time,
    tm: &TimeFields,
    max: usize,
    format: &[u8],
    steps: &mut Steps<L>,
    out: &mut O,
    lent: &mut [u8],
) -> Result<Option<usize>, Stop>
    requires short { length (O.text out.old lent.old) ≤ max }
    requires holds { Holds O.kind max (length lent.old) }
    ensures text { Appends O.kind max (O.text out.old lent.old) (expanded levels t.now tm.now format.now) (O.text out.new lent.new) (added result) }
    ensures bad { IfOk result (λ bad. 0 < levels → bad ≡ bad_place (pieces format.now)) }
    ensures steps { CountsTo (added result) (steps.old + reads max levels t.now tm.now (length (O.text out.old lent.old)) format.now) steps.new }
{
    if levels == 0 {
        return Ok(None);
    }
    let mut left = Left {
        format,
        rest: format,
        levels,
        whole: true,
    };
    put_quick(t, tm, max, &mut left, steps, out, lent);
    if left.rest.is_empty() {
        return Ok(None);
    }
    put_left(t, tm, max, &mut left, steps, out, lent)
}

/// Adds what any format gives, with so many formats within one another, up to the first `%` that begins no
/// conversion, and says where that stands. Each part is a call in the program.
#[cycle(expand)]
#[inline(always)]
pub fn put_format<L: Ledger, O: Output>(
    levels: u8,
    t: &Time,
    tm: &TimeFields,
    max: usize,
    format: &[u8],
    steps: &mut Steps<L>,
    out: &mut O,
    lent: &mut [u8],
) -> Result<Option<usize>, Stop>
    requires short { length (O.text out.old lent.old) ≤ max }
    requires holds { Holds O.kind max (length lent.old) }
    ensures text { Appends O.kind max (O.text out.old lent.old) (expanded levels t.now tm.now format.now) (O.text out.new lent.new) (added result) }
    ensures bad { IfOk result (λ bad. 0 < levels → bad ≡ bad_place (pieces format.now)) }
    ensures steps { CountsTo (added result) (steps.old + reads max levels t.now tm.now (length (O.text out.old lent.old)) format.now) steps.new }
{
    if levels == 0 {
        return Ok(None);
    }
    let mut left = Left {
        format,
        rest: format,
        levels,
        whole: true,
    };
    put_quick_apart(t, tm, max, &mut left, steps, out, lent);
    if left.rest.is_empty() {
        return Ok(None);
    }
    put_left(t, tm, max, &mut left, steps, out, lent)
}

/// Adds what the next pieces give that are told at first sight and for which there is room, also those of
/// a format of the locale that ends this one. All that it needs stays in registers, as nothing that it
/// calls is a call in the program.
#[inline(always)]
fn put_pieces<'a, L: Ledger, O: Output>(
    t: &'a Time,
    tm: &TimeFields,
    max: usize,
    left: &mut Left<'a>,
    steps: &mut Steps<L>,
    out: &mut O,
    lent: &mut [u8],
)
    requires stands { Stands (place_of left.old) }
    requires short { length (O.text out.old lent.old) ≤ max }
    ensures goes { Goes O.kind max t.now tm.now (O.text out.old lent.old) steps.old (place_of left.old) (O.text out.new lent.new) steps.new (place_of left.new) }
    ensures short { length (O.text out.new lent.new) ≤ max }
{
    let limit = out.room_for(lent).min(max);
    if limit < MOST {
        return;
    }
    let stop = limit - MOST;
    let mut rest = left.rest;
    let mut text = out.held();
    'reading: while text.is_within(lent, stop) {
        match put_piece(&mut text, lent, t, tm, rest) {
            Seen::Added(Short::Byte(_)) => rest = &rest[1..],
            Seen::Added(Short::Plain { .. }) => {
                steps.tick();
                match rest {
                    [_, _, byte, ..] if *byte != b'%' => {
                        text.put_within(lent, &[*byte]);
                        rest = &rest[3..];
                    }
                    _ => rest = &rest[2..],
                }
            }
            Seen::Inner(key) if rest.len() == 2 && 1 < left.levels => {
                // Nothing is behind it, so it is read in place of this one.
                steps.tick();
                rest = t.text(key);
                left.format = rest;
                left.levels -= 1;
                left.whole = false;
            }
            Seen::Inner(_) | Seen::Other => break 'reading,
        }
    }
    left.rest = rest;
    *out = text;
}

/// Adds what the next pieces give, as `put_pieces`, with a copy of the time, which stays in registers too.
#[inline(always)]
fn put_quick<'a, L: Ledger, O: Output>(
    t: &'a Time,
    tm: &TimeFields,
    max: usize,
    left: &mut Left<'a>,
    steps: &mut Steps<L>,
    out: &mut O,
    lent: &mut [u8],
)
    requires stands { Stands (place_of left.old) }
    requires short { length (O.text out.old lent.old) ≤ max }
    ensures goes { Goes O.kind max t.now tm.now (O.text out.old lent.old) steps.old (place_of left.old) (O.text out.new lent.new) steps.new (place_of left.new) }
    ensures short { length (O.text out.new lent.new) ≤ max }
{
    put_pieces(t, &tm.here(), max, left, steps, out, lent);
}

/// Adds what the next pieces give, as `put_pieces`, in code of its own.
#[inline(never)]
fn put_quick_apart<'a, L: Ledger, O: Output>(
    t: &'a Time,
    tm: &TimeFields,
    max: usize,
    left: &mut Left<'a>,
    steps: &mut Steps<L>,
    out: &mut O,
    lent: &mut [u8],
)
    requires stands { Stands (place_of left.old) }
    requires short { length (O.text out.old lent.old) ≤ max }
    ensures goes { Goes O.kind max t.now tm.now (O.text out.old lent.old) steps.old (place_of left.old) (O.text out.new lent.new) steps.new (place_of left.new) }
    ensures short { length (O.text out.new lent.new) ≤ max }
{
    put_quick(t, tm, max, left, steps, out, lent);
}

/// Adds what is left of a format gives, up to the first `%` that begins no conversion, and says where
/// that stands in the caller's.
#[cycle(expand)]
#[inline(never)]
fn put_left<'a, L: Ledger, O: Output>(
    t: &'a Time,
    tm: &TimeFields,
    max: usize,
    left: &mut Left<'a>,
    steps: &mut Steps<L>,
    out: &mut O,
    lent: &mut [u8],
) -> Result<Option<usize>, Stop>
    requires stands { Stands (place_of left.old) }
    requires short { length (O.text out.old lent.old) ≤ max }
    requires holds { Holds O.kind max (length lent.old) }
    ensures { Ends O.kind max t.now tm.now (O.text out.old lent.old) steps.old (place_of left.old) (O.text out.new lent.new) steps.new result }
{
    'reading: loop {
        let at = left.format.len() - left.rest.len();
        match step_at(left.format, at, steps) {
            Step::End => return Ok(None),
            Step::Bad if left.whole => return Ok(Some(at)),
            Step::Bad => return Ok(None),
            Step::Byte(byte) => {
                put_byte(out, lent, max, byte)?;
                left.rest = &left.format[at + 1..];
            }
            Step::Conv {
                modifier,
                letter,
                next,
                ..
            } => {
                put_other(
                    left.levels - 1,
                    t,
                    tm,
                    max,
                    modifier,
                    letter,
                    steps,
                    out,
                    lent,
                )?;
                left.rest = &left.format[next..];
            }
        }
        put_quick_apart(t, tm, max, left, steps, out, lent);
    }
}

/// Adds what the piece gives that bytes begin with, if it is a byte, or a short name, a number read off a
/// field, a time of day or a sign without a modifier. There is room for it.
#[inline(always)]
fn put_piece<O: Output>(
    out: &mut O,
    lent: &mut [u8],
    t: &Time,
    tm: &TimeFields,
    rest: &[u8],
) -> Seen
    requires room { length (O.text out.old lent.old) + 16 ≤ O.room out.old (length lent.old) }
    ensures piece { (at : ℕ) → IsSeen at (step at rest.now) result }
    ensures formatless { SeenFormatless t.now tm.now result }
    ensures text { AddsSeen O.kind t.now tm.now (O.text out.old lent.old) (O.text out.new lent.new) result }
    ensures short { length (O.text out.new lent.new) ≤ length (O.text out.old lent.old) + 16 }
    ensures room { O.room out.new (length lent.new) ≡ O.room out.old (length lent.old) }
{
    let Some(short) = short_of(rest) else {
        return Seen::Other;
    };
    let added = match short {
        Short::Byte(byte) => put_here(out, lent, &[byte]),
        Short::Plain { found, .. } => match found.shows {
            Shows::Name(list) => put_name_here(out, lent, name(t, tm, list)),
            Shows::Number(quantity, layout) => put_number_here(out, lent, tm, quantity, layout),
            Shows::Format(key) => return Seen::Inner(key),
            Shows::ShortTime => put_here(out, lent, &short_time(tm)),
            Shows::FullTime => put_here(out, lent, &full_time(tm)),
            Shows::Sign(byte) => put_here(out, lent, &[byte]),
            _ => return Seen::Other,
        },
    };
    if added {
        Seen::Added(short)
    } else {
        Seen::Other
    }
}

/// Adds what any conversion gives, with so many formats within one another, in code of its own.
#[cycle(expand)]
#[inline(never)]
fn put_other<L: Ledger, O: Output>(
    levels: u8,
    t: &Time,
    tm: &TimeFields,
    max: usize,
    modifier: u8,
    letter: u8,
    steps: &mut Steps<L>,
    out: &mut O,
    lent: &mut [u8],
) -> Result<(), Stop>
    requires short { length (O.text out.old lent.old) ≤ max }
    requires holds { Holds O.kind max (length lent.old) }
    ensures text { Appends O.kind max (O.text out.old lent.old) (converted t.now tm.now (expanded levels t.now tm.now) (conversion modifier letter)) (O.text out.new lent.new) result }
    ensures steps { CountsTo result (steps.old + read_for t.now tm.now (reads max levels t.now tm.now (length (O.text out.old lent.old))) (conversion modifier letter)) steps.new }
{
    match conversion_of(modifier, letter) {
        None => Ok(()),
        Some(found) => match format_for(t, tm, found.shows) {
            None => put_plain(out, lent, max, t, tm, found.shows),
            Some(format) => put_inner(levels, t, tm, max, format, steps, out, lent),
        },
    }
}

/// Adds what a format of the locale gives, each `%` of which begins a conversion.
#[cycle(expand)]
#[inline(always)]
fn put_inner<L: Ledger, O: Output>(
    levels: u8,
    t: &Time,
    tm: &TimeFields,
    max: usize,
    format: &[u8],
    steps: &mut Steps<L>,
    out: &mut O,
    lent: &mut [u8],
) -> Result<(), Stop>
    requires short { length (O.text out.old lent.old) ≤ max }
    requires holds { Holds O.kind max (length lent.old) }
    ensures text { Appends O.kind max (O.text out.old lent.old) (expanded levels t.now tm.now format.now) (O.text out.new lent.new) result }
    ensures steps { CountsTo result (steps.old + reads max levels t.now tm.now (length (O.text out.old lent.old)) format.now) steps.new }
{
    put_format(levels, t, tm, max, format, steps, out, lent)?;
    Ok(())
}
