//! The text of a time (XSH strftime).

ghost use Rattle.std.specs.Prelude.{◌≡◌, ◌+◌, ◌*◌, ◌≤◌, ◌<◌, [], MatchOption, OnErr};
ghost use Rattle.time_cat.specs.Formats.{pieces, bad_place};
ghost use Rattle.time_cat.specs.Shown.{conversions_of};
ghost use Rattle.strftime_fields.specs.Answers.{answer, fault_of, Answers, with_text};
ghost use Rattle.strftime_fields.specs.Cost.{cost, Counts};
ghost use Rattle.strftime_fields.specs.declared.fault.TimeFault.TheVariants.{BadFormat};

use crate::expand::{put_format, put_whole};
use crate::fault::TimeFault;
use crate::read::{Short, short_at};
use crate::{Stop, TimeFields};
use lc_base::ByteText;
use std::alloc::Global;
use std::marker::Brand;
use std::sync::ledger::{Blank, Ledger};
use time_cat::{Step, Steps, Time, Tm, step_at};

/// How many formats lie within one another: the caller's, and those of the ranks 4 to 1.
pub const LEVELS: u8 = 5;

/// How many bytes a text has at first room for beyond one and a half times those of its format.
const SPARE: usize = 64;

/// How many bytes a text of a format has at first room for.
#[inline(always)]
fn first_room(format: &[u8], max: usize) -> usize {
    format
        .len()
        .saturating_add(format.len() / 2)
        .saturating_add(SPARE)
        .min(max)
}

/// Where a `%` stands that begins no conversion.
#[tactic(auto, using(crate::proofs::Left::pieces_at_start, crate::proofs::Left::nothing_left))]
pub fn bad_byte<L: Ledger>(format: &[u8], steps: &mut Steps<L>) -> Option<usize>
    ensures is { result ≡ bad_place (pieces format.now) }
    ensures steps { steps.new ≡ steps.old + conversions_of format.now }
{
    let mut at = 0;
    'reading: while at < format.len() {
        match short_at(format, at) {
            Some(Short::Byte(_)) => {
                // The piece is known already: this counts it.
                let _step = step_at(format, at, steps);
                at += 1;
            }
            Some(Short::Plain { .. }) => {
                let _step = step_at(format, at, steps);
                at += 2;
            }
            None => match step_at(format, at, steps) {
                Step::End => return None,
                Step::Bad => return Some(at),
                Step::Byte(_) => at += 1,
                Step::Conv { next, .. } => at = next,
            },
        }
    }
    None
}

/// The fault of a format whose text was given up: that of its conversions, if one is wrong.
#[cold]
#[inline(never)]
fn first_fault<L: Ledger>(format: &[u8], stop: Stop, steps: &mut Steps<L>) -> TimeFault
    ensures { MatchOption (bad_place (pieces format.now)) (result ≡ fault_of stop) (λ at. result ≡ BadFormat at) }
{
    match bad_byte(format, steps) {
        Some(at) => TimeFault::BadFormat { at },
        None => TimeFault::from(stop),
    }
}

/// The text of a time by a format, of at most `max` bytes; each conversion that is read is a step.
///
/// `BadFormat` comes exactly where a `%` of the format begins no conversion, at the first one, and
/// `TooBig` exactly where none does and the text is longer than `max`. The steps are those that the
/// format costs, or when out of memory at most so many.
pub fn strftime_counted<L: Ledger>(
    alloc: Global,
    t: &Time,
    format: &[u8],
    tm: &Tm,
    max: usize,
    steps: &mut Steps<L>,
) -> Result<ByteText, TimeFault>
    ensures answer { Answers result (answer t.now tm.now format.now max) }
    ensures steps { Counts result (steps.old + cost t.now tm.now format.now max) steps.new }
    ensures bound { cost t.now tm.now format.now max ≤ 69906 * conversions_of format.now }
{
    t.rules_hold();
    if let Some(at) = bad_byte(format, steps) {
        return Err(TimeFault::BadFormat { at });
    }
    let mut out = Vec::with_capacity(alloc, first_room(format, max))?;
    put_format(
        LEVELS,
        t,
        &TimeFields::of(tm),
        max,
        format,
        steps,
        &mut out,
        &mut [],
    )?;
    Ok(ByteText::from_vec(out))
}

/// Puts the text of a time in place of what a `Vec` holds, with a ledger that has not begun. The whole
/// format is looked over only where its text is given up.
#[inline(always)]
fn put_from<L: Ledger>(
    out: &mut Vec<u8>,
    t: &Time,
    format: &[u8],
    tm: &Tm,
    max: usize,
    blank: Blank,
) -> Result<(), TimeFault>
    requires name { blank.name ≡ L.name }
    requires parts { blank.parts ≡ L.parts }
    requires some { 0 < blank.parts }
    ensures { Answers (with_text out.new.items result) (answer t.now tm.now format.now max) }
{
    let mut steps = Steps::<L>::new(blank);
    out.clear();
    if out.capacity() < SPARE {
        out.reserve(first_room(format, max))?;
    }
    match put_whole(
        LEVELS,
        t,
        &TimeFields::of(tm),
        max,
        format,
        &mut steps,
        out,
        &mut [],
    ) {
        Ok(None) => Ok(()),
        Ok(Some(at)) => Err(TimeFault::BadFormat { at }),
        Err(stop) => Err(first_fault(format, stop, &mut steps)),
    }
}

/// The text of a time by a format, of at most `max` bytes (XSH strftime).
///
/// `BadFormat` comes exactly where a `%` of the format begins no conversion, at the first one, and
/// `TooBig` exactly where none does and the text is longer than `max`.
pub fn strftime(
    alloc: Global,
    t: &Time,
    format: &[u8],
    tm: &Tm,
    max: usize,
) -> Result<ByteText, TimeFault>
    ensures { Answers result (answer t.now tm.now format.now max) }
{
    let mut text = Vec::with_capacity(alloc, first_room(format, max))?;
    match strftime_into(&mut text, t, format, tm, max) {
        Ok(()) => Ok(ByteText::from_vec(text)),
        Err(fault) => Err(fault),
    }
}

/// Puts the same text in place of what a `Vec` holds, whose memory is used again. The `Vec` is empty
/// where there is no text.
pub fn strftime_into(
    out: &mut Vec<u8>,
    t: &Time,
    format: &[u8],
    tm: &Tm,
    max: usize,
) -> Result<(), TimeFault>
    ensures answer { Answers (with_text out.new.items result) (answer t.now tm.now format.now max) }
    ensures emptied { OnErr result (out.new.items ≡ []) }
{
    match put_from::<Brand>(out, t, format, tm, max, Blank::new(1)) {
        Ok(()) => Ok(()),
        Err(fault) => {
            out.clear();
            Err(fault)
        }
    }
}
