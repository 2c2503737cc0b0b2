//! Segments of eras (XBD 7.3.5.2, era).

ghost use Rattle.std.specs.Prelude.{◌≡◌, ◌<◌, ◌≤◌, find, IfSome, IfOk, option_map};
ghost use Rattle.std.specs.Option.{option_copied};
ghost use Rattle.lc_base.specs.Numbers.{few_digits};
ghost use Rattle.time_cat.specs.Eras.{within, year_of, date, end_of, direction, segment, date_is_no_later, is_no_later, is_between, contains, distance};
ghost use Rattle.time_cat.specs.Segments.{whole};

use lc_base::{ByteText, cut_at, few_digits};
use std::alloc::{AllocError, Global};

/// A date.
#[derive(Clone, Copy)]
pub struct Date {
    /// The year, counted so that the year 1 is 10001.
    pub year: u16,
    pub month: u16,
    pub day: u16,
}

/// An end of a segment.
#[derive(Clone, Copy)]
pub enum End {
    /// Before all dates.
    BeforeAll,
    On(Date),
    /// After all dates.
    AfterAll,
}

/// A segment of an era.
pub struct Segment {
    /// Whether years count up behind the start.
    pub forward: bool,
    pub offset: u16,
    pub start: Date,
    /// The other end, which may be before the start.
    pub end: End,
    pub name: ByteText,
    pub format: ByteText,
}

impl Drop for Segment {
    fn drop(self) {
        let Segment {
            forward: _,
            offset: _,
            start: _,
            end: _,
            name: _,
            format: _,
        } = self;
    }
}

/// The parts of a segment in its text.
#[derive(Clone, Copy)]
pub struct SegmentText<'a> {
    pub forward: bool,
    pub offset: u16,
    pub start: Date,
    pub end: End,
    pub name: &'a [u8],
    pub format: &'a [u8],
}

/// A number of two digits in a range.
fn within(low: u32, high: u32, text: &[u8]) -> Option<u16>
    ensures is { result ≡ within low high (few_digits 2 text.now) }
    ensures capped { IfSome result (λ n. n ≤ high) }
{
    let number = few_digits(2, text)?;
    if low <= number && number <= high {
        Some(number as u16)
    } else {
        None
    }
}

/// The counted year of one to four digits, perhaps behind a `-`.
#[tactic(auto, unfolding(crate::specs::Eras::year_of))]
fn year_of(text: &[u8]) -> Option<u16>
    ensures is { result ≡ year_of text.now }
    ensures small { IfSome result (λ n. n < 20000) }
{
    match text {
        [] => None,
        [b'-', digits @ ..] => {
            let year = few_digits(4, digits)?;
            Some(10000 - (year as u16).saturating_sub(1))
        }
        _ => {
            let year = few_digits(4, text)?;
            Some(10000 + year as u16)
        }
    }
}

/// A date: year, month and day with `/` between.
#[tactic(auto, unfolding(crate::specs::Eras::date))]
fn date_of(text: &[u8]) -> Option<Date>
    ensures { result ≡ date text.now }
{
    let (year, rest) = cut_at(b'/', text)?;
    let (month, day) = cut_at(b'/', rest)?;
    let year = year_of(year)?;
    let month = within(1, 12, month)?;
    let day = within(1, 31, day)?;
    Some(Date { year, month, day })
}

/// The end of a segment: a date, or before or after all dates.
#[tactic(auto, unfolding(crate::specs::Eras::end_of))]
fn end_of(text: &[u8]) -> Option<End>
    ensures { result ≡ end_of text.now }
{
    if text == b"-*".as_slice() {
        return Some(End::BeforeAll);
    }
    if text == b"+*".as_slice() {
        return Some(End::AfterAll);
    }
    match date_of(text) {
        None => None,
        Some(date) => Some(End::On(date)),
    }
}

/// Whether years count up behind the start.
fn direction(text: &[u8]) -> Option<bool>
    ensures { result ≡ direction text.now }
{
    if text == b"+".as_slice() {
        return Some(true);
    }
    if text == b"-".as_slice() {
        return Some(false);
    }
    None
}

/// The segment that a text spells.
#[tactic(auto, unfolding(crate::specs::Eras::segment))]
pub fn segment_of(text: &[u8]) -> Option<SegmentText<'_>>
    ensures { option_map whole result ≡ segment text.now }
{
    let (sign, rest) = cut_at(b':', text)?;
    let (offset, rest) = cut_at(b':', rest)?;
    let (start, rest) = cut_at(b':', rest)?;
    let (end, rest) = cut_at(b':', rest)?;
    let (name, format) = cut_at(b':', rest)?;
    let forward = direction(sign)?;
    let offset = few_digits(4, offset)? as u16;
    let start = date_of(start)?;
    let end = end_of(end)?;
    Some(SegmentText {
        forward,
        offset,
        start,
        end,
        name,
        format,
    })
}

impl SegmentText<'_> {
    ghost use Rattle.time_cat.specs.Segments.{whole};

    /// The segment, with copies of its texts.
    pub fn copied(&self, alloc: Global) -> Result<Segment, AllocError>
        ensures { IfOk result (λ s. s ≡ whole self.now) }
    {
        Ok(Segment {
            forward: self.forward,
            offset: self.offset,
            start: self.start,
            end: self.end,
            name: ByteText::of(alloc, self.name)?,
            format: ByteText::of(alloc, self.format)?,
        })
    }
}

/// Whether a date is no later than another.
fn date_is_no_later(a: Date, b: Date) -> bool
    ensures { result ≡ date_is_no_later a b }
{
    a.year < b.year
        || (a.year == b.year && (a.month < b.month || (a.month == b.month && a.day <= b.day)))
}

/// Whether an end is no later than another.
fn is_no_later(a: End, b: End) -> bool
    ensures { result ≡ is_no_later a b }
{
    match (a, b) {
        (End::BeforeAll, _) | (_, End::AfterAll) => true,
        (End::On(a), End::On(b)) => date_is_no_later(a, b),
        (End::On(_), End::BeforeAll) | (End::AfterAll, _) => false,
    }
}

/// Whether a date is between two ends, both included.
fn is_between(from: End, to: End, date: Date) -> bool
    ensures { result ≡ is_between from to date }
{
    is_no_later(from, End::On(date)) && is_no_later(End::On(date), to)
}

/// The first segment that contains a date.
pub fn segment_at(segments: &[Segment], date: Date) -> Option<&Segment>
    ensures { option_copied result ≡ find (contains date) segments.now }
{
    segments.iter().find(|segment| segment.contains(date))
}

impl Segment {
    ghost use Rattle.std.specs.Prelude.{◌≡◌, ◌+◌, ◌<◌, ◌≤◌};
    ghost use Rattle.time_cat.specs.Eras.{contains, year_in};

    /// Whether it contains a date.
    fn contains(&self, date: Date) -> bool
        ensures { result ≡ contains date self.now }
    {
        is_between(End::On(self.start), self.end, date)
            || is_between(self.end, End::On(self.start), date)
    }

    /// The era's year of a counted year.
    pub fn year_of(&self, year: u16) -> i32
        ensures { result ≡ year_in self.now year }
    {
        let distance = distance(self.start.year, year);
        if self.forward {
            i32::from(self.offset) + i32::from(distance)
        } else {
            i32::from(self.offset) - i32::from(distance)
        }
    }
}

/// How far two years are apart.
fn distance(a: u16, b: u16) -> u16
    ensures { result ≡ distance a b }
{
    if a < b { b - a } else { a - b }
}
