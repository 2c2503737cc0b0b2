//! What conversions give, and the formats for which they stand.

ghost use Rattle.std.specs.Prelude.{◌≡◌, ◌∷◌, ◌≤◌, ◌+◌, ◌%◌, length, count_by, Some, IfSome, option_map};
ghost use Rattle.std.specs.Option.{option_copied};
ghost use Rattle.time_cat.specs.Faults.{IsFormat};
ghost use Rattle.time_cat.specs.Formats.{pieces, is_conversion};
ghost use Rattle.time_cat.specs.declared.conversion.Shows.TheVariants.{EraName, EraYear};
ghost use Rattle.time_cat.specs.Hits.{hit};
ghost use Rattle.time_cat.specs.Shown.{quantity as value_of, alternative, name_text, slashed_date, dashed_date, short_time, full_time, hours_and_minutes, offset_text, era_of, or_plain, format_for, plain_text, or_text, laid_out};
ghost use Rattle.strftime_fields.specs.Appending.{Appends, Adds};
ghost use Rattle.strftime_fields.specs.Kept.{Holds};

use crate::digits::{
    last_digit, pair, put_bare, put_bare_here, put_number, put_signed, spaced, three, two,
};
use crate::fields::TimeFields;
use crate::output::{Output, put, put_byte, put_here};
use crate::stop::Stop;
use crate::weeks::{behind_monday, iso_week, monday_week, sunday_week};
use time_cat::{EraHit, Layout, Name, NameList, Quantity, Shows, Time};

/// A number of a time.
#[inline(always)]
pub fn number(quantity: Quantity, tm: &TimeFields) -> u32
    ensures { result ≡ value_of quantity tm.now }
{
    match quantity {
        Quantity::Century => tm.year() / 100,
        Quantity::YearOfCentury => tm.year() % 100,
        Quantity::Year => tm.year(),
        Quantity::WeekYear => iso_week(tm.year(), tm.yday(), tm.wday()).year,
        Quantity::WeekYearOfCentury => iso_week(tm.year(), tm.yday(), tm.wday()).year % 100,
        Quantity::Month => tm.mon(),
        Quantity::Day => tm.mday(),
        Quantity::YearDay => tm.yday() + 1,
        Quantity::Hour => tm.hour(),
        Quantity::HalfDayHour => (tm.hour() + 11) % 12 + 1,
        Quantity::Minute => tm.min(),
        Quantity::Second => tm.sec(),
        Quantity::IsoWeekday => behind_monday(tm.wday()) + 1,
        Quantity::Weekday => tm.wday(),
        Quantity::SundayWeek => sunday_week(tm.yday(), tm.wday()),
        Quantity::MondayWeek => monday_week(tm.yday(), tm.wday()),
        Quantity::IsoWeek => iso_week(tm.year(), tm.yday(), tm.wday()).week,
    }
}

/// The hour from 1 to 12.
#[inline(always)]
fn half_day_hour(hour: u32) -> u32
    requires { hour ≤ 23 }
    ensures is { result ≡ (hour + 11) % 12 + 1 }
    ensures few { result ≤ 12 }
{
    match hour {
        0 => 12,
        1..=12 => hour,
        _ => hour - 12,
    }
}

/// A number of a time that is read off a field and has at most two digits.
#[inline(always)]
fn few(quantity: Quantity, tm: &TimeFields) -> Option<u8>
    ensures { IfSome result (λ n. n ≡ value_of quantity tm.now) }
{
    match quantity {
        Quantity::YearOfCentury => Some((tm.year() % 100) as u8),
        Quantity::Month => Some(tm.mon() as u8),
        Quantity::Day => Some(tm.mday() as u8),
        Quantity::Hour => Some(tm.hour() as u8),
        Quantity::HalfDayHour => Some(half_day_hour(tm.hour()) as u8),
        Quantity::Minute => Some(tm.min() as u8),
        Quantity::Second => Some(tm.sec() as u8),
        _ => None,
    }
}

/// Adds a number that is read off a field, and says whether it did. There is room for it.
#[inline(always)]
pub fn put_number_here<O: Output>(
    out: &mut O,
    lent: &mut [u8],
    tm: &TimeFields,
    quantity: Quantity,
    layout: Layout,
) -> bool
    requires room { length (O.text out.old lent.old) + 16 ≤ O.room out.old (length lent.old) }
    ensures text { Adds O.kind (O.text out.old lent.old) (laid_out layout (value_of quantity tm.now)) (O.text out.new lent.new) result }
    ensures short { length (O.text out.new lent.new) ≤ length (O.text out.old lent.old) + 16 }
    ensures room { O.room out.new (length lent.new) ≡ O.room out.old (length lent.old) }
{
    match (layout, quantity) {
        (Layout::Two, _) => match few(quantity, tm) {
            None => false,
            Some(n) => put_here(out, lent, &pair(n)),
        },
        (Layout::Spaced, _) => match few(quantity, tm) {
            None => false,
            Some(n) => put_here(out, lent, &spaced(u32::from(n))),
        },
        (Layout::Bare, Quantity::Year) => put_bare_here(out, lent, tm.year()),
        (Layout::Three, Quantity::YearDay) => put_here(out, lent, &three(tm.yday() + 1)),
        _ => false,
    }
}

/// A name of the locale.
#[inline(always)]
pub fn name<'a>(t: &'a Time, tm: &TimeFields, list: NameList) -> &'a Name
    ensures { result.now ≡ name_text t.now tm.now list }
{
    match list {
        NameList::ShortWeekday => t.abday(tm.wday() as u8),
        NameList::Weekday => t.day(tm.wday() as u8),
        NameList::ShortMonth => t.abmon((tm.mon() - 1) as u8),
        NameList::Month => t.mon((tm.mon() - 1) as u8),
        NameList::HalfDay if tm.hour() < 12 => t.am_pm(0),
        NameList::HalfDay => t.am_pm(1),
    }
}

/// Month, day and year of the century.
fn slashed_date(tm: &TimeFields) -> [u8; 8]
    ensures { result ≡ slashed_date tm.now }
{
    let (year, month, day) = (tm.year(), tm.mon(), tm.mday());
    [
        last_digit(month / 10),
        last_digit(month),
        b'/',
        last_digit(day / 10),
        last_digit(day),
        b'/',
        last_digit(year / 10),
        last_digit(year),
    ]
}

/// Year, month and day.
fn dashed_date(tm: &TimeFields) -> [u8; 10]
    ensures { result ≡ dashed_date tm.now }
{
    let (year, month, day) = (tm.year(), tm.mon(), tm.mday());
    [
        last_digit(year / 1000),
        last_digit(year / 100),
        last_digit(year / 10),
        last_digit(year),
        b'-',
        last_digit(month / 10),
        last_digit(month),
        b'-',
        last_digit(day / 10),
        last_digit(day),
    ]
}

/// Hour and minute.
#[inline(always)]
pub fn short_time(tm: &TimeFields) -> [u8; 5]
    ensures { result ≡ short_time tm.now }
{
    let (hour, minute) = (tm.hour(), tm.min());
    [
        last_digit(hour / 10),
        last_digit(hour),
        b':',
        last_digit(minute / 10),
        last_digit(minute),
    ]
}

/// Hour, minute and second.
#[inline(always)]
pub fn full_time(tm: &TimeFields) -> [u8; 8]
    ensures { result ≡ full_time tm.now }
{
    let (hour, minute, second) = (tm.hour(), tm.min(), tm.sec());
    [
        last_digit(hour / 10),
        last_digit(hour),
        b':',
        last_digit(minute / 10),
        last_digit(minute),
        b':',
        last_digit(second / 10),
        last_digit(second),
    ]
}

/// Hours and minutes behind a sign.
fn signed_minutes(sign: u8, minutes: u32) -> [u8; 5]
    ensures { result ≡ sign ∷ hours_and_minutes minutes }
{
    let (hours, rest) = (minutes / 60, minutes % 60);
    [
        sign,
        last_digit(hours / 10),
        last_digit(hours),
        last_digit(rest / 10),
        last_digit(rest),
    ]
}

/// An offset with its sign.
#[tactic(auto, using(crate::proofs::Offsets::west, crate::proofs::Offsets::east))]
fn offset_bytes(minutes: i32) -> [u8; 5]
    ensures { result ≡ offset_text (Some minutes) }
{
    if minutes < 0 {
        signed_minutes(b'-', minutes.unsigned_abs())
    } else {
        signed_minutes(b'+', minutes.unsigned_abs())
    }
}

/// Adds month, day and year of the century.
#[inline(never)]
fn put_slashed_date<O: Output>(
    out: &mut O,
    lent: &mut [u8],
    max: usize,
    tm: &TimeFields,
) -> Result<(), Stop>
    requires short { length (O.text out.old lent.old) ≤ max }
    requires holds { Holds O.kind max (length lent.old) }
    ensures { Appends O.kind max (O.text out.old lent.old) (slashed_date tm.now) (O.text out.new lent.new) result }
{
    put(out, lent, max, &slashed_date(tm))
}

/// Adds year, month and day.
#[inline(never)]
fn put_dashed_date<O: Output>(
    out: &mut O,
    lent: &mut [u8],
    max: usize,
    tm: &TimeFields,
) -> Result<(), Stop>
    requires short { length (O.text out.old lent.old) ≤ max }
    requires holds { Holds O.kind max (length lent.old) }
    ensures { Appends O.kind max (O.text out.old lent.old) (dashed_date tm.now) (O.text out.new lent.new) result }
{
    put(out, lent, max, &dashed_date(tm))
}

/// Adds hour and minute.
#[inline(never)]
fn put_short_time<O: Output>(
    out: &mut O,
    lent: &mut [u8],
    max: usize,
    tm: &TimeFields,
) -> Result<(), Stop>
    requires short { length (O.text out.old lent.old) ≤ max }
    requires holds { Holds O.kind max (length lent.old) }
    ensures { Appends O.kind max (O.text out.old lent.old) (short_time tm.now) (O.text out.new lent.new) result }
{
    put(out, lent, max, &short_time(tm))
}

/// Adds hour, minute and second.
#[inline(never)]
fn put_full_time<O: Output>(
    out: &mut O,
    lent: &mut [u8],
    max: usize,
    tm: &TimeFields,
) -> Result<(), Stop>
    requires short { length (O.text out.old lent.old) ≤ max }
    requires holds { Holds O.kind max (length lent.old) }
    ensures { Appends O.kind max (O.text out.old lent.old) (full_time tm.now) (O.text out.new lent.new) result }
{
    put(out, lent, max, &full_time(tm))
}

/// Adds an offset, or nothing.
#[tactic(auto, using(crate::proofs::Keeping::kept_nothing))]
#[inline(never)]
fn put_offset<O: Output>(
    out: &mut O,
    lent: &mut [u8],
    max: usize,
    offset: Option<i32>,
) -> Result<(), Stop>
    requires short { length (O.text out.old lent.old) ≤ max }
    requires holds { Holds O.kind max (length lent.old) }
    ensures { Appends O.kind max (O.text out.old lent.old) (offset_text offset) (O.text out.new lent.new) result }
{
    match offset {
        None => Ok(()),
        Some(minutes) => put(out, lent, max, &offset_bytes(minutes)),
    }
}

/// The era of the date.
fn era_of<'a>(t: &'a Time, tm: &TimeFields) -> Option<EraHit<'a>>
    ensures is { option_map hit result ≡ era_of t.now tm.now }
    ensures format { IfSome result (λ found. IsFormat 1 found.format.now) }
{
    t.era_at(tm.year() as i32, tm.mon() as u8, tm.mday() as u8)
}

/// A format of eras, or else the plain one where it is empty.
fn or_plain<'a>(format: &'a [u8], plain: &'a [u8]) -> &'a [u8]
    ensures is { result.now ≡ or_plain format.now plain.now }
    ensures few { count_by is_conversion (pieces format.now) ≤ 16 → count_by is_conversion (pieces plain.now) ≤ 16 → count_by is_conversion (pieces result.now) ≤ 16 }
{
    match format {
        [] => plain,
        [_, ..] => format,
    }
}

/// The format for which a conversion stands, if it stands for one. It has at most 16 conversions.
#[inline(always)]
pub fn format_for<'a>(t: &'a Time, tm: &TimeFields, shows: Shows) -> Option<&'a [u8]>
    ensures is { option_copied result ≡ format_for t.now tm.now shows }
    ensures few { IfSome result (λ format. count_by is_conversion (pieces format.now) ≤ 16) }
{
    match shows {
        Shows::Format(key) => Some(t.text(key)),
        Shows::EraFormat(key, plain) => Some(or_plain(t.text(key), t.text(plain))),
        Shows::EraFull => match era_of(t, tm) {
            None => None,
            Some(hit) => Some(hit.format),
        },
        Shows::Name(_)
        | Shows::Number(_, _)
        | Shows::Alternative(_, _)
        | Shows::EraName
        | Shows::EraYear
        | Shows::SlashedDate
        | Shows::DashedDate
        | Shows::ShortTime
        | Shows::FullTime
        | Shows::Offset
        | Shows::Zone
        | Shows::Sign(_) => None,
    }
}

/// Adds the era's name, or else the century.
#[inline(never)]
fn put_era_name<O: Output>(
    out: &mut O,
    lent: &mut [u8],
    max: usize,
    t: &Time,
    tm: &TimeFields,
) -> Result<(), Stop>
    requires short { length (O.text out.old lent.old) ≤ max }
    requires holds { Holds O.kind max (length lent.old) }
    ensures { Appends O.kind max (O.text out.old lent.old) (plain_text t.now tm.now EraName) (O.text out.new lent.new) result }
{
    match era_of(t, tm) {
        None => put(out, lent, max, &two(tm.year() / 100)),
        Some(hit) => put(out, lent, max, hit.name),
    }
}

/// Adds the year in the era, or else the year of the century.
#[inline(never)]
fn put_era_year<O: Output>(
    out: &mut O,
    lent: &mut [u8],
    max: usize,
    t: &Time,
    tm: &TimeFields,
) -> Result<(), Stop>
    requires short { length (O.text out.old lent.old) ≤ max }
    requires holds { Holds O.kind max (length lent.old) }
    ensures { Appends O.kind max (O.text out.old lent.old) (plain_text t.now tm.now EraYear) (O.text out.new lent.new) result }
{
    match era_of(t, tm) {
        None => put(out, lent, max, &two(tm.year())),
        Some(hit) => put_signed(out, lent, max, hit.year),
    }
}

/// Adds an alternative digit, or else the number.
#[inline(never)]
fn put_alternative<O: Output>(
    out: &mut O,
    lent: &mut [u8],
    max: usize,
    t: &Time,
    layout: Layout,
    n: u32,
) -> Result<(), Stop>
    requires short { length (O.text out.old lent.old) ≤ max }
    requires holds { Holds O.kind max (length lent.old) }
    ensures { Appends O.kind max (O.text out.old lent.old) (or_text (alternative t.now.alt_digits n) (laid_out layout n)) (O.text out.new lent.new) result }
{
    match t.alt_digit(n) {
        None => put_number(out, lent, max, layout, n),
        Some(digit) => put(out, lent, max, digit),
    }
}

/// Adds what a conversion gives that stands for no format.
#[tactic(auto, using(crate::proofs::Keeping::kept_nothing))]
#[inline(always)]
pub fn put_plain<O: Output>(
    out: &mut O,
    lent: &mut [u8],
    max: usize,
    t: &Time,
    tm: &TimeFields,
    shows: Shows,
) -> Result<(), Stop>
    requires short { length (O.text out.old lent.old) ≤ max }
    requires holds { Holds O.kind max (length lent.old) }
    ensures { Appends O.kind max (O.text out.old lent.old) (plain_text t.now tm.now shows) (O.text out.new lent.new) result }
{
    match shows {
        Shows::Name(list) => put(out, lent, max, name(t, tm, list).as_bytes()),
        Shows::Number(quantity, layout) => put_number(out, lent, max, layout, number(quantity, tm)),
        Shows::Alternative(quantity, layout) => {
            put_alternative(out, lent, max, t, layout, number(quantity, tm))
        }
        Shows::Format(_) | Shows::EraFormat(_, _) => Ok(()),
        Shows::EraName => put_era_name(out, lent, max, t, tm),
        Shows::EraYear => put_era_year(out, lent, max, t, tm),
        Shows::EraFull => put_bare(out, lent, max, tm.year()),
        Shows::SlashedDate => put_slashed_date(out, lent, max, tm),
        Shows::DashedDate => put_dashed_date(out, lent, max, tm),
        Shows::ShortTime => put_short_time(out, lent, max, tm),
        Shows::FullTime => put_full_time(out, lent, max, tm),
        Shows::Offset => put_offset(out, lent, max, tm.offset()),
        Shows::Zone => put(out, lent, max, tm.zone()),
        Shows::Sign(byte) => put_byte(out, lent, max, byte),
    }
}
