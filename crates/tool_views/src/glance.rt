//! What shows a locale at a glance.

use crate::padding::cell_of;
use lc_base::ByteText;
use std::alloc::Global;
use time_cat::{Time, Tm};
use tool_decimals::decimals_line;
use tool_messages::Problem;
use tool_reads::{LentCategories, money_line, time_line};

/// The row of a page.
#[derive(Clone, Copy)]
pub struct Glance {
    /// What is shown; empty where it is that of the row before.
    pub label: &'static str,
    shows: Shows,
}

/// What a row shows.
#[derive(Clone, Copy)]
enum Shows {
    /// An amount by a format of strfmon.
    Money(&'static str, &'static str),
    /// One of the times by a format of strftime.
    Time(&'static str, usize),
    /// A number by a format of printf.
    Number(&'static str, &'static str),
    /// A day of the week, from 0 on Sunday.
    Day(u8),
    /// A month, from 0.
    Month(u8),
    Yes,
    No,
}

/// A time: year, month, day, hour, minute, second, day of the week, day of the year.
type Fields = [i32; 8];

/// The times.
const TIMES: [Fields; 4] = [
    [2024, 1, 1, 0, 0, 0, 1, 0],
    [2024, 2, 29, 9, 5, 7, 4, 59],
    [2024, 6, 19, 17, 30, 0, 3, 170],
    [1999, 12, 31, 23, 59, 59, 5, 364],
];

/// The number of rows.
pub const ROWS: usize = 45;

/// The rows.
#[rattlefmt::skip]
pub static GLANCES: [Glance; ROWS] = [
    Glance { label: "amount", shows: Shows::Money("%n", "1234567.89") },
    Glance { label: "negative", shows: Shows::Money("%n", "-1234567.89") },
    Glance { label: "international", shows: Shows::Money("%i", "1234567.89") },
    Glance { label: "negative", shows: Shows::Money("%i", "-1234567.89") },
    Glance { label: "date and time", shows: Shows::Time("%c", 0) },
    Glance { label: "", shows: Shows::Time("%c", 1) },
    Glance { label: "", shows: Shows::Time("%c", 2) },
    Glance { label: "", shows: Shows::Time("%c", 3) },
    Glance { label: "date", shows: Shows::Time("%x", 0) },
    Glance { label: "", shows: Shows::Time("%x", 1) },
    Glance { label: "", shows: Shows::Time("%x", 2) },
    Glance { label: "", shows: Shows::Time("%x", 3) },
    Glance { label: "time", shows: Shows::Time("%X", 0) },
    Glance { label: "", shows: Shows::Time("%X", 1) },
    Glance { label: "", shows: Shows::Time("%X", 2) },
    Glance { label: "", shows: Shows::Time("%X", 3) },
    Glance { label: "time of 12 hours", shows: Shows::Time("%r", 0) },
    Glance { label: "", shows: Shows::Time("%r", 1) },
    Glance { label: "", shows: Shows::Time("%r", 2) },
    Glance { label: "", shows: Shows::Time("%r", 3) },
    Glance { label: "whole numbers", shows: Shows::Number("%'d", "1234567") },
    Glance { label: "", shows: Shows::Number("%'d", "-9876543210") },
    Glance { label: "decimals", shows: Shows::Number("%'.2f", "1234567.891") },
    Glance { label: "", shows: Shows::Number("%'.1f", "-0.25") },
    Glance { label: "days", shows: Shows::Day(0) },
    Glance { label: "", shows: Shows::Day(1) },
    Glance { label: "", shows: Shows::Day(2) },
    Glance { label: "", shows: Shows::Day(3) },
    Glance { label: "", shows: Shows::Day(4) },
    Glance { label: "", shows: Shows::Day(5) },
    Glance { label: "", shows: Shows::Day(6) },
    Glance { label: "months", shows: Shows::Month(0) },
    Glance { label: "", shows: Shows::Month(1) },
    Glance { label: "", shows: Shows::Month(2) },
    Glance { label: "", shows: Shows::Month(3) },
    Glance { label: "", shows: Shows::Month(4) },
    Glance { label: "", shows: Shows::Month(5) },
    Glance { label: "", shows: Shows::Month(6) },
    Glance { label: "", shows: Shows::Month(7) },
    Glance { label: "", shows: Shows::Month(8) },
    Glance { label: "", shows: Shows::Month(9) },
    Glance { label: "", shows: Shows::Month(10) },
    Glance { label: "", shows: Shows::Month(11) },
    Glance { label: "yes", shows: Shows::Yes },
    Glance { label: "no", shows: Shows::No },
];

/// The column of a locale: its name, and a cell for each row.
pub struct Column {
    pub name: ByteText,
    pub cells: Vec<ByteText>,
}

impl Drop for Column {
    fn drop(self) {
        let Column { name: _, cells: _ } = self;
    }
}

/// The column of a locale.
pub fn glance_of(
    alloc: Global,
    name: &str,
    locale: &LentCategories<'_>,
) -> Result<Column, Problem> {
    let mut cells = Vec::new(alloc);
    for glance in &GLANCES {
        match cell(alloc, locale, glance.shows) {
            Ok(cell) => cells.push(cell)?,
            Err(problem) => return Err(problem),
        }
    }
    let name = cell_of(alloc, name.as_bytes())?;
    Ok(Column { name, cells })
}

/// The cell of a row.
fn cell(alloc: Global, locale: &LentCategories<'_>, shows: Shows) -> Result<ByteText, Problem> {
    let line = match shows {
        Shows::Money(format, amount) => money_line(alloc, locale.monetary, format, &[amount]),
        Shows::Time(format, number) => timed(alloc, locale.time, format, number),
        Shows::Number(format, number) => decimals_line(alloc, locale.numeric, format, &[number]),
        Shows::Day(i) => named(
            alloc,
            locale.time.day(i % 7).as_bytes(),
            locale.time.abday(i % 7).as_bytes(),
        ),
        Shows::Month(i) => named(
            alloc,
            locale.time.mon(i % 12).as_bytes(),
            locale.time.abmon(i % 12).as_bytes(),
        ),
        Shows::Yes => plain(alloc, locale.messages.yesexpr()),
        Shows::No => plain(alloc, locale.messages.noexpr()),
    };
    match line {
        Ok(line) => Ok(cell_of(alloc, line.as_bytes())?),
        Err(problem) => Err(problem),
    }
}

fn plain(alloc: Global, text: &[u8]) -> Result<ByteText, Problem> {
    Ok(ByteText::of(alloc, text)?)
}

/// A name, and behind it its short form in parentheses.
fn named(alloc: Global, name: &[u8], short: &[u8]) -> Result<ByteText, Problem> {
    let mut text = Vec::new(alloc);
    text.extend_from_slice(name)?;
    text.extend_from_slice(b" (")?;
    text.extend_from_slice(short)?;
    text.extend_from_slice(b")")?;
    Ok(ByteText::from_vec(text))
}

/// One of the times, in UTC.
fn timed(alloc: Global, time: &Time, format: &str, number: usize) -> Result<ByteText, Problem> {
    let f = TIMES[number % 4];
    let zone = ByteText::of(alloc, b"UTC")?;
    match Tm::new(
        f[0],
        f[1],
        f[2],
        f[3],
        f[4],
        f[5],
        f[6],
        f[7],
        Some(0),
        zone,
    ) {
        Ok(tm) => time_line(alloc, time, format, &tm),
        Err(_) => Err(Problem::Memory),
    }
}
