//! The fields of a time that was read.

ghost use Rattle.std.specs.Prelude.{◌≡◌, ◌+◌, ◌*◌, pos};
ghost use Rattle.strptime_fields.specs.Keeping.{near_year, or_zero, year_of, hour_of, yday_of};

use crate::last_read::LastRead;
use time_cat::Parsed;

/// The year of a century that is not said: from 1969 to 2068.
fn near_year(year_of_century: u8) -> i32
    ensures { result ≡ pos (near_year year_of_century) }
{
    if year_of_century < 69 {
        2000 + i32::from(year_of_century)
    } else {
        1900 + i32::from(year_of_century)
    }
}

/// The year of a century, where a year of the century that is absent counts as 0.
fn century_year(century: u8, year_of_century: Option<u8>) -> i32
    ensures { result ≡ pos (100 * century + or_zero year_of_century) }
{
    let hundreds = 100 * i32::from(century);
    match year_of_century {
        None => hundreds,
        Some(year) => hundreds + i32::from(year),
    }
}

/// The year.
fn year_of(last: &LastRead) -> Option<i32>
    ensures { result ≡ year_of last.now }
{
    match (last.year, last.century) {
        (Some(year), _) => Some(i32::from(year)),
        (None, Some(century)) => Some(century_year(century, last.year_of_century)),
        (None, None) => match last.year_of_century {
            None => None,
            Some(year) => Some(near_year(year)),
        },
    }
}

/// The hour.
fn hour_of(last: &LastRead) -> Option<u8>
    ensures { result ≡ hour_of last.now }
{
    match (last.hour, last.half_day_hour) {
        (Some(hour), _) => Some(hour),
        (None, Some(hour)) if last.half_day == Some(1) => Some(hour % 12 + 12),
        (None, Some(hour)) => Some(hour % 12),
        (None, None) => None,
    }
}

/// The day of the year, from 0.
fn yday_of(last: &LastRead) -> Option<u16>
    ensures { result ≡ yday_of last.now }
{
    match last.year_day {
        None => None,
        Some(day) => Some(day.saturating_sub(1)),
    }
}

impl LastRead {
    ghost use Rattle.std.specs.Prelude.{◌≡◌};
    ghost use Rattle.strptime_fields.specs.Keeping.{parsed};

    /// The fields.
    pub fn parsed(&self) -> Parsed
        ensures { result ≡ parsed self.now }
    {
        Parsed {
            year: year_of(self),
            mon: self.mon,
            mday: self.mday,
            hour: hour_of(self),
            min: self.min,
            sec: self.sec,
            wday: self.wday,
            yday: yday_of(self),
        }
    }
}
