//! Dates that no calendar has.

ghost use Rattle.std.specs.Prelude.{◌<◌, IfSome};

/// What is wrong with a month.
const NO_MONTH: &[u8] = b": no calendar has this date; the months are 01 to 12\n";

/// What is wrong of the text of a time that begins as a date of a year, a month and a day, but with a month or a day
/// that no calendar has; `None` where that is not so.
pub fn wrong_date(text: &[u8]) -> Option<&'static [u8]> {
    let (year, month, day) = date_of(text)?;
    match days_in(year, month) {
        None => Some(NO_MONTH),
        Some(days) if day < 1 || days < day => Some(wrong_day(days)),
        Some(_) => None,
    }
}

/// The year, the month and the day that a text begins with, as 2024-06-19.
fn date_of(text: &[u8]) -> Option<(u32, u32, u32)> {
    match text {
        [a, b, c, d, b'-', e, f, b'-', g, h, behind @ ..] if !begins_with_digit(behind) => {
            let year = pair_of(*a, *b)? * 100 + pair_of(*c, *d)?;
            Some((year, pair_of(*e, *f)?, pair_of(*g, *h)?))
        }
        _ => None,
    }
}

fn begins_with_digit(text: &[u8]) -> bool {
    match text {
        [first, ..] => first.is_ascii_digit(),
        [] => false,
    }
}

/// The number of two digits.
fn pair_of(tens: u8, ones: u8) -> Option<u32>
    ensures { IfSome result (λ n. n < 100) }
{
    if (b'0'..=b'9').contains(&tens) && (b'0'..=b'9').contains(&ones) {
        Some(u32::from(tens - b'0') * 10 + u32::from(ones - b'0'))
    } else {
        None
    }
}

/// How many days a month has; `None` where there is no such month.
fn days_in(year: u32, month: u32) -> Option<u32> {
    match month {
        1 | 3 | 5 | 7 | 8 | 10 | 12 => Some(31),
        4 | 6 | 9 | 11 => Some(30),
        2 if is_leap(year) => Some(29),
        2 => Some(28),
        _ => None,
    }
}

fn is_leap(year: u32) -> bool {
    year % 4 == 0 && (year % 100 != 0 || year % 400 == 0)
}

/// What is wrong with a day of a month that has so many.
fn wrong_day(days: u32) -> &'static [u8] {
    match days {
        28 => b": no calendar has this date; the days of that month are 01 to 28\n",
        29 => b": no calendar has this date; the days of that month are 01 to 29\n",
        30 => b": no calendar has this date; the days of that month are 01 to 30\n",
        _ => b": no calendar has this date; the days of that month are 01 to 31\n",
    }
}
