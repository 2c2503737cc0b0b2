//! Weeks of the year (XSH strftime).

ghost use Rattle.std.specs.Prelude.{◌≡◌, ℕ, ◌+◌, ◌<◌, ◌≤◌};
ghost use Rattle.time_cat.specs.Weeks.{is_leap, days_of, behind_monday, sunday_week, monday_week, thursday, iso_year, iso_week};
ghost use Rattle.strftime_fields.specs.Calendar.{AreWeeks};

/// A week with its year.
#[derive(Clone, Copy)]
pub struct WeekOfYear {
    pub year: u32,
    /// From 1 to 53.
    pub week: u32,
}

/// Whether a year is a leap year.
fn is_leap(year: u32) -> bool
    ensures { result ≡ is_leap year }
{
    year % 4 == 0 && (year % 100 != 0 || year % 400 == 0)
}

/// How many days a year has.
fn days_of(year: u32) -> u32
    ensures is { result ≡ days_of year }
    ensures from { 365 ≤ result }
    ensures to { result ≤ 366 }
{
    if is_leap(year) { 366 } else { 365 }
}

/// How many days a day of the week is behind Monday.
pub fn behind_monday(weekday: u32) -> u32
    requires { weekday ≤ 6 }
    ensures { result ≡ behind_monday weekday }
{
    (weekday + 6) % 7
}

/// The week of the year, where weeks begin on Sunday.
pub fn sunday_week(yday: u32, weekday: u32) -> u32
    requires day { yday ≤ 365 }
    requires weekday { weekday ≤ 6 }
    ensures { result ≡ sunday_week yday weekday }
{
    (yday + 7 - weekday) / 7
}

/// The week of the year, where weeks begin on Monday.
pub fn monday_week(yday: u32, weekday: u32) -> u32
    requires day { yday ≤ 365 }
    requires weekday { weekday ≤ 6 }
    ensures { result ≡ monday_week yday weekday }
{
    (yday + 7 - behind_monday(weekday)) / 7
}

/// The ISO week in which a day is, with its year: those of the week's Thursday.
pub fn iso_week(year: u32, yday: u32, weekday: u32) -> WeekOfYear
    requires from { 1 ≤ year }
    requires to { year ≤ 9999 }
    requires day { yday ≤ 365 }
    requires weekday { weekday ≤ 6 }
    ensures year { result.year ≡ iso_year year yday weekday }
    ensures week { result.week ≡ iso_week year yday weekday }
    // From 1 to 53, in the year itself or one beside it.
    ensures from { 1 ≤ result.week }
    ensures to { result.week ≤ 53 }
    ensures not_before { year ≤ result.year + 1 }
    ensures not_after { result.year ≤ year + 1 }
{
    let back = behind_monday(weekday);
    let days = days_of(year);
    if yday + 3 < back {
        let day = days_of(year - 1) + yday + 3 - back;
        WeekOfYear {
            year: year - 1,
            week: day / 7 + 1,
        }
    } else if days <= yday + 3 - back {
        let day = yday + 3 - back - days;
        WeekOfYear {
            year: year + 1,
            week: day / 7 + 1,
        }
    } else {
        WeekOfYear {
            year,
            week: (yday + 3 - back) / 7 + 1,
        }
    }
}

/// The weeks are those of a calendar: the Thursday of a week is a day of its year, from Monday to
/// Sunday it stays the same, and behind a Sunday it is a week later.
pub fn weeks_hold()
    ensures { (year day weekday : ℕ) → 1 ≤ year → day < days_of year → weekday ≤ 6 → AreWeeks year day weekday }
{}
