//! The conversions of a format (XSH strftime; the ranks are our own).

ghost use Rattle.std.specs.Prelude.{◌≡◌, Some};
ghost use Rattle.time_cat.specs.Conversions.{conversion};

/// A format keyword of `LC_TIME` (XBD 7.3.5.2).
#[derive(Clone, Copy)]
pub enum TimeText {
    /// `d_t_fmt`, of rank 4.
    DateTime,
    /// `d_fmt`, of rank 3.
    Date,
    /// `t_fmt`, of rank 3.
    Clock,
    /// `t_fmt_ampm`, of rank 2.
    HalfDayClock,
    /// `era_d_t_fmt`, of rank 4.
    EraDateTime,
    /// `era_d_fmt`, of rank 3.
    EraDate,
    /// `era_t_fmt`, of rank 3.
    EraClock,
}

/// A list of names.
#[derive(Clone, Copy)]
pub enum NameList {
    ShortWeekday,
    Weekday,
    ShortMonth,
    Month,
    HalfDay,
}

/// A number of a time.
#[derive(Clone, Copy)]
pub enum Quantity {
    Century,
    YearOfCentury,
    Year,
    /// The year of the ISO week.
    WeekYear,
    WeekYearOfCentury,
    Month,
    Day,
    /// The day of the year, from 1.
    YearDay,
    Hour,
    /// The hour from 1 to 12.
    HalfDayHour,
    Minute,
    Second,
    /// The day of the week, from 1 on Monday to 7.
    IsoWeekday,
    /// The day of the week, from 0 on Sunday to 6.
    Weekday,
    /// The week of the year, where weeks begin on Sunday.
    SundayWeek,
    /// The week of the year, where weeks begin on Monday.
    MondayWeek,
    /// The ISO week.
    IsoWeek,
}

/// How a number is written.
#[derive(Clone, Copy)]
pub enum Layout {
    /// Without padding.
    Bare,
    /// Two digits.
    Two,
    /// Three digits.
    Three,
    /// Two places, with a space before one digit.
    Spaced,
}

/// What a conversion gives.
#[derive(Clone, Copy)]
pub enum Shows {
    /// A name of the locale.
    Name(NameList),
    /// A number.
    Number(Quantity, Layout),
    /// The alternative digit at a number, or else the number.
    Alternative(Quantity, Layout),
    /// What a format of the locale gives.
    Format(TimeText),
    /// What the first format of the locale gives, which is that of eras, or the second where it is empty.
    EraFormat(TimeText, TimeText),
    /// The era's name, or else the century.
    EraName,
    /// The year of the era, or else the year of the century.
    EraYear,
    /// What the era's format gives, or else the year.
    EraFull,
    /// Month, day and year of the century, with `/` between.
    SlashedDate,
    /// Year in four digits, month and day, with `-` between.
    DashedDate,
    /// Hour and minute, with `:` between.
    ShortTime,
    /// Hour, minute and second, with `:` between.
    FullTime,
    /// The offset from UTC.
    Offset,
    /// The name of the time zone.
    Zone,
    /// This byte.
    Sign(u8),
}

/// A conversion of a format.
#[derive(Clone, Copy)]
pub struct TimeConversion {
    /// A format of the locale holds only conversions of lower rank than its own.
    pub rank: u8,
    pub shows: Shows,
}

/// A conversion of a rank, with what it gives.
#[inline(always)]
fn row(rank: u8, shows: Shows) -> Option<TimeConversion>
    ensures { result ≡ Some (record { rank = rank; shows = shows }) }
{
    Some(TimeConversion { rank, shows })
}

/// The conversion of a letter without a modifier.
#[tactic(auto, unfolding(crate::specs::Conversions::conversion))]
#[inline(always)]
fn plain_conversion(letter: u8) -> Option<TimeConversion>
    ensures { result ≡ conversion 0 letter }
{
    match letter {
        b'a' => row(0, Shows::Name(NameList::ShortWeekday)),
        b'A' => row(0, Shows::Name(NameList::Weekday)),
        b'b' => row(0, Shows::Name(NameList::ShortMonth)),
        b'B' => row(0, Shows::Name(NameList::Month)),
        b'c' => row(4, Shows::Format(TimeText::DateTime)),
        b'C' => row(0, Shows::Number(Quantity::Century, Layout::Two)),
        b'd' => row(0, Shows::Number(Quantity::Day, Layout::Two)),
        b'D' => row(0, Shows::SlashedDate),
        b'e' => row(0, Shows::Number(Quantity::Day, Layout::Spaced)),
        b'F' => row(0, Shows::DashedDate),
        b'g' => row(0, Shows::Number(Quantity::WeekYearOfCentury, Layout::Two)),
        b'G' => row(0, Shows::Number(Quantity::WeekYear, Layout::Bare)),
        b'h' => row(0, Shows::Name(NameList::ShortMonth)),
        b'H' => row(0, Shows::Number(Quantity::Hour, Layout::Two)),
        b'I' => row(0, Shows::Number(Quantity::HalfDayHour, Layout::Two)),
        b'j' => row(0, Shows::Number(Quantity::YearDay, Layout::Three)),
        b'm' => row(0, Shows::Number(Quantity::Month, Layout::Two)),
        b'M' => row(0, Shows::Number(Quantity::Minute, Layout::Two)),
        b'n' => row(0, Shows::Sign(b'\n')),
        b'p' => row(0, Shows::Name(NameList::HalfDay)),
        b'r' => row(2, Shows::Format(TimeText::HalfDayClock)),
        b'R' => row(0, Shows::ShortTime),
        b'S' => row(0, Shows::Number(Quantity::Second, Layout::Two)),
        b't' => row(0, Shows::Sign(b'\t')),
        b'T' => row(0, Shows::FullTime),
        b'u' => row(0, Shows::Number(Quantity::IsoWeekday, Layout::Bare)),
        b'U' => row(0, Shows::Number(Quantity::SundayWeek, Layout::Two)),
        b'V' => row(0, Shows::Number(Quantity::IsoWeek, Layout::Two)),
        b'w' => row(0, Shows::Number(Quantity::Weekday, Layout::Bare)),
        b'W' => row(0, Shows::Number(Quantity::MondayWeek, Layout::Two)),
        b'x' => row(3, Shows::Format(TimeText::Date)),
        b'X' => row(3, Shows::Format(TimeText::Clock)),
        b'y' => row(0, Shows::Number(Quantity::YearOfCentury, Layout::Two)),
        b'Y' => row(0, Shows::Number(Quantity::Year, Layout::Bare)),
        b'z' => row(0, Shows::Offset),
        b'Z' => row(0, Shows::Zone),
        b'%' => row(0, Shows::Sign(b'%')),
        _ => None,
    }
}

/// The conversion of a letter behind `E`.
#[tactic(auto, unfolding(crate::specs::Conversions::conversion))]
fn era_conversion(letter: u8) -> Option<TimeConversion>
    ensures { result ≡ conversion 69 letter }
{
    match letter {
        b'c' => row(
            4,
            Shows::EraFormat(TimeText::EraDateTime, TimeText::DateTime),
        ),
        b'C' => row(0, Shows::EraName),
        b'x' => row(3, Shows::EraFormat(TimeText::EraDate, TimeText::Date)),
        b'X' => row(3, Shows::EraFormat(TimeText::EraClock, TimeText::Clock)),
        b'y' => row(0, Shows::EraYear),
        b'Y' => row(1, Shows::EraFull),
        _ => None,
    }
}

/// The conversion of a letter behind `O`.
#[tactic(auto, unfolding(crate::specs::Conversions::conversion))]
fn digit_conversion(letter: u8) -> Option<TimeConversion>
    ensures { result ≡ conversion 79 letter }
{
    match letter {
        b'd' => row(0, Shows::Alternative(Quantity::Day, Layout::Two)),
        b'e' => row(0, Shows::Alternative(Quantity::Day, Layout::Spaced)),
        b'H' => row(0, Shows::Alternative(Quantity::Hour, Layout::Two)),
        b'I' => row(0, Shows::Alternative(Quantity::HalfDayHour, Layout::Two)),
        b'm' => row(0, Shows::Alternative(Quantity::Month, Layout::Two)),
        b'M' => row(0, Shows::Alternative(Quantity::Minute, Layout::Two)),
        b'S' => row(0, Shows::Alternative(Quantity::Second, Layout::Two)),
        b'u' => row(0, Shows::Alternative(Quantity::IsoWeekday, Layout::Bare)),
        b'U' => row(0, Shows::Alternative(Quantity::SundayWeek, Layout::Two)),
        b'V' => row(0, Shows::Alternative(Quantity::IsoWeek, Layout::Two)),
        b'w' => row(0, Shows::Alternative(Quantity::Weekday, Layout::Bare)),
        b'W' => row(0, Shows::Alternative(Quantity::MondayWeek, Layout::Two)),
        b'y' => row(0, Shows::Alternative(Quantity::YearOfCentury, Layout::Two)),
        _ => None,
    }
}

/// The conversion of a letter behind a modifier (`E`, `O` or 0), if there is one.
#[tactic(auto, unfolding(crate::specs::Conversions::conversion))]
#[inline(always)]
pub fn conversion_of(modifier: u8, letter: u8) -> Option<TimeConversion>
    ensures { result ≡ conversion modifier letter }
{
    match modifier {
        0 => plain_conversion(letter),
        b'E' => era_conversion(letter),
        b'O' => digit_conversion(letter),
        _ => None,
    }
}
