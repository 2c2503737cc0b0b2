//! What the conversions of a format read (XSH strptime).

ghost use Rattle.std.specs.Prelude.{◌≡◌, ◌≤◌, option_map};
ghost use Rattle.std.specs.Option.{option_copied};
ghost use Rattle.strptime_fields.specs.Items.{most_digits, first_row, item, is_white, byte_item, form_text, format_for};

use time_cat::{Time, TimeText};

/// What a number or a name says, other than the day of the year and the year.
#[derive(Clone, Copy)]
pub enum Kind {
    Day,
    Month,
    Weekday,
    Hour,
    /// The hour of a half day, from 1 to 12.
    HalfDayHour,
    Minute,
    Second,
    Century,
    YearOfCentury,
    /// The half of the day, 0 before noon and 1 from noon on.
    HalfDay,
    /// A week of the year, which is not kept.
    Week,
}

/// How many digits a number may have.
#[derive(Clone, Copy)]
pub enum Digits {
    One,
    Two,
    Three,
    Four,
}

/// Names of the locale.
#[derive(Clone, Copy)]
pub enum Names {
    Weekdays,
    Months,
    HalfDays,
}

/// A format whose items stand in the place of an item.
#[derive(Clone, Copy)]
pub enum Form {
    SlashedDate,
    ShortTime,
    FullTime,
    /// A format of the locale.
    Locale(TimeText),
}

/// What is read.
#[derive(Clone, Copy)]
pub enum Item {
    /// White space, perhaps none.
    White,
    /// This byte.
    Sign(u8),
    /// A number of so many digits at most, from one bound to another.
    Number(Kind, Digits, u8, u8),
    /// The day of the year, from 1.
    YearDay(Digits, u16, u16),
    Year(Digits, u16, u16),
    /// The longest of the names that fit.
    Name(Names),
    /// The items of a format.
    Format(Form),
}

/// The conversions, each with its letter and what it reads.
const ITEMS: [(u8, Item); 30] = [
    (b'a', Item::Name(Names::Weekdays)),
    (b'A', Item::Name(Names::Weekdays)),
    (b'b', Item::Name(Names::Months)),
    (b'B', Item::Name(Names::Months)),
    (b'c', Item::Format(Form::Locale(TimeText::DateTime))),
    (b'C', Item::Number(Kind::Century, Digits::Two, 0, 99)),
    (b'd', Item::Number(Kind::Day, Digits::Two, 1, 31)),
    (b'D', Item::Format(Form::SlashedDate)),
    (b'e', Item::Number(Kind::Day, Digits::Two, 1, 31)),
    (b'h', Item::Name(Names::Months)),
    (b'H', Item::Number(Kind::Hour, Digits::Two, 0, 23)),
    (b'I', Item::Number(Kind::HalfDayHour, Digits::Two, 1, 12)),
    (b'j', Item::YearDay(Digits::Three, 1, 366)),
    (b'm', Item::Number(Kind::Month, Digits::Two, 1, 12)),
    (b'M', Item::Number(Kind::Minute, Digits::Two, 0, 59)),
    (b'n', Item::White),
    (b'p', Item::Name(Names::HalfDays)),
    (b'r', Item::Format(Form::Locale(TimeText::HalfDayClock))),
    (b'R', Item::Format(Form::ShortTime)),
    (b'S', Item::Number(Kind::Second, Digits::Two, 0, 60)),
    (b't', Item::White),
    (b'T', Item::Format(Form::FullTime)),
    (b'U', Item::Number(Kind::Week, Digits::Two, 0, 53)),
    (b'w', Item::Number(Kind::Weekday, Digits::One, 0, 6)),
    (b'W', Item::Number(Kind::Week, Digits::Two, 0, 53)),
    (b'x', Item::Format(Form::Locale(TimeText::Date))),
    (b'X', Item::Format(Form::Locale(TimeText::Clock))),
    (b'y', Item::Number(Kind::YearOfCentury, Digits::Two, 0, 99)),
    (b'Y', Item::Year(Digits::Four, 0, 9999)),
    (b'%', Item::Sign(b'%')),
];

impl Digits {
    ghost use Rattle.std.specs.Prelude.{◌≡◌, ◌≤◌};
    ghost use Rattle.strptime_fields.specs.Items.{most_digits};

    /// The greatest number of digits.
    pub fn most(self) -> usize
        ensures is { result ≡ most_digits self }
        ensures few { result ≤ 4 }
    {
        match self {
            Digits::One => 1,
            Digits::Two => 2,
            Digits::Three => 3,
            Digits::Four => 4,
        }
    }
}

/// The first row of a letter.
fn first_row(rows: &[(u8, Item)], letter: u8) -> Option<(u8, Item)>
    ensures { result ≡ first_row rows.now letter }
{
    rows.iter().copied().find(|row| row.0 == letter)
}

/// The item of a letter behind a modifier (`E`, `O` or 0), if there is one.
#[tactic(auto, unfolding(crate::specs::Items::item))]
pub fn item_of(modifier: u8, letter: u8) -> Option<Item>
    ensures { result ≡ item modifier letter }
{
    if modifier != 0 {
        return None;
    }
    match first_row(&ITEMS, letter) {
        None => None,
        Some((_, item)) => Some(item),
    }
}

/// Whether a byte is white space.
pub fn is_white(byte: u8) -> bool
    ensures { result ≡ is_white byte }
{
    byte == b' ' || (9 <= byte && byte <= 13)
}

/// The item of a byte of a format that stands for itself.
pub fn byte_item(byte: u8) -> Item
    ensures { result ≡ byte_item byte }
{
    if is_white(byte) {
        Item::White
    } else {
        Item::Sign(byte)
    }
}

/// The format of a form.
fn form_text(t: &Time, form: Form) -> &[u8]
    ensures { result.now ≡ form_text t.now form }
{
    match form {
        Form::SlashedDate => b"%m/%d/%y",
        Form::ShortTime => b"%H:%M",
        Form::FullTime => b"%H:%M:%S",
        Form::Locale(key) => t.text(key),
    }
}

/// The format for which an item stands, if it stands for one.
pub fn format_for(t: &Time, item: Item) -> Option<&[u8]>
    ensures { option_copied result ≡ format_for t.now item }
{
    match item {
        Item::Format(form) => Some(form_text(t, form)),
        Item::White
        | Item::Sign(_)
        | Item::Number(_, _, _, _)
        | Item::YearDay(_, _, _)
        | Item::Year(_, _, _)
        | Item::Name(_) => None,
    }
}
