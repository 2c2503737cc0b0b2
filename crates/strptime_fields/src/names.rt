//! Names in a text.

ghost use Rattle.std.specs.Prelude.{◌≡◌, ◌+◌, ◌<◌, ◌≤◌, option_map};
ghost use Rattle.std.specs.Option.{option_copied};
ghost use Rattle.strptime_fields.specs.Longest.{AreLongest};
ghost use Rattle.strptime_fields.specs.Reading.{Value, behind, or_name, first_value, short_name, full_name, name_count, longest_of, longest};

use crate::item::Names;
use time_cat::Time;

/// The value of a name at the front of a text, and what is left behind it.
type Found<'a> = Option<(u8, &'a [u8])>;

/// What is left behind a name, where ASCII letters of either case are equal.
fn behind<'a>(mut name: &[u8], mut left: &'a [u8]) -> Option<&'a [u8]>
    ensures { option_copied result ≡ behind name.entry.now left.entry.now }
{
    while let [letter, letters @ ..] = name {
        match left {
            [byte, bytes @ ..] if letter.eq_ignore_ascii_case(byte) => left = bytes,
            _ => return None,
        }
        name = letters;
    }
    Some(left)
}

/// A name, if it stands at the front and is longer than the best one so far.
fn or_name<'a>(text: &'a [u8], best: Found<'a>, value: u8, name: &[u8]) -> Found<'a>
    ensures { option_map (λ n. (n.0, n.1.now)) result ≡ or_name text.now (option_map (λ n. (n.0, n.1.now)) best.entry) value name.now }
{
    let left = match best {
        None => text,
        Some((_, left)) => left,
    };
    match behind(name, text) {
        Some(rest) if rest.len() < left.len() => Some((value, rest)),
        _ => best,
    }
}

impl Names {
    ghost use Rattle.std.specs.Prelude.{◌≡◌, ◌≤◌};
    ghost use Rattle.strptime_fields.specs.Reading.{first_value, name_count};

    /// How many there are.
    fn count(self) -> u8
        ensures is { result ≡ name_count self }
        ensures few { result ≤ 12 }
    {
        match self {
            Names::Weekdays => 7,
            Names::Months => 12,
            Names::HalfDays => 2,
        }
    }

    /// The value of the first one.
    fn first_value(self) -> u8
        ensures is { result ≡ first_value self }
        ensures small { result ≤ 1 }
    {
        match self {
            Names::Weekdays | Names::HalfDays => 0,
            Names::Months => 1,
        }
    }
}

/// The short name of an index.
fn short_name(t: &Time, names: Names, i: u8) -> &[u8]
    requires { i < name_count names }
    ensures { result.now ≡ short_name t.now names i }
{
    match names {
        Names::Weekdays => t.abday(i).as_bytes(),
        Names::Months => t.abmon(i).as_bytes(),
        Names::HalfDays => t.am_pm(i).as_bytes(),
    }
}

/// The full name of an index.
fn full_name(t: &Time, names: Names, i: u8) -> &[u8]
    requires { i < name_count names }
    ensures { result.now ≡ full_name t.now names i }
{
    match names {
        Names::Weekdays => t.day(i).as_bytes(),
        Names::Months => t.mon(i).as_bytes(),
        Names::HalfDays => b"",
    }
}

/// The longest of the names that stand at the front of a text, and of several the one with the
/// least index.
#[tactic(auto, unfolding(crate::specs::Reading::longest))]
pub fn longest<'a>(t: &Time, names: Names, text: &'a [u8]) -> Option<(u8, &'a [u8])>
    ensures { option_map (λ n. (n.0, n.1.now)) result ≡ longest t.now names text.now }
{
    let mut best = None;
    for i in 0..names.count() {
        let value = names.first_value() + i;
        best = or_name(text, best, value, short_name(t, names, i));
        best = or_name(text, best, value, full_name(t, names, i));
    }
    best
}

/// The name that is read is the longest of those that stand at the front of a text, and of several
/// of its length the one with the least index.
pub fn longest_names_hold()
    ensures { AreLongest }
{}
