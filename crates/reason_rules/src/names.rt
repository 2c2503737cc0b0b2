//! The rows of reasons, by their numbers.

ghost use Rattle.std.specs.Prelude.{◌≡◌};
ghost use Rattle.reason_rules.specs.Rows.{row_of, part_row, limit_row};
ghost use Rattle.reason_rules.specs.Table.{name_at, rule_at};

use crate::table::row_at;
use lc_base::{Limit, LinePart, Reason};

/// The number of the row of a reason.
pub fn row_of(reason: Reason) -> u32
    ensures { result ≡ row_of reason }
{
    match reason {
        Reason::BadLine(part) => part_row(part),
        Reason::NoEnd => 4,
        Reason::OverLimit(limit) => limit_row(limit),
        Reason::NameTwice => 23,
        Reason::NoCharmap => 24,
        Reason::NoNative => 25,
        Reason::NoThread => 26,
        Reason::NoLater => 27,
        Reason::BadHeader => 28,
        Reason::BadEncoding => 29,
        Reason::RangeBackward => 30,
        Reason::PortableMoved => 31,
        Reason::WrongOperand => 32,
        Reason::BadEscape => 33,
        Reason::OpenString => 34,
        Reason::OpenName => 35,
        Reason::SectionTwice => 36,
        Reason::UnknownKeyword => 37,
        Reason::KeywordTwice => 38,
        Reason::CopyNotAlone => 39,
        Reason::UnknownCharacter => 40,
        Reason::CopyMissing => 41,
        Reason::CopyCycle => 42,
        Reason::BadClassName => 43,
        Reason::DigitsNotTen => 44,
        Reason::NotCased => 45,
        Reason::Excluded(_, _, _) => 46,
        Reason::EmptyRadix => 47,
        Reason::BadCurrency => 48,
        Reason::BadNumber => 49,
        Reason::WrongCount => 50,
        Reason::BadEra => 51,
        Reason::BadFormat(_) => 52,
        Reason::FormatRank => 53,
        Reason::TooManyDigits => 54,
        Reason::BadMessage => 55,
    }
}

/// The name of the row of a reason.
pub fn name_of(reason: Reason) -> &'static str
    ensures { result.now ≡ name_at (row_of reason) }
{
    match row_at(row_of(reason)) {
        Some(row) => row.name,
        None => "",
    }
}

/// The rule of the row of a reason.
pub fn rule_of_reason(reason: Reason) -> &'static str
    ensures { result.now ≡ rule_at (row_of reason) }
{
    match row_at(row_of(reason)) {
        Some(row) => row.rule,
        None => "",
    }
}

fn part_row(part: LinePart) -> u32
    ensures { result ≡ part_row part }
{
    match part {
        LinePart::Directive => 0,
        LinePart::Command => 2,
        LinePart::Argument => 3,
        LinePart::Thread => 1,
    }
}

fn limit_row(limit: Limit) -> u32
    ensures { result ≡ limit_row limit }
{
    match limit {
        Limit::Locales => 5,
        Limit::Later => 6,
        Limit::Charmaps => 7,
        Limit::Threads => 8,
        Limit::Rounds => 9,
        Limit::Commands => 10,
        Limit::Format => 11,
        Limit::Amounts => 12,
        Limit::Numbers => 13,
        Limit::CommandText => 14,
        Limit::Catalogs => 15,
        Limit::Names => 16,
        Limit::Operands => 17,
        Limit::Text => 18,
        Limit::Texts => 19,
        Limit::Conversions => 20,
        Limit::Message => 21,
        Limit::Messages => 22,
    }
}
