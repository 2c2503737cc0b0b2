//! The items of nl_langinfo, and the keywords that they read (XBD <langinfo.h>).

ghost use Rattle.std.specs.Prelude.{◌≡◌};
ghost use Rattle.langinfo.specs.Items.{keyword_of, IsWithin};

use lc_base::Item;
use time_cat::TimeText;

/// A keyword of a category; where it has several operands, with the number of one, from 0.
#[derive(Clone, Copy)]
pub enum Keyword {
    /// `<code_set_name>`: the name of the charset of `LC_CTYPE`.
    CodeSetName,
    /// A format of `LC_TIME`.
    Format(TimeText),
    /// A name of `am_pm`.
    AmPm(u8),
    /// A name of `day`.
    Day(u8),
    /// A name of `abday`.
    Abday(u8),
    /// A name of `mon`.
    Mon(u8),
    /// A name of `abmon`.
    Abmon(u8),
    /// All segments of `era`.
    Era,
    /// All texts of `alt_digits`.
    AltDigits,
    /// `decimal_point` of `LC_NUMERIC`.
    DecimalPoint,
    /// `thousands_sep` of `LC_NUMERIC`.
    ThousandsSep,
    /// `yesexpr` of `LC_MESSAGES`.
    Yesexpr,
    /// `noexpr` of `LC_MESSAGES`.
    Noexpr,
    /// `currency_symbol` of `LC_MONETARY`, with `p_cs_precedes`.
    CurrencySymbol,
}

/// The keyword that an item reads.
#[inline(always)]
pub fn keyword_of(item: Item) -> Keyword
    ensures is { result ≡ keyword_of item }
    ensures within { IsWithin result }
{
    match item {
        Item::Codeset => Keyword::CodeSetName,
        Item::DTFmt => Keyword::Format(TimeText::DateTime),
        Item::DFmt => Keyword::Format(TimeText::Date),
        Item::TFmt => Keyword::Format(TimeText::Clock),
        Item::TFmtAmpm => Keyword::Format(TimeText::HalfDayClock),
        Item::AmStr => Keyword::AmPm(0),
        Item::PmStr => Keyword::AmPm(1),
        Item::Day1 => Keyword::Day(0),
        Item::Day2 => Keyword::Day(1),
        Item::Day3 => Keyword::Day(2),
        Item::Day4 => Keyword::Day(3),
        Item::Day5 => Keyword::Day(4),
        Item::Day6 => Keyword::Day(5),
        Item::Day7 => Keyword::Day(6),
        Item::Abday1 => Keyword::Abday(0),
        Item::Abday2 => Keyword::Abday(1),
        Item::Abday3 => Keyword::Abday(2),
        Item::Abday4 => Keyword::Abday(3),
        Item::Abday5 => Keyword::Abday(4),
        Item::Abday6 => Keyword::Abday(5),
        Item::Abday7 => Keyword::Abday(6),
        Item::Mon1 => Keyword::Mon(0),
        Item::Mon2 => Keyword::Mon(1),
        Item::Mon3 => Keyword::Mon(2),
        Item::Mon4 => Keyword::Mon(3),
        Item::Mon5 => Keyword::Mon(4),
        Item::Mon6 => Keyword::Mon(5),
        Item::Mon7 => Keyword::Mon(6),
        Item::Mon8 => Keyword::Mon(7),
        Item::Mon9 => Keyword::Mon(8),
        Item::Mon10 => Keyword::Mon(9),
        Item::Mon11 => Keyword::Mon(10),
        Item::Mon12 => Keyword::Mon(11),
        Item::Abmon1 => Keyword::Abmon(0),
        Item::Abmon2 => Keyword::Abmon(1),
        Item::Abmon3 => Keyword::Abmon(2),
        Item::Abmon4 => Keyword::Abmon(3),
        Item::Abmon5 => Keyword::Abmon(4),
        Item::Abmon6 => Keyword::Abmon(5),
        Item::Abmon7 => Keyword::Abmon(6),
        Item::Abmon8 => Keyword::Abmon(7),
        Item::Abmon9 => Keyword::Abmon(8),
        Item::Abmon10 => Keyword::Abmon(9),
        Item::Abmon11 => Keyword::Abmon(10),
        Item::Abmon12 => Keyword::Abmon(11),
        Item::Era => Keyword::Era,
        Item::EraDFmt => Keyword::Format(TimeText::EraDate),
        Item::EraDTFmt => Keyword::Format(TimeText::EraDateTime),
        Item::EraTFmt => Keyword::Format(TimeText::EraClock),
        Item::AltDigits => Keyword::AltDigits,
        Item::Radixchar => Keyword::DecimalPoint,
        Item::Thousep => Keyword::ThousandsSep,
        Item::Yesexpr => Keyword::Yesexpr,
        Item::Noexpr => Keyword::Noexpr,
        Item::Crncystr => Keyword::CurrencySymbol,
    }
}
