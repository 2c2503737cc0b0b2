//! The category `LC_TIME` (XBD 7.3.5).

ghost use Rattle.std.specs.Prelude.{◌≡◌, ◌<◌, ◌≤◌, ◌≤ℤ◌, pos, Ok, IfOk, IfSome, slice_get, option_map, unsigned_abs};
ghost use Rattle.std.specs.Option.{option_copied};
ghost use Rattle.lc_base.specs.Reading.{Gives};
ghost use Rattle.time_cat.specs.Eras.{Hit, era};
ghost use Rattle.time_cat.specs.Faults.{checked, IsFormat};
ghost use Rattle.time_cat.specs.TimeValues.{format_text, rank_of, text_at, joined, IsWhole};
ghost use Rattle.time_cat.specs.Values.{values_of, posix_values, time_values};

use crate::conversion::TimeText;
use crate::faults::check;
use crate::name::Name;
use crate::segment::{Date, Segment, segment_at};
use crate::texts::{FormatTexts, NameLists, digits_in, eras_in, formats_in, name_at, names_in};
use keywords::Entry;
use lc_base::{ByteText, List, TextFault};
use std::alloc::{AllocError, Global};
use std::marker::Model;

/// The values of the keywords of `LC_TIME`, of the locale or else of the POSIX locale.
pub struct Time {
    names: NameLists,
    formats: FormatTexts,
    era: List<Segment>,
    era_list: ByteText,
    alt_digits: List<ByteText>,
    alt_list: ByteText,
}

impl Drop for Time {
    fn drop(self) {
        let Time {
            names: _,
            formats: _,
            era: _,
            era_list: _,
            alt_digits: _,
            alt_list: _,
        } = self;
    }
}

impl Model for Time {
    ghost use Rattle.time_cat.specs.TimeValues.{TimeValues};

    ghost Value = { TimeValues };

    ghost use Rattle.time_cat.specs.Kept.{values, IsKept};

    ghost view = { values };

    ghost invariant = { IsKept };
}

/// The era of a date.
#[derive(Clone, Copy)]
pub struct EraHit<'a> {
    /// The year in the era, which may be below 0.
    pub year: i32,
    /// The era's name.
    pub name: &'a [u8],
    /// The format of `%EY`.
    pub format: &'a [u8],
}

impl Time {
    ghost use Rattle.time_cat.specs.Hits.{hit};

    /// The category that a keyword list defines. A keyword that is absent has its POSIX value.
    ///
    /// Refused at the first broken rule: the lines in their order, in a line `WrongCount` at the
    /// keyword and then the operands from left to right, in an operand `TooManyDigits`,
    /// `OverLimit` of a list's bytes, `BadEra`, `BadFormat`, `OverLimit` of a format's
    /// conversions, and `FormatRank`.
    pub fn build(alloc: Global, entries: &List<Entry>) -> Result<Time, TextFault>
        ensures { Gives (λ t. t) result (time_values entries.now) }
    {
        check(entries.as_slice())?;
        Ok(Time::made(alloc, entries.as_slice())?)
    }

    /// The category of the POSIX locale.
    pub fn posix(alloc: Global) -> Result<Time, AllocError>
        ensures { IfOk result (λ t. t ≡ posix_values) }
    {
        Time::made(alloc, &[])
    }

    /// The category of a list that breaks no rule.
    fn made(alloc: Global, list: &[Entry]) -> Result<Time, AllocError>
        requires { checked list.now ≡ Ok tt }
        ensures { IfOk result (λ t. t ≡ values_of list.now) }
    {
        let names = names_in(alloc, list)?;
        let formats = formats_in(alloc, list)?;
        let (era, era_list) = eras_in(alloc, list)?;
        let (alt_digits, alt_list) = digits_in(alloc, list)?;
        Ok(Time {
            names,
            formats,
            era,
            era_list,
            alt_digits,
            alt_list,
        })
    }

    /// The values obey the rules of the category: the lists have their numbers of names, and each
    /// format is of its rank.
    pub fn rules_hold(&self)
        ensures { IsWhole self.now }
    {
        let _formats = &self.formats;
    }

    /// A format. It is of its rank: each `%` begins a conversion, there are at most 16, and all are
    /// of lower rank.
    pub fn text(&self, key: TimeText) -> &[u8]
        ensures is { result.now ≡ format_text self.now key }
        ensures format { IsFormat (rank_of key) result.now }
    {
        match key {
            TimeText::DateTime => self.formats.d_t_fmt.as_bytes(),
            TimeText::Date => self.formats.d_fmt.as_bytes(),
            TimeText::Clock => self.formats.t_fmt.as_bytes(),
            TimeText::HalfDayClock => self.formats.t_fmt_ampm.as_bytes(),
            TimeText::EraDateTime => self.formats.era_d_t_fmt.as_bytes(),
            TimeText::EraDate => self.formats.era_d_fmt.as_bytes(),
            TimeText::EraClock => self.formats.era_t_fmt.as_bytes(),
        }
    }

    /// The short name of a day of the week, from 0 on Sunday.
    pub fn abday(&self, i: u8) -> &Name
        requires { i < 7 }
        ensures { result.now ≡ text_at self.now.names.abday i }
    {
        name_at(self.names.abday.as_slice(), i as usize)
    }

    /// The name of a day of the week, from 0 on Sunday.
    pub fn day(&self, i: u8) -> &Name
        requires { i < 7 }
        ensures { result.now ≡ text_at self.now.names.day i }
    {
        name_at(self.names.day.as_slice(), i as usize)
    }

    /// The short name of a month, from 0.
    pub fn abmon(&self, i: u8) -> &Name
        requires { i < 12 }
        ensures { result.now ≡ text_at self.now.names.abmon i }
    {
        name_at(self.names.abmon.as_slice(), i as usize)
    }

    /// The name of a month, from 0.
    pub fn mon(&self, i: u8) -> &Name
        requires { i < 12 }
        ensures { result.now ≡ text_at self.now.names.mon i }
    {
        name_at(self.names.mon.as_slice(), i as usize)
    }

    /// What stands for the half of the day, before noon and from noon on.
    pub fn am_pm(&self, i: u8) -> &Name
        requires { i < 2 }
        ensures { result.now ≡ text_at self.now.names.am_pm i }
    {
        name_at(self.names.am_pm.as_slice(), i as usize)
    }

    /// The era of a date: that of the first segment that contains it, if one does. The segments are
    /// gone over once.
    pub fn era_at(&self, year: i32, mon: u8, mday: u8) -> Option<EraHit<'_>>
        requires from { pos 1 ≤ℤ year }
        requires to { year ≤ℤ pos 9999 }
        requires month { mon ≤ 12 }
        requires day { mday ≤ 31 }
        ensures is { option_map hit result ≡ era self.now.era (unsigned_abs year) mon mday }
        ensures format { IfSome result (λ found. IsFormat 1 found.format.now) }
    {
        let year = 10000 + year as u16;
        let date = Date {
            year,
            month: u16::from(mon),
            day: u16::from(mday),
        };
        let segment = segment_at(self.era.as_slice(), date)?;
        Some(EraHit {
            year: segment.year_of(year),
            name: segment.name.as_bytes(),
            format: segment.format.as_bytes(),
        })
    }

    /// The text that stands for a number, if the list reaches so far.
    pub fn alt_digit(&self, i: u32) -> Option<&[u8]>
        ensures { option_copied result ≡ slice_get self.now.alt_digits i }
    {
        let text = self.alt_digits.as_slice().get(i as usize)?;
        Some(text.as_bytes())
    }

    /// The segments of `era`, joined by `;`.
    pub fn era_list(&self) -> &[u8]
        ensures { result.now ≡ self.now.era_list }
    {
        self.era_list.as_bytes()
    }

    /// The texts of `alt_digits`, joined by `;`.
    pub fn alt_list(&self) -> &[u8]
        ensures { result.now ≡ joined self.now.alt_digits }
    {
        self.alt_list.as_bytes()
    }
}
