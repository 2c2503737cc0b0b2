//! Locales by the numbers of the sources in which their categories are written.

ghost use Rattle.std.specs.Prelude.{◌≡◌, ◌<◌, ◌≤◌, ◌^◌, length, map, IfOk};
ghost use Rattle.lc_base.specs.Reading.{Gives};
ghost use Rattle.locale_sources.specs.Seen.{source};
ghost use Rattle.locale_sources.specs.Copies.{locale_numbers};
ghost use Rattle.locale_sources.specs.Rows.{available, bit_at, ends_at, rows_from, rows_of};

use crate::ends::CopyEnds;
use crate::{Source, section_at};
use lc_base::{ByCategory, ByName, ByteText, Category, Mask, TextFault};
use std::alloc::{AllocError, Global};

/// A locale: its name, the categories that it has, and where each of them is written.
pub struct LocaleRow {
    pub name: ByteText,
    pub available: Mask,
    pub ends: ByCategory<u32>,
}

impl Drop for LocaleRow {
    fn drop(self) {
        let LocaleRow {
            name: _,
            available: _,
            ends: _,
        } = self;
    }
}

impl LocaleRow {
    /// The same locale once more. Its name is copied.
    pub fn again(&self, alloc: Global) -> Result<LocaleRow, AllocError>
        ensures { IfOk result (λ r. r ≡ self.now) }
    {
        let ends = &self.ends;
        Ok(LocaleRow {
            name: ByteText::of(alloc, self.name.as_bytes())?,
            available: self.available,
            ends: ByCategory {
                ctype: ends.ctype,
                numeric: ends.numeric,
                monetary: ends.monetary,
                time: ends.time,
                messages: ends.messages,
            },
        })
    }
}

/// The bit of a category that a source has, else 0.
fn bit_at(sources: &[Source<'_>], number: u32, category: Category) -> u32
    ensures { result ≡ bit_at (map source sources.now) number category }
{
    match section_at(sources, category, number) {
        Some(_) => category.bit(),
        None => 0,
    }
}

/// The categories that a source has.
fn available(sources: &[Source<'_>], number: u32) -> Mask
    ensures { result ≡ available (map source sources.now) number }
{
    let bits = bit_at(sources, number, Category::Ctype)
        + bit_at(sources, number, Category::Numeric)
        + bit_at(sources, number, Category::Monetary)
        + bit_at(sources, number, Category::Time)
        + bit_at(sources, number, Category::Messages);
    Mask::of_bits(bits).unwrap()
}

/// The numbers of the sources in which the categories of a source are written.
fn ends_at(ends: &CopyEnds<'_>, number: u32) -> ByCategory<u32>
    requires { number ≤ length ends.now }
    ensures { result ≡ ends_at ends.now number }
{
    ByCategory {
        ctype: ends.end_of(Category::Ctype, number),
        numeric: ends.end_of(Category::Numeric, number),
        monetary: ends.end_of(Category::Monetary, number),
        time: ends.end_of(Category::Time, number),
        messages: ends.end_of(Category::Messages, number),
    }
}

/// The locale of a source with a number.
fn row_of(
    alloc: Global,
    ends: &CopyEnds<'_>,
    number: u32,
    name: &[u8],
) -> Result<LocaleRow, AllocError>
    requires { number ≤ length ends.now }
    ensures name { IfOk result (λ r. r.name ≡ name.now) }
    ensures available { IfOk result (λ r. r.available ≡ available ends.now number) }
    ensures ends { IfOk result (λ r. r.ends ≡ ends_at ends.now number) }
{
    Ok(LocaleRow {
        name: ByteText::of(alloc, name)?,
        available: available(ends.sources(), number),
        ends: ends_at(ends, number),
    })
}

/// The locales of sources whose copies end.
fn rows(alloc: Global, ends: &CopyEnds<'_>) -> Result<Vec<LocaleRow>, AllocError>
    ensures { IfOk result (λ v. v.items ≡ rows_from ends.now 1 ends.now) }
{
    let sources = ends.sources();
    let mut rows = Vec::new(alloc);
    let mut number = 0;
    for source in sources {
        number += 1;
        rows.push(row_of(alloc, ends, number, source.name)?)?;
    }
    Ok(rows)
}

/// The locales of sources, in their order.
///
/// The refusal is the first fault of their copies, by place: `CopyMissing` where no locale has the
/// name, or the one that has it lacks the category, and `CopyCycle` where the copies never end.
pub fn read_rows(
    alloc: Global,
    sources: &[Source<'_>],
    locales: &ByName<u32>,
) -> Result<Vec<LocaleRow>, TextFault>
    requires known { locales.now ≡ locale_numbers (map source sources.now) }
    requires few { length sources.now < 2 ^ 31 }
    ensures { Gives (λ v. v.items) result (rows_of (map source sources.now)) }
{
    let ends = CopyEnds::of(alloc, sources, locales)?;
    match ends.copy_fault() {
        Some((place, reason)) => Err(TextFault::At(place, reason)),
        None => Ok(rows(alloc, &ends)?),
    }
}
