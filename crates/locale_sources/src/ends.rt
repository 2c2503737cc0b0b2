//! Where the copies of categories end, and the faults of copies.

ghost use Rattle.std.specs.Prelude.{◌≡◌, ◌+◌, ◌<◌, ◌≤◌, ◌^◌, length, map, IfOk};
ghost use Rattle.std.specs.List.{range_with_len};
ghost use Rattle.std.specs.Option.{option_copied};
ghost use Rattle.locale_sources.specs.Seen.{source};
ghost use Rattle.locale_sources.specs.Copies.{locale_numbers, last, is_copy, is_cycle, end_of, section_fault, sections_fault, copy_fault};

use crate::copies::{steps, target};
use crate::table::{led, repeated};
use crate::{Source, section_at};
use keywords::{Body, Section};
use lc_base::{ByCategory, ByName, Category, Place, Reason};
use std::alloc::{AllocError, Global};
use std::marker::Model;

/// Sources, and where the copies end that begin in each of them, category by category.
pub struct CopyEnds<'a> {
    sources: &'a [Source<'a>],
    locales: &'a ByName<u32>,
    ends: ByCategory<Vec<Option<u32>>>,
}

impl<'a> Drop for CopyEnds<'a> {
    fn drop(self) {
        let CopyEnds {
            sources: _,
            locales: _,
            ends: _,
        } = self;
    }
}

impl<'a> Model for CopyEnds<'a> {
    ghost use Rattle.std.specs.Prelude.{List, map};
    ghost use Rattle.locale_sources.specs.Sources.{Source};
    ghost use Rattle.locale_sources.specs.Seen.{source};
    ghost use Rattle.locale_sources.specs.Ends.{AreFollowed};

    ghost Value = { List Source };

    ghost view = { λ e. map source e.sources.now };

    ghost invariant = { λ e. AreFollowed (map source e.sources.now) e.locales.now e.ends };
}

impl<'a> CopyEnds<'a> {
    /// The ends of the copies of sources.
    pub fn of(
        alloc: Global,
        sources: &'a [Source<'a>],
        locales: &'a ByName<u32>,
    ) -> Result<CopyEnds<'a>, AllocError>
        requires known { locales.now ≡ locale_numbers (map source sources.now) }
        requires few { length sources.now < 2 ^ 31 }
        ensures { IfOk result (λ e. e ≡ map source sources.now) }
    {
        let ends = ByCategory {
            ctype: ends_of(alloc, sources, locales, Category::Ctype)?,
            numeric: ends_of(alloc, sources, locales, Category::Numeric)?,
            monetary: ends_of(alloc, sources, locales, Category::Monetary)?,
            time: ends_of(alloc, sources, locales, Category::Time)?,
            messages: ends_of(alloc, sources, locales, Category::Messages)?,
        };
        Ok(CopyEnds {
            sources,
            locales,
            ends,
        })
    }

    /// The sources.
    pub fn sources(&self) -> &'a [Source<'a>]
        ensures are { map source result.now ≡ self.now }
        ensures count { length result.now ≡ length self.now }
        ensures few { length result.now < 2 ^ 31 }
    {
        self.sources
    }

    /// Where the copies of a category end that begin at a number.
    fn last(&self, category: Category, number: u32) -> Option<u32>
        requires { number ≤ length self.now }
        ensures { result ≡ last self.now category number }
    {
        led(self.ends.get(category).as_slice(), number)
    }

    /// The number of the source in which the category of a source is written.
    pub fn end_of(&self, category: Category, number: u32) -> u32
        requires { number ≤ length self.now }
        ensures { result ≡ end_of self.now category number }
    {
        if section_at(self.sources, category, number).is_none() {
            return 0;
        }
        self.last(category, number).unwrap_or(0)
    }

    /// Whether the copies from a number never end.
    fn is_cycle(&self, category: Category, number: u32) -> bool
        requires { number ≤ length self.now }
        ensures { result ≡ is_cycle self.now category number }
    {
        match self.last(category, number) {
            None => false,
            Some(end) => is_copy(section_at(self.sources, category, end)),
        }
    }

    /// The fault of a section of the source with a number.
    fn section_fault(&self, number: u32, section: &Section) -> Option<(Place, Reason)>
        requires { number ≤ length self.now }
        ensures { result ≡ section_fault self.now number section.now }
    {
        let Body::Copy(place, name) = &section.body else {
            return None;
        };
        let category = section.category;
        if target(self.sources, self.locales, category, name.as_bytes()).is_none() {
            return Some((*place, Reason::CopyMissing));
        }
        if self.is_cycle(category, number) {
            return Some((*place, Reason::CopyCycle));
        }
        None
    }

    /// The first fault of the sections of the source with a number.
    fn sections_fault(&self, number: u32, sections: &[Section]) -> Option<(Place, Reason)>
        requires { number ≤ length self.now }
        ensures { result ≡ sections_fault self.now number sections.now }
    {
        for section in sections {
            if let Some(fault) = self.section_fault(number, section) {
                return Some(fault);
            }
        }
        None
    }

    /// The first fault of the copies, by place.
    pub fn copy_fault(&self) -> Option<(Place, Reason)>
        ensures { result ≡ copy_fault self.now }
    {
        let sources = self.sources();
        let mut number = 0;
        for source in sources {
            number += 1;
            let sections = source.sections.as_slice();
            if let Some(fault) = self.sections_fault(number, sections) {
                return Some(fault);
            }
        }
        None
    }
}

/// Where the copies of a category end that begin at each number.
fn ends_of(
    alloc: Global,
    sources: &[Source<'_>],
    locales: &ByName<u32>,
    category: Category,
) -> Result<Vec<Option<u32>>, AllocError>
    requires known { locales.now ≡ locale_numbers (map source sources.now) }
    requires few { length sources.now < 2 ^ 31 }
    ensures { IfOk result (λ v. v.items ≡ map (last (map source sources.now) category) (range_with_len 0 (length sources.now + 1))) }
{
    let steps = steps(alloc, sources, locales, category)?;
    repeated(alloc, steps.as_slice(), sources.len())
}

/// Whether a section copies.
fn is_copy(section: Option<&Section>) -> bool
    ensures { result ≡ is_copy (option_copied section.entry) }
{
    match section {
        None => false,
        Some(section) => match &section.body {
            Body::Copy(_, _) => true,
            Body::Entries(_) => false,
        },
    }
}
