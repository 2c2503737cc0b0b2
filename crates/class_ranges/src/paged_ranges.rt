//! Sets of wide values that are asked by pages.

ghost use Rattle.std.specs.Prelude.{◌≡◌, ◌≤◌, IfOk, IfSome};
ghost use Rattle.class_ranges.specs.Ranges.{covers};

use crate::Ranges;
use crate::alike::{Stretch, stretch_from};
use crate::page::{Page, page_number, page_says};
use std::alloc::{AllocError, Global};
use std::marker::Model;

/// As many pages as have the values up to 10FFFF.
const PAGE_LIMIT: usize = 4352;

/// As many pages are kept for each range at most, so that memory grows with the ranges.
const PAGES_PER_RANGE: usize = 16;

/// A set of wide values, seen as its ranges, with a table of its first pages, and what is said of
/// the values after these.
pub struct PagedRanges {
    ranges: Ranges,
    numbers: Vec<u16>,
    pages: Vec<Page>,
    rest: Stretch,
}

impl Drop for PagedRanges {
    fn drop(self) {
        let PagedRanges {
            ranges: _,
            numbers: _,
            pages: _,
            rest: _,
        } = self;
    }
}

impl Model for PagedRanges {
    ghost use Rattle.std.specs.Prelude.{List, length, ◌*◌};
    ghost use Rattle.class_ranges.specs.Ranges.{Range, covers};
    ghost use Rattle.class_ranges.specs.Pages.{IsPaged, IsAlike};

    ghost Value = { List Range };

    ghost view = { λ p. p.ranges };

    ghost invariant = { λ p. IsPaged p.numbers.items p.pages.items (covers p.ranges) × IsAlike (covers p.ranges) (length p.numbers.items * 256) p.rest.last p.rest.is_in };
}

/// As many pages as a set is given.
fn page_count(ranges: &Ranges) -> usize
    ensures { result ≤ 4352 }
{
    let ranges = ranges.as_slice();
    match ranges.last() {
        None => 0,
        Some(range) => {
            let count = range.1 as usize / 256 + 1;
            count
                .min(PAGE_LIMIT)
                .min(ranges.len().min(PAGE_LIMIT) * PAGES_PER_RANGE)
        }
    }
}

impl PagedRanges {
    /// The set with a table of its pages, up to the last value that it has, but no further than
    /// 10FFFF, and of at most 16 pages for each range.
    pub fn of(alloc: Global, ranges: Ranges) -> Result<PagedRanges, AllocError>
        ensures { IfOk result (λ p. p ≡ ranges) }
    {
        let count = page_count(&ranges);
        let mut numbers = Vec::with_capacity(alloc, count)?;
        let mut pages = Vec::new(alloc);
        let mut stretch = stretch_from(&ranges, 0);
        for page in 0..count {
            let first = page as u32 * 256;
            if first > stretch.last {
                stretch = stretch_from(&ranges, first);
            }
            numbers.push(page_number(&mut pages, &ranges, first, stretch)?)?;
        }
        let rest = stretch_from(&ranges, count as u32 * 256);
        Ok(PagedRanges {
            ranges,
            numbers,
            pages: Vec::from_slice(alloc, &pages)?,
            rest,
        })
    }

    /// The set with no table. Takes no memory.
    pub fn without_pages(alloc: Global, ranges: Ranges) -> PagedRanges
        ensures { result ≡ ranges }
    {
        let rest = stretch_from(&ranges, 0);
        PagedRanges {
            ranges,
            numbers: Vec::new(alloc),
            pages: Vec::new(alloc),
            rest,
        }
    }

    /// The set.
    pub fn ranges(&self) -> &Ranges
        ensures { result.now ≡ self.now }
    {
        &self.ranges
    }

    /// Whether a value is in the set, where its page is in the table or it is alike with the first
    /// one after the table.
    fn tabled(&self, w: u32) -> Option<bool>
        ensures { IfSome result (λ is_in. is_in ≡ covers self.now w) }
    {
        let page = (w / 256) as usize;
        if page < self.numbers.len() {
            page_says(&self.pages, self.numbers[page], w % 256)
        } else if w <= self.rest.last {
            Some(self.rest.is_in)
        } else {
            None
        }
    }

    /// Whether a value is in the set. Takes a few steps in the table and after all ranges, and else
    /// the logarithm of the ranges.
    pub fn contains(&self, w: u32) -> bool
        ensures { result ≡ covers self.now w }
    {
        match self.tabled(w) {
            Some(is_in) => is_in,
            None => self.ranges.contains(w),
        }
    }
}
