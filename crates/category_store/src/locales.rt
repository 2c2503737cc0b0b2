//! The compiled locales of a library.

ghost use Rattle.std.specs.Prelude.{◌≡◌, ◌++◌, length, map, IfOk};
ghost use Rattle.std.specs.Option.{option_copied};
ghost use Rattle.lc_base.specs.Reading.{Gives};
ghost use Rattle.locale_sources.specs.Seen.{source};
ghost use Rattle.locale_sources.specs.Rows.{given_unless, rows_from};
ghost use Rattle.category_store.specs.Compiled.{locales_of};
ghost use Rattle.category_store.specs.Kept.{locale_in, rows_fault, row_at};
ghost use Rattle.category_store.specs.Locale.{locale_among};

use crate::compiled::Compiled;
use crate::kept::CategoryLists;
use crate::shared::{SharedLocale, add_shared, shared};
use lc_base::{ByCategory, Mask, Place, Reason, TextFault};
use locale_sources::{LocaleRow, Source};
use std::alloc::{AllocError, Global};
use std::marker::Model;
use std::sync::Arc;

/// The numbers under which the categories of the POSIX locale stand.
const POSIX_ENDS: ByCategory<u32> = ByCategory {
    ctype: 0,
    numeric: 0,
    monetary: 0,
    time: 0,
    messages: 0,
};

/// Compiled locales by their numbers. What several of them share stands once, also where they are
/// in different lists.
pub struct Locales {
    locales: Vec<SharedLocale>,
    posix: Arc<CategoryLists>,
    posix_ends: ByCategory<u32>,
}

impl Drop for Locales {
    fn drop(self) {
        let Locales {
            locales: _,
            posix: _,
            posix_ends: _,
        } = self;
    }
}

impl Model for Locales {
    ghost use Rattle.std.specs.Prelude.{List};
    ghost use Rattle.category_store.specs.Locale.{Locale};

    ghost Value = { List Locale };

    ghost use Rattle.std.specs.Prelude.{◌≡◌};
    ghost use Rattle.category_store.specs.Kept.{posix_numbers};

    ghost view = { λ l. l.locales.items };

    ghost invariant = { λ l. l.posix_ends ≡ posix_numbers };
}

impl Locales {
    /// Compiles the categories of sources, whose locales are these.
    ///
    /// The refusal is the first fault of the categories, by locale in their order and in a locale in
    /// the order of `Category`.
    pub fn compile(
        alloc: Global,
        sources: &[Source<'_>],
        rows: Vec<LocaleRow>,
    ) -> Result<Locales, TextFault>
        requires { let S = map source sources.now in rows.items ≡ rows_from S 1 S }
        ensures { Gives (λ l. l) result (locales_of (map source sources.now)) }
    {
        let kept = CategoryLists::read(alloc, sources)?;
        let fault = rows_fault(&kept, rows.as_slice());
        let locales = Locales::of(alloc, rows.as_slice(), kept)?;
        made_unless(fault, locales)
    }

    /// The locales of rows, whose categories are among those that are kept.
    fn of(alloc: Global, rows: &[LocaleRow], kept: CategoryLists) -> Result<Locales, AllocError>
        ensures { IfOk result (λ l. l ≡ map (locale_in kept) rows.now) }
    {
        let posix = Arc::new(alloc, kept)?;
        let locales = shared(alloc, rows, &posix)?;
        Ok(Locales {
            locales,
            posix,
            posix_ends: POSIX_ENDS,
        })
    }

    /// The locales of one list, and behind them those of another. Their names are copied, and what
    /// is compiled is shared: it lasts as long as one of the lists in which it stands.
    pub fn joined(alloc: Global, first: &Locales, second: &Locales) -> Result<Locales, AllocError>
        ensures { IfOk result (λ l. l ≡ first.now ++ second.now) }
    {
        let posix = Arc::try_clone(&first.posix)?;
        let mut locales = Vec::new(alloc);
        add_shared(alloc, &mut locales, first.locales.as_slice())?;
        add_shared(alloc, &mut locales, second.locales.as_slice())?;
        Ok(Locales {
            locales,
            posix,
            posix_ends: POSIX_ENDS,
        })
    }

    /// The number of locales.
    pub fn len(&self) -> usize
        ensures { result ≡ length self.now }
    {
        self.locales.len()
    }

    /// The compiled locale with a number; 0, and a number that no locale has, are the POSIX locale.
    pub fn get(&self, number: u32) -> Compiled<'_>
        ensures { result ≡ locale_among self.now number }
    {
        match locale_at(self.locales.as_slice(), number) {
            Some(locale) => locale.compiled(),
            None => Compiled::of(b"C", Mask::all(), &self.posix, &self.posix_ends),
        }
    }
}

/// What was made, unless there is a fault.
fn made_unless<T: Drop>(fault: Option<(Place, Reason)>, made: T) -> Result<T, TextFault>
    ensures { Gives (λ x. x) result (given_unless fault made) }
{
    match fault {
        Some((place, reason)) => Err(TextFault::At(place, reason)),
        None => Ok(made),
    }
}

/// The first fault of rows.
fn rows_fault(kept: &CategoryLists, rows: &[LocaleRow]) -> Option<(Place, Reason)>
    ensures { result ≡ rows_fault kept.now rows.now }
{
    for row in rows {
        if let Some(fault) = kept.fault(&row.ends) {
            return Some(fault);
        }
    }
    None
}

/// The locale with a number, from 1.
fn locale_at(locales: &[SharedLocale], number: u32) -> Option<&SharedLocale>
    ensures { option_copied result ≡ row_at locales.now number }
{
    if number == 0 {
        return None;
    }
    locales.get(number as usize - 1)
}
