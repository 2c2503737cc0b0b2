//! A compiled locale that shares its categories with others.

ghost use Rattle.std.specs.Prelude.{◌≡◌, ◌++◌, map, IfOk, OnOk};
ghost use Rattle.std.specs.Arc.{arc_value};
ghost use Rattle.category_store.specs.Kept.{locale_in};

use crate::compiled::Compiled;
use crate::kept::CategoryLists;
use locale_sources::LocaleRow;
use std::alloc::{AllocError, Global};
use std::marker::Model;
use std::sync::Arc;

/// A compiled locale. The last of those that share categories gives them up.
pub struct SharedLocale {
    row: LocaleRow,
    kept: Arc<CategoryLists>,
}

impl Drop for SharedLocale {
    fn drop(self) {
        let SharedLocale { row: _, kept: _ } = self;
    }
}

impl Model for SharedLocale {
    ghost use Rattle.std.specs.Arc.{arc_value};
    ghost use Rattle.category_store.specs.Locale.{Locale};
    ghost use Rattle.category_store.specs.Kept.{locale_in};

    ghost Value = { Locale };

    ghost view = { λ l. locale_in (arc_value l.kept) l.row };
}

impl SharedLocale {
    /// The locale of a row, whose categories are among those that are kept. Its name is copied.
    fn of(
        alloc: Global,
        row: &LocaleRow,
        kept: &Arc<CategoryLists>,
    ) -> Result<SharedLocale, AllocError>
        ensures { IfOk result (λ l. l ≡ locale_in (arc_value kept.now) row.now) }
    {
        let row = row.again(alloc)?;
        let kept = Arc::try_clone(kept)?;
        Ok(SharedLocale { row, kept })
    }

    /// The locale once more, with a copy of its name. Nothing is compiled.
    fn again(&self, alloc: Global) -> Result<SharedLocale, AllocError>
        ensures { IfOk result (λ l. l ≡ self.now) }
    {
        SharedLocale::of(alloc, &self.row, &self.kept)
    }

    /// The locale's name and categories.
    pub fn compiled(&self) -> Compiled<'_>
        ensures { result ≡ self.now }
    {
        let row = &self.row;
        Compiled::of(row.name.as_bytes(), row.available, &self.kept, &row.ends)
    }
}

/// The locales of rows, whose categories are among those that are kept.
pub fn shared(
    alloc: Global,
    rows: &[LocaleRow],
    kept: &Arc<CategoryLists>,
) -> Result<Vec<SharedLocale>, AllocError>
    ensures { IfOk result (λ v. v.items ≡ map (locale_in (arc_value kept.now)) rows.now) }
{
    let mut locales = Vec::new(alloc);
    for row in rows {
        locales.push(SharedLocale::of(alloc, row, kept)?)?;
    }
    Ok(locales)
}

/// Adds other locales behind locales.
pub fn add_shared(
    alloc: Global,
    locales: &mut Vec<SharedLocale>,
    others: &[SharedLocale],
) -> Result<(), AllocError>
    ensures { OnOk result (locales.new.items ≡ locales.old.items ++ others.now) }
{
    for other in others {
        locales.push(other.again(alloc)?)?;
    }
    Ok(())
}
