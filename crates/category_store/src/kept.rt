//! Compiled categories, each under the number of the source in which it is written.

ghost use Rattle.std.specs.Prelude.{◌≡◌, Ok, map, option_map, IfOk};
ghost use Rattle.std.specs.Option.{option_copied};
ghost use Rattle.locale_sources.specs.Seen.{source};
ghost use Rattle.category_store.specs.Written.{written_for};
ghost use Rattle.category_store.specs.Kept.{slots, kept, kept_or, value_or, fault_in, kept_of, ends_fault};

use crate::built::Built;
use crate::written::written_for;
use ctype_classes::Ctype;
use lc_base::{ByCategory, Category, Place, Reason, TextFault};
use locale_sources::Source;
use messages_cat::Messages;
use monetary_cat::Monetary;
use numeric_cat::Numeric;
use std::alloc::{AllocError, Global};
use std::marker::Model;
use time_cat::Time;

/// What the keyword lists of one category give, source by source, where there are any.
#[derive(Drop)]
pub struct Slots<T: Built> {
    posix: T,
    slots: Vec<Option<Result<T, (Place, Reason)>>>,
}

impl<T: Built> Model for Slots<T> {
    ghost use Rattle.std.specs.Prelude.{◌≡◌, List, Option};
    ghost use Rattle.lc_base.specs.Reading.{Reads};

    ghost Value = { List (Option (Reads T)) };

    ghost view = { λ s. s.slots.items };

    ghost invariant = { λ s. s.posix ≡ T.posix_value };
}

impl<T: Built> Slots<T> {
    /// Compiles the keyword lists of a category, each once.
    fn read(
        alloc: Global,
        sources: &[Source<'_>],
        category: Category,
    ) -> Result<Slots<T>, AllocError>
        ensures { IfOk result (λ s. s ≡ slots T.gives (map source sources.now) category) }
    {
        let slots = slots_of(alloc, sources, category)?;
        Ok(Slots {
            posix: T::posix(alloc)?,
            slots,
        })
    }

    /// What is kept under a number, from 1.
    fn kept(&self, number: u32) -> Option<&Result<T, (Place, Reason)>>
        ensures { option_copied result ≡ kept self.now number }
    {
        if number == 0 {
            return None;
        }
        self.slots.get(number as usize - 1)?.as_ref()
    }

    /// The category under a number; the POSIX locale's where none is written there.
    pub fn get(&self, number: u32) -> &T
        ensures { result.now ≡ value_or T.posix_value (kept_or T.posix_value self.now number) }
    {
        match self.kept(number) {
            Some(Ok(category)) => category,
            Some(Err(_)) | None => &self.posix,
        }
    }

    /// The fault of the keyword list under a number.
    fn fault(&self, number: u32) -> Option<(Place, Reason)>
        ensures { result ≡ fault_in (kept_or T.posix_value self.now number) }
    {
        match self.kept(number) {
            Some(Err(fault)) => Some(*fault),
            Some(Ok(_)) | None => None,
        }
    }
}

/// What the keyword list of a category gives that a source writes, if it writes one.
fn slot_of<T: Built>(
    alloc: Global,
    from: &Source<'_>,
    category: Category,
) -> Result<Option<Result<T, (Place, Reason)>>, AllocError>
    ensures { IfOk result (λ slot. slot ≡ option_map T.gives (written_for category (source from.now))) }
{
    let Some(list) = written_for(category, from) else {
        return Ok(None);
    };
    match T::build(alloc, list) {
        Ok(built) => Ok(Some(Ok(built))),
        Err(TextFault::At(place, reason)) => Ok(Some(Err((place, reason)))),
        Err(TextFault::Memory) => Err(AllocError),
    }
}

/// What the keyword lists of a category give, source by source.
fn slots_of<T: Built>(
    alloc: Global,
    sources: &[Source<'_>],
    category: Category,
) -> Result<Vec<Option<Result<T, (Place, Reason)>>>, AllocError>
    ensures { IfOk result (λ v. v.items ≡ slots T.gives (map source sources.now) category) }
{
    let mut slots = Vec::new(alloc);
    for source in sources {
        slots.push(slot_of(alloc, source, category)?)?;
    }
    Ok(slots)
}

/// Two things that were made, if both were.
fn both<A: Drop, B: Drop>(
    first: Result<A, AllocError>,
    second: Result<B, AllocError>,
) -> Result<(A, B), AllocError>
    ensures { IfOk result (λ made. (first ≡ Ok made.0) × (second ≡ Ok made.1)) }
{
    match first {
        Ok(first) => match second {
            Ok(second) => Ok((first, second)),
            Err(error) => Err(error),
        },
        Err(error) => Err(error),
    }
}

/// The categories of all sources.
pub struct CategoryLists {
    pub ctype: Slots<Ctype>,
    pub numeric: Slots<Numeric>,
    pub monetary: Slots<Monetary>,
    pub time: Slots<Time>,
    pub messages: Slots<Messages>,
}

impl Drop for CategoryLists {
    fn drop(self) {
        let CategoryLists {
            ctype: _,
            numeric: _,
            monetary: _,
            time: _,
            messages: _,
        } = self;
    }
}

impl CategoryLists {
    /// Compiles what the sources write, each keyword list once.
    pub fn read(alloc: Global, sources: &[Source<'_>]) -> Result<CategoryLists, AllocError>
        ensures { IfOk result (λ k. k ≡ kept_of (map source sources.now)) }
    {
        let ctype = Slots::read(alloc, sources, Category::Ctype);
        let numeric = Slots::read(alloc, sources, Category::Numeric);
        let monetary = Slots::read(alloc, sources, Category::Monetary);
        let time = Slots::read(alloc, sources, Category::Time);
        let messages = Slots::read(alloc, sources, Category::Messages);
        let amounts = both(numeric, monetary);
        let words = both(time, messages);
        match both(ctype, both(amounts, words)) {
            Ok((ctype, ((numeric, monetary), (time, messages)))) => Ok(CategoryLists {
                ctype,
                numeric,
                monetary,
                time,
                messages,
            }),
            Err(error) => Err(error),
        }
    }

    /// The first fault of the categories that are kept under these numbers.
    pub fn fault(&self, ends: &ByCategory<u32>) -> Option<(Place, Reason)>
        ensures { result ≡ ends_fault self.now ends.now }
    {
        self.ctype
            .fault(ends.ctype)
            .or(self.numeric.fault(ends.numeric))
            .or(self.monetary.fault(ends.monetary))
            .or(self.time.fault(ends.time))
            .or(self.messages.fault(ends.messages))
    }
}
