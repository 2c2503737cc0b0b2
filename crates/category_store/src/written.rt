//! What sources write for a category.

ghost use Rattle.std.specs.Prelude.{◌≡◌, option_map};
ghost use Rattle.locale_sources.specs.Seen.{source};
ghost use Rattle.category_store.specs.SeenWritten.{written};
ghost use Rattle.category_store.specs.Written.{written_for};

use charset::Charset;
use keywords::{Body, Entry};
use lc_base::{Category, List, Place};
use locale_sources::{Source, section_of};

/// A keyword list, with the place of its section's header and the charset of its source.
#[derive(Clone, Copy)]
pub struct Written<'a> {
    pub charset: &'a Charset,
    pub place: Place,
    pub entries: &'a List<Entry>,
}

/// The keyword list that a source writes for a category; a section that copies has none.
pub fn written_for<'a>(category: Category, from: &'a Source<'_>) -> Option<Written<'a>>
    ensures { option_map written result ≡ written_for category (source from.now) }
{
    let section = section_of(from.sections.as_slice(), category)?;
    match &section.body {
        Body::Copy(_, _) => None,
        Body::Entries(entries) => Some(Written {
            charset: from.charset,
            place: section.place,
            entries,
        }),
    }
}
