//! The sections of sources, by their numbers.

ghost use Rattle.std.specs.Prelude.{◌≡◌, map};
ghost use Rattle.std.specs.Option.{option_copied};
ghost use Rattle.locale_sources.specs.Seen.{source};
ghost use Rattle.locale_sources.specs.Sections.{section_of, section_at};

use crate::source::Source;
use keywords::Section;
use lc_base::Category;

/// The section of a category.
pub fn section_of(sections: &[Section], category: Category) -> Option<&Section>
    ensures { option_copied result ≡ section_of category sections.now }
{
    for section in sections {
        if section.category.bit() == category.bit() {
            return Some(section);
        }
    }
    None
}

/// The section of a category in the source with a number: the i-th by place has i, and 0 is the
/// POSIX locale.
pub fn section_at<'a>(
    sources: &'a [Source<'_>],
    category: Category,
    number: u32,
) -> Option<&'a Section>
    ensures { option_copied result ≡ section_at (map source sources.now) category number }
{
    if number == 0 {
        return None;
    }
    let found = sources.get(number as usize - 1)?;
    section_of(found.sections.as_slice(), category)
}
