//! Categories that a source lacks.

ghost use Rattle.std.specs.Prelude.{◌≡◌, ◌++◌, IfOk, OnOk};
ghost use Rattle.lc_base.specs.Categories.{categories};
ghost use Rattle.tool_files.specs.Lacking.{has_category, has_section, is_lacking, lacking_among};

use crate::loading::Loaded;
use crate::sections_in;
use keywords::Section;
use lc_base::{CATEGORIES, Category, TextFault};
use std::alloc::{AllocError, Global};

/// Those of these categories of which the first source that was read has no section, each once; none where there is
/// no source, or one that is refused.
pub fn lacking_categories(
    alloc: Global,
    loaded: &Loaded,
    asked: &[Category],
) -> Result<Vec<Category>, AllocError> {
    match loaded.sources.locales.as_slice() {
        [] => Ok(Vec::new(alloc)),
        [first, ..] => match sections_in(alloc, first, &loaded.charset) {
            Ok(sections) => lacking_in(alloc, sections.as_slice(), asked),
            Err(TextFault::At(..)) => Ok(Vec::new(alloc)),
            Err(TextFault::Memory) => Err(AllocError),
        },
    }
}

/// Those of these categories that no section has, each once, in the order of the categories.
fn lacking_in(
    alloc: Global,
    sections: &[Section],
    asked: &[Category],
) -> Result<Vec<Category>, AllocError>
    ensures { IfOk result (λ v. v.items ≡ lacking_among sections.now asked.now categories) }
{
    let mut found = Vec::new(alloc);
    for category in CATEGORIES {
        if is_lacking(sections, asked, category) {
            found.push(category)?;
        }
    }
    Ok(found)
}

fn is_lacking(sections: &[Section], asked: &[Category], category: Category) -> bool
    ensures { result ≡ is_lacking sections.now asked.now category }
{
    has_category(asked, category) && !has_section(sections, category)
}

fn has_category(categories: &[Category], category: Category) -> bool
    ensures { result ≡ has_category category categories.now }
{
    for other in categories {
        if other.index() == category.index() {
            return true;
        }
    }
    false
}

fn has_section(sections: &[Section], category: Category) -> bool
    ensures { result ≡ has_section category sections.now }
{
    for section in sections {
        if section.category.index() == category.index() {
            return true;
        }
    }
    false
}
