//! Whether a source is a standard one that compiles.

ghost use Rattle.std.specs.Prelude.{◌≡◌, ◌<◌, ◌^◌, length};
ghost use Rattle.lc_base.specs.Reading.{Gives};
ghost use Rattle.charset.specs.CodedSet.{utf8};
ghost use Rattle.gnu_source.specs.Standard.{list_compiled, section_compiled, sections_compiled, standard};

use charset::Charset;
use ctype_classes::Ctype;
use keywords::{Body, Entry, Section};
use lc_base::{Category, List, Place, Reason, TextFault};
use locale_reader::read_locale;
use messages_cat::Messages;
use monetary_cat::Monetary;
use numeric_cat::Numeric;
use std::alloc::Global;
use time_cat::Time;

/// Compiles the category of a keyword list.
fn check_list(
    alloc: Global,
    charset: &Charset,
    category: Category,
    place: Place,
    entries: &List<Entry>,
) -> Result<(), TextFault>
    requires { charset.now ≡ utf8 }
    ensures { Gives (λ u. u) result (list_compiled category place entries.now) }
{
    match category {
        Category::Ctype => {
            let _ctype = Ctype::build(alloc, entries, place, charset)?;
        }
        Category::Numeric => {
            let _numeric = Numeric::build(alloc, entries)?;
        }
        Category::Monetary => {
            let _monetary = Monetary::build(alloc, entries)?;
        }
        Category::Time => {
            let _time = Time::build(alloc, entries)?;
        }
        Category::Messages => {
            let _messages = Messages::build(alloc, entries)?;
        }
    }
    Ok(())
}

/// Compiles a section, which copies none.
fn check_section(alloc: Global, charset: &Charset, section: &Section) -> Result<(), TextFault>
    requires { charset.now ≡ utf8 }
    ensures { Gives (λ u. u) result (section_compiled section.now) }
{
    match &section.body {
        Body::Copy(place, _) => Err(TextFault::At(*place, Reason::CopyMissing)),
        Body::Entries(entries) => {
            check_list(alloc, charset, section.category, section.place, entries)
        }
    }
}

/// Compiles sections.
fn check_sections(alloc: Global, charset: &Charset, sections: &[Section]) -> Result<(), TextFault>
    requires { charset.now ≡ utf8 }
    ensures { Gives (λ u. u) result (sections_compiled sections.now) }
{
    for section in sections {
        check_section(alloc, charset, section)?;
    }
    Ok(())
}

/// A text is a standard source in UTF-8 that copies nothing and whose categories compile, or has a first fault.
#[tactic(auto, unfolding(crate::specs::Standard::standard))]
pub fn check_source(alloc: Global, text: &[u8]) -> Result<(), TextFault>
    requires { length text.now < 2 ^ 31 }
    ensures { Gives (λ u. u) result (standard text.now) }
{
    let charset = Charset::utf8(alloc)?;
    let source = read_locale(alloc, text, 1, &charset)?;
    check_sections(alloc, &charset, source.sections.as_slice())
}
