//! Where the copies of categories end (XBD 7.3, `copy`).

ghost use Rattle.std.specs.Prelude.{◌≡◌, ◌+◌, ◌<◌, ◌^◌, length, map, IfOk};
ghost use Rattle.std.specs.List.{range_with_len};
ghost use Rattle.locale_sources.specs.Seen.{source};
ghost use Rattle.locale_sources.specs.Copies.{locale_numbers, target, step};

use crate::{Source, section_at};
use keywords::Body;
use lc_base::{ByName, Category, is_posix_locale};
use std::alloc::{AllocError, Global};

/// The numbers of locales by their names; a later version is none.
pub fn locale_numbers(alloc: Global, sources: &[Source<'_>]) -> Result<ByName<u32>, AllocError>
    requires { length sources.now < 2 ^ 31 }
    ensures { IfOk result (λ named. named ≡ locale_numbers (map source sources.now)) }
{
    let mut named = ByName::new(alloc);
    let mut number = 1;
    for source in sources {
        if source.key.is_none() {
            named.add(alloc, source.name, number)?;
        }
        number += 1;
    }
    Ok(named)
}

/// The number of the locale whose category a copy of this name takes.
pub fn target(
    sources: &[Source<'_>],
    locales: &ByName<u32>,
    category: Category,
    name: &[u8],
) -> Option<u32>
    requires { locales.now ≡ locale_numbers (map source sources.now) }
    ensures { result ≡ target (map source sources.now) category name.now }
{
    if is_posix_locale(name) {
        return Some(0);
    }
    let number = *locales.get(name)?;
    section_at(sources, category, number)?;
    Some(number)
}

/// Where one copy leads from a number.
fn step(
    sources: &[Source<'_>],
    locales: &ByName<u32>,
    category: Category,
    number: u32,
) -> Option<u32>
    requires { locales.now ≡ locale_numbers (map source sources.now) }
    ensures { result ≡ step (map source sources.now) category number }
{
    let Some(section) = section_at(sources, category, number) else {
        return Some(number);
    };
    match &section.body {
        Body::Copy(_, name) => target(sources, locales, category, name.as_bytes()),
        Body::Entries(_) => Some(number),
    }
}

/// Where one copy leads from each number.
pub fn steps(
    alloc: Global,
    sources: &[Source<'_>],
    locales: &ByName<u32>,
    category: Category,
) -> Result<Vec<Option<u32>>, AllocError>
    requires known { locales.now ≡ locale_numbers (map source sources.now) }
    requires few { length sources.now < 2 ^ 31 }
    ensures { IfOk result (λ v. v.items ≡ map (step (map source sources.now) category) (range_with_len 0 (length sources.now + 1))) }
{
    let mut all = Vec::new(alloc);
    for number in 0..sources.len() as u32 + 1 {
        all.push(step(sources, locales, category, number))?;
    }
    Ok(all)
}
