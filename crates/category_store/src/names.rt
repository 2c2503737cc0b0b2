//! Numbers of names and keys.

ghost use Rattle.std.specs.Prelude.{◌≡◌, ◌+◌, ◌<◌, ◌≤◌, ◌^◌, length, map, IfOk, OnOk};
ghost use Rattle.std.specs.Option.{option_copied};
ghost use Rattle.lc_base.specs.Named.{with_named};
ghost use Rattle.locale_sources.specs.Seen.{source};
ghost use Rattle.locale_sources.specs.Copies.{locale_numbers};
ghost use Rattle.category_store.specs.Library.{names_of, keys_of, plain_number, native_number};

use lc_base::{ByName, is_posix_locale};
use locale_sources::{Source, locale_numbers};
use std::alloc::{AllocError, Global};

/// The names of a library with their numbers.
pub struct Names {
    /// All names, in the order in which they first appear.
    pub names: ByName<u32>,
    /// Those that a locale has at first, with the number of that locale.
    pub first: ByName<u32>,
    /// The keys of later versions, with their numbers.
    pub keys: ByName<u32>,
    /// The number of the native locale's name, if one is named.
    pub native: Option<u32>,
}

impl Drop for Names {
    fn drop(self) {
        let Names {
            names: _,
            first: _,
            keys: _,
            native: _,
        } = self;
    }
}

impl Names {
    /// The names of sources, where the native locale has this name.
    pub fn read(
        alloc: Global,
        sources: &[Source<'_>],
        native: Option<&[u8]>,
    ) -> Result<Names, AllocError>
        requires { length sources.now < 2 ^ 31 }
        ensures names { IfOk result (λ n. n.names ≡ names_of (map source sources.now)) }
        ensures first { IfOk result (λ n. n.first ≡ locale_numbers (map source sources.now)) }
        ensures keys { IfOk result (λ n. n.keys ≡ keys_of (map source sources.now)) }
        ensures native { IfOk result (λ n. n.native ≡ native_number n.names (option_copied native.entry)) }
    {
        let names = names_of(alloc, sources)?;
        let first = locale_numbers(alloc, sources)?;
        let keys = keys_of(alloc, sources)?;
        let native = native_number(&names, native);
        Ok(Names {
            names,
            first,
            keys,
            native,
        })
    }
}

/// The names of sources with their numbers, in the order in which they first appear.
fn names_of(alloc: Global, sources: &[Source<'_>]) -> Result<ByName<u32>, AllocError>
    requires { length sources.now < 2 ^ 31 }
    ensures { IfOk result (λ named. named ≡ names_of (map source sources.now)) }
{
    let mut names = ByName::new(alloc);
    for source in sources {
        add_name(alloc, &mut names, source.name)?;
    }
    Ok(names)
}

/// Gives a new name the next number.
pub fn add_name(alloc: Global, names: &mut ByName<u32>, name: &[u8]) -> Result<(), AllocError>
    requires { length names.old < 2 ^ 31 }
    ensures named { OnOk result (names.new ≡ with_named names.old name.now (length names.old + 1)) }
    ensures few { OnOk result (length names.new ≤ length names.old + 1) }
{
    let number = names.len() as u32 + 1;
    names.add(alloc, name, number)
}

/// The keys of later versions, with the numbers of their sources.
fn keys_of(alloc: Global, sources: &[Source<'_>]) -> Result<ByName<u32>, AllocError>
    requires { length sources.now < 2 ^ 31 }
    ensures { IfOk result (λ named. named ≡ keys_of (map source sources.now)) }
{
    let mut keys = ByName::new(alloc);
    let mut number = 0;
    for source in sources {
        number += 1;
        if let Some(key) = source.key {
            keys.add(alloc, key, number)?;
        }
    }
    Ok(keys)
}

/// The number of a plain name.
pub fn plain_number(names: &ByName<u32>, name: &[u8]) -> Option<u32>
    ensures { result ≡ plain_number names.now name.now }
{
    if is_posix_locale(name) {
        return Some(0);
    }
    names.get(name).copied()
}

/// The number of the native locale's name, if one is given.
fn native_number(names: &ByName<u32>, native: Option<&[u8]>) -> Option<u32>
    ensures { result ≡ native_number names.now (option_copied native.entry) }
{
    match native {
        None => None,
        Some(name) => Some(plain_number(names, name).unwrap_or(0)),
    }
}
