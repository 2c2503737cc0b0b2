//! The names of two libraries as those of one.

ghost use Rattle.std.specs.Prelude.{◌≡◌, ◌+◌, ◌<◌, ◌≤◌, ◌^◌, [], All, length, IfOk, OnOk};
ghost use Rattle.lc_base.specs.Tables.{first_named};
ghost use Rattle.category_store.specs.Joined.{numbered_after, names_of_both, with_others, moved, later_else, entry_at, number_among, native_of_both};

use crate::names::{Names, add_name};
use lc_base::ByName;
use std::alloc::{AllocError, Global};

/// The name with a place, from 0.
fn name_at(named: &ByName<u32>, place: usize) -> &[u8]
    ensures { result.now ≡ (entry_at named.now place).0 }
{
    match named.name_at(place) {
        Some(name) => name,
        None => b"",
    }
}

/// The number of the name with a place, from 0.
fn number_at(named: &ByName<u32>, place: usize) -> u32
    ensures { result ≡ (entry_at named.now place).1 }
{
    named.at(place).copied().unwrap_or(0)
}

/// Gives each new name among others the next number.
fn add_names(alloc: Global, names: &mut ByName<u32>, others: &ByName<u32>) -> Result<(), AllocError>
    requires { length names.old + length others.now < 2 ^ 31 }
    ensures numbered { OnOk result (names.new ≡ numbered_after names.old others.now) }
    ensures few { OnOk result (length names.new ≤ length names.old + length others.now) }
{
    for place in 0..others.len() {
        add_name(alloc, names, name_at(others, place))?;
    }
    Ok(())
}

/// The names of both, in one numbering.
fn names_of_both(
    alloc: Global,
    earlier: &ByName<u32>,
    later: &ByName<u32>,
) -> Result<ByName<u32>, AllocError>
    requires { length earlier.now + length later.now < 2 ^ 31 }
    ensures names { IfOk result (λ n. n ≡ names_of_both earlier.now later.now) }
    ensures few { IfOk result (λ n. length n ≤ length earlier.now + length later.now) }
{
    let mut names = ByName::new(alloc);
    add_names(alloc, &mut names, earlier)?;
    add_names(alloc, &mut names, later)?;
    Ok(names)
}

/// Adds the names of others that are new. Their locales stand behind so many others.
fn add_others(
    alloc: Global,
    named: &mut ByName<u32>,
    others: &ByName<u32>,
    count: u32,
) -> Result<(), AllocError>
    requires count { count < 2 ^ 31 }
    requires numbers { All (λ e. e.1 < 2 ^ 31) others.now }
    ensures { OnOk result (named.new ≡ with_others named.old (moved count others.now)) }
{
    for place in 0..others.len() {
        let number = count + number_at(others, place);
        named.add(alloc, name_at(others, place), number)?;
    }
    Ok(())
}

/// Names whose meaning is the later one's, whose locales stand behind so many others, and else the
/// earlier one's.
fn later_else(
    alloc: Global,
    later: &ByName<u32>,
    count: u32,
    earlier: &ByName<u32>,
) -> Result<ByName<u32>, AllocError>
    requires count { count < 2 ^ 31 }
    requires later { All (λ e. e.1 < 2 ^ 31) later.now }
    requires earlier { All (λ e. e.1 < 2 ^ 31) earlier.now }
    ensures { IfOk result (λ n. n ≡ later_else count later.now earlier.now) }
{
    let mut named = ByName::new(alloc);
    add_others(alloc, &mut named, later, count)?;
    add_others(alloc, &mut named, earlier, 0)?;
    Ok(named)
}

/// The number that a name with this number has among other names.
fn number_among(names: &ByName<u32>, own: &ByName<u32>, number: u32) -> u32
    ensures { result ≡ number_among names.now own.now number }
{
    if number == 0 {
        return 0;
    }
    let name = name_at(own, number as usize - 1);
    names.get(name).copied().unwrap_or(0)
}

/// The number of the native locale among the names of both: the later one's, if it names one, and else the earlier one's.
fn native_of_both(names: &ByName<u32>, earlier: &Names, later: &Names) -> Option<u32>
    ensures { result ≡ native_of_both names.now earlier.now.names earlier.now.native later.now.names later.now.native }
{
    match (later.native, earlier.native) {
        (Some(number), _) => Some(number_among(names, &later.names, number)),
        (None, Some(number)) => Some(number_among(names, &earlier.names, number)),
        (None, None) => None,
    }
}

/// The names of a library, and of another whose locales stand behind so many of the first.
pub fn join_names(
    alloc: Global,
    earlier: &Names,
    later: &Names,
    count: u32,
) -> Result<Names, AllocError>
    requires count { count < 2 ^ 31 }
    requires few { length earlier.now.names + length later.now.names < 2 ^ 31 }
    requires earlier_first { All (λ e. e.1 < 2 ^ 31) earlier.now.first }
    requires earlier_keys { All (λ e. e.1 < 2 ^ 31) earlier.now.keys }
    requires later_first { All (λ e. e.1 < 2 ^ 31) later.now.first }
    requires later_keys { All (λ e. e.1 < 2 ^ 31) later.now.keys }
    ensures names { IfOk result (λ n. n.names ≡ names_of_both earlier.now.names later.now.names) }
    ensures few { IfOk result (λ n. length n.names ≤ length earlier.now.names + length later.now.names) }
    ensures first { IfOk result (λ n. n.first ≡ later_else count later.now.first earlier.now.first) }
    ensures keys { IfOk result (λ n. n.keys ≡ later_else count later.now.keys earlier.now.keys) }
    ensures native { IfOk result (λ n. n.native ≡ native_of_both n.names earlier.now.names earlier.now.native later.now.names later.now.native) }
{
    let names = names_of_both(alloc, &earlier.names, &later.names)?;
    let first = later_else(alloc, &later.first, count, &earlier.first)?;
    let keys = later_else(alloc, &later.keys, count, &earlier.keys)?;
    let native = native_of_both(&names, earlier, later);
    Ok(Names {
        names,
        first,
        keys,
        native,
    })
}
