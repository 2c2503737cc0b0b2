//! Tables in which numbers lead to numbers, followed many times at once.

ghost use Rattle.std.specs.Prelude.{◌≡◌, ◌<◌, ◌^◌, ◌/◌, Some, length, map, IfOk};
ghost use Rattle.std.specs.List.{range_with_len};
ghost use Rattle.locale_sources.specs.Tables.{led, led_on, repeated, IsClosed};

use std::alloc::{AllocError, Global};

/// Where a number leads, if it leads anywhere.
pub fn led(table: &[Option<u32>], number: u32) -> Option<u32>
    ensures { result ≡ led table.now number }
{
    *table.get(number as usize)?
}

/// Where each number leads in so many steps: in as many rounds as the count has binary digits, each
/// over the table once.
pub fn repeated(
    alloc: Global,
    table: &[Option<u32>],
    times: usize,
) -> Result<Vec<Option<u32>>, AllocError>
    requires closed { IsClosed table.now }
    requires few { length table.now < 2 ^ 32 }
    ensures { IfOk result (λ v. v.items ≡ map (repeated table.now times) (range_with_len 0 (length table.now))) }
{
    if times == 0 {
        return unmoved(alloc, table.len());
    }
    let half = repeated(alloc, table, times / 2)?;
    let twice = joined(alloc, half.as_slice(), half.as_slice())?;
    if times % 2 == 0 {
        Ok(twice)
    } else {
        joined(alloc, twice.as_slice(), table)
    }
}

/// The table in which each number leads to itself.
fn unmoved(alloc: Global, len: usize) -> Result<Vec<Option<u32>>, AllocError>
    requires { len < 2 ^ 32 }
    ensures { IfOk result (λ v. v.items ≡ map (λ n. Some n) (range_with_len 0 len)) }
{
    let mut table = Vec::new(alloc);
    for number in 0..len as u32 {
        table.push(Some(number))?;
    }
    Ok(table)
}

/// Where each number of the first table leads by one step of it and then one of the second.
fn joined(
    alloc: Global,
    first: &[Option<u32>],
    second: &[Option<u32>],
) -> Result<Vec<Option<u32>>, AllocError>
    ensures { IfOk result (λ v. v.items ≡ map (led_on second.now) first.now) }
{
    let mut table = Vec::new(alloc);
    for to in first {
        table.push(after(*to, second))?;
    }
    Ok(table)
}

/// Where a place leads in one step, if it is there.
fn after(place: Option<u32>, table: &[Option<u32>]) -> Option<u32>
    ensures { result ≡ led_on table.now place }
{
    led(table, place?)
}
