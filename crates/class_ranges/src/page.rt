//! Pages of 256 values.

ghost use Rattle.std.specs.Prelude.{◌≡◌, ℕ, ◌+◌, ◌<◌, ◌≤◌, ◌^◌, Bool, length, IfOk, Some};
ghost use Rattle.class_ranges.specs.Ranges.{covers};
ghost use Rattle.class_ranges.specs.Pages.{IsAlike, has_bit, in_page, page_says};

use crate::Ranges;
use crate::alike::{Stretch, stretch_from};
use std::alloc::AllocError;

/// The bits of 256 values, in words of 64.
pub type Page = [u64; 4];

/// The bits of 64 values from one on, the lowest first.
fn word_from(ranges: &Ranges, first: u32) -> u64
    requires { first + 63 < 2 ^ 32 }
    ensures { (k : ℕ) → k < 64 → has_bit result k ≡ covers ranges.now (first + k) }
{
    let mut word = 0u64;
    let mut stretch = stretch_from(ranges, first);
    for k in 0..64 {
        if first + k > stretch.last {
            stretch = stretch_from(ranges, first + k);
        }
        if stretch.is_in {
            word |= 1 << k;
        }
    }
    word
}

/// The bits of 256 values from one on.
fn page_from(ranges: &Ranges, first: u32) -> Page
    requires { first + 255 < 2 ^ 32 }
    ensures { (k : ℕ) → k < 256 → in_page result k ≡ covers ranges.now (first + k) }
{
    [
        word_from(ranges, first),
        word_from(ranges, first + 64),
        word_from(ranges, first + 128),
        word_from(ranges, first + 192),
    ]
}

/// The number of the page for 256 values from one on, which is added unless it is one of those that
/// have all values or none. The values from the first one to the last of `stretch` are alike.
pub fn page_number(
    pages: &mut Vec<Page>,
    ranges: &Ranges,
    first: u32,
    stretch: Stretch,
) -> Result<u16, AllocError>
    requires first { first + 255 < 2 ^ 32 }
    requires alike { IsAlike (covers ranges.now) first stretch.last stretch.is_in }
    requires room { length pages.old.items < 4352 }
    ensures says { IfOk result (λ n. (k : ℕ) → k < 256 → page_says pages.new.items n k ≡ Some (covers ranges.now (first + k))) }
    ensures kept { IfOk result (λ _. (n k : ℕ) (b : Bool) → page_says pages.old.items n k ≡ Some b → page_says pages.new.items n k ≡ Some b) }
    ensures grown { IfOk result (λ _. length pages.new.items ≤ length pages.old.items + 1) }
{
    if stretch.last >= first + 255 {
        return Ok(if stretch.is_in { 1 } else { 0 });
    }
    let number = pages.len() as u16 + 2;
    pages.push(page_from(ranges, first))?;
    Ok(number)
}

/// What the page with a number says of the value at a place: whether it is in the set.
pub fn page_says(pages: &[Page], number: u16, k: u32) -> Option<bool>
    requires { k < 256 }
    ensures { result ≡ page_says pages.now number k }
{
    if number < 2 {
        return Some(number == 1);
    }
    let page = pages.get(number as usize - 2)?;
    Some(page[(k / 64) as usize] >> (k % 64) & 1 == 1)
}
