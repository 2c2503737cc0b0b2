//! Ranges in order: joined where they meet or touch, and compared.

ghost use Rattle.std.specs.Prelude.{◌≡◌, ℕ, ◌≤◌, All, IfOk};
ghost use Rattle.std.specs.List.Sorted.{IsNonDecreasingBy};
ghost use Rattle.class_ranges.specs.Ranges.{IsApart, covers, first_common};

use std::alloc::{AllocError, Global};

/// The ranges in order of the values that are in one of these, which are in order of their first
/// values.
pub fn merged(alloc: Global, sorted: &[(u32, u32)]) -> Result<Vec<(u32, u32)>, AllocError>
    requires forward { All (λ range. range.0 ≤ range.1) sorted.now }
    requires sorted { IsNonDecreasingBy (λ range. range.0) sorted.now }
    ensures values { IfOk result (λ v. (w : ℕ) → covers v.items w ≡ covers sorted.now w) }
    ensures apart { IfOk result (λ v. IsApart v.items) }
{
    let mut ranges = Vec::new(alloc);
    if sorted.is_empty() {
        return Ok(ranges);
    }
    let (mut first, mut last) = sorted[0];
    for range in sorted {
        if range.0.saturating_sub(last) > 1 {
            ranges.push((first, last))?;
            first = range.0;
            last = range.1;
        } else {
            last = last.max(range.1);
        }
    }
    ranges.push((first, last))?;
    Ok(ranges)
}

/// The least value that is in two sets of ranges in order.
pub fn first_common(ranges: &[(u32, u32)], others: &[(u32, u32)]) -> Option<u32>
    requires ranges { IsApart ranges.now }
    requires others { IsApart others.now }
    ensures { result ≡ first_common ranges.now others.now }
{
    let mut i = 0;
    let mut j = 0;
    while i < ranges.len() && j < others.len() {
        let range = ranges[i];
        let other = others[j];
        let first = range.0.max(other.0);
        if first <= range.1.min(other.1) {
            return Some(first);
        }
        if range.1 < other.1 {
            i += 1;
        } else {
            j += 1;
        }
    }
    None
}
