//! The characters of a charset among ranges of values.

ghost use Rattle.std.specs.Prelude.{◌≡◌, ℕ, ◌≤◌, ◌||◌, ◌&&◌, All, IfOk};
ghost use Rattle.std.specs.Int.{is_in_range};
ghost use Rattle.class_ranges.specs.Ranges.{covers};
ghost use Rattle.charset.specs.CodedSet.{has};
ghost use Rattle.ctype_classes.specs.Characters.{characters};

use charset::Charset;
use class_ranges::Ranges;
use std::alloc::{AllocError, Global};

/// Adds the characters from one value to another, as ranges. Goes over the runs of the charset.
fn add_characters(
    charset: &Charset,
    parts: Vec<(u32, u32)>,
    range: (u32, u32),
) -> Result<Vec<(u32, u32)>, AllocError>
    requires whole { range.0 ≤ range.1 }
    requires forward { All (λ part. part.0 ≤ part.1) parts.items }
    ensures forward { IfOk result (λ v. All (λ part. part.0 ≤ part.1) v.items) }
    ensures values { IfOk result (λ v. (w : ℕ) → covers v.items w ≡ (covers parts.items w || (has charset.now w && is_in_range range.0 range.1 w))) }
{
    let (mut from, last) = range;
    let mut parts = parts;
    while let Some((first, end)) = charset.run_from(from) {
        if last < first {
            return Ok(parts);
        }
        parts.push((first, end.min(last)))?;
        if last <= end {
            return Ok(parts);
        }
        from = end + 1;
    }
    Ok(parts)
}

/// The characters of a charset in ranges in order, as ranges.
fn parts_of(
    alloc: Global,
    charset: &Charset,
    ranges: &[(u32, u32)],
) -> Result<Vec<(u32, u32)>, AllocError>
    requires { All (λ range. range.0 ≤ range.1) ranges.now }
    ensures forward { IfOk result (λ v. All (λ part. part.0 ≤ part.1) v.items) }
    ensures values { IfOk result (λ v. (w : ℕ) → covers v.items w ≡ (has charset.now w && covers ranges.now w)) }
{
    let mut parts = Vec::new(alloc);
    for range in ranges {
        parts = add_characters(charset, parts, *range)?;
    }
    Ok(parts)
}

/// The ranges that do not run backward.
fn forward_of(alloc: Global, ranges: &[(u32, u32)]) -> Result<Vec<(u32, u32)>, AllocError>
    ensures forward { IfOk result (λ v. All (λ range. range.0 ≤ range.1) v.items) }
    ensures values { IfOk result (λ v. (w : ℕ) → covers v.items w ≡ covers ranges.now w) }
{
    let mut forward = Vec::new(alloc);
    for range in ranges {
        if range.0 <= range.1 {
            forward.push(*range)?;
        }
    }
    Ok(forward)
}

/// The characters of a charset that are in one of these ranges, which may come in any order.
pub fn characters(
    alloc: Global,
    charset: &Charset,
    ranges: &[(u32, u32)],
) -> Result<Ranges, AllocError>
    ensures { IfOk result (λ r. r ≡ characters charset.now ranges.now) }
{
    let forward = forward_of(alloc, ranges)?;
    let joined = Ranges::of_pairs(alloc, &forward)?;
    let parts = parts_of(alloc, charset, joined.as_slice())?;
    let members = Ranges::of_pairs(alloc, &parts)?;
    Ok(members)
}
