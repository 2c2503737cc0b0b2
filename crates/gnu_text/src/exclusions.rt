//! Classes that have no common character.

use gnu_read::{Content, Draft, DraftLine, NoteCode, Notes};
use std::alloc::{AllocError, Global};

/// The class whose characters are taken out of others.
const SPACE: &[u8] = b"space";

/// A value from which on a set of ranges has one range more or less.
#[derive(Clone, Copy)]
struct Bound {
    at: u32,
    /// Whether the range is one of those that are taken out.
    is_taken: bool,
    begins: bool,
}

/// Adds the bounds of ranges.
fn add_bounds(
    bounds: &mut Vec<Bound>,
    ranges: &[(u32, u32)],
    is_taken: bool,
) -> Result<(), AllocError> {
    for range in ranges {
        bounds.push(Bound {
            at: range.0,
            is_taken,
            begins: true,
        })?;
        bounds.push(Bound {
            at: range.1.saturating_add(1),
            is_taken,
            begins: false,
        })?;
    }
    Ok(())
}

/// A count after a bound.
fn count_after(count: usize, bound: Bound) -> usize {
    if bound.begins {
        count.saturating_add(1)
    } else {
        count.saturating_sub(1)
    }
}

/// The values of ranges that others lack, and whether the others have any of them.
fn without(
    alloc: Global,
    ranges: &[(u32, u32)],
    others: &[(u32, u32)],
) -> Result<(Vec<(u32, u32)>, bool), AllocError> {
    let mut bounds = Vec::new(alloc);
    add_bounds(&mut bounds, ranges, false)?;
    add_bounds(&mut bounds, others, true)?;
    bounds.sort_unstable_by_key(|bound| bound.at);
    let mut left = Vec::new(alloc);
    let mut has_common = false;
    let (mut from, mut count, mut taken) = (0, 0, 0);
    for bound in &bounds {
        if from < bound.at && count > 0 {
            if taken > 0 {
                has_common = true;
            } else {
                left.push((from, bound.at - 1))?;
            }
        }
        from = bound.at;
        if bound.is_taken {
            taken = count_after(taken, *bound);
        } else {
            count = count_after(count, *bound);
        }
    }
    Ok((left, has_common))
}

/// The characters of the class `space`.
fn spaces(alloc: Global, draft: &Draft) -> Result<Vec<(u32, u32)>, AllocError> {
    for line in &draft.lines {
        if let Content::Characters(ranges) = &line.content {
            if line.keyword.as_slice() == SPACE {
                return Vec::from_slice(alloc, ranges.as_slice());
            }
        }
    }
    Ok(Vec::new(alloc))
}

/// Takes characters out of a line.
fn take_out(
    alloc: Global,
    spaces: &[(u32, u32)],
    line: &mut DraftLine,
    notes: &mut Notes,
) -> Result<(), AllocError> {
    if let Content::Characters(ranges) = &mut line.content {
        let (left, has_common) = without(alloc, ranges.as_slice(), spaces)?;
        *ranges = left;
        if has_common {
            notes.add(line.at, NoteCode::Excluded)?;
        }
    }
    Ok(())
}

/// Takes the characters of `space` out of `punct` and `graph`.
pub fn keep_apart(alloc: Global, draft: &mut Draft, notes: &mut Notes) -> Result<(), AllocError> {
    let spaces = spaces(alloc, draft)?;
    for line in &mut draft.lines {
        if matches!(line.keyword.as_slice(), b"punct" | b"graph") {
            take_out(alloc, spaces.as_slice(), line, notes)?;
        }
    }
    Ok(())
}
