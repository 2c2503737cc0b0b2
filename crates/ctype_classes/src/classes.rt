//! The classes of a locale.

ghost use Rattle.std.specs.Prelude.{◌≡◌, ◌++◌, map, IfOk};
ghost use Rattle.std.specs.Option.{option_copied};
ghost use Rattle.class_ranges.specs.Ranges.{covers};
ghost use Rattle.ctype_classes.specs.Rows.{row_of, automatic_row};
ghost use Rattle.ctype_classes.specs.Classes.{members_of, members_of_all, all_members, listed_members, with_class, with_classes, twelve_classes};

use crate::characters::characters;
use crate::first_lines::KeywordList;
use crate::table::{AutomaticMembers, ClassRow, TABLE};
use charset::Charset;
use class_ranges::{PagedRanges, Ranges};
use keywords::{Values, ranges};
use lc_base::ByName;
use std::alloc::{AllocError, Global};

/// Classes with their members.
pub type Classes = ByName<PagedRanges>;

/// So many classes of a locale have tables of pages.
const PAGED_CLASSES: usize = 64;

/// Whether a class has a value. A class that is not there has none.
pub fn has_member(classes: &Classes, name: &[u8], w: u32) -> bool
    ensures { result ≡ covers (members_of classes.now name.now) w }
{
    match classes.get(name) {
        Some(members) => members.contains(w),
        None => false,
    }
}

/// The listed members of a class, or those that stand for an absent keyword.
fn listed_members(
    alloc: Global,
    absent: &[(u32, u32)],
    operands: Option<&Values>,
) -> Result<Vec<(u32, u32)>, AllocError>
    ensures { IfOk result (λ v. v.items ≡ listed_members absent.now (option_copied operands.entry)) }
{
    match operands {
        None => Vec::from_slice(alloc, absent),
        Some(operands) => ranges(alloc, operands),
    }
}

/// Adds the members of classes.
fn add_parts(
    members: Vec<(u32, u32)>,
    classes: &Classes,
    parts: &[&[u8]],
) -> Result<Vec<(u32, u32)>, AllocError>
    ensures { IfOk result (λ v. v.items ≡ members.items ++ members_of_all classes.now (map (λ p. p.now) parts.now)) }
{
    let mut members = members;
    for part in parts {
        if let Some(paged) = classes.get(part) {
            members.extend_from_slice(paged.ranges().as_slice())?;
        }
    }
    Ok(members)
}

/// The members of a class, in any order.
fn all_members(
    alloc: Global,
    list: &KeywordList<'_>,
    classes: &Classes,
    row: &ClassRow<'_>,
) -> Result<Vec<(u32, u32)>, AllocError>
    ensures { IfOk result (λ v. v.items ≡ all_members list.now classes.now (row_of row.now)) }
{
    let mut members = listed_members(alloc, row.absent, list.operands(row.name))?;
    members.extend_from_slice(row.always)?;
    add_parts(members, classes, row.parts)
}

/// Members with a table of their pages, where their class is one of the first.
fn paged_members(alloc: Global, members: Ranges, place: usize) -> Result<PagedRanges, AllocError>
    ensures { IfOk result (λ paged. paged ≡ members) }
{
    if place < PAGED_CLASSES {
        PagedRanges::of(alloc, members)
    } else {
        Ok(PagedRanges::without_pages(alloc, members))
    }
}

/// The classes with one more.
pub fn with_class(
    alloc: Global,
    charset: &Charset,
    list: &KeywordList<'_>,
    classes: Classes,
    row: &ClassRow<'_>,
) -> Result<Classes, AllocError>
    ensures { IfOk result (λ more. more ≡ with_class charset.now list.now classes (row_of row.now)) }
{
    let mut classes = classes;
    let members = all_members(alloc, list, &classes, row)?;
    let members = characters(alloc, charset, &members)?;
    let members = paged_members(alloc, members, classes.len())?;
    classes.add(alloc, row.name, members)?;
    Ok(classes)
}

/// The classes after those of rows.
fn with_classes(
    alloc: Global,
    charset: &Charset,
    list: &KeywordList<'_>,
    classes: Classes,
    rows: &[AutomaticMembers<'_>],
) -> Result<Classes, AllocError>
    ensures { IfOk result (λ more. more ≡ with_classes charset.now list.now classes (map automatic_row rows.now)) }
{
    let mut classes = classes;
    for row in rows {
        classes = with_class(alloc, charset, list, classes, &row.row())?;
    }
    Ok(classes)
}

/// The classes that each locale has.
pub fn twelve_classes(
    alloc: Global,
    charset: &Charset,
    list: &KeywordList<'_>,
) -> Result<Classes, AllocError>
    ensures { IfOk result (λ classes. classes ≡ twelve_classes charset.now list.now) }
{
    with_classes(alloc, charset, list, Classes::new(alloc), &TABLE)
}
