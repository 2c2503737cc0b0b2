//! All items and all texts of localeconv at once, put into a buffer of the caller.

ghost use Rattle.std.specs.Prelude.{◌≡◌, ℕ, ◌<◌, ◌≤◌, Some, length, slice_get, slice_index, take};
ghost use Rattle.text_buffer.specs.Written.{over};
ghost use Rattle.c_values.specs.declared.table.TheConstants.{TEXTS};
ghost use Rattle.c_values.specs.Cased.{length_told};
ghost use Rattle.c_values.specs.Table.{HasTexts, IsTabled, laid, texts_by};

use crate::answer::{LobjAnswer, OK, TOO_SMALL, answered};
use crate::items::item_of;
use langinfo::{LentCategories, lent_item};
use shared_objects::View;
use text_buffer::{put_at, put_byte};

/// The number of items.
const ITEMS: usize = 55;

/// The number of items and of texts of localeconv.
pub const TEXTS: usize = 65;

/// Where texts begin in a buffer, and where the last one ends. C has `lobj_table` for it.
#[repr(C)]
#[derive(Clone, Copy)]
pub struct LobjTable {
    pub starts: [usize; 66],
}

/// Puts all items and all texts of localeconv, each with a NUL behind it, into a buffer, and their places into a table.
pub fn put_table(buffer: &mut [u8], table: &mut LobjTable, view: &View<'_>) -> LobjAnswer
    ensures table { IsTabled (Some view.now) result buffer.old buffer.new table.old.starts table.new.starts }
    ensures texts { HasTexts (Some view.now) result buffer.new table.new.starts }
{
    let given = view.categories();
    let length = table_length(view, &given);
    if length <= buffer.len() as u128 {
        write_table(buffer, table, view, &given);
        answered(OK, length as usize)
    } else {
        answered(TOO_SMALL, length.min(usize::MAX as u128) as usize)
    }
}

/// The text of an item by its number, or behind the items a text of localeconv.
fn text_at<'a>(view: &'a View<'_>, given: &'a LentCategories<'_>, i: usize) -> &'a [u8]
    requires { i < TEXTS }
    ensures { slice_get (texts_by view.now given.now) i ≡ Some result.now }
{
    if i < ITEMS {
        match item_of(i as u32) {
            Some(item) => lent_item(given, item),
            None => unreachable!(),
        }
    } else {
        match view.conv_text((i - ITEMS) as u32) {
            Some(text) => text,
            None => unreachable!(),
        }
    }
}

/// How many bytes all texts have, each with a NUL.
fn table_length(view: &View<'_>, given: &LentCategories<'_>) -> u128
    ensures { result ≡ length (laid (texts_by view.now given.now)) }
{
    let mut total: u128 = 0;
    for i in 0..TEXTS {
        total += text_at(&*view, &*given, i).len() as u128 + 1;
    }
    total
}

/// Writes all texts, each with a NUL behind it, to the front of a buffer, and their places into a table.
fn write_table(
    buffer: &mut [u8],
    table: &mut LobjTable,
    view: &View<'_>,
    given: &LentCategories<'_>,
)
    requires { length (laid (texts_by view.now given.now)) ≤ length buffer.old }
    ensures written { buffer.new ≡ over buffer.old 0 (laid (texts_by view.now given.now)) }
    ensures starts { (k : ℕ) → k < 66 → slice_index table.new.starts k ≡ length (laid (take k (texts_by view.now given.now))) }
{
    let mut end = 0;
    for i in 0..TEXTS {
        table.starts[i] = end;
        let behind = put_at(buffer, end, text_at(&*view, &*given, i));
        end = put_byte(buffer, behind, 0);
    }
    table.starts[TEXTS] = end;
}
