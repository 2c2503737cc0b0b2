//! The rows of all threads: which handles are live, and with which catalogs.

ghost use Rattle.std.specs.Prelude.{◌≡◌, ◌*◌, ◌<◌, replicate, IfOk, is_some};
ghost use Rattle.std.specs.Option.{option_map};
ghost use Rattle.catalog_handles.specs.Rows.{no_row, opened, row_at, says_book, after_open, after_close};

use crate::handle::CatalogHandle;
use crate::row::Row;
use generations::Grid;
use mask_compose::Part;
use std::alloc::{AllocError, Global};

/// Rows in which nothing was made. All memory is taken here.
pub fn empty_rows<B: Part>(
    alloc: Global,
    threads: u32,
    width: u32,
) -> Result<Grid<Row<B>>, AllocError>
    ensures { IfOk result (λ rows. rows ≡
        record { lines = threads; width = width; items = replicate (threads * width) no_row }) }
{
    let count = threads as usize * width as usize;
    let mut items = Vec::with_capacity(alloc, count)?;
    for _i in 0..count {
        items.push(Row::new())?;
    }
    Ok(Grid::of(threads, width, items))
}

/// The catalog of the handle, if it is live.
pub fn book<B: Part>(rows: &Grid<Row<B>>, h: CatalogHandle) -> Option<B>
    ensures { option_map B.number result ≡ says_book rows.now h }
{
    if rows.is_newest(h.numbers())
        && let Some(book) = &rows.at(h.owner, h.row).book
    {
        return Some(book.share());
    }
    None
}

/// Makes one more handle in the row, of this catalog, and gives its generation.
pub fn open<B: Part>(rows: &mut Grid<Row<B>>, who: u32, row: u32, book: B) -> u32
    requires who { who < rows.old.lines }
    requires row { row < rows.old.width }
    requires makes { (row_at rows.old who row).makes < 4294967295 }
    ensures after { rows.new ≡ after_open rows.old who row (B.number book) }
    ensures generation { result ≡ (opened (B.number book) (row_at rows.old who row)).makes }
{
    let next = rows.at(who, row).opened(book);
    let generation = next.makes;
    rows.put(who, row, next);
    generation
}

/// Closes the handle, if it is live, and tells whether it was.
pub fn close<B: Part>(rows: &mut Grid<Row<B>>, h: CatalogHandle) -> bool
    ensures was { result ≡ is_some (says_book rows.old h) }
    ensures after { rows.new ≡ after_close rows.old h }
{
    if !rows.is_newest(h.numbers()) {
        return false;
    }
    let row = rows.at(h.owner, h.row);
    let was = row.book.is_some();
    let next = row.closed();
    rows.put(h.owner, h.row, next);
    was
}
