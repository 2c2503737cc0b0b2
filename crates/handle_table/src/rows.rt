//! The rows of all threads: which handles are live, are held and have pins.

ghost use Rattle.std.specs.Prelude.{◌≡◌, ◌<◌, map, IfSome};
ghost use Rattle.handle_table.specs.Row.{pinned, unpinned, opened, closed, let_go, freed, with_next};
ghost use Rattle.handle_table.specs.Rows.{row_at, newest_row, says_live, says_held, says_pins, changed, all_let_go};
ghost use Rattle.generations.specs.Grid.{with_cell};

use crate::handle::numbers;
use crate::row::{MAX_THREADS, Row};
use generations::Grid;
use lc_base::{Handle, Named};

/// What is kept of a row.
fn row_of(rows: &Grid<Row>, owner: u32, row: u32) -> Row
    requires owner { owner < rows.now.lines }
    requires row { row < rows.now.width }
    ensures { result ≡ row_at rows.now owner row }
{
    *rows.at(owner, row)
}

/// The row whose newest handle this is.
fn newest(rows: &Grid<Row>, h: Handle) -> Option<Row>
    ensures row { result ≡ newest_row rows.now h }
    ensures owner { IfSome result (λ row. h.owner < rows.now.lines) }
    ensures inside { IfSome result (λ row. h.row < rows.now.width) }
{
    if rows.is_newest(numbers(h)) {
        Some(row_of(rows, h.owner, h.row))
    } else {
        None
    }
}

/// Whether the handle is live.
pub fn is_live(rows: &Grid<Row>, h: Handle) -> bool
    ensures { result ≡ says_live rows.now h }
{
    match newest(rows, h) {
        Some(row) => row.is_live,
        None => false,
    }
}

/// Whether the thread holds the handle.
pub fn is_held(rows: &Grid<Row>, who: u32, h: Handle) -> bool
    requires { who < MAX_THREADS }
    ensures { result ≡ says_held rows.now who h }
{
    match newest(rows, h) {
        Some(row) => row.holds[who as usize],
        None => false,
    }
}

/// The pins of the handle.
pub fn pins(rows: &Grid<Row>, h: Handle) -> u32
    ensures { result ≡ says_pins rows.now h }
{
    match newest(rows, h) {
        Some(row) => row.pins,
        None => 0,
    }
}

/// Adds a pin to the object that is named.
pub fn pin(rows: &mut Grid<Row>, named: Named)
    ensures rows { rows.new ≡ changed pinned rows.old named }
    ensures lines { rows.new.lines ≡ rows.old.lines }
    ensures width { rows.new.width ≡ rows.old.width }
{
    if let Named::Of(h) = named
        && let Some(row) = newest(rows, h)
    {
        rows.put(h.owner, h.row, row.pinned());
    }
}

/// Takes a pin from the object that is named.
pub fn unpin(rows: &mut Grid<Row>, named: Named)
    ensures rows { rows.new ≡ changed unpinned rows.old named }
    ensures lines { rows.new.lines ≡ rows.old.lines }
    ensures width { rows.new.width ≡ rows.old.width }
{
    if let Named::Of(h) = named
        && let Some(row) = newest(rows, h)
    {
        rows.put(h.owner, h.row, row.unpinned());
    }
}

/// Opens a Hold of the thread.
pub fn open(rows: &mut Grid<Row>, who: u32, named: Named)
    requires { who < MAX_THREADS }
    ensures rows { rows.new ≡ changed (opened who) rows.old named }
    ensures lines { rows.new.lines ≡ rows.old.lines }
    ensures width { rows.new.width ≡ rows.old.width }
{
    if let Named::Of(h) = named
        && let Some(row) = newest(rows, h)
    {
        rows.put(h.owner, h.row, row.opened(who));
    }
}

/// Closes a Hold of the thread.
pub fn close(rows: &mut Grid<Row>, who: u32, named: Named)
    requires { who < MAX_THREADS }
    ensures rows { rows.new ≡ changed (closed who) rows.old named }
    ensures lines { rows.new.lines ≡ rows.old.lines }
    ensures width { rows.new.width ≡ rows.old.width }
{
    if let Named::Of(h) = named
        && let Some(row) = newest(rows, h)
    {
        rows.put(h.owner, h.row, row.closed(who));
    }
}

/// Frees the object that is named.
pub fn free(rows: &mut Grid<Row>, named: Named)
    ensures rows { rows.new ≡ changed freed rows.old named }
    ensures lines { rows.new.lines ≡ rows.old.lines }
    ensures width { rows.new.width ≡ rows.old.width }
{
    if let Named::Of(h) = named
        && let Some(row) = newest(rows, h)
    {
        rows.put(h.owner, h.row, row.freed());
    }
}

/// Puts one more object into the row, and gives its generation.
pub fn make(rows: &mut Grid<Row>, who: u32, row: u32) -> u32
    requires who { who < rows.old.lines }
    requires row { row < rows.old.width }
    requires generations { (row_at rows.old who row).makes < 4294967295 }
    ensures rows { rows.new ≡ with_cell rows.old who row (with_next (row_at rows.old who row)) }
    ensures generation { result ≡ (with_next (row_at rows.old who row)).makes }
{
    let next = row_of(rows, who, row).with_next();
    rows.put(who, row, next);
    next.makes
}

/// Closes all Holds of the thread.
pub fn close_all(rows: &mut Grid<Row>, who: u32)
    requires { who < MAX_THREADS }
    ensures rows { rows.new ≡ all_let_go who rows.old }
    ensures lines { rows.new.lines ≡ rows.old.lines }
    ensures width { rows.new.width ≡ rows.old.width }
{
    let_go_each(rows.items.as_mut_slice(), who);
}

fn let_go_each(rows: &mut [Row], who: u32)
    requires { who < MAX_THREADS }
    ensures { rows.new ≡ map (let_go who) rows.old }
{
    for row in rows.iter_mut() {
        *row = row.let_go(who);
    }
}
