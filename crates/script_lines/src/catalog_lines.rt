//! The lines of the commands of catalogs, whoever answers the calls.

ghost use Rattle.std.specs.Prelude.{◌≡◌, ◌+◌, ℕ, Ok, Some, IfOk, OnOk};
ghost use Rattle.std.specs.Option.{option_map};
ghost use Rattle.category_store.specs.LibraryData.{LibraryData};
ghost use Rattle.script_lines.specs.Catalogs.{Books as CatalogBooks, number_of, handle_meant};
ghost use Rattle.script_lines.specs.Granted.{Grants, OpensBook, message_wished};
ghost use Rattle.script_lines.specs.Seen.{caller};
ghost use Rattle.script_wishes.specs.Wishes.{OpensCatalog, ClosesCatalog};

use crate::board::{Board, Side};
use crate::catalogs::{Books, handle_meant, handle_reply_shown};
use crate::lines::{Caller, line};
use catalog_handles::{BookShare, CatalogOp};
use category_store::Library;
use lc_base::{ByteText, Handle};
use script_out::{OutLine, Places, Said, Why};
use script_wishes::wishes::Wanted;
use std::alloc::{AllocError, Global};

/// The line of a catopen: of the catalog that the name names for the thread's own object, or for the
/// global locale, which it prints with its version (XSH catopen).
pub fn open_line<B: Board>(
    alloc: Global,
    library: &Library,
    books: &Books<'_>,
    board: &mut B,
    side: &mut B::Side,
    at: Caller,
    name: &ByteText,
) -> OutLine
    requires ready { B.ready 1 board.old side.old }
    requires caller { at.thread ≡ B.Side.number_of side.old }
    ensures leaves { Grants B.Board B.Side.Side library.now books.now board.old side.old board.new side.new (caller at) (Ok (OpensCatalog name.now)) result }
    ensures number { B.Side.number_of side.new ≡ B.Side.number_of side.old }
    ensures setting { B.setting_of board.new ≡ B.setting_of board.old }
    ensures ready { (n : ℕ) → B.ready (n + 1) board.old side.old → B.ready n board.new side.new }
{
    match side.own() {
        Some(own) => {
            let book = books.book_for(library, own, name);
            book_line(alloc, board, side, at, None, book)
        }
        None => {
            let (version, object) = board.global(side);
            let book = books.book_for(library, &object, name);
            book_line(alloc, board, side, at, Some(version), book)
        }
    }
}

/// The line of a catopen of this catalog, if there is one.
fn book_line<B: Board>(
    alloc: Global,
    board: &mut B,
    side: &mut B::Side,
    at: Caller,
    version: Option<u32>,
    book: Option<BookShare>,
) -> OutLine
    requires ready { B.ready 1 board.old side.old }
    requires caller { at.thread ≡ B.Side.number_of side.old }
    ensures asked { OpensBook B.Board B.Side.Side board.old side.old board.new side.new (caller at) version (option_map number_of book) result }
    ensures number { B.Side.number_of side.new ≡ B.Side.number_of side.old }
    ensures setting { B.setting_of board.new ≡ B.setting_of board.old }
    ensures ready { (n : ℕ) → B.ready (n + 1) board.old side.old → B.ready n board.new side.new }
{
    match book {
        Some(book) => {
            let (place, reply) = board.catalog(side, CatalogOp::Open { book });
            let said = handle_reply_shown(alloc, reply);
            line(at, Places::Catalog(place), version, said)
        }
        None => line(at, Places::None, version, Said::Refused(Why::NoCatalog)),
    }
}

/// The line of a catgets (XSH catgets).
pub fn message_line<B: Board>(
    alloc: Global,
    books: &Books<'_>,
    board: &mut B,
    side: &mut B::Side,
    at: Caller,
    handle: Handle,
    wanted: Wanted<'_>,
) -> Result<OutLine, AllocError>
    requires ready { B.ready 1 board.old side.old }
    requires caller { at.thread ≡ B.Side.number_of side.old }
    ensures leaves { IfOk result (λ l. (library : LibraryData) → Grants B.Board B.Side.Side library books.now board.old side.old board.new side.new (caller at) (message_wished handle wanted.entry) l) }
    ensures number { OnOk result (B.Side.number_of side.new ≡ B.Side.number_of side.old) }
    ensures setting { OnOk result (B.setting_of board.new ≡ B.setting_of board.old) }
    ensures ready { OnOk result ((n : ℕ) → B.ready (n + 1) board.old side.old → B.ready n board.new side.new) }
{
    let h = handle_meant(handle);
    let (place, reply) = board.catalog(side, CatalogOp::Get { h });
    let said = books.message_shown(alloc, wanted, reply)?;
    Ok(line(at, Places::Catalog(place), None, said))
}

/// The line of a catclose (XSH catclose).
pub fn close_line<B: Board>(
    alloc: Global,
    board: &mut B,
    side: &mut B::Side,
    at: Caller,
    handle: Handle,
) -> OutLine
    requires ready { B.ready 1 board.old side.old }
    requires caller { at.thread ≡ B.Side.number_of side.old }
    ensures leaves { (library : LibraryData) (books : CatalogBooks) → Grants B.Board B.Side.Side library books board.old side.old board.new side.new (caller at) (Ok (ClosesCatalog handle)) result }
    ensures number { B.Side.number_of side.new ≡ B.Side.number_of side.old }
    ensures setting { B.setting_of board.new ≡ B.setting_of board.old }
    ensures ready { (n : ℕ) → B.ready (n + 1) board.old side.old → B.ready n board.new side.new }
{
    let h = handle_meant(handle);
    let (place, reply) = board.catalog(side, CatalogOp::Close { h });
    let said = handle_reply_shown(alloc, reply);
    line(at, Places::Catalog(place), None, said)
}
