//! The message catalogs of a bundle.

ghost use Rattle.std.specs.Prelude.{◌≡◌, ◌<◌, ◌^◌, length, position, IfOk};
ghost use Rattle.std.specs.Option.{option_copied, option_map};
ghost use Rattle.catalog_handles.specs.Seen.{reply_of};
ghost use Rattle.script_lines.specs.Catalogs.{number_of, is_for, book_named, message_at, book_for, handle_shown, handle_meant, handle_reply_shown, message_shown, text_or, refused_by};

use catalog_handles::{BookShare, CatalogHandle, CatalogRefusal, CatalogReply};
use category_store::{Library, Share};
use handle_table::Refusal;
use lc_base::{Block, ByteText, Category, Handle, List};
use mask_compose::Object;
use msg_catalog::Book;
use script_out::{Said, Why};
use script_reads::names::part_name;
use script_wishes::wishes::Wanted;
use std::alloc::{AllocError, Global};
use std::marker::Model;

/// The catalogs of a bundle: their blocks, and the messages of each, in order of the text.
#[derive(Drop)]
pub struct Books<'a> {
    blocks: &'a List<Block>,
    books: &'a List<Book>,
}

impl<'a> Model for Books<'a> {
    ghost use Rattle.std.specs.Prelude.{◌<◌, ◌^◌, length};
    ghost use Rattle.script_lines.specs.Catalogs.{Books};

    ghost Value = { Books };

    ghost view = { λ b. record { blocks = b.blocks.now; books = b.books.now } };

    ghost invariant = { λ b. length b.blocks.now < 2 ^ 32 };
}

impl<'a> Books<'a> {
    /// The catalogs of these blocks, each with the locale as its charset.
    pub fn new(blocks: &'a List<Block>, books: &'a List<Book>) -> Books<'a>
        requires { length blocks.now < 2 ^ 32 }
        ensures { result ≡ record { blocks = blocks.now; books = books.now } }
    {
        Books { blocks, books }
    }

    /// The catalog of a name for a locale.
    fn named(&self, name: &[u8], locale: &[u8]) -> Option<BookShare>
        ensures { option_map number_of result ≡ book_named self.now name.now locale.now }
    {
        let number = place_of(self.blocks, name, locale)?;
        Some(BookShare { number })
    }

    /// A message of a catalog.
    fn message(&self, book: BookShare, set: u32, message: u32) -> Option<&[u8]>
        ensures { option_copied result ≡ message_at self.now book.number set message }
    {
        let book = self.books.as_slice().get(book.number as usize)?;
        book.get(set, message)
    }

    /// The catalog that a name names for an object: the one for the locale of its LC_MESSAGES
    /// (XSH catopen).
    pub fn book_for(
        &self,
        library: &Library,
        object: &Object<Share>,
        name: &ByteText,
    ) -> Option<BookShare>
        ensures { option_map number_of result ≡ book_for library.now self.now object.now name.now }
    {
        let locale = part_name(library, object, Category::Messages);
        self.named(name.as_bytes(), locale)
    }

    /// The text of a message, or the default where the catalog has no such message.
    fn text_or<'b>(&'b self, wanted: Wanted<'b>, book: BookShare) -> &'b [u8]
        ensures { result.now ≡ text_or self.now wanted.entry.set wanted.entry.message wanted.entry.default.now book.number }
    {
        match self.message(book, wanted.set, wanted.message) {
            Some(text) => text,
            None => wanted.default.as_bytes(),
        }
    }

    /// The printed form of a reply to a catgets.
    pub fn message_shown(
        &self,
        alloc: Global,
        wanted: Wanted<'_>,
        reply: CatalogReply<BookShare>,
    ) -> Result<Said, AllocError>
        ensures { IfOk result (λ said. said ≡ message_shown self.now wanted.entry.set wanted.entry.message wanted.entry.default.now (reply_of number_of reply)) }
    {
        match reply {
            CatalogReply::Opened(handle) => Ok(Said::Opened(handle_shown(handle))),
            CatalogReply::Book(book) => {
                let text = self.text_or(wanted, book);
                Ok(Said::Text(ByteText::of(alloc, text)?))
            }
            CatalogReply::Closed => Ok(Said::Closed),
            CatalogReply::Refused(refusal) => Ok(refused(refusal)),
        }
    }
}

/// The place of the block that is the catalog of this name for this locale.
fn place_of(blocks: &List<Block>, name: &[u8], locale: &[u8]) -> Option<u32>
    requires { length blocks.now < 2 ^ 32 }
    ensures { result ≡ position (is_for name.now locale.now) blocks.now }
{
    let items = blocks.as_slice();
    for (i, block) in items.iter().enumerate() {
        if is_for(name, locale, block) {
            return Some(i as u32);
        }
    }
    None
}

/// Whether a block is the catalog of this name for this locale.
fn is_for(name: &[u8], locale: &[u8], block: &Block) -> bool
    ensures { result ≡ is_for name.now locale.now block.now }
{
    block.name.as_bytes() == name && block.charset.as_bytes() == locale
}

/// A handle of a catalog in the script's form.
fn handle_shown(handle: CatalogHandle) -> Handle
    ensures { result ≡ handle_shown handle }
{
    Handle {
        owner: handle.owner,
        row: handle.row,
        generation: handle.generation,
    }
}

/// A handle of the script as one of a catalog.
pub fn handle_meant(handle: Handle) -> CatalogHandle
    ensures { result ≡ handle_meant handle }
{
    CatalogHandle {
        owner: handle.owner,
        row: handle.row,
        generation: handle.generation,
    }
}

/// The printed form of a refusal of the catalogs.
fn refused(refusal: CatalogRefusal) -> Said
    ensures { result ≡ refused_by refusal }
{
    Said::Refused(Why::Table(match refusal {
        CatalogRefusal::NeverMade => Refusal::NeverMade,
        CatalogRefusal::Stale => Refusal::Stale,
        CatalogRefusal::TooMany => Refusal::TooMany,
    }))
}

/// The printed form of a reply to a catopen or a catclose, which is never a catalog to read.
pub fn handle_reply_shown(alloc: Global, reply: CatalogReply<BookShare>) -> Said
    ensures { result ≡ handle_reply_shown (reply_of number_of reply) }
{
    match reply {
        CatalogReply::Opened(handle) => Said::Opened(handle_shown(handle)),
        CatalogReply::Book(_) => Said::Text(ByteText::from_vec(Vec::new(alloc))),
        CatalogReply::Closed => Said::Closed,
        CatalogReply::Refused(refusal) => refused(refusal),
    }
}
