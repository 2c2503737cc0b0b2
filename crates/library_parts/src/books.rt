//! The message catalogs of parts.

ghost use Rattle.std.specs.Prelude.{◌≡◌, ◌+◌, ◌<◌, ◌^◌, ◌++◌, All, length, map, IfOk, OnOk};
ghost use Rattle.std.specs.Option.{option_copied};
ghost use Rattle.std.specs.Arc.{arc_value};
ghost use Rattle.lc_base.specs.Blocks.{IsSized};
ghost use Rattle.lc_base.specs.Reading.{Gives};
ghost use Rattle.library_parts.specs.Books.{is_for, number_of, message_at, book_read, books_read};

use lc_base::{Block, ByteText, TextFault};
use msg_catalog::{Book, read_catalog};
use std::alloc::{AllocError, Global};
use std::marker::Model;
use std::sync::Arc;

/// A message catalog with its name and its locale.
pub struct NamedBook {
    /// The name that catopen opens it by.
    pub name: ByteText,
    /// The name of the locale that it is for.
    pub locale: ByteText,
    /// Its messages.
    pub book: Book,
}

impl Drop for NamedBook {
    fn drop(self) {
        let NamedBook {
            name: _,
            locale: _,
            book: _,
        } = self;
    }
}

/// Message catalogs with their names and locales, each with a number from 0.
pub struct Books {
    books: Vec<Arc<NamedBook>>,
}

impl Drop for Books {
    fn drop(self) {
        let Books { books: _ } = self;
    }
}

impl Model for Books {
    ghost use Rattle.std.specs.Prelude.{List, map, length, ◌<◌, ◌^◌};
    ghost use Rattle.std.specs.Arc.{arc_value};
    ghost use Rattle.library_parts.specs.declared.books.NamedBook.{NamedBook};

    ghost Value = { List NamedBook };

    ghost view = { λ b. map arc_value b.books.items };

    ghost invariant = { λ b. length b.books.items < 2 ^ 32 };
}

impl NamedBook {
    /// Whether this is the catalog of a name for a locale.
    fn is_for(&self, name: &[u8], locale: &[u8]) -> bool
        ensures { result ≡ is_for name.now locale.now self.now }
    {
        self.name.as_bytes() == name && self.locale.as_bytes() == locale
    }

    /// The catalog of a block, whose charset is the catalog's locale.
    fn read(alloc: Global, block: &Block) -> Result<NamedBook, TextFault>
        requires { IsSized block.now }
        ensures { Gives (λ b. b) result (book_read block.now) }
    {
        let book = read_catalog(alloc, block.text.as_bytes(), block.first_line)?;
        Ok(NamedBook {
            name: ByteText::of(alloc, block.name.as_bytes())?,
            locale: ByteText::of(alloc, block.charset.as_bytes())?,
            book,
        })
    }
}

impl Books {
    /// The catalogs of blocks, whose charsets are the catalogs' locales. The refusal is the first
    /// fault of the sources in order (XCU gencat).
    pub fn read(alloc: Global, blocks: &[Block]) -> Result<Books, TextFault>
        requires sized { All IsSized blocks.now }
        requires few { length blocks.now < 2 ^ 32 }
        ensures { Gives (λ b. b) result (books_read blocks.now) }
    {
        let mut books = Vec::new(alloc);
        for block in blocks {
            books.push(Arc::new(alloc, NamedBook::read(alloc, block)?)?)?;
        }
        Ok(Books { books })
    }

    /// The number of catalogs.
    pub fn len(&self) -> usize
        ensures { result ≡ length self.now }
    {
        self.books.len()
    }

    /// The number of the catalog of a name for a locale; of several the last one's.
    pub fn number(&self, name: &[u8], locale: &[u8]) -> Option<u32>
        ensures { result ≡ number_of name.now locale.now self.now }
    {
        last_number(self.books.as_slice(), name, locale)
    }

    /// The text of a message of the catalog with a number (XSH catgets).
    pub fn message(&self, number: u32, set: u32, message: u32) -> Option<&[u8]>
        ensures { option_copied result ≡ message_at self.now number set message }
    {
        let named = self.books.get(number as usize)?;
        named.book.get(set, message)
    }

    /// The catalogs of two, those of the second behind those of the first. They share each catalog.
    pub fn joined(alloc: Global, first: &Books, second: &Books) -> Result<Books, AllocError>
        requires { length first.now + length second.now < 2 ^ 32 }
        ensures { IfOk result (λ b. b ≡ first.now ++ second.now) }
    {
        let books = both(alloc, first.books.as_slice(), second.books.as_slice())?;
        Ok(Books { books })
    }
}

/// Adds catalogs that are shared with others.
fn share(books: &mut Vec<Arc<NamedBook>>, more: &[Arc<NamedBook>]) -> Result<(), AllocError>
    ensures { OnOk result (map arc_value books.new.items ≡ map arc_value books.old.items ++ map arc_value more.now) }
{
    for book in more {
        books.push(Arc::try_clone(book)?)?;
    }
    Ok(())
}

/// The catalogs of both, which share them.
fn both(
    alloc: Global,
    first: &[Arc<NamedBook>],
    second: &[Arc<NamedBook>],
) -> Result<Vec<Arc<NamedBook>>, AllocError>
    ensures { IfOk result (λ v. map arc_value v.items ≡ map arc_value first.now ++ map arc_value second.now) }
{
    let mut books = Vec::new(alloc);
    share(&mut books, first)?;
    share(&mut books, second)?;
    Ok(books)
}

/// The number of the last of these catalogs that is of a name for a locale.
fn last_number(books: &[Arc<NamedBook>], name: &[u8], locale: &[u8]) -> Option<u32>
    requires { length books.now < 2 ^ 32 }
    ensures { result ≡ number_of name.now locale.now (map arc_value books.now) }
{
    let mut found = None;
    for (number, book) in books.iter().enumerate() {
        if book.is_for(name, locale) {
            found = Some(number as u32);
        }
    }
    found
}
