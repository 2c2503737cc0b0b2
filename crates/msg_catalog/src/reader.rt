//! The reader of sources (XCU gencat).

ghost use Rattle.std.specs.Prelude.{◌≡◌, ◌^◌, ◌<◌, [], ◌∷◌, length, None};
ghost use Rattle.lc_base.specs.Reading.{Gives};
ghost use Rattle.msg_catalog.specs.Cursors.{line_of};
ghost use Rattle.msg_catalog.specs.Texts.{read_text};
ghost use Rattle.msg_catalog.specs.Messages.{at_first, obeyed, put, message, line_read, lines_read, messages};
ghost use Rattle.msg_catalog.specs.Spots.{spots, lines};

use crate::book::{Book, Message};
use crate::cursor::Cursor;
use crate::directive::{Directive, directive_of};
use crate::number::number;
use crate::text::{Text, text_of};
use lc_base::{ByteText, Limit, Place, Reason, TextFault, is_blank};
use std::alloc::Global;

/// The largest number of a message.
const NUMBERS: u32 = 32767;

/// How many bytes a message has at most.
const BYTES: usize = 4096;

/// How many lines with a message's text a source has at most.
const TEXTS: u32 = 4096;

/// What was read so far: the set and the quote character in force, how many lines had a message's
/// text, and the messages.
#[derive(Drop)]
struct Draft {
    set: u32,
    quote: Option<u8>,
    texts: u32,
    book: Book,
}

impl Draft {
    /// The draft at the front of a source.
    fn new(alloc: Global) -> Draft
        ensures { result ≡ at_first }
    {
        Draft {
            set: 1,
            quote: None,
            texts: 0,
            book: Book::new(alloc),
        }
    }

    /// Does what a directive says.
    fn obey(&mut self, directive: Directive)
        ensures { self.new ≡ obeyed self.old directive }
    {
        match directive {
            Directive::Comment => {}
            Directive::Set(set) => self.set = set,
            Directive::DeleteSet(set) => self.book.remove_set(set),
            Directive::Quote(quote) => self.quote = quote,
        }
    }

    /// Takes the text of a message, whose line begins at this place.
    fn put(&mut self, place: Place, number: u32, text: Text) -> Result<(), TextFault>
        ensures { Gives (λ _. self.new) result (put self.old place number (read_text text)) }
    {
        if text.bytes.len() > BYTES {
            return Err(TextFault::At(place, Reason::OverLimit(Limit::Message)));
        }
        if self.texts >= TEXTS {
            return Err(TextFault::At(place, Reason::OverLimit(Limit::Messages)));
        }
        if let Some(wrong) = text.wrong {
            return Err(TextFault::At(wrong, Reason::BadMessage));
        }
        self.texts += 1;
        self.book.put(Message {
            set: self.set,
            number,
            text: ByteText::from_vec(text.bytes),
        })?;
        Ok(())
    }

    /// Takes a line that begins at this place with no `$`: a message's number, and perhaps a blank
    /// and its text.
    fn message(&mut self, alloc: Global, place: Place, cursor: Cursor<'_>) -> Result<(), TextFault>
        ensures { Gives (λ _. self.new) result (message self.old place (line_of cursor.entry)) }
    {
        let Some((number, rest)) = number(NUMBERS, cursor) else {
            return Err(TextFault::At(place, Reason::BadMessage));
        };
        match rest.next() {
            None => {
                self.book.remove(self.set, number);
                Ok(())
            }
            Some((spot, next)) if is_blank(spot.byte) => {
                self.put(place, number, text_of(alloc, self.quote, next)?)
            }
            Some(_) => Err(TextFault::At(place, Reason::BadMessage)),
        }
    }

    /// Takes a line.
    fn line(&mut self, alloc: Global, cursor: Cursor<'_>) -> Result<(), TextFault>
        ensures { Gives (λ _. self.new) result (line_read self.old (line_of cursor.entry)) }
    {
        let Some((first, next)) = cursor.next() else {
            return Ok(());
        };
        if first.byte != b'$' {
            return self.message(alloc, first.place, cursor);
        }
        let Some(directive) = directive_of(next) else {
            return Err(TextFault::At(first.place, Reason::BadMessage));
        };
        self.obey(directive);
        Ok(())
    }
}

/// What the lines of a source say, one after another.
fn read_lines(alloc: Global, text: &[u8], first_line: u32) -> Result<Draft, TextFault>
    requires text_size { length text.now < 2 ^ 31 }
    requires line_size { first_line < 2 ^ 31 }
    ensures { Gives (λ draft. draft) result (lines_read at_first (lines (spots first_line 1 text.now))) }
{
    let mut draft = Draft::new(alloc);
    let mut cursor = Cursor::new(text, first_line);
    while !cursor.is_at_end() {
        draft.line(alloc, cursor)?;
        cursor = cursor.next_line();
    }
    Ok(draft)
}

/// Reads the source of a message catalog (XCU gencat), whose first line has the number
/// `first_line`.
///
/// The fault is the one at the least place: `BadMessage` at a line's first byte, or at the `\` of an
/// octal escape over 255; `OverLimit` at the first byte of a line whose text has more than 4096
/// bytes, and of the 4097th line with a text.
#[tactic(auto, unfolding(crate::specs::Messages::messages))]
pub fn read_catalog(alloc: Global, text: &[u8], first_line: u32) -> Result<Book, TextFault>
    requires text_size { length text.now < 2 ^ 31 }
    requires line_size { first_line < 2 ^ 31 }
    ensures { Gives (λ book. book) result (messages text.now first_line) }
{
    let draft = read_lines(alloc, text, first_line)?;
    Ok(draft.book)
}
