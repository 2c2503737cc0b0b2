//! Books of messages.

ghost use Rattle.std.specs.Prelude.{◌≡◌, ◌<◌, ◌≤◌, [], length, true, false, IfOk, IfErr, OnOk};
ghost use Rattle.std.specs.Option.{option_copied};
ghost use Rattle.msg_catalog.specs.Books.{comes_before, stands_at, number_before, has_message, with_message, without_message, without_set, text_at};

use lc_base::ByteText;
use std::alloc::{AllocError, Global};
use std::marker::Model;

/// A message of a catalog.
pub struct Message {
    /// The number of its set, from 1 to 255.
    pub set: u32,
    /// Its number in the set, from 1 to 32767.
    pub number: u32,
    /// Its bytes.
    pub text: ByteText,
}

impl Drop for Message {
    fn drop(self) {
        let Message {
            set: _,
            number: _,
            text: _,
        } = self;
    }
}

/// The messages of a catalog, each found by its set and number (XSH catgets).
///
/// Contracts see the messages in the order of their sets, and in a set of their numbers.
pub struct Book {
    messages: Vec<Message>,
}

impl Drop for Book {
    fn drop(self) {
        let Book { messages: _ } = self;
    }
}

impl Model for Book {
    ghost use Rattle.std.specs.Prelude.{List};
    ghost use Rattle.msg_catalog.specs.declared.book.Message.{Message};
    ghost use Rattle.msg_catalog.specs.Books.{IsInOrder};

    ghost Value = { List Message };

    ghost view = { λ b. b.messages.items };

    ghost invariant = { λ b. IsInOrder b.messages.items };
}

impl Book {
    /// A book without messages.
    pub(crate) fn new(alloc: Global) -> Book
        ensures { result ≡ [] }
    {
        Book {
            messages: Vec::new(alloc),
        }
    }

    /// The text of a message; `None` where there is no such message.
    ///
    /// Takes the logarithm of the number of messages.
    pub fn get(&self, set: u32, message: u32) -> Option<&[u8]>
        ensures { option_copied result ≡ text_at set message self.now }
    {
        match self.place(set, message) {
            Ok(at) => Some(self.messages[at].text.as_bytes()),
            Err(_) => None,
        }
    }

    /// Where the message with this set and number stands, or else where it would stand.
    fn place(&self, set: u32, number: u32) -> Result<usize, usize>
        ensures there { IfOk result (λ at. (at ≡ number_before set number self.now) × (at < length self.now) × (has_message set number self.now ≡ true)) }
        ensures absent { IfErr result (λ at. (at ≡ number_before set number self.now) × (at ≤ length self.now) × (has_message set number self.now ≡ false)) }
    {
        let at = self.front(set, number);
        if at < self.messages.len() && self.messages[at].stands_at(set, number) {
            Ok(at)
        } else {
            Err(at)
        }
    }

    /// How many messages come before this number of this set.
    fn front(&self, set: u32, number: u32) -> usize
        ensures is { result ≡ number_before set number self.now }
        ensures within { result ≤ length self.now }
    {
        self.messages
            .partition_point(|message| message.comes_before(set, number))
    }

    /// Puts a message into the book, in place of an earlier one with its set and number.
    pub(crate) fn put(&mut self, message: Message) -> Result<(), AllocError>
        ensures { OnOk result (self.new ≡ with_message message self.old) }
    {
        match self.place(message.set, message.number) {
            Ok(at) => self.messages[at] = message,
            Err(at) => self.messages.insert(at, message)?,
        }
        Ok(())
    }

    /// Removes a message, where it is there.
    pub(crate) fn remove(&mut self, set: u32, number: u32)
        ensures { self.new ≡ without_message set number self.old }
    {
        if let Ok(_) = self.place(set, number) {
            self.messages
                .retain(|message| !message.stands_at(set, number));
        }
    }

    /// Removes the messages of a set.
    pub(crate) fn remove_set(&mut self, set: u32)
        ensures { self.new ≡ without_set set self.old }
    {
        let at = self.front(set, 0);
        if at < self.messages.len() && self.messages[at].set == set {
            self.messages.retain(|message| message.set != set);
        }
    }
}

impl Message {
    /// Whether the message comes before this number of this set.
    fn comes_before(&self, set: u32, number: u32) -> bool
        ensures { result ≡ comes_before set number self.now }
    {
        self.set < set || (self.set == set && self.number < number)
    }

    /// Whether the message has this set and number.
    fn stands_at(&self, set: u32, number: u32) -> bool
        ensures { result ≡ stands_at set number self.now }
    {
        self.set == set && self.number == number
    }
}
