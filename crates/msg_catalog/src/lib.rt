//! Message catalogs: the sources of messages that gencat reads (POSIX.1-2017, XCU gencat), as books
//! in which a message is found by its set and number.
#![tactic(auto)]

mod book;
mod cursor;
mod directive;
mod joins;
mod number;
mod reader;
mod text;
mod words;

pub use book::{Book, Message};
pub use reader::read_catalog;
