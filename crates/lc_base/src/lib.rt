//! What every crate of the workspace stands on.
#![tactic(auto)]

mod amount;
mod block;
mod built_in;
mod by_category;
mod category;
mod cells;
mod decimal;
mod fault;
mod handle;
mod item;
mod lines;
mod list;
mod memory;
mod named;
mod place;
mod reason;
mod refusal;
mod standard;
mod stream;
mod whole;
mod words;

pub use amount::Amount;
pub use block::{Block, Later};
pub use built_in::{is_built_in_charset, is_posix_locale};
pub use by_category::ByCategory;
pub use category::{CATEGORIES, Category, Mask, category_named, number_for};
pub use cells::CELLS;
pub use decimal::{push_labelled, push_number};
pub use fault::TextFault;
pub use handle::{Handle, Named};
pub use item::Item;
pub use lines::{after, ended_line, next_line};
pub use list::{ByteText, List};
pub use memory::{MemSink, MemSource};
pub use named::ByName;
pub use place::Place;
pub use reason::{Class, Limit, LinePart, Reason};
pub use refusal::FormatRefusal;
pub use standard::{StdSink, StdSource};
pub use stream::{Failed, Sink, Source};
pub use whole::{ReadRefusal, read_all, write_all};
pub use words::{are_digits, cut_at, decimal_number, few_digits, first_named, is_blank};
