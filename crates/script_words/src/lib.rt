//! The words of a script, each with its place, and what they mean.
#![tactic(auto)]

mod bytes;
mod categories;
mod given;
mod names;
mod number;
mod stretch;
mod table;
mod word;

pub use categories::CategoryArgument;
pub use given::{
    AMOUNT_LIMIT, CommandText, DEFAULT_MAX, FORMAT_LIMIT, Format, MAX_LIMIT, NUMBER_DIGITS,
    NUMBER_LIMIT, TEXT_LIMIT, UncheckedTime, WrittenNumber, ZONE_LIMIT,
};
pub use names::{is_charmap_name, is_formed, is_locale_name, is_part_name, is_thread_name};
pub use number::{amount_of_word, number_of_word, offset_of_word, short_number, three_numbers};
pub use stretch::Stretch;
pub use table::{Directive, directive_named, item_named, item_rows};
pub use word::{
    WrittenCell, WrittenHandle, behind_front, categories_of_word, cell_number, cell_of_word,
    class_of_word, handle_of_word, key_of_word, mask_of_word, max_number, quoted_of_word,
    text_of_word, variable_of_word, zone_of_word,
};
