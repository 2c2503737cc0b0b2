//! What the commands of the tool print that read a locale.
#![tactic(auto)]

mod characters;
mod conv;
mod format_fault;
mod info;
mod json_conv;
mod json_info;
mod json_parse;
mod money;
mod needs;
mod number;
mod parse;
mod time;
mod wrong_word;

pub use characters::{class_lines, lower_lines, upper_lines};
pub use conv::conv_lines;
pub use format_fault::problem_of;
pub use info::{info_lines, item_of, no_item, text_of};
pub use json_conv::conv_json;
pub use json_info::info_json;
pub use json_parse::parsed_json;
pub use langinfo::LentCategories;
pub use money::money_line;
pub use needs::item_categories;
pub use number::number_line;
pub use parse::parsed_lines;
pub use time::time_line;
pub use wrong_word::usage_problem;
