//! What a C program is given of locales and libraries: answers, texts in its buffers, and values in its structs.
#![tactic(auto)]

mod amounts;
mod answer;
mod buffer;
mod cased;
mod catalogs;
mod conv;
mod fault;
mod items;
mod names;
mod numbers;
mod parsed;
mod reads;
mod rules;
mod table;
mod texts;
mod times;

pub use amounts::LobjAmount;
pub use answer::{
    LobjAnswer, NAME_TWICE, NO_CATALOG, NO_ITEM, NO_LOCALE, NO_MEMORY, OK, TOO_LONG, TOO_MANY,
    VERSION, answered,
};
pub use cased::{Case, put_cased};
pub use catalogs::{put_catalog, put_message};
pub use conv::{LobjLconv, lconv_of};
pub use fault::{LobjFault, put_text_fault, put_wrong};
pub use names::{put_name, put_own_name};
pub use parsed::{LobjParsed, put_fields};
pub use reads::{class_told, number_told, put_new, put_number};
pub use rules::{put_reason_name, put_rule};
pub use table::{LobjTable, put_table};
pub use texts::{put_amounts, put_conv_text, put_item, put_numbers, put_tm};
pub use times::LobjTm;
