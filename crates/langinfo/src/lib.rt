//! What a program asks of a locale by nl_langinfo and localeconv (XSH nl_langinfo, localeconv).
#![tactic(auto)]

mod categories;
mod conv;
mod field;
mod items;
mod keyword;

pub use categories::{Categories, LentCategories};
pub use conv::{
    CONV_NUMBERS, CONV_TEXTS, Lconv, LentConv, lent_conv, lent_conv_numbers, lent_conv_text,
    localeconv,
};
pub use field::{ConvText, FieldName, LentText};
pub use items::{lent_item, nl_langinfo};
