//! Threads, each with its current locale, over one table of locale objects.
#![tactic(auto)]

mod held;
mod locales;
mod mine;
mod shared;

pub use held::Held;
pub use locales::{Ask, Locales};
pub use mine::Mine;
pub use shared::{Fault, Shared};
