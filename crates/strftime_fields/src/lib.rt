//! The text of a time by a format of the locale (XSH strftime).
#![tactic(auto)]

mod conversions;
mod counted;
mod digits;
mod expand;
mod fault;
mod fields;
mod growing;
mod lent;
mod output;
mod read;
mod slices;
mod stop;
mod text;
mod weeks;

pub use conversions::{format_for, full_time, name, put_number_here, put_plain, short_time};
pub use counted::Counter;
pub use fault::TimeFault;
pub use fields::TimeFields;
pub use lent::Place;
pub use output::{Output, put_byte, put_here, put_name_here};
pub use slices::strftime_to;
pub use stop::Stop;
pub use text::{strftime, strftime_counted, strftime_into};
pub use text_buffer::Unwritten;
pub use time_cat::{Tm, TmField, TmRange};
pub use weeks::{WeekOfYear, iso_week, weeks_hold};
