//! The locale category `LC_TIME` (XBD 7.3.5), times, and the conversions of their formats
//! (XSH strftime).
#![tactic(auto)]

mod conversion;
mod faults;
mod name;
mod parsed;
mod segment;
mod step;
mod steps;
mod takes;
mod texts;
mod time;
mod tm;

pub use conversion::{Layout, NameList, Quantity, Shows, TimeConversion, TimeText, conversion_of};
pub use name::{NAME_FRONT, Name};
pub use parsed::Parsed;
pub use step::{Step, step_at};
pub use steps::Steps;
pub use time::{EraHit, Time};
pub use tm::{Tm, TmField, TmRange};
