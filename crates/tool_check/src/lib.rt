//! Sources and charmaps that are checked, and what they have.
#![tactic(auto)]

mod checked;
mod copied;
mod declared;
mod fault;
mod faults;
mod finding;
mod headers;
mod json;
mod looks;
mod odd;
mod returns;
mod summary;
mod texts;
mod told_once;

pub use checked::{Checked, Checking, charmap_checked, check_file, sources_checked};
pub use fault::Fault;
pub use faults::faults_of;
pub use finding::{Finding, Oddity, findings_in};
pub use json::{push_file_json, push_problem_json};
pub use texts::is_charmap;
pub use told_once::Told;
