//! What the commands of the tool answer that run no script.
#![tactic(auto)]

mod bundles;
mod checking;
mod explaining;
mod gathered;
mod importing;
mod json;
mod lacking;
mod locale;
mod near;
mod progress;
mod views;

pub use checking::check_files;
pub use explaining::explain_given;
pub use gathered::Gathered;
pub use importing::import_files;
pub use locale::read_locale;
pub use views::{compare_locales, preview_locales};
