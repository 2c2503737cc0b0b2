//! Libraries of compiled locales and message catalogs for threads that read them, and the locales and catalogs of each as
//! plain values.
#![tactic(auto)]

mod catalog;
mod draft;
mod fault;
mod laws;
mod locale;
mod mark;
mod marked_library;
mod reads;
mod view;
mod with_offers;

pub use catalog::CatalogParts;
pub use draft::Draft;
pub use fault::{JoinFault, NewFault, OpenFault};
pub use laws::bytes_tell;
pub use locale::LocaleParts;
pub use marked_library::MarkedLibrary;
pub use view::View;
