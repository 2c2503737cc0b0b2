//! Message catalogs that threads have open: their handles, as a machine that threads take turns at.
#![tactic(auto)]

mod catalogs;
mod handle;
pub mod laws;
mod op;
mod reader;
mod row;
mod rows;
mod setting;
mod share;
mod shared;
mod stamped;

pub use catalogs::Catalogs;
pub use handle::CatalogHandle;
pub use op::{CatalogOp, CatalogRefusal, CatalogReply};
pub use reader::Reader;
pub use setting::CatalogSetting;
pub use share::BookShare;
pub use shared::SharedCatalogs;
