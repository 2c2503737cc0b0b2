//! Message catalogs as C gives and takes them.

ghost use Rattle.std.specs.Prelude.{◌≡◌};
ghost use Rattle.std.specs.Option.{option_copied};
ghost use Rattle.c_values.specs.Catalogs.{catalog_told, message_told, message_by};

use crate::answer::{LobjAnswer, NO_CATALOG, NO_LOCALE, NO_MESSAGE, OK, answered};
use crate::buffer::put_text;
use shared_objects::{CatalogParts, MarkedLibrary, OpenFault};

/// Writes a catalog that was opened.
pub fn put_catalog(out: &mut CatalogParts, opened: Result<CatalogParts, OpenFault>) -> LobjAnswer
    ensures { (result, out.new) ≡ catalog_told out.old opened }
{
    match opened {
        Ok(catalog) => {
            *out = catalog;
            answered(OK, 0)
        }
        Err(OpenFault::NoLocale) => answered(NO_LOCALE, 0),
        Err(OpenFault::NoCatalog) => answered(NO_CATALOG, 0),
    }
}

/// Puts a message into a buffer, where the catalog has it.
fn put_found(buffer: &mut [u8], message: Option<&[u8]>) -> LobjAnswer
    ensures { (result, buffer.new) ≡ message_told buffer.old (option_copied message.entry) }
{
    match message {
        None => answered(NO_MESSAGE, 0),
        Some(text) => put_text(buffer, text),
    }
}

/// Puts a message of a catalog of a library into a buffer.
pub fn put_message(
    buffer: &mut [u8],
    library: &MarkedLibrary,
    catalog: &CatalogParts,
    set: u32,
    number: u32,
) -> LobjAnswer
    ensures { (result, buffer.new) ≡ message_by buffer.old library.now catalog.now set number }
{
    if library.has_catalog(catalog) {
        put_found(buffer, library.message(catalog, set, number))
    } else {
        answered(NO_CATALOG, 0)
    }
}
