//! The currency symbol as an item of nl_langinfo has it (XBD <langinfo.h>, `CRNCYSTR`).

ghost use Rattle.std.specs.Prelude.{◌≡◌, ◌∷◌, IfOk};
ghost use Rattle.monetary_cat.specs.Currency.{currency, sign};

use lc_base::ByteText;
use std::alloc::{AllocError, Global};

/// The currency symbol, behind a sign that says where it stands; nothing where there is no symbol.
pub fn currency(alloc: Global, precedes: i32, symbol: &[u8]) -> Result<ByteText, AllocError>
    ensures { IfOk result (λ t. t ≡ currency precedes symbol.now) }
{
    match symbol {
        [] => Ok(ByteText::from_vec(Vec::new(alloc))),
        [_, ..] => Ok(ByteText::from_vec(behind(alloc, sign(precedes), symbol)?)),
    }
}

/// `+` for a symbol that follows the number, else `-`.
fn sign(precedes: i32) -> u8
    ensures { result ≡ sign precedes }
{
    match precedes {
        0 => b'+',
        _ => b'-',
    }
}

/// A text behind a byte.
fn behind(alloc: Global, first: u8, text: &[u8]) -> Result<Vec<u8>, AllocError>
    ensures { IfOk result (λ v. v.items ≡ first ∷ text.now) }
{
    let mut bytes = Vec::with_capacity(alloc, text.len() + 1)?;
    bytes.push(first)?;
    bytes.extend_from_slice(text)?;
    Ok(bytes)
}
