//! Numbers and sizes of groups as localeconv gives them: each a char (XSH localeconv, XBD
//! <locale.h>).

ghost use Rattle.std.specs.Prelude.{◌≡◌, map, IfOk};
ghost use Rattle.keywords.specs.LconvChars.{encoded, groups, sizes_of};

use lc_base::ByteText;
use std::alloc::{AllocError, Global};

/// What stands for a value that the locale does not tell: `CHAR_MAX`.
const UNKNOWN: u8 = 127;

/// A number of a locale as a char.
pub fn encoded(n: i32) -> u8
    ensures { result ≡ encoded n }
{
    match u8::try_from(n) {
        Ok(small) => small.min(UNKNOWN),
        Err(_) => UNKNOWN,
    }
}

/// The sizes of groups that count, as chars; none where nothing is grouped.
pub fn group_chars(alloc: Global, sizes: &[i32]) -> Result<ByteText, AllocError>
    ensures { IfOk result (λ t. t ≡ groups sizes.now) }
{
    chars(alloc, groups(sizes))
}

/// The sizes of groups that count.
fn groups(sizes: &[i32]) -> &[i32]
    ensures { map encoded result.now ≡ groups sizes.now }
{
    match sizes {
        [first, ..] if encoded(*first) != UNKNOWN => sizes_of(sizes),
        _ => &[],
    }
}

/// The sizes of groups up to a 0 and no further than 127.
fn sizes_of(sizes: &[i32]) -> &[i32]
    ensures { map encoded result.now ≡ sizes_of sizes.now }
{
    for (i, size) in sizes.iter().enumerate() {
        let size = encoded(*size);
        if size == 0 {
            return &sizes[..i];
        }
        if size == UNKNOWN {
            return &sizes[..i + 1];
        }
    }
    sizes
}

/// Sizes of groups as chars.
fn chars(alloc: Global, sizes: &[i32]) -> Result<ByteText, AllocError>
    ensures { IfOk result (λ t. t ≡ map encoded sizes.now) }
{
    let mut chars = Vec::with_capacity(alloc, sizes.len())?;
    for size in sizes {
        chars.push(encoded(*size))?;
    }
    Ok(ByteText::from_vec(chars))
}
