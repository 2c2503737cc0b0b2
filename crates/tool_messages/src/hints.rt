//! Hints beside a fault.

use std::alloc::AllocError;

/// What a text begins with that an editor wrote in UTF-8 with a mark.
const BYTE_ORDER_MARK: &[u8] = b"\xef\xbb\xbf";

/// What a text begins with that gzip made.
const GZIP_MARK: &[u8] = b"\x1f\x8b";

/// Adds a hint where a text is compressed, or begins with a byte order mark, and where the line ends with CR LF.
pub fn push_hints(out: &mut Vec<u8>, text: &[u8], line: &[u8]) -> Result<(), AllocError> {
    if text.starts_with(BYTE_ORDER_MARK) {
        out.extend_from_slice(
            b"hint: the file begins with a byte order mark; save it without one\n",
        )?;
    }
    if text.starts_with(GZIP_MARK) {
        out.extend_from_slice(
            b"hint: the file is compressed by gzip; `zcat` unpacks it, and `-` reads what it writes\n",
        )?;
    }
    if ends_with_return(line) {
        out.extend_from_slice(b"hint: the line ends with CR LF; save the file with LF alone\n")?;
    }
    Ok(())
}

fn ends_with_return(line: &[u8]) -> bool {
    match line {
        [.., last] => *last == b'\r',
        [] => false,
    }
}
