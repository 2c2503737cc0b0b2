//! Words of the command line that are no text.

use lc_base::ByteText;
use std::alloc::{AllocError, Global};
use std::rt::Env;

/// How many bytes a word has at most that is shown.
const MOST_BYTES: usize = 4096;

/// The message of the first word that is no UTF-8 text, which shows the word up to that many bytes.
pub fn message_of_words<R: Env>(rt: &R, alloc: Global) -> Result<ByteText, AllocError> {
    let mut buffer = [0u8; MOST_BYTES];
    for number in 0..usize::MAX {
        match rt.arg(number, &mut buffer) {
            Ok(size) if str::from_utf8(&buffer[..size]).is_ok() => {}
            Ok(size) => return message_of(alloc, &buffer[..size]),
            Err(_) => break,
        }
    }
    ByteText::of(alloc, b"locale_tool: a word is no UTF-8 text\n")
}

/// That a word is no UTF-8 text, which is shown with the bytes beyond printed ASCII by their numbers.
fn message_of(alloc: Global, word: &[u8]) -> Result<ByteText, AllocError> {
    let mut message = Vec::new(alloc);
    message.extend_from_slice(b"locale_tool: ")?;
    for byte in word {
        push_shown(&mut message, *byte)?;
    }
    message.extend_from_slice(b": the word is no UTF-8 text\n")?;
    Ok(ByteText::from_vec(message))
}

/// Adds a byte, as `\xHH` where it is no printed ASCII.
fn push_shown(out: &mut Vec<u8>, byte: u8) -> Result<(), AllocError> {
    if byte.is_ascii_graphic() || byte == b' ' {
        out.extend_from_slice(&[byte])
    } else {
        out.extend_from_slice(&[b'\\', b'x', hex_digit(byte / 16), hex_digit(byte % 16)])
    }
}

fn hex_digit(value: u8) -> u8 {
    b"0123456789abcdef"[usize::from(value % 16)]
}
