//! Lines of texts, and names of files.

use lc_base::next_line;

/// The line of a text with a number from 1, without its newline; empty where the text has fewer.
pub fn line_of(text: &[u8], number: u32) -> &[u8] {
    let mut rest = text;
    let mut left = number;
    while let Some((line, following)) = next_line(rest) {
        if left <= 1 {
            return line;
        }
        left -= 1;
        rest = following;
    }
    b""
}

/// The name of a file, which is the last part of its path.
pub fn base_name(path: &[u8]) -> &[u8] {
    let mut last = path;
    for part in path.split(|byte| *byte == b'/') {
        last = part;
    }
    last
}
