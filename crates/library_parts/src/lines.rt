//! How many lines a text has.

ghost use Rattle.std.specs.Prelude.{◌≡◌, ◌≤◌, ◌<◌, ◌^◌, length};
ghost use Rattle.library_parts.specs.Lines.{line_count};

use lc_base::next_line;

/// The number of lines of a text.
pub fn line_count(text: &[u8]) -> u32
    requires { length text.now < 2 ^ 31 }
    ensures is { result ≡ line_count text.now }
    ensures few { result ≤ length text.now }
{
    let mut count = 0;
    let mut rest = text;
    while let Some((_, following)) = next_line(rest) {
        count += 1;
        rest = following;
    }
    count
}
