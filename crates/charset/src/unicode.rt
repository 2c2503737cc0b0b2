//! The charset `UTF-8`, which is computed and never listed.

ghost use Rattle.std.specs.Prelude.{◌≡◌, ◌≤◌, IfSome};
ghost use Rattle.std.specs.Option.{option_map};
ghost use Rattle.charset.specs.CodedSet.{utf8, has, named_beside, encoded, Decodes, IsNextRun};
ghost use Rattle.charset.specs.Code.{code_bytes, IsPadded};

use crate::code::Code;
use crate::hex::numbered;

/// Whether a number is a Unicode scalar value.
pub fn has(w: u32) -> bool
    ensures { result ≡ has utf8 w }
{
    w < 0xD800 || (0xE000 <= w && w <= 0x10FFFF)
}

/// The character of a name with its number in four or eight hexadecimal digits.
pub fn named(name: &[u8]) -> Option<u32>
    ensures { result ≡ named_beside utf8 name.now }
{
    let w = numbered(4, name).or(numbered(8, name))?;
    if has(w) { Some(w) } else { None }
}

/// The encoding of a character.
pub fn encode(w: u32) -> Option<Code>
    ensures bytes { option_map code_bytes result ≡ encoded utf8 w }
    ensures len { IfSome result (λ code. 1 ≤ code.len) }
    ensures padding { IfSome result IsPadded }
{
    let c = char::from_u32(w)?;
    let mut buffer = [0; 4];
    Some(Code::of(c.encode_utf8(&mut buffer).as_bytes()))
}

fn only_char(text: &str) -> Option<u32>
    ensures { Decodes utf8 text.now result }
{
    let mut chars = text.chars();
    let Some(first) = chars.next() else {
        return None;
    };
    match chars.next() {
        None => Some(first as u32),
        Some(_) => None,
    }
}

/// The character with just these bytes.
pub fn decode(bytes: &[u8]) -> Option<u32>
    ensures { Decodes utf8 bytes.now result }
{
    match str::from_utf8(bytes) {
        Ok(text) => only_char(text),
        Err(_) => None,
    }
}

/// The next run of scalar values, which the surrogates break.
pub fn run_from(w: u32) -> Option<(u32, u32)>
    ensures { IsNextRun utf8 w result }
{
    match w {
        0..=0xD7FF => Some((w, 0xD7FF)),
        0xD800..=0x10FFFF => Some((w.max(0xE000), 0x10FFFF)),
        _ => None,
    }
}
