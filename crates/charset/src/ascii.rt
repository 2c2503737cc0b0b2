//! The charset `POSIX`: the codes 0 to 127.

ghost use Rattle.std.specs.Prelude.{◌≡◌, ◌≤◌, IfSome};
ghost use Rattle.std.specs.Option.{option_map};
ghost use Rattle.charset.specs.CodedSet.{posix, has, named_beside, encoded, Decodes, IsNextRun};
ghost use Rattle.charset.specs.Code.{code_bytes, IsPadded};

use crate::code::Code;
use crate::hex::numbered;

const LAST: u32 = 127;

/// Whether a number is the code of a character.
pub fn has(w: u32) -> bool
    ensures { result ≡ has posix w }
{
    w <= LAST
}

/// The character of a name with its number in four hexadecimal digits.
pub fn named(name: &[u8]) -> Option<u32>
    ensures { result ≡ named_beside posix name.now }
{
    let w = numbered(4, name)?;
    if has(w) { Some(w) } else { None }
}

/// The encoding of a character.
pub fn encode(w: u32) -> Option<Code>
    ensures bytes { option_map code_bytes result ≡ encoded posix w }
    ensures len { IfSome result (λ code. 1 ≤ code.len) }
    ensures padding { IfSome result IsPadded }
{
    if w > LAST {
        return None;
    }
    Some(Code::of(&[w as u8]))
}

/// The character with just these bytes.
pub fn decode(bytes: &[u8]) -> Option<u32>
    ensures { Decodes posix bytes.now result }
{
    match bytes {
        [c] if c.is_ascii() => Some(u32::from(*c)),
        _ => None,
    }
}

/// The codes that are left.
pub fn run_from(w: u32) -> Option<(u32, u32)>
    ensures { IsNextRun posix w result }
{
    if has(w) { Some((w, LAST)) } else { None }
}
