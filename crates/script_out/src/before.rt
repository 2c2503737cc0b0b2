//! Short texts, put into a buffer before what stands there from an index on.

ghost use Rattle.std.specs.Prelude.{◌≡◌, ◌+◌, ◌≤◌, ◌∷◌, ◌++◌, length, drop};
ghost use Rattle.std.specs.Fmt.{decimal};

use itoa::write_digits;

/// Puts a byte before the others, and gives where it stands.
#[inline(always)]
pub fn put_byte(buf: &mut [u8], at: usize, byte: u8) -> usize
    requires some { 1 ≤ at }
    requires within { at ≤ length buf.old }
    ensures start { result + 1 ≡ at }
    ensures text { drop result buf.new ≡ byte ∷ drop at buf.old }
{
    buf[at - 1] = byte;
    at - 1
}

/// Puts bytes before the others, and gives where they begin.
#[inline(always)]
pub fn put_bytes(buf: &mut [u8], at: usize, bytes: &[u8]) -> usize
    requires room { length bytes.now ≤ at }
    requires within { at ≤ length buf.old }
    ensures start { result + length bytes.now ≡ at }
    ensures text { drop result buf.new ≡ bytes.now ++ drop at buf.old }
{
    let start = at - bytes.len();
    buf[start..at].copy_from_slice(bytes);
    start
}

/// Puts a name, which is mostly one letter, before the others, and gives where it begins.
#[inline(always)]
pub fn put_name(buf: &mut [u8], at: usize, name: &[u8]) -> usize
    requires room { length name.now ≤ at }
    requires within { at ≤ length buf.old }
    ensures start { result + length name.now ≡ at }
    ensures text { drop result buf.new ≡ name.now ++ drop at buf.old }
{
    match name {
        [letter] => put_byte(buf, at, *letter),
        _ => put_bytes(buf, at, name),
    }
}

/// Puts the digits of a number before the others, and gives where they begin.
#[inline(always)]
pub fn put_number(buf: &mut [u8], at: usize, n: u64) -> usize
    requires room { 20 ≤ at }
    requires within { at ≤ length buf.old }
    ensures start { at ≤ result + 20 }
    ensures end { result ≤ at }
    ensures text { drop result buf.new ≡ decimal n ++ drop at buf.old }
{
    write_digits(n, buf, at)
}

/// Puts the digits of a number of 32 bits before the others, and gives where they begin.
#[inline(always)]
pub fn put_count(buf: &mut [u8], at: usize, n: u32) -> usize
    requires room { 10 ≤ at }
    requires within { at ≤ length buf.old }
    ensures start { at ≤ result + 10 }
    ensures end { result ≤ at }
    ensures text { drop result buf.new ≡ decimal n ++ drop at buf.old }
{
    write_digits(u64::from(n), buf, at)
}
