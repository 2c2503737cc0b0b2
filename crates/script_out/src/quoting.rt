//! Texts in quotes.

ghost use Rattle.std.specs.Prelude.{◌≡◌, ◌++◌, ◌<◌, ◌≤◌, ◌==◌, ◌||◌, nat_lt, take, length, [], ◌∷◌, slice_index_or, false, IsTrue, OnOk};
ghost use Rattle.std.specs.List.{flat_map};
ghost use Rattle.script_out.specs.Output.{hex_digit, escaped, quoted};

use crate::short::{LONG, push_short};
use std::alloc::AllocError;

/// Whether each byte, by its number, stands in quotes as it is.
const PLAIN: [bool; 256] = [
    false, false, false, false, false, false, false, false, false, false, false, false, false,
    false, false, false, false, false, false, false, false, false, false, false, false, false,
    false, false, false, false, false, false, true, true, false, true, true, true, true, true,
    true, true, true, true, true, true, true, true, true, true, true, true, true, true, true, true,
    true, true, true, true, true, true, true, true, true, true, true, true, true, true, true, true,
    true, true, true, true, true, true, true, true, true, true, true, true, true, true, true, true,
    true, true, true, true, false, true, true, true, true, true, true, true, true, true, true,
    true, true, true, true, true, true, true, true, true, true, true, true, true, true, true, true,
    true, true, true, true, true, true, true, true, false, true, true, true, true, true, true,
    true, true, true, true, true, true, true, true, true, true, true, true, true, true, true, true,
    true, true, true, true, true, true, true, true, true, true, true, true, true, true, true, true,
    true, true, true, true, true, true, true, true, true, true, true, true, true, true, true, true,
    true, true, true, true, true, true, true, true, true, true, true, true, true, true, true, true,
    true, true, true, true, true, true, true, true, true, true, true, true, true, true, true, true,
    true, true, true, true, true, true, true, true, true, true, true, true, true, true, true, true,
    true, true, true, true, true, true, true, true, true, true, true, true, true, true, true, true,
    true, true, true, true, true, true, true, true, true, true,
];

/// Adds a text in quotes. A quote and a backslash stand behind a backslash, and a control byte is
/// `\xHH`.
pub fn push_quoted(out: &mut Vec<u8>, text: &[u8]) -> Result<(), AllocError>
    ensures { OnOk result (out.new.items ≡ out.old.items ++ quoted text.now) }
{
    out.push(b'"')?;
    push_to_quote(out, text)
}

/// Adds a text in quotes behind a space. One of a single plain byte is added at once.
pub fn push_quoted_behind_space(out: &mut Vec<u8>, text: &[u8]) -> Result<(), AllocError>
    ensures { OnOk result (out.new.items ≡ out.old.items ++ 32 ∷ quoted text.now) }
{
    match text {
        [] => out.extend_from_slice(b" \"\""),
        [c] if is_plain(*c) => out.extend_from_slice(&[b' ', b'"', *c, b'"']),
        _ => {
            out.extend_from_slice(b" \"")?;
            push_to_quote(out, text)
        }
    }
}

/// Adds a text behind its first quote, with the last one.
fn push_to_quote(out: &mut Vec<u8>, text: &[u8]) -> Result<(), AllocError>
    ensures { OnOk result (out.new.items ≡ out.old.items ++ flat_map escaped text.now ++ 34 ∷ []) }
{
    if text.len() < LONG {
        push_each_escaped(out, text)?;
    } else {
        push_escaped_text(out, text)?;
    }
    out.push(b'"')?;
    Ok(())
}

/// Adds the bytes of a text one by one.
fn push_each_escaped(out: &mut Vec<u8>, text: &[u8]) -> Result<(), AllocError>
    ensures { OnOk result (out.new.items ≡ out.old.items ++ flat_map escaped text.now) }
{
    for c in text {
        if is_plain(*c) {
            out.push(*c)?;
        } else {
            push_escaped(out, *c)?;
        }
    }
    Ok(())
}

/// Adds a text, whose plain bytes are asked in eights.
fn push_escaped_text(out: &mut Vec<u8>, text: &[u8]) -> Result<(), AllocError>
    ensures { OnOk result (out.new.items ≡ out.old.items ++ flat_map escaped text.now) }
{
    let mut left = text;
    loop {
        let (plain, behind) = left.split_at(plain_length(left));
        push_short(out, plain)?;
        match behind {
            [] => return Ok(()),
            [c, behind @ ..] => {
                push_escaped(out, *c)?;
                left = behind;
            }
        }
    }
}

/// How many bytes at the front of a text stand in quotes as they are.
fn plain_length(text: &[u8]) -> usize
    ensures within { result ≤ length text.now }
    ensures plain { flat_map escaped (take result text.now) ≡ take result text.now }
{
    let eights = plain_eights(text);
    let (_, behind) = text.split_at(eights);
    eights + plain_singles(behind)
}

/// How many bytes stand in the eights at the front of a text that stand in quotes as they are.
fn plain_eights(text: &[u8]) -> usize
    ensures within { result ≤ length text.now }
    ensures plain { flat_map escaped (take result text.now) ≡ take result text.now }
{
    let mut eights = 0;
    let mut left = text;
    while begins_plain(left) {
        let (_, behind) = left.split_at(8);
        eights += 8;
        left = behind;
    }
    eights
}

/// Whether a text begins with eight bytes that stand in quotes as they are. Asks all without a branch.
fn begins_plain(text: &[u8]) -> bool
    ensures { IsTrue result → (8 ≤ length text.now) × (flat_map escaped (take 8 text.now) ≡ take 8 text.now) }
{
    match text {
        [a, b, c, d, e, f, g, h, ..] => {
            is_plain(*a)
                & is_plain(*b)
                & is_plain(*c)
                & is_plain(*d)
                & is_plain(*e)
                & is_plain(*f)
                & is_plain(*g)
                & is_plain(*h)
        }
        _ => false,
    }
}

/// How many bytes at the front of a text stand in quotes as they are, asked one by one.
fn plain_singles(text: &[u8]) -> usize
    ensures within { result ≤ length text.now }
    ensures plain { flat_map escaped (take result text.now) ≡ take result text.now }
{
    for (i, c) in text.iter().enumerate() {
        if !is_plain(*c) {
            return i;
        }
    }
    text.len()
}

/// Whether a byte stands in quotes as it is.
fn is_plain(c: u8) -> bool
    ensures { IsTrue result → escaped c ≡ c ∷ [] }
{
    is_set(&PLAIN, c)
}

/// The row of a byte.
fn is_set(table: &[bool; 256], c: u8) -> bool
    ensures { result ≡ slice_index_or table.now c false }
{
    table[usize::from(c)]
}

/// Whether a byte has a backslash before it in quotes.
fn is_quote(c: u8) -> bool
    ensures { result ≡ ((c == 34) || (c == 92)) }
{
    c == b'"' || c == b'\\'
}

/// Whether a byte stands in quotes by its number.
fn is_control(c: u8) -> bool
    ensures { result ≡ (nat_lt c 32 || (c == 127)) }
{
    c < 32 || c == 127
}

fn push_escaped(out: &mut Vec<u8>, c: u8) -> Result<(), AllocError>
    ensures { OnOk result (out.new.items ≡ out.old.items ++ escaped c) }
{
    if is_quote(c) {
        out.extend_from_slice(&[b'\\', c])
    } else if is_control(c) {
        out.extend_from_slice(&[b'\\', b'x', hex_digit(c / 16), hex_digit(c % 16)])
    } else {
        out.extend_from_slice(&[c])
    }
}

fn hex_digit(n: u8) -> u8
    requires { n < 16 }
    ensures { result ≡ hex_digit n }
{
    if n < 10 { b'0' + n } else { b'a' - 10 + n }
}
