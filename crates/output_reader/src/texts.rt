//! Texts in quotes, and the two lists of a localeconv.

ghost use Rattle.std.specs.Prelude.{◌≡◌, ◌≢◌, ℕ, ◌+◌, ◌*◌, ◌<◌, ◌++◌, ◌∷◌, List, [], length, None, IfSome, IfOk};
ghost use Rattle.std.specs.List.{flat_map};
ghost use Rattle.script_out.specs.Output.{hex_digit, escaped, quoted, texts_text, numbers_text};
ghost use Rattle.output_reader.specs.Ranges.{AreBytes};
ghost use Rattle.output_reader.specs.Reading.{Gives, GivesWith, GivesByte, EndsTexts};

use crate::pieces::{behind, byte_number, first_word};
use crate::unread::Unread;
use lc_base::{ByteText, List};
use script_out::Texts;
use std::alloc::Global;

/// The text in quotes.
pub fn quoted_text(alloc: Global, bytes: &[u8]) -> Result<ByteText, Unread>
    ensures { (text : List ℕ) → quoted text ≡ bytes.now → Gives text result }
{
    let Some(body) = behind(bytes, b"\"") else {
        return Err(Unread::Unprinted);
    };
    let (text, _) = unquoted(alloc, body)?;
    Ok(text)
}

/// The texts, each behind a space, and what follows them.
pub fn texts(alloc: Global, bytes: &[u8]) -> Result<(Texts, &[u8]), Unread>
    ensures { (all : List (List ℕ)) (rest : List ℕ) → EndsTexts rest → bytes.now ≡ texts_text all ++ rest → GivesWith all rest result }
{
    let mut found = Texts::new(alloc);
    let mut left = bytes;
    while let Some(body) = behind(left, b" \"") {
        let (text, rest) = unquoted(alloc, body)?;
        found.push(text.as_bytes())?;
        left = rest;
    }
    Ok((found, left))
}

/// The numbers, each behind a space.
pub fn numbers(alloc: Global, bytes: &[u8]) -> Result<List<u8>, Unread>
    ensures fit { IfOk result (λ all. AreBytes all) }
    ensures back { (all : List ℕ) → AreBytes all → numbers_text all ≡ bytes.now → Gives all result }
{
    let mut found = Vec::new(alloc);
    let mut left = bytes;
    while let Some(more) = behind(left, b" ") {
        let (digits, rest) = first_word(more);
        let n = byte_number(digits)?;
        found.push(n)?;
        left = rest;
    }
    Ok(List::of(found))
}

/// The text up to the quote that ends it, and what follows that quote.
fn unquoted(alloc: Global, body: &[u8]) -> Result<(ByteText, &[u8]), Unread>
    ensures shorter { IfOk result (λ r. length r.1.now < length body.now) }
    ensures back { (text rest : List ℕ) → body.now ≡ flat_map escaped text ++ 34 ∷ rest → GivesWith text rest result }
{
    let mut text = Vec::new(alloc);
    let mut left = body;
    while let Some((c, rest)) = unescaped(left) {
        text.push(c)?;
        left = rest;
    }
    match behind(left, b"\"") {
        Some(rest) => Ok((ByteText::from_vec(text), rest)),
        None => Err(Unread::Unprinted),
    }
}

/// The first byte of a text in quotes, and what follows it; `None` at a bare quote.
fn unescaped(bytes: &[u8]) -> Option<(u8, &[u8])>
    ensures shorter { IfSome result (λ r. length r.1.now < length bytes.now) }
    ensures back { (c : ℕ) (rest : List ℕ) → bytes.now ≡ escaped c ++ rest → GivesByte c rest result }
    ensures quote { (rest : List ℕ) → bytes.now ≡ 34 ∷ rest → result ≡ None }
{
    let (c, rest) = first(bytes)?;
    match c {
        b'"' => None,
        b'\\' => escape(rest),
        _ => Some((c, rest)),
    }
}

/// The byte that is said behind a backslash, and what follows it.
fn escape(bytes: &[u8]) -> Option<(u8, &[u8])>
    ensures shorter { IfSome result (λ r. length r.1.now < length bytes.now) }
    ensures same { (c : ℕ) (rest : List ℕ) → c ≢ 120 → bytes.now ≡ c ∷ rest → GivesByte c rest result }
    ensures value { (high low : ℕ) (rest : List ℕ) → high < 16 → low < 16
        → bytes.now ≡ 120 ∷ hex_digit high ∷ hex_digit low ∷ rest → GivesByte (high * 16 + low) rest result }
{
    let (c, rest) = first(bytes)?;
    if c != b'x' {
        return Some((c, rest));
    }
    let (high, rest) = first(rest)?;
    let (low, rest) = first(rest)?;
    Some((hex_value(high) * 16 + hex_value(low), rest))
}

/// The first byte, and what follows it.
fn first(bytes: &[u8]) -> Option<(u8, &[u8])>
    ensures read { IfSome result (λ r. bytes.now ≡ r.0 ∷ r.1.now) }
    ensures back { (c : ℕ) (rest : List ℕ) → bytes.now ≡ c ∷ rest → GivesByte c rest result }
{
    match bytes {
        [first, rest @ ..] => Some((*first, rest)),
        [] => None,
    }
}

/// The value of a hexadecimal digit with a lower-case letter.
fn hex_value(digit: u8) -> u8
    ensures small { result < 16 }
    ensures back { (n : ℕ) → n < 16 → hex_digit n ≡ digit → result ≡ n }
{
    if digit < b'a' {
        digit.wrapping_sub(b'0') % 16
    } else {
        (digit - b'a' + 10) % 16
    }
}
