//! What words of a command mean.

ghost use Rattle.std.specs.Prelude.{◌≡◌, ◌<◌, ◌++◌, IfOk, IfSome, OnOk, option_map};
ghost use Rattle.std.specs.List.{list_all, slice_split};
ghost use Rattle.std.specs.Option.{option_copied, option_to_list};
ghost use Rattle.script_words.specs.declared.word.Quoting.TheVariants.{Text};
ghost use Rattle.script_words.specs.Words.{is_plain_byte, hex_value, quoted_step, is_closed, unquoted, text_of_word, quoted_of_word, zone_of_word, behind_front, max_number, categories_of_word, with_name, bits_with, is_comma, mask_of_word, variable_of_word, class_of_word, key_of_word, cell_number, handle_of_word, cell_of_word};
ghost use Rattle.script_words.specs.Seen.{seen_handle, seen_cell, IsQuoting};

use crate::categories::CategoryArgument;
use crate::given::{MAX_LIMIT, ZONE_LIMIT};
use crate::names::{is_class_name, is_locale_name, is_thread_name};
use lc_base::{ByteText, CELLS, Category, Mask, category_named, cut_at, decimal_number};
use std::alloc::{AllocError, Global};

/// What stands before a byte of a quoted text.
#[derive(Clone, Copy)]
pub enum Quoting {
    /// A byte of the text, or the opening quote.
    Text,
    /// A backslash.
    Escape,
    /// `\x`.
    High,
    /// `\x` and a digit with this value.
    Low(u8),
    /// The closing quote.
    Closed,
}

/// A handle as it is written, with the name of its thread.
#[derive(Clone, Copy)]
pub struct WrittenHandle<'a> {
    pub thread: &'a [u8],
    pub row: u32,
    pub generation: u32,
}

/// A cell as it is written, with the name of its thread.
#[derive(Clone, Copy)]
pub struct WrittenCell<'a> {
    pub thread: &'a [u8],
    pub cell: u32,
}

/// The word for all categories.
const ALL: &[u8] = b"LC_ALL";

fn is_plain_byte(c: u8) -> bool
    ensures { result ≡ is_plain_byte c }
{
    c >= 32 && c != 127 && c != b'"'
}

/// Whether no byte is a control byte or a quote.
fn is_plain(word: &[u8]) -> bool
    ensures { result ≡ list_all is_plain_byte word.now }
{
    word.iter().all(|c| is_plain_byte(*c))
}

/// The value of a hexadecimal digit.
fn hex_value(c: u8) -> Option<u8>
    ensures is { result ≡ hex_value c }
    ensures small { IfSome result (λ v. v < 16) }
{
    match c {
        b'0'..=b'9' => Some(c - b'0'),
        b'A'..=b'F' => Some(c - b'A' + 10),
        b'a'..=b'f' => Some(c - b'a' + 10),
        _ => None,
    }
}

/// What stands behind a byte of a quoted text, and the byte of the text that ends there.
fn quoted_step(quoting: Quoting, c: u8) -> Option<(Quoting, Option<u8>)>
    requires { IsQuoting quoting }
    ensures is { result ≡ quoted_step quoting c }
    ensures small { IfSome result (λ x. IsQuoting x.0) }
{
    match quoting {
        Quoting::Text if c == b'"' => Some((Quoting::Closed, None)),
        Quoting::Text if c == b'\\' => Some((Quoting::Escape, None)),
        Quoting::Text => Some((Quoting::Text, Some(c))),
        Quoting::Escape if c == b'"' || c == b'\\' => Some((Quoting::Text, Some(c))),
        Quoting::Escape if c == b'x' => Some((Quoting::High, None)),
        Quoting::Escape => None,
        Quoting::High => Some((Quoting::Low(hex_value(c)?), None)),
        Quoting::Low(high) => Some((Quoting::Text, Some(high * 16 + hex_value(c)?))),
        Quoting::Closed => None,
    }
}

/// Adds a byte, if there is one.
fn push_some(text: &mut Vec<u8>, byte: Option<u8>) -> Result<(), AllocError>
    ensures { OnOk result (text.new.items ≡ text.old.items ++ option_to_list byte) }
{
    match byte {
        Some(byte) => text.extend_from_slice(&[byte]),
        None => Ok(()),
    }
}

/// Whether a text that ends here is closed.
fn is_closed(quoting: Quoting) -> bool
    ensures { result ≡ is_closed quoting }
{
    match quoting {
        Quoting::Closed => true,
        Quoting::Text | Quoting::Escape | Quoting::High | Quoting::Low(_) => false,
    }
}

/// The text whose bytes, with the closing quote, stand behind the opening quote.
fn unquoted(alloc: Global, bytes: &[u8]) -> Result<Option<ByteText>, AllocError>
    ensures { IfOk result (λ text. text ≡ unquoted Text bytes.now) }
{
    let mut text = Vec::new(alloc);
    let mut quoting = Quoting::Text;
    for c in bytes {
        let Some((next, byte)) = quoted_step(quoting, *c) else {
            return Ok(None);
        };
        push_some(&mut text, byte)?;
        quoting = next;
    }
    if is_closed(quoting) {
        Ok(Some(ByteText::from_vec(text)))
    } else {
        Ok(None)
    }
}

/// The text that a word is, plain or in quotes.
#[tactic(auto, unfolding(crate::specs::Words::text_of_word))]
pub fn text_of_word(alloc: Global, word: &[u8]) -> Result<Option<ByteText>, AllocError>
    ensures { IfOk result (λ text. text ≡ text_of_word word.now) }
{
    match word {
        [] => Ok(None),
        [b'"', rest @ ..] => unquoted(alloc, rest),
        _ if is_plain(word) => Ok(Some(ByteText::of(alloc, word)?)),
        _ => Ok(None),
    }
}

/// The text of a word in quotes.
#[tactic(auto, unfolding(crate::specs::Words::quoted_of_word))]
pub fn quoted_of_word(alloc: Global, word: &[u8]) -> Result<Option<ByteText>, AllocError>
    ensures { IfOk result (λ text. text ≡ quoted_of_word word.now) }
{
    match word {
        [b'"', rest @ ..] => unquoted(alloc, rest),
        _ => Ok(None),
    }
}

/// The name of a time zone, plain or in quotes.
#[tactic(auto, unfolding(crate::specs::Words::zone_of_word))]
pub fn zone_of_word(alloc: Global, word: &[u8]) -> Result<Option<ByteText>, AllocError>
    ensures { IfOk result (λ zone. zone ≡ zone_of_word word.now) }
{
    match text_of_word(alloc, word)? {
        Some(zone) if zone.as_bytes().len() <= ZONE_LIMIT => Ok(Some(zone)),
        _ => Ok(None),
    }
}

/// What stands behind a front, where a word begins with it.
pub fn behind_front<'a>(front: &[u8], word: &'a [u8]) -> Option<&'a [u8]>
    ensures { option_copied result ≡ behind_front front.now word.now }
{
    word.strip_prefix(front)
}

/// A number up to 4096.
#[tactic(auto, unfolding(crate::specs::Words::max_number))]
pub fn max_number(word: &[u8]) -> Option<u32>
    ensures { result ≡ max_number word.now }
{
    match decimal_number(word) {
        Some(number) if number <= MAX_LIMIT => Some(number),
        _ => None,
    }
}

/// A category, or `LC_ALL`.
#[tactic(auto, unfolding(crate::specs::Words::categories_of_word))]
pub fn categories_of_word(word: &[u8]) -> Option<CategoryArgument>
    ensures { result ≡ categories_of_word word.now }
{
    if word == ALL {
        return Some(CategoryArgument::All);
    }
    Some(CategoryArgument::One(category_named(word)?))
}

/// The bits with those of a category's name.
fn with_name(bits: u32, name: &[u8]) -> Option<u32>
    ensures { result ≡ with_name bits name.now }
{
    Some(bits | category_named(name)?.bit())
}

/// The bits of category names with commas between them.
fn named_bits(names: &[u8]) -> Option<u32>
    ensures { result ≡ bits_with 0 (slice_split is_comma names.now) }
{
    let mut bits = 0;
    let mut rest = names;
    while let Some((name, more)) = cut_at(b',', rest) {
        bits = with_name(bits, name)?;
        rest = more;
    }
    with_name(bits, rest)
}

/// The bits of a mask: `LC_ALL`, a number, or names of categories with commas between them.
#[tactic(auto, unfolding(crate::specs::Words::mask_of_word))]
pub fn mask_of_word(word: &[u8]) -> Option<u32>
    ensures { result ≡ mask_of_word word.now }
{
    if word == ALL {
        return Some(Mask::all().bits());
    }
    match decimal_number(word) {
        Some(bits) => Some(bits),
        None => named_bits(word),
    }
}

/// A variable.
#[tactic(auto, unfolding(crate::specs::Words::variable_of_word))]
pub fn variable_of_word(alloc: Global, word: &[u8]) -> Result<Option<ByteText>, AllocError>
    ensures { IfOk result (λ name. name ≡ variable_of_word word.now) }
{
    if is_thread_name(word) {
        Ok(Some(ByteText::of(alloc, word)?))
    } else {
        Ok(None)
    }
}

/// The name of a character class.
#[tactic(auto, unfolding(crate::specs::Words::class_of_word))]
pub fn class_of_word(alloc: Global, word: &[u8]) -> Result<Option<ByteText>, AllocError>
    ensures { IfOk result (λ name. name ≡ class_of_word word.now) }
{
    if is_class_name(word) {
        Ok(Some(ByteText::of(alloc, word)?))
    } else {
        Ok(None)
    }
}

/// The key of a later version of a locale, or the name of a message catalog.
#[tactic(auto, unfolding(crate::specs::Words::key_of_word))]
pub fn key_of_word(alloc: Global, word: &[u8]) -> Result<Option<ByteText>, AllocError>
    ensures { IfOk result (λ key. key ≡ key_of_word word.now) }
{
    if is_locale_name(word) {
        Ok(Some(ByteText::of(alloc, word)?))
    } else {
        Ok(None)
    }
}

/// The number of a cell.
#[tactic(auto, unfolding(crate::specs::Words::cell_number))]
pub fn cell_number(word: &[u8]) -> Option<u32>
    ensures is { result ≡ cell_number word.now }
    ensures small { IfSome result (λ n. n < CELLS) }
{
    match decimal_number(word) {
        Some(number) if number < CELLS => Some(number),
        _ => None,
    }
}

/// `THREAD.ROW.GENERATION`.
#[tactic(auto, unfolding(crate::specs::Words::handle_of_word))]
pub fn handle_of_word(word: &[u8]) -> Option<WrittenHandle<'_>>
    ensures { option_map seen_handle result ≡ handle_of_word word.now }
{
    let (thread, numbers) = cut_at(b'.', word)?;
    if !is_thread_name(thread) {
        return None;
    }
    let (row, generation) = cut_at(b'.', numbers)?;
    Some(WrittenHandle {
        thread,
        row: decimal_number(row)?,
        generation: decimal_number(generation)?,
    })
}

/// `THREAD.K`.
#[tactic(auto, unfolding(crate::specs::Words::cell_of_word))]
pub fn cell_of_word(word: &[u8]) -> Option<WrittenCell<'_>>
    ensures is { option_map seen_cell result ≡ cell_of_word word.now }
    ensures small { IfSome result (λ c. c.cell < CELLS) }
{
    let (thread, number) = cut_at(b'.', word)?;
    if !is_thread_name(thread) {
        return None;
    }
    Some(WrittenCell {
        thread,
        cell: cell_number(number)?,
    })
}
