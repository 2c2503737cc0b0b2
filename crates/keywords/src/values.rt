//! The values of keywords.

ghost use Rattle.std.specs.Prelude.{◌≡◌, IfOk, length, map, option_map, option_and_then, slice_get};
ghost use Rattle.std.specs.Option.{option_copied};
ghost use Rattle.keywords.specs.Cells.{seen};
ghost use Rattle.keywords.specs.Keywords.{operands, number_or, texts, numbers, ranges, pairs, text_value, number_value, numbers_value, texts_value};

use crate::{Entry, ValueRef, Values, posix_number, posix_text, posix_texts};
use lc_base::{ByteText, Category, List, Place};
use std::alloc::{AllocError, Global};

/// The operands of the first line with this keyword.
fn operands<'a>(entries: &'a [Entry], keyword: &[u8]) -> Option<&'a Values>
    ensures { option_copied result ≡ operands entries.now keyword.now }
{
    for entry in entries {
        if entry.keyword.as_bytes() == keyword {
            return Some(&entry.values);
        }
    }
    None
}

/// The first operand of the first line with this keyword.
fn first_value<'a>(entries: &'a [Entry], keyword: &[u8]) -> Option<(Place, ValueRef<'a>)>
    ensures { option_map (λ x. (x.0, seen x.1)) result ≡ option_and_then (λ vs. slice_get vs 0) (operands entries.now keyword.now) }
{
    operands(entries, keyword)?.walk().next()
}

/// A copy of the text of a keyword, or else of its POSIX value.
pub fn text_value(
    alloc: Global,
    category: Category,
    entries: &[Entry],
    keyword: &[u8],
) -> Result<ByteText, AllocError>
    ensures { IfOk result (λ t. t ≡ text_value category entries.now keyword.now) }
{
    match first_value(entries, keyword) {
        Some((_, ValueRef::Text(text))) => ByteText::of(alloc, text),
        _ => ByteText::of(alloc, posix_text(category, keyword)),
    }
}

/// The number of a keyword, or else another one.
fn number_or(other: i32, entries: &[Entry], keyword: &[u8]) -> i32
    ensures { result ≡ number_or other (operands entries.now keyword.now) }
{
    match first_value(entries, keyword) {
        Some((_, ValueRef::Number(n))) => n,
        _ => other,
    }
}

/// The number of a keyword, or else its POSIX value.
pub fn number_value(category: Category, entries: &[Entry], keyword: &[u8]) -> i32
    ensures { result ≡ number_value category entries.now keyword.now }
{
    number_or(posix_number(category, keyword), entries, keyword)
}

/// The numbers of a keyword, or else its POSIX value alone.
pub fn numbers_value(
    alloc: Global,
    category: Category,
    entries: &[Entry],
    keyword: &[u8],
) -> Result<List<i32>, AllocError>
    ensures { IfOk result (λ ns. ns ≡ numbers_value category entries.now keyword.now) }
{
    match operands(entries, keyword) {
        Some(values) => numbers(alloc, values),
        None => {
            let mut only = Vec::new(alloc);
            only.push(posix_number(category, keyword))?;
            Ok(List::of(only))
        }
    }
}

/// Copies of the texts of a keyword, or else of its POSIX value.
pub fn texts_value(
    alloc: Global,
    category: Category,
    entries: &[Entry],
    keyword: &[u8],
) -> Result<List<ByteText>, AllocError>
    ensures { IfOk result (λ ts. ts ≡ texts_value category entries.now keyword.now) }
{
    match operands(entries, keyword) {
        Some(values) => texts(alloc, values),
        None => copies(alloc, posix_texts(category, keyword)),
    }
}

/// Copies of texts.
fn copies(alloc: Global, texts: &[&[u8]]) -> Result<List<ByteText>, AllocError>
    ensures { IfOk result (λ copies. copies ≡ map (λ t. t.now) texts.now) }
{
    let mut copies = Vec::with_capacity(alloc, texts.len())?;
    for text in texts {
        copies.push(ByteText::of(alloc, text)?)?;
    }
    Ok(List::of(copies))
}

/// Copies of the texts among values.
fn texts(alloc: Global, values: &Values) -> Result<List<ByteText>, AllocError>
    ensures { IfOk result (λ ts. ts ≡ texts values.now) }
{
    let mut found = Vec::with_capacity(alloc, values.len())?;
    let mut walk = values.walk();
    while let Some((_, value)) = walk.next() {
        if let ValueRef::Text(text) = value {
            found.push(ByteText::of(alloc, text)?)?;
        }
    }
    Ok(List::of(found))
}

/// How many texts are among values.
pub fn text_count(values: &Values) -> usize
    ensures { result ≡ length (texts values.now) }
{
    let mut count = values.len();
    let mut walk = values.walk();
    while let Some((_, value)) = walk.next() {
        match value {
            ValueRef::Text(_) => {}
            ValueRef::Number(_) | ValueRef::Chars(_, _) | ValueRef::Pair(_, _) => count -= 1,
        }
    }
    count
}

/// The ranges of characters among values.
pub fn ranges(alloc: Global, values: &Values) -> Result<Vec<(u32, u32)>, AllocError>
    ensures { IfOk result (λ v. v.items ≡ ranges values.now) }
{
    let mut found = Vec::new(alloc);
    let mut walk = values.walk();
    while let Some((_, value)) = walk.next() {
        if let ValueRef::Chars(first, last) = value {
            found.push((first, last))?;
        }
    }
    Ok(found)
}

/// The pairs of characters among values.
pub fn pairs(alloc: Global, values: &Values) -> Result<Vec<(u32, u32)>, AllocError>
    ensures { IfOk result (λ v. v.items ≡ pairs values.now) }
{
    let mut found = Vec::new(alloc);
    let mut walk = values.walk();
    while let Some((_, value)) = walk.next() {
        if let ValueRef::Pair(first, second) = value {
            found.push((first, second))?;
        }
    }
    Ok(found)
}

/// The numbers among values.
fn numbers(alloc: Global, values: &Values) -> Result<List<i32>, AllocError>
    ensures { IfOk result (λ ns. ns ≡ numbers values.now) }
{
    let mut found = Vec::new(alloc);
    let mut walk = values.walk();
    while let Some((_, value)) = walk.next() {
        if let ValueRef::Number(n) = value {
            found.push(n)?;
        }
    }
    Ok(List::of(found))
}
