//! What the table says of a keyword.

ghost use Rattle.std.specs.Prelude.{◌≡◌, map, option_map};
ghost use Rattle.keywords.specs.LookUp.{row_in, keyword_of, takes_of, rule_of, posix_in, posix_text, posix_number, posix_texts, posix_ranges, posix_pairs};
ghost use Rattle.keywords.specs.Table.{keywords};
ghost use Rattle.keywords.specs.Rows.{value_of, row_of};

use crate::row::{Keyword, Operands, Posix, Rule};
use crate::table::{CTYPE, MESSAGES, MONETARY, NUMERIC, TIME};
use lc_base::Category;

/// The first of rows with a name.
fn row_in(mut rows: &[Keyword], name: &[u8]) -> Option<Keyword>
    ensures { option_map row_of result ≡ row_in (map row_of rows.entry.now) name.now }
{
    while let [row, rest @ ..] = rows {
        if row.name == name {
            return Some(*row);
        }
        rows = rest;
    }
    None
}

/// The rows of a category.
fn rows_of(category: Category) -> &'static [Keyword]
    ensures { map row_of result.now ≡ keywords category }
{
    match category {
        Category::Ctype => &CTYPE,
        Category::Numeric => &NUMERIC,
        Category::Monetary => &MONETARY,
        Category::Time => &TIME,
        Category::Messages => &MESSAGES,
    }
}

/// The row of a keyword.
fn keyword_of(category: Category, name: &[u8]) -> Option<Keyword>
    ensures { option_map row_of result ≡ keyword_of category name.now }
{
    row_in(rows_of(category), name)
}

/// What a keyword of a category takes, if the category has it.
pub fn takes_of(category: Category, name: &[u8]) -> Option<Operands>
    ensures { result ≡ takes_of category name.now }
{
    Some(keyword_of(category, name)?.takes)
}

/// What the operands of a keyword must be, beyond their kind.
pub fn rule_of(category: Category, name: &[u8]) -> Option<Rule>
    ensures { result ≡ rule_of category name.now }
{
    Some(keyword_of(category, name)?.rule)
}

/// The POSIX value of a keyword.
fn posix_of(category: Category, name: &[u8]) -> Posix
    ensures { value_of result ≡ posix_in (keyword_of category name.now) }
{
    match keyword_of(category, name) {
        Some(row) => row.posix,
        None => Posix::Nothing,
    }
}

/// The POSIX value of a keyword that takes a text.
pub fn posix_text(category: Category, name: &[u8]) -> &'static [u8]
    ensures { result.now ≡ posix_text category name.now }
{
    match posix_of(category, name) {
        Posix::Text(text) => text,
        _ => b"",
    }
}

/// The POSIX value of a keyword that takes numbers.
pub fn posix_number(category: Category, name: &[u8]) -> i32
    ensures { result ≡ posix_number category name.now }
{
    match posix_of(category, name) {
        Posix::Number(number) => number,
        _ => -1,
    }
}

/// The POSIX value of a keyword that takes several texts.
pub fn posix_texts(category: Category, name: &[u8]) -> &'static [&'static [u8]]
    ensures { map (λ t. t.now) result.now ≡ posix_texts category name.now }
{
    match posix_of(category, name) {
        Posix::Texts(texts) => texts,
        _ => &[],
    }
}

/// The POSIX value of a keyword that takes characters, as ranges of wide values.
pub fn posix_ranges(category: Category, name: &[u8]) -> &'static [(u32, u32)]
    ensures { result.now ≡ posix_ranges category name.now }
{
    match posix_of(category, name) {
        Posix::Ranges(ranges) => ranges,
        _ => &[],
    }
}

/// The POSIX value of a keyword that takes pairs of characters.
pub fn posix_pairs(category: Category, name: &[u8]) -> &'static [(u32, u32)]
    ensures { result.now ≡ posix_pairs category name.now }
{
    match posix_of(category, name) {
        Posix::Pairs(pairs) => pairs,
        _ => &[],
    }
}
