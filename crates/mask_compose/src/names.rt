//! The names of objects whose categories may have different locales.

ghost use Rattle.std.specs.Prelude.{◌≡◌, ◌≢◌, ◌+◌, ◌≤◌, List, ℕ, [], ◌∷◌, ◌++◌, length, map, position, All, Some, option_map, IfOk, OnOk, IfSome, IsNone, true};
ghost use Rattle.std.specs.List.{slice_split};
ghost use Rattle.std.specs.Option.{option_copied};
ghost use Rattle.mask_compose.specs.Names.{field, mixed_name, mixed_parts, spans_of, spanned, IsMixedName, are_parts, part_in, is_separator, fields_of, length_after};

use lc_base::{ByteText, CATEGORIES, Category, after};
use std::alloc::{AllocError, Global};

/// The mixed name `LC_CTYPE=a;LC_NUMERIC=b;LC_MONETARY=c;LC_TIME=d;LC_MESSAGES=e` with the locale
/// names of the categories (XSH setlocale).
pub fn join_names(
    alloc: Global,
    ctype: &[u8],
    numeric: &[u8],
    monetary: &[u8],
    time: &[u8],
    messages: &[u8],
) -> Result<ByteText, AllocError>
    ensures joined { IfOk result (λ name. name ≡ mixed_name (ctype.now ∷ numeric.now ∷ monetary.now ∷ time.now ∷ messages.now ∷ [])) }
    ensures read_back { let parts = ctype.now ∷ numeric.now ∷ monetary.now ∷ time.now ∷ messages.now ∷ [] in IfOk result (λ name. are_parts parts ≡ true → mixed_parts name ≡ Some parts) }
{
    let mut name = Vec::new(alloc);
    add_field(&mut name, Category::Ctype, ctype)?;
    add_next_field(&mut name, Category::Numeric, numeric)?;
    add_next_field(&mut name, Category::Monetary, monetary)?;
    add_next_field(&mut name, Category::Time, time)?;
    add_next_field(&mut name, Category::Messages, messages)?;
    Ok(ByteText::from_vec(name))
}

fn add_field(name: &mut Vec<u8>, category: Category, part: &[u8]) -> Result<(), AllocError>
    ensures { OnOk result (name.new.items ≡ name.old.items ++ field category part.now) }
{
    name.extend_from_slice(category.name())?;
    name.push(b'=')?;
    name.extend_from_slice(part)?;
    Ok(())
}

fn add_next_field(name: &mut Vec<u8>, category: Category, part: &[u8]) -> Result<(), AllocError>
    ensures { OnOk result (name.new.items ≡ name.old.items ++ 59 ∷ field category part.now) }
{
    name.push(b';')?;
    add_field(name, category, part)
}

/// The parts of a mixed name: where each begins and how many bytes it has, in the order of the
/// categories. `None` exactly where the text is no mixed name with five parts in their order, none
/// of them empty and none with a `;`.
pub fn read_names(text: &[u8]) -> Option<[(usize, usize); 5]>
    ensures spans { result ≡ option_map spans_of (mixed_parts text.now) }
    ensures within { IfSome result (All (λ span. span.0 + span.1 ≤ length text.now)) }
    ensures parts { IfSome result (λ spans. mixed_parts text.now ≡ Some (map (spanned text.now) spans)) }
    ensures spelled { IfSome result (λ spans. IsMixedName text.now (map (spanned text.now) spans)) }
    ensures none { IsNone result → (parts : List (List ℕ)) → ¬ IsMixedName text.now parts }
{
    part_spans(text)
}

/// The parts of a mixed name: the start and the length of each.
fn part_spans(text: &[u8]) -> Option<[(usize, usize); 5]>
    ensures { result ≡ option_map spans_of (mixed_parts text.now) }
{
    let mut spans = [(0, 0); 5];
    let mut at = 0;
    let mut rest = Some(text);
    for (i, category) in CATEGORIES.iter().enumerate() {
        let (field, more) = first_field(rest?);
        let part = part_in(*category, field)?;
        spans[i] = (at + field.len() - part.len(), part.len());
        at += field.len() + 1;
        rest = more;
    }
    match rest {
        None => Some(spans),
        Some(_) => None,
    }
}

/// The first field of a text, and what follows its `;` if there is one.
fn first_field(text: &[u8]) -> (&[u8], Option<&[u8]>)
    ensures fields { slice_split is_separator text.now ≡ result.0.now ∷ fields_of (option_copied result.1) }
    ensures lengths { length result.0.now + length_after (option_copied result.1) ≡ length text.now }
{
    match separator_at(text) {
        Some(at) => (&text[..at], Some(&text[at + 1..])),
        None => (text, None),
    }
}

/// Where the first `;` stands.
fn separator_at(text: &[u8]) -> Option<usize>
    ensures { result ≡ position is_separator text.now }
{
    text.iter().position(|b| *b == b';')
}

/// The part in the field of a category.
fn part_in(category: Category, field: &[u8]) -> Option<&[u8]>
    ensures part { option_copied result ≡ part_in category field.now }
    ensures within { IfSome result (λ part. length part.now ≤ length field.now) }
{
    let part = after(b"=", after(category.name(), field)?)?;
    if part.is_empty() {
        return None;
    }
    Some(part)
}
