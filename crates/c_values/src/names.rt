//! The names of locales, put into buffers of the caller.

ghost use Rattle.std.specs.Prelude.{◌≡◌, ◌+◌, ◌^◌, ◌<◌, ◌≤◌, [], ◌∷◌, length};
ghost use Rattle.std.specs.Option.{option_copied};
ghost use Rattle.mask_compose.specs.Names.{field, mixed_name};
ghost use Rattle.text_buffer.specs.Written.{over};
ghost use Rattle.c_values.specs.Answers.{category_with, filled, joint_name, name_told, own_name_told, size_told, told};

use crate::answer::{BAD_MASK, LobjAnswer, NO_ITEM, OK, TOO_SMALL, answered};
use crate::buffer::put_text;
use lc_base::Category;
use shared_objects::View;
use text_buffer::{put_at, put_byte};

/// The mask of all categories.
const ALL: u32 = 31;

/// Puts the name of a locale for the category of a bit, or for all categories, into a buffer.
pub fn put_name(buffer: &mut [u8], view: &View<'_>, mask: u32) -> LobjAnswer
    ensures { (result, buffer.new) ≡ name_told buffer.old view.now mask }
{
    if mask == ALL {
        let ctype = view.name(Category::Ctype);
        let numeric = view.name(Category::Numeric);
        let monetary = view.name(Category::Monetary);
        let time = view.name(Category::Time);
        let messages = view.name(Category::Messages);
        put_joint(buffer, ctype, numeric, monetary, time, messages)
    } else {
        match category_with(mask) {
            None => answered(BAD_MASK, 0),
            Some(category) => put_text(buffer, view.name(category)),
        }
    }
}

/// Puts a name of a library into a buffer.
pub fn put_own_name(buffer: &mut [u8], name: Option<&[u8]>) -> LobjAnswer
    ensures { (result, buffer.new) ≡ own_name_told buffer.old (option_copied name.entry) }
{
    match name {
        None => answered(NO_ITEM, 0),
        Some(name) => put_text(buffer, name),
    }
}

/// The category with a bit.
fn category_with(bit: u32) -> Option<Category>
    ensures { result ≡ category_with bit }
{
    match bit {
        1 => Some(Category::Ctype),
        2 => Some(Category::Numeric),
        4 => Some(Category::Monetary),
        8 => Some(Category::Time),
        16 => Some(Category::Messages),
        _ => None,
    }
}

/// Puts the common name of the categories, or else their mixed name, into a buffer.
fn put_joint(
    buffer: &mut [u8],
    ctype: &[u8],
    numeric: &[u8],
    monetary: &[u8],
    time: &[u8],
    messages: &[u8],
) -> LobjAnswer
    ensures { (result, buffer.new) ≡ told buffer.old (joint_name (ctype.now ∷ numeric.now ∷ monetary.now ∷ time.now ∷ messages.now ∷ [])) }
{
    if ctype == numeric && ctype == monetary && ctype == time && ctype == messages {
        put_text(buffer, ctype)
    } else {
        put_mixed(buffer, ctype, numeric, monetary, time, messages)
    }
}

/// Puts a mixed name with a NUL behind it to the front of a buffer, if it has room for both.
fn put_mixed(
    buffer: &mut [u8],
    ctype: &[u8],
    numeric: &[u8],
    monetary: &[u8],
    time: &[u8],
    messages: &[u8],
) -> LobjAnswer
    ensures { (result, buffer.new) ≡ told buffer.old (mixed_name (ctype.now ∷ numeric.now ∷ monetary.now ∷ time.now ∷ messages.now ∷ [])) }
{
    let length = mixed_length(ctype, numeric, monetary, time, messages);
    if length < buffer.len() as u128 {
        write_mixed(buffer, ctype, numeric, monetary, time, messages);
        answered(OK, length as usize)
    } else {
        answered(TOO_SMALL, size_told(length))
    }
}

/// The size that a text of so many bytes needs with its NUL, as far as a `usize` can tell it.
fn size_told(length: u128) -> usize
    requires { length < 2 ^ 127 }
    ensures { result ≡ size_told length }
{
    (length + 1).min(usize::MAX as u128) as usize
}

/// How many bytes a mixed name has.
fn mixed_length(ctype: &[u8], numeric: &[u8], monetary: &[u8], time: &[u8], messages: &[u8]) -> u128
    ensures is { result ≡ length (mixed_name (ctype.now ∷ numeric.now ∷ monetary.now ∷ time.now ∷ messages.now ∷ [])) }
    ensures few { result < 2 ^ 127 }
{
    field_length(Category::Ctype, ctype)
        + (1 + field_length(Category::Numeric, numeric))
        + (1 + field_length(Category::Monetary, monetary))
        + (1 + field_length(Category::Time, time))
        + (1 + field_length(Category::Messages, messages))
}

/// How many bytes the field of a category has.
fn field_length(category: Category, part: &[u8]) -> u128
    ensures is { result ≡ length (field category part.now) }
    ensures few { result < 2 ^ 65 }
{
    category.name().len() as u128 + (1 + part.len() as u128)
}

/// Writes a mixed name with a NUL behind it to the front of a buffer.
fn write_mixed(
    buffer: &mut [u8],
    ctype: &[u8],
    numeric: &[u8],
    monetary: &[u8],
    time: &[u8],
    messages: &[u8],
)
    requires { length (mixed_name (ctype.now ∷ numeric.now ∷ monetary.now ∷ time.now ∷ messages.now ∷ [])) < length buffer.old }
    ensures { buffer.new ≡ filled buffer.old (mixed_name (ctype.now ∷ numeric.now ∷ monetary.now ∷ time.now ∷ messages.now ∷ [])) }
{
    let first = put_field(buffer, 0, Category::Ctype, ctype);
    let second = put_next(buffer, first, Category::Numeric, numeric);
    let third = put_next(buffer, second, Category::Monetary, monetary);
    let fourth = put_next(buffer, third, Category::Time, time);
    let end = put_next(buffer, fourth, Category::Messages, messages);
    put_byte(buffer, end, 0);
}

/// Writes the field of a category over the bytes of a buffer from a place on, and says where it ends.
fn put_field(buffer: &mut [u8], at: usize, category: Category, part: &[u8]) -> usize
    requires { at + length (field category part.now) ≤ length buffer.old }
    ensures ends { result ≡ at + length (field category part.now) }
    ensures written { buffer.new ≡ over buffer.old at (field category part.now) }
{
    let named = put_at(buffer, at, category.name());
    let equals = put_byte(buffer, named, b'=');
    put_at(buffer, equals, part)
}

/// Writes a `;` and the field of a category over the bytes of a buffer from a place on, and says where it ends.
fn put_next(buffer: &mut [u8], at: usize, category: Category, part: &[u8]) -> usize
    requires { at + length (59 ∷ field category part.now) ≤ length buffer.old }
    ensures ends { result ≡ at + length (59 ∷ field category part.now) }
    ensures written { buffer.new ≡ over buffer.old at (59 ∷ field category part.now) }
{
    let separated = put_byte(buffer, at, b';');
    put_field(buffer, separated, category, part)
}
