//! The values of a keyword line, in little memory.

ghost use Rattle.std.specs.Prelude.{◌≡◌, ◌∷◌, ◌++◌, [], length, IfOk, OnOk, IfSome, IsNone};
ghost use Rattle.keywords.specs.declared.source.Value.TheVariants.{Text as TextValue};
ghost use Rattle.keywords.specs.Cells.{seen, value_in, IsWithin, Extends};

use crate::source::Value;
use lc_base::Place;
use std::alloc::{AllocError, Global};
use std::marker::Model;

/// A value, or where it lies.
#[derive(Clone, Copy)]
enum Content {
    /// A text of so many bytes, the first of which has this number.
    Short(u16, u32),
    /// A longer text: the bytes from one number to another, which are the pair with this number.
    Long(u32),
    Number(i32),
    /// One character.
    One(u32),
    /// The characters from one to another, which are the pair with this number.
    Range(u32),
    /// The pair of characters with this number.
    Pair(u32),
}

/// A value with its place.
#[derive(Clone, Copy)]
struct Cell {
    place: Place,
    content: Content,
}

/// The operands of a keyword line, decoded, each with its place. A value takes 16 bytes, a pair, a
/// range and a text of more than 65535 bytes 8 more, and a text its bytes.
pub struct Values {
    cells: Vec<Cell>,
    pairs: Vec<(u32, u32)>,
    bytes: Vec<u8>,
}

impl Drop for Values {
    fn drop(self) {
        let Values {
            cells: _,
            pairs: _,
            bytes: _,
        } = self;
    }
}

impl Model for Values {
    ghost use Rattle.std.specs.Prelude.{List, length, All};
    ghost use Rattle.lc_base.specs.declared.place.Place.{Place};
    ghost use Rattle.keywords.specs.declared.source.Value.{Value as Decoded};

    ghost Value = { List (Place × Decoded) };

    ghost use Rattle.keywords.specs.Cells.{values_in, IsCellWithin};

    ghost view = { λ v. values_in v.pairs.items v.bytes.items v.cells.items };

    ghost invariant = { λ v. All (IsCellWithin v.pairs.items v.bytes.items) v.cells.items };
}

/// A value, borrowed.
#[derive(Clone, Copy)]
pub enum ValueRef<'a> {
    /// The bytes of a text.
    Text(&'a [u8]),
    /// A number.
    Number(i32),
    /// The characters from one wide value to another.
    Chars(u32, u32),
    /// A pair of characters, as their wide values.
    Pair(u32, u32),
}

/// Values that are still to come.
#[derive(Drop)]
pub struct ValueWalk<'a> {
    cells: &'a [Cell],
    pairs: &'a [(u32, u32)],
    bytes: &'a [u8],
}

impl<'a> Model for ValueWalk<'a> {
    ghost use Rattle.std.specs.Prelude.{List, length, All};
    ghost use Rattle.lc_base.specs.declared.place.Place.{Place};
    ghost use Rattle.keywords.specs.declared.source.Value.{Value as Decoded};

    ghost Value = { List (Place × Decoded) };

    ghost use Rattle.keywords.specs.Cells.{values_in, IsCellWithin};

    ghost view = { λ w. values_in w.pairs.now w.bytes.now w.cells.now };

    ghost invariant = { λ w. All (IsCellWithin w.pairs.now w.bytes.now) w.cells.now };
}

/// The number of bytes or pairs, where it is less than 2 to the power of 32.
fn number_of(len: usize) -> Result<u32, AllocError>
    ensures { IfOk result (λ n. n ≡ len) }
{
    match u32::try_from(len) {
        Ok(number) => Ok(number),
        Err(_) => Err(AllocError),
    }
}

/// Adds a pair, and gives its number.
fn add_pair(pairs: &mut Vec<(u32, u32)>, first: u32, second: u32) -> Result<u32, AllocError>
    ensures added { OnOk result (pairs.new.items ≡ pairs.old.items ++ (first, second) ∷ []) }
    ensures number { IfOk result (λ n. n ≡ length pairs.old.items) }
{
    let number = number_of(pairs.len())?;
    pairs.push((first, second))?;
    Ok(number)
}

/// Adds the bytes of a text.
fn add_text(
    pairs: &mut Vec<(u32, u32)>,
    bytes: &mut Vec<u8>,
    text: &[u8],
) -> Result<Content, AllocError>
    ensures kept { OnOk result (Extends pairs.old.items bytes.old.items pairs.new.items bytes.new.items) }
    ensures is { IfOk result (λ content. value_in pairs.new.items bytes.new.items content ≡ TextValue text.now) }
    ensures within { IfOk result (λ content. IsWithin pairs.new.items bytes.new.items content) }
{
    let start = number_of(bytes.len())?;
    bytes.extend_from_slice(text)?;
    match u16::try_from(text.len()) {
        Ok(len) => Ok(Content::Short(len, start)),
        Err(_) => {
            let end = number_of(bytes.len())?;
            Ok(Content::Long(add_pair(pairs, start, end)?))
        }
    }
}

/// Adds what a cell of a value does not hold.
fn add_value(
    pairs: &mut Vec<(u32, u32)>,
    bytes: &mut Vec<u8>,
    value: Value,
) -> Result<Content, AllocError>
    ensures kept { OnOk result (Extends pairs.old.items bytes.old.items pairs.new.items bytes.new.items) }
    ensures is { IfOk result (λ content. value_in pairs.new.items bytes.new.items content ≡ value) }
    ensures within { IfOk result (λ content. IsWithin pairs.new.items bytes.new.items content) }
{
    match value {
        Value::Text(text) => add_text(pairs, bytes, text.as_bytes()),
        Value::Number(number) => Ok(Content::Number(number)),
        Value::Chars(first, last) if first == last => Ok(Content::One(first)),
        Value::Chars(first, last) => Ok(Content::Range(add_pair(pairs, first, last)?)),
        Value::Pair(first, second) => Ok(Content::Pair(add_pair(pairs, first, second)?)),
    }
}

/// The value of a cell.
fn value_at<'a>(pairs: &[(u32, u32)], bytes: &'a [u8], content: Content) -> ValueRef<'a>
    requires { IsWithin pairs.now bytes.now content }
    ensures { seen result ≡ value_in pairs.now bytes.now content }
{
    match content {
        Content::Short(len, start) => {
            let start = start as usize;
            ValueRef::Text(&bytes[start..start + len as usize])
        }
        Content::Long(i) => {
            let (start, end) = pairs[i as usize];
            ValueRef::Text(&bytes[start as usize..end as usize])
        }
        Content::Number(number) => ValueRef::Number(number),
        Content::One(character) => ValueRef::Chars(character, character),
        Content::Range(i) => {
            let (first, last) = pairs[i as usize];
            ValueRef::Chars(first, last)
        }
        Content::Pair(i) => {
            let (first, second) = pairs[i as usize];
            ValueRef::Pair(first, second)
        }
    }
}

impl Values {
    /// No value.
    pub fn new(alloc: Global) -> Values
        ensures { result ≡ [] }
    {
        Values {
            cells: Vec::new(alloc),
            pairs: Vec::new(alloc),
            bytes: Vec::new(alloc),
        }
    }

    /// No value yet, with room for this many.
    pub fn with_capacity(alloc: Global, count: usize) -> Result<Values, AllocError>
        ensures { IfOk result (λ values. values ≡ []) }
    {
        Ok(Values {
            cells: Vec::with_capacity(alloc, count)?,
            pairs: Vec::new(alloc),
            bytes: Vec::new(alloc),
        })
    }

    /// These values and one more. Their texts have less than 2 to the power of 32 bytes in all: more
    /// is refused as out of memory.
    pub fn with(self, place: Place, value: Value) -> Result<Values, AllocError>
        ensures { IfOk result (λ values. values ≡ self ++ (place, value) ∷ []) }
    {
        let Values {
            mut cells,
            mut pairs,
            mut bytes,
        } = self;
        let content = add_value(&mut pairs, &mut bytes, value)?;
        cells.push(Cell { place, content })?;
        Ok(Values {
            cells,
            pairs,
            bytes,
        })
    }

    /// The number of values.
    pub fn len(&self) -> usize
        ensures { result ≡ length self.now }
    {
        self.cells.len()
    }

    /// The values, one after the other.
    pub fn walk(&self) -> ValueWalk<'_>
        ensures { result ≡ self.now }
    {
        ValueWalk {
            cells: &self.cells,
            pairs: &self.pairs,
            bytes: &self.bytes,
        }
    }
}

impl<'a> ValueWalk<'a> {
    /// The next value, with its place.
    pub fn next(&mut self) -> Option<(Place, ValueRef<'a>)>
        ensures some { IfSome result (λ x. self.old ≡ (x.0, seen x.1) ∷ self.new) }
        ensures none { IsNone result → self.old ≡ [] }
        ensures over { IsNone result → self.new ≡ [] }
    {
        let (cell, rest) = self.cells.split_first()?;
        let value = value_at(self.pairs, self.bytes, cell.content);
        let place = cell.place;
        self.cells = rest;
        Some((place, value))
    }
}
