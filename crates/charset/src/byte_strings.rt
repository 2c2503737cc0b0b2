//! Byte strings in one buffer, by their numbers.

ghost use Rattle.std.specs.Prelude.{◌≡◌, ◌-◌, [], ◌∷◌, ◌++◌, length, get_or, take, IfOk, OnOk, OnErr};

use std::alloc::{AllocError, Global};
use std::marker::Model;

/// Byte strings, numbered in the order in which they were added.
#[derive(Drop)]
pub struct ByteStrings {
    bytes: Vec<u8>,
    /// Where each begins and ends.
    parts: Vec<(u32, u32)>,
}

impl Model for ByteStrings {
    ghost use Rattle.std.specs.Prelude.{ℕ, List, All};

    ghost Value = { List (List ℕ) };

    ghost use Rattle.charset.specs.ByteStrings.{strings_in, IsPartOf};

    ghost view = { λ t. strings_in t.bytes.items t.parts.items };

    ghost invariant = { λ t. All (IsPartOf t.bytes.items) t.parts.items };
}

/// A count as a number of 32 bits. More than those are no memory.
pub fn number_of(count: usize) -> Result<u32, AllocError>
    ensures { IfOk result (λ n. n ≡ count) }
{
    match u32::try_from(count) {
        Ok(number) => Ok(number),
        Err(_) => Err(AllocError),
    }
}

impl ByteStrings {
    pub fn new(alloc: Global) -> ByteStrings
        ensures { result ≡ [] }
    {
        ByteStrings {
            bytes: Vec::new(alloc),
            parts: Vec::new(alloc),
        }
    }

    pub fn len(&self) -> usize
        ensures { result ≡ length self.now }
    {
        self.parts.len()
    }

    /// The one with a number, empty where there is none.
    pub fn get(&self, number: u32) -> &[u8]
        ensures { result.now ≡ get_or self.now number [] }
    {
        match self.parts.get(number as usize) {
            Some(&(start, end)) => &self.bytes[start as usize..end as usize],
            None => &[],
        }
    }

    /// Adds one.
    pub fn push(&mut self, string: &[u8]) -> Result<(), AllocError>
        ensures ok { OnOk result (self.new ≡ self.old ++ string.now ∷ []) }
        ensures err { OnErr result (self.new ≡ self.old) }
    {
        let start = number_of(self.bytes.len())?;
        self.bytes.extend_from_slice(string)?;
        let end = number_of(self.bytes.len())?;
        self.parts.push((start, end))?;
        Ok(())
    }

    /// Takes the last one off.
    pub fn pop(&mut self)
        ensures { self.new ≡ take (length self.old - 1) self.old }
    {
        self.parts.pop();
    }
}
