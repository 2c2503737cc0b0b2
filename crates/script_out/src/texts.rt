//! Texts in one block of memory.

ghost use Rattle.std.specs.Prelude.{◌≡◌, ◌++◌, ◌∷◌, [], ◌+◌, ◌≤◌, length, IsNone, IfSome, OnOk, OnErr, IfOk};
ghost use Rattle.script_out.specs.Texts.{header, header_length, framed, first_length, first_text, behind_first, texts_in, HasTexts};

use crate::short::push_short;
use std::alloc::{AllocError, Global};
use std::marker::Model;

/// A list of texts, which takes one block of memory. Each has its length in front of it.
pub struct Texts {
    count: usize,
    block: Vec<u8>,
}

impl Drop for Texts {
    fn drop(self) {
        let Texts { count: _, block: _ } = self;
    }
}

impl Model for Texts {
    ghost use Rattle.std.specs.Prelude.{List, ℕ};

    ghost Value = { List (List ℕ) };

    ghost use Rattle.script_out.specs.Texts.{texts_in, HasTexts};

    ghost view = { λ t. texts_in t.count t.block.items };

    ghost invariant = { λ t. HasTexts t.count t.block.items };
}

/// Texts that are still to come.
#[derive(Drop)]
pub struct TextWalk<'a> {
    count: usize,
    block: &'a [u8],
}

impl<'a> Model for TextWalk<'a> {
    ghost use Rattle.std.specs.Prelude.{List, ℕ};

    ghost Value = { List (List ℕ) };

    ghost use Rattle.script_out.specs.Texts.{texts_in, HasTexts};

    ghost view = { λ w. texts_in w.count w.block.now };

    ghost invariant = { λ w. HasTexts w.count w.block.now };
}

impl Texts {
    /// No text. Takes no memory.
    pub fn new(alloc: Global) -> Texts
        ensures { result ≡ [] }
    {
        Texts {
            count: 0,
            block: Vec::new(alloc),
        }
    }

    /// No text. The block has room for so many bytes, where each text takes eight more than its own.
    pub fn with_room(alloc: Global, room: usize) -> Result<Texts, AllocError>
        ensures { IfOk result (λ texts. texts ≡ []) }
    {
        Ok(Texts {
            count: 0,
            block: Vec::with_capacity(alloc, room)?,
        })
    }

    /// Adds a text. Where there is no memory for it, no text is left.
    pub fn push(&mut self, text: &[u8]) -> Result<(), AllocError>
        ensures added { OnOk result (self.new ≡ self.old ++ text.now ∷ []) }
        ensures lost { OnErr result (self.new ≡ []) }
    {
        match push_framed(&mut self.block, text) {
            Ok(_) => {
                self.count += 1;
                Ok(())
            }
            Err(AllocError) => {
                self.count = 0;
                self.block.clear();
                Err(AllocError)
            }
        }
    }

    /// The texts, one after the other.
    pub fn walk(&self) -> TextWalk<'_>
        ensures { result ≡ self.now }
    {
        TextWalk {
            count: self.count,
            block: self.block.as_slice(),
        }
    }
}

impl<'a> TextWalk<'a> {
    /// The next text.
    pub fn next(&mut self) -> Option<&'a [u8]>
        ensures some { IfSome result (λ text. self.old ≡ text.now ∷ self.new) }
        ensures none { IsNone result → self.old ≡ [] }
        ensures over { IsNone result → self.new ≡ [] }
    {
        if self.count == 0 {
            return None;
        }
        let (text, behind) = first_text(self.block);
        self.count -= 1;
        self.block = behind;
        Some(text)
    }
}

/// The first text of a block, and what is behind it.
fn first_text(block: &[u8]) -> (&[u8], &[u8])
    requires { 8 + first_length block.now ≤ length block.now }
    ensures text { result.0.now ≡ first_text block.now }
    ensures behind { result.1.now ≡ behind_first block.now }
{
    match block.split_first_chunk::<8>() {
        Some((header, texts)) => texts.split_at(header_length(header)),
        None => unreachable!(),
    }
}

/// The length that stands in front of a text.
fn header_length(header: &[u8; 8]) -> usize
    ensures { result ≡ header_length header.now }
{
    usize::from_le_bytes(*header)
}

/// What stands in front of a text of this length.
fn header(length: usize) -> [u8; 8]
    ensures { result ≡ header length }
{
    length.to_le_bytes()
}

/// Adds a text with its length in front of it, and gives the length of the block.
fn push_framed(block: &mut Vec<u8>, text: &[u8]) -> Result<usize, AllocError>
    ensures added { OnOk result (block.new.items ≡ block.old.items ++ framed text.now) }
    ensures taken { IfOk result (λ taken. taken ≡ length block.new.items) }
{
    block.extend_from_slice(&header(text.len()))?;
    push_short(block, text)?;
    Ok(block.as_slice().len())
}
