//! The classes of a value, as the bits of a word.

ghost use Rattle.std.specs.Prelude.{◌≡◌, ◌<◌, Some, IfOk, IfSome};
ghost use Rattle.ctype_classes.specs.Classes.{has_numbered, numbered_answer, AreClassBits, AreLowBits};

use crate::classes::Classes;
use std::alloc::{AllocError, Global};

/// So many classes have a bit.
const BITS: usize = 64;

/// The words of so many values are kept.
const LOW_VALUES: u32 = 256;

/// Whether the class with a number has a value. A class that is not there has none.
fn has_numbered(classes: &Classes, number: usize, w: u32) -> bool
    ensures { result ≡ has_numbered classes.now number w }
{
    match classes.at(number) {
        Some(members) => members.contains(w),
        None => false,
    }
}

/// The first 64 classes that have a value: the bit of a class is that of its number.
pub fn class_bits(classes: &Classes, w: u32) -> u64
    ensures { AreClassBits classes.now w result }
{
    let mut bits = 0u64;
    for number in 0..classes.len().min(BITS) {
        if has_numbered(classes, number, w) {
            bits |= 1 << number;
        }
    }
    bits
}

/// The bits of the classes that have a value, for each of the first 256 values.
pub fn low_bits(alloc: Global, classes: &Classes) -> Result<Vec<u64>, AllocError>
    ensures { IfOk result (λ words. AreLowBits classes.now words.items) }
{
    let mut words = Vec::with_capacity(alloc, LOW_VALUES as usize)?;
    for w in 0..LOW_VALUES {
        words.push(class_bits(classes, w))?;
    }
    Ok(words)
}

/// What the words of the first values say of a value and the class with a number, where they tell.
pub fn low_answer(classes: &Classes, words: &[u64], number: usize, w: u32) -> Option<bool>
    requires { AreLowBits classes.now words.now }
    ensures { IfSome result (λ is. numbered_answer classes.now number w ≡ Some is) }
{
    if number < classes.len().min(BITS) && (w as usize) < words.len() {
        Some(words[w as usize] >> number & 1 == 1)
    } else {
        None
    }
}
