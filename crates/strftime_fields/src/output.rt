//! Where a text goes, which is given up as soon as it is too long.

ghost use Rattle.std.specs.Prelude.{◌≡◌, ◌≤◌, ◌+◌, ◌++◌, ◌∷◌, [], true, length, take};
ghost use Rattle.strftime_fields.specs.Appending.{Appends, Adds};
ghost use Rattle.strftime_fields.specs.Kept.{kept, Holds};

use crate::stop::Stop;
use time_cat::{NAME_FRONT, Name};

/// Where a text goes: a `Vec`, bytes that a caller lends, or nowhere where only its length is wanted.
/// The bytes that are lent are handed to each call.
pub trait Output: Drop {
    ghost use Rattle.std.specs.Prelude.{◌≡◌, ◌≤◌, ◌+◌, ◌++◌, true, length, take, ℕ, List};
    ghost use Rattle.strftime_fields.specs.Appending.{Appends};
    ghost use Rattle.strftime_fields.specs.Kept.{Kind, kept, Holds};

    /// What it keeps of a text, and whether it asks for memory.
    ghost kind: { Kind };

    /// What it holds, with the bytes that are lent.
    ghost text: { Self → List ℕ → List ℕ };

    /// How long that may become without more memory, where so many bytes are lent.
    ghost room: { Self → ℕ → ℕ };

    /// How long its text is.
    fn text_len(&self, lent: &[u8]) -> usize
        ensures { result ≡ length (text self.now lent.now) };

    /// Whether it is known that its text is no longer than `stop`.
    fn is_within(&self, lent: &[u8], stop: usize) -> bool
        ensures { result ≡ true → length (text self.now lent.now) ≤ stop };

    /// How long its text may become without more memory.
    fn room_for(&self, lent: &[u8]) -> usize
        ensures { result ≡ room self.now (length lent.now) };

    /// Adds bytes, unless the text would be longer than `max`.
    fn put(&mut self, lent: &mut [u8], max: usize, bytes: &[u8]) -> Result<(), Stop>
        requires short { length (text self.old lent.old) ≤ max }
        requires holds { Holds kind max (length lent.old) }
        ensures { Appends kind max (text self.old lent.old) bytes.now (text self.new lent.new) result };

    /// Adds bytes for which there is room.
    fn put_within(&mut self, lent: &mut [u8], bytes: &[u8])
        requires room { length (text self.old lent.old) + length bytes.now ≤ room self.old (length lent.old) }
        ensures text { text self.new lent.new ≡ text self.old lent.old ++ kept kind bytes.now }
        ensures long { length (text self.new lent.new) ≡ length (text self.old lent.old) + length bytes.now }
        ensures room { room self.new (length lent.new) ≡ room self.old (length lent.old) };

    /// Adds the first bytes of the front of a name. There is room for all of them.
    fn put_front(&mut self, lent: &mut [u8], front: &[u8; NAME_FRONT], len: usize)
        requires few { len ≤ 16 }
        requires room { length (text self.old lent.old) + 16 ≤ room self.old (length lent.old) }
        ensures text { text self.new lent.new ≡ text self.old lent.old ++ kept kind (take len front.now) }
        ensures short { length (text self.new lent.new) ≤ length (text self.old lent.old) + 16 }
        ensures room { room self.new (length lent.new) ≡ room self.old (length lent.old) };

    /// The output, in whose place an empty one may stand: a loop over one of its own keeps that in
    /// registers.
    fn held(&mut self) -> Self
        ensures { result ≡ self.old };
}

/// Adds bytes, unless the text would be longer than `max`.
#[inline(always)]
pub fn put<O: Output>(out: &mut O, lent: &mut [u8], max: usize, bytes: &[u8]) -> Result<(), Stop>
    requires short { length (O.text out.old lent.old) ≤ max }
    requires holds { Holds O.kind max (length lent.old) }
    ensures { Appends O.kind max (O.text out.old lent.old) bytes.now (O.text out.new lent.new) result }
{
    out.put(lent, max, bytes)
}

/// Adds bytes for which there is room, and says so.
#[inline(always)]
pub fn put_here<O: Output>(out: &mut O, lent: &mut [u8], bytes: &[u8]) -> bool
    requires room { length (O.text out.old lent.old) + length bytes.now ≤ O.room out.old (length lent.old) }
    ensures says { result ≡ true }
    ensures text { O.text out.new lent.new ≡ O.text out.old lent.old ++ kept O.kind bytes.now }
    ensures long { length (O.text out.new lent.new) ≡ length (O.text out.old lent.old) + length bytes.now }
    ensures room { O.room out.new (length lent.new) ≡ O.room out.old (length lent.old) }
{
    out.put_within(lent, bytes);
    true
}

/// Adds a name that lies at its front, and says whether it did. There is room for it.
#[inline(always)]
pub fn put_name_here<O: Output>(out: &mut O, lent: &mut [u8], name: &Name) -> bool
    requires room { length (O.text out.old lent.old) + 16 ≤ O.room out.old (length lent.old) }
    ensures text { Adds O.kind (O.text out.old lent.old) name.now (O.text out.new lent.new) result }
    ensures short { length (O.text out.new lent.new) ≤ length (O.text out.old lent.old) + 16 }
    ensures room { O.room out.new (length lent.new) ≡ O.room out.old (length lent.old) }
{
    match name.front() {
        None => false,
        Some((front, len)) => {
            out.put_front(lent, front, len);
            true
        }
    }
}

/// Adds a byte, unless the text would be longer than `max`.
#[inline(always)]
pub fn put_byte<O: Output>(out: &mut O, lent: &mut [u8], max: usize, byte: u8) -> Result<(), Stop>
    requires short { length (O.text out.old lent.old) ≤ max }
    requires holds { Holds O.kind max (length lent.old) }
    ensures { Appends O.kind max (O.text out.old lent.old) (byte ∷ []) (O.text out.new lent.new) result }
{
    out.put(lent, max, &[byte])
}
