//! Bytes put into a buffer.

ghost use Rattle.std.specs.Prelude.{◌≡◌, ◌+◌, ◌<◌, ◌≤◌, [], ◌∷◌, length};
ghost use Rattle.text_buffer.specs.Written.{over};

/// Writes bytes over those of a buffer from a place on, and says where they end.
#[inline(always)]
pub fn put_at(target: &mut [u8], at: usize, text: &[u8]) -> usize
    requires { at + length text.now ≤ length target.old }
    ensures ends { result ≡ at + length text.now }
    ensures written { target.new ≡ over target.old at text.now }
{
    let end = at + text.len();
    target[at..end].copy_from_slice(text);
    end
}

/// Writes a byte over that of a buffer at a place, and says where it ends.
#[tactic(auto, using(crate::proofs::WrittenLemmas::over_byte))]
#[inline(always)]
pub fn put_byte(target: &mut [u8], at: usize, byte: u8) -> usize
    requires { at < length target.old }
    ensures ends { result ≡ at + 1 }
    ensures written { target.new ≡ over target.old at (byte ∷ []) }
{
    target[at] = byte;
    at + 1
}
