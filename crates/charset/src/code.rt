//! Encodings of characters.

ghost use Rattle.std.specs.Prelude.{◌≡◌, ◌<◌, ◌≤◌, ◌^◌, length};

/// The encoding of a character: its first `len` bytes. The others are 0.
#[derive(Clone, Copy)]
pub struct Code {
    /// From 1 to 4.
    pub len: u8,
    pub bytes: [u8; 4],
    pub ghost within: { len ≤ 4 },
}

impl Code {
    ghost use Rattle.charset.specs.Code.{code_bytes, IsPadded};
    ghost use Rattle.charset.specs.CodedSet.{big_endian};
    ghost use Rattle.charset.specs.ShortBytes.{shortest};
    ghost use Rattle.std.specs.Int.{bytes_high_first};

    /// The bytes of the encoding.
    pub fn as_bytes(&self) -> &[u8]
        ensures { result.now ≡ code_bytes self.now }
    {
        &self.bytes[..self.len as usize]
    }

    /// The encoding that these bytes are, which are at most four.
    pub fn of(bytes: &[u8]) -> Code
        requires { length bytes.now ≤ 4 }
        ensures same { code_bytes result ≡ bytes.now }
        ensures len { result.len ≡ length bytes.now }
        ensures padding { IsPadded result }
    {
        let mut padded = [0; 4];
        padded[..bytes.len()].copy_from_slice(bytes);
        Code {
            len: bytes.len() as u8,
            bytes: padded,
        }
    }

    /// The one encoding that may have this wide value: its bytes without zeros in front.
    pub(crate) fn shortest(w: u32) -> Code
        ensures same { code_bytes result ≡ shortest w }
        ensures len { 1 ≤ result.len }
        ensures padding { IsPadded result }
    {
        let bytes = w.to_be_bytes();
        let zeros = (w.leading_zeros() / 8).min(3) as usize;
        Code::of(&bytes[zeros..])
    }

    /// The wide value: the bytes as a number, the first being the highest.
    pub fn value(&self) -> u32
        ensures is { result ≡ big_endian (code_bytes self.now) }
        ensures back { bytes_high_first self.now.len result ≡ code_bytes self.now }
        ensures bound { result < 256 ^ self.now.len }
        ensures len { length (code_bytes self.now) ≡ self.now.len }
    {
        let mut value: u32 = 0;
        for byte in self.as_bytes() {
            value = value * 256 + u32::from(*byte);
        }
        value
    }
}
