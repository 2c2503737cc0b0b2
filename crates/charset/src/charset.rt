//! Charsets.

ghost use Rattle.std.specs.Prelude.{◌≡◌, true, ◌≤◌, IsOkAnd, IfOk, IfSome, is_some};
ghost use Rattle.std.specs.Option.{option_map};
ghost use Rattle.charset.specs.CodedSet.{utf8, posix, listed, set_name, has, named, named_beside, encoded, Decodes, IsNextRun, valued};
ghost use Rattle.charset.specs.Code.{code_bytes, IsPadded};

use crate::code::Code;
use crate::kind::Kind;
use crate::listed::Listed;
use crate::names::CharacterNames;
use crate::portable::portable_code;
use crate::{ascii, unicode};
use lc_base::ByteText;
use std::alloc::{AllocError, Global};
use std::marker::Model;

/// A coded character set with the names of its characters (XBD 6).
pub struct Charset {
    kind: Kind,
}

impl Drop for Charset {
    fn drop(self) {
        let Charset { kind: _ } = self;
    }
}

impl Model for Charset {
    ghost use Rattle.charset.specs.CodedSet.{CodedSet};

    ghost Value = { CodedSet };

    ghost use Rattle.charset.specs.Code.{set_of};

    ghost view = { λ c. set_of c.kind };
}

impl Charset {
    /// The charset `UTF-8`: all Unicode scalar values, each its own wide value.
    pub fn utf8(_alloc: Global) -> Result<Charset, AllocError>
        ensures { IsOkAnd result (λ c. c ≡ utf8) }
    {
        Ok(Charset { kind: Kind::Utf8 })
    }

    /// The charset `POSIX`: the codes 0 to 127, with the code set name `US-ASCII`.
    pub fn portable(_alloc: Global) -> Result<Charset, AllocError>
        ensures { IsOkAnd result (λ c. c ≡ posix) }
    {
        Ok(Charset { kind: Kind::Posix })
    }

    /// The charset of a charmap with this code set name and these names.
    pub fn listed(
        alloc: Global,
        name: ByteText,
        names: CharacterNames,
    ) -> Result<Charset, AllocError>
        ensures { IfOk result (λ c. c ≡ listed name names) }
    {
        Ok(Charset {
            kind: Kind::Listed(Listed::of(alloc, name, names)?),
        })
    }

    /// The code set name (XSH nl_langinfo, `CODESET`).
    pub fn name(&self) -> &[u8]
        ensures { result.now ≡ set_name self.now }
    {
        match &self.kind {
            Kind::Utf8 => b"UTF-8",
            Kind::Posix => b"US-ASCII",
            Kind::Listed(set) => set.name(),
        }
    }

    /// Whether a character has this wide value.
    pub fn has(&self, w: u32) -> bool
        ensures { result ≡ has self.now w }
    {
        match &self.kind {
            Kind::Utf8 => unicode::has(w),
            Kind::Posix => ascii::has(w),
            Kind::Listed(set) => set.has(w),
        }
    }

    /// The wide value of the character with a name, which is given without its signs `<` and `>`.
    pub fn value_of(&self, name: &[u8]) -> Option<u32>
        ensures value { result ≡ named self.now name.now }
        ensures has { IfSome result (λ w. has self.now w ≡ true) }
    {
        portable_code(name).or_else(|| self.named_beside(name))
    }

    fn named_beside(&self, name: &[u8]) -> Option<u32>
        ensures { result ≡ named_beside self.now name.now }
    {
        match &self.kind {
            Kind::Utf8 => unicode::named(name),
            Kind::Posix => ascii::named(name),
            Kind::Listed(set) => set.named(name),
        }
    }

    /// The encoding of the character with a wide value. `None` exactly where no character has it.
    pub fn encode(&self, w: u32) -> Option<Code>
        ensures has { is_some result ≡ has self.now w }
        ensures bytes { option_map code_bytes result ≡ encoded self.now w }
        ensures len { IfSome result (λ code. 1 ≤ code.len) }
        ensures padding { IfSome result IsPadded }
    {
        match &self.kind {
            Kind::Utf8 => unicode::encode(w),
            Kind::Posix => ascii::encode(w),
            Kind::Listed(set) => set.encode(w),
        }
    }

    /// The wide value of the character that these bytes encode, all of them. `None` exactly where there is none.
    pub fn value_of_bytes(&self, bytes: &[u8]) -> Option<u32>
        ensures decodes { Decodes self.now bytes.now result }
        ensures value { result ≡ valued self.now bytes.now }
        ensures has { IfSome result (λ w. has self.now w ≡ true) }
    {
        match &self.kind {
            Kind::Utf8 => unicode::decode(bytes),
            Kind::Posix => ascii::decode(bytes),
            Kind::Listed(set) => set.decode(bytes),
        }
    }

    /// The least character not below `w`, and the last of the unbroken run of wide values from it.
    /// `None` exactly where none is left.
    pub fn run_from(&self, w: u32) -> Option<(u32, u32)>
        ensures { IsNextRun self.now w result }
    {
        match &self.kind {
            Kind::Utf8 => unicode::run_from(w),
            Kind::Posix => ascii::run_from(w),
            Kind::Listed(set) => set.run_from(w),
        }
    }
}
