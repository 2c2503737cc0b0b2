//! The charset of a charmap.

ghost use Rattle.std.specs.Prelude.{◌≡◌, ◌≤◌, IfOk, IfSome, option_map};
ghost use Rattle.charset.specs.CodedSet.{listed, set_name, has, named_beside, encoded, Decodes, IsNextRun};
ghost use Rattle.charset.specs.Code.{code_bytes, IsPadded};

use crate::code::Code;
use crate::names::CharacterNames;
use class_ranges::Ranges;
use lc_base::ByteText;
use std::alloc::{AllocError, Global};
use std::marker::Model;

/// The codes of the portable characters.
const PORTABLE_CODES: [(u32, u32); 3] = [(0, 0), (7, 13), (32, 126)];

/// A code set name, names with their wide values, and all wide values.
#[derive(Drop)]
pub struct Listed {
    name: ByteText,
    names: CharacterNames,
    ranges: Ranges,
}

impl Model for Listed {
    ghost use Rattle.charset.specs.CodedSet.{CodedSet, listed};
    ghost use Rattle.charset.specs.Listing.{IsListing};

    ghost Value = { CodedSet };

    ghost view = { λ l. listed l.name l.names };

    ghost invariant = { λ l. IsListing l.name l.names l.ranges };
}

impl Listed {
    /// The charset with this code set name and these names.
    pub fn of(alloc: Global, name: ByteText, names: CharacterNames) -> Result<Listed, AllocError>
        ensures { IfOk result (λ l. l ≡ listed name names) }
    {
        let mut pairs = names.ranges(alloc)?;
        pairs.extend_from_slice(&PORTABLE_CODES)?;
        let ranges = Ranges::of_pairs(alloc, &pairs)?;
        Ok(Listed {
            name,
            names,
            ranges,
        })
    }

    /// The code set name.
    pub fn name(&self) -> &[u8]
        ensures { result.now ≡ set_name self.now }
    {
        self.name.as_bytes()
    }

    /// Whether a character has this wide value.
    pub fn has(&self, w: u32) -> bool
        ensures { result ≡ has self.now w }
    {
        self.ranges.contains(w)
    }

    /// The character of a name that is no portable one.
    pub fn named(&self, name: &[u8]) -> Option<u32>
        ensures { result ≡ named_beside self.now name.now }
    {
        self.names.value(name)
    }

    /// The encoding of a character.
    pub fn encode(&self, w: u32) -> Option<Code>
        ensures bytes { option_map code_bytes result ≡ encoded self.now w }
        ensures len { IfSome result (λ code. 1 ≤ code.len) }
        ensures padding { IfSome result IsPadded }
    {
        if self.ranges.contains(w) {
            Some(Code::shortest(w))
        } else {
            None
        }
    }

    /// The character with just these bytes.
    pub fn decode(&self, bytes: &[u8]) -> Option<u32>
        ensures { Decodes self.now bytes.now result }
    {
        let ranges = &self.ranges;
        if bytes.len() > 4 {
            return None;
        }
        let w = Code::of(bytes).value();
        if !ranges.contains(w) {
            return None;
        }
        let code = Code::shortest(w);
        if code.as_bytes() == bytes {
            Some(w)
        } else {
            None
        }
    }

    /// The next run of wide values.
    pub fn run_from(&self, w: u32) -> Option<(u32, u32)>
        ensures { IsNextRun self.now w result }
    {
        self.ranges.next(w)
    }
}
