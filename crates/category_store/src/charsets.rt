//! The charsets of a bundle under their names.

ghost use Rattle.std.specs.Prelude.{◌≡◌, All, IfOk};
ghost use Rattle.lc_base.specs.Reading.{Gives};
ghost use Rattle.lc_base.specs.Blocks.{IsSized};
ghost use Rattle.category_store.specs.Sources.{charsets, charset_named};

use charmap_reader::read_charmap;
use charset::Charset;
use lc_base::{Block, ByName, List, TextFault};
use std::alloc::{AllocError, Global};
use std::marker::Model;

/// The built-in charsets, and those of a bundle's charmaps.
pub struct Charsets {
    unicode: Charset,
    portable: Charset,
    listed: ByName<Charset>,
}

impl Drop for Charsets {
    fn drop(self) {
        let Charsets {
            unicode: _,
            portable: _,
            listed: _,
        } = self;
    }
}

impl Model for Charsets {
    ghost use Rattle.std.specs.Prelude.{◌≡◌, List, ℕ};
    ghost use Rattle.charset.specs.CodedSet.{CodedSet, utf8, posix};

    ghost Value = { List (List ℕ × CodedSet) };

    ghost view = { λ c. c.listed };

    ghost invariant = { λ c. (c.unicode ≡ utf8) × (c.portable ≡ posix) };
}

impl Charsets {
    /// The charsets with those of the charmaps, which are read in order.
    pub fn read(alloc: Global, charmaps: &List<Block>) -> Result<Charsets, TextFault>
        requires { All IsSized charmaps.now }
        ensures { Gives (λ c. c) result (charsets charmaps.now) }
    {
        let listed = read_charmaps(alloc, charmaps.as_slice())?;
        Ok(Charsets::of(alloc, listed)?)
    }

    fn of(alloc: Global, listed: ByName<Charset>) -> Result<Charsets, AllocError>
        ensures { IfOk result (λ c. c ≡ listed) }
    {
        Ok(Charsets {
            unicode: Charset::utf8(alloc)?,
            portable: Charset::portable(alloc)?,
            listed,
        })
    }

    /// The charset with a name.
    pub fn get(&self, name: &[u8]) -> &Charset
        ensures { result.now ≡ charset_named self.now name.now }
    {
        if name == b"UTF-8".as_slice() {
            return &self.unicode;
        }
        if name == b"POSIX".as_slice() {
            return &self.portable;
        }
        match self.listed.get(name) {
            Some(charset) => charset,
            None => &self.portable,
        }
    }
}

fn read_charmaps(alloc: Global, charmaps: &[Block]) -> Result<ByName<Charset>, TextFault>
    requires { All IsSized charmaps.now }
    ensures { Gives (λ c. c) result (charsets charmaps.now) }
{
    let mut listed = ByName::new(alloc);
    for block in charmaps {
        let name = block.name.as_bytes();
        let charset = read_charmap(alloc, name, block.text.as_bytes(), block.first_line)?;
        listed.add(alloc, name, charset)?;
    }
    Ok(listed)
}
