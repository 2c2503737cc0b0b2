//! Names of days, months and half days (XBD 7.3.5.2).

ghost use Rattle.std.specs.Prelude.{◌≡◌, ◌≤◌, ◌<◌, ◌↔◌, length, take, IfSome, IsNone};
ghost use Rattle.time_cat.specs.Names.{IsFront};

use lc_base::ByteText;
use std::marker::Model;

/// How many bytes of a name lie at its front.
pub const NAME_FRONT: usize = 16;

/// The name of a day, a month or a half day (XBD 7.3.5.2). A short name lies in the value itself, at
/// its front.
pub struct Name {
    front: [u8; NAME_FRONT],
    text: ByteText,
}

impl Drop for Name {
    fn drop(self) {
        let Name { front: _, text: _ } = self;
    }
}

impl Model for Name {
    ghost use Rattle.std.specs.Prelude.{List, ℕ};

    ghost Value = { List ℕ };

    ghost use Rattle.time_cat.specs.Names.{IsFront};

    ghost view = { λ n. n.text };

    ghost invariant = { λ n. IsFront n.text n.front };
}

impl Name {
    /// The name with this text. Takes no memory.
    pub fn of(text: ByteText) -> Name
        ensures { result ≡ text }
    {
        let front = front_of(text.as_bytes());
        Name { front, text }
    }

    /// The bytes of the name, in order.
    pub fn as_bytes(&self) -> &[u8]
        ensures { result.now ≡ self.now }
    {
        self.text.as_bytes()
    }

    /// The front of a name that has no more bytes than lie there, and how many bytes it has.
    #[inline(always)]
    pub fn front(&self) -> Option<(&[u8; NAME_FRONT], usize)>
        ensures long { IsNone result ↔ (16 < length self.now) }
        ensures wide { IfSome result (λ f. length f.0.now ≡ 16) }
        ensures few { IfSome result (λ f. f.1 ≤ 16) }
        ensures text { IfSome result (λ f. take f.1 f.0.now ≡ self.now) }
    {
        let len = self.text.as_bytes().len();
        if len <= NAME_FRONT {
            Some((&self.front, len))
        } else {
            None
        }
    }
}

/// The bytes of a text with zeros behind them, if they are at most 16.
fn front_of(bytes: &[u8]) -> [u8; NAME_FRONT]
    ensures { IsFront bytes.now result }
{
    let mut front = [0; NAME_FRONT];
    if bytes.len() <= NAME_FRONT {
        front[..bytes.len()].copy_from_slice(bytes);
    }
    front
}
