//! Catalogs whose entries have stamps, as a machine that threads take turns at.

ghost use Rattle.std.specs.Prelude.{◌≡◌};

use crate::op::{CatalogOp, CatalogReply};
use crate::{CatalogSetting, Catalogs};
use mask_compose::Part;
use turn_gate::Machine;

/// An op, with a number that its stamp may not be below.
#[derive(Drop)]
pub struct StampedOp<B: Part> {
    /// What the thread asks.
    pub op: CatalogOp<B>,
    /// The number.
    pub least: u64,
}

/// A reply, with the stamp of its entry.
#[derive(Drop)]
pub struct StampedReply<B: Part> {
    /// What is replied.
    pub reply: CatalogReply<B>,
    /// The stamp.
    pub stamp: u64,
}

/// The catalogs, with the stamp of the newest entry, which is 0 before the first: a new stamp is the
/// larger one of it and the number that comes with the op.
pub struct Stamped<B: Part> {
    catalogs: Catalogs<B>,
    stamp: u64,
}

impl<B: Part> Drop for Stamped<B> {
    fn drop(self) {
        let Stamped {
            catalogs: _,
            stamp: _,
        } = self;
    }
}

impl<B: Part> Stamped<B> {
    /// The catalogs before their first entry.
    pub fn new(catalogs: Catalogs<B>) -> Stamped<B>
        ensures { (result.catalogs ≡ catalogs) × (result.stamp ≡ 0) }
    {
        Stamped { catalogs, stamp: 0 }
    }
}

impl<B: Part> Machine for Stamped<B> {
    ghost use Rattle.std.specs.Prelude.{◌≡◌};
    ghost use Rattle.catalog_handles.specs.Answer.{IsLegal};
    ghost use Rattle.catalog_handles.specs.Stamps.{last_given, AreGiven};
    ghost use Rattle.catalog_handles.specs.Table.{StandsFor};
    ghost use Rattle.catalog_handles.specs.Seen.{entries_of, IsCaller};

    type Op = StampedOp<B>;

    type Reply = StampedReply<B>;

    type Query = ();

    type Found = ();

    type Setting = CatalogSetting;

    ghost setting = { λ m. m.catalogs.setting };

    ghost room = { λ _. 2147483647 };

    ghost stands = { λ m H. StandsFor m.catalogs (entries_of B.number H) × (m.stamp ≡ last_given H) × AreGiven H };

    ghost legal = { λ c H. IsLegal c (entries_of B.number H) × AreGiven H };

    ghost may = { IsCaller };

    ghost answer = { λ _ _ _. tt };

    ghost version_of = { λ _. 0 };

    fn step(&mut self, who: u32, op: StampedOp<B>) -> StampedReply<B> {
        let StampedOp { op, least } = op;
        self.stamp = self.stamp.max(least);
        StampedReply {
            reply: self.catalogs.step(who, op),
            stamp: self.stamp,
        }
    }

    fn ask(&self, _query: &()) {}

    fn version(&self) -> u32 {
        0
    }
}
