//! The catalogs that threads have open.

ghost use Rattle.std.specs.Prelude.{◌≡◌, ◌↔◌, ℕ, ◌<◌, ◌≤◌, List, [], ◌∷◌, true, false, IfOk, if◌then◌else◌};

use crate::handle::CatalogHandle;
use crate::op::{CatalogOp, CatalogRefusal, CatalogReply};
use crate::row::Row;
use crate::rows::{book, close, empty_rows, open};
use crate::setting::CatalogSetting;
use generations::Grid;
use mask_compose::Part;
use std::alloc::{AllocError, Global};
use std::marker::Model;

/// The catalogs that some threads have open, under handles of rows as locale objects have them.
///
/// A step takes no memory, and no longer than the rows of a thread ask for.
pub struct Catalogs<B: Part> {
    setting: CatalogSetting,
    rows: Grid<Row<B>>,
}

impl<B: Part> Drop for Catalogs<B> {
    fn drop(self) {
        let Catalogs {
            setting: _,
            rows: _,
        } = self;
    }
}

impl<B: Part> Model for Catalogs<B> {
    ghost use Rattle.catalog_handles.specs.Table.{CatalogsData, IsTable};

    ghost Value = { CatalogsData };

    ghost view = { λ t. record { setting = t.setting; rows = t.rows } };

    ghost invariant = { λ t. IsTable t.setting t.rows };
}

impl<B: Part> Catalogs<B> {
    ghost use Rattle.catalog_handles.specs.declared.op.CatalogRefusal.TheVariants.{NeverMade, Stale, TooMany};
    ghost use Rattle.catalog_handles.specs.Entry.{Open, Get, Close, History, Refused, is_accepted};
    ghost use Rattle.catalog_handles.specs.Answer.{answer, entry};
    ghost use Rattle.catalog_handles.specs.History.{made};
    ghost use Rattle.catalog_handles.specs.Causes.{IsOfUnmade, IsOfClosed, IsWithoutRow};
    ghost use Rattle.catalog_handles.specs.Isolation.{has_thread, IsClosed, part_of};
    ghost use Rattle.catalog_handles.specs.Seen.{op_of, reply_of};
    ghost use Rattle.catalog_handles.specs.Table.{StandsFor, SaysTheSame};

    /// No open catalogs, for 1 to 16 threads of 1 to 64 rows with 1 to 2147483647 generations each.
    /// All memory is taken here.
    pub fn new(
        alloc: Global,
        threads: u32,
        rows: u32,
        generations: u32,
    ) -> Result<Catalogs<B>, AllocError>
        requires some_thread { 1 ≤ threads }
        requires threads { threads ≤ 16 }
        requires some_row { 1 ≤ rows }
        requires rows { rows ≤ 64 }
        requires some_generation { 1 ≤ generations }
        requires generations { generations ≤ 2147483647 }
        ensures setting { IfOk result (λ catalogs. catalogs.setting ≡
            record { threads = threads; rows = rows; generations = generations }) }
        ensures stands { IfOk result (λ catalogs. StandsFor catalogs []) }
    {
        Ok(Catalogs {
            setting: CatalogSetting {
                threads,
                rows,
                generations,
            },
            rows: empty_rows(alloc, threads, rows)?,
        })
    }

    /// Answers one op of the thread `who`. Takes no memory, and waits for nobody.
    ///
    /// A refused op stands in the history, and changes nothing else. No answer depends on stamps.
    pub fn step(&mut self, who: u32, op: CatalogOp<B>) -> CatalogReply<B>
        requires { who < self.old.setting.threads }
        ensures answers { (H : History) → StandsFor self.old H →
            reply_of B.number result ≡ answer self.old.setting H who (op_of B.number op) }
        ensures stands { (H : History) (stamp : ℕ) → StandsFor self.old H →
            StandsFor self.new (entry self.old.setting H who (op_of B.number op) stamp ∷ H) }

        // Each refusal has its cause, and comes wherever the cause is.
        ensures never_made { (H : History) → StandsFor self.old H →
            (reply_of B.number result ≡ Refused NeverMade) ↔ IsOfUnmade H (op_of B.number op) }
        ensures stale { (H : History) → StandsFor self.old H →
            (reply_of B.number result ≡ Refused Stale) ↔ IsOfClosed H (op_of B.number op) }
        ensures too_many { (H : History) → StandsFor self.old H →
            (reply_of B.number result ≡ Refused TooMany) ↔ IsWithoutRow self.old.setting H who (op_of B.number op) }

        // What a refused step leaves.
        ensures refused { (H : History) (stamp : ℕ) → StandsFor self.old H → is_accepted (reply_of B.number result) ≡ false →
            SaysTheSame self.old.setting (entry self.old.setting H who (op_of B.number op) stamp ∷ H) H }

        // Threads that share handles with themselves alone get what they would get without the others.
        ensures isolated { (H : History) (S : List ℕ) (stamp : ℕ) → StandsFor self.old H → has_thread S who ≡ true →
            IsClosed S (entry self.old.setting H who (op_of B.number op) stamp ∷ H) →
            reply_of B.number result ≡ answer self.old.setting (part_of S H) who (op_of B.number op) }

        ensures setting { self.new.setting ≡ self.old.setting }
    {
        self.answered(who, op)
    }

    /// Does what the op asks for, or refuses it.
    fn answered(&mut self, who: u32, op: CatalogOp<B>) -> CatalogReply<B>
        requires { who < self.old.setting.threads }
        ensures answers { (H : History) → StandsFor self.old H →
            reply_of B.number result ≡ answer self.old.setting H who (op_of B.number op) }
        ensures stands { (H : History) → StandsFor self.old H →
            StandsFor self.new (entry self.old.setting H who (op_of B.number op) 0 ∷ H) }
        ensures setting { self.new.setting ≡ self.old.setting }
    {
        match op {
            CatalogOp::Open { book } => self.open(who, book),
            CatalogOp::Get { h } => self.get(h),
            CatalogOp::Close { h } => self.close(h),
        }
    }

    /// Opens a catalog for the thread, in its least free row.
    fn open(&mut self, who: u32, book: B) -> CatalogReply<B>
        requires { who < self.old.setting.threads }
        ensures answers { (H : History) → StandsFor self.old H →
            reply_of B.number result ≡ answer self.old.setting H who (Open (B.number book)) }
        ensures stands { (H : History) → StandsFor self.old H →
            StandsFor self.new (entry self.old.setting H who (Open (B.number book)) 0 ∷ H) }
        ensures setting { self.new.setting ≡ self.old.setting }
    {
        match self.rows.free_row(self.setting.generations, who) {
            Some(row) => CatalogReply::Opened(CatalogHandle {
                owner: who,
                row,
                generation: open(&mut self.rows, who, row, book),
            }),
            None => CatalogReply::Refused(CatalogRefusal::TooMany),
        }
    }

    /// The catalog of a handle.
    fn get(&self, h: CatalogHandle) -> CatalogReply<B>
        ensures { (H : History) (who : ℕ) → StandsFor self.now H →
            reply_of B.number result ≡ answer self.now.setting H who (Get h) }
    {
        match book(&self.rows, h) {
            Some(book) => CatalogReply::Book(book),
            None => CatalogReply::Refused(self.refusal(h)),
        }
    }

    /// Closes a handle.
    fn close(&mut self, h: CatalogHandle) -> CatalogReply<B>
        ensures answers { (H : History) (who : ℕ) → StandsFor self.old H →
            reply_of B.number result ≡ answer self.old.setting H who (Close h) }
        ensures stands { (H : History) (who : ℕ) → who < self.old.setting.threads → StandsFor self.old H →
            StandsFor self.new (entry self.old.setting H who (Close h) 0 ∷ H) }
        ensures setting { self.new.setting ≡ self.old.setting }
    {
        let refusal = self.refusal(h);
        if close(&mut self.rows, h) {
            CatalogReply::Closed
        } else {
            CatalogReply::Refused(refusal)
        }
    }

    /// Why a handle that is not live is refused.
    fn refusal(&self, h: CatalogHandle) -> CatalogRefusal
        ensures { (H : History) → StandsFor self.now H →
            result ≡ (if made H h then Stale else NeverMade) }
    {
        if self.rows.is_made(h.numbers()) {
            CatalogRefusal::Stale
        } else {
            CatalogRefusal::NeverMade
        }
    }
}
