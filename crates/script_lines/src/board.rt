//! Who answers the calls of the script's threads.

use catalog_handles::{BookShare, CatalogOp, CatalogReply};
use category_store::Share;
use handle_table::{Op, Reply};
use lc_base::Named;
use mask_compose::Object;
use std::alloc::AllocError;

/// What a thread keeps of its calls: its number, what it has selected, and what it holds.
pub trait Side: Drop {
    ghost use Rattle.std.specs.Prelude.{◌≡◌, ℕ};
    ghost use Rattle.std.specs.Option.{option_copied};
    ghost use Rattle.handle_table.specs.Entry.{History};
    ghost use Rattle.handle_table.specs.History.{selection};
    ghost use Rattle.handle_table.specs.Answer.{own};
    ghost use Rattle.script_wishes.specs.Holds.{open_holds, held_as};

    /// The thread's number.
    ghost number_of: { Self → ℕ };

    /// The thread keeps what a history says of it.
    ghost knows: { Self → History → Type 0 };

    /// The thread's number, from 0.
    fn number(&self) -> u32
        ensures { result ≡ number_of self.now };

    /// The object that it has taken up; `None` where it goes by the global locale.
    fn own(&self) -> Option<&Object<Share>>
        ensures { (H : History) → knows self.now H → option_copied result ≡ own H (number_of self.now) };

    /// What it has selected.
    fn selected(&self) -> Named
        ensures { (H : History) → knows self.now H → result ≡ selection H (number_of self.now) };

    /// The object of its open Hold of what is named.
    fn held_as(&self, named: Named) -> Option<&Object<Share>>
        ensures { (H : History) → knows self.now H → option_copied result ≡ held_as (open_holds H (number_of self.now)) named };
}

/// A table of locale objects, with the catalogs that its threads have open, that answers their calls:
/// one that the caller has alone, or one that threads share.
pub trait Board: Drop {
    ghost use Rattle.std.specs.Prelude.{◌≡◌, ◌+◌, ℕ, IfOk, OnOk};
    ghost use Rattle.handle_table.specs.Entry.{History, Setting, Op as TableOp};
    ghost use Rattle.handle_table.specs.Seen.{op_of, reply_of};
    ghost use Rattle.catalog_handles.specs.Entry.{History as Catalogs};
    ghost use Rattle.catalog_handles.specs.Seen.{op_of as catalog_op_of, reply_of as catalog_reply_of};
    ghost use Rattle.script_lines.specs.Board.{Answers, Finds, Asks};
    ghost use Rattle.script_lines.specs.Catalogs.{number_of as book_number};

    /// What a thread keeps.
    type Side: Side;

    /// The setting of the table.
    ghost setting_of: { Self → Setting };

    /// The table and the thread are at this history: it is the one that the table stands for, or the
    /// one that the thread has seen.
    ghost at: { Self → Self.Side → History → Type 0 };

    /// What the first history may be, at a table of this setting, before the next call of the thread
    /// with this number that was at the second one.
    ghost later: { Setting → ℕ → History → History → Type 0 };

    /// The catalogs and the thread are at this history of theirs.
    ghost catalogs_at: { Self → Self.Side → Catalogs → Type 0 };

    /// What the first history of the catalogs may be before the next call of the thread, as above.
    ghost catalogs_later: { Setting → ℕ → Catalogs → Catalogs → Type 0 };

    /// The thread may make so many calls more, of the table and of the catalogs.
    ghost ready: { ℕ → Self → Self.Side → Type 0 };

    /// A table of this setting answers the op.
    ghost may: { Setting → TableOp → Type 0 };

    /// Answers an op of the thread: the place of its entry, and the reply.
    fn call(
        &mut self,
        side: &mut Self::Side,
        op: Op<Share>,
    ) -> Result<(u64, Reply<Share>), AllocError>
        requires ready { ready 1 self.old side.old }
        requires may { may (setting_of self.old) (op_of op) }
        ensures answers { IfOk result (λ r. (H : History) → at self.old side.old H
            → Answers (setting_of self.old) (later (setting_of self.old) (Self.Side.number_of side.old)) (at self.new side.new) (Self.Side.number_of side.old) H (op_of op) r.0 (reply_of r.1)) }
        ensures catalogs { OnOk result ((M : Catalogs) → catalogs_at self.old side.old M → catalogs_at self.new side.new M) }
        ensures number { OnOk result (Self.Side.number_of side.new ≡ Self.Side.number_of side.old) }
        ensures setting { OnOk result (setting_of self.new ≡ setting_of self.old) }
        ensures ready { OnOk result ((n : ℕ) → ready (n + 1) self.old side.old → ready n self.new side.new) };

    /// The version of the global locale, and its object.
    fn global(&mut self, side: &mut Self::Side) -> (u32, Object<Share>)
        requires ready { ready 0 self.old side.old }
        ensures finds { (H : History) → at self.old side.old H
            → Finds (setting_of self.old) (later (setting_of self.old) (Self.Side.number_of side.old)) (at self.new side.new) H result.0 result.1 }
        ensures catalogs { (M : Catalogs) → catalogs_at self.old side.old M → catalogs_at self.new side.new M }
        ensures number { Self.Side.number_of side.new ≡ Self.Side.number_of side.old }
        ensures setting { setting_of self.new ≡ setting_of self.old }
        ensures ready { (n : ℕ) → ready n self.old side.old → ready n self.new side.new };

    /// Answers an op of the thread at its catalogs: the place of its entry in their history, and the
    /// reply. The entry has a stamp, so that one order has the calls of both histories: it stands behind
    /// as many entries of the table, and before the others. Afterwards the thread has seen these.
    fn catalog(
        &mut self,
        side: &mut Self::Side,
        op: CatalogOp<BookShare>,
    ) -> (u64, CatalogReply<BookShare>)
        requires ready { ready 1 self.old side.old }
        ensures answers { (H : History) (M : Catalogs) → at self.old side.old H → catalogs_at self.old side.old M
            → Asks (setting_of self.old) (later (setting_of self.old) (Self.Side.number_of side.old)) (catalogs_later (setting_of self.old) (Self.Side.number_of side.old)) (at self.new side.new) (catalogs_at self.new side.new) (Self.Side.number_of side.old) H M
            (catalog_op_of book_number op) result.0 (catalog_reply_of book_number result.1) }
        ensures number { Self.Side.number_of side.new ≡ Self.Side.number_of side.old }
        ensures setting { setting_of self.new ≡ setting_of self.old }
        ensures ready { (n : ℕ) → ready (n + 1) self.old side.old → ready n self.new side.new };

    /// A thread keeps what the history says of it that it is at.
    ghost known: { (b : Self) (s : Self.Side) (H : History) → at b s H → Self.Side.knows s H };

    /// It may make its next call there.
    ghost stays: { (b : Self) (s : Self.Side) (H : History) → at b s H → later (setting_of b) (Self.Side.number_of s) H H };

    /// One that may make so many calls more may make fewer.
    ghost fewer: { (n : ℕ) (b : Self) (s : Self.Side) → ready (n + 1) b s → ready n b s };
}
