//! The open catalogs that threads share.

ghost use Rattle.std.specs.Prelude.{◌≡◌, ◌*◌, ◌<◌, ◌≤◌, ◌++◌, length, map, IfOk, OnOk, All};
ghost use Rattle.std.specs.List.{range_with_len};
ghost use Rattle.catalog_handles.specs.Seen.{op_of, reply_of};
ghost use Rattle.catalog_handles.specs.Reader.{IsReaderOf, IsInOrder, IsUnused, Answered, SawMore, GoesOnFrom, first_reader, reader_of};

use crate::reader::Reader;
use crate::stamped::{Stamped, StampedOp, StampedReply};
use crate::{CatalogOp, CatalogReply, Catalogs};
use lc_base::List;
use mask_compose::Part;
use std::alloc::{AllocError, Global};
use std::marker::Model;
use std::sync::Wait;
use turn_gate::{Seat, Turns};

/// Open catalogs that threads share, each thread as its `Reader`.
///
/// Each turn makes one entry of the one history that all threads have. No call but `new` takes
/// memory.
pub struct SharedCatalogs<B: Part> {
    turns: Turns<Stamped<B>>,
}

impl<B: Part> Drop for SharedCatalogs<B> {
    fn drop(self) {
        let SharedCatalogs { turns: _ } = self;
    }
}

impl<B: Part> Model for SharedCatalogs<B> {
    ghost use Rattle.std.specs.Prelude.{◌≡◌};
    ghost use Rattle.turn_gate.specs.Callers.{Gate};
    ghost use Rattle.catalog_handles.specs.declared.setting.CatalogSetting.{CatalogSetting};

    ghost Value = { Gate CatalogSetting };

    ghost view = { λ s. s.turns };

    ghost invariant = { λ s. s.turns.terms.seats ≡ s.turns.terms.setting.threads };
}

// Adds a thread for each of the seats, in their order.
fn seat_all<B: Part>(
    seats: &mut Vec<Seat<Stamped<B>>>,
    all: &mut Vec<Reader<B>>,
) -> Result<(), AllocError>
    requires { All IsUnused seats.old.items }
    ensures { OnOk result (all.new.items ≡ all.old.items ++ map (reader_of B.number) seats.old.items) }
{
    if let Some(seat) = seats.pop() {
        seat_all(seats, all)?;
        all.push(Reader::first(seat))?;
    }
    Ok(())
}

impl<B: Part> SharedCatalogs<B> {
    /// No open catalogs, and the threads that share them. Thread i is number i, and may make at most
    /// `quota` entries.
    ///
    /// There are 1 to 16 threads of 1 to 64 rows with 1 to 2147483647 generations each. All memory is
    /// taken here.
    pub fn new<R: Wait>(
        rt: &R,
        alloc: Global,
        threads: u32,
        rows: u32,
        generations: u32,
        quota: u32,
    ) -> Result<(SharedCatalogs<B>, List<Reader<B>>), AllocError>
        requires some_thread { 1 ≤ threads }
        requires threads { threads ≤ 16 }
        requires some_row { 1 ≤ rows }
        requires rows { rows ≤ 64 }
        requires some_generation { 1 ≤ generations }
        requires generations { generations ≤ 2147483647 }
        requires quota { 1 ≤ quota }
        requires room { threads * quota ≤ 2147483647 }
        ensures terms { IfOk result (λ s. s.0.terms ≡ record {
          setting = record { threads = threads; rows = rows; generations = generations };
          seats = threads;
          quota = quota;
        }) }
        ensures threads { IfOk result (λ s. s.1 ≡ map (first_reader s.0) (range_with_len 0 threads)) }
    {
        let catalogs = Catalogs::new(alloc, threads, rows, generations)?;
        let mut all = Vec::with_capacity(alloc, threads as usize)?;
        let (turns, seats) = Turns::new(rt, alloc, Stamped::new(catalogs), threads, quota)?;
        let mut seats = seats.into_vec();
        seat_all(&mut seats, &mut all)?;
        Ok((SharedCatalogs { turns }, List::of(all)))
    }

    /// Makes one entry as the thread, and gives its place, its stamp and its reply. The place is the
    /// number of entries before it. The stamp is the larger one of `least` and the stamp of the entry
    /// before it, which is 0 where there is none.
    pub fn turn<R: Wait>(
        &self,
        rt: &R,
        reader: &mut Reader<B>,
        op: CatalogOp<B>,
        least: u64,
    ) -> (u64, u64, CatalogReply<B>)
        requires thread { IsReaderOf self.now reader.old }
        requires quota { length reader.old.calls < self.now.terms.quota }
        ensures answered { Answered self.now reader.old reader.new (op_of B.number op) least result.0 result.1 (reply_of B.number result.2) }
        ensures in_order { IsInOrder self.now.terms reader.new }
    {
        let asked = StampedOp { op, least };
        let (place, StampedReply { reply, stamp }) = self.turns.turn(rt, &mut reader.seat, asked);
        (place, stamp, reply)
    }

    /// Afterwards each of the two has seen what either had seen.
    pub fn meet(&self, a: &mut Reader<B>, b: &mut Reader<B>)
        requires a { IsReaderOf self.now a.old }
        requires b { IsReaderOf self.now b.old }
        ensures saw_a { SawMore a.old a.new × GoesOnFrom a.new.seen b.old.seen }
        ensures saw_b { SawMore b.old b.new × GoesOnFrom b.new.seen a.old.seen }
        ensures in_order_a { IsInOrder self.now.terms a.new }
        ensures in_order_b { IsInOrder self.now.terms b.new }
    {
        self.turns.meet(&mut a.seat, &mut b.seat);
    }
}
