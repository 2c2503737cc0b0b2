//! The steps on the words and the slot, by one seat each.
ghost use Rattle.std.specs.Prelude.{◌≡◌, ℕ, ◌+◌, ◌*◌, ◌/◌, ◌%◌, ◌^◌, ◌<◌, ◌≤◌, [], false};
ghost use Rattle.atomic_table.specs.Table.{step};
ghost use mathlib.Core.Option.{none};
ghost use Rattle.std.specs.Prelude.{Some, ◌∷◌, ◌++◌};
ghost use Rattle.turn_gate.specs.History.{entry};
ghost use Rattle.turn_gate.specs.Rule.{Looks, joined, split_off, released, terms_of, HasNumber, HasTurn, MayRelease};

use crate::machine::Machine;
use crate::rule::{About, Both, Law, Look, Made, Number, Off, Release, Take, View};
use atomic_table::Shared;
use std::snapshot::Snapshot;
use std::sync::Wait;
use std::sync::atomic::{AtomicU64, Ordering};
use std::thread;

/// How often a thread tries again, giving its processor away in between, before it sleeps.
const TRIES: u32 = 16;

pub(crate) type Known<M> = View<<M as Machine>::Setting, <M as Machine>::Op, <M as Machine>::Reply>;

pub(crate) type Place<M> = atomic_table::Seat<Option<M>, Known<M>>;

pub(crate) type Board<M> = Shared<Option<M>, Known<M>, About<M>, Law<M>>;

/// The number of entries that the first word counts.
pub(crate) fn count_in(word: u64) -> u64
    ensures { result ≡ word % 4294967296 / 2 }
{
    word % (1 << 32) / 2
}

/// The version in the first word.
pub(crate) fn version_in(word: u64) -> u32
    ensures { result ≡ word / 4294967296 }
{
    (word / (1 << 32)) as u32
}

/// The first word while nobody has the turn.
pub(crate) fn clear_word(count: u64, version: u32) -> u64
    requires { count < 2147483648 }
    ensures { result ≡ 2 * count + 4294967296 * version }
{
    2 * count + (1 << 32) * u64::from(version)
}

pub(crate) fn look<M: Machine>(board: &Board<M>, place: &mut Place<M>) -> u64
    requires { (place.old.table_id ≡ board.now.table_id) × (board.now.table_id.words ≡ 2) }
    ensures seat { (place.new.table_id ≡ place.old.table_id) × (place.new.id ≡ place.old.id) }
    ensures looks { Looks M.legal M.version_of place.old.me result place.new.me }
{
    board.load::<Look>(place, 0)
}

/// Loads the first word until it counts so many entries, or more, and gives it.
pub(crate) fn reach<M: Machine, R: Wait>(
    rt: &R,
    board: &Board<M>,
    place: &mut Place<M>,
    least: u64,
) -> u64
    requires table { (place.old.table_id ≡ board.now.table_id) × (board.now.table_id.words ≡ 2) }
    requires bare { place.old.me.1 ≡ [] }
    requires quiet { place.old.me.0.told ≡ [] }
    ensures seat { (place.new.table_id ≡ place.old.table_id) × (place.new.id ≡ place.old.id) }
    ensures looks { Looks M.legal M.version_of place.old.me result place.new.me }
    ensures least { least ≤ result % 4294967296 / 2 }
{
    for _ in rt.forever() {
        let word = board.load::<Look>(place, 0);
        if count_in(word) >= least {
            return word;
        }
        thread::yield_now();
    }
    unreachable!()
}

// Waits while another seat has the turn: it lets other threads run at first, and then sleeps until a release.
fn wait<M: Machine, R: Wait>(rt: &R, board: &Board<M>, sleepers: &AtomicU64, word: u64, tries: u32)
    requires { board.now.table_id.words ≡ 2 }
{
    if tries < TRIES {
        thread::yield_now();
        return;
    }
    sleepers.fetch_add(1, Ordering::SeqCst);
    board.park(rt, 0, (word % (1 << 32)) as u32);
    sleepers.fetch_sub(1, Ordering::SeqCst);
}

/// Takes the turn, and with it the machine. Gives the word as it was.
pub(crate) fn take<M: Machine, R: Wait>(
    rt: &R,
    board: &Board<M>,
    sleepers: &AtomicU64,
    place: &mut Place<M>,
) -> u64
    requires table { (place.old.table_id ≡ board.now.table_id) × (board.now.table_id.words ≡ 2) }
    requires terms { place.old.me.0.terms ≡ Some (terms_of M.setting board.now.key) }
    requires number { (n : ℕ) × HasNumber n place.old.me.0.tickets }
    requires bare { place.old.me.1 ≡ [] }
    requires quiet { place.old.me.0.told ≡ [] }
    ensures seat { (place.new.table_id ≡ place.old.table_id) × (place.new.id ≡ place.old.id) }
    ensures turn { HasTurn M.stands M.legal M.setting M.version_of (terms_of M.setting board.now.key) place.old.me.0 place.new.me result }
{
    let mut tries = 0u32;
    for _ in rt.forever() {
        let word = board.load::<Look>(place, 0);
        if word % 2 == 1 {
            wait(rt, board, sleepers, word, tries);
            tries = tries.saturating_add(1);
        } else if board.compare_exchange::<Take>(place, 0, word, word + 1) == word {
            return word;
        }
    }
    unreachable!()
}

/// Gives the turn back, with the machine and what was made, and wakes a thread that sleeps.
pub(crate) fn release<M: Machine, W: Made<M::Op, M::Reply>>(
    board: &Board<M>,
    sleepers: &AtomicU64,
    place: &mut Place<M>,
    word: u64,
)
    requires table { (place.old.table_id ≡ board.now.table_id) × (board.now.table_id.words ≡ 2) }
    requires release { MayRelease M.stands M.legal M.setting M.version_of (terms_of M.setting board.now.key) place.old.me W.made word }
    ensures seat { (place.new.table_id ≡ place.old.table_id) × (place.new.id ≡ place.old.id) }
    ensures released { released W.made (step board.now.table_id.slots 0 word 0 none) place.old.me word place.new.me }
{
    board.swap::<Release<W>>(place, 0, word);
    if sleepers.load(Ordering::SeqCst) > 0 {
        board.wake_one(0);
    }
}

/// Gives the turn back with one new entry.
pub(crate) fn enter<M: Machine, W: Made<M::Op, M::Reply>>(
    board: &Board<M>,
    sleepers: &AtomicU64,
    place: &mut Place<M>,
    word: u64,
    who: u32,
    asked: &Snapshot<M::Op>,
    reply: &M::Reply,
)
    requires table { (place.old.table_id ≡ board.now.table_id) × (board.now.table_id.words ≡ 2) }
    requires made { W.made ≡ entry who asked.now.value reply.now ∷ [] }
    requires release { MayRelease M.stands M.legal M.setting M.version_of (terms_of M.setting board.now.key) place.old.me (entry who asked.now.value reply.now ∷ []) word }
    ensures seat { (place.new.table_id ≡ place.old.table_id) × (place.new.id ≡ place.old.id) }
    ensures released { released (entry who asked.now.value reply.now ∷ []) (step board.now.table_id.slots 0 word 0 none) place.old.me word place.new.me }
{
    release::<M, W>(board, sleepers, place, word);
}

/// The seat `to` sees what `from` has seen, and perhaps more.
pub(crate) fn tell<M: Machine>(board: &Board<M>, from: &mut Place<M>, to: &mut Place<M>)
    requires table { (from.old.table_id ≡ board.now.table_id) × (to.old.table_id ≡ board.now.table_id) × (board.now.table_id.words ≡ 2) }
    requires quiet { to.old.me.0.told ≡ [] }
    ensures from { (from.new.table_id ≡ from.old.table_id) × (from.new.me ≡ from.old.me) }
    ensures to { (to.new.table_id ≡ to.old.table_id) × (to.new.id ≡ to.old.id) }
    ensures told { (n : ℕ) × Looks M.legal M.version_of (joined to.old.me.0 (split_off from.old.me.0), to.old.me.1) n to.new.me }
{
    let told = board.split_seat::<Off>(from);
    board.join_seat::<Both>(to, told);
    board.load::<Look>(to, 0);
}
