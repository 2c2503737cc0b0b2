//! Calls with nothing against them.

ghost use Rattle.std.specs.Prelude.{◌≡◌, ◌∷◌, ℕ, ◌-◌, ◌<◌, ◌≤◌, ◌^◌, length, Some, None};
ghost use Rattle.mask_compose.specs.Offer.{Offered, AreOnShelf};
ghost use Rattle.handle_table.specs.Entry.{New, Dup, Free, Use, Hold, Release, SetGlobal, Install, Post, Fetch, Pins, End, History};
ghost use Rattle.handle_table.specs.History.{free_row, object_named, object, global};
ghost use Rattle.handle_table.specs.Answer.{made_in, target_object, first_reason, reasons, answer, entry};
ghost use Rattle.handle_table.specs.Table.{Fits};
ghost use Rattle.handle_table.specs.Seen.{op_of, reply_of};
ghost use Rattle.handle_table.specs.Kept.{Keeps};
ghost use Rattle.handle_table.specs.Effects.{after_make};
ghost use Rattle.handle_table.specs.Accepted.{Accepts, SameShape};

use crate::MAX_THREADS;
use crate::checks::first_reason;
use crate::kept::Kept;
use crate::op::{Op, Refusal, Reply};
use crate::setting::Setting;
use crate::shelf::from_shelf;
use lc_base::{CELLS, Handle, Mask, Named};
use mask_compose::{Object, Offer, Part, compose};

/// Answers the thread's op: refuses it for the first reason against it, else does what it asks for.
pub fn answer<P: Part>(setting: &Setting<P>, kept: &mut Kept<P>, who: u32, op: Op<P>) -> Reply<P>
    requires few { who < MAX_THREADS }
    requires who { who < kept.old.rows.lines }
    requires lines { kept.old.rows.lines ≡ setting.now.threads }
    requires shelf { length kept.old.installed ≡ length setting.now.opening }
    requires op { Fits setting.now (op_of op) }
    requires installs { kept.old.installs < 2 ^ 32 - 1 }
    requires version { kept.old.global.version < 2 ^ 32 - 1 }
    ensures replies { (H : History) → Keeps setting.now H kept.old →
        reply_of result ≡ answer setting.now H who (op_of op) }
    ensures keeps { (H : History) → Keeps setting.now H kept.old →
        Keeps setting.now (entry setting.now H who (op_of op) ∷ H) kept.new }
    ensures shape { SameShape kept.old kept.new }
{
    match first_reason(setting, kept, who, &op) {
        Err(refusal) => {
            drop(op);
            Reply::Refused(refusal)
        }
        Ok(()) => accept(setting, kept, who, op),
    }
}

/// Does what the op asks for, which nothing is against.
fn accept<P: Part>(setting: &Setting<P>, kept: &mut Kept<P>, who: u32, op: Op<P>) -> Reply<P>
    requires few { who < MAX_THREADS }
    requires who { who < kept.old.rows.lines }
    requires lines { kept.old.rows.lines ≡ setting.now.threads }
    requires shelf { length kept.old.installed ≡ length setting.now.opening }
    requires op { Fits setting.now (op_of op) }
    requires installs { kept.old.installs < 2 ^ 32 - 1 }
    requires version { kept.old.global.version < 2 ^ 32 - 1 }
    ensures accepts { Accepts setting.now who (op_of op) kept.old kept.new (reply_of result) }
    ensures shape { SameShape kept.old kept.new }
{
    match op {
        Op::New { mask, names, base } => new_object(setting, kept, who, mask, &names, base),
        Op::Dup { from } => copy(setting, kept, who, from),
        Op::Free { h } => free(setting, kept, who, h),
        Op::Use { to } => select(setting, kept, who, to),
        Op::Hold { h } => hold(setting, kept, who, h),
        Op::Release { h } => release(setting, kept, who, h),
        Op::SetGlobal { mask, names } => set_global(setting, kept, who, mask, &names),
        Op::Install { name, offer } => install(setting, kept, who, name, offer),
        Op::Post { cell, h } => post(setting, kept, who, cell, h),
        Op::Fetch { owner, cell } => fetch(setting, kept, who, owner, cell),
        Op::Pins { h } => count(setting, kept, who, h),
        Op::End => end(setting, kept, who),
    }
}

fn new_object<P: Part>(
    setting: &Setting<P>,
    kept: &mut Kept<P>,
    who: u32,
    mask: Mask,
    names: &[u32; 5],
    base: Option<Named>,
) -> Reply<P>
    requires who { who < kept.old.rows.lines }
    requires names { AreOnShelf setting.now.opening names.now }
    ensures accepts { Accepts setting.now who (New mask names.now base) kept.old kept.new (reply_of result) }
    ensures shape { SameShape kept.old kept.new }
{
    match base {
        None => make_new(setting, kept, who, mask, names),
        Some(base) => change(setting, kept, who, mask, names, base),
    }
}

fn change<P: Part>(
    setting: &Setting<P>,
    kept: &mut Kept<P>,
    who: u32,
    mask: Mask,
    names: &[u32; 5],
    base: Named,
) -> Reply<P>
    requires who { who < kept.old.rows.lines }
    requires names { AreOnShelf setting.now.opening names.now }
    ensures accepts { Accepts setting.now who (New mask names.now (Some base)) kept.old kept.new (reply_of result) }
    ensures shape { SameShape kept.old kept.new }
{
    match base {
        Named::Global => Reply::Refused(Refusal::GlobalHandle),
        Named::Of(h) => rebuild(setting, kept, who, mask, names, h),
    }
}

fn make_new<P: Part>(
    setting: &Setting<P>,
    kept: &mut Kept<P>,
    who: u32,
    mask: Mask,
    names: &[u32; 5],
) -> Reply<P>
    requires who { who < kept.old.rows.lines }
    requires names { AreOnShelf setting.now.opening names.now }
    ensures accepts { Accepts setting.now who (New mask names.now None) kept.old kept.new (reply_of result) }
    ensures shape { SameShape kept.old kept.new }
{
    let picks = from_shelf(setting, kept, mask, names);
    let object = compose(mask, &picks, &setting.posix().object);
    make(setting, kept, who, object)
}

/// Puts a new object into the least free row of the thread.
fn make<P: Part>(setting: &Setting<P>, kept: &mut Kept<P>, who: u32, object: Object<P>) -> Reply<P>
    requires who { who < kept.old.rows.lines }
    ensures replies { (H : History) → Keeps setting.now H kept.old → reply_of result ≡ made_in H who (free_row setting.now H who) }
    ensures after { (H : History) (r : ℕ) → Keeps setting.now H kept.old → free_row setting.now H who ≡ Some r →
        kept.new ≡ after_make who r object kept.old }
    ensures shape { SameShape kept.old kept.new }
{
    match kept.free_row(setting, who) {
        None => Reply::Refused(Refusal::TooMany),
        Some(row) => Reply::Made(kept.make(who, row, object)),
    }
}

fn rebuild<P: Part>(
    setting: &Setting<P>,
    kept: &mut Kept<P>,
    who: u32,
    mask: Mask,
    names: &[u32; 5],
    h: Handle,
) -> Reply<P>
    requires who { who < kept.old.rows.lines }
    requires names { AreOnShelf setting.now.opening names.now }
    ensures accepts { Accepts setting.now who (New mask names.now (Some (Named.Of h))) kept.old kept.new (reply_of result) }
    ensures shape { SameShape kept.old kept.new }
{
    let picks = from_shelf(setting, kept, mask, names);
    let object = compose(mask, &picks, &kept.object(setting, h));
    kept.rebuild(h, object);
    Reply::Made(h)
}

fn copy<P: Part>(setting: &Setting<P>, kept: &mut Kept<P>, who: u32, from: Named) -> Reply<P>
    requires who { who < kept.old.rows.lines }
    ensures accepts { Accepts setting.now who (Dup from) kept.old kept.new (reply_of result) }
    ensures shape { SameShape kept.old kept.new }
{
    let object = copied(setting, kept, from);
    make(setting, kept, who, object)
}

/// The object that a Dup copies.
fn copied<P: Part>(setting: &Setting<P>, kept: &Kept<P>, from: Named) -> Object<P>
    ensures { (H : History) (w : ℕ) → Keeps setting.now H kept.now → first_reason (reasons setting.now H w (Dup from)) ≡ None →
        result ≡ object_named (object setting.now H) (global setting.now H) from }
{
    match from {
        Named::Global => kept.global().peek().share(),
        Named::Of(h) => kept.object(setting, h),
    }
}

fn free<P: Part>(setting: &Setting<P>, kept: &mut Kept<P>, who: u32, named: Named) -> Reply<P>
    requires who { who < kept.old.rows.lines }
    ensures accepts { Accepts setting.now who (Free named) kept.old kept.new (reply_of result) }
    ensures shape { SameShape kept.old kept.new }
{
    kept.free(named);
    Reply::Freed
}

fn select<P: Part>(setting: &Setting<P>, kept: &mut Kept<P>, who: u32, to: Named) -> Reply<P>
    requires who { who < kept.old.rows.lines }
    ensures accepts { Accepts setting.now who (Use to) kept.old kept.new (reply_of result) }
    ensures shape { SameShape kept.old kept.new }
{
    let now = taken_up(setting, kept, to);
    let former = kept.select(who, to);
    Reply::Was { former, now }
}

/// The object that a Use takes up; `None` for the global locale.
fn taken_up<P: Part>(setting: &Setting<P>, kept: &Kept<P>, to: Named) -> Option<Object<P>>
    ensures { (H : History) (w : ℕ) → Keeps setting.now H kept.now → first_reason (reasons setting.now H w (Use to)) ≡ None →
        result ≡ target_object setting.now H to }
{
    match to {
        Named::Global => None,
        Named::Of(h) => Some(kept.object(setting, h)),
    }
}

fn hold<P: Part>(setting: &Setting<P>, kept: &mut Kept<P>, who: u32, named: Named) -> Reply<P>
    requires few { who < MAX_THREADS }
    requires who { who < kept.old.rows.lines }
    ensures accepts { Accepts setting.now who (Hold named) kept.old kept.new (reply_of result) }
    ensures shape { SameShape kept.old kept.new }
{
    match named {
        Named::Global => Reply::Refused(Refusal::GlobalHandle),
        Named::Of(h) => {
            let object = kept.object(setting, h);
            kept.hold(who, named);
            Reply::Held(object)
        }
    }
}

fn release<P: Part>(setting: &Setting<P>, kept: &mut Kept<P>, who: u32, named: Named) -> Reply<P>
    requires few { who < MAX_THREADS }
    requires who { who < kept.old.rows.lines }
    ensures accepts { Accepts setting.now who (Release named) kept.old kept.new (reply_of result) }
    ensures shape { SameShape kept.old kept.new }
{
    kept.release(who, named);
    Reply::Released
}

fn set_global<P: Part>(
    setting: &Setting<P>,
    kept: &mut Kept<P>,
    who: u32,
    mask: Mask,
    names: &[u32; 5],
) -> Reply<P>
    requires who { who < kept.old.rows.lines }
    requires names { AreOnShelf setting.now.opening names.now }
    requires version { kept.old.global.version < 2 ^ 32 - 1 }
    ensures accepts { Accepts setting.now who (SetGlobal mask names.now) kept.old kept.new (reply_of result) }
    ensures shape { SameShape kept.old kept.new }
{
    let picks = from_shelf(setting, kept, mask, names);
    let version = kept.set_global(mask, &picks);
    Reply::Set {
        version,
        object: kept.global().peek().share(),
    }
}

fn install<P: Part>(
    setting: &Setting<P>,
    kept: &mut Kept<P>,
    who: u32,
    name: u32,
    offer: Offer<P>,
) -> Reply<P>
    requires who { who < kept.old.rows.lines }
    requires name { name < length kept.old.installed }
    requires installs { kept.old.installs < 2 ^ 32 - 1 }
    ensures accepts { Accepts setting.now who (Install name offer) kept.old kept.new (reply_of result) }
    ensures shape { SameShape kept.old kept.new }
{
    Reply::Installed(kept.install(name, offer))
}

fn post<P: Part>(
    setting: &Setting<P>,
    kept: &mut Kept<P>,
    who: u32,
    number: u32,
    named: Named,
) -> Reply<P>
    requires who { who < kept.old.rows.lines }
    requires number { number < CELLS }
    ensures accepts { Accepts setting.now who (Post number named) kept.old kept.new (reply_of result) }
    ensures shape { SameShape kept.old kept.new }
{
    kept.post(who, number, named);
    Reply::Posted
}

fn fetch<P: Part>(
    setting: &Setting<P>,
    kept: &mut Kept<P>,
    who: u32,
    owner: u32,
    number: u32,
) -> Reply<P>
    requires who { who < kept.old.rows.lines }
    requires owner { owner < kept.old.rows.lines }
    requires number { number < CELLS }
    ensures accepts { Accepts setting.now who (Fetch owner number) kept.old kept.new (reply_of result) }
    ensures shape { SameShape kept.old kept.new }
{
    match kept.posted(owner, number) {
        None => Reply::Refused(Refusal::EmptyCell),
        Some(h) => Reply::Got(h),
    }
}

fn count<P: Part>(setting: &Setting<P>, kept: &mut Kept<P>, who: u32, named: Named) -> Reply<P>
    requires who { who < kept.old.rows.lines }
    ensures accepts { Accepts setting.now who (Pins named) kept.old kept.new (reply_of result) }
    ensures shape { SameShape kept.old kept.new }
{
    match named {
        Named::Global => Reply::Refused(Refusal::GlobalHandle),
        Named::Of(h) => Reply::Pins(kept.pins(h)),
    }
}

fn end<P: Part>(setting: &Setting<P>, kept: &mut Kept<P>, who: u32) -> Reply<P>
    requires few { who < MAX_THREADS }
    requires who { who < kept.old.rows.lines }
    ensures accepts { Accepts setting.now who End kept.old kept.new (reply_of result) }
    ensures shape { SameShape kept.old kept.new }
{
    kept.end(who);
    Reply::Ended
}
