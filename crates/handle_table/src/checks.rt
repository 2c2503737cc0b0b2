//! Reasons against calls.

ghost use Rattle.std.specs.Prelude.{◌≡◌, ℕ, ◌<◌, ◌≤◌, ◌∷◌, [], List, Option};
ghost use Rattle.std.specs.Option.{option_or};
ghost use Rattle.mask_compose.specs.Offer.{AreOnShelf};
ghost use Rattle.handle_table.specs.Entry.{New, Dup, Hold, Release, Pins, Setting as SettingData, History};
ghost use Rattle.handle_table.specs.History.{free_row, posted};
ghost use Rattle.handle_table.specs.Answer.{no_data, global_handle, never_made, stale, too_many, already_held, not_held, empty_cell, reasons, first_reason};
ghost use Rattle.handle_table.specs.Table.{Fits};
ghost use Rattle.handle_table.specs.Seen.{op_of, reason_of};
ghost use Rattle.handle_table.specs.Kept.{Keeps};

use crate::MAX_THREADS;
use crate::kept::Kept;
use crate::op::{Op, Refusal};
use crate::setting::Setting;
use crate::shelf::lacking;
use lc_base::{CELLS, Mask, Named};
use mask_compose::Part;

/// Whether the named locales have the categories of the mask.
fn has_data<P: Part>(
    setting: &Setting<P>,
    kept: &Kept<P>,
    mask: Mask,
    names: &[u32; 5],
) -> Result<(), Refusal>
    ensures { (H : History) → Keeps setting.now H kept.now → AreOnShelf setting.now.opening names.now →
        reason_of result ≡ no_data setting.now H mask names.now }
{
    match lacking(setting, kept, mask, names) {
        Some(category) => Err(Refusal::NoData(category)),
        None => Ok(()),
    }
}

/// Whether the thread has a free row.
fn has_row<P: Part>(setting: &Setting<P>, kept: &Kept<P>, who: u32) -> Result<(), Refusal>
    requires { who < kept.now.rows.lines }
    ensures { (H : History) → Keeps setting.now H kept.now → reason_of result ≡ too_many (free_row setting.now H who) }
{
    match kept.free_row(setting, who) {
        Some(_) => Ok(()),
        None => Err(Refusal::TooMany),
    }
}

/// Whether the name is an object's.
fn is_no_global(named: Named) -> Result<(), Refusal>
    ensures { reason_of result ≡ global_handle named }
{
    match named {
        Named::Global => Err(Refusal::GlobalHandle),
        Named::Of(_) => Ok(()),
    }
}

/// Whether the handle, if it is one, was made.
fn was_made<P: Part>(kept: &Kept<P>, named: Named) -> Result<(), Refusal>
    ensures { (c : SettingData) (H : History) → Keeps c H kept.now → reason_of result ≡ never_made H named }
{
    match named {
        Named::Of(h) if !kept.is_made(h) => Err(Refusal::NeverMade),
        _ => Ok(()),
    }
}

/// Whether the handle, if it is one, was not made and freed.
fn is_not_stale<P: Part>(kept: &Kept<P>, named: Named) -> Result<(), Refusal>
    ensures { (c : SettingData) (H : History) → Keeps c H kept.now → reason_of result ≡ stale H named }
{
    match named {
        Named::Of(h) if kept.is_made(h) && !kept.is_live(h) => { Err(Refusal::Stale) }
        _ => Ok(()),
    }
}

/// Whether the thread does not hold the handle.
fn is_not_held<P: Part>(kept: &Kept<P>, who: u32, named: Named) -> Result<(), Refusal>
    requires few { who < MAX_THREADS }
    requires who { who < kept.now.rows.lines }
    ensures { (c : SettingData) (H : History) → Keeps c H kept.now → reason_of result ≡ already_held H who named }
{
    match named {
        Named::Of(h) if kept.is_held(who, h) => Err(Refusal::AlreadyHeld),
        _ => Ok(()),
    }
}

/// Whether the thread holds the handle.
fn is_held<P: Part>(kept: &Kept<P>, who: u32, named: Named) -> Result<(), Refusal>
    requires few { who < MAX_THREADS }
    requires who { who < kept.now.rows.lines }
    ensures { (c : SettingData) (H : History) → Keeps c H kept.now → reason_of result ≡ not_held H who named }
{
    match named {
        Named::Of(h) if !kept.is_held(who, h) => Err(Refusal::NotHeld),
        _ => Ok(()),
    }
}

/// Whether something stands in the thread's cell.
fn is_full<P: Part>(kept: &Kept<P>, owner: u32, number: u32) -> Result<(), Refusal>
    requires owner { owner < kept.now.rows.lines }
    requires number { number < CELLS }
    ensures { (c : SettingData) (H : History) → Keeps c H kept.now → reason_of result ≡ empty_cell (posted H owner number) }
{
    match kept.posted(owner, number) {
        Some(_) => Ok(()),
        None => Err(Refusal::EmptyCell),
    }
}

/// Whether the name is the global locale's, or an object's that was made and is live.
fn is_target<P: Part>(kept: &Kept<P>, named: Named) -> Result<(), Refusal>
    ensures { (c : SettingData) (H : History) (others : List (Option Refusal)) → Keeps c H kept.now →
        first_reason (never_made H named ∷ stale H named ∷ others) ≡ option_or (reason_of result) (first_reason others) }
{
    was_made(kept, named)?;
    is_not_stale(kept, named)
}

/// Whether the name is an object's that was made and is live.
fn is_object<P: Part>(kept: &Kept<P>, named: Named) -> Result<(), Refusal>
    ensures { (c : SettingData) (H : History) (others : List (Option Refusal)) → Keeps c H kept.now →
        first_reason (global_handle named ∷ never_made H named ∷ stale H named ∷ others) ≡ option_or (reason_of result) (first_reason others) }
{
    is_no_global(named)?;
    is_target(kept, named)
}

/// Whether there is an object to change, or else a free row for a new one.
fn has_place<P: Part>(
    setting: &Setting<P>,
    kept: &Kept<P>,
    who: u32,
    base: Option<Named>,
) -> Result<(), Refusal>
    requires { who < kept.now.rows.lines }
    ensures { (H : History) (mask : ℕ) (names : List ℕ) → Keeps setting.now H kept.now →
        first_reason (reasons setting.now H who (New mask names base)) ≡ option_or (no_data setting.now H mask names) (reason_of result) }
{
    match base {
        None => has_row(setting, kept, who),
        Some(base) => is_object(kept, base),
    }
}

/// The first reason against a New.
fn may_make<P: Part>(
    setting: &Setting<P>,
    kept: &Kept<P>,
    who: u32,
    mask: Mask,
    names: &[u32; 5],
    base: Option<Named>,
) -> Result<(), Refusal>
    requires { who < kept.now.rows.lines }
    ensures { (H : History) → Keeps setting.now H kept.now → AreOnShelf setting.now.opening names.now →
        reason_of result ≡ first_reason (reasons setting.now H who (New mask names.now base)) }
{
    has_data(setting, kept, mask, names)?;
    has_place(setting, kept, who, base)
}

/// The first reason against a Dup.
fn may_copy<P: Part>(
    setting: &Setting<P>,
    kept: &Kept<P>,
    who: u32,
    from: Named,
) -> Result<(), Refusal>
    requires { who < kept.now.rows.lines }
    ensures { (H : History) → Keeps setting.now H kept.now →
        reason_of result ≡ first_reason (reasons setting.now H who (Dup from)) }
{
    is_target(kept, from)?;
    has_row(setting, kept, who)
}

/// The first reason against a Hold.
fn may_hold<P: Part>(kept: &Kept<P>, who: u32, named: Named) -> Result<(), Refusal>
    requires few { who < MAX_THREADS }
    requires who { who < kept.now.rows.lines }
    ensures { (c : SettingData) (H : History) → Keeps c H kept.now →
        reason_of result ≡ first_reason (reasons c H who (Hold named)) }
{
    is_object(kept, named)?;
    is_not_held(kept, who, named)
}

/// The first reason against a Release.
fn may_release<P: Part>(kept: &Kept<P>, who: u32, named: Named) -> Result<(), Refusal>
    requires few { who < MAX_THREADS }
    requires who { who < kept.now.rows.lines }
    ensures { (c : SettingData) (H : History) → Keeps c H kept.now →
        reason_of result ≡ first_reason (reasons c H who (Release named)) }
{
    is_no_global(named)?;
    is_held(kept, who, named)
}

/// The first reason against a Pins.
fn may_count<P: Part>(kept: &Kept<P>, named: Named) -> Result<(), Refusal>
    ensures { (c : SettingData) (H : History) (w : ℕ) → Keeps c H kept.now →
        reason_of result ≡ first_reason (reasons c H w (Pins named)) }
{
    is_no_global(named)?;
    was_made(kept, named)
}

/// The first reason against the op.
pub fn first_reason<P: Part>(
    setting: &Setting<P>,
    kept: &Kept<P>,
    who: u32,
    op: &Op<P>,
) -> Result<(), Refusal>
    requires few { who < MAX_THREADS }
    requires who { who < kept.now.rows.lines }
    requires lines { kept.now.rows.lines ≡ setting.now.threads }
    requires op { Fits setting.now (op_of op.now) }
    ensures { (H : History) → Keeps setting.now H kept.now →
        reason_of result ≡ first_reason (reasons setting.now H who (op_of op.now)) }
{
    match op {
        Op::New { mask, names, base } => may_make(setting, kept, who, *mask, names, *base),
        Op::Dup { from } => may_copy(setting, kept, who, *from),
        Op::Free { h } | Op::Post { h, .. } => is_object(kept, *h),
        Op::Use { to } => is_target(kept, *to),
        Op::Hold { h } => may_hold(kept, who, *h),
        Op::Release { h } => may_release(kept, who, *h),
        Op::SetGlobal { mask, names } => has_data(setting, kept, *mask, names),
        Op::Fetch { owner, cell } => is_full(kept, *owner, *cell),
        Op::Pins { h } => may_count(kept, *h),
        Op::Install { .. } | Op::End => Ok(()),
    }
}
