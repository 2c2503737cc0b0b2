//! The open Holds of a thread.

ghost use Rattle.std.specs.Prelude.{◌≡◌, find, OnOk};
ghost use Rattle.std.specs.Option.{option_copied};
ghost use Rattle.handle_table.specs.Entry.{names, same_handle};
ghost use Rattle.handle_table.specs.Seen.{op_of, reply_of};
ghost use Rattle.script_wishes.specs.Holds.{object_held, with_hold, without, hold_change, changed, is_of, held_as};

use category_store::Share;
use handle_table::{Op, Reply};
use lc_base::{Handle, Named};
use mask_compose::Object;
use std::alloc::AllocError;

/// A Hold, with the object as it was then.
pub struct OpenHold {
    pub handle: Handle,
    pub object: Object<Share>,
}

impl Drop for OpenHold {
    fn drop(self) {
        let OpenHold {
            handle: _,
            object: _,
        } = self;
    }
}

/// What an accepted op does to the open Holds of its thread.
#[derive(Clone, Copy)]
pub enum HoldChange {
    Keep,
    Open(Named),
    Close(Named),
    CloseAll,
}

/// What an op does to the open Holds of its thread, if it is accepted.
pub fn hold_change(op: &Op<Share>) -> HoldChange
    ensures { result ≡ hold_change (op_of op.now) }
{
    match op {
        Op::Hold { h } => HoldChange::Open(*h),
        Op::Release { h } => HoldChange::Close(*h),
        Op::End => HoldChange::CloseAll,
        Op::New { .. }
        | Op::Dup { .. }
        | Op::Free { .. }
        | Op::Use { .. }
        | Op::SetGlobal { .. }
        | Op::Install { .. }
        | Op::Post { .. }
        | Op::Fetch { .. }
        | Op::Pins { .. } => HoldChange::Keep,
    }
}

/// The object that a reply hands over to hold.
pub fn object_held(reply: &Reply<Share>) -> Option<&Object<Share>>
    ensures { option_copied result ≡ object_held (reply_of reply.now) }
{
    match reply {
        Reply::Held(object) => Some(object),
        Reply::Made(_)
        | Reply::Freed
        | Reply::Was { .. }
        | Reply::Released
        | Reply::Set { .. }
        | Reply::Installed(_)
        | Reply::Posted
        | Reply::Got(_)
        | Reply::Pins(_)
        | Reply::Ended
        | Reply::Refused(_) => None,
    }
}

/// Changes the Holds, where the reply hands over this object.
pub fn change_holds(
    holds: &mut Vec<OpenHold>,
    object: Option<&Object<Share>>,
    change: HoldChange,
) -> Result<(), AllocError>
    ensures { OnOk result (holds.new.items ≡ changed holds.old.items (option_copied object.entry) change) }
{
    match change {
        HoldChange::Keep => Ok(()),
        HoldChange::Open(named) => add_hold(holds, named, object),
        HoldChange::Close(named) => {
            remove_hold(holds, named);
            Ok(())
        }
        HoldChange::CloseAll => {
            holds.clear();
            Ok(())
        }
    }
}

/// Adds a Hold behind the others.
fn add_hold(
    holds: &mut Vec<OpenHold>,
    named: Named,
    object: Option<&Object<Share>>,
) -> Result<(), AllocError>
    ensures { OnOk result (holds.new.items ≡ with_hold holds.old.items named (option_copied object.entry)) }
{
    let Named::Of(handle) = named else {
        return Ok(());
    };
    if let Some(object) = object {
        holds.push(OpenHold {
            handle,
            object: object.share(),
        })?;
    }
    Ok(())
}

/// Takes the Holds of what is named out.
fn remove_hold(holds: &mut Vec<OpenHold>, named: Named)
    ensures { holds.new.items ≡ without holds.old.items named }
{
    holds.retain(|hold| !is_named(named, hold.handle));
}

/// The open Hold of a handle.
fn hold_of(holds: &[OpenHold], handle: Handle) -> Option<&OpenHold>
    ensures { option_copied result ≡ find (is_of handle) holds.now }
{
    holds.iter().find(|hold| is_same(hold.handle, handle))
}

/// The object of the open Hold of what is named.
pub fn held_as(holds: &[OpenHold], named: Named) -> Option<&Object<Share>>
    ensures { option_copied result ≡ held_as holds.now named }
{
    match named {
        Named::Global => None,
        Named::Of(handle) => {
            let hold = hold_of(holds, handle)?;
            Some(&hold.object)
        }
    }
}

/// Whether a name is that of a handle.
pub fn is_named(named: Named, handle: Handle) -> bool
    ensures { result ≡ names named handle }
{
    match named {
        Named::Global => false,
        Named::Of(other) => is_same(other, handle),
    }
}

/// Whether two handles are one.
fn is_same(one: Handle, other: Handle) -> bool
    ensures { result ≡ same_handle one other }
{
    one.owner == other.owner && one.row == other.row && one.generation == other.generation
}
