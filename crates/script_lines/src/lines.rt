//! Lines, by the replies of the table.

ghost use Rattle.std.specs.Prelude.{◌≡◌, IfOk};
ghost use Rattle.handle_table.specs.Seen.{reply_of};
ghost use Rattle.script_lines.specs.Seen.{caller};
ghost use Rattle.script_wishes.specs.Variables.{handle_said};
ghost use Rattle.script_lines.specs.Lines.{shown, version_made, line, plain_line, placed_line};

use category_store::{Library, Share};
use handle_table::Reply;
use lc_base::Handle;
use script_out::{OutLine, Places, Said, Why};
use script_reads::names::object_name;
use script_words::CategoryArgument;
use std::alloc::{AllocError, Global};

/// Whose line it is: the round from 1, the thread from 0, and the index of its line from 1.
#[derive(Clone, Copy)]
pub struct Caller {
    pub round: u32,
    pub thread: u32,
    pub index: u32,
}

/// A line.
#[inline(always)]
pub fn line(at: Caller, places: Places, global: Option<u32>, reply: Said) -> OutLine
    ensures { result ≡ line (caller at) places global reply }
{
    OutLine {
        round: at.round,
        thread: at.thread,
        index: at.index,
        places,
        global,
        reply,
    }
}

/// A line that makes no entry.
#[inline(always)]
pub fn plain_line(at: Caller, reply: Said) -> OutLine
    ensures { result ≡ plain_line (caller at) reply }
{
    line(at, Places::None, None, reply)
}

/// The line of an entry with this place.
#[inline(always)]
pub fn placed_line(
    alloc: Global,
    library: &Library,
    at: Caller,
    place: u64,
    categories: CategoryArgument,
    reply: &Reply<Share>,
) -> Result<OutLine, AllocError>
    ensures { IfOk result (λ l. l ≡ placed_line library.now place (caller at) categories (reply_of reply.now)) }
{
    let said = shown(alloc, library, categories, reply)?;
    Ok(line(at, Places::One(place), version_made(reply), said))
}

/// The printed form of a reply of the table.
#[inline(always)]
fn shown(
    alloc: Global,
    library: &Library,
    categories: CategoryArgument,
    reply: &Reply<Share>,
) -> Result<Said, AllocError>
    ensures { IfOk result (λ said. said ≡ shown library.now categories (reply_of reply.now)) }
{
    match reply {
        Reply::Made(handle) | Reply::Got(handle) => Ok(Said::Handle(*handle)),
        Reply::Freed => Ok(Said::Freed),
        Reply::Was { former, .. } => Ok(Said::Was(*former)),
        Reply::Held(_) => Ok(Said::Held),
        Reply::Released => Ok(Said::Released),
        Reply::Set { object, .. } => Ok(Said::Name(object_name(
            alloc, library, object, categories,
        )?)),
        Reply::Installed(count) => Ok(Said::Installed(*count)),
        Reply::Posted => Ok(Said::Posted),
        Reply::Pins(count) => Ok(Said::Pins(*count)),
        Reply::Ended => Ok(Said::Ended),
        Reply::Refused(refusal) => Ok(Said::Refused(Why::Table(*refusal))),
    }
}

/// The version that a reply prints.
#[inline(always)]
fn version_made(reply: &Reply<Share>) -> Option<u32>
    ensures { result ≡ version_made (reply_of reply.now) }
{
    match reply {
        Reply::Set { version, .. } => Some(*version),
        Reply::Made(_)
        | Reply::Freed
        | Reply::Was { .. }
        | Reply::Held(_)
        | Reply::Released
        | Reply::Installed(_)
        | Reply::Posted
        | Reply::Got(_)
        | Reply::Pins(_)
        | Reply::Ended
        | Reply::Refused(_) => None,
    }
}

/// The handle that a printed reply has.
pub fn handle_said(reply: &Said) -> Option<Handle>
    ensures { result ≡ handle_said reply.now }
{
    match reply {
        Said::Handle(handle) | Said::Opened(handle) => Some(*handle),
        Said::Freed
        | Said::Was(_)
        | Said::Is(_)
        | Said::Held
        | Said::Released
        | Said::Name(_)
        | Said::Installed(_)
        | Said::Posted
        | Said::Pins(_)
        | Said::Text(_)
        | Said::Parsed(..)
        | Said::Conv(..)
        | Said::Class(_)
        | Said::Value(_)
        | Said::Closed
        | Said::Ended
        | Said::Refused(_) => None,
    }
}
