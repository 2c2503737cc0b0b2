//! The line of a refused bundle.

ghost use Rattle.std.specs.Prelude.{◌≡◌, ◌++◌, OnOk};
ghost use Rattle.script_out.specs.Refusal.{refusal_line};

use lc_base::{Place, Reason, push_number};
use reason_rules::push_reason;
use std::alloc::AllocError;

/// Adds `refused: L:C REASON` and a newline.
pub fn push_refusal(out: &mut Vec<u8>, place: Place, reason: Reason) -> Result<(), AllocError>
    ensures { OnOk result (out.new.items ≡ out.old.items ++ refusal_line place reason) }
{
    out.extend_from_slice(b"refused: ")?;
    push_number(out, u128::from(place.line))?;
    out.extend_from_slice(b":")?;
    push_number(out, u128::from(place.column))?;
    out.push(b' ')?;
    push_reason(out, reason)?;
    out.push(b'\n')?;
    Ok(())
}
