//! Formats with their values: their texts in a `Vec`.

ghost use Rattle.std.specs.Prelude.{◌≡◌, ◌≤◌, length, ℕ, List, Result, Ok, None, OnOk, IfErr, IfSome, true};
ghost use Rattle.lc_base.specs.declared.refusal.FormatRefusal.{FormatRefusal};
ghost use Rattle.digit_groups.specs.declared.fault.FormatStop.TheVariants.{TooSmall};
ghost use Rattle.digit_groups.specs.declared.fault.FormatFault.TheVariants.{Stopped};
ghost use Rattle.std.specs.List.{list_all};
ghost use Rattle.digit_groups.specs.Formats.{formatted, at_most, Refuses, Stops};

use crate::conversion::FormatConversion;
use crate::fault::{FormatFault, FormatStop};
use crate::text::write_text;

/// Puts the text of a format with its values, at most `max` bytes, in place of what a `Vec` holds. It
/// is made at once where it has at most `room` bytes.
#[inline(always)]
pub fn format_into<C: FormatConversion>(
    out: &mut Vec<u8>,
    category: &C::Category,
    format: &[u8],
    values: &[C::Value],
    room: usize,
    max: usize,
) -> Result<(), FormatFault>
    requires good { list_all C.is_value values.now ≡ true }
    ensures text { OnOk result (at_most max (formatted C.conversion (C.text category.now) C.lacks format.now values.now) ≡ Ok out.new.items) }
    ensures fault { IfErr result (λ e. Refuses C.lacks e (at_most max (formatted C.conversion (C.text category.now) C.lacks format.now values.now))) }
{
    match put_text::<C>(out, category, format, values, room.min(max)) {
        Ok(()) => Ok(()),
        Err(fault) => match room_after(fault, max) {
            None => Err(fault),
            Some(needed) => match put_text::<C>(out, category, format, values, needed) {
                Ok(()) => Ok(()),
                Err(fault) => Err(fault),
            },
        },
    }
}

/// How many bytes a text has that was too long, if it may have so many.
#[tactic(auto, using(crate::proofs::TextLemmas::too_big, crate::proofs::TextLemmas::stays_refused))]
fn room_after(fault: FormatFault, max: usize) -> Option<usize>
    ensures some { IfSome result (λ n. fault ≡ Stopped (TooSmall n)) }
    ensures few { IfSome result (λ n. n ≤ max) }
    ensures none { result ≡ None → (lacks : ℕ → FormatRefusal) (room : ℕ) (answer : Result (List ℕ) FormatRefusal) → Stops lacks room fault answer → Refuses lacks fault (at_most max answer) }
{
    match fault {
        FormatFault::Stopped(FormatStop::TooSmall { needed }) if needed <= max => Some(needed),
        _ => None,
    }
}

/// Puts the text of a format, at most `room` bytes, in place of what a `Vec` holds.
fn put_text<C: FormatConversion>(
    out: &mut Vec<u8>,
    category: &C::Category,
    format: &[u8],
    values: &[C::Value],
    room: usize,
) -> Result<(), FormatFault>
    requires good { list_all C.is_value values.now ≡ true }
    ensures text { OnOk result (formatted C.conversion (C.text category.now) C.lacks format.now values.now ≡ Ok out.new.items) }
    ensures short { OnOk result (length out.new.items ≤ room) }
    ensures fault { IfErr result (λ e. Stops C.lacks room e (formatted C.conversion (C.text category.now) C.lacks format.now values.now)) }
{
    out.resize(room, 0)?;
    match write_text::<C>(out.as_mut_slice(), category, format, values) {
        Ok(len) => {
            out.truncate(len);
            Ok(())
        }
        Err(stop) => Err(FormatFault::Stopped(stop)),
    }
}
