//! Faults in the order of their lines.

ghost use Rattle.std.specs.Prelude.{◌≡◌, ◌≤◌, length, OnOk};
ghost use Rattle.tool_check.specs.Found.{has_line, place_of, with_fault};

use lc_base::{Place, Reason};
use std::alloc::AllocError;

/// A fault with its place among the lines of all files.
#[derive(Clone, Copy)]
pub struct Fault {
    pub place: Place,
    pub reason: Reason,
}

/// Adds a fault before the first one on a later line, if there is one and it stands on a line of its own.
pub fn push_fault(faults: &mut Vec<Fault>, fault: Option<Fault>) -> Result<(), AllocError>
    ensures { OnOk result (faults.new.items ≡ with_fault faults.old.items fault) }
{
    match fault {
        Some(fault) => {
            if !has_line(faults.as_slice(), fault.place.line) {
                let at = place_of(faults.as_slice(), fault.place.line);
                faults.insert(at, fault)?;
            }
            Ok(())
        }
        None => Ok(()),
    }
}

/// Whether a fault stands on a line.
fn has_line(faults: &[Fault], line: u32) -> bool
    ensures { result ≡ has_line line faults.now }
{
    for fault in faults {
        if fault.place.line == line {
            return true;
        }
    }
    false
}

/// Where the first fault on a later line stands, or the end.
fn place_of(faults: &[Fault], line: u32) -> usize
    ensures is { result ≡ place_of line faults.now }
    ensures within { result ≤ length faults.now }
{
    for (i, fault) in faults.iter().enumerate() {
        if line < fault.place.line {
            return i;
        }
    }
    faults.len()
}
