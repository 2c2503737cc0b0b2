//! Faults of all parts as faults of one.

ghost use Rattle.std.specs.Prelude.{◌≡◌};
ghost use Rattle.library_parts.specs.Places.{own_line, part_fault};

use crate::fault::{PartFault, Wrong};
use lc_base::{Place, TextFault};

/// The part in which a line of all parts stands, and which of its lines it is.
fn own_line(befores: &[u32], line: u32) -> (usize, u32)
    ensures { result ≡ own_line befores.now line }
{
    let mut best = (0, line);
    for (number, before) in befores.iter().enumerate() {
        if *before < line {
            best = (number, line - *before);
        }
    }
    best
}

/// A refusal at a place of all parts, told of the part that has the place.
pub fn part_fault(befores: &[u32], fault: TextFault) -> PartFault
    ensures { result ≡ part_fault befores.now fault }
{
    match fault {
        TextFault::Memory => PartFault::Memory,
        TextFault::At(place, reason) => {
            let (part, line) = own_line(befores, place.line);
            let place = Place {
                line,
                column: place.column,
            };
            PartFault::At(part, Wrong::Text(place, reason))
        }
    }
}
