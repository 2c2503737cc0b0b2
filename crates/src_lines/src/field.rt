//! The first two fields of a line of a charmap (XBD 6.4).

ghost use Rattle.std.specs.Prelude.{◌≡◌, ◌<◌, ◌≤◌, length, IfOk};
ghost use Rattle.lc_base.specs.Reading.{Gives};
ghost use Rattle.src_lines.specs.Places.{line_at};
ghost use Rattle.src_lines.specs.Rows.{line_of};
ghost use Rattle.src_lines.specs.Atoms.{items_from};
ghost use Rattle.src_lines.specs.Fields.{field, fields};

use crate::cells::Atoms;
use crate::operand::skip_blanks;
use crate::text::{RunEnd, run};
use crate::{Lines, LogicalLine};
use lc_base::{Place, TextFault};
use std::alloc::Global;

/// A part of a line up to a bare blank, or the line's end.
pub struct Field {
    /// The place of its first byte. An empty field stands at the line's end.
    pub place: Place,
    pub atoms: Atoms,
}

impl Drop for Field {
    fn drop(self) {
        let Field { place: _, atoms: _ } = self;
    }
}

/// The next field from a byte of a line on, and where it ends.
fn field_at(alloc: Global, row: &LogicalLine<'_>, at: usize) -> Result<(Field, usize), TextFault>
    requires { at ≤ length row.now.bytes.now }
    ensures is { Gives (λ x. (x.0, items_from (line_of row.now) x.1)) result (field (line_of row.now) (items_from (line_of row.now) at)) }
    ensures within { IfOk result (λ x. x.1 ≤ length row.now.bytes.now) }
{
    let start = skip_blanks(row, at);
    let (atoms, end) = run(alloc, row, RunEnd::AtBlank, start)?;
    let field = Field {
        place: row.place_at(start),
        atoms,
    };
    Ok((field, end))
}

/// The first two fields of a line.
fn fields_of(alloc: Global, row: &LogicalLine<'_>) -> Result<(Field, Field), TextFault>
    ensures { Gives (λ x. x) result (fields (line_of row.now)) }
{
    let (first, end) = field_at(alloc, row, 0)?;
    let (second, _) = field_at(alloc, row, end)?;
    Ok((first, second))
}

/// The first two fields of the line with this number, counted from 0, perhaps empty, with their
/// names, escapes and numbers (XBD 6.4).
///
/// The fault is the one at the least place: `BadEscape` or `OpenName`. What follows the second field
/// is not read.
pub fn fields(alloc: Global, lines: &Lines, i: usize) -> Result<(Field, Field), TextFault>
    requires { i < length lines.now }
    ensures { Gives (λ x. x) result (fields (line_at lines.now i)) }
{
    fields_of(alloc, &lines.row(i))
}
