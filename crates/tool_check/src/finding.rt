//! Findings of a source.

ghost use Rattle.std.specs.Prelude.{◌≡◌, ◌++◌, IfOk, OnOk};
ghost use Rattle.tool_check.specs.Findings.{findings, lone_findings};

use crate::headers::push_unknown;
use crate::returns::push_return;
use lc_base::{Place, Reason};
use src_lines::{Kind, Lines, split_front};
use std::alloc::{AllocError, Global};

/// What is odd of a line, or of a source.
#[derive(Clone, Copy, PartialEq, Eq)]
pub enum Oddity {
    /// A line ends in CR, the first of them.
    Return,
    /// A section opens that the standard does not have, the first of them.
    UnknownSection,
    /// The source has comments, blank lines and sign lines alone.
    NoSection,
}

/// An oddity, with its place in the source, whose first line has the number 1.
#[derive(Clone, Copy)]
pub struct Finding {
    pub place: Place,
    pub oddity: Oddity,
}

/// What is found of a source that its reader passes over: that a line ends in CR, the first section that the
/// standard does not have, and that there is no section.
pub fn findings_in(alloc: Global, text: &[u8]) -> Result<Vec<Finding>, AllocError>
    ensures { IfOk result (λ found. found.items ≡ findings text.now) }
{
    let mut found = Vec::new(alloc);
    if text.len() >= 2_147_483_648 {
        return Ok(found);
    }
    let (lines, fault) = split_front(alloc, text, 1, Kind::Locale)?;
    push_return(&mut found, text)?;
    push_unknown(&mut found, &lines)?;
    push_lone(&mut found, &lines, fault)?;
    Ok(found)
}

/// Adds that a source has no section, where no line is left of it and none is wrong.
fn push_lone(
    found: &mut Vec<Finding>,
    lines: &Lines,
    fault: Option<(Place, Reason)>,
) -> Result<(), AllocError>
    ensures { OnOk result (found.new.items ≡ found.old.items ++ lone_findings lines.now fault) }
{
    match fault {
        None if lines.len() == 0 => {
            found.push(Finding {
                place: Place { line: 1, column: 1 },
                oddity: Oddity::NoSection,
            })?;
            Ok(())
        }
        _ => Ok(()),
    }
}
