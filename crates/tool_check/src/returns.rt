//! Lines that end in CR.

ghost use Rattle.std.specs.Prelude.{◌≡◌, ◌++◌, ◌^◌, ◌-◌, ◌+◌, min, length, OnOk};
ghost use Rattle.lc_base.specs.Lines.{lines_of};
ghost use Rattle.tool_check.specs.declared.finding.Oddity.TheVariants.{Return};
ghost use Rattle.tool_check.specs.Findings.{ends_with_return, return_findings};

use crate::finding::{Finding, Oddity};
use lc_base::{Place, next_line};
use std::alloc::AllocError;

/// Adds the first line that ends in CR, at its CR, if there is one.
pub fn push_return(found: &mut Vec<Finding>, text: &[u8]) -> Result<(), AllocError>
    ensures { OnOk result (found.new.items ≡ found.old.items ++ return_findings 1 (lines_of text.now)) }
{
    let mut rest = text;
    let mut number = 1u32;
    while let Some((line, following)) = next_line(rest) {
        if ends_with_return(line) {
            found.push(at_end(line, number))?;
            return Ok(());
        }
        number = number.saturating_add(1);
        rest = following;
    }
    Ok(())
}

/// The finding at the end of a line with this number.
fn at_end(line: &[u8], number: u32) -> Finding
    ensures { result ≡ record { place = record { line = number; column = min (length line.now) (2 ^ 32 - 1) }; oddity = Return } }
{
    Finding {
        place: Place {
            line: number,
            column: line.len().min(u32::MAX as usize) as u32,
        },
        oddity: Oddity::Return,
    }
}

/// Whether a line ends in CR.
pub fn ends_with_return(line: &[u8]) -> bool
    ensures { result ≡ ends_with_return line.now }
{
    !line.is_empty() && line[line.len() - 1] == b'\r'
}
