//! A time as text.

ghost use Rattle.tool_reads.specs.Answers.{Answers};
ghost use Rattle.tool_reads.specs.Printed.{time_line};

use crate::format_fault::{TEXT_MOST, text_problem, with_newline};
use lc_base::ByteText;
use std::alloc::Global;
use strftime_fields::{Tm, strftime};
use time_cat::Time;
use tool_messages::Problem;

/// The text of a format with a time, and a newline (XSH strftime).
///
/// A format that has no text, or one of more than 1048576 bytes, is refused.
pub fn time_line(alloc: Global, time: &Time, format: &str, tm: &Tm) -> Result<ByteText, Problem>
    ensures { Answers (λ line. line) result (time_line time.now format.now tm.now) }
{
    let format = format.as_bytes();
    match strftime(alloc, time, format, tm, TEXT_MOST) {
        Ok(text) => with_newline(text),
        Err(fault) => Err(text_problem(alloc, format, fault.refusal())),
    }
}
