//! The fields of a text (XSH strptime).

ghost use Rattle.std.specs.Prelude.{◌≡◌, ◌+◌, ◌*◌, ◌≤◌, ◌<◌, length};
ghost use Rattle.time_cat.specs.Shown.{conversions_of};
ghost use Rattle.strptime_fields.specs.Scans.{IsWithin, ended, scan, answer_of, cost};
ghost use Rattle.strptime_fields.specs.Seen.{seen};

use crate::fault::ScanFault;
use crate::follow::follow_conversion;
use crate::item::byte_item;
use crate::last_read::LastRead;
use crate::progress::{Progress, read_item};
use std::marker::Brand;
use std::sync::ledger::{Blank, Ledger};
use time_cat::{Parsed, Step, Steps, Time, step_at};

/// How many formats lie within one another behind a conversion of the caller's format: those of
/// the ranks 4 to 2, and those of the table.
const LEVELS: u8 = 4;

/// The fields, or the item that the text does not meet.
fn ended(text: &[u8], progress: Progress) -> Result<(Parsed, usize), ScanFault>
    requires { IsWithin (length text.now) (seen progress) }
    ensures { answer_of result ≡ ended text.now (seen progress.entry) }
{
    match progress {
        Progress::On(left, last) => Ok((last.parsed(), text.len() - left.len())),
        Progress::Missed(left) => Err(ScanFault::Mismatch {
            at: text.len() - left.len(),
        }),
    }
}

/// The fields of a text by a format, and the index of the first byte that is not read; each
/// conversion that is read is a step.
///
/// `BadFormat` comes exactly where a `%` of the format begins no conversion that is read, or one
/// whose format of the locale, followed to its end, holds such a `%`. `Mismatch` comes exactly
/// where there is none, at the first item that the text does not meet.
pub fn strptime_counted<L: Ledger>(
    t: &Time,
    format: &[u8],
    text: &[u8],
    steps: &mut Steps<L>,
) -> Result<(Parsed, usize), ScanFault>
    ensures answer { answer_of result ≡ scan t.now format.now text.now }
    ensures steps { steps.new ≡ steps.old + cost t.now format.now }
    ensures bound { cost t.now format.now ≤ 69905 * conversions_of format.now }
{
    t.rules_hold();
    let mut progress = Progress::On(text, LastRead::nothing());
    let mut at = 0;
    'reading: loop {
        match step_at(format, at, steps) {
            Step::End => return ended(text, progress),
            Step::Bad => return Err(ScanFault::BadFormat { at }),
            Step::Byte(byte) => {
                progress = read_item(t, byte_item(byte), progress);
                at += 1;
            }
            Step::Conv {
                modifier,
                letter,
                next,
                ..
            } => match follow_conversion(LEVELS, t, modifier, letter, progress, steps) {
                None => return Err(ScanFault::BadFormat { at }),
                Some(further) => {
                    progress = further;
                    at = next;
                }
            },
        }
    }
}

/// The fields of a text by a format, and the index of the first byte that is not read, with a ledger that
/// has not begun.
fn strptime_from<L: Ledger>(
    t: &Time,
    format: &[u8],
    text: &[u8],
    blank: Blank,
) -> Result<(Parsed, usize), ScanFault>
    requires name { blank.name ≡ L.name }
    requires parts { blank.parts ≡ L.parts }
    requires some { 0 < blank.parts }
    ensures { answer_of result ≡ scan t.now format.now text.now }
{
    let mut steps = Steps::<L>::new(blank);
    strptime_counted(t, format, text, &mut steps)
}

/// The fields of a text by a format, and the index of the first byte that is not read (XSH
/// strptime).
///
/// `BadFormat` comes exactly where a `%` of the format begins no conversion that is read, or one
/// whose format of the locale, followed to its end, holds such a `%`. `Mismatch` comes exactly
/// where there is none, at the first item that the text does not meet.
pub fn strptime(t: &Time, format: &[u8], text: &[u8]) -> Result<(Parsed, usize), ScanFault>
    ensures { answer_of result ≡ scan t.now format.now text.now }
{
    strptime_from::<Brand>(t, format, text, Blank::new(1))
}
