//! Formats within formats.

ghost use Rattle.std.specs.Prelude.{◌≡◌, ◌+◌, option_map};
ghost use Rattle.strptime_fields.specs.Items.{item};
ghost use Rattle.strptime_fields.specs.Scans.{followed, within, reads, through, through_item};
ghost use Rattle.strptime_fields.specs.Seen.{seen};

use crate::item::{byte_item, format_for, item_of};
use crate::progress::{Progress, read_item};
use std::sync::ledger::Ledger;
use time_cat::{Step, Steps, Time, step_at};

/// How far a text was read with the items of a format, with so many formats within one another;
/// nothing where one of its conversions is not read.
#[cycle(follow)]
fn follow_format<'a, L: Ledger>(
    levels: u8,
    t: &Time,
    format: &[u8],
    progress: Progress<'a>,
    steps: &mut Steps<L>,
) -> Option<Progress<'a>>
    ensures progress { option_map seen result ≡ through t.now (followed levels t.now format.now) (seen progress.entry) }
    ensures steps { steps.new ≡ steps.old + reads (followed levels t.now format.now) }
{
    if levels == 0 {
        return Some(progress);
    }
    let mut progress = progress;
    let mut at = 0;
    'reading: loop {
        match step_at(format, at, steps) {
            Step::End => return Some(progress),
            Step::Bad => return None,
            Step::Byte(byte) => {
                progress = read_item(t, byte_item(byte), progress);
                at += 1;
            }
            Step::Conv {
                modifier,
                letter,
                next,
                ..
            } => match follow_conversion(levels - 1, t, modifier, letter, progress, steps) {
                None => return None,
                Some(further) => {
                    progress = further;
                    at = next;
                }
            },
        }
    }
}

/// How far a text was read with a conversion, with so many formats within one another; nothing where it, or
/// a conversion of its format of the locale, is not read.
#[cycle(follow)]
pub fn follow_conversion<'a, L: Ledger>(
    levels: u8,
    t: &Time,
    modifier: u8,
    letter: u8,
    progress: Progress<'a>,
    steps: &mut Steps<L>,
) -> Option<Progress<'a>>
    ensures progress { option_map seen result ≡ through_item t.now (followed levels t.now) (item modifier letter) (seen progress.entry) }
    ensures steps { steps.new ≡ steps.old + reads (within t.now (followed levels t.now) (item modifier letter)) }
{
    match item_of(modifier, letter) {
        None => None,
        Some(item) => match format_for(t, item) {
            None => Some(read_item(t, item, progress)),
            Some(format) => follow_format(levels, t, format, progress, steps),
        },
    }
}
