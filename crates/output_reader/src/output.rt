//! An output.

ghost use Rattle.std.specs.Prelude.{◌≡◌, ◌≢◌, ℕ, ◌<◌, ◌^◌, ◌++◌, List, [], length, IfOk, IfErr};
ghost use Rattle.script_out.specs.Output.{line_text, printed};
ghost use Rattle.script_out.specs.declared.output.OutLine.{OutLine};
ghost use Rattle.output_reader.specs.Lines.{AreThreadNames, AreLinesOf, AreToldApart, GivesLines, FaultOf, IsOneLine, BeginsWith, BeginsUnprinted, fault_of};
ghost use Rattle.output_reader.specs.Ranges.{IsLine};
ghost use Rattle.output_reader.specs.Reading.{AreDistinct, GivesWith};
ghost use Rattle.output_reader.specs.declared.unread.Unread.TheVariants as unread;

use crate::line::line;
use crate::unread::Unread;
use lc_base::{ByteText, LinePart, List, Place, Reason, TextFault, ended_line};
use script_out::OutLine;
use std::alloc::Global;

/// The lines of which this is the printed text, where the threads have these names. A fault is
/// `BadLine argument` at the first line of the text that no line prints as: none whose threads are
/// below the number of names, and whose numbers fit their types. The text has fewer than 2^31 bytes.
pub fn read_output(
    alloc: Global,
    text: &[u8],
    threads: &List<ByteText>,
) -> Result<List<OutLine>, TextFault>
    requires names { AreThreadNames threads.now }
    requires short { length text.now < 2 ^ 31 }
    ensures read { IfOk result (λ lines. (printed lines threads.now ≡ text.now) × AreLinesOf threads.now lines text.now) }
    ensures fault { IfErr result (λ e. FaultOf threads.now text.now e) }
    ensures back { (lines : List OutLine) → AreToldApart threads.now lines → text.now ≡ printed lines threads.now → GivesLines lines result }
{
    let mut lines = Vec::new(alloc);
    let mut rest = text;
    let mut number = 1;
    while !rest.is_empty() {
        match first_line(alloc, rest, threads) {
            Ok((found, behind)) => {
                lines.push(found)?;
                rest = behind;
                number += 1;
            }
            Err(why) => return Err(fault_of(why, number)),
        }
    }
    Ok(List::of(lines))
}

/// The first line of a text, and what follows it.
fn first_line<'a>(
    alloc: Global,
    text: &'a [u8],
    threads: &List<ByteText>,
) -> Result<(OutLine, &'a [u8]), Unread>
    requires { AreThreadNames threads.now }
    ensures read { IfOk result (λ r. BeginsWith threads.now text.now r.0 r.1.now) }
    ensures shorter { IfOk result (λ r. length r.1.now < length text.now) }
    ensures back { (l : OutLine) (rest : List ℕ) → AreDistinct threads.now → IsLine threads.now l → IsOneLine threads.now l
        → text.now ≡ line_text threads.now l ++ rest → GivesWith l rest result }
    ensures unprinted { IfErr result (λ e. e ≡ unread.Unprinted → text.now ≢ [] → BeginsUnprinted threads.now text.now) }
{
    let Some((bytes, rest)) = ended_line(text) else {
        return Err(Unread::Unprinted);
    };
    let line = line(alloc, bytes, threads)?;
    Ok((line, rest))
}

/// The refusal of the line of this number.
fn fault_of(why: Unread, number: u32) -> TextFault
    ensures { result ≡ fault_of why number }
{
    match why {
        Unread::Unprinted => {
            let place = Place {
                line: number,
                column: 1,
            };
            TextFault::At(place, Reason::BadLine(LinePart::Argument))
        }
        Unread::Memory => TextFault::Memory,
    }
}
