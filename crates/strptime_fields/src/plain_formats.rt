//! Formats whose texts are read back (our own).

ghost use Rattle.std.specs.Prelude.{◌≡◌, ◌<◌};
ghost use Rattle.strptime_fields.specs.Plain.{is_plain_letter, is_plain, AreReadBack};

use std::marker::Brand;
use std::sync::ledger::{Blank, Ledger};
use time_cat::{Step, Steps, step_at};

/// The numbers of a plain format.
const PLAIN_LETTERS: [u8; 9] = [b'd', b'e', b'H', b'j', b'm', b'M', b'S', b'w', b'Y'];

/// Whether a conversion may stand in a plain format as a number.
fn is_plain_letter(letter: u8) -> bool
    ensures { result ≡ is_plain_letter letter }
{
    PLAIN_LETTERS.iter().any(|plain| *plain == letter)
}

/// Whether a format is plain, with a ledger that has not begun.
#[tactic(auto, unfolding(crate::specs::Plain::is_plain))]
fn is_plain_from<L: Ledger>(format: &[u8], blank: Blank) -> bool
    requires name { blank.name ≡ L.name }
    requires parts { blank.parts ≡ L.parts }
    requires some { 0 < blank.parts }
    ensures { result ≡ is_plain format.now }
{
    let mut steps = Steps::<L>::new(blank);
    let mut number = false;
    let mut at = 0;
    'reading: loop {
        match step_at(format, at, &mut steps) {
            Step::End => return true,
            Step::Bad => return false,
            Step::Byte(byte) if number && byte.is_ascii_digit() => return false,
            Step::Byte(_) => {
                number = false;
                at += 1;
            }
            Step::Conv { modifier, .. } if number || modifier != 0 => return false,
            Step::Conv { letter, next, .. } if letter == b'%' || is_plain_letter(letter) => {
                number = letter != b'%';
                at = next;
            }
            Step::Conv { .. } => return false,
        }
    }
}

/// Whether a format is plain: its conversions are among `d`, `e`, `H`, `j`, `m`, `M`, `S`, `w`,
/// `Y` and `%%`, and behind each of these but `%%` stands its end, or a byte that is neither a
/// digit nor `%`.
pub fn is_plain(format: &[u8]) -> bool
    ensures { result ≡ is_plain format.now }
{
    is_plain_from::<Brand>(format, Blank::new(1))
}

/// The text that a time has by a plain format is read to its end, and says again each field of the
/// time for which the format has a conversion.
pub fn plain_formats_hold()
    ensures { AreReadBack }
{}
