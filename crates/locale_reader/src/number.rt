//! Numbers (XBD 7.3.3 and 7.3.4; that a number has at most nine digits is our own rule).

ghost use Rattle.std.specs.Prelude.{◌≡◌, option_and_then};
ghost use Rattle.std.specs.Option.{option_copied};
ghost use Rattle.lc_base.specs.Reading.{Gives};
ghost use Rattle.locale_reader.specs.Values.{signed, number};

use lc_base::{Place, Reason, TextFault, few_digits};
use src_lines::Operand;

/// The most digits of a number.
const DIGITS: usize = 9;

/// The number of one to nine digits, perhaps behind a `-`.
#[tactic(auto, unfolding(lc_base::specs::Numbers::few_digits))]
fn signed(bytes: &[u8]) -> Option<i32>
    ensures { result ≡ signed bytes.now }
{
    match bytes {
        [b'-', digits @ ..] => Some(-(few_digits(DIGITS, digits)? as i32)),
        _ => Some(few_digits(DIGITS, bytes)? as i32),
    }
}

/// The number that bytes are, if they are there.
fn signed_bytes(bytes: Option<&[u8]>) -> Option<i32>
    ensures { result ≡ option_and_then signed (option_copied bytes.entry) }
{
    signed(bytes?)
}

/// The number that an operand is: `-` or nothing, and one to nine digits.
#[tactic(auto, unfolding(crate::specs::Values::number))]
pub fn number(operand: &(Place, Operand)) -> Result<i32, TextFault>
    ensures { Gives (λ n. n) result (number operand.now) }
{
    let number = match &operand.1 {
        Operand::Plain(pieces) => signed_bytes(pieces.as_bytes()),
        Operand::Quoted(_) | Operand::Dots | Operand::Pair(_, _) => None,
    };
    number.ok_or(TextFault::At(operand.0, Reason::WrongOperand))
}
