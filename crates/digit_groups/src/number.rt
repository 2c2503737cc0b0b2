//! The number at the front of a text.

ghost use Rattle.std.specs.Prelude.{◌≡◌, ◌≤◌, length, IfSome};
ghost use Rattle.digit_groups.specs.Numbers.{leading_number, leading_digits, small_value};

/// The number that bytes begin with, and how many digits it has; it is at most 255, and 0 where no
/// digit is there.
#[tactic(auto, unfolding(crate::specs::Numbers::number_behind))]
#[inline]
pub fn leading_number(bytes: &[u8]) -> Option<(u8, usize)>
    ensures is { result ≡ leading_number bytes.now }
    ensures within { IfSome result (λ r. r.1 ≤ length bytes.now) }

    // What that number is: the value of all digits before the first other byte, if it is at most 255.
    ensures value { result ≡ small_value (leading_digits bytes.now) }
{
    let mut value: u16 = 0;
    let mut count = 0;
    for byte in bytes {
        if !byte.is_ascii_digit() {
            break;
        }
        value = value * 10 + u16::from(*byte - b'0');
        if value > 255 {
            return None;
        }
        count += 1;
    }
    Some((value as u8, count))
}
