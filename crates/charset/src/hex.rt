//! Names of characters by their numbers.

ghost use Rattle.std.specs.Prelude.{◌≡◌, ◌≤◌, length};
ghost use Rattle.charset.specs.Hex as spec;

fn hex(digits: &[u8]) -> Option<u32>
    requires { length digits.now ≤ 8 }
    ensures { result ≡ spec.hex_after 0 digits.now }
{
    let mut number: u32 = 0;
    for digit in digits {
        number = number * 16 + char::from(*digit).to_digit(16)?;
    }
    Some(number)
}

/// The number in a name of the letter U and that many hexadecimal digits of either case.
#[tactic(auto, unfolding(crate::specs::Hex::numbered))]
pub fn numbered(count: usize, name: &[u8]) -> Option<u32>
    requires { count ≤ 8 }
    ensures { result ≡ spec.numbered count name.now }
{
    match name {
        [b'U', digits @ ..] if digits.len() == count => hex(digits),
        _ => None,
    }
}
