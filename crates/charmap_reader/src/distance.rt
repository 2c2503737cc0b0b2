//! How far one number of decimal digits is above another (XBD 6.4).

ghost use Rattle.std.specs.Prelude.{◌≡◌, ◌-◌, ◌<◌, ◌≤◌, min, MatchOption};
ghost use Rattle.std.specs.Option.{ForSome};
ghost use Rattle.std.specs.Str.Parse.{AllDigits, digits_value};
ghost use Rattle.charmap_reader.specs.Distances.{digit_at, distance_after};

/// The most that `distance` counts to: more than the greatest encoding.
pub const FAR: u64 = 0x1_0000_0000;

/// The value of the digit with this place, counted from 1 at the last digit, or 0.
fn digit_at(digits: &[u8], place: usize) -> u64
    requires all_digits { AllDigits 10 digits.now }
    requires some { 0 < place }
    ensures is { result ≡ digit_at digits.now place }
    ensures small { result < 10 }
{
    if place <= digits.len() {
        u64::from(digits[digits.len() - place] - b'0')
    } else {
        0
    }
}

/// The distance after one more digit of each number, where it has been so far, or none where the
/// second number is less.
fn step(so_far: Option<u64>, first: u64, last: u64) -> Option<u64>
    requires near { ForSome so_far (λ d. d ≤ 4294967296) }
    requires first { first < 10 }
    requires last { last < 10 }
    ensures { result ≡ distance_after so_far first last }
{
    let so_far = so_far? * 10 + last;
    if so_far < first {
        return None;
    }
    Some((so_far - first).min(FAR))
}

/// How far the number of the second digits is above that of the first, up to `FAR`. None where it
/// is below.
pub fn distance(first: &[u8], last: &[u8]) -> Option<u64>
    requires first { AllDigits 10 first.now }
    requires last { AllDigits 10 last.now }
    ensures { MatchOption result (digits_value 10 last.now < digits_value 10 first.now) (λ d. (digits_value 10 first.now ≤ digits_value 10 last.now) × (d ≡ min (digits_value 10 last.now - digits_value 10 first.now) 4294967296)) }
{
    let longest = first.len().max(last.len());
    let mut so_far = Some(0);
    for i in 0..longest {
        let place = longest - i;
        so_far = step(so_far, digit_at(first, place), digit_at(last, place));
    }
    so_far
}
