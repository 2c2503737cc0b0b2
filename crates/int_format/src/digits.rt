//! How many decimal digits whole numbers have.

ghost use Rattle.std.specs.Prelude.{◌≡◌, ◌≤◌};
ghost use Rattle.int_format.specs.Digits.{digit_count};

/// How many digits a number has; 0 has none.
#[tactic(auto, using(crate::proofs::DigitLemmas::no_digits, crate::proofs::DigitLemmas::some_digits))]
#[inline]
pub fn digit_count(n: u64) -> usize
    ensures is { result ≡ digit_count n }
    ensures few { result ≤ 20 }
{
    let count = digit_groups::digit_count(n);
    if n == 0 { 0 } else { count }
}
