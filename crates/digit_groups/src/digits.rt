//! How many decimal digits whole numbers have.

ghost use Rattle.std.specs.Prelude.{◌≡◌, ◌<◌, ◌≤◌};
ghost use Rattle.digit_groups.specs.Digits.{digit_count};

/// How many digits a whole number below 10000 has, at least one.
#[tactic(auto, using(crate::proofs::CountLemmas::one_digit, crate::proofs::CountLemmas::two_digits, crate::proofs::CountLemmas::three_digits, crate::proofs::CountLemmas::four_digits))]
#[inline(always)]
fn short_count(n: u64) -> usize
    requires { n < 10000 }
    ensures { result ≡ digit_count n }
{
    if n < 10 {
        1
    } else if n < 100 {
        2
    } else if n < 1000 {
        3
    } else {
        4
    }
}

/// How many digits a whole number has, at least one.
#[inline]
pub fn digit_count(n: u64) -> usize
    ensures is { result ≡ digit_count n }
    ensures some { 1 ≤ result }
    ensures few { result ≤ 20 }
{
    let mut left = n;
    let mut count = 0;
    while left >= 10000 {
        left /= 10000;
        count += 4;
    }
    count + short_count(left)
}
