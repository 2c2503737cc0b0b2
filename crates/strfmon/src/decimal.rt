//! Amounts in decimal digits.

ghost use Rattle.std.specs.Prelude.{◌≡◌, ◌+◌, ◌^◌, ◌<◌, ◌≤◌};
ghost use Rattle.digit_groups.specs.Digits.{digit_count};
ghost use Rattle.strfmon.specs.Decimals.{rounded, IsRounded};
ghost use Rattle.strfmon.specs.Money.{is_negative};

use digit_groups::digit_count;
use lc_base::Amount;

/// An amount whose fraction is rounded.
#[derive(Clone, Copy)]
pub struct Decimal {
    /// How many fraction digits are shown.
    pub precision: usize,
    /// The magnitude, in units of the last fraction digit that is kept.
    pub magnitude: u64,
    /// How many fraction digits are kept.
    pub kept: usize,
    /// The whole part of the magnitude.
    pub whole: u64,
    /// How many digits the whole part has.
    pub digits: usize,
}

/// The powers of ten, from 1 on.
static POWERS: [u64; 19] = [
    1,
    10,
    100,
    1000,
    10000,
    100000,
    1000000,
    10000000,
    100000000,
    1000000000,
    10000000000,
    100000000000,
    1000000000000,
    10000000000000,
    100000000000000,
    1000000000000000,
    10000000000000000,
    100000000000000000,
    1000000000000000000,
];

/// 10^exponent.
#[tactic(auto, using(crate::proofs::PowerLemmas::power_at, crate::proofs::DecimalLemmas::few_powers, crate::proofs::DecimalLemmas::some_power))]
#[inline(always)]
fn power(exponent: usize) -> u64
    requires { exponent ≤ 18 }
    ensures is { result ≡ 10 ^ exponent }
    ensures some { 0 < result }
    ensures few { result ≤ 1000000000000000000 }
{
    POWERS[exponent]
}

/// n / d as a whole number: the nearest one, and of two the even one.
#[tactic(auto, using(crate::proofs::DecimalLemmas::rounded_by_one))]
#[inline(always)]
fn rounded(n: u64, d: u64) -> u64
    requires some { 0 < d }
    requires few { d ≤ 1000000000000000000 }
    requires fits { n ≤ 2 ^ 63 }
    ensures is { result ≡ rounded n d }
    ensures fits { result ≤ 2 ^ 63 + 1 }
{
    if d == 1 {
        return n;
    }
    let quotient = n / d;
    let rest = 2 * (n % d);
    if rest < d || (rest == d && quotient % 2 == 0) {
        quotient
    } else {
        quotient + 1
    }
}

/// Whether an amount is below 0, also where it is rounded to 0.
#[inline(always)]
pub fn is_negative(amount: Amount) -> bool
    ensures { result ≡ is_negative amount }
{
    amount.units() < 0
}

#[tactic(auto, using(crate::proofs::DecimalLemmas::part_fits))]
/// An amount rounded to at most so many fraction digits.
#[inline(always)]
pub fn decimal_of(amount: Amount, precision: usize) -> Decimal
    ensures is { IsRounded result precision amount }
    ensures precision { result.precision ≡ precision }
    ensures short { result.kept ≤ result.precision }
    ensures digits { result.digits ≡ digit_count result.whole }
    ensures most { result.digits ≤ 20 }
{
    let scale = usize::from(amount.scale());
    let kept = precision.min(scale);
    let magnitude = rounded(amount.units().unsigned_abs(), power(scale - kept));
    let whole = magnitude / power(kept);
    Decimal {
        precision,
        magnitude,
        kept,
        whole,
        digits: digit_count(whole),
    }
}
