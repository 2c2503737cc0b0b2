//! Grouped digits, read (XBD 7.3.4).

ghost use Rattle.std.specs.Prelude.{◌≡◌, ◌≢◌, ◌+◌, ◌^◌, ◌<◌, ◌≤◌, ◌++◌, ◌∷◌, length, List, [], ℕ, ℤ, pos, Ok, Some, None, true, codes, IfSome};
ghost use Rattle.digit_groups.specs.Groups.{sizes_used, separates, separated, grouped_width};
ghost use Rattle.numeric_cat.specs.NumericValues.{NumericValues};
ghost use Rattle.digit_groups.specs.Digits.{last_digits};
ghost use Rattle.int_format.specs.Ints.{is_number, ints, between, grouped_digits, below_zero, IsTextOf};

use crate::digits::digit_count;
use digit_groups::{grouped_width, width_of};
use numeric_cat::Numeric;

/// The most digits of a number.
const DIGITS: usize = 20;

/// The number from -2^63 to 2^64 - 1 whose text under `%'d` this is. `None` exactly where none has
/// this text.
pub fn read_grouped(n: &Numeric, text: &[u8]) -> Option<i128>
    ensures read { IfSome result (λ v. IsTextOf n.now v text.now) }
    ensures back { (v : ℤ) → is_number v ≡ true → ints n.now (codes "%'d") (v ∷ []) ≡ Ok text.now → result ≡ Some v }
{
    match behind_front(text, b"-") {
        Some(body) => below_zero(read_digits(n, body)?),
        None => Some(not_below_zero(read_digits(n, text)?)),
    }
}

/// Numbers have different texts under `%'d`, whatever the groups are and what stands between them.
pub fn numbers_are_told_apart()
    ensures { (n : NumericValues) (v w : ℤ) → is_number v ≡ true → is_number w ≡ true → ints n (codes "%'d") (v ∷ []) ≡ ints n (codes "%'d") (w ∷ []) → v ≡ w }
{}

/// The number below 0 of a magnitude.
fn below_zero(magnitude: u64) -> Option<i128>
    ensures { result ≡ below_zero magnitude }
{
    if magnitude == 0 || magnitude > 1 << 63 {
        return None;
    }
    Some(-i128::from(magnitude))
}

/// The number of a magnitude that is not below 0.
fn not_below_zero(magnitude: u64) -> i128
    ensures { result ≡ pos magnitude }
{
    i128::from(magnitude)
}

/// The number of which these bytes are the grouped digits.
fn read_digits(n: &Numeric, body: &[u8]) -> Option<u64>
    ensures read { IfSome result (λ x. body.now ≡ grouped_digits n.now x) }
    ensures back { (x : ℕ) → x < 2 ^ 64 → body.now ≡ grouped_digits n.now x → result ≡ Some x }
{
    let sizes = n.grouping();
    let sep = n.thousands_sep();
    let count = count_in(body.len(), sizes, sep)?;
    let whole = value_of(body, count, sizes, sep)?;
    let value = small_value(whole)?;
    if digit_count(value).max(1) != count {
        return None;
    }
    Some(value)
}

/// A number, if 64 bits hold it.
fn small_value(value: u128) -> Option<u64>
    ensures some { IfSome result (λ n. n ≡ value) }
    ensures back { value < 2 ^ 64 → result ≡ Some value }
{
    if value > u64::MAX as u128 {
        return None;
    }
    Some(value as u64)
}

/// How many grouped digits have so many bytes.
fn count_in(len: usize, sizes: &[i32], sep: &[u8]) -> Option<usize>
    ensures few { IfSome result (λ k. (1 ≤ k) × (k ≤ 20)) }
    ensures all { (k : ℕ) → 1 ≤ k → k ≤ 20 → grouped_width k sizes.now (length sep.now) ≡ len → result ≡ Some k }
{
    let mut k = 1;
    while k <= DIGITS {
        if grouped_width(k, sizes, sep) == len as u128 {
            return Some(k);
        }
        k += 1;
    }
    None
}

/// Whether a separator stands before the last `k` digits.
fn separates(sizes: &[i32], k: usize) -> bool
    requires { k ≤ 20 }
    ensures { result ≡ separates (sizes_used sizes.now) k }
{
    width_of(k + 1, sizes, 1) - width_of(k, sizes, 1) == 2
}

/// What stands before the last `k` digits.
fn between<'a>(sizes: &[i32], sep: &'a [u8], k: usize) -> &'a [u8]
    requires { k ≤ 20 }
    ensures { result.now ≡ between (sizes_used sizes.now) sep.now k }
{
    if separates(sizes, k) { sep } else { &[] }
}

/// The first digit of bytes, and what stands behind it.
fn first_digit(bytes: &[u8]) -> Option<(u8, &[u8])>
    ensures read { IfSome result (λ r. (r.0 < 10) × (bytes.now ≡ (48 + r.0) ∷ r.1.now)) }
    ensures back { (d : ℕ) (rest : List ℕ) → d < 10 → bytes.now ≡ (48 + d) ∷ rest → result ≢ None }
{
    match bytes {
        [first, rest @ ..] if first.is_ascii_digit() => Some((*first - b'0', rest)),
        _ => None,
    }
}

/// What stands behind a front, where bytes begin with it.
fn behind_front<'a>(bytes: &'a [u8], front: &[u8]) -> Option<&'a [u8]>
    ensures read { IfSome result (λ r. bytes.now ≡ front.now ++ r.now) }
    ensures back { (rest : List ℕ) → bytes.now ≡ front.now ++ rest → result ≢ None }
{
    bytes.strip_prefix(front)
}

/// The number of which bytes are so many digits in groups.
fn value_of(body: &[u8], count: usize, sizes: &[i32], sep: &[u8]) -> Option<u128>
    requires { count ≤ 20 }
    ensures read { IfSome result (λ x. body.now ≡ separated (last_digits count x) (sizes_used sizes.now) sep.now) }
    ensures back { (x : ℕ) → x < 10 ^ count → body.now ≡ separated (last_digits count x) (sizes_used sizes.now) sep.now → result ≡ Some x }
{
    let mut value = 0;
    let mut rest = body;
    let mut left = count;
    while left > 0 {
        left -= 1;
        let (digit, behind) = first_digit(rest)?;
        rest = behind_front(behind, between(sizes, sep, left))?;
        value = value * 10 + u128::from(digit);
    }
    if rest.is_empty() { Some(value) } else { None }
}
