//! Short texts and numbers, added without a call for each.

ghost use Rattle.std.specs.Prelude.{◌≡◌, ◌++◌, ◌∷◌, ◌<◌, ◌≤◌, OnOk};
ghost use Rattle.std.specs.Fmt.{decimal};

use std::alloc::AllocError;

/// The length from which a text is copied as a whole.
pub const LONG: usize = 8;

/// Adds bytes, which are mostly few.
#[inline(always)]
pub fn push_short(out: &mut Vec<u8>, bytes: &[u8]) -> Result<(), AllocError>
    ensures { OnOk result (out.new.items ≡ out.old.items ++ bytes.now) }
{
    if bytes.len() < LONG {
        push_each(out, bytes)
    } else {
        out.extend_from_slice(bytes)
    }
}

/// Adds bytes one by one.
fn push_each(out: &mut Vec<u8>, bytes: &[u8]) -> Result<(), AllocError>
    ensures { OnOk result (out.new.items ≡ out.old.items ++ bytes.now) }
{
    for byte in bytes {
        out.push(*byte)?;
    }
    Ok(())
}

/// Adds a number of at most three digits behind a space.
pub fn push_behind_space(out: &mut Vec<u8>, n: u64) -> Result<(), AllocError>
    requires { n < 1000 }
    ensures { OnOk result (out.new.items ≡ out.old.items ++ 32 ∷ decimal n) }
{
    if n < 10 {
        let [last] = one_digit(n);
        out.extend_from_slice(&[b' ', last])
    } else if n < 100 {
        let [first, last] = two_digits(n);
        out.extend_from_slice(&[b' ', first, last])
    } else {
        let [first, second, last] = three_digits(n);
        out.extend_from_slice(&[b' ', first, second, last])
    }
}

/// The digits of a number of three.
fn three_digits(n: u64) -> [u8; 3]
    requires from { 100 ≤ n }
    requires to { n < 1000 }
    ensures { result ≡ decimal n }
{
    let [first, second] = two_digits(n / 10);
    let [last] = one_digit(n % 10);
    [first, second, last]
}

/// The digits of a number of two.
fn two_digits(n: u64) -> [u8; 2]
    requires from { 10 ≤ n }
    requires to { n < 100 }
    ensures { result ≡ decimal n }
{
    let [first] = one_digit(n / 10);
    let [last] = one_digit(n % 10);
    [first, last]
}

/// The digit of a number of one.
#[tactic(auto, using(std::proofs::lemmas::Fmt::decimal_digit))]
fn one_digit(n: u64) -> [u8; 1]
    requires { n < 10 }
    ensures { result ≡ decimal n }
{
    [b'0' + n as u8]
}
