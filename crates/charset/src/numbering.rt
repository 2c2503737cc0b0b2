//! The numbers at the ends of names, by which a range of names counts (XBD 6.4).

ghost use Rattle.std.specs.Prelude.{◌≡◌, ℕ, ◌+◌, ◌-◌, ◌==◌, ◌++◌, length, replicate, reverse, IfOk};
ghost use Rattle.std.specs.List.{take_while};
ghost use Rattle.std.specs.Str.Parse.{AllDigits};
ghost use Rattle.charset.specs.Numbering.{digit_count, stem, digits, padded};

use std::alloc::{AllocError, Global};

/// How many digits a name ends in.
pub fn digit_count(name: &[u8]) -> usize
    ensures { result ≡ digit_count name.now }
{
    name.iter()
        .rev()
        .take_while(|byte| byte.is_ascii_digit())
        .count()
}

/// A name as what comes before the digits that it ends in, and these digits.
pub fn split_number(name: &[u8]) -> (&[u8], &[u8])
    ensures stem { result.0.now ≡ stem name.now }
    ensures digits { result.1.now ≡ digits name.now }
    ensures all_digits { AllDigits 10 result.1.now }
{
    name.split_at(name.len() - digit_count(name))
}

/// How many nines digits end in.
fn nines(digits: &[u8]) -> usize
    ensures { result ≡ length (take_while (λ byte. byte == 57) (reverse digits.now)) }
{
    digits
        .iter()
        .rev()
        .take_while(|byte| **byte == b'9')
        .count()
}

/// The digits of the next number: as many, or one more where all are nines.
fn next_number(alloc: Global, digits: &[u8]) -> Result<Vec<u8>, AllocError>
    requires digits { AllDigits 10 digits.now }
    ensures next { (width n : ℕ) → digits.now ≡ padded width n → IfOk result (λ v. v.items ≡ padded width (n + 1)) }
    ensures digits { IfOk result (λ v. AllDigits 10 v.items) }
{
    let nines = nines(digits);
    let (front, _) = digits.split_at(digits.len() - nines);
    let mut next = Vec::with_capacity(alloc, digits.len() + 1)?;
    match front {
        [] => next.push(b'1')?,
        [front @ .., last] => {
            next.extend_from_slice(front)?;
            next.push(last + 1)?;
        }
    }
    for _ in 0..nines {
        next.push(b'0')?;
    }
    Ok(next)
}

/// The digits of the number after these digits with so many nines behind them.
pub fn next_block(alloc: Global, digits: &[u8], nines: usize) -> Result<Vec<u8>, AllocError>
    requires { AllDigits 10 digits.now }
    ensures { (width n : ℕ) → padded width n ≡ digits.now ++ replicate nines 57 → IfOk result (λ v. v.items ≡ padded width (n + 1)) }
{
    let mut next = next_number(alloc, digits)?;
    for _ in 0..nines {
        next.push(b'0')?;
    }
    Ok(next)
}
