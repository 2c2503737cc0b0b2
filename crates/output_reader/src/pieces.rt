//! Pieces between separators, and numbers.

ghost use Rattle.std.specs.Prelude.{◌≡◌, ℕ, ◌==◌, ◌<◌, ◌≤◌, ◌^◌, ◌++◌, ◌∷◌, List, length, position, true, IfOk, IfSome, MatchOption, MatchResult};
ghost use Rattle.std.specs.Fmt.{decimal};
ghost use Rattle.output_reader.specs.Reading.{Gives, AreTwo, Lacks, IsBehindWord};

use crate::unread::Unread;
use std::str;

/// What stands before the first such byte, and what stands behind it.
pub fn cut(bytes: &[u8], separator: u8) -> Result<(&[u8], &[u8]), Unread>
    ensures read { IfOk result (λ r. (bytes.now ≡ r.0.now ++ separator ∷ r.1.now) × Lacks r.0.now separator) }
    ensures back { (front rest : List ℕ) → Lacks front separator → bytes.now ≡ front ++ separator ∷ rest → MatchResult result (AreTwo front rest) (λ e. ⊥) }
{
    let Some(at) = first_at(bytes, separator) else {
        return Err(Unread::Unprinted);
    };
    let (front, _) = bytes.split_at(at);
    let (_, rest) = bytes.split_at(at + 1);
    Ok((front, rest))
}

/// The first word, and what follows it: nothing, or a space and more.
pub fn first_word(bytes: &[u8]) -> (&[u8], &[u8])
    ensures within { length result.1.now ≤ length bytes.now }
    ensures back { (word rest : List ℕ) → Lacks word 32 → IsBehindWord rest → bytes.now ≡ word ++ rest → AreTwo word rest result }
{
    match first_at(bytes, b' ') {
        Some(at) => bytes.split_at(at),
        None => (bytes, &[]),
    }
}

/// What follows a front, where bytes begin with it.
pub fn behind<'a>(bytes: &'a [u8], front: &[u8]) -> Option<&'a [u8]>
    ensures read { IfSome result (λ r. bytes.now ≡ front.now ++ r.now) }
    ensures back { (rest : List ℕ) → bytes.now ≡ front.now ++ rest → MatchOption result ⊥ (λ r. r.now ≡ rest) }
{
    bytes.strip_prefix(front)
}

/// Whether the bytes are this word.
pub fn is_word(bytes: &[u8], word: &[u8]) -> bool
    ensures is { result ≡ true → bytes.now ≡ word.now }
    ensures back { bytes.now ≡ word.now → result ≡ true }
{
    bytes == word
}

/// Where such a byte stands first.
fn first_at(bytes: &[u8], wanted: u8) -> Option<usize>
    ensures { result ≡ position (λ b. b == wanted) bytes.now }
{
    bytes.iter().position(|b| *b == wanted)
}

/// The number that these bytes say.
pub fn number(bytes: &[u8]) -> Result<u64, Unread>
    ensures fits { IfOk result (λ n. n < 2 ^ 64) }
    ensures back { (n : ℕ) → n < 2 ^ 64 → decimal n ≡ bytes.now → Gives n result }
{
    let Ok(text) = str::from_utf8(bytes) else {
        return Err(Unread::Unprinted);
    };
    match text.parse::<u64>() {
        Ok(n) => Ok(n),
        Err(_) => Err(Unread::Unprinted),
    }
}

/// The number that these bytes say, where 32 bits hold it.
pub fn small_number(bytes: &[u8]) -> Result<u32, Unread>
    ensures fits { IfOk result (λ n. n < 2 ^ 32) }
    ensures back { (n : ℕ) → n < 2 ^ 32 → decimal n ≡ bytes.now → Gives n result }
{
    let n = number(bytes)?;
    small(n)
}

/// The number in 32 bits, where they hold it.
pub fn small(n: u64) -> Result<u32, Unread>
    ensures same { IfOk result (λ m. (m ≡ n) × (m < 2 ^ 32)) }
    ensures back { n < 2 ^ 32 → Gives n result }
{
    match u32::try_from(n) {
        Ok(small) => Ok(small),
        Err(_) => Err(Unread::Unprinted),
    }
}

/// The number that these bytes say, where a byte holds it.
pub fn byte_number(bytes: &[u8]) -> Result<u8, Unread>
    ensures fits { IfOk result (λ n. n < 2 ^ 8) }
    ensures back { (n : ℕ) → n < 2 ^ 8 → decimal n ≡ bytes.now → Gives n result }
{
    let n = number(bytes)?;
    if n > 255 {
        return Err(Unread::Unprinted);
    }
    Ok(n as u8)
}

/// The index that these bytes say.
pub fn index(bytes: &[u8]) -> Result<usize, Unread>
    ensures fits { IfOk result (λ n. n < 2 ^ 64) }
    ensures back { (n : ℕ) → n < 2 ^ 64 → decimal n ≡ bytes.now → Gives n result }
{
    let n = number(bytes)?;
    Ok(n as usize)
}
