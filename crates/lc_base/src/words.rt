//! Words as bytes: tables of names, decimal numbers, blanks, and cuts at a byte.

ghost use Rattle.std.specs.Prelude.{◌≡◌, map, ◌<◌, ◌≤◌, ◌^◌, true, IfSome, ◌==◌, length, position, option_map};
ghost use Rattle.std.specs.Str.{bytes_eq};
ghost use Rattle.lc_base.specs.Tables.{first_named};
ghost use Rattle.std.specs.Char.{is_ascii_digit};
ghost use Rattle.std.specs.List.{list_all};
ghost use Rattle.lc_base.specs.Numbers.{small_value, decimal_number, few_digits};
ghost use Rattle.lc_base.specs.Blanks.{is_blank};
ghost use Rattle.lc_base.specs.Cuts.{cut_at};

/// Whether two words are the same. They are so short that a look at byte after byte tells sooner
/// than `==` of slices.
fn are_same(mut word: &[u8], mut name: &[u8]) -> bool
    ensures { result ≡ bytes_eq word.entry.now name.entry.now }
{
    while let [first, rest @ ..] = word {
        match name {
            [c, more @ ..] if c == first => {
                word = rest;
                name = more;
            }
            _ => return false,
        }
    }
    name.is_empty()
}

/// What a table gives for a name: what stands in the first row with it.
pub fn first_named<T: Copy>(mut table: &[(&[u8], T)], name: &[u8]) -> Option<T>
    ensures { result ≡ first_named (map (λ row. (row.0.now, row.1)) table.entry.now) name.now }
{
    while let [row, rest @ ..] = table {
        if are_same(row.0, name) {
            return Some(row.1);
        }
        table = rest;
    }
    None
}

/// Whether each byte is a digit.
pub fn are_digits(bytes: &[u8]) -> bool
    ensures { result ≡ list_all is_ascii_digit bytes.now }
{
    bytes.iter().all(|byte| byte.is_ascii_digit())
}

/// The value of digits, if it has 32 bits.
#[tactic(auto, using(crate::proofs::NumberLemmas::value_after_le))]
fn value_of(digits: &[u8]) -> Option<u32>
    requires { list_all is_ascii_digit digits.now ≡ true }
    ensures { result ≡ small_value digits.now }
{
    let mut value = 0;
    for digit in digits {
        let next = u64::from(value) * 10 + u64::from(*digit - b'0');
        if next > u64::from(u32::MAX) {
            return None;
        }
        value = next as u32;
    }
    Some(value)
}

/// The number of decimal digits, perhaps with leading zeros. There is none where a byte is no digit
/// or there is no byte, and where it does not fit 32 bits.
#[tactic(auto, unfolding(crate::specs::Numbers::decimal_number))]
pub fn decimal_number(word: &[u8]) -> Option<u32>
    ensures { result ≡ decimal_number word.now }
{
    if word.is_empty() || !are_digits(word) {
        return None;
    }
    value_of(word)
}

/// The number of one to `most` decimal digits.
#[tactic(auto, using(crate::proofs::NumberLemmas::few_are_decimal, crate::proofs::NumberLemmas::too_many, crate::proofs::NumberLemmas::few_below))]
pub fn few_digits(most: usize, digits: &[u8]) -> Option<u32>
    requires { most ≤ 9 }
    ensures is { result ≡ few_digits most digits.now }
    ensures small { IfSome result (λ n. n < 10 ^ most) }
{
    if digits.len() > most {
        return None;
    }
    decimal_number(digits)
}

/// Whether a byte is a space or a tab.
pub fn is_blank(byte: u8) -> bool
    ensures { result ≡ is_blank byte }
{
    byte == b' ' || byte == b'\t'
}

/// Where the first byte `c` stands.
fn index_of(c: u8, bytes: &[u8]) -> Option<usize>
    ensures is { result ≡ position (λ b. b == c) bytes.now }
    ensures within { IfSome result (λ n. n < length bytes.now) }
{
    for (i, b) in bytes.iter().enumerate() {
        if *b == c {
            return Some(i);
        }
    }
    None
}

/// The bytes before and behind the first byte `c`, if there is one.
#[tactic(auto, unfolding(crate::specs::Cuts::cut_at))]
pub fn cut_at(c: u8, bytes: &[u8]) -> Option<(&[u8], &[u8])>
    ensures is { option_map (λ x. (x.0.now, x.1.now)) result ≡ cut_at c bytes.now }
    ensures shorter { IfSome result (λ x. length x.1.now < length bytes.now) }
{
    let at = index_of(c, bytes)?;
    let (front, _) = bytes.split_at(at);
    let (_, back) = bytes.split_at(at + 1);
    Some((front, back))
}
