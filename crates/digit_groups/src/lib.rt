//! Digits with a separator between groups of them (XBD 7.3.3 and 7.3.4), the number at the front of a
//! text, and the pieces of a format with their values (XBD 5).
#![tactic(auto)]

ghost use Rattle.std.specs.Prelude.{◌≡◌, true, drop, ◌+◌, ◌*◌, ◌^◌, ◌<◌, ◌≤◌, List, ℕ, ◌++◌, length, replicate, OnOk, OnErr, IfSome};
ghost use Rattle.std.specs.List.{list_all};
ghost use Rattle.digit_groups.specs.Digits.{last_digits, without_last};
ghost use Rattle.digit_groups.specs.Groups.{is_size, sizes_used, separated, separators, grouped, grouped_width, last_group, before_last};

mod conversion;
mod digits;
mod fault;
mod format;
mod list;
mod number;
mod piece;
mod text;

pub use conversion::{FormatConversion, number_after};
pub use digits::digit_count;
pub use fault::{FormatFault, FormatStop};
use lc_base::ByteText;
pub use list::format_into;
pub use number::leading_number;
use std::alloc::{AllocError, Global};
use std::mem::replace;
pub use text::write_format;

/// Appends digits with `sep` between their groups. The first size is that of the group next to the
/// radix, the next one that of the group before it. The last one repeats; -1 ends the grouping, and
/// the list of sizes ends at its first 0.
///
/// After a refusal `out` is as before.
pub fn group(
    alloc: Global,
    digits: &[u8],
    sizes: &[i32],
    sep: &[u8],
    out: &mut ByteText,
) -> Result<(), AllocError>
    ensures ok { OnOk result (out.new ≡ out.old ++ grouped digits.now sizes.now sep.now) }
    ensures err { OnErr result (out.new ≡ out.old) }
{
    let mut bytes = replace(out, ByteText::from_vec(Vec::new(alloc))).into_vec();
    let added = add_groups(&mut bytes, digits, sizes_used(sizes), sep);
    *out = ByteText::from_vec(bytes);
    added
}

/// Appends digits with `sep` between their groups, as [`group`] does.
///
/// After a refusal `out` is as before.
#[inline]
pub fn group_into(
    out: &mut Vec<u8>,
    digits: &[u8],
    sizes: &[i32],
    sep: &[u8],
) -> Result<(), AllocError>
    ensures ok { OnOk result (out.new.items ≡ out.old.items ++ grouped digits.now sizes.now sep.now) }
    ensures err { OnErr result (out.new.items ≡ out.old.items) }
{
    add_groups(out, digits, sizes_used(sizes), sep)
}

/// How many bytes `n` digits have once they are grouped, with a separator of `sep_len` bytes.
#[inline]
pub fn width_of(n: usize, sizes: &[i32], sep_len: usize) -> usize
    requires few { n ≤ 65536 }
    requires short { sep_len ≤ 65536 }
    ensures is { result ≡ grouped_width n sizes.now sep_len }
    ensures most { result ≤ n + n * sep_len }

    // What that width means: any digits with any separator are as wide as their numbers say.
    ensures length { (digits sep : List ℕ) → length digits ≡ n → length (grouped digits sizes.now sep) ≡ grouped_width n sizes.now (length sep) }
{
    n + separators(n, sizes_used(sizes)) * sep_len
}

/// How many bytes up to 255 digits have once they are grouped, with a separator of any length.
#[inline(always)]
pub fn grouped_width(n: usize, sizes: &[i32], sep: &[u8]) -> u128
    requires { n ≤ 255 }
    ensures is { result ≡ grouped_width n sizes.now (length sep.now) }
    ensures length { (digits : List ℕ) → length digits ≡ n → length (grouped digits sizes.now sep.now) ≡ result }
    ensures fits { result < 2 ^ 80 }
{
    let separators = width_of(n, sizes, 1) - n;
    n as u128 + separators as u128 * sep.len() as u128
}

/// Writes a piece over the bytes before `end`, and says where it begins.
#[inline(always)]
pub fn write_before(target: &mut [u8], end: usize, piece: &[u8]) -> usize
    requires room { length piece.now ≤ end }
    requires within { end ≤ length target.old }
    ensures begins { result + length piece.now ≡ end }
    ensures written { drop result target.new ≡ piece.now ++ drop end target.old }
{
    let mut at = end;
    let mut left = piece.len();
    while left > 0 {
        at -= 1;
        left -= 1;
        target[at] = piece[left];
    }
    at
}

/// Writes the same byte so many times over the bytes before `end`, and says where they begin.
#[inline(always)]
pub fn write_repeated(target: &mut [u8], end: usize, byte: u8, count: usize) -> usize
    requires room { count ≤ end }
    requires within { end ≤ length target.old }
    ensures begins { result + count ≡ end }
    ensures written { drop result target.new ≡ replicate count byte ++ drop end target.old }
{
    let mut at = end;
    for _ in 0..count {
        at -= 1;
        target[at] = byte;
    }
    at
}

/// Writes the last `count` decimal digits of a number over the bytes before `end`, and says where they
/// begin.
#[inline(always)]
pub fn write_digits(target: &mut [u8], end: usize, n: u64, count: usize) -> usize
    requires room { count ≤ end }
    requires within { end ≤ length target.old }
    ensures begins { result + count ≡ end }
    ensures written { drop result target.new ≡ last_digits count n ++ drop end target.old }
{
    write_last(target, end, n, count).0
}

/// Writes the last `count` decimal digits of a number over the bytes before `end`, with `sep` between
/// their groups as [`group`] has it, and says where they begin.
#[inline(always)]
pub fn write_grouped(
    target: &mut [u8],
    end: usize,
    n: u64,
    count: usize,
    sizes: &[i32],
    sep: &[u8],
) -> usize
    requires room { length (grouped (last_digits count n) sizes.now sep.now) ≤ end }
    requires within { end ≤ length target.old }
    ensures begins { result + length (grouped (last_digits count n) sizes.now sep.now) ≡ end }
    ensures written { drop result target.new ≡ grouped (last_digits count n) sizes.now sep.now ++ drop end target.old }
{
    write_number(target, end, n, count, sizes_used(sizes), sep)
}

/// The sizes before the first 0.
#[inline]
fn sizes_used(sizes: &[i32]) -> &[i32]
    ensures is { result.now ≡ sizes_used sizes.now }
    ensures sizes { list_all is_size result.now ≡ true }
{
    for (i, size) in sizes.iter().enumerate() {
        if *size == 0 {
            return &sizes[..i];
        }
    }
    sizes
}

/// The size of the group next to the radix, where digits stand before it.
#[inline]
fn last_group(sizes: &[i32], n: usize) -> Option<usize>
    ensures { result ≡ last_group sizes.now n }
{
    let size = *sizes.first()?;
    if size < 0 || size as usize >= n {
        return None;
    }
    Some(size as usize)
}

/// The sizes of the groups before the one next to the radix.
#[inline]
fn before_last(sizes: &[i32]) -> &[i32]
    ensures { result.now ≡ before_last sizes.now }
{
    match sizes {
        [_, next, others @ ..] => &sizes[1..],
        _ => sizes,
    }
}

/// How many separators stand in `n` digits.
#[inline]
fn separators(n: usize, sizes: &[i32]) -> usize
    requires { list_all is_size sizes.now ≡ true }
    ensures is { result ≡ separators sizes.now n }
    ensures few { result ≤ n }
{
    let mut left = n;
    let mut rest = sizes;
    let mut count = 0;
    while let Some(size) = last_group(rest, left) {
        left -= size;
        rest = before_last(rest);
        count += 1;
    }
    count
}

/// Writes grouped digits over the bytes before `end`, from their end on, and says where they begin.
#[inline(always)]
fn write_groups(target: &mut [u8], end: usize, digits: &[u8], sizes: &[i32], sep: &[u8]) -> usize
    requires sizes { list_all is_size sizes.now ≡ true }
    requires room { length digits.now + separators sizes.now (length digits.now) * length sep.now ≤ end }
    requires within { end ≤ length target.old }
    ensures begins { result + (length digits.now + separators sizes.now (length digits.now) * length sep.now) ≡ end }
    ensures written { drop result target.new ≡ separated digits.now sizes.now sep.now ++ drop end target.old }
{
    let mut at = end;
    let mut left = digits.len();
    let mut rest = sizes;
    while let Some(size) = last_group(rest, left) {
        at = write_before(target, at, &digits[left - size..left]);
        at = write_before(target, at, sep);
        left -= size;
        rest = before_last(rest);
    }
    write_before(target, at, &digits[..left])
}

/// Writes the last digits of a number over the bytes before `end`, and says where they begin and which
/// number stands before them.
#[inline(always)]
fn write_last(target: &mut [u8], end: usize, n: u64, count: usize) -> (usize, u64)
    requires room { count ≤ end }
    requires within { end ≤ length target.old }
    ensures begins { result.0 + count ≡ end }
    ensures before { result.1 ≡ without_last count n }
    ensures written { drop result.0 target.new ≡ last_digits count n ++ drop end target.old }
{
    let mut at = end;
    let mut left = n;
    let mut missing = count;
    while missing > 0 {
        missing -= 1;
        at -= 1;
        target[at] = b'0' + (left % 10) as u8;
        left /= 10;
    }
    (at, left)
}

/// Writes the last digits of a number in groups over the bytes before `end`, and says where they begin.
#[inline(always)]
fn write_number(
    target: &mut [u8],
    end: usize,
    n: u64,
    count: usize,
    sizes: &[i32],
    sep: &[u8],
) -> usize
    requires sizes { list_all is_size sizes.now ≡ true }
    requires room { count + separators sizes.now count * length sep.now ≤ end }
    requires within { end ≤ length target.old }
    ensures begins { result + (count + separators sizes.now count * length sep.now) ≡ end }
    ensures written { drop result target.new ≡ separated (last_digits count n) sizes.now sep.now ++ drop end target.old }
{
    let mut at = end;
    let mut number = n;
    let mut left = count;
    let mut rest = sizes;
    while let Some(size) = last_group(rest, left) {
        let (begin, before) = write_last(target, at, number, size);
        at = write_before(target, begin, sep);
        number = before;
        left -= size;
        rest = before_last(rest);
    }
    write_digits(target, at, number, left)
}

/// Writes grouped digits over bytes that are just as many.
#[inline(always)]
fn fill_groups(target: &mut [u8], digits: &[u8], sizes: &[i32], sep: &[u8])
    requires sizes { list_all is_size sizes.now ≡ true }
    requires room { length target.old ≡ length digits.now + separators sizes.now (length digits.now) * length sep.now }
    ensures { target.new ≡ separated digits.now sizes.now sep.now }
{
    write_groups(target, target.len(), digits, sizes, sep);
}

/// Where a list of `start` bytes ends once grouped digits stand behind it, if there can be so many.
#[inline]
fn end_of(start: usize, digits: usize, separators: usize, sep_len: usize) -> Option<usize>
    ensures { IfSome result (λ end. end ≡ start + (digits + separators * sep_len)) }
{
    start.checked_add(digits.checked_add(separators.checked_mul(sep_len)?)?)
}

/// Appends digits with so many separators.
fn add_separated(
    out: &mut Vec<u8>,
    digits: &[u8],
    sizes: &[i32],
    sep: &[u8],
    count: usize,
) -> Result<(), AllocError>
    requires sizes { list_all is_size sizes.now ≡ true }
    requires count { count ≡ separators sizes.now (length digits.now) }
    ensures ok { OnOk result (out.new.items ≡ out.old.items ++ separated digits.now sizes.now sep.now) }
    ensures err { OnErr result (out.new.items ≡ out.old.items) }
{
    let start = out.len();
    let end = end_of(start, digits.len(), count, sep.len()).ok_or(AllocError)?;
    out.resize(end, 0)?;
    fill_groups(&mut out[start..], digits, sizes, sep);
    Ok(())
}

/// Appends grouped digits.
#[tactic(auto, using(crate::proofs::GroupLemmas::none_separated))]
#[inline]
fn add_groups(out: &mut Vec<u8>, digits: &[u8], sizes: &[i32], sep: &[u8]) -> Result<(), AllocError>
    requires { list_all is_size sizes.now ≡ true }
    ensures ok { OnOk result (out.new.items ≡ out.old.items ++ separated digits.now sizes.now sep.now) }
    ensures err { OnErr result (out.new.items ≡ out.old.items) }
{
    let count = separators(digits.len(), sizes);
    if count == 0 {
        return out.extend_from_slice(digits);
    }
    add_separated(out, digits, sizes, sep, count)
}
