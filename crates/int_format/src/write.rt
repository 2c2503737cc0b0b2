//! The text of a number, written from its end on (XSH fprintf).

ghost use Rattle.std.specs.Prelude.{◌≡◌, ◌+◌, ◌<◌, ◌≤◌, length, ◌++◌, drop, true};
ghost use Rattle.text_buffer.specs.Written.{over};
ghost use Rattle.digit_groups.specs.Digits.{last_digits};
ghost use Rattle.digit_groups.specs.Groups.{grouped};
ghost use Rattle.int_format.specs.Ints.{is_number, sizes_of, padded, conversion_text};

use crate::format::IntConversion;
use crate::layout::{Fill, Laid, laid_out, sizes_of};
use digit_groups::{write_before, write_grouped, write_repeated};
use numeric_cat::Numeric;

/// Writes the digits of a number that is laid out over the bytes before `end`, and says where they
/// begin.
#[inline(always)]
fn write_number(target: &mut [u8], end: usize, n: &Numeric, c: &IntConversion, laid: &Laid) -> usize
    requires room { length (grouped (last_digits laid.now.digits laid.now.magnitude) (sizes_of n.now c.now) n.now.thousands_sep) ≤ end }
    requires within { end ≤ length target.old }
    ensures begins { result + length (grouped (last_digits laid.now.digits laid.now.magnitude) (sizes_of n.now c.now) n.now.thousands_sep) ≡ end }
    ensures written { drop result target.new ≡ grouped (last_digits laid.now.digits laid.now.magnitude) (sizes_of n.now c.now) n.now.thousands_sep ++ drop end target.old }
{
    write_grouped(
        target,
        end,
        laid.magnitude,
        laid.digits,
        sizes_of(n, c),
        n.thousands_sep(),
    )
}

/// Writes the text of a number that is laid out over the bytes before `end`, and says where it begins.
#[inline(always)]
fn write_text(target: &mut [u8], end: usize, n: &Numeric, c: &IntConversion, laid: &Laid) -> usize
    requires room { length (padded laid.now.fill laid.now.padding laid.now.sign.now (grouped (last_digits laid.now.digits laid.now.magnitude) (sizes_of n.now c.now) n.now.thousands_sep)) ≤ end }
    requires within { end ≤ length target.old }
    ensures begins { result + length (padded laid.now.fill laid.now.padding laid.now.sign.now (grouped (last_digits laid.now.digits laid.now.magnitude) (sizes_of n.now c.now) n.now.thousands_sep)) ≡ end }
    ensures written { drop result target.new ≡ padded laid.now.fill laid.now.padding laid.now.sign.now (grouped (last_digits laid.now.digits laid.now.magnitude) (sizes_of n.now c.now) n.now.thousands_sep) ++ drop end target.old }
{
    match laid.fill {
        Fill::Before => {
            let digits = write_number(target, end, n, c, laid);
            let sign = write_before(target, digits, laid.sign);
            write_repeated(target, sign, b' ', laid.padding)
        }
        Fill::Between => {
            let digits = write_number(target, end, n, c, laid);
            let zeros = write_repeated(target, digits, b'0', laid.padding);
            write_before(target, zeros, laid.sign)
        }
        Fill::Behind => {
            let behind = write_repeated(target, end, b' ', laid.padding);
            let digits = write_number(target, behind, n, c, laid);
            write_before(target, digits, laid.sign)
        }
    }
}

/// Writes the text of a number that is laid out over bytes that are just as many.
#[inline(always)]
fn fill_text(target: &mut [u8], n: &Numeric, c: &IntConversion, laid: &Laid)
    requires { length target.old ≡ length (padded laid.now.fill laid.now.padding laid.now.sign.now (grouped (last_digits laid.now.digits laid.now.magnitude) (sizes_of n.now c.now) n.now.thousands_sep)) }
    ensures { target.new ≡ padded laid.now.fill laid.now.padding laid.now.sign.now (grouped (last_digits laid.now.digits laid.now.magnitude) (sizes_of n.now c.now) n.now.thousands_sep) }
{
    write_text(target, target.len(), n, c, laid);
}

/// Writes the text of a number to the front of a buffer, if it has room for all of it, and says how
/// many bytes the text has.
#[inline(always)]
pub fn put_number(target: &mut [u8], n: &Numeric, c: &IntConversion, value: i128) -> u128
    requires { is_number value ≡ true }
    ensures width { result ≡ length (conversion_text n.now c.now value) }
    ensures written { result ≤ length target.old → target.new ≡ over target.old 0 (conversion_text n.now c.now value) }
    ensures kept { length target.old < result → target.new ≡ target.old }
{
    let laid = laid_out(n, c, value);
    if laid.width > target.len() as u128 {
        return laid.width;
    }
    fill_text(&mut target[..laid.width as usize], n, c, &laid);
    laid.width
}

/// How many bytes the text of a number has.
#[inline(never)]
pub fn width_of(n: &Numeric, c: &IntConversion, value: i128) -> u128
    requires { is_number value ≡ true }
    ensures { result ≡ length (conversion_text n.now c.now value) }
{
    laid_out(n, c, value).width
}
