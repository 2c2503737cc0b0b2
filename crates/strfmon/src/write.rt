//! The text of an amount, written from its end on (XSH strfmon).

ghost use Rattle.std.specs.Prelude.{◌≡◌, ◌+◌, ◌^◌, ◌<◌, ◌≤◌, length, ◌++◌, drop};
ghost use Rattle.digit_groups.specs.Digits.{digit_count};
ghost use Rattle.strfmon.specs.Money.{with_spaces, conversion_text};
ghost use Rattle.strfmon.specs.Shown.{shown_fraction, shown_number, shown_parts};
ghost use Rattle.strfmon.specs.Seen.{seen};
ghost use Rattle.text_buffer.specs.Written.{over};

use crate::decimal::Decimal;
use crate::format::{MoneyConversion, is_plain, plain_conversion};
use crate::layout::{Laid, laid_out, radix_of, sizes_of};
use crate::look::Look;
use digit_groups::{write_before, write_digits, write_grouped, write_repeated};
use lc_base::Amount;
use monetary_cat::{MonText, Monetary};

/// How many bytes align an amount: spaces before its look, fill bytes before its number, spaces
/// behind its look, and those of its field.
#[derive(Clone, Copy)]
struct Spread {
    before: usize,
    fill: usize,
    after: usize,
    field: usize,
}

/// Writes the radix and the fraction, where there is one, over the bytes before `end`, and says where
/// they begin.
#[inline(always)]
fn write_fraction(target: &mut [u8], end: usize, m: &Monetary, decimal: Decimal) -> usize
    requires short { decimal.kept ≤ decimal.precision }
    requires room { length (shown_fraction m.now decimal) ≤ end }
    requires within { end ≤ length target.old }
    ensures begins { result + length (shown_fraction m.now decimal) ≡ end }
    ensures written { drop result target.new ≡ shown_fraction m.now decimal ++ drop end target.old }
{
    if decimal.precision == 0 {
        return end;
    }
    let zeros = write_repeated(target, end, b'0', decimal.precision - decimal.kept);
    let digits = write_digits(target, zeros, decimal.magnitude, decimal.kept);
    write_before(target, digits, radix_of(m))
}

/// Writes the number of an amount over the bytes before `end`, and says where it begins.
#[inline(always)]
fn write_number(
    target: &mut [u8],
    end: usize,
    m: &Monetary,
    c: &MoneyConversion,
    decimal: Decimal,
) -> usize
    requires digits { decimal.digits ≡ digit_count decimal.whole }
    requires short { decimal.kept ≤ decimal.precision }
    requires room { length (shown_number m.now c.now decimal) ≤ end }
    requires within { end ≤ length target.old }
    ensures begins { result + length (shown_number m.now c.now decimal) ≡ end }
    ensures written { drop result target.new ≡ shown_number m.now c.now decimal ++ drop end target.old }
{
    let radix = write_fraction(target, end, m, decimal);
    let sep = m.text(MonText::MonThousandsSep);
    write_grouped(
        target,
        radix,
        decimal.whole,
        decimal.digits,
        sizes_of(m, c),
        sep,
    )
}

/// Writes the text of an amount but for its field over the bytes before `end`, and says where it
/// begins.
#[inline(always)]
fn write_text(
    target: &mut [u8],
    end: usize,
    m: &Monetary,
    c: &MoneyConversion,
    look: &Look,
    spread: Spread,
    decimal: Decimal,
) -> usize
    requires digits { decimal.digits ≡ digit_count decimal.whole }
    requires short { decimal.kept ≤ decimal.precision }
    requires room { length (shown_parts m.now c.now decimal (seen look.now) spread.before spread.fill spread.after) ≤ end }
    requires within { end ≤ length target.old }
    ensures begins { result + length (shown_parts m.now c.now decimal (seen look.now) spread.before spread.fill spread.after) ≡ end }
    ensures written { drop result target.new ≡ shown_parts m.now c.now decimal (seen look.now) spread.before spread.fill spread.after ++ drop end target.old }
{
    let behind = write_repeated(target, end, b' ', spread.after);
    let after = look.write(look.after, target, behind);
    let number = write_number(target, after, m, c, decimal);
    let fill = write_repeated(target, number, c.flags.fill.unwrap_or(b' '), spread.fill);
    let before = look.write(look.before, target, fill);
    write_repeated(target, before, b' ', spread.before)
}

/// Writes the text of an amount in its field over the bytes before `end`, and says where it begins.
#[inline(always)]
fn write_in_field(
    target: &mut [u8],
    end: usize,
    m: &Monetary,
    c: &MoneyConversion,
    look: &Look,
    spread: Spread,
    decimal: Decimal,
) -> usize
    requires digits { decimal.digits ≡ digit_count decimal.whole }
    requires short { decimal.kept ≤ decimal.precision }
    requires room { length (with_spaces c.now.flags.left spread.field (shown_parts m.now c.now decimal (seen look.now) spread.before spread.fill spread.after)) ≤ end }
    requires within { end ≤ length target.old }
    ensures begins { result + length (with_spaces c.now.flags.left spread.field (shown_parts m.now c.now decimal (seen look.now) spread.before spread.fill spread.after)) ≡ end }
    ensures written { drop result target.new ≡ with_spaces c.now.flags.left spread.field (shown_parts m.now c.now decimal (seen look.now) spread.before spread.fill spread.after) ++ drop end target.old }
{
    if c.flags.left {
        let behind = write_repeated(target, end, b' ', spread.field);
        write_text(target, behind, m, c, look, spread, decimal)
    } else {
        let text = write_text(target, end, m, c, look, spread, decimal);
        write_repeated(target, text, b' ', spread.field)
    }
}

/// Writes the text of an amount in its field over bytes that are just as many.
#[inline(always)]
fn fill_field(
    target: &mut [u8],
    m: &Monetary,
    c: &MoneyConversion,
    look: &Look,
    spread: Spread,
    decimal: Decimal,
)
    requires digits { decimal.digits ≡ digit_count decimal.whole }
    requires short { decimal.kept ≤ decimal.precision }
    requires room { length target.old ≡ length (with_spaces c.now.flags.left spread.field (shown_parts m.now c.now decimal (seen look.now) spread.before spread.fill spread.after)) }
    ensures { target.new ≡ with_spaces c.now.flags.left spread.field (shown_parts m.now c.now decimal (seen look.now) spread.before spread.fill spread.after) }
{
    write_in_field(target, target.len(), m, c, look, spread, decimal);
}

/// What aligns an amount that is laid out.
#[inline(always)]
fn spread_of(laid: &Laid) -> Spread
    requires fits { laid.now.layout.width + laid.now.field < 2 ^ 64 }
    requires within { laid.now.layout.before + laid.now.layout.fill + laid.now.layout.after ≤ laid.now.layout.width }
    ensures before { result.before ≡ laid.now.layout.before }
    ensures fill { result.fill ≡ laid.now.layout.fill }
    ensures after { result.after ≡ laid.now.layout.after }
    ensures field { result.field ≡ laid.now.field }
{
    Spread {
        before: laid.layout.before as usize,
        fill: laid.layout.fill as usize,
        after: laid.layout.after as usize,
        field: laid.field as usize,
    }
}

/// Writes the text of an amount to the front of a buffer, if it has room for all of it, and says how
/// many bytes the text has.
#[inline(always)]
fn put_conversion(target: &mut [u8], m: &Monetary, c: &MoneyConversion, amount: Amount) -> u128
    ensures width { result ≡ length (conversion_text m.now c.now amount) }
    ensures written { result ≤ length target.old → target.new ≡ over target.old 0 (conversion_text m.now c.now amount) }
    ensures kept { length target.old < result → target.new ≡ target.old }
{
    let laid = laid_out(m, c, amount);
    let width = laid.layout.width + laid.field;
    if width > target.len() as u128 {
        return width;
    }
    fill_field(
        &mut target[..width as usize],
        m,
        c,
        &laid.look,
        spread_of(&laid),
        laid.decimal,
    );
    width
}

/// Writes the text of an amount, as `put_conversion` does, in code of its own: for a conversion that is more
/// than a letter.
#[inline(never)]
fn put_other(target: &mut [u8], m: &Monetary, c: &MoneyConversion, amount: Amount) -> u128
    ensures width { result ≡ length (conversion_text m.now c.now amount) }
    ensures written { result ≤ length target.old → target.new ≡ over target.old 0 (conversion_text m.now c.now amount) }
    ensures kept { length target.old < result → target.new ≡ target.old }
{
    put_conversion(target, m, c, amount)
}

/// Writes the text of an amount to the front of a buffer, if it has room for all of it, and says how
/// many bytes the text has. A letter with nothing before it is told apart, since no flags, widths and
/// digits need to be looked at then.
#[inline(always)]
pub fn put_amount(target: &mut [u8], m: &Monetary, c: &MoneyConversion, amount: Amount) -> u128
    ensures width { result ≡ length (conversion_text m.now c.now amount) }
    ensures written { result ≤ length target.old → target.new ≡ over target.old 0 (conversion_text m.now c.now amount) }
    ensures kept { length target.old < result → target.new ≡ target.old }
{
    if is_plain(c) {
        put_conversion(target, m, &plain_conversion(c.international), amount)
    } else {
        put_other(target, m, c, amount)
    }
}

/// How many bytes the text of an amount has.
#[inline(never)]
pub fn width_of(m: &Monetary, c: &MoneyConversion, amount: Amount) -> u128
    ensures { result ≡ length (conversion_text m.now c.now amount) }
{
    let laid = laid_out(m, c, amount);
    laid.layout.width + laid.field
}
