//! The widths of an amount's text (XSH strfmon).

ghost use Rattle.std.specs.Prelude.{◌≡◌, ◌+◌, ◌^◌, ◌<◌, ◌≤◌, ◌-◌, not, length, List, ℕ, IfSome};
ghost use Rattle.std.specs.Option.{ForSome};
ghost use Rattle.digit_groups.specs.Groups.{grouped, grouped_width};
ghost use Rattle.digit_groups.specs.Digits.{digit_count};
ghost use Rattle.strfmon.specs.Decimals.{whole_digits};
ghost use Rattle.strfmon.specs.Looks.{look_of, parts_text};
ghost use Rattle.strfmon.specs.Money.{precision_of, sizes_of, radix_of, fraction_text, aligned_digits, fill_count, pad_count, text_with, with_spaces, conversion_text};
ghost use Rattle.strfmon.specs.Shown.{shown_parts};
ghost use Rattle.lc_base.specs.Amounts.{MoneyAmount};
ghost use Rattle.strfmon.specs.Seen.{seen};

use crate::decimal::{Decimal, decimal_of, is_negative};
use crate::format::MoneyConversion;
use crate::look::{Look, given, look_of};
use digit_groups::grouped_width;
use lc_base::Amount;
use monetary_cat::{MonNumber, MonText, Monetary};

/// How many bytes of each kind stand round an amount, and how many there are in all.
#[derive(Clone, Copy)]
pub struct Widths {
    /// Spaces before the look.
    pub before: u128,
    /// Fill bytes before the number.
    pub fill: u128,
    /// Spaces behind the look.
    pub after: u128,
    /// All bytes, those of the number and the look included.
    pub width: u128,
}

/// An amount with all that its text shows.
#[derive(Clone, Copy)]
pub struct Laid<'a> {
    pub look: Look<'a>,
    pub decimal: Decimal,
    /// The layout of its text but for the field.
    pub layout: Widths,
    /// Spaces of the field.
    pub field: u128,
}

/// The fraction digits of a conversion.
#[inline(always)]
fn precision_of(m: &Monetary, c: &MoneyConversion) -> usize
    ensures is { result ≡ precision_of m.now c.now }
    ensures small { result < 2 ^ 32 }
{
    let key = if c.international {
        MonNumber::IntFracDigits
    } else {
        MonNumber::FracDigits
    };
    match c.precision {
        Some(digits) => usize::from(digits),
        None => given(m.number(key), 2),
    }
}

/// The sizes of groups.
#[inline(always)]
pub fn sizes_of<'a>(m: &'a Monetary, c: &MoneyConversion) -> &'a [i32]
    ensures { result.now ≡ sizes_of m.now c.now }
{
    if c.flags.no_groups { &[] } else { m.grouping() }
}

/// The radix, which is `.` where the locale has none.
#[inline(always)]
pub fn radix_of(m: &Monetary) -> &[u8]
    ensures { result.now ≡ radix_of m.now }
{
    let radix = m.text(MonText::MonDecimalPoint);
    if radix.is_empty() { b"." } else { radix }
}

/// The whole digits to align so many to.
fn aligned_digits(c: &MoneyConversion, digits: usize) -> Option<usize>
    ensures is { result ≡ aligned_digits c.now digits }
    ensures few { IfSome result (λ n. n ≤ 255) }
{
    let whole = usize::from(c.whole_digits?);
    if digits <= whole { Some(whole) } else { None }
}

/// How many fill bytes stand before so many whole digits.
fn fill_count(m: &Monetary, c: &MoneyConversion, digits: usize, aligned: Option<usize>) -> u128
    requires few { digits ≤ 255 }
    requires aligned { ForSome aligned (λ n. n ≤ 255) }
    ensures is { result ≡ fill_count m.now c.now digits aligned }
    ensures fits { result < 2 ^ 80 }
{
    let Some(whole) = aligned else {
        return 0;
    };
    let sizes = sizes_of(m, c);
    let sep = m.text(MonText::MonThousandsSep);
    grouped_width(whole, sizes, sep).saturating_sub(grouped_width(digits, sizes, sep))
}

/// How many bytes longer the look of the other sign is than so many, before the number and behind it.
fn other_sign_pads(
    m: &Monetary,
    c: &MoneyConversion,
    negative: bool,
    own_before: u128,
    own_after: u128,
) -> (u128, u128)
    ensures before { result.0 ≡ length (parts_text (look_of m.now c.now (not negative)) (look_of m.now c.now (not negative)).before) - own_before }
    ensures after { result.1 ≡ length (parts_text (look_of m.now c.now (not negative)) (look_of m.now c.now (not negative)).after) - own_after }
    ensures few_before { result.0 ≤ 2 ^ 66 }
    ensures few_after { result.1 ≤ 2 ^ 66 }
{
    let other = look_of(m, c, !negative);
    let before = other.width(other.before);
    let after = other.width(other.after);
    (
        before.saturating_sub(own_before),
        after.saturating_sub(own_after),
    )
}

/// How many spaces stand before the look of one sign and behind it, so that it is as long as that of
/// the other sign.
#[inline(always)]
fn pads_of(
    m: &Monetary,
    c: &MoneyConversion,
    negative: bool,
    aligned: Option<usize>,
    own_before: u128,
    own_after: u128,
) -> (u128, u128)
    ensures before { (own : List ℕ) → length own ≡ own_before → result.0 ≡ pad_count aligned own (parts_text (look_of m.now c.now (not negative)) (look_of m.now c.now (not negative)).before) }
    ensures after { (own : List ℕ) → length own ≡ own_after → result.1 ≡ pad_count aligned own (parts_text (look_of m.now c.now (not negative)) (look_of m.now c.now (not negative)).after) }
    ensures few_before { result.0 ≤ 2 ^ 66 }
    ensures few_after { result.1 ≤ 2 ^ 66 }
{
    match aligned {
        Some(_) => other_sign_pads(m, c, negative, own_before, own_after),
        None => (0, 0),
    }
}

/// How many bytes the radix and the fraction have.
#[inline(always)]
fn fraction_width(m: &Monetary, precision: usize) -> u128
    requires { precision < 2 ^ 32 }
    ensures is { (a : MoneyAmount) → result ≡ length (fraction_text m.now precision a) }
    ensures fits { result < 2 ^ 80 }
{
    if precision == 0 {
        return 0;
    }
    radix_of(m).len() as u128 + precision as u128
}

/// The layout of an amount of this sign.
#[inline(always)]
fn layout_of(
    m: &Monetary,
    c: &MoneyConversion,
    own: &Look,
    negative: bool,
    decimal: Decimal,
) -> Widths
    requires few { decimal.digits ≤ 20 }
    requires precision { decimal.precision ≡ precision_of m.now c.now }
    requires small { decimal.precision < 2 ^ 32 }
    requires own_before { length own.now.before.now ≤ 3 }
    requires own_after { length own.now.after.now ≤ 3 }
    ensures before { result.before ≡ pad_count (aligned_digits c.now decimal.digits) (parts_text (seen own.now) own.now.before.now) (parts_text (look_of m.now c.now (not negative)) (look_of m.now c.now (not negative)).before) }
    ensures fill { result.fill ≡ fill_count m.now c.now decimal.digits (aligned_digits c.now decimal.digits) }
    ensures after { result.after ≡ pad_count (aligned_digits c.now decimal.digits) (parts_text (seen own.now) own.now.after.now) (parts_text (look_of m.now c.now (not negative)) (look_of m.now c.now (not negative)).after) }
    ensures within { result.before + result.fill + result.after ≤ result.width }
    ensures fits { result.width < 2 ^ 82 }
    ensures width { (a : MoneyAmount) → length (whole_digits (precision_of m.now c.now) a) ≡ decimal.digits → result.width ≡ length (text_with m.now c.now a (seen own.now) (look_of m.now c.now (not negative))) }
{
    let aligned = aligned_digits(c, decimal.digits);
    let own_before = own.width(own.before);
    let own_after = own.width(own.after);
    let (before, after) = pads_of(m, c, negative, aligned, own_before, own_after);
    let fill = fill_count(m, c, decimal.digits, aligned);
    let sep = m.text(MonText::MonThousandsSep);
    let whole = grouped_width(decimal.digits, sizes_of(m, c), sep);
    let fraction = fraction_width(m, decimal.precision);
    Widths {
        before,
        fill,
        after,
        width: before + own_before + fill + (whole + fraction) + own_after + after,
    }
}

/// How many spaces fill a field with a text of so many bytes.
fn field_spaces(width: u8, text: u128) -> u128
    ensures is { result ≡ width - text }
    ensures few { result ≤ 255 }
{
    u128::from(width).saturating_sub(text)
}

/// An amount laid out in a conversion.
#[inline(always)]
pub fn laid_out<'a>(m: &'a Monetary, c: &MoneyConversion, amount: Amount) -> Laid<'a>
    ensures digits { result.decimal.digits ≡ digit_count result.decimal.whole }
    ensures short { result.decimal.kept ≤ result.decimal.precision }
    ensures text { with_spaces c.now.flags.left result.field (shown_parts m.now c.now result.decimal (seen result.look) result.layout.before result.layout.fill result.layout.after) ≡ conversion_text m.now c.now amount }
    ensures width { result.layout.width + result.field ≡ length (conversion_text m.now c.now amount) }
    ensures within { result.layout.before + result.layout.fill + result.layout.after ≤ result.layout.width }
    ensures fits { result.layout.width + result.field < 2 ^ 127 }
{
    let negative = is_negative(amount);
    let own = look_of(m, c, negative);
    let decimal = decimal_of(amount, precision_of(m, c));
    let layout = layout_of(m, c, &own, negative, decimal);
    Laid {
        look: own,
        decimal,
        layout,
        field: field_spaces(c.width, layout.width),
    }
}
