//! How an amount of one sign looks (XSH strfmon, XBD 7.3.3).

ghost use Rattle.std.specs.Prelude.{◌≡◌, ◌+◌, ◌*◌, ◌^◌, ◌<◌, ◌≤◌, length, ◌++◌, take, drop};
ghost use Rattle.strfmon.specs.Looks.{given, local_numbers, international_numbers, numbers_of, wants_parentheses, minus_sign, plus_sign, sign_of, symbol_of, space_of, position_of, separation_of, look_of, parts_text, part_text};
ghost use Rattle.strfmon.specs.Seen.{seen};

use crate::cells::{MoneyPart, cell};
use crate::format::{MoneyConversion, Signs};
use digit_groups::write_before;
use monetary_cat::{MonNumber, MonText, Monetary};

/// cs_precedes, sep_by_space and sign_posn.
#[derive(Clone, Copy)]
pub struct Placing {
    pub precedes: usize,
    pub separation: usize,
    pub position: usize,
}

/// How an amount of one sign looks in a conversion.
#[derive(Clone, Copy)]
pub struct Look<'a> {
    pub sign: &'a [u8],
    pub symbol: &'a [u8],
    pub space: &'a [u8],
    pub before: &'static [MoneyPart],
    pub after: &'static [MoneyPart],
}

/// A number, or what stands for it where the locale does not say.
#[inline(always)]
pub fn given(number: i32, other: usize) -> usize
    requires { other < 2 ^ 32 }
    ensures is { result ≡ given number other }
    ensures small { result < 2 ^ 32 }
{
    if number < 0 { other } else { number as usize }
}

#[inline(always)]
fn local_numbers(m: &Monetary, negative: bool) -> Placing
    ensures is { result ≡ local_numbers m.now negative }
    ensures precedes { result.precedes < 2 ^ 32 }
    ensures separation { result.separation < 2 ^ 32 }
    ensures position { result.position < 2 ^ 32 }
{
    if negative {
        Placing {
            precedes: given(m.number(MonNumber::NCsPrecedes), 1),
            separation: given(m.number(MonNumber::NSepBySpace), 0),
            position: given(m.number(MonNumber::NSignPosn), 1),
        }
    } else {
        Placing {
            precedes: given(m.number(MonNumber::PCsPrecedes), 1),
            separation: given(m.number(MonNumber::PSepBySpace), 0),
            position: given(m.number(MonNumber::PSignPosn), 1),
        }
    }
}

fn international_numbers(m: &Monetary, negative: bool) -> Placing
    ensures is { result ≡ international_numbers m.now negative }
    ensures precedes { result.precedes < 2 ^ 32 }
    ensures separation { result.separation < 2 ^ 32 }
    ensures position { result.position < 2 ^ 32 }
{
    let local = local_numbers(m, negative);
    if negative {
        Placing {
            precedes: given(m.number(MonNumber::IntNCsPrecedes), local.precedes),
            separation: given(m.number(MonNumber::IntNSepBySpace), 1),
            position: given(m.number(MonNumber::IntNSignPosn), local.position),
        }
    } else {
        Placing {
            precedes: given(m.number(MonNumber::IntPCsPrecedes), local.precedes),
            separation: given(m.number(MonNumber::IntPSepBySpace), 1),
            position: given(m.number(MonNumber::IntPSignPosn), local.position),
        }
    }
}

#[inline(always)]
fn numbers_of(m: &Monetary, international: bool, negative: bool) -> Placing
    ensures is { result ≡ numbers_of m.now international negative }
    ensures precedes { result.precedes < 2 ^ 32 }
    ensures separation { result.separation < 2 ^ 32 }
    ensures position { result.position < 2 ^ 32 }
{
    if international {
        international_numbers(m, negative)
    } else {
        local_numbers(m, negative)
    }
}

fn wants_parentheses(signs: Option<Signs>) -> bool
    ensures { result ≡ wants_parentheses signs }
{
    matches!(signs, Some(Signs::Parentheses))
}

fn minus_sign(m: &Monetary) -> &[u8]
    ensures { result.now ≡ minus_sign m.now }
{
    let minus = m.text(MonText::NegativeSign);
    if minus.is_empty() && m.text(MonText::PositiveSign).is_empty() {
        b"-"
    } else {
        minus
    }
}

#[inline(always)]
fn sign_of(m: &Monetary, parentheses: bool, negative: bool) -> &[u8]
    ensures { result.now ≡ sign_of m.now parentheses negative }
{
    if negative {
        minus_sign(m)
    } else if parentheses {
        b""
    } else {
        m.text(MonText::PositiveSign)
    }
}

/// The bytes before the fourth one, or from it on.
fn split_symbol(symbol: &[u8]) -> (&[u8], &[u8])
    ensures name { result.0.now ≡ take 3 symbol.now }
    ensures space { result.1.now ≡ drop 3 symbol.now }
{
    symbol.split_at(symbol.len().min(3))
}

#[inline(always)]
fn symbol_of<'a>(m: &'a Monetary, c: &MoneyConversion) -> &'a [u8]
    ensures { result.now ≡ symbol_of m.now c.now }
{
    if c.flags.no_symbol {
        b""
    } else if c.international {
        split_symbol(m.text(MonText::IntCurrSymbol)).0
    } else {
        m.text(MonText::CurrencySymbol)
    }
}

#[inline(always)]
fn space_of<'a>(m: &'a Monetary, c: &MoneyConversion) -> &'a [u8]
    ensures { result.now ≡ space_of m.now c.now }
{
    if c.international {
        split_symbol(m.text(MonText::IntCurrSymbol)).1
    } else {
        b" "
    }
}

#[inline(always)]
fn position_of(parentheses: bool, negative: bool, position: usize) -> usize
    ensures is { result ≡ position_of parentheses negative position }
    ensures small { position < 2 ^ 32 → result < 2 ^ 32 }
{
    match (parentheses, negative) {
        (true, true) => 0,
        (true, false) => 1,
        (false, _) => position,
    }
}

#[inline(always)]
fn separation_of(symbol: &[u8], sign: &[u8], position: usize, separation: usize) -> usize
    ensures is { result ≡ separation_of symbol.now sign.now position separation }
    ensures small { separation < 2 ^ 32 → result < 2 ^ 32 }
{
    if symbol.is_empty() || (separation == 2 && sign.is_empty() && position != 0) {
        0
    } else {
        separation
    }
}

/// How an amount of this sign looks in a conversion.
#[tactic(auto, unfolding(crate::specs::Looks::look_of))]
#[inline(always)]
pub fn look_of<'a>(m: &'a Monetary, c: &MoneyConversion, negative: bool) -> Look<'a>
    ensures is { seen result ≡ look_of m.now c.now negative }
    ensures before { length result.before.now ≤ 3 }
    ensures after { length result.after.now ≤ 3 }
{
    let parentheses = wants_parentheses(c.flags.signs);
    let numbers = numbers_of(m, c.international, negative);
    let sign = sign_of(m, parentheses, negative);
    let symbol = symbol_of(m, c);
    let position = position_of(parentheses, negative, numbers.position);
    let separation = separation_of(symbol, sign, position, numbers.separation);
    let (before, after) = cell(numbers.precedes, position, separation);
    Look {
        sign,
        symbol,
        space: space_of(m, c),
        before,
        after,
    }
}

impl<'a> Look<'a> {
    #[inline(always)]
    fn part(&self, part: MoneyPart) -> &'a [u8]
        ensures { result.now ≡ part_text (seen self.now) part }
    {
        match part {
            MoneyPart::Open => b"(",
            MoneyPart::Sign => self.sign,
            MoneyPart::Symbol => self.symbol,
            MoneyPart::Space => self.space,
            MoneyPart::Close => b")",
        }
    }

    /// How many bytes parts have.
    #[inline(always)]
    pub fn width(&self, parts: &[MoneyPart]) -> u128
        ensures is { result ≡ length (parts_text (seen self.now) parts.now) }
        ensures fits { result ≤ 2 ^ 64 * length parts.now }
    {
        let mut width = 0;
        for part in parts {
            width += self.part(*part).len() as u128;
        }
        width
    }

    /// Writes parts over the bytes before `end`, and says where they begin.
    #[inline(always)]
    pub fn write(&self, parts: &[MoneyPart], target: &mut [u8], end: usize) -> usize
        requires room { length (parts_text (seen self.now) parts.now) ≤ end }
        requires within { end ≤ length target.old }
        ensures begins { result + length (parts_text (seen self.now) parts.now) ≡ end }
        ensures written { drop result target.new ≡ parts_text (seen self.now) parts.now ++ drop end target.old }
    {
        let mut at = end;
        let mut left = parts.len();
        while left > 0 {
            left -= 1;
            at = write_before(target, at, self.part(parts[left]));
        }
        at
    }
}
