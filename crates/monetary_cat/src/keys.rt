//! The keywords of `LC_MONETARY` (XBD 7.3.3), in the standard's order, and their values.

ghost use Rattle.std.specs.Prelude.{◌≡◌, IfOk, FitsSigned};
ghost use Rattle.std.specs.Int.{w32};
ghost use Rattle.monetary_cat.specs.Monetary.{text, number, texts_of, sign_numbers, local_of, international_of};

use crate::Monetary;
use keywords::{Entry, number_value, text_value};
use lc_base::{ByteText, Category};
use std::alloc::{AllocError, Global};

/// A keyword of `LC_MONETARY` with a text.
#[derive(Clone, Copy, PartialEq, Eq)]
pub enum MonText {
    /// The international currency symbol: empty, or three bytes and what stands between it and the number.
    IntCurrSymbol,
    /// The local currency symbol.
    CurrencySymbol,
    /// What stands between the whole digits and the fraction.
    MonDecimalPoint,
    /// What stands between groups of whole digits.
    MonThousandsSep,
    /// The sign of amounts that are not negative.
    PositiveSign,
    /// The sign of negative amounts.
    NegativeSign,
}

/// A keyword of `LC_MONETARY` with a number. -1 means that the locale does not say.
///
/// `P` is of amounts that are not negative and `N` of negative ones; those with `Int` before are of
/// the international form.
#[derive(Clone, Copy, PartialEq, Eq)]
pub enum MonNumber {
    /// Fraction digits in the international form, to 18.
    IntFracDigits,
    /// Fraction digits, to 18.
    FracDigits,
    /// 1 where the symbol stands before the number, 0 where behind.
    PCsPrecedes,
    /// 0 for no space, 1 between the symbol and the number, 2 between the symbol and the sign.
    PSepBySpace,
    NCsPrecedes,
    NSepBySpace,
    /// 0 for parentheses, 1 for the sign in front of all, 2 behind all, 3 before the symbol, 4 behind the symbol.
    PSignPosn,
    NSignPosn,
    IntPCsPrecedes,
    IntNCsPrecedes,
    IntPSepBySpace,
    IntNSepBySpace,
    IntPSignPosn,
    IntNSignPosn,
}

/// The texts.
#[derive(Drop)]
pub struct MoneyTexts {
    pub int_curr_symbol: ByteText,
    pub currency_symbol: ByteText,
    pub mon_decimal_point: ByteText,
    pub mon_thousands_sep: ByteText,
    pub positive_sign: ByteText,
    pub negative_sign: ByteText,
}

/// The numbers of amounts of one sign.
#[derive(Clone, Copy)]
pub struct SignNumbers {
    pub cs_precedes: i32,
    pub sep_by_space: i32,
    pub sign_posn: i32,
}

/// The numbers of one form, the local or the international one.
#[derive(Clone, Copy)]
pub struct FormNumbers {
    pub frac_digits: i32,
    /// Of amounts that are not negative.
    pub plus: SignNumbers,
    pub minus: SignNumbers,
}

impl Monetary {
    ghost use Rattle.monetary_cat.specs.Monetary.{text_of, number_of};

    /// The text of a keyword.
    pub fn text(&self, key: MonText) -> &[u8]
        ensures { result.now ≡ text_of self.now key }
    {
        match key {
            MonText::IntCurrSymbol => self.texts.int_curr_symbol.as_bytes(),
            MonText::CurrencySymbol => self.texts.currency_symbol.as_bytes(),
            MonText::MonDecimalPoint => self.texts.mon_decimal_point.as_bytes(),
            MonText::MonThousandsSep => self.texts.mon_thousands_sep.as_bytes(),
            MonText::PositiveSign => self.texts.positive_sign.as_bytes(),
            MonText::NegativeSign => self.texts.negative_sign.as_bytes(),
        }
    }

    /// The number of a keyword.
    pub fn number(&self, key: MonNumber) -> i32
        ensures { result ≡ number_of self.now key }
    {
        match key {
            MonNumber::IntFracDigits => self.international.frac_digits,
            MonNumber::FracDigits => self.local.frac_digits,
            MonNumber::PCsPrecedes => self.local.plus.cs_precedes,
            MonNumber::PSepBySpace => self.local.plus.sep_by_space,
            MonNumber::NCsPrecedes => self.local.minus.cs_precedes,
            MonNumber::NSepBySpace => self.local.minus.sep_by_space,
            MonNumber::PSignPosn => self.local.plus.sign_posn,
            MonNumber::NSignPosn => self.local.minus.sign_posn,
            MonNumber::IntPCsPrecedes => self.international.plus.cs_precedes,
            MonNumber::IntNCsPrecedes => self.international.minus.cs_precedes,
            MonNumber::IntPSepBySpace => self.international.plus.sep_by_space,
            MonNumber::IntNSepBySpace => self.international.minus.sep_by_space,
            MonNumber::IntPSignPosn => self.international.plus.sign_posn,
            MonNumber::IntNSignPosn => self.international.minus.sign_posn,
        }
    }
}

/// The text of a keyword.
#[tactic(auto, unfolding(crate::specs::Monetary::text))]
fn text(alloc: Global, entries: &[Entry], keyword: &[u8]) -> Result<ByteText, AllocError>
    ensures { IfOk result (λ t. t ≡ text entries.now keyword.now) }
{
    text_value(alloc, Category::Monetary, entries, keyword)
}

/// The number of a keyword.
#[tactic(auto, unfolding(crate::specs::Monetary::number))]
fn number(entries: &[Entry], keyword: &[u8]) -> i32
    ensures is { result ≡ number entries.now keyword.now }
    ensures fits { FitsSigned w32 result }
{
    number_value(Category::Monetary, entries, keyword)
}

/// The texts that a keyword list gives.
pub fn texts_of(alloc: Global, entries: &[Entry]) -> Result<MoneyTexts, AllocError>
    ensures { IfOk result (λ t. t ≡ texts_of entries.now) }
{
    Ok(MoneyTexts {
        int_curr_symbol: text(alloc, entries, b"int_curr_symbol")?,
        currency_symbol: text(alloc, entries, b"currency_symbol")?,
        mon_decimal_point: text(alloc, entries, b"mon_decimal_point")?,
        mon_thousands_sep: text(alloc, entries, b"mon_thousands_sep")?,
        positive_sign: text(alloc, entries, b"positive_sign")?,
        negative_sign: text(alloc, entries, b"negative_sign")?,
    })
}

/// The numbers of one sign.
#[tactic(auto, unfolding(crate::specs::Monetary::sign_numbers))]
fn sign_numbers(
    entries: &[Entry],
    cs_precedes: &[u8],
    sep_by_space: &[u8],
    sign_posn: &[u8],
) -> SignNumbers
    ensures { result ≡ sign_numbers entries.now cs_precedes.now sep_by_space.now sign_posn.now }
{
    SignNumbers {
        cs_precedes: number(entries, cs_precedes),
        sep_by_space: number(entries, sep_by_space),
        sign_posn: number(entries, sign_posn),
    }
}

/// The numbers of the local form.
pub fn local_of(entries: &[Entry]) -> FormNumbers
    ensures { result ≡ local_of entries.now }
{
    FormNumbers {
        frac_digits: number(entries, b"frac_digits"),
        plus: sign_numbers(entries, b"p_cs_precedes", b"p_sep_by_space", b"p_sign_posn"),
        minus: sign_numbers(entries, b"n_cs_precedes", b"n_sep_by_space", b"n_sign_posn"),
    }
}

/// The numbers of the international form.
pub fn international_of(entries: &[Entry]) -> FormNumbers
    ensures { result ≡ international_of entries.now }
{
    FormNumbers {
        frac_digits: number(entries, b"int_frac_digits"),
        plus: sign_numbers(
            entries,
            b"int_p_cs_precedes",
            b"int_p_sep_by_space",
            b"int_p_sign_posn",
        ),
        minus: sign_numbers(
            entries,
            b"int_n_cs_precedes",
            b"int_n_sep_by_space",
            b"int_n_sign_posn",
        ),
    }
}
