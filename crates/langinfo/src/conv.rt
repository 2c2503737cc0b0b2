//! The fields of localeconv's structure (XSH localeconv, XBD <locale.h>).

ghost use Rattle.std.specs.Prelude.{◌≡◌, ◌<◌, Some, slice_get, IfOk};
ghost use Rattle.std.specs.Option.{option_copied};
ghost use Rattle.monetary_cat.specs.Monetary.{number_of};
ghost use Rattle.keywords.specs.LconvChars.{encoded};
ghost use Rattle.langinfo.specs.declared.conv.TheConstants.{CONV_TEXTS};
ghost use Rattle.langinfo.specs.Conv.{bare_numbers, bare_texts, conv, number_fields, text_fields};
ghost use Rattle.langinfo.specs.Lent.{lconv_of, owned_numbers, owned_text, owned_texts};

use crate::categories::Categories;
use crate::field::LentText::{Bytes, Sizes};
use crate::field::{ConvText, FieldName, LentText};
use keywords::encoded;
use lc_base::{ByteText, List};
use monetary_cat::MonNumber::{
    FracDigits, IntFracDigits, IntNCsPrecedes, IntNSepBySpace, IntNSignPosn, IntPCsPrecedes,
    IntPSepBySpace, IntPSignPosn, NCsPrecedes, NSepBySpace, NSignPosn, PCsPrecedes, PSepBySpace,
    PSignPosn,
};
use monetary_cat::MonText::{
    CurrencySymbol, IntCurrSymbol, MonDecimalPoint, MonThousandsSep, NegativeSign, PositiveSign,
};
use monetary_cat::{MonNumber, Monetary};
use numeric_cat::Numeric;
use std::alloc::{AllocError, Global};

/// The number of fields that are texts.
pub const CONV_TEXTS: usize = 10;

/// The number of fields that are numbers.
pub const CONV_NUMBERS: usize = 14;

/// How numbers and amounts are written: the fields that are texts and those that are numbers, each
/// with its name, in the order of the standard's page.
///
/// In a number 127 (`CHAR_MAX`) says that the locale does not tell it. The bytes of a grouping are
/// the sizes of groups, the first next to the radix; the last counts for all that are left, or none
/// is left to be grouped where it is 127.
pub struct Lconv {
    pub texts: List<(FieldName, ConvText)>,
    pub numbers: List<(FieldName, u8)>,
}

impl Drop for Lconv {
    fn drop(self) {
        let Lconv {
            texts: _,
            numbers: _,
        } = self;
    }
}

/// The fields of localeconv with their names, the texts lent by the categories.
#[derive(Drop)]
pub struct LentConv<'a> {
    pub texts: [(&'a [u8], LentText<'a>); CONV_TEXTS],
    pub numbers: [(&'a [u8], u8); CONV_NUMBERS],
}

/// How numbers and amounts are written in the locale that has these categories (XSH localeconv).
pub fn localeconv(
    alloc: Global,
    numeric: &Numeric,
    monetary: &Monetary,
) -> Result<Lconv, AllocError>
    ensures { IfOk result (λ l. l ≡ conv numeric.now monetary.now) }
{
    let texts = owned_texts(alloc, &text_fields(numeric, monetary))?;
    let numbers = owned_numbers(alloc, &number_fields(monetary))?;
    Ok(Lconv {
        texts: List::of(texts),
        numbers: List::of(numbers),
    })
}

/// Texts of their own, each with its name.
fn owned_texts(
    alloc: Global,
    lent: &[(&'static [u8], LentText<'_>)],
) -> Result<Vec<(FieldName, ConvText)>, AllocError>
    ensures { IfOk result (λ fields. fields.items ≡ owned_texts lent.entry.now) }
{
    let mut fields = Vec::with_capacity(alloc, lent.len())?;
    for (name, text) in lent {
        fields.push((FieldName(name), owned_text(alloc, text)?))?;
    }
    Ok(fields)
}

/// Numbers, each with its name.
fn owned_numbers(
    alloc: Global,
    lent: &[(&'static [u8], u8)],
) -> Result<Vec<(FieldName, u8)>, AllocError>
    ensures { IfOk result (λ fields. fields.items ≡ owned_numbers lent.entry.now) }
{
    let mut fields = Vec::with_capacity(alloc, lent.len())?;
    for (name, number) in lent {
        fields.push((FieldName(name), *number))?;
    }
    Ok(fields)
}

/// A text of its own.
fn owned_text(alloc: Global, lent: &LentText<'_>) -> Result<ConvText, AllocError>
    ensures { IfOk result (λ text. text ≡ owned_text lent.now) }
{
    match lent {
        Bytes(bytes) => Ok(ConvText::Bytes(ByteText::of(alloc, bytes)?)),
        Sizes(sizes) => Ok(ConvText::Sizes(ByteText::of(alloc, sizes)?)),
    }
}

/// The fields of localeconv in the locale that has these categories, which lend them.
pub fn lent_conv<'a>(numeric: &'a Numeric, monetary: &'a Monetary) -> LentConv<'a>
    ensures { lconv_of result ≡ conv numeric.now monetary.now }
{
    let texts = text_fields(numeric, monetary);
    let numbers = number_fields(monetary);
    LentConv { texts, numbers }
}

/// The text of a field of localeconv by its number, in the order of the standard's page, in the locale
/// that has these categories. Its category lends it, as C has it. Takes no memory.
#[inline(always)]
#[tactic(auto, using(crate::proofs::FieldLemmas::text_alone, crate::proofs::FieldLemmas::no_text))]
pub fn lent_conv_text<C: Categories>(from: &C, number: usize) -> Option<&[u8]>
    ensures { option_copied result ≡ slice_get (bare_texts (conv (C.numeric_of from.now) (C.monetary_of from.now)).texts) number }
{
    if number < CONV_TEXTS {
        let (_, text) = text_field(from.numeric(), from.monetary(), number);
        Some(text.as_bytes())
    } else {
        None
    }
}

/// The fields of localeconv that are numbers, in the order of the standard's page. Takes no memory.
#[inline(always)]
pub fn lent_conv_numbers(monetary: &Monetary) -> [u8; CONV_NUMBERS]
    ensures { result ≡ bare_numbers (number_fields monetary.now) }
{
    let fields = number_fields(monetary);
    let mut numbers = [0; CONV_NUMBERS];
    for i in 0..CONV_NUMBERS {
        numbers[i] = fields[i].1;
    }
    numbers
}

/// The fields that are texts, each with its name in C and the value of its keyword.
fn text_fields<'n, 'a>(
    numeric: &'a Numeric,
    monetary: &'a Monetary,
) -> [(&'n [u8], LentText<'a>); CONV_TEXTS]
    ensures { owned_texts result ≡ text_fields numeric.now monetary.now }
{
    let mut fields = [text_field(numeric, monetary, 0); CONV_TEXTS];
    for i in 1..CONV_TEXTS {
        fields[i] = text_field(numeric, monetary, i);
    }
    fields
}

/// A field that is a text by its number: its name in C and the value of its keyword.
#[inline(always)]
fn text_field<'n, 'a>(
    numeric: &'a Numeric,
    monetary: &'a Monetary,
    number: usize,
) -> (&'n [u8], LentText<'a>)
    requires { number < CONV_TEXTS }
    ensures { slice_get (text_fields numeric.now monetary.now) number ≡ Some (result.0.now, owned_text result.1) }
{
    match number {
        0 => (b"decimal_point", Bytes(numeric.decimal_point())),
        1 => (b"thousands_sep", Bytes(numeric.thousands_sep())),
        2 => (b"grouping", Sizes(numeric.group_chars())),
        3 => (b"int_curr_symbol", Bytes(monetary.text(IntCurrSymbol))),
        4 => (b"currency_symbol", Bytes(monetary.text(CurrencySymbol))),
        5 => (b"mon_decimal_point", Bytes(monetary.text(MonDecimalPoint))),
        6 => (b"mon_thousands_sep", Bytes(monetary.text(MonThousandsSep))),
        7 => (b"mon_grouping", Sizes(monetary.group_chars())),
        8 => (b"positive_sign", Bytes(monetary.text(PositiveSign))),
        9 => (b"negative_sign", Bytes(monetary.text(NegativeSign))),
        _ => unreachable!(),
    }
}

/// The fields that are numbers, each with its name in C and the value of its keyword.
#[inline(always)]
fn number_fields<'n>(monetary: &Monetary) -> [(&'n [u8], u8); CONV_NUMBERS]
    ensures { owned_numbers result ≡ number_fields monetary.now }
{
    [
        (b"int_frac_digits", number(monetary, IntFracDigits)),
        (b"frac_digits", number(monetary, FracDigits)),
        (b"p_cs_precedes", number(monetary, PCsPrecedes)),
        (b"p_sep_by_space", number(monetary, PSepBySpace)),
        (b"n_cs_precedes", number(monetary, NCsPrecedes)),
        (b"n_sep_by_space", number(monetary, NSepBySpace)),
        (b"p_sign_posn", number(monetary, PSignPosn)),
        (b"n_sign_posn", number(monetary, NSignPosn)),
        (b"int_p_cs_precedes", number(monetary, IntPCsPrecedes)),
        (b"int_n_cs_precedes", number(monetary, IntNCsPrecedes)),
        (b"int_p_sep_by_space", number(monetary, IntPSepBySpace)),
        (b"int_n_sep_by_space", number(monetary, IntNSepBySpace)),
        (b"int_p_sign_posn", number(monetary, IntPSignPosn)),
        (b"int_n_sign_posn", number(monetary, IntNSignPosn)),
    ]
}

/// The number of a keyword.
fn number(monetary: &Monetary, key: MonNumber) -> u8
    ensures { result ≡ encoded (number_of monetary.now key) }
{
    encoded(monetary.number(key))
}
