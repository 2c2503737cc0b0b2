//! What the items of nl_langinfo give.

ghost use Rattle.std.specs.Prelude.{◌≡◌, IfOk};
ghost use Rattle.langinfo.specs.Items.{info};

use crate::categories::{Categories, LentCategories};
use crate::keyword::{Keyword, keyword_of};
use ctype_classes::Ctype;
use lc_base::{ByteText, Item};
use messages_cat::Messages;
use monetary_cat::Monetary;
use numeric_cat::Numeric;
use std::alloc::{AllocError, Global};
use time_cat::Time;

/// What an item is in the locale that has these categories (XSH nl_langinfo).
///
/// Takes memory for the text alone.
pub fn nl_langinfo(
    alloc: Global,
    ctype: &Ctype,
    numeric: &Numeric,
    monetary: &Monetary,
    time: &Time,
    messages: &Messages,
    item: Item,
) -> Result<ByteText, AllocError>
    ensures { IfOk result (λ t. t ≡ info ctype.now numeric.now monetary.now time.now messages.now item) }
{
    let given = LentCategories {
        ctype,
        numeric,
        monetary,
        time,
        messages,
    };
    ByteText::of(alloc, lent_item(&given, item))
}

/// What an item is in the locale that has these categories (XSH nl_langinfo), lent by its category.
/// Takes no memory.
#[inline(always)]
pub fn lent_item<C: Categories>(from: &C, item: Item) -> &[u8]
    ensures { result.now ≡ info (C.ctype_of from.now) (C.numeric_of from.now) (C.monetary_of from.now) (C.time_of from.now) (C.messages_of from.now) item }
{
    match keyword_of(item) {
        Keyword::CodeSetName => from.ctype().codeset(),
        Keyword::Format(key) => from.time().text(key),
        Keyword::AmPm(i) => from.time().am_pm(i).as_bytes(),
        Keyword::Day(i) => from.time().day(i).as_bytes(),
        Keyword::Abday(i) => from.time().abday(i).as_bytes(),
        Keyword::Mon(i) => from.time().mon(i).as_bytes(),
        Keyword::Abmon(i) => from.time().abmon(i).as_bytes(),
        Keyword::Era => from.time().era_list(),
        Keyword::AltDigits => from.time().alt_list(),
        Keyword::DecimalPoint => from.numeric().decimal_point(),
        Keyword::ThousandsSep => from.numeric().thousands_sep(),
        Keyword::Yesexpr => from.messages().yesexpr(),
        Keyword::Noexpr => from.messages().noexpr(),
        Keyword::CurrencySymbol => from.monetary().currency_item(),
    }
}
