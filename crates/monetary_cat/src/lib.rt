//! The locale category `LC_MONETARY` (XBD 7.3.3).
#![tactic(auto)]

ghost use Rattle.std.specs.Prelude.{◌≡◌, IfOk};
ghost use Rattle.lc_base.specs.Reading.{Gives};
ghost use Rattle.keywords.specs.LconvChars.{groups};
ghost use Rattle.monetary_cat.specs.Currency.{currency};
ghost use Rattle.monetary_cat.specs.Monetary.{monetary_values, number_of, posix_values, text_of, values_of};
ghost use Rattle.monetary_cat.specs.declared.keys.MonNumber.TheVariants as numbers;
ghost use Rattle.monetary_cat.specs.declared.keys.MonText.TheVariants as texts;

use keywords::{Entry, check, group_chars, numbers_value};
use lc_base::{ByteText, Category, List, TextFault};
use std::alloc::{AllocError, Global};
use std::marker::Model;

mod currency;
mod keys;

use currency::currency;
pub use keys::{MonNumber, MonText};
use keys::{FormNumbers, MoneyTexts, international_of, local_of, texts_of};

/// The values of the keywords of `LC_MONETARY`, of the locale or else of the POSIX locale.
pub struct Monetary {
    texts: MoneyTexts,
    mon_grouping: List<i32>,
    local: FormNumbers,
    international: FormNumbers,
    currency_item: ByteText,
    group_chars: ByteText,
}

impl Drop for Monetary {
    fn drop(self) {
        let Monetary {
            texts: _,
            mon_grouping: _,
            local: _,
            international: _,
            currency_item: _,
            group_chars: _,
        } = self;
    }
}

impl Model for Monetary {
    ghost use Rattle.monetary_cat.specs.Monetary.{MonetaryValues};

    ghost Value = { MonetaryValues };

    ghost view = { λ m. record {
      texts = m.texts;
      mon_grouping = m.mon_grouping;
      local = m.local;
      international = m.international;
    } };

    ghost use Rattle.monetary_cat.specs.Kept.{IsKept};

    ghost invariant = { IsKept };
}

impl Monetary {
    /// The category that a keyword list defines. A keyword that is absent has its POSIX value: an
    /// empty text, or -1.
    ///
    /// Refused, at the operand, with `BadCurrency` where int_curr_symbol has neither 0 nor 4 bytes and
    /// with `BadNumber` where a number is out of its range.
    pub fn build(alloc: Global, entries: &List<Entry>) -> Result<Monetary, TextFault>
        ensures { Gives (λ m. m) result (monetary_values entries.now) }
    {
        check(Category::Monetary, entries.as_slice())?;
        Ok(values_of(alloc, entries.as_slice())?)
    }

    /// The category of the POSIX locale.
    pub fn posix(alloc: Global) -> Result<Monetary, AllocError>
        ensures { IfOk result (λ m. m ≡ posix_values) }
    {
        values_of(alloc, &[])
    }

    /// The sizes of groups, the first next to the radix, each from -1 to 126.
    pub fn grouping(&self) -> &[i32]
        ensures { result.now ≡ self.now.mon_grouping }
    {
        self.mon_grouping.as_slice()
    }

    /// The sizes of groups that count, each a char (XSH localeconv).
    pub fn group_chars(&self) -> &[u8]
        ensures { result.now ≡ groups self.now.mon_grouping }
    {
        self.group_chars.as_bytes()
    }

    /// The currency symbol behind a sign that says where it stands: `+` where it follows the number,
    /// else `-`. Empty where there is no symbol (XSH nl_langinfo, `CRNCYSTR`).
    pub fn currency_item(&self) -> &[u8]
        ensures { result.now ≡ currency (number_of self.now numbers.PCsPrecedes) (text_of self.now texts.CurrencySymbol) }
    {
        self.currency_item.as_bytes()
    }
}

/// The values that a keyword list gives, good or not.
fn values_of(alloc: Global, entries: &[Entry]) -> Result<Monetary, AllocError>
    ensures { IfOk result (λ m. m ≡ values_of entries.now) }
{
    let texts = texts_of(alloc, entries)?;
    let local = local_of(entries);
    let currency_item = currency(
        alloc,
        local.plus.cs_precedes,
        texts.currency_symbol.as_bytes(),
    )?;
    let mon_grouping = numbers_value(alloc, Category::Monetary, entries, b"mon_grouping")?;
    let group_chars = group_chars(alloc, mon_grouping.as_slice())?;
    Ok(Monetary {
        texts,
        mon_grouping,
        local,
        international: international_of(entries),
        currency_item,
        group_chars,
    })
}
