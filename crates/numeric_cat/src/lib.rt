//! The locale category `LC_NUMERIC` (XBD 7.3.4).
#![tactic(auto)]

ghost use Rattle.std.specs.Prelude.{◌≡◌, IfOk};
ghost use Rattle.lc_base.specs.Reading.{Gives};
ghost use Rattle.keywords.specs.LconvChars.{groups};
ghost use Rattle.numeric_cat.specs.Numeric.{values_of, numeric_values, posix_values};

use keywords::{Entry, check, group_chars, numbers_value, text_value};
use lc_base::{ByteText, Category, List, TextFault};
use std::alloc::{AllocError, Global};
use std::marker::Model;

/// The values of the keywords of `LC_NUMERIC`, of the locale or else of the POSIX locale.
pub struct Numeric {
    decimal_point: ByteText,
    thousands_sep: ByteText,
    grouping: List<i32>,
    group_chars: ByteText,
}

impl Drop for Numeric {
    fn drop(self) {
        let Numeric {
            decimal_point: _,
            thousands_sep: _,
            grouping: _,
            group_chars: _,
        } = self;
    }
}

impl Model for Numeric {
    ghost use Rattle.std.specs.Prelude.{◌≡◌};
    ghost use Rattle.keywords.specs.LconvChars.{groups};
    ghost use Rattle.numeric_cat.specs.NumericValues.{NumericValues};

    ghost Value = { NumericValues };

    ghost view = { λ n. record {
      decimal_point = n.decimal_point;
      thousands_sep = n.thousands_sep;
      grouping = n.grouping;
    } };

    ghost invariant = { λ n. n.group_chars ≡ groups n.grouping };
}

impl Numeric {
    /// The category that a keyword list defines. A keyword that is absent has its POSIX value.
    ///
    /// Refused, at the operand, with `EmptyRadix` where decimal_point is empty and with `BadNumber`
    /// where a number of grouping is not from -1 to 126.
    pub fn build(alloc: Global, entries: &List<Entry>) -> Result<Numeric, TextFault>
        ensures { Gives (λ n. n) result (numeric_values entries.now) }
    {
        check(Category::Numeric, entries.as_slice())?;
        Ok(values_of(alloc, entries.as_slice())?)
    }

    /// The category of the POSIX locale.
    pub fn posix(alloc: Global) -> Result<Numeric, AllocError>
        ensures { IfOk result (λ n. n ≡ posix_values) }
    {
        values_of(alloc, &[])
    }

    /// The radix character: what stands between the whole digits and the fraction.
    pub fn decimal_point(&self) -> &[u8]
        ensures { result.now ≡ self.now.decimal_point }
    {
        self.decimal_point.as_bytes()
    }

    /// What stands between groups of whole digits.
    pub fn thousands_sep(&self) -> &[u8]
        ensures { result.now ≡ self.now.thousands_sep }
    {
        self.thousands_sep.as_bytes()
    }

    /// The sizes of groups, the first next to the radix, each from -1 to 126.
    pub fn grouping(&self) -> &[i32]
        ensures { result.now ≡ self.now.grouping }
    {
        self.grouping.as_slice()
    }

    /// The sizes of groups that count, each a char (XSH localeconv).
    pub fn group_chars(&self) -> &[u8]
        ensures { result.now ≡ groups self.now.grouping }
    {
        self.group_chars.as_bytes()
    }
}

/// The values that a keyword list gives, good or not.
fn values_of(alloc: Global, entries: &[Entry]) -> Result<Numeric, AllocError>
    ensures { IfOk result (λ n. n ≡ values_of entries.now) }
{
    let grouping = numbers_value(alloc, Category::Numeric, entries, b"grouping")?;
    let group_chars = group_chars(alloc, grouping.as_slice())?;
    Ok(Numeric {
        decimal_point: text_value(alloc, Category::Numeric, entries, b"decimal_point")?,
        thousands_sep: text_value(alloc, Category::Numeric, entries, b"thousands_sep")?,
        grouping,
        group_chars,
    })
}
