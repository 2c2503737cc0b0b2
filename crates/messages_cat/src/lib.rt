//! The locale category `LC_MESSAGES` (XBD 7.3.6).
#![tactic(auto)]

ghost use Rattle.std.specs.Prelude.{◌≡◌, IfOk};
ghost use Rattle.lc_base.specs.Reading.{Gives};
ghost use Rattle.messages_cat.specs.Messages.{messages_values, values_of, posix_values};

use keywords::{Entry, check, text_value};
use lc_base::{ByteText, Category, List, TextFault};
use std::alloc::{AllocError, Global};
use std::marker::Model;

/// The values of the keywords of `LC_MESSAGES`, of the locale or else of the POSIX locale.
pub struct Messages {
    yesexpr: ByteText,
    noexpr: ByteText,
}

impl Drop for Messages {
    fn drop(self) {
        let Messages {
            yesexpr: _,
            noexpr: _,
        } = self;
    }
}

impl Model for Messages {
    ghost use Rattle.messages_cat.specs.MessagesValues.{MessagesValues};

    ghost Value = { MessagesValues };

    ghost view = { λ m. record { yesexpr = m.yesexpr; noexpr = m.noexpr } };
}

impl Messages {
    /// The category that a keyword list defines. A keyword that is absent has its POSIX value.
    ///
    /// The rules of its rows are kept. The table has none for them, so it is refused for want of
    /// memory alone.
    pub fn build(alloc: Global, entries: &List<Entry>) -> Result<Messages, TextFault>
        ensures { Gives (λ m. m) result (messages_values entries.now) }
    {
        check(Category::Messages, entries.as_slice())?;
        Ok(values_of(alloc, entries.as_slice())?)
    }

    /// The category of the POSIX locale.
    pub fn posix(alloc: Global) -> Result<Messages, AllocError>
        ensures { IfOk result (λ m. m ≡ posix_values) }
    {
        values_of(alloc, &[])
    }

    /// The extended regular expression of an answer that says yes.
    pub fn yesexpr(&self) -> &[u8]
        ensures { result.now ≡ self.now.yesexpr }
    {
        self.yesexpr.as_bytes()
    }

    /// The extended regular expression of an answer that says no.
    pub fn noexpr(&self) -> &[u8]
        ensures { result.now ≡ self.now.noexpr }
    {
        self.noexpr.as_bytes()
    }
}

/// The values that a keyword list gives, good or not.
fn values_of(alloc: Global, entries: &[Entry]) -> Result<Messages, AllocError>
    ensures { IfOk result (λ m. m ≡ values_of entries.now) }
{
    Ok(Messages {
        yesexpr: text_value(alloc, Category::Messages, entries, b"yesexpr")?,
        noexpr: text_value(alloc, Category::Messages, entries, b"noexpr")?,
    })
}
