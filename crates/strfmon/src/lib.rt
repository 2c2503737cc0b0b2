//! Amounts of money as text (XSH strfmon).
#![tactic(auto)]

ghost use Rattle.std.specs.Prelude.{◌≡◌, [], OnErr};
ghost use Rattle.text_buffer.specs.Written.{Written};
ghost use Rattle.strfmon.specs.Money.{money, money_text, Answers};

mod cells;
mod decimal;
mod fault;
mod format;
mod layout;
mod look;
mod write;

use digit_groups::{FormatConversion, format_into, write_format};
pub use fault::MoneyFault;
use format::{MoneyConversion, quick_conversion};
pub use lc_base::Amount;
use lc_base::{ByteText, FormatRefusal};
use monetary_cat::Monetary;
use std::alloc::Global;
use text_buffer::Unwritten;
use write::{put_amount, width_of};

/// How many bytes a text has at first room for beyond those of its format, and once more for each
/// amount.
const SPARE: usize = 16;

/// The text of a format with its amounts, at most `max` bytes. Amounts that are left over are passed
/// over.
///
/// A conversion is `%`, flags, a width, `#n`, `.p`, and `n` or `i`. A `%` that begins no conversion is
/// `BadFormat`, and goes before a conversion without an amount, which is `MissingAmount`; both go
/// before `TooBig`.
pub fn strfmon(
    alloc: Global,
    m: &Monetary,
    format: &[u8],
    amounts: &[Amount],
    max: usize,
) -> Result<ByteText, MoneyFault>
    ensures { Answers (λ text. text) result (money m.now format.now amounts.now max) }
{
    let mut text = Vec::with_capacity(alloc, first_room(format, amounts.len(), max))?;
    match strfmon_into(&mut text, m, format, amounts, max) {
        Ok(()) => Ok(ByteText::from_vec(text)),
        Err(fault) => Err(fault),
    }
}

/// Puts the same text in place of what a `Vec` holds, whose memory is used again. The `Vec` is empty
/// where there is no text.
#[tactic(auto, using(crate::proofs::MoneyLemmas::any_amount))]
pub fn strfmon_into(
    out: &mut Vec<u8>,
    m: &Monetary,
    format: &[u8],
    amounts: &[Amount],
    max: usize,
) -> Result<(), MoneyFault>
    ensures answer { Answers (λ _. out.new.items) result (money m.now format.now amounts.now max) }
    ensures emptied { OnErr result (out.new.items ≡ []) }
{
    let room = first_room(format, amounts.len(), max);
    match format_into::<MoneyConversion>(out, m, format, amounts, room, max) {
        Ok(()) => Ok(()),
        Err(fault) => {
            out.clear();
            Err(MoneyFault::from(fault))
        }
    }
}

/// Writes the text of a format with its amounts, however long, to the front of a buffer, and says how
/// many bytes it has. No memory is asked for.
///
/// The refusals are those of [`strfmon`], and go before `TooSmall`, which tells the length of the text.
/// Behind the text, and everywhere where there is none, the buffer is as before.
#[tactic(auto, using(crate::proofs::MoneyLemmas::any_amount))]
#[inline(always)]
pub fn strfmon_to(
    buffer: &mut [u8],
    m: &Monetary,
    format: &[u8],
    amounts: &[Amount],
) -> Result<usize, Unwritten>
    ensures { Written buffer.old buffer.new result (money_text m.now format.now amounts.now) }
{
    write_format::<MoneyConversion>(buffer, m, format, amounts)
}

/// How many bytes a text of a format with so many amounts has at first room for. A conversion has two
/// bytes at least, so more amounts than half the format's bytes are left over.
#[inline(always)]
fn first_room(format: &[u8], amounts: usize, max: usize) -> usize {
    let written = amounts.min(format.len() / 2).saturating_add(1);
    format
        .len()
        .saturating_add(written.saturating_mul(SPARE))
        .min(max)
}

impl FormatConversion for MoneyConversion {
    ghost use Rattle.std.specs.Prelude.{true};
    ghost use Rattle.lc_base.specs.declared.refusal.FormatRefusal.TheVariants.{MissingAmount};
    ghost use Rattle.strfmon.specs.Formats.{conversion};
    ghost use Rattle.strfmon.specs.Money.{conversion_text};

    type Category = Monetary;

    type Value = Amount;

    ghost conversion = { conversion };

    ghost text = { conversion_text };

    ghost is_value = { λ _. true };

    ghost lacks = { λ at. MissingAmount at };

    #[inline(always)]
    fn read(bytes: &[u8]) -> Option<(MoneyConversion, usize)> {
        quick_conversion(bytes)
    }

    fn lacking(at: usize) -> FormatRefusal {
        FormatRefusal::MissingAmount { at }
    }

    #[inline(always)]
    fn width(&self, category: &Monetary, value: Amount) -> u128 {
        width_of(category, self, value)
    }

    #[inline(always)]
    fn put(&self, target: &mut [u8], category: &Monetary, value: Amount) -> u128 {
        put_amount(target, category, self, value)
    }
}
