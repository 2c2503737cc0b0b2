//! Texts that a locale gives, put into buffers of the caller.

ghost use Rattle.std.specs.Prelude.{◌≡◌, true, map, take};
ghost use Rattle.std.specs.List.{list_all};
ghost use Rattle.int_format.specs.Ints.{is_number, ints};
ghost use Rattle.shared_objects.specs.Objects.{numeric_in, monetary_in, time_in};
ghost use Rattle.strfmon.specs.Money.{money_text};
ghost use Rattle.strftime_fields.specs.Answers.{whole_answer};
ghost use Rattle.strftime_fields.specs.Zones.{in_zone};
ghost use Rattle.c_values.specs.Items.{item_of};
ghost use Rattle.c_values.specs.Conv.{conv_text};
ghost use Rattle.c_values.specs.Answers.{amount_of, most, item_told, conv_told, amounts_told, tm_given, tm_told, text_told, numbers_told};

use crate::amounts::{LobjAmount, MOST, amount_of, amounts_given, are_scaled};
use crate::answer::{BAD_AMOUNT, LobjAnswer, NO_ITEM, TM_RANGE, answered};
use crate::buffer::{close, put_text};
use crate::items::item_of;
use crate::numbers::numbers_given;
use crate::times::{LobjTm, field_number, tm_given};
use shared_objects::View;
use std::alloc::Global;
use strfmon::Amount;
use strftime_fields::Tm;

/// Puts the text of an item into a buffer.
#[inline(always)]
pub fn put_item(buffer: &mut [u8], view: &View<'_>, number: u32) -> LobjAnswer
    ensures { (result, buffer.new) ≡ item_told buffer.old view.now (item_of number) }
{
    match item_of(number) {
        None => answered(NO_ITEM, 0),
        Some(item) => put_text(buffer, view.item(item)),
    }
}

/// Puts a text of localeconv into a buffer.
pub fn put_conv_text(buffer: &mut [u8], view: &View<'_>, number: u32) -> LobjAnswer
    ensures { (result, buffer.new) ≡ conv_told buffer.old (conv_text view.now number) }
{
    match view.conv_text(number) {
        None => answered(NO_ITEM, 0),
        Some(text) => put_text(buffer, text),
    }
}

/// Puts the text of amounts that strfmon takes into a buffer.
#[tactic(auto, using(crate::proofs::BufferLemmas::closing))]
fn put_money(buffer: &mut [u8], view: &View<'_>, format: &[u8], amounts: &[Amount]) -> LobjAnswer
    ensures { (result, buffer.new) ≡ text_told buffer.old (money_text (monetary_in view.now) format.now amounts.now) }
{
    let room = buffer.len().saturating_sub(1);
    let written = view.strfmon_to(&mut buffer[..room], format, amounts);
    close(buffer, written)
}

/// Puts the text of the first amounts of a list into a buffer.
#[inline(never)]
fn put_many_amounts(
    buffer: &mut [u8],
    view: &View<'_>,
    format: &[u8],
    amounts: &[LobjAmount],
) -> LobjAnswer
    ensures { (result, buffer.new) ≡ text_told buffer.old (money_text (monetary_in view.now) format.now (map amount_of (take most amounts.now))) }
{
    let first = &amounts[..amounts.len().min(MOST)];
    let given = amounts_given(first);
    put_money(buffer, view, format, &given[..first.len()])
}

/// Puts the text of amounts into a buffer. A single one is not copied into an array of as many as there may be.
pub fn put_amounts(
    buffer: &mut [u8],
    view: &View<'_>,
    format: &[u8],
    amounts: &[LobjAmount],
) -> LobjAnswer
    ensures { (result, buffer.new) ≡ amounts_told buffer.old view.now format.now amounts.now }
{
    if !are_scaled(amounts) {
        return answered(BAD_AMOUNT, 0);
    }
    match amounts {
        [amount] => put_money(buffer, view, format, &[amount_of(*amount)]),
        _ => put_many_amounts(buffer, view, format, amounts),
    }
}

/// Puts the text of a time that strftime takes into a buffer.
#[tactic(auto, using(crate::proofs::BufferLemmas::closing))]
fn put_time(buffer: &mut [u8], view: &View<'_>, format: &[u8], tm: &Tm, zone: &[u8]) -> LobjAnswer
    ensures { (result, buffer.new) ≡ text_told buffer.old (whole_answer (time_in view.now) (in_zone tm.now zone.now) format.now) }
{
    let room = buffer.len().saturating_sub(1);
    let written = view.strftime_to(&mut buffer[..room], format, tm, zone);
    close(buffer, written)
}

/// Puts the text of a time into a buffer.
pub fn put_tm(
    alloc: Global,
    buffer: &mut [u8],
    view: &View<'_>,
    format: &[u8],
    tm: &LobjTm,
    zone: &[u8],
) -> LobjAnswer
    ensures { (result, buffer.new) ≡ tm_told buffer.old view.now format.now zone.now (tm_given tm.now) }
{
    match tm_given(alloc, tm) {
        Ok(tm) => put_time(buffer, view, format, &tm, zone),
        Err(range) => answered(TM_RANGE, field_number(range.field)),
    }
}

/// Puts the text of whole numbers that int_format takes into a buffer.
#[tactic(auto, using(crate::proofs::BufferLemmas::closing))]
fn put_ints(buffer: &mut [u8], view: &View<'_>, format: &[u8], numbers: &[i128]) -> LobjAnswer
    requires { list_all is_number numbers.now ≡ true }
    ensures { (result, buffer.new) ≡ text_told buffer.old (ints (numeric_in view.now) format.now numbers.now) }
{
    let room = buffer.len().saturating_sub(1);
    let written = view.int_format_to(&mut buffer[..room], format, numbers);
    close(buffer, written)
}

/// Puts the text of the first whole numbers of a list into a buffer.
#[inline(never)]
fn put_many_numbers(
    buffer: &mut [u8],
    view: &View<'_>,
    format: &[u8],
    numbers: &[i64],
) -> LobjAnswer
    ensures { (result, buffer.new) ≡ numbers_told buffer.old view.now format.now numbers.now }
{
    let first = &numbers[..numbers.len().min(MOST)];
    let given = numbers_given(first);
    put_ints(buffer, view, format, &given[..first.len()])
}

/// Puts the text of whole numbers into a buffer. A single one is not copied into an array of as many as there may be.
pub fn put_numbers(buffer: &mut [u8], view: &View<'_>, format: &[u8], numbers: &[i64]) -> LobjAnswer
    ensures { (result, buffer.new) ≡ numbers_told buffer.old view.now format.now numbers.now }
{
    match numbers {
        [number] => put_ints(buffer, view, format, &[i128::from(*number)]),
        _ => put_many_numbers(buffer, view, format, numbers),
    }
}
