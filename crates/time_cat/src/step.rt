//! The conversions that stand in a format (XSH strftime).

ghost use Rattle.std.specs.Prelude.{◌≡◌, ◌+◌, ◌≤◌, ◌<◌, length, drop, IsTrue};
ghost use Rattle.time_cat.specs.Conversions.{conversion};
ghost use Rattle.time_cat.specs.Formats.{step, step_of, is_modifier, counted, IsStep};

use crate::conversion::{TimeConversion, conversion_of};
use crate::steps::Steps;
use std::sync::ledger::Ledger;

/// What stands at a place of a format.
#[derive(Clone, Copy)]
pub enum Step {
    /// The format ends here.
    End,
    /// A byte that stands for itself.
    Byte(u8),
    /// A conversion.
    Conv {
        /// `E`, `O` or 0.
        modifier: u8,
        letter: u8,
        rank: u8,
        /// Where the bytes behind it begin.
        next: usize,
    },
    /// A `%` that begins no conversion.
    Bad,
}

/// The step of a modifier and a letter that end before `next`.
#[inline(always)]
fn step_of(modifier: u8, letter: u8, next: usize) -> Step
    ensures { result ≡ step_of modifier letter next (conversion modifier letter) }
{
    match conversion_of(modifier, letter) {
        None => Step::Bad,
        Some(TimeConversion { rank, .. }) => Step::Conv {
            modifier,
            letter,
            rank,
            next,
        },
    }
}

/// Whether a conversion may have a letter of its own behind this one.
#[inline(always)]
fn is_modifier(letter: u8) -> bool
    ensures { result ≡ is_modifier letter }
{
    letter == b'E' || letter == b'O'
}

/// What stands at a place.
#[inline(always)]
fn read(format: &[u8], at: usize) -> Step
    requires { at ≤ length format.now }
    ensures { result ≡ step at (drop at format.now) }
{
    match &format[at..] {
        [] => Step::End,
        [b'%', rest @ ..] => match rest {
            [] => Step::Bad,
            [modifier, rest @ ..] if is_modifier(*modifier) => match rest {
                [] => Step::Bad,
                [letter, ..] => step_of(*modifier, *letter, at + 3),
            },
            [letter, ..] => step_of(0, *letter, at + 2),
        },
        [byte, ..] => Step::Byte(*byte),
    }
}

/// What stands at a place, without counting.
#[inline(always)]
pub fn step_here(format: &[u8], at: usize) -> Step
    requires { at ≤ length format.now }
    ensures exact { result ≡ step at (drop at format.now) }
    ensures stands { IsStep format.now at result }
{
    read(format, at)
}

/// What stands at a place that is not past the format's end. Counts one step exactly where it is
/// a conversion.
#[inline(always)]
pub fn step_at<L: Ledger>(format: &[u8], at: usize, steps: &mut Steps<L>) -> Step
    requires { at ≤ length format.now }
    ensures exact { result ≡ step at (drop at format.now) }
    ensures stands { IsStep format.now at result }
    ensures counted { steps.new ≡ steps.old + counted result }
{
    let step = step_here(format, at);
    if let Step::Conv { .. } = step {
        steps.tick();
    }
    step
}
