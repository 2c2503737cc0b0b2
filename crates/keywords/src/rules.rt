//! The rules that operands keep.

ghost use Rattle.std.specs.Prelude.{◌≡◌};
ghost use Rattle.lc_base.specs.Reading.{Gives};
ghost use Rattle.keywords.specs.Cells.{seen};
ghost use Rattle.keywords.specs.Rules.{text_fault, number_fault, fault_of, unless, operands_checked, line_checked, checked};

use crate::{Entry, Rule, ValueRef, Values, rule_of};
use lc_base::{Category, Place, Reason, TextFault};

/// The rule that a text breaks. A rule that its category looks at itself is broken by no text here.
pub fn text_fault(rule: Rule, text: &[u8]) -> Option<Reason>
    ensures { result ≡ text_fault rule text.now }
{
    match rule {
        Rule::NotEmpty if text.is_empty() => Some(Reason::EmptyRadix),
        Rule::EmptyOrFour => match text.len() {
            0 | 4 => None,
            _ => Some(Reason::BadCurrency),
        },
        _ => None,
    }
}

/// The rule that a number breaks.
fn number_fault(rule: Rule, n: i32) -> Option<Reason>
    ensures { result ≡ number_fault rule n }
{
    match rule {
        Rule::Between(low, high) if n < low || n > high => Some(Reason::BadNumber),
        _ => None,
    }
}

/// The rule that an operand breaks.
fn fault_of(rule: Rule, value: ValueRef) -> Option<Reason>
    ensures { result ≡ fault_of rule (seen value.entry) }
{
    match value {
        ValueRef::Text(text) => text_fault(rule, text),
        ValueRef::Number(n) => number_fault(rule, n),
        ValueRef::Chars(_, _) | ValueRef::Pair(_, _) => None,
    }
}

/// Nothing, or what is wrong at a place.
pub fn unless(place: Place, reason: Option<Reason>) -> Result<(), TextFault>
    ensures { Gives (λ _. tt) result (unless place reason) }
{
    match reason {
        None => Ok(()),
        Some(reason) => Err(TextFault::At(place, reason)),
    }
}

/// Checks the operands of a line, from left to right.
pub fn check_operands(rule: Rule, values: &Values) -> Result<(), TextFault>
    ensures { Gives (λ _. tt) result (operands_checked rule values.now) }
{
    let mut walk = values.walk();
    while let Some((place, value)) = walk.next() {
        unless(place, fault_of(rule, value))?;
    }
    Ok(())
}

/// Checks a line.
fn check_line(category: Category, entry: &Entry) -> Result<(), TextFault>
    ensures { Gives (λ _. tt) result (line_checked category entry.now) }
{
    match rule_of(category, entry.keyword.as_bytes()) {
        None => Ok(()),
        Some(rule) => check_operands(rule, &entry.values),
    }
}

/// Checks the operands of a category's keywords, in the order of lines and in a line in the order
/// of operands.
pub fn check(category: Category, entries: &[Entry]) -> Result<(), TextFault>
    ensures { Gives (λ _. tt) result (checked category entries.now) }
{
    for entry in entries {
        check_line(category, entry)?;
    }
    Ok(())
}
