//! What the keywords of locale sources take, in words made from their rows.

use itoa::Buffer;
use keywords::{Element, Operands, Rule, rule_of, takes_of};
use lc_base::{CATEGORIES, push_number};
use std::alloc::AllocError;

/// What a keyword takes.
#[derive(Clone, Copy)]
pub struct Wanted {
    takes: Operands,
    rule: Rule,
}

impl Wanted {
    /// Whether a keyword takes one operand.
    pub fn is_one(&self) -> bool {
        match self.takes {
            Operands::Copied | Operands::One(_) => true,
            Operands::Characters | Operands::Several(_) | Operands::PassedOver => false,
        }
    }
}

/// What a keyword takes; `None` where no category has it, or where its operands are not read.
pub fn wanted_of(keyword: &[u8]) -> Option<Wanted> {
    for category in CATEGORIES.iter() {
        match (takes_of(*category, keyword), rule_of(*category, keyword)) {
            (Some(Operands::PassedOver), _) => {}
            (Some(takes), Some(rule)) => return Some(Wanted { takes, rule }),
            _ => {}
        }
    }
    None
}

/// Adds in words what a keyword takes.
pub fn push_wanted(out: &mut Vec<u8>, wanted: Wanted) -> Result<(), AllocError> {
    match wanted.takes {
        Operands::Copied => out.extend_from_slice(b"one name of a locale"),
        Operands::Characters => {
            out.extend_from_slice(b"characters and ranges, as A;...;Z, without quotes")
        }
        Operands::One(element) => {
            out.extend_from_slice(b"one ")?;
            out.extend_from_slice(one_word(element, wanted.rule))?;
            push_form(out, element, wanted.rule)
        }
        Operands::Several(element) => {
            push_operand_count(out, wanted.rule)?;
            out.extend_from_slice(several_word(element, wanted.rule))?;
            push_form(out, element, wanted.rule)
        }
        Operands::PassedOver => out.extend_from_slice(b"anything"),
    }
}

/// What one operand is called.
fn one_word(element: Element, rule: Rule) -> &'static [u8] {
    match (element, rule) {
        (Element::CasePair, _) => b"pair",
        (Element::Word, _) => b"name",
        (Element::Quote, Rule::Format(_)) => b"format",
        (Element::Quote, _) => b"text",
        (Element::Whole, _) => b"number",
    }
}

/// What several operands are called.
fn several_word(element: Element, rule: Rule) -> &'static [u8] {
    match (element, rule) {
        (Element::CasePair, _) => b"pairs",
        (Element::Word, _) => b"names",
        (Element::Quote, Rule::Format(_)) => b"formats",
        (Element::Quote, _) => b"texts",
        (Element::Whole, _) => b"numbers",
    }
}

/// Adds how many operands a rule wants, if it says so.
fn push_operand_count(out: &mut Vec<u8>, rule: Rule) -> Result<(), AllocError> {
    match rule {
        Rule::Names(count) => {
            push_number(out, count as u128)?;
            out.extend_from_slice(b" ")
        }
        Rule::Digits => out.extend_from_slice(b"at most 100 "),
        _ => Ok(()),
    }
}

/// Adds how an operand is written, with what a rule wants of it.
fn push_form(out: &mut Vec<u8>, element: Element, rule: Rule) -> Result<(), AllocError> {
    match element {
        Element::CasePair => {
            out.extend_from_slice(b" of characters, as (a,A)")?;
            push_rule(out, rule)?;
            out.extend_from_slice(b", without quotes")
        }
        Element::Word => push_rule(out, rule),
        Element::Quote => {
            out.extend_from_slice(b" in quotes")?;
            push_rule(out, rule)
        }
        Element::Whole => {
            push_rule(out, rule)?;
            out.extend_from_slice(b", without quotes")
        }
    }
}

/// Adds what a rule wants of an operand, if that is not its number or its name.
fn push_rule(out: &mut Vec<u8>, rule: Rule) -> Result<(), AllocError> {
    match rule {
        Rule::NotEmpty => out.extend_from_slice(b", which is not empty"),
        Rule::EmptyOrFour => out.extend_from_slice(b", of 0 or 4 bytes"),
        Rule::Between(least, most) => {
            out.extend_from_slice(b" from ")?;
            out.extend_from_slice(Buffer::new().format(least).as_bytes())?;
            out.extend_from_slice(b" to ")?;
            out.extend_from_slice(Buffer::new().format(most).as_bytes())
        }
        Rule::ClassNames => out.extend_from_slice(b" of classes"),
        // (seven names are those of the days of a week)
        Rule::Names(7) => out.extend_from_slice(b", Sunday first"),
        Rule::Segments => {
            out.extend_from_slice(b", direction:offset:start:end:name:format each")
        }
        Rule::Free
        | Rule::TenDigits
        | Rule::Cased
        | Rule::Names(_)
        | Rule::Format(_)
        | Rule::Digits => Ok(()),
    }
}
