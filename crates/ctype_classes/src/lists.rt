//! The faults of the lines of a keyword list, and the classes that they declare.

ghost use Rattle.std.specs.Prelude.{◌≡◌, ◌<◌, length};
ghost use Rattle.std.specs.List.{list_all};
ghost use Rattle.std.specs.Char.{is_ascii_alphanumeric};
ghost use Rattle.lc_base.specs.Reading.{Gives};
ghost use Rattle.lc_base.specs.declared.reason.Reason.TheVariants.{DigitsNotTen as NotTen, NotCased as Caseless};
ghost use Rattle.keywords.specs.Cells.{seen};
ghost use Rattle.ctype_classes.specs.Lines.{rule_of_line};
ghost use Rattle.ctype_classes.specs.Lists.{is_ten, is_cased, is_cased_pair, each_passes, is_word, is_class_name, is_reserved, is_taken, declaring, declaring_value, declaring_values, after_operands, after_line, after_lines, classes_of};

use crate::classes::{Classes, has_member, twelve_classes, with_class};
use crate::first_lines::KeywordList;
use crate::table::ClassRow;
use charset::Charset;
use keywords::{Entry, Operands, Rule, ValueRef, Values, check_operands, rule_of, takes_of};
use lc_base::{Category, Place, Reason, TextFault};
use std::alloc::Global;

/// Whether a value of the line `digit` has none but the ten digits.
fn is_ten(value: ValueRef<'_>) -> bool
    ensures { result ≡ is_ten (seen value.entry) }
{
    match value {
        ValueRef::Chars(first, last) => { (48..=57).contains(&first) && (48..=57).contains(&last) }
        ValueRef::Text(_) | ValueRef::Number(_) | ValueRef::Pair(_, _) => true,
    }
}

/// The line `digit` lists none but the ten digits.
fn check_digits(operands: &Values) -> Result<(), TextFault>
    ensures { Gives (λ u. u) result (each_passes is_ten NotTen operands.now) }
{
    let mut walk = operands.walk();
    while let Some((place, value)) = walk.next() {
        if !is_ten(value) {
            return Err(TextFault::At(place, Reason::DigitsNotTen));
        }
    }
    Ok(())
}

/// Whether a character has case.
fn is_cased(classes: &Classes, w: u32) -> bool
    ensures { result ≡ is_cased classes.now w }
{
    has_member(classes, b"upper", w) || has_member(classes, b"lower", w)
}

/// Whether both characters of a pair have case.
fn is_cased_pair(classes: &Classes, value: ValueRef<'_>) -> bool
    ensures { result ≡ is_cased_pair classes.now (seen value.entry) }
{
    match value {
        ValueRef::Pair(first, second) => is_cased(classes, first) && is_cased(classes, second),
        ValueRef::Text(_) | ValueRef::Number(_) | ValueRef::Chars(_, _) => true,
    }
}

/// The characters of case pairs have case.
fn check_pairs(classes: &Classes, operands: &Values) -> Result<(), TextFault>
    ensures { Gives (λ u. u) result (each_passes (is_cased_pair classes.now) Caseless operands.now) }
{
    let mut walk = operands.walk();
    while let Some((place, value)) = walk.next() {
        if !is_cased_pair(classes, value) {
            return Err(TextFault::At(place, Reason::NotCased));
        }
    }
    Ok(())
}

/// Whether these are letters and digits.
fn is_alphanumeric(name: &[u8]) -> bool
    ensures { result ≡ list_all is_ascii_alphanumeric name.now }
{
    name.iter().all(|byte| byte.is_ascii_alphanumeric())
}

/// Whether these are letters and digits, of which the first is a letter.
fn is_word(name: &[u8]) -> bool
    requires { 0 < length name.now }
    ensures { result ≡ is_word name.now }
{
    name[0].is_ascii_alphabetic() && is_alphanumeric(name)
}

/// Whether a class may have this name: 1 to 14 letters and digits, of which the first is a letter.
fn is_class_name(name: &[u8]) -> bool
    ensures { result ≡ is_class_name name.now }
{
    (1..=14).contains(&name.len()) && is_word(name)
}

/// Whether a name is that of a keyword, but for the one that copies a category.
#[tactic(auto, unfolding(crate::specs::Lists::is_reserved))]
fn is_reserved(name: &[u8]) -> bool
    ensures { result ≡ is_reserved name.now }
{
    match takes_of(Category::Ctype, name) {
        None | Some(Operands::Copied) => false,
        Some(_) => true,
    }
}

/// Whether a name is that of a class or of a keyword that keeps it.
fn is_taken(classes: &Classes, name: &[u8]) -> bool
    ensures { result ≡ is_taken classes.now name.now }
{
    classes.get(name).is_some() || is_reserved(name)
}

/// The classes after one that an operand declares.
fn declaring(
    alloc: Global,
    charset: &Charset,
    list: &KeywordList<'_>,
    classes: Classes,
    place: Place,
    name: &[u8],
) -> Result<Classes, TextFault>
    ensures { Gives (λ c. c) result (declaring charset.now list.now classes place name.now) }
{
    if !is_class_name(name) || is_taken(&classes, name) {
        return Err(TextFault::At(place, Reason::BadClassName));
    }
    let row = ClassRow {
        name,
        always: &[],
        absent: &[],
        parts: &[],
    };
    Ok(with_class(alloc, charset, list, classes, &row)?)
}

/// The classes after an operand of `charclass`.
fn declaring_value(
    alloc: Global,
    charset: &Charset,
    list: &KeywordList<'_>,
    classes: Classes,
    place: Place,
    value: ValueRef<'_>,
) -> Result<Classes, TextFault>
    ensures { Gives (λ c. c) result (declaring_value charset.now list.now classes (place, seen value.entry)) }
{
    match value {
        ValueRef::Text(name) => declaring(alloc, charset, list, classes, place, name),
        ValueRef::Number(_) | ValueRef::Chars(_, _) | ValueRef::Pair(_, _) => Ok(classes),
    }
}

/// The classes after the operands of `charclass`.
fn declaring_values(
    alloc: Global,
    charset: &Charset,
    list: &KeywordList<'_>,
    classes: Classes,
    operands: &Values,
) -> Result<Classes, TextFault>
    ensures { Gives (λ c. c) result (declaring_values charset.now list.now classes operands.now) }
{
    let mut classes = classes;
    let mut walk = operands.walk();
    while let Some((place, value)) = walk.next() {
        classes = declaring_value(alloc, charset, list, classes, place, value)?;
    }
    Ok(classes)
}

/// The classes after the operands of a line with this rule.
fn after_operands(
    alloc: Global,
    charset: &Charset,
    list: &KeywordList<'_>,
    classes: Classes,
    rule: Option<Rule>,
    operands: &Values,
) -> Result<Classes, TextFault>
    ensures { Gives (λ c. c) result (after_operands charset.now list.now classes rule operands.now) }
{
    match rule {
        None => Ok(classes),
        Some(Rule::ClassNames) => declaring_values(alloc, charset, list, classes, operands),
        Some(Rule::TenDigits) => {
            check_digits(operands)?;
            Ok(classes)
        }
        Some(Rule::Cased) => {
            check_pairs(&classes, operands)?;
            Ok(classes)
        }
        Some(rule) => {
            check_operands(rule, operands)?;
            Ok(classes)
        }
    }
}

/// The rule of a line's operands.
#[tactic(auto, unfolding(crate::specs::Lines::rule_of_line))]
fn rule_of_line(line: &Entry) -> Option<Rule>
    ensures { result ≡ rule_of_line line.now }
{
    rule_of(Category::Ctype, line.keyword.as_bytes())
}

/// The classes after a line.
fn after_line(
    alloc: Global,
    charset: &Charset,
    list: &KeywordList<'_>,
    classes: Classes,
    line: &Entry,
) -> Result<Classes, TextFault>
    ensures { Gives (λ c. c) result (after_line charset.now list.now classes line.now) }
{
    let rule = rule_of_line(line);
    after_operands(alloc, charset, list, classes, rule, &line.values)
}

/// The classes of a keyword list, or the first fault of its lines.
#[tactic(auto, unfolding(crate::specs::Lists::classes_of))]
pub fn classes_of(
    alloc: Global,
    charset: &Charset,
    list: &KeywordList<'_>,
) -> Result<Classes, TextFault>
    ensures { Gives (λ c. c) result (classes_of charset.now list.now) }
{
    let mut classes = twelve_classes(alloc, charset, list)?;
    for line in list.entries() {
        classes = after_line(alloc, charset, list, classes, line)?;
    }
    Ok(classes)
}
