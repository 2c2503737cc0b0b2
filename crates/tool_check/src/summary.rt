//! What accepted files have.

ghost use Rattle.std.specs.Prelude.{◌≡◌, ◌+◌, ◌≤◌, ◌^◌, ◌++◌, length, map, drop, OnOk, codes};
ghost use Rattle.std.specs.List.{flat_map};
ghost use Rattle.std.specs.Fmt.{decimal};
ghost use Rattle.charset.specs.CodedSet.{set_name};
ghost use Rattle.ctype_classes.specs.Table.{class_names};
ghost use Rattle.tool_check.specs.Summary.{row, accepted_line, keyword_count, body_text, section_row, count_below, is_numbered, numbered_count, class_count, class_row, charmap_summary, locale_summary};

use charset::Charset;
use ctype_classes::{Ctype, class_names};
use keywords::{Body, Section};
use lc_base::{ByteText, push_number};
use std::alloc::AllocError;

/// The blanks between a name that is empty and what stands behind it.
const BLANKS: &[u8] = b"               ";

/// Adds the summary of a charmap.
pub fn push_charmap(output: &mut Vec<u8>, path: &[u8], charset: &Charset) -> Result<(), AllocError>
    ensures { OnOk result (output.new.items ≡ output.old.items ++ charmap_summary path.now charset.now) }
{
    push_accepted(output, path)?;
    push_charset(output, charset)
}

/// Adds the summary of a locale.
pub fn push_locale(
    output: &mut Vec<u8>,
    path: &[u8],
    sections: &[Section],
    charset: &Charset,
    ctype: &Ctype,
    declared: &[ByteText],
) -> Result<(), AllocError>
    ensures { OnOk result (output.new.items ≡ output.old.items ++ locale_summary path.now sections.now charset.now ctype.now.classes declared.now) }
{
    push_accepted(output, path)?;
    push_sections(output, sections)?;
    push_charset(output, charset)?;
    push_standard_classes(output, ctype, charset)?;
    push_declared_classes(output, ctype, charset, declared)
}

/// Adds the line with which the summary of a file begins.
fn push_accepted(output: &mut Vec<u8>, path: &[u8]) -> Result<(), AllocError>
    ensures { OnOk result (output.new.items ≡ output.old.items ++ accepted_line path.now) }
{
    output.extend_from_slice(path)?;
    output.extend_from_slice(b": accepted\n")
}

fn push_charset(output: &mut Vec<u8>, charset: &Charset) -> Result<(), AllocError>
    ensures { OnOk result (output.new.items ≡ output.old.items ++ row (codes "charset") (set_name charset.now)) }
{
    push_name(output, b"charset")?;
    output.extend_from_slice(charset.name())?;
    output.extend_from_slice(b"\n")
}

/// Adds a name and the blanks behind it.
fn push_name(output: &mut Vec<u8>, name: &[u8]) -> Result<(), AllocError>
    ensures { OnOk result (output.new.items ≡ output.old.items ++ name.now ++ drop (length name.now) (codes "               ")) }
{
    output.extend_from_slice(name)?;
    if name.len() < BLANKS.len() {
        output.extend_from_slice(&BLANKS[name.len()..])?;
    }
    Ok(())
}

/// Adds a row for each section.
fn push_sections(output: &mut Vec<u8>, sections: &[Section]) -> Result<(), AllocError>
    ensures { OnOk result (output.new.items ≡ output.old.items ++ flat_map section_row sections.now) }
{
    for section in sections {
        push_name(output, section.category.name())?;
        push_body(output, &section.body)?;
        output.push(b'\n')?;
    }
    Ok(())
}

/// Adds what a section says.
fn push_body(output: &mut Vec<u8>, body: &Body) -> Result<(), AllocError>
    ensures { OnOk result (output.new.items ≡ output.old.items ++ body_text body.now) }
{
    match body {
        Body::Copy(_, name) => {
            output.extend_from_slice(b"copy of ")?;
            output.extend_from_slice(name.as_bytes())
        }
        Body::Entries(entries) => push_keyword_count(output, entries.len() as u64),
    }
}

/// Adds so many keywords.
fn push_keyword_count(output: &mut Vec<u8>, count: u64) -> Result<(), AllocError>
    ensures { OnOk result (output.new.items ≡ output.old.items ++ keyword_count count) }
{
    push_number(output, u128::from(count))?;
    if count == 1 {
        output.extend_from_slice(b" keyword")
    } else {
        output.extend_from_slice(b" keywords")
    }
}

/// Adds how many characters each class has that each locale has.
fn push_standard_classes(
    output: &mut Vec<u8>,
    ctype: &Ctype,
    charset: &Charset,
) -> Result<(), AllocError>
    ensures { OnOk result (output.new.items ≡ output.old.items ++ flat_map (class_row charset.now ctype.now.classes) class_names) }
{
    push_classes(output, ctype, charset, class_names())
}

/// Adds how many characters each of these classes has.
fn push_classes(
    output: &mut Vec<u8>,
    ctype: &Ctype,
    charset: &Charset,
    classes: &[&str],
) -> Result<(), AllocError>
    ensures { OnOk result (output.new.items ≡ output.old.items ++ flat_map (class_row charset.now ctype.now.classes) (map (λ name. name.now) classes.now)) }
{
    for class in classes {
        push_class(output, ctype, charset, class.as_bytes())?;
    }
    Ok(())
}

/// Adds how many characters each of the classes has that the locale declares.
fn push_declared_classes(
    output: &mut Vec<u8>,
    ctype: &Ctype,
    charset: &Charset,
    classes: &[ByteText],
) -> Result<(), AllocError>
    ensures { OnOk result (output.new.items ≡ output.old.items ++ flat_map (class_row charset.now ctype.now.classes) classes.now) }
{
    for class in classes {
        push_class(output, ctype, charset, class.as_bytes())?;
    }
    Ok(())
}

/// Adds how many characters a class has.
fn push_class(
    output: &mut Vec<u8>,
    ctype: &Ctype,
    charset: &Charset,
    class: &[u8],
) -> Result<(), AllocError>
    ensures { OnOk result (output.new.items ≡ output.old.items ++ class_row charset.now ctype.now.classes class.now) }
{
    push_name(output, class)?;
    push_number(output, u128::from(class_count(ctype, charset, class)))?;
    output.extend_from_slice(b"\n")
}

/// How many characters a class has.
fn class_count(ctype: &Ctype, charset: &Charset, class: &[u8]) -> u64
    ensures { result ≡ class_count charset.now ctype.now.classes class.now }
{
    match ctype.class_number(class) {
        Some(number) => numbered_count(ctype, charset, number),
        None => 0,
    }
}

/// How many characters the class with a number has.
fn numbered_count(ctype: &Ctype, charset: &Charset, number: usize) -> u64
    ensures { result ≡ numbered_count charset.now ctype.now.classes number }
{
    let mut count = 0;
    let mut from = 0u32;
    while let Some((first, last)) = charset.run_from(from) {
        count += member_count(ctype, number, first, last);
        match last.checked_add(1) {
            Some(next) => from = next,
            None => return count,
        }
    }
    count
}

/// How many wide values of a run are in the class with a number.
fn member_count(ctype: &Ctype, number: usize, first: u32, last: u32) -> u64
    requires { first ≤ last }
    ensures is { count_below (is_numbered ctype.now.classes number) first + result ≡ count_below (is_numbered ctype.now.classes number) (last + 1) }
    ensures few { first + result ≤ last + 1 }
    ensures within { last + 1 ≤ 2 ^ 32 }
{
    let mut count = 0;
    for value in first..last {
        if is_numbered(ctype, number, value) {
            count += 1;
        }
    }
    if is_numbered(ctype, number, last) {
        count += 1;
    }
    count
}

/// Whether a wide value is in the class with a number.
fn is_numbered(ctype: &Ctype, number: usize, value: u32) -> bool
    ensures { result ≡ is_numbered ctype.now.classes number value }
{
    ctype.is_in(number, value).unwrap_or(false)
}
