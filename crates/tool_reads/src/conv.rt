//! The fields of localeconv.

ghost use Rattle.std.specs.Prelude.{◌≡◌, ◌++◌, IfOk, OnOk};
ghost use Rattle.std.specs.Fmt.{decimal};
ghost use Rattle.langinfo.specs.Conv.{conv};
ghost use Rattle.tool_reads.specs.Printed.{conv_lines, field, more_sizes, number_lines, shown, sizes_text, text_lines};

use crate::info::push_quoted_field;
use langinfo::{ConvText, FieldName, Lconv, localeconv};
use lc_base::{ByteText, push_number};
use monetary_cat::Monetary;
use numeric_cat::Numeric;
use std::alloc::{AllocError, Global};

/// A line `NAME=VALUE` for each field of localeconv, in the order of the standard's structure (XSH localeconv).
pub fn conv_lines(
    alloc: Global,
    numeric: &Numeric,
    monetary: &Monetary,
) -> Result<ByteText, AllocError>
    ensures { IfOk result (λ lines. lines ≡ conv_lines (conv numeric.now monetary.now)) }
{
    let fields = localeconv(alloc, numeric, monetary)?;
    lines_of(alloc, &fields)
}

#[tactic(auto, unfolding(crate::specs::Printed::conv_lines))]
fn lines_of(alloc: Global, fields: &Lconv) -> Result<ByteText, AllocError>
    ensures { IfOk result (λ lines. lines ≡ conv_lines fields.now) }
{
    let mut lines = Vec::new(alloc);
    push_texts(&mut lines, fields.texts.as_slice())?;
    push_numbers(&mut lines, fields.numbers.as_slice())?;
    Ok(ByteText::from_vec(lines))
}

#[tactic(auto, unfolding(crate::specs::Printed::text_lines))]
fn push_texts(lines: &mut Vec<u8>, fields: &[(FieldName, ConvText)]) -> Result<(), AllocError>
    ensures { OnOk result (lines.new.items ≡ lines.old.items ++ text_lines fields.now) }
{
    for (name, text) in fields {
        push_text(lines, name.as_bytes(), text)?;
    }
    Ok(())
}

#[tactic(auto, unfolding(crate::specs::Printed::number_lines))]
fn push_numbers(lines: &mut Vec<u8>, fields: &[(FieldName, u8)]) -> Result<(), AllocError>
    ensures { OnOk result (lines.new.items ≡ lines.old.items ++ number_lines fields.now) }
{
    for (name, number) in fields {
        push_number_field(lines, name.as_bytes(), *number)?;
    }
    Ok(())
}

fn push_text(lines: &mut Vec<u8>, name: &[u8], text: &ConvText) -> Result<(), AllocError>
    ensures { OnOk result (lines.new.items ≡ lines.old.items ++ field name.now (shown text.now)) }
{
    match text {
        ConvText::Bytes(bytes) => push_quoted_field(lines, name, bytes.as_bytes()),
        ConvText::Sizes(sizes) => push_sizes(lines, name, sizes),
    }
}

#[tactic(auto, unfolding(crate::specs::Printed::field))]
fn push_number_field(lines: &mut Vec<u8>, name: &[u8], count: u8) -> Result<(), AllocError>
    ensures { OnOk result (lines.new.items ≡ lines.old.items ++ field name.now (decimal count)) }
{
    lines.extend_from_slice(name)?;
    lines.extend_from_slice(b"=")?;
    push_number(lines, u128::from(count))?;
    lines.extend_from_slice(b"\n")
}

#[tactic(auto, unfolding(crate::specs::Printed::field))]
fn push_sizes(lines: &mut Vec<u8>, name: &[u8], sizes: &ByteText) -> Result<(), AllocError>
    ensures { OnOk result (lines.new.items ≡ lines.old.items ++ field name.now (sizes_text sizes.now)) }
{
    lines.extend_from_slice(name)?;
    lines.extend_from_slice(b"=")?;
    push_between(lines, sizes.as_bytes())?;
    lines.extend_from_slice(b"\n")
}

/// Adds the sizes of groups, with `;` between them.
fn push_between(lines: &mut Vec<u8>, sizes: &[u8]) -> Result<(), AllocError>
    ensures { OnOk result (lines.new.items ≡ lines.old.items ++ sizes_text sizes.now) }
{
    match sizes {
        [] => Ok(()),
        [first, rest @ ..] => {
            push_number(lines, u128::from(*first))?;
            push_more_sizes(lines, rest)
        }
    }
}

/// Adds sizes of groups, each behind a `;`.
fn push_more_sizes(lines: &mut Vec<u8>, sizes: &[u8]) -> Result<(), AllocError>
    ensures { OnOk result (lines.new.items ≡ lines.old.items ++ more_sizes sizes.now) }
{
    for size in sizes {
        lines.push(b';')?;
        push_number(lines, u128::from(*size))?;
    }
    Ok(())
}
