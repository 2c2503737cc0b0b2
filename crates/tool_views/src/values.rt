//! The values of a locale's keywords but for those of `LC_CTYPE` that are sets of characters.

use langinfo::{LentConv, LentText, lent_conv};
use lc_base::{ByteText, push_number};
use std::alloc::{AllocError, Global};
use time_cat::{Time, TimeText};
use tool_reads::LentCategories;

/// The value of a keyword, or of one of its operands.
pub struct Value {
    pub category: &'static str,
    pub keyword: ByteText,
    pub text: ByteText,
    /// All of it, where the text is cut; else empty.
    pub whole: ByteText,
}

impl Drop for Value {
    fn drop(self) {
        let Value {
            category: _,
            keyword: _,
            text: _,
            whole: _,
        } = self;
    }
}

/// The number that stands for one which the locale does not tell, and for the end of grouping.
const CHAR_MAX: u8 = 127;

/// How many of localeconv's texts are of `LC_NUMERIC`; the others are of `LC_MONETARY`.
const NUMERIC_TEXTS: usize = 3;

/// The formats of `LC_TIME`.
const FORMATS: [(&[u8], TimeText); 3] = [
    (b"d_t_fmt", TimeText::DateTime),
    (b"d_fmt", TimeText::Date),
    (b"t_fmt", TimeText::Clock),
];

const ERA_FORMATS: [(&[u8], TimeText); 3] = [
    (b"era_d_fmt", TimeText::EraDate),
    (b"era_t_fmt", TimeText::EraClock),
    (b"era_d_t_fmt", TimeText::EraDateTime),
];

/// The most alternative digits.
const MOST_DIGITS: u32 = 100;

/// How many alternative digits are shown.
const DIGITS_SHOWN: u32 = 3;

/// The values, in the order of the standard. There are as many of each locale.
pub fn values_of(alloc: Global, locale: &LentCategories<'_>) -> Result<Vec<Value>, AllocError> {
    let mut values = Vec::new(alloc);
    let LentConv { texts, numbers } = lent_conv(locale.numeric, locale.monetary);
    let (numeric, monetary) = texts.split_at(NUMERIC_TEXTS);
    push_texts(alloc, &mut values, "LC_MONETARY", monetary)?;
    push_numbers(alloc, &mut values, &numbers)?;
    push_texts(alloc, &mut values, "LC_NUMERIC", numeric)?;
    push_time(alloc, &mut values, locale.time)?;
    push_quoted(
        alloc,
        &mut values,
        "LC_MESSAGES",
        b"yesexpr",
        locale.messages.yesexpr(),
    )?;
    push_quoted(
        alloc,
        &mut values,
        "LC_MESSAGES",
        b"noexpr",
        locale.messages.noexpr(),
    )?;
    Ok(values)
}

/// Adds the texts of localeconv's fields.
fn push_texts(
    alloc: Global,
    values: &mut Vec<Value>,
    category: &'static str,
    fields: &[(&[u8], LentText<'_>)],
) -> Result<(), AllocError> {
    for (keyword, text) in fields {
        match text {
            LentText::Bytes(bytes) => push_quoted(alloc, values, category, keyword, bytes)?,
            LentText::Sizes(sizes) => push_sizes(alloc, values, category, keyword, sizes)?,
        }
    }
    Ok(())
}

/// Adds the numbers of localeconv's fields.
fn push_numbers(
    alloc: Global,
    values: &mut Vec<Value>,
    fields: &[(&[u8], u8)],
) -> Result<(), AllocError> {
    for (keyword, number) in fields {
        let mut text = Vec::new(alloc);
        push_told(&mut text, *number)?;
        push_value(alloc, values, "LC_MONETARY", keyword, text)?;
    }
    Ok(())
}

fn push_time(alloc: Global, values: &mut Vec<Value>, time: &Time) -> Result<(), AllocError> {
    for i in 0..7u8 {
        push_operand(alloc, values, b"abday", i, time.abday(i).as_bytes())?;
    }
    for i in 0..7u8 {
        push_operand(alloc, values, b"day", i, time.day(i).as_bytes())?;
    }
    for i in 0..12u8 {
        push_operand(alloc, values, b"abmon", i, time.abmon(i).as_bytes())?;
    }
    for i in 0..12u8 {
        push_operand(alloc, values, b"mon", i, time.mon(i).as_bytes())?;
    }
    push_formats(alloc, values, time, &FORMATS)?;
    push_operand(alloc, values, b"am_pm", 0, time.am_pm(0).as_bytes())?;
    push_operand(alloc, values, b"am_pm", 1, time.am_pm(1).as_bytes())?;
    push_formats(
        alloc,
        values,
        time,
        &[(b"t_fmt_ampm", TimeText::HalfDayClock)],
    )?;
    push_quoted(alloc, values, "LC_TIME", b"era", time.era_list())?;
    push_formats(alloc, values, time, &ERA_FORMATS)?;
    push_digits(alloc, values, time)
}

fn push_formats(
    alloc: Global,
    values: &mut Vec<Value>,
    time: &Time,
    rows: &[(&[u8], TimeText)],
) -> Result<(), AllocError> {
    for (keyword, key) in rows {
        push_quoted(alloc, values, "LC_TIME", keyword, time.text(*key))?;
    }
    Ok(())
}

/// Adds the alternative digits: the first ones, and how many there are.
fn push_digits(alloc: Global, values: &mut Vec<Value>, time: &Time) -> Result<(), AllocError> {
    let mut count = 0u64;
    let mut text = Vec::new(alloc);
    for i in 0..MOST_DIGITS {
        let Some(digit) = time.alt_digit(i) else {
            break;
        };
        if i < DIGITS_SHOWN {
            script_out::push_quoted(&mut text, digit)?;
            text.push(b' ')?;
        }
        count = count.saturating_add(1);
    }
    if count > u64::from(DIGITS_SHOWN) {
        text.extend_from_slice(b".. ")?;
    }
    text.push(b'(')?;
    push_number(&mut text, u128::from(count))?;
    text.push(b')')?;
    values.push(Value {
        category: "LC_TIME",
        keyword: ByteText::of(alloc, b"alt_digits")?,
        text: ByteText::from_vec(text),
        whole: ByteText::of(alloc, time.alt_list())?,
    })?;
    Ok(())
}

/// Adds one of the operands of a keyword, which are counted from 1.
fn push_operand(
    alloc: Global,
    values: &mut Vec<Value>,
    keyword: &[u8],
    number: u8,
    operand: &[u8],
) -> Result<(), AllocError> {
    let mut name = Vec::new(alloc);
    name.extend_from_slice(keyword)?;
    name.push(b' ')?;
    push_number(&mut name, u128::from(number) + 1)?;
    let mut text = Vec::new(alloc);
    script_out::push_quoted(&mut text, operand)?;
    values.push(Value {
        category: "LC_TIME",
        keyword: ByteText::from_vec(name),
        text: ByteText::from_vec(text),
        whole: ByteText::from_vec(Vec::new(alloc)),
    })?;
    Ok(())
}

fn push_quoted(
    alloc: Global,
    values: &mut Vec<Value>,
    category: &'static str,
    keyword: &[u8],
    operand: &[u8],
) -> Result<(), AllocError> {
    let mut text = Vec::new(alloc);
    script_out::push_quoted(&mut text, operand)?;
    push_value(alloc, values, category, keyword, text)
}

/// Adds sizes of groups, with `;` between them; -1 is that no more digits are grouped.
fn push_sizes(
    alloc: Global,
    values: &mut Vec<Value>,
    category: &'static str,
    keyword: &[u8],
    sizes: &[u8],
) -> Result<(), AllocError> {
    let mut text = Vec::new(alloc);
    for size in used(sizes) {
        if !text.is_empty() {
            text.push(b';')?;
        }
        push_told(&mut text, *size)?;
    }
    if text.is_empty() {
        text.extend_from_slice(b"-1")?;
    }
    push_value(alloc, values, category, keyword, text)
}

/// The sizes that have an effect: the last one repeats.
fn used(sizes: &[u8]) -> &[u8] {
    let mut rest = sizes;
    while let [.., before, last] = rest {
        if before != last {
            break;
        }
        let (front, _) = rest.split_at(rest.len() - 1);
        rest = front;
    }
    rest
}

/// Adds a number; one that the locale does not tell is written as in a source.
fn push_told(text: &mut Vec<u8>, number: u8) -> Result<(), AllocError> {
    if number == CHAR_MAX {
        text.extend_from_slice(b"-1")
    } else {
        push_number(text, u128::from(number))
    }
}

fn push_value(
    alloc: Global,
    values: &mut Vec<Value>,
    category: &'static str,
    keyword: &[u8],
    text: Vec<u8>,
) -> Result<(), AllocError> {
    let keyword = ByteText::of(alloc, keyword)?;
    values.push(Value {
        category,
        keyword,
        text: ByteText::from_vec(text),
        whole: ByteText::from_vec(Vec::new(alloc)),
    })?;
    Ok(())
}
