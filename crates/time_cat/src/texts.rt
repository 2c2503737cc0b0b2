//! The texts that a keyword list defines (XBD 7.3.5.2).

ghost use Rattle.std.specs.Prelude.{◌≡◌, ◌∷◌, ◌++◌, ◌<◌, length, IfOk, OnOk};
ghost use Rattle.std.specs.List.{flat_map};
ghost use Rattle.time_cat.specs.TimeValues.{text_at, joined};
ghost use Rattle.time_cat.specs.Values.{spelled, segments_in, names_in, formats_in, eras_of, digits_of};

use crate::name::Name;
use crate::segment::{Segment, segment_of};
use keywords::{Entry, text_value, texts_value};
use lc_base::{ByteText, Category, List};
use std::alloc::{AllocError, Global};

/// The names of days, months and half days.
pub struct NameLists {
    pub abday: List<Name>,
    pub day: List<Name>,
    pub abmon: List<Name>,
    pub mon: List<Name>,
    pub am_pm: List<Name>,
}

impl Drop for NameLists {
    fn drop(self) {
        let NameLists {
            abday: _,
            day: _,
            abmon: _,
            mon: _,
            am_pm: _,
        } = self;
    }
}

/// The formats.
pub struct FormatTexts {
    pub d_t_fmt: ByteText,
    pub d_fmt: ByteText,
    pub t_fmt: ByteText,
    pub t_fmt_ampm: ByteText,
    pub era_d_t_fmt: ByteText,
    pub era_d_fmt: ByteText,
    pub era_t_fmt: ByteText,
}

impl Drop for FormatTexts {
    fn drop(self) {
        let FormatTexts {
            d_t_fmt: _,
            d_fmt: _,
            t_fmt: _,
            t_fmt_ampm: _,
            era_d_t_fmt: _,
            era_d_fmt: _,
            era_t_fmt: _,
        } = self;
    }
}

/// Names with these texts.
fn named(alloc: Global, texts: List<ByteText>) -> Result<List<Name>, AllocError>
    ensures { IfOk result (λ names. names ≡ texts) }
{
    let mut names = Vec::with_capacity(alloc, texts.len())?;
    for text in texts.into_vec() {
        names.push(Name::of(text))?;
    }
    Ok(List::of(names))
}

/// The names that a list defines.
pub fn names_in(alloc: Global, list: &[Entry]) -> Result<NameLists, AllocError>
    ensures { IfOk result (λ names. names ≡ names_in list.now) }
{
    Ok(NameLists {
        abday: named(alloc, texts_value(alloc, Category::Time, list, b"abday")?)?,
        day: named(alloc, texts_value(alloc, Category::Time, list, b"day")?)?,
        abmon: named(alloc, texts_value(alloc, Category::Time, list, b"abmon")?)?,
        mon: named(alloc, texts_value(alloc, Category::Time, list, b"mon")?)?,
        am_pm: named(alloc, texts_value(alloc, Category::Time, list, b"am_pm")?)?,
    })
}

/// The formats of date and time.
fn plain_formats_in(
    alloc: Global,
    list: &[Entry],
) -> Result<(ByteText, ByteText, ByteText, ByteText), AllocError>
    ensures { IfOk result (λ f. f ≡ (let formats = formats_in list.now in (formats.d_t_fmt, formats.d_fmt, formats.t_fmt, formats.t_fmt_ampm))) }
{
    let d_t_fmt = text_value(alloc, Category::Time, list, b"d_t_fmt")?;
    let d_fmt = text_value(alloc, Category::Time, list, b"d_fmt")?;
    let t_fmt = text_value(alloc, Category::Time, list, b"t_fmt")?;
    let t_fmt_ampm = text_value(alloc, Category::Time, list, b"t_fmt_ampm")?;
    Ok((d_t_fmt, d_fmt, t_fmt, t_fmt_ampm))
}

/// The formats of eras.
fn era_formats_in(
    alloc: Global,
    list: &[Entry],
) -> Result<(ByteText, ByteText, ByteText), AllocError>
    ensures { IfOk result (λ f. f ≡ (let formats = formats_in list.now in (formats.era_d_t_fmt, formats.era_d_fmt, formats.era_t_fmt))) }
{
    let era_d_t_fmt = text_value(alloc, Category::Time, list, b"era_d_t_fmt")?;
    let era_d_fmt = text_value(alloc, Category::Time, list, b"era_d_fmt")?;
    let era_t_fmt = text_value(alloc, Category::Time, list, b"era_t_fmt")?;
    Ok((era_d_t_fmt, era_d_fmt, era_t_fmt))
}

/// The formats that a list defines.
pub fn formats_in(alloc: Global, list: &[Entry]) -> Result<FormatTexts, AllocError>
    ensures { IfOk result (λ formats. formats ≡ formats_in list.now) }
{
    let (d_t_fmt, d_fmt, t_fmt, t_fmt_ampm) = plain_formats_in(alloc, list)?;
    let (era_d_t_fmt, era_d_fmt, era_t_fmt) = era_formats_in(alloc, list)?;
    Ok(FormatTexts {
        d_t_fmt,
        d_fmt,
        t_fmt,
        t_fmt_ampm,
        era_d_t_fmt,
        era_d_fmt,
        era_t_fmt,
    })
}

/// Adds the segment that a text spells, if it spells one.
fn add_segment(alloc: Global, segments: &mut Vec<Segment>, text: &[u8]) -> Result<(), AllocError>
    ensures { OnOk result (segments.new.items ≡ segments.old.items ++ spelled text.now) }
{
    match segment_of(text) {
        None => Ok(()),
        Some(segment) => {
            segments.push(segment.copied(alloc)?)?;
            Ok(())
        }
    }
}

/// The segments that texts spell.
fn segments_in(alloc: Global, texts: &[ByteText]) -> Result<List<Segment>, AllocError>
    ensures { IfOk result (λ segments. segments ≡ segments_in texts.now) }
{
    let mut segments = Vec::with_capacity(alloc, texts.len())?;
    for text in texts {
        add_segment(alloc, &mut segments, text.as_bytes())?;
    }
    Ok(List::of(segments))
}

/// Adds texts, each behind a `;`.
fn add_texts(bytes: &mut Vec<u8>, texts: &[ByteText]) -> Result<(), AllocError>
    ensures { OnOk result (bytes.new.items ≡ bytes.old.items ++ flat_map (λ t. 59 ∷ t) texts.now) }
{
    for text in texts {
        bytes.push(b';')?;
        bytes.extend_from_slice(text.as_bytes())?;
    }
    Ok(())
}

/// Texts in a row with `;` between.
fn joined(alloc: Global, texts: &[ByteText]) -> Result<ByteText, AllocError>
    ensures { IfOk result (λ text. text ≡ joined texts.now) }
{
    match texts {
        [] => ByteText::of(alloc, b""),
        [first, rest @ ..] => {
            let mut bytes = Vec::from_slice(alloc, first.as_bytes())?;
            add_texts(&mut bytes, rest)?;
            Ok(ByteText::from_vec(bytes))
        }
    }
}

/// The segments of eras, and their texts joined.
pub fn eras_in(alloc: Global, list: &[Entry]) -> Result<(List<Segment>, ByteText), AllocError>
    ensures segments { IfOk result (λ eras. eras.0 ≡ segments_in (eras_of list.now)) }
    ensures joined { IfOk result (λ eras. eras.1 ≡ joined (eras_of list.now)) }
{
    let texts = texts_value(alloc, Category::Time, list, b"era")?;
    let segments = segments_in(alloc, texts.as_slice())?;
    let joined = joined(alloc, texts.as_slice())?;
    Ok((segments, joined))
}

/// The alternative digits, and their texts joined.
pub fn digits_in(alloc: Global, list: &[Entry]) -> Result<(List<ByteText>, ByteText), AllocError>
    ensures texts { IfOk result (λ digits. digits.0 ≡ digits_of list.now) }
    ensures joined { IfOk result (λ digits. digits.1 ≡ joined digits.0) }
{
    let texts = texts_value(alloc, Category::Time, list, b"alt_digits")?;
    let joined = joined(alloc, texts.as_slice())?;
    Ok((texts, joined))
}

/// A name of a list.
pub fn name_at(names: &[Name], i: usize) -> &Name
    requires { i < length names.now }
    ensures { result.now ≡ text_at names.now i }
{
    &names[i]
}
