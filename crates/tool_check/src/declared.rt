//! The classes that a locale declares.

use ctype_classes::Ctype;
use keywords::{Body, Entry, Section, ValueRef, Values};
use lc_base::{ByteText, List};
use std::alloc::{AllocError, Global};

/// The names that the sections of accepted sources declare for classes and that are classes of the category,
/// each once.
pub fn declared_classes(
    alloc: Global,
    sources: &[Option<List<Section>>],
    ctype: &Ctype,
) -> Result<Vec<ByteText>, AllocError> {
    let mut names = Vec::new(alloc);
    for read in sources {
        match read {
            Some(sections) => push_declared(alloc, &mut names, sections.as_slice(), ctype)?,
            None => return Err(AllocError),
        }
    }
    Ok(names)
}

/// Adds what sections declare.
fn push_declared(
    alloc: Global,
    names: &mut Vec<ByteText>,
    sections: &[Section],
    ctype: &Ctype,
) -> Result<(), AllocError> {
    for section in sections {
        if let Body::Entries(entries) = &section.body {
            push_listed(alloc, names, entries.as_slice(), ctype)?;
        }
    }
    Ok(())
}

/// Adds what lines declare.
fn push_listed(
    alloc: Global,
    names: &mut Vec<ByteText>,
    entries: &[Entry],
    ctype: &Ctype,
) -> Result<(), AllocError> {
    for entry in entries {
        if entry.keyword.as_bytes() == b"charclass".as_slice() {
            push_names(alloc, names, &entry.values, ctype)?;
        }
    }
    Ok(())
}

/// Adds the names of classes that are not there yet.
fn push_names(
    alloc: Global,
    names: &mut Vec<ByteText>,
    values: &Values,
    ctype: &Ctype,
) -> Result<(), AllocError> {
    let mut walk = values.walk();
    while let Some((_, value)) = walk.next() {
        push_value(alloc, names, value, ctype)?;
    }
    Ok(())
}

/// Adds what a value names.
fn push_value(
    alloc: Global,
    names: &mut Vec<ByteText>,
    value: ValueRef<'_>,
    ctype: &Ctype,
) -> Result<(), AllocError> {
    match value {
        ValueRef::Text(name) => push_name(alloc, names, name, ctype),
        ValueRef::Number(_) | ValueRef::Chars(_, _) | ValueRef::Pair(_, _) => Ok(()),
    }
}

/// Adds the name of a class that is not there yet.
fn push_name(
    alloc: Global,
    names: &mut Vec<ByteText>,
    name: &[u8],
    ctype: &Ctype,
) -> Result<(), AllocError> {
    if ctype.class_number(name).is_some() && !has_name(names.as_slice(), name) {
        names.push(ByteText::of(alloc, name)?)?;
    }
    Ok(())
}

fn has_name(names: &[ByteText], name: &[u8]) -> bool {
    for known in names {
        if known.as_bytes() == name {
            return true;
        }
    }
    false
}
