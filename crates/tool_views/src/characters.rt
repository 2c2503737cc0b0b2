//! What two locales define differently in `LC_CTYPE`.

use crate::table::{Row, push_row};
use charset::Charset;
use ctype_classes::{Ctype, class_names};
use lc_base::push_number;
use std::alloc::{AllocError, Global};

/// Classes of which each character of the others is in one: `print` has those of `graph`, and that has the
/// letters, digits and signs.
const WIDEST: [&str; 5] = ["print", "cntrl", "space", "alnum", "blank"];

/// How many characters are shown.
const SHOWN: usize = 3;

/// Characters that are counted, with the first ones.
struct Tally {
    count: u64,
    first: Vec<u32>,
}

impl Drop for Tally {
    fn drop(self) {
        let Tally { count: _, first: _ } = self;
    }
}

impl Tally {
    fn new(alloc: Global) -> Tally {
        Tally {
            count: 0,
            first: Vec::new(alloc),
        }
    }

    fn add(&mut self, character: u32) -> Result<(), AllocError> {
        self.count = self.count.saturating_add(1);
        if self.first.len() < SHOWN {
            self.first.push(character)?;
        }
        Ok(())
    }
}

/// What two locales have in `LC_CTYPE`, and the charset that both are read in.
#[derive(Clone, Copy)]
pub struct Sides<'a> {
    pub left: &'a Ctype,
    pub right: &'a Ctype,
    pub charset: &'a Charset,
}

/// Adds the rows of the code set, of the classes and of the case maps, where they differ.
pub fn push_characters(
    alloc: Global,
    rows: &mut Vec<Row>,
    sides: &Sides<'_>,
) -> Result<(), AllocError> {
    push_code_sets(alloc, rows, sides)?;
    let mut found = found_of(alloc, sides)?;
    add_characters(sides, &mut found)?;
    for members in found.classes.as_slice() {
        push_class(alloc, rows, sides, members)?;
    }
    push_map(alloc, rows, sides, true, &found.upper)?;
    push_map(alloc, rows, sides, false, &found.lower)
}

fn push_code_sets(alloc: Global, rows: &mut Vec<Row>, sides: &Sides<'_>) -> Result<(), AllocError> {
    if sides.left.codeset() == sides.right.codeset() {
        return Ok(());
    }
    let mut left = Vec::new(alloc);
    let mut right = Vec::new(alloc);
    script_out::push_quoted(&mut left, sides.left.codeset())?;
    script_out::push_quoted(&mut right, sides.right.codeset())?;
    push_row(alloc, rows, "LC_CTYPE", b"code_set_name", left, right)
}

/// The characters that one locale alone has in a class.
struct Members {
    class: &'static str,
    left: Tally,
    right: Tally,
    numbers: Numbers,
}

impl Drop for Members {
    fn drop(self) {
        let Members {
            class: _,
            left: _,
            right: _,
            numbers: _,
        } = self;
    }
}

/// The numbers of a class in both locales.
#[derive(Clone, Copy)]
struct Numbers {
    left: Option<usize>,
    right: Option<usize>,
}

fn numbers_of(sides: &Sides<'_>, class: &str) -> Numbers {
    Numbers {
        left: sides.left.class_number(class.as_bytes()),
        right: sides.right.class_number(class.as_bytes()),
    }
}

/// What is found of characters.
struct Found {
    classes: Vec<Members>,
    /// The classes of which each character of a class is in one.
    widest: Vec<Numbers>,
    upper: Tally,
    lower: Tally,
}

impl Drop for Found {
    fn drop(self) {
        let Found {
            classes: _,
            widest: _,
            upper: _,
            lower: _,
        } = self;
    }
}

/// Of no character yet.
fn found_of(alloc: Global, sides: &Sides<'_>) -> Result<Found, AllocError> {
    let mut found = Found {
        classes: Vec::new(alloc),
        widest: Vec::new(alloc),
        upper: Tally::new(alloc),
        lower: Tally::new(alloc),
    };
    for class in class_names() {
        found.classes.push(Members {
            class,
            left: Tally::new(alloc),
            right: Tally::new(alloc),
            numbers: numbers_of(sides, class),
        })?;
    }
    for class in &WIDEST {
        found.widest.push(numbers_of(sides, class))?;
    }
    Ok(found)
}

/// Looks at each character of the charset.
fn add_characters(sides: &Sides<'_>, found: &mut Found) -> Result<(), AllocError> {
    let mut from = 0u32;
    for _ in 0..u32::MAX {
        let Some((first, last)) = sides.charset.run_from(from) else {
            break;
        };
        for character in first..last {
            add_character(sides, found, character)?;
        }
        add_character(sides, found, last)?;
        match last.checked_add(1) {
            Some(next) => from = next,
            None => break,
        }
    }
    Ok(())
}

/// Counts a character where the locales differ in it. One of no class has no case.
fn add_character(sides: &Sides<'_>, found: &mut Found, character: u32) -> Result<(), AllocError> {
    if !has_class(sides, found.widest.as_slice(), character) {
        return Ok(());
    }
    for members in found.classes.as_mut_slice() {
        add_member(sides, members, character)?;
    }
    if sides.left.upper(character) != sides.right.upper(character) {
        found.upper.add(character)?;
    }
    if sides.left.lower(character) != sides.right.lower(character) {
        found.lower.add(character)?;
    }
    Ok(())
}

/// Whether a character is in one of these classes of a locale.
fn has_class(sides: &Sides<'_>, classes: &[Numbers], character: u32) -> bool {
    for numbers in classes {
        if is_in(sides.left, numbers.left, character)
            || is_in(sides.right, numbers.right, character)
        {
            return true;
        }
    }
    false
}

/// Counts a character, if it is of the class in one locale alone.
fn add_member(sides: &Sides<'_>, members: &mut Members, character: u32) -> Result<(), AllocError> {
    let is_left = is_in(sides.left, members.numbers.left, character);
    let is_right = is_in(sides.right, members.numbers.right, character);
    if is_left && !is_right {
        members.left.add(character)
    } else if is_right && !is_left {
        members.right.add(character)
    } else {
        Ok(())
    }
}

/// Adds the row of a class.
fn push_class(
    alloc: Global,
    rows: &mut Vec<Row>,
    sides: &Sides<'_>,
    members: &Members,
) -> Result<(), AllocError> {
    if members.left.count == 0 && members.right.count == 0 {
        return Ok(());
    }
    let left = members_text(alloc, sides, &members.left)?;
    let right = members_text(alloc, sides, &members.right)?;
    push_row(
        alloc,
        rows,
        "LC_CTYPE",
        members.class.as_bytes(),
        left,
        right,
    )
}

fn is_in(ctype: &Ctype, number: Option<usize>, character: u32) -> bool {
    match number {
        Some(number) => ctype.is_in(number, character) == Some(true),
        None => false,
    }
}

/// How many characters one locale alone has in a class, and the first of them.
fn members_text(alloc: Global, sides: &Sides<'_>, tally: &Tally) -> Result<Vec<u8>, AllocError> {
    let mut text = Vec::new(alloc);
    push_number(&mut text, u128::from(tally.count))?;
    text.extend_from_slice(b" more")?;
    for (i, character) in tally.first.as_slice().iter().enumerate() {
        text.extend_from_slice(if i == 0 { b": " } else { b" " })?;
        push_character(&mut text, sides, *character)?;
    }
    push_dots(&mut text, tally)?;
    Ok(text)
}

/// Adds that there are more characters than were shown.
fn push_dots(text: &mut Vec<u8>, tally: &Tally) -> Result<(), AllocError> {
    if tally.count > SHOWN as u64 {
        text.extend_from_slice(b" ..")?;
    }
    Ok(())
}

/// Adds the row of a case map.
fn push_map(
    alloc: Global,
    rows: &mut Vec<Row>,
    sides: &Sides<'_>,
    is_upper: bool,
    tally: &Tally,
) -> Result<(), AllocError> {
    if tally.count == 0 {
        return Ok(());
    }
    let keyword: &[u8] = if is_upper { b"toupper" } else { b"tolower" };
    let left = images_text(alloc, sides, sides.left, is_upper, tally)?;
    let right = images_text(alloc, sides, sides.right, is_upper, tally)?;
    push_row(alloc, rows, "LC_CTYPE", keyword, left, right)
}

fn image(ctype: &Ctype, is_upper: bool, character: u32) -> u32 {
    if is_upper {
        ctype.upper(character)
    } else {
        ctype.lower(character)
    }
}

/// How many characters the case maps of two locales tell apart, and the first of them with what this
/// locale makes of them.
fn images_text(
    alloc: Global,
    sides: &Sides<'_>,
    ctype: &Ctype,
    is_upper: bool,
    tally: &Tally,
) -> Result<Vec<u8>, AllocError> {
    let mut text = Vec::new(alloc);
    push_number(&mut text, u128::from(tally.count))?;
    text.extend_from_slice(b":")?;
    for character in tally.first.as_slice() {
        text.extend_from_slice(b" ")?;
        push_character(&mut text, sides, *character)?;
        text.extend_from_slice(b">")?;
        push_character(&mut text, sides, image(ctype, is_upper, *character))?;
    }
    push_dots(&mut text, tally)?;
    Ok(text)
}

/// Adds a character, as itself where it is one to see in a locale, and else by its number.
fn push_character(text: &mut Vec<u8>, sides: &Sides<'_>, character: u32) -> Result<(), AllocError> {
    let is_seen = sides.left.is(b"graph", character) == Some(true)
        || sides.right.is(b"graph", character) == Some(true);
    match sides.charset.encode(character) {
        Some(code) if is_seen => text.extend_from_slice(code.as_bytes()),
        _ => push_value(text, character),
    }
}

/// Adds a wide value as `U+` with four digits at least.
fn push_value(text: &mut Vec<u8>, character: u32) -> Result<(), AllocError> {
    text.extend_from_slice(b"U+")?;
    let mut is_begun = false;
    for place in 0..8u32 {
        let shift = 28u32.saturating_sub(place.saturating_mul(4));
        let digit = ((character >> shift) & 15) as usize;
        if digit != 0 || place >= 4 {
            is_begun = true;
        }
        if is_begun {
            text.push(b"0123456789ABCDEF"[digit])?;
        }
    }
    Ok(())
}
