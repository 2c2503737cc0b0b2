//! The parts of a source, each by itself. What a line is to them is only guessed here: it decides which
//! faults are looked for behind the first one, and never whether a source is accepted.

ghost use Rattle.std.specs.Prelude.{◌≡◌, ◌++◌, length, IfOk, OnOk, if◌then◌else◌, []};
ghost use Rattle.std.specs.Option.{option_copied};
ghost use Rattle.lc_base.specs.Lines.{lines_of, ended};
ghost use Rattle.tool_check.specs.Looks.{at_first, begins, behind_line, block_alone, closes, ends, is_end, is_header, is_kept, is_sign, is_sign_line, is_sign_operand, lines_alone, look_at, seen_line, text_alone};

use crate::texts::{are_spaces, from_mark, from_word, is_alone, operand};
use lc_base::{Block, ByteText, Category, next_line};
use std::alloc::{AllocError, Global};

/// How many looks there are: one at what stands outside of sections, and one at each category.
pub const LOOK_COUNT: u32 = 6;

/// What is looked at by itself.
#[derive(Clone, Copy)]
pub enum Look {
    /// What stands outside of sections, with the lines that open and close them.
    Outside,
    /// The first section of a category, with the sign lines.
    Section(Category),
}

/// The look with a number, from 0.
pub fn look_at(number: u32) -> Look
    ensures { result ≡ look_at number }
{
    match number {
        0 => Look::Outside,
        1 => Look::Section(Category::Ctype),
        2 => Look::Section(Category::Numeric),
        3 => Look::Section(Category::Monetary),
        4 => Look::Section(Category::Time),
        _ => Look::Section(Category::Messages),
    }
}

/// What the lines that were passed have.
#[derive(Clone, Copy)]
struct Passed {
    /// Whether a section began.
    has_begun: bool,
    /// Whether they end in a section that is looked at; where what is outside is looked at, in any.
    is_inside: bool,
    /// Whether such a section ended.
    is_over: bool,
}

/// A text in which the lines are empty that are not looked at: each line keeps its number.
fn text_alone(alloc: Global, text: &[u8], look: Look) -> Result<ByteText, AllocError>
    ensures is { IfOk result (λ alone. alone ≡ text_alone look text.now) }
    ensures lines { IfOk result (λ alone. lines_of alone ≡ lines_alone look at_first (lines_of text.now)) }
    ensures numbered { IfOk result (λ alone. length (lines_of alone) ≡ length (lines_of text.now)) }
{
    let mut alone = Vec::new(alloc);
    let mut passed = at_first();
    let mut rest = text;
    while let Some((line, following)) = next_line(rest) {
        let seen = seen_line(passed, line);
        push_kept(&mut alone, seen, is_kept(look, passed, seen))?;
        passed = behind_line(look, passed, seen);
        rest = following;
    }
    Ok(ByteText::from_vec(alone))
}

/// Before the first line.
fn at_first() -> Passed
    ensures { result ≡ at_first }
{
    Passed {
        has_begun: false,
        is_inside: false,
        is_over: false,
    }
}

/// A line as it is taken: outside of sections without a byte order mark.
fn seen_line(passed: Passed, line: &[u8]) -> &[u8]
    ensures { result.now ≡ seen_line passed line.now }
{
    if passed.is_inside {
        return line;
    }
    from_mark(line)
}

/// Whether a line is looked at.
fn is_kept(look: Look, passed: Passed, line: &[u8]) -> bool
    ensures { result ≡ is_kept look passed line.now }
{
    match look {
        Look::Outside => !passed.is_inside || is_end(line),
        Look::Section(_) => {
            passed.is_inside
                || begins(look, passed, line)
                || (!passed.has_begun && is_sign_line(line))
        }
    }
}

/// What the lines have up to this one.
fn behind_line(look: Look, passed: Passed, line: &[u8]) -> Passed
    ensures { result ≡ behind_line look passed line.now }
{
    Passed {
        has_begun: passed.has_begun || is_header(line),
        is_inside: if passed.is_inside {
            !ends(look, line)
        } else {
            begins(look, passed, line)
        },
        is_over: passed.is_over || (passed.is_inside && ends(look, line)),
    }
}

/// Whether a line opens a section that is looked at; where what is outside is looked at, any.
fn begins(look: Look, passed: Passed, line: &[u8]) -> bool
    ensures { result ≡ begins look passed line.now }
{
    match look {
        Look::Outside => is_header(line),
        Look::Section(category) => !passed.is_over && is_alone(category.name(), line),
    }
}

/// Whether a line closes such a section.
fn ends(look: Look, line: &[u8]) -> bool
    ensures { result ≡ ends look line.now }
{
    match look {
        Look::Outside => is_end(line),
        Look::Section(category) => closes(category.name(), line),
    }
}

/// Whether a line opens a section.
fn is_header(line: &[u8]) -> bool
    ensures { result ≡ is_header line.now }
{
    from_word(line).starts_with(b"LC_")
}

/// Whether a line closes a section.
fn is_end(line: &[u8]) -> bool
    ensures { result ≡ is_end line.now }
{
    match operand(b"END", line) {
        Some(name) => is_header(name),
        None => false,
    }
}

/// Whether a line closes the section with this name.
fn closes(name: &[u8], line: &[u8]) -> bool
    ensures { result ≡ closes name.now line.now }
{
    match operand(b"END", line) {
        Some(rest) => is_alone(name, rest),
        None => false,
    }
}

/// Whether a line gives a sign.
fn is_sign_line(line: &[u8]) -> bool
    ensures { result ≡ is_sign_line line.now }
{
    is_sign_operand(operand(b"escape_char", line))
        || is_sign_operand(operand(b"comment_char", line))
}

/// Whether what stands behind a word is there and is one sign.
fn is_sign_operand(rest: Option<&[u8]>) -> bool
    ensures { result ≡ is_sign_operand (option_copied rest.entry) }
{
    match rest {
        Some(rest) => is_sign(from_word(rest)),
        None => false,
    }
}

/// Whether a text is one sign, and blanks.
fn is_sign(text: &[u8]) -> bool
    ensures { result ≡ is_sign text.now }
{
    match text {
        [sign, blanks @ ..] => 0x21 <= *sign && *sign <= 0x7e && are_spaces(blanks),
        [] => false,
    }
}

/// Adds a line, or an empty one in its place.
fn push_kept(text: &mut Vec<u8>, line: &[u8], is_kept: bool) -> Result<(), AllocError>
    ensures { OnOk result (text.new.items ≡ text.old.items ++ ended (if is_kept then line.now else [])) }
{
    if is_kept {
        text.extend_from_slice(line)?;
    }
    text.extend_from_slice(b"\n")
}

/// A block with what is looked at alone.
pub fn block_alone(alloc: Global, block: &Block, look: Look) -> Result<Block, AllocError>
    ensures { IfOk result (λ alone. alone ≡ block_alone look block.now) }
{
    Ok(Block {
        name: ByteText::of(alloc, block.name.as_bytes())?,
        charset: ByteText::of(alloc, block.charset.as_bytes())?,
        first_line: block.first_line,
        text: text_alone(alloc, block.text.as_bytes(), look)?,
    })
}
