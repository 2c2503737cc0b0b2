//! Faults of files.

ghost use Rattle.std.specs.Prelude.{◌≡◌, ℕ, false, List, ◌++◌, codes, IfOk};
ghost use Rattle.script_out.specs.Output.{newline};
ghost use Rattle.reason_rules.specs.Words.{reason_text};
ghost use Rattle.tool_messages.specs.Message.{BeginsWith, fault_head};
ghost use Rattle.tool_messages.specs.Status.{IsSpoken};
ghost use Rattle.tool_files.specs.Told.{file_of, place_in, is_format, IsMessage, IsFileMessage, IsTold};

use crate::copies::name_at;
use crate::hints::{push_hint_of_bytes, push_hint_of_limit};
use crate::sources::{FilePath, Sources};
use crate::spelled_bytes::{byte_place, from_place};
use charset::Charset;
use lc_base::{Block, ByteText, Place, Reason, TextFault};
use script_out::push_refusal;
use std::alloc::{AllocError, Global};
use tool_messages::{Problem, Spot, line_of, push_fault, push_hints};
use tool_words::{Shown, push_gnu_hint, push_told};

/// What the line of a refusal begins with that has the place of no line.
const PLACE: &[u8] = b"refused: 0:0 ";

/// The problem of a fault in files, of which the charset is given where it was read.
#[tactic(auto, using(crate::proofs::ToldLemmas::message_spoken))]
pub fn fault_problem(
    alloc: Global,
    sources: &Sources,
    charset: Option<&Charset>,
    fault: TextFault,
) -> Problem
    ensures told { IsTold (IsFileMessage sources.now.paths.items) fault result }
    ensures spoken { IsSpoken result }
{
    match fault {
        TextFault::At(place, reason) => {
            match fault_message(alloc, sources, charset, place, reason) {
                Ok(message) => Problem::Refused(message),
                Err(_) => Problem::Memory,
            }
        }
        TextFault::Memory => Problem::Memory,
    }
}

/// The message of a fault: the file with its line and column, the reason, the rule, the line, and hints.
#[tactic(auto, using(crate::proofs::ToldLemmas::file_message))]
pub fn fault_message(
    alloc: Global,
    sources: &Sources,
    charset: Option<&Charset>,
    place: Place,
    reason: Reason,
) -> Result<ByteText, AllocError>
    ensures { IfOk result (IsFileMessage sources.now.paths.items place reason) }
{
    let file = file_of(&sources.paths, place.line);
    let text = text_of(sources, file);
    let spot = shown_place(text, charset, place_in(file, place), reason);
    let source = line_of(text, spot.line);
    let shown = Shown {
        text,
        line: spot.line,
        source,
        column: spot.column,
        reason,
        copied: copied_path(sources, text, spot),
        folders: sources.folders.as_slice(),
    };
    let hints = file_hints(alloc, sources, &shown)?;
    message_of(alloc, file.path, spot, &shown, hints.as_slice())
}

/// A fault as it is told, in parts.
#[derive(Drop)]
pub struct FaultParts {
    pub file: ByteText,
    /// Where it is shown in the file.
    pub place: Place,
    /// The reason, with what it names.
    pub reason: ByteText,
    /// What is wrong, and the rule.
    pub told: ByteText,
    /// The line.
    pub source: ByteText,
    /// The hints, a line each.
    pub hints: ByteText,
}

/// The parts of what is told of a fault in files.
pub fn fault_parts(
    alloc: Global,
    sources: &Sources,
    charset: Option<&Charset>,
    place: Place,
    reason: Reason,
) -> Result<FaultParts, AllocError>
    ensures file { IfOk result (λ parts. parts.file ≡ (file_of sources.now.paths.items place.line).0) }
    ensures place { IfOk result (λ parts. is_format reason ≡ false → parts.place ≡ place_in (file_of sources.now.paths.items place.line).1 place) }
    ensures reason { IfOk result (λ parts. parts.reason ≡ reason_text reason) }
{
    let file = file_of(&sources.paths, place.line);
    let text = text_of(sources, file);
    let spot = shown_place(text, charset, place_in(file, place), reason);
    let source = line_of(text, spot.line);
    let shown = Shown {
        text,
        line: spot.line,
        source,
        column: spot.column,
        reason,
        copied: copied_path(sources, text, spot),
        folders: sources.folders.as_slice(),
    };
    let mut told = Vec::new(alloc);
    push_told(&mut told, &shown)?;
    Ok(FaultParts {
        file: ByteText::of(alloc, file.path)?,
        place: spot,
        reason: reason_words(alloc, reason)?,
        told: ByteText::from_vec(told),
        source: ByteText::of(alloc, source)?,
        hints: ByteText::from_vec(file_hints(alloc, sources, &shown)?),
    })
}

/// The hints beside a fault in files.
fn file_hints(alloc: Global, sources: &Sources, shown: &Shown<'_>) -> Result<Vec<u8>, AllocError> {
    let mut hints = Vec::new(alloc);
    push_gnu_hint(&mut hints, shown.reason, shown.source, shown.column)?;
    push_hint_of_limit(&mut hints, shown.reason)?;
    if sources.charmaps.is_empty() {
        push_hint_of_bytes(&mut hints, shown.source)?;
    }
    push_hints(&mut hints, shown.text, shown.source)?;
    Ok(hints)
}

/// The file of the locale whose name stands at a place.
fn copied_path<'a>(sources: &'a Sources, text: &[u8], place: Place) -> Option<&'a [u8]> {
    let block = block_named(sources.locales.as_slice(), name_at(from_place(text, place)))?;
    Some(file_of(&sources.paths, block.first_line).path)
}

fn block_named<'a>(blocks: &'a [Block], name: &[u8]) -> Option<&'a Block> {
    for block in blocks {
        if block.name.as_bytes() == name {
            return Some(block);
        }
    }
    None
}

/// The problem of a fault in a text that a file has by itself.
#[tactic(auto, using(crate::proofs::ToldLemmas::message_spoken))]
pub fn text_problem(alloc: Global, path: &str, text: &[u8], fault: TextFault) -> Problem
    ensures told { IsTold (IsMessage path.now) fault result }
    ensures spoken { IsSpoken result }
{
    match fault {
        TextFault::At(place, reason) => match text_message(alloc, path, text, place, reason) {
            Ok(message) => Problem::Refused(message),
            Err(_) => Problem::Memory,
        },
        TextFault::Memory => Problem::Memory,
    }
}

#[tactic(auto, using(crate::proofs::ToldLemmas::one_message))]
fn text_message(
    alloc: Global,
    path: &str,
    text: &[u8],
    place: Place,
    reason: Reason,
) -> Result<ByteText, AllocError>
    ensures { IfOk result (IsMessage path.now place reason) }
{
    let spot = shown_place(text, None, place, reason);
    let source = line_of(text, spot.line);
    let shown = Shown {
        text,
        line: spot.line,
        source,
        column: spot.column,
        reason,
        copied: None,
        folders: &[],
    };
    let hints = text_hints(alloc, text, source)?;
    message_of(alloc, path.as_bytes(), spot, &shown, hints.as_slice())
}

/// The hints beside a fault in a text that a file has by itself.
fn text_hints(alloc: Global, text: &[u8], source: &[u8]) -> Result<Vec<u8>, AllocError> {
    let mut hints = Vec::new(alloc);
    push_hint_of_bytes(&mut hints, source)?;
    push_hints(&mut hints, text, source)?;
    Ok(hints)
}

/// A path and the number of its first line.
#[derive(Clone, Copy)]
struct Found<'a> {
    path: &'a [u8],
    first_line: u32,
}

/// The file that a line is in.
fn file_of(paths: &[FilePath], line: u32) -> Found<'_>
    ensures { (result.path.now, result.first_line) ≡ file_of paths.now line }
{
    let mut found = Found {
        path: b"",
        first_line: 1,
    };
    for file in paths {
        if file.first_line <= line {
            found = Found {
                path: file.path.as_bytes(),
                first_line: file.first_line,
            };
        }
    }
    found
}

/// The text of the file whose first line has this number.
fn text_of<'a>(sources: &'a Sources, file: Found<'_>) -> &'a [u8] {
    match text_in(sources.charmaps.as_slice(), file.first_line) {
        Some(text) => text,
        None => match text_in(sources.locales.as_slice(), file.first_line) {
            Some(text) => text,
            None => b"",
        },
    }
}

fn text_in(blocks: &[Block], first_line: u32) -> Option<&[u8]> {
    for block in blocks {
        if block.first_line == first_line {
            return Some(block.text.as_bytes());
        }
    }
    None
}

/// A place by the lines of its file.
fn place_in(file: Found<'_>, place: Place) -> Place
    ensures { result ≡ place_in file.entry.first_line place }
{
    Place {
        line: place.line.saturating_sub(file.first_line).saturating_add(1),
        column: place.column,
    }
}

/// Where a fault is shown: that of a format at the byte that it tells of.
fn shown_place(text: &[u8], charset: Option<&Charset>, place: Place, reason: Reason) -> Place
    ensures { is_format reason ≡ false → result ≡ place }
{
    match reason {
        Reason::BadFormat(number) => byte_place(text, charset, place, number),
        _ => place,
    }
}

/// The message of a fault in a line of a file, with hints.
#[tactic(auto, using(tool_messages::proofs::MessageLemmas::begins_shorter, tool_messages::proofs::MessageLemmas::begins_more))]
fn message_of(
    alloc: Global,
    path: &[u8],
    place: Place,
    shown: &Shown<'_>,
    hints: &[u8],
) -> Result<ByteText, AllocError>
    ensures { IfOk result (BeginsWith (fault_head path.now place.line place.column (reason_text shown.now.reason))) }
{
    let mut message = Vec::new(alloc);
    let spot = Spot {
        file: path,
        line: place.line,
        column: place.column,
        source: shown.source,
    };
    let words = reason_words(alloc, shown.reason)?;
    let mut told = Vec::new(alloc);
    push_told(&mut told, shown)?;
    push_fault(&mut message, &spot, words.as_bytes(), told.as_slice())?;
    message.extend_from_slice(hints)?;
    Ok(ByteText::from_vec(message))
}

/// A reason with what it names.
fn reason_words(alloc: Global, reason: Reason) -> Result<ByteText, AllocError>
    ensures { IfOk result (λ words. words ≡ reason_text reason) }
{
    let mut line = Vec::new(alloc);
    push_refusal(&mut line, Place { line: 0, column: 0 }, reason)?;
    ByteText::of(alloc, words_of(line.as_slice()))
}

/// What stands between the place of a refusal, which is that of no line, and its newline.
fn words_of(line: &[u8]) -> &[u8]
    ensures { (words : List ℕ) → line.now ≡ codes "refused: 0:0 " ++ words ++ newline → result.now ≡ words }
{
    let end = line.len().saturating_sub(1);
    &line[PLACE.len().min(end)..end]
}
