//! Files that are checked.

ghost use Rattle.std.specs.Prelude.{◌≡◌, [], ◌++◌, IfOk, IfErr, if◌then◌else◌};
ghost use Rattle.tool_messages.specs.declared.answer.Problem.TheVariants.{Memory};
ghost use Rattle.tool_messages.specs.Message.{BeginsWith};
ghost use Rattle.tool_messages.specs.Status.{IsSpoken};
ghost use Rattle.tool_files.specs.Told.{IsFileMessage};
ghost use Rattle.tool_check.specs.Checked.{accepted, refused, AreMessages, AreMessagesFrom, AreAllMessages, IsAcceptedOf, IsSummary, IsFound, IsCharmapFound, IsChecked, IsWritten};
ghost use Rattle.tool_check.specs.Odd.{AreFindingMessages};
ghost use Rattle.tool_check.specs.Summary.{accepted_line, charmap_summary};

use crate::declared::declared_classes;
use crate::odd::{finding_messages, joined, source_findings};
use crate::summary::{push_charmap, push_locale};
use crate::told_once::{Told, push_untold};
use crate::{Fault, Finding, faults_of, is_charmap};
use category_store::{Library, Share};
use charset::Charset;
use keywords::Section;
use lc_base::{ByteText, List, TextFault};
use std::alloc::{AllocError, Global};
use std::rt::Files;
use tool_files::{
    Loaded, Sources, Wanted, charset_of, fault_message, file_text, library_of, load_with,
};
use tool_messages::Problem;

/// What is checked.
#[derive(Clone, Copy)]
pub struct Checking<'a> {
    /// The charmap, and the folders of copied locales.
    pub charmap: Option<&'a str>,
    pub folders: &'a [&'a str],
    /// Whether what is accepted is summed up.
    pub summary: bool,
}

/// What a file is found to be.
#[derive(Drop)]
pub enum Checked {
    /// With its summary, which is empty where none is asked for.
    Accepted(ByteText),
    /// With the messages of its findings and its faults.
    Refused(ByteText),
}

/// Checks a file: adds its summary to the output where it is asked for, or to the messages those of its findings
/// and its faults that are not told yet, and where all are, a line that says so.
/// Whether it is accepted. It fails only when it is out of memory.
#[tactic(auto, using(crate::proofs::CheckedLemmas::accepted_written, crate::proofs::CheckedLemmas::refused_written, crate::proofs::CheckedLemmas::added_written))]
pub fn check_file<R: Files>(
    rt: &R,
    alloc: Global,
    how: &Checking<'_>,
    path: &str,
    told: &mut Told,
    output: &mut Vec<u8>,
    messages: &mut Vec<u8>,
) -> Result<bool, Problem>
    ensures written { IfOk result (λ accepted. IsWritten accepted how.now.summary path.now output.old.items output.new.items messages.old.items messages.new.items) }
    ensures memory { IfErr result (λ problem. problem ≡ Memory) }
{
    match file_checked(rt, alloc, how, path) {
        Ok(Checked::Accepted(summary)) => {
            output.extend_from_slice(summary.as_bytes())?;
            Ok(true)
        }
        Ok(Checked::Refused(faults)) => {
            push_untold(messages, told, path, faults.as_bytes())?;
            Ok(false)
        }
        Err(problem) => {
            messages.extend_from_slice(problem.message())?;
            Ok(false)
        }
    }
}

fn file_checked<R: Files>(
    rt: &R,
    alloc: Global,
    how: &Checking<'_>,
    path: &str,
) -> Result<Checked, Problem>
    ensures found { IfOk result (IsChecked how.now.summary path.now) }
    ensures spoken { IfErr result IsSpoken }
{
    match file_text(rt, alloc, path) {
        Ok(text) if is_charmap(text.as_bytes()) => {
            Ok(charmap_text_checked(alloc, how.summary, path, text)?)
        }
        Ok(text) => locale_checked(rt, alloc, how, path, text),
        Err(problem) => Err(problem),
    }
}

/// What the text of a charmap is found to be.
#[tactic(auto, using(crate::proofs::CheckedLemmas::all_charmap_found_checked))]
fn charmap_text_checked(
    alloc: Global,
    is_asked: bool,
    path: &str,
    text: ByteText,
) -> Result<Checked, AllocError>
    ensures { IfOk result (IsChecked is_asked path.now) }
{
    let mut sources = Sources::new(alloc);
    match sources.add_charmap(alloc, path, text) {
        Ok(()) => charmap_checked(alloc, is_asked, path, &sources),
        Err(_) => Err(AllocError),
    }
}

/// What a charmap that was read is found to be: accepted where it gives a charset, and else refused, with the
/// message of its first fault.
pub fn charmap_checked(
    alloc: Global,
    is_asked: bool,
    path: &str,
    sources: &Sources,
) -> Result<Checked, AllocError>
    ensures { IfOk result (IsCharmapFound is_asked path.now sources.now) }
{
    match charset_of(alloc, sources) {
        Ok(charset) => accepted(charmap_summary(alloc, is_asked, path, &charset)),
        Err(TextFault::At(place, reason)) => {
            refused(fault_message(alloc, sources, None, place, reason))
        }
        Err(TextFault::Memory) => Err(AllocError),
    }
}

/// That a file is accepted, with its summary.
fn accepted(summary: Result<ByteText, AllocError>) -> Result<Checked, AllocError>
    ensures { result ≡ accepted summary }
{
    Ok(Checked::Accepted(summary?))
}

/// That a file is refused, with the messages of its faults.
fn refused(messages: Result<ByteText, AllocError>) -> Result<Checked, AllocError>
    ensures { result ≡ refused messages }
{
    Ok(Checked::Refused(messages?))
}

/// The summary of a charmap, if it is asked for.
pub fn charmap_summary(
    alloc: Global,
    is_asked: bool,
    path: &str,
    charset: &Charset,
) -> Result<ByteText, AllocError>
    ensures { IfOk result (λ summary. summary ≡ (if is_asked then charmap_summary path.now charset.now else [])) }
{
    let mut summary = Vec::new(alloc);
    if is_asked {
        push_charmap(&mut summary, path.as_bytes(), charset)?;
    }
    Ok(ByteText::from_vec(summary))
}

#[tactic(auto, using(crate::proofs::CheckedLemmas::found_checked))]
fn locale_checked<R: Files>(
    rt: &R,
    alloc: Global,
    how: &Checking<'_>,
    path: &str,
    text: ByteText,
) -> Result<Checked, Problem>
    ensures found { IfOk result (IsChecked how.now.summary path.now) }
    ensures spoken { IfErr result IsSpoken }
{
    let wanted = Wanted {
        locale: Some(path),
        charmap: how.charmap,
        folders: how.folders,
    };
    match load_with(rt, alloc, &wanted, Some((path, text)), how.summary) {
        Ok(loaded) => Ok(sources_checked(alloc, how.summary, path, &loaded)?),
        Err(problem) => Err(problem),
    }
}

/// What sources that were read are found to be: accepted where they give a library, and the first one has nothing
/// that its reader passes over. Else refused, with the messages of what is found of that one, and of the faults of
/// all, among them that of the first one.
pub fn sources_checked(
    alloc: Global,
    is_asked: bool,
    path: &str,
    loaded: &Loaded,
) -> Result<Checked, AllocError>
    ensures { IfOk result (IsFound is_asked path.now loaded.now.sources) }
{
    let findings = source_findings(alloc, loaded.sources.locales.as_slice())?;
    match library_of(alloc, &loaded.sources) {
        Ok(library) => {
            library_checked(alloc, is_asked, path, loaded, &library, findings.as_slice())
        }
        Err(TextFault::At(place, reason)) => {
            let fault = Fault { place, reason };
            refused(all_messages(alloc, path, loaded, findings.as_slice(), fault))
        }
        Err(TextFault::Memory) => Err(AllocError),
    }
}

/// What sources are found to be that give a library.
#[tactic(auto, using(crate::proofs::CheckedLemmas::nothing_odd, crate::proofs::CheckedLemmas::all_odd))]
fn library_checked(
    alloc: Global,
    is_asked: bool,
    path: &str,
    loaded: &Loaded,
    library: &Library,
    findings: &[Finding],
) -> Result<Checked, AllocError>
    ensures { IfOk result (IsAcceptedOf is_asked path.now findings.now) }
{
    if findings.is_empty() {
        return accepted(locale_summary(alloc, is_asked, path, loaded, library));
    }
    let locales = loaded.sources.locales.as_slice();
    refused(finding_messages(alloc, path, locales, findings))
}

/// The messages of findings, and behind them those of faults.
#[tactic(auto, using(crate::proofs::CheckedLemmas::all_told))]
fn all_messages(
    alloc: Global,
    path: &str,
    loaded: &Loaded,
    findings: &[Finding],
    first: Fault,
) -> Result<ByteText, AllocError>
    ensures { IfOk result (AreAllMessages path.now findings.now loaded.now.sources first) }
{
    let locales = loaded.sources.locales.as_slice();
    let found = finding_messages(alloc, path, locales, findings)?;
    let faults = fault_messages(alloc, loaded, first)?;
    joined(found, faults.as_bytes())
}

/// The summary of a locale, if it is asked for.
pub fn locale_summary(
    alloc: Global,
    is_asked: bool,
    path: &str,
    loaded: &Loaded,
    library: &Library,
) -> Result<ByteText, AllocError>
    ensures { IfOk result (IsSummary is_asked path.now) }
{
    if !is_asked {
        return Ok(ByteText::from_vec(Vec::new(alloc)));
    }
    summary_of(alloc, path, loaded, library)
}

/// The summary of a locale.
fn summary_of(
    alloc: Global,
    path: &str,
    loaded: &Loaded,
    library: &Library,
) -> Result<ByteText, AllocError>
    ensures { IfOk result (BeginsWith (accepted_line path.now)) }
{
    let mut summary = Vec::new(alloc);
    let read = loaded.sections.as_slice();
    let sections = first_sections(read)?;
    let ctype = library.compiled(Share { number: 1 }).ctype();
    let declared = declared_classes(alloc, read, ctype)?;
    push_locale(
        &mut summary,
        path.as_bytes(),
        sections,
        &loaded.charset,
        ctype,
        declared.as_slice(),
    )?;
    Ok(ByteText::from_vec(summary))
}

/// The sections of the first source, which was accepted.
fn first_sections(read: &[Option<List<Section>>]) -> Result<&[Section], AllocError> {
    match read {
        [Some(first), ..] => Ok(first.as_slice()),
        [None, ..] | [] => Err(AllocError),
    }
}

/// The messages of the faults of a source, with its first one.
#[tactic(auto, using(crate::proofs::CheckedLemmas::messages_from))]
fn fault_messages(alloc: Global, loaded: &Loaded, first: Fault) -> Result<ByteText, AllocError>
    ensures { IfOk result (AreMessagesFrom loaded.now.sources first) }
{
    let faults = faults_of(alloc, &loaded.sources, &loaded.charset, first)?;
    messages_of(alloc, loaded, faults.as_slice())
}

/// The messages of faults, one after another.
#[tactic(auto, using(crate::proofs::CheckedLemmas::one_more_message))]
fn messages_of(alloc: Global, loaded: &Loaded, faults: &[Fault]) -> Result<ByteText, AllocError>
    ensures { IfOk result (AreMessages loaded.now.sources.paths.items faults.now) }
{
    match faults {
        [] => Ok(ByteText::from_vec(Vec::new(alloc))),
        [first, later @ ..] => {
            let message = message_of(alloc, loaded, *first)?;
            let rest = messages_of(alloc, loaded, later)?;
            joined(message, rest.as_bytes())
        }
    }
}

fn message_of(alloc: Global, loaded: &Loaded, fault: Fault) -> Result<ByteText, AllocError>
    ensures { IfOk result (IsFileMessage loaded.now.sources.paths.items fault.place fault.reason) }
{
    let charset = Some(&loaded.charset);
    fault_message(alloc, &loaded.sources, charset, fault.place, fault.reason)
}
