//! What is found of files, as JSON text.

ghost use Rattle.std.specs.Prelude.{◌≡◌, IfErr};
ghost use Rattle.tool_messages.specs.declared.answer.Problem.TheVariants.{Memory};

use crate::checked::{Checking, charmap_summary, locale_summary};
use crate::odd::{finding_words, oddity_name, source_findings};
use crate::told_once::{Told, is_new};
use crate::{Fault, Finding, faults_of, is_charmap};
use lc_base::{ByteText, Place, Reason, TextFault, next_line, push_number};
use reason_rules::{name_of, rule_of};
use std::alloc::{AllocError, Global};
use std::rt::Files;
use tool_files::{
    FaultParts, Loaded, Sources, Wanted, charset_of, fault_parts, file_text, library_of, load_with,
};
use tool_json::{Writer, push_flag, push_member, push_number_member, push_text};
use tool_messages::{Problem, line_of};

/// A fault with its rule.
#[derive(Drop)]
struct RuledFault {
    parts: FaultParts,
    rule: &'static str,
}

/// What a file is found to be.
#[derive(Drop)]
enum Found {
    /// With its summary, which is empty where none is asked for.
    Accepted(ByteText),
    Refused(Vec<RuledFault>),
}

/// Checks a file, and adds what it is found to be as an object: its path, whether it is accepted, its summary where
/// it is asked for, why it cannot be checked where that is so, and those of its findings and faults that are not
/// told yet. Whether it is accepted. It fails only when it is out of memory.
pub fn push_file_json<R: Files>(
    rt: &R,
    alloc: Global,
    how: &Checking<'_>,
    path: &str,
    told: &mut Told,
    json: &mut Writer,
) -> Result<bool, Problem>
    ensures memory { IfErr result (λ problem. problem ≡ Memory) }
{
    match file_found(rt, alloc, how, path) {
        Ok(found) => Ok(push_found(alloc, how, path, &found, told, json)?),
        Err(Problem::Memory) => Err(Problem::Memory),
        Err(problem) => Ok(push_problem_json(alloc, path, problem.message(), json)?),
    }
}

/// Adds the object of a file that cannot be checked, with what is told of it. The file is not accepted.
pub fn push_problem_json(
    alloc: Global,
    path: &str,
    message: &[u8],
    json: &mut Writer,
) -> Result<bool, AllocError> {
    push_head(alloc, json, path, false)?;
    let told = message.strip_suffix(b"\n").unwrap_or(message);
    push_member(alloc, json, "problem", told)?;
    json.key("faults")?;
    json.begin_array()?;
    json.end_array()?;
    json.end_object()?;
    Ok(false)
}

fn file_found<R: Files>(
    rt: &R,
    alloc: Global,
    how: &Checking<'_>,
    path: &str,
) -> Result<Found, Problem> {
    match file_text(rt, alloc, path) {
        Ok(text) if is_charmap(text.as_bytes()) => Ok(charmap_found(alloc, how, path, text)?),
        Ok(text) => locale_found(rt, alloc, how, path, text),
        Err(problem) => Err(problem),
    }
}

/// What the text of a charmap is found to be.
fn charmap_found(
    alloc: Global,
    how: &Checking<'_>,
    path: &str,
    text: ByteText,
) -> Result<Found, AllocError> {
    let mut sources = Sources::new(alloc);
    sources.add_charmap(alloc, path, text)?;
    match charset_of(alloc, &sources) {
        Ok(charset) => Ok(Found::Accepted(charmap_summary(alloc, how.summary, path, &charset)?)),
        Err(TextFault::At(place, reason)) => {
            let mut faults = Vec::new(alloc);
            let parts = fault_parts(alloc, &sources, None, place, reason)?;
            push_ruled(&mut faults, parts, name_of(reason))?;
            Ok(Found::Refused(faults))
        }
        Err(TextFault::Memory) => Err(AllocError),
    }
}

/// What the text of a source is found to be.
fn locale_found<R: Files>(
    rt: &R,
    alloc: Global,
    how: &Checking<'_>,
    path: &str,
    text: ByteText,
) -> Result<Found, Problem> {
    let wanted = Wanted {
        locale: Some(path),
        charmap: how.charmap,
        folders: how.folders,
    };
    match load_with(rt, alloc, &wanted, Some((path, text)), how.summary) {
        Ok(loaded) => Ok(loaded_found(alloc, how, path, &loaded)?),
        Err(problem) => Err(problem),
    }
}

/// What sources that were read are found to be.
fn loaded_found(
    alloc: Global,
    how: &Checking<'_>,
    path: &str,
    loaded: &Loaded,
) -> Result<Found, AllocError> {
    let findings = source_findings(alloc, loaded.sources.locales.as_slice())?;
    let mut faults = Vec::new(alloc);
    push_findings(alloc, &mut faults, path, loaded, findings.as_slice())?;
    match library_of(alloc, &loaded.sources) {
        Ok(library) if faults.is_empty() => Ok(Found::Accepted(locale_summary(
            alloc,
            how.summary,
            path,
            loaded,
            &library,
        )?)),
        Ok(_) => Ok(Found::Refused(faults)),
        Err(TextFault::At(place, reason)) => {
            push_faults(alloc, &mut faults, loaded, Fault { place, reason })?;
            Ok(Found::Refused(faults))
        }
        Err(TextFault::Memory) => Err(AllocError),
    }
}

/// Adds what is found of a source that its reader passes over.
fn push_findings(
    alloc: Global,
    faults: &mut Vec<RuledFault>,
    path: &str,
    loaded: &Loaded,
    findings: &[Finding],
) -> Result<(), AllocError> {
    let text = match loaded.sources.locales.as_slice() {
        [first, ..] => first.text.as_bytes(),
        [] => b"",
    };
    for finding in findings {
        let parts = finding_parts(alloc, path, text, *finding)?;
        push_ruled(faults, parts, oddity_rule(*finding))?;
    }
    Ok(())
}

fn finding_parts(
    alloc: Global,
    path: &str,
    text: &[u8],
    finding: Finding,
) -> Result<FaultParts, AllocError> {
    let source = line_of(text, finding.place.line);
    let told = finding_words(alloc, finding.oddity, source)?;
    Ok(FaultParts {
        file: ByteText::of(alloc, path.as_bytes())?,
        place: finding.place,
        reason: ByteText::of(alloc, oddity_name(finding.oddity))?,
        told: ByteText::from_vec(told),
        source: ByteText::of(alloc, source)?,
        hints: ByteText::from_vec(Vec::new(alloc)),
    })
}

/// The name of the row of a finding's rule.
fn oddity_rule(finding: Finding) -> &'static str {
    str::from_utf8(oddity_name(finding.oddity)).unwrap_or("")
}

/// Adds the faults of sources, with their first one.
fn push_faults(
    alloc: Global,
    faults: &mut Vec<RuledFault>,
    loaded: &Loaded,
    first: Fault,
) -> Result<(), AllocError> {
    let found = faults_of(alloc, &loaded.sources, &loaded.charset, first)?;
    for fault in found.as_slice() {
        let (place, reason): (Place, Reason) = (fault.place, fault.reason);
        let charset = Some(&loaded.charset);
        let parts = fault_parts(alloc, &loaded.sources, charset, place, reason)?;
        push_ruled(faults, parts, name_of(reason))?;
    }
    Ok(())
}

/// Adds a fault with the rule of the row that has a name.
fn push_ruled(
    faults: &mut Vec<RuledFault>,
    parts: FaultParts,
    name: &str,
) -> Result<(), AllocError> {
    faults.push(RuledFault {
        parts,
        rule: rule_of(name),
    })?;
    Ok(())
}

/// Adds the object of a file. Whether it is accepted.
fn push_found(
    alloc: Global,
    how: &Checking<'_>,
    path: &str,
    found: &Found,
    told: &mut Told,
    json: &mut Writer,
) -> Result<bool, AllocError> {
    match found {
        Found::Accepted(summary) => {
            push_head(alloc, json, path, true)?;
            if how.summary {
                push_member(alloc, json, "summary", summary.as_bytes())?;
            }
            push_untold_faults(alloc, json, told, &[])?;
            Ok(true)
        }
        Found::Refused(faults) => {
            push_head(alloc, json, path, false)?;
            push_untold_faults(alloc, json, told, faults.as_slice())?;
            Ok(false)
        }
    }
}

/// Opens the object of a file.
fn push_head(
    alloc: Global,
    json: &mut Writer,
    path: &str,
    is_accepted: bool,
) -> Result<(), AllocError> {
    json.begin_object()?;
    push_member(alloc, json, "file", path.as_bytes())?;
    push_flag(json, "accepted", is_accepted)
}

/// Adds the faults that are not told yet, and closes the object of their file.
fn push_untold_faults(
    alloc: Global,
    json: &mut Writer,
    told: &mut Told,
    faults: &[RuledFault],
) -> Result<(), AllocError> {
    json.key("faults")?;
    json.begin_array()?;
    for fault in faults {
        if is_new(told, key_of(alloc, &fault.parts)?)? {
            push_fault_json(alloc, json, fault)?;
        }
    }
    json.end_array()?;
    json.end_object()
}

/// The file, the place, the reason and what is wrong: what tells a fault from others.
fn key_of(alloc: Global, parts: &FaultParts) -> Result<Vec<u8>, AllocError> {
    let mut key = Vec::new(alloc);
    key.extend_from_slice(parts.file.as_bytes())?;
    key.extend_from_slice(b":")?;
    push_number(&mut key, u128::from(parts.place.line))?;
    key.extend_from_slice(b":")?;
    push_number(&mut key, u128::from(parts.place.column))?;
    key.extend_from_slice(b": ")?;
    key.extend_from_slice(parts.reason.as_bytes())?;
    key.extend_from_slice(b": ")?;
    key.extend_from_slice(parts.told.as_bytes())?;
    Ok(key)
}

fn push_fault_json(alloc: Global, json: &mut Writer, fault: &RuledFault) -> Result<(), AllocError> {
    let parts = &fault.parts;
    json.begin_object()?;
    push_member(alloc, json, "file", parts.file.as_bytes())?;
    push_number_member(json, "line", u64::from(parts.place.line))?;
    push_number_member(json, "column", u64::from(parts.place.column))?;
    push_member(alloc, json, "reason", parts.reason.as_bytes())?;
    push_member(alloc, json, "rule", fault.rule.as_bytes())?;
    push_member(alloc, json, "message", parts.told.as_bytes())?;
    push_member(alloc, json, "text", parts.source.as_bytes())?;
    json.key("hints")?;
    json.begin_array()?;
    push_hints_json(alloc, json, parts.hints.as_bytes())?;
    json.end_array()?;
    json.end_object()
}

/// Adds hints that stand in a line each.
fn push_hints_json(alloc: Global, json: &mut Writer, hints: &[u8]) -> Result<(), AllocError> {
    let mut rest = hints;
    for _ in 0..hints.len() {
        match next_line(rest) {
            Some((line, following)) => {
                push_text(alloc, json, line.strip_prefix(b"hint: ").unwrap_or(line))?;
                rest = following;
            }
            None => return Ok(()),
        }
    }
    Ok(())
}
