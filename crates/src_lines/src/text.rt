//! Runs of atoms and texts in quotes (XBD 7.3.1).

ghost use Rattle.std.specs.Prelude.{◌≡◌, ◌<◌, ◌≤◌, length, IfOk, if◌then◌else◌};
ghost use Rattle.lc_base.specs.declared.fault.TextFault.TheVariants.{At};
ghost use Rattle.lc_base.specs.declared.reason.Reason.TheVariants.{OpenString};
ghost use Rattle.lc_base.specs.Reading.{Gives, Fails};
ghost use Rattle.src_lines.specs.Places.{place_at};
ghost use Rattle.src_lines.specs.Rows.{line_of};
ghost use Rattle.src_lines.specs.Atoms.{items_from};
ghost use Rattle.src_lines.specs.Tokens.{has_bare, ends_run, is_closed, run, text};

use crate::LogicalLine;
use crate::atom::{Atom, next_atom};
use crate::cells::Atoms;
use crate::pieces::Pieces;
use lc_base::{Reason, TextFault, is_blank};
use std::alloc::{AllocError, Global};

/// What ends a run.
#[derive(Clone, Copy)]
pub enum RunEnd {
    /// A bare blank, as in a field.
    AtBlank,
    /// A bare blank or a bare `;`, as among operands.
    AtSeparator,
}

/// Whether an atom ends a run.
fn ends_run(end: RunEnd, atom: &Atom) -> bool
    ensures { result ≡ ends_run end atom.now }
{
    match (end, atom) {
        (RunEnd::AtBlank, Atom::Bare(byte)) => is_blank(*byte),
        (RunEnd::AtSeparator, Atom::Bare(byte)) => is_blank(*byte) || *byte == b';',
        (_, Atom::Number(_) | Atom::Made(_)) => false,
    }
}

/// Whether what was read is this byte, bare.
pub fn has_bare(byte: u8, read: &Result<Atom, Reason>) -> bool
    ensures { result ≡ has_bare byte read.now }
{
    match read {
        Ok(atom) => atom.is_bare(byte),
        Err(_) => false,
    }
}

/// A run from a byte of a line on: its atoms, and where it ends.
pub fn run(
    alloc: Global,
    row: &LogicalLine<'_>,
    run_end: RunEnd,
    at: usize,
) -> Result<(Atoms, usize), TextFault>
    requires { at ≤ length row.now.bytes.now }
    ensures is { Gives (λ x. (x.0, items_from (line_of row.now) x.1)) result (run run_end (items_from (line_of row.now) at)) }
    ensures within { IfOk result (λ x. x.1 ≤ length row.now.bytes.now) }
    ensures forward { IfOk result (λ x. at ≤ x.1) }
{
    let mut atoms = Atoms::new(alloc);
    let mut end = at;
    while let Some((read, next)) = next_atom(alloc, row, end)? {
        let atom = match read {
            Ok(atom) => atom,
            Err(reason) => return Err(TextFault::At(row.place_at(end), reason)),
        };
        if ends_run(run_end, &atom) {
            return Ok((atoms, end));
        }
        atoms = atoms.with(atom)?;
        end = next;
    }
    Ok((atoms, end))
}

/// Whether a closing quote comes.
fn is_closed(alloc: Global, row: &LogicalLine<'_>, at: usize) -> Result<bool, AllocError>
    requires { at ≤ length row.now.bytes.now }
    ensures { IfOk result (λ b. b ≡ is_closed (items_from (line_of row.now) at)) }
{
    let mut end = at;
    while let Some((read, next)) = next_atom(alloc, row, end)? {
        if has_bare(b'"', &read) {
            return Ok(true);
        }
        end = next;
    }
    Ok(false)
}

/// A text whose opening quote is the byte `quote`, from the byte after it on: its pieces, and where
/// it ends.
pub fn text(
    alloc: Global,
    row: &LogicalLine<'_>,
    quote: usize,
    at: usize,
) -> Result<(Pieces, usize), TextFault>
    requires quote { quote ≤ length row.now.bytes.now }
    requires at { at ≤ length row.now.bytes.now }
    ensures is { Gives (λ x. (x.0, items_from (line_of row.now) x.1)) result (text (place_at (line_of row.now) quote) (items_from (line_of row.now) at)) }
    ensures within { IfOk result (λ x. x.1 ≤ length row.now.bytes.now) }
    ensures forward { IfOk result (λ x. at ≤ x.1) }
{
    let mut atoms = Atoms::new(alloc);
    let mut end = at;
    while let Some((read, next)) = next_atom(alloc, row, end)? {
        let atom = match read {
            Ok(atom) => atom,
            Err(reason) => return Err(fault_in_text(alloc, row, quote, end, next, reason)?),
        };
        if atom.is_bare(b'"') {
            return Ok((Pieces::of(atoms), next));
        }
        atoms = atoms.with(atom)?;
        end = next;
    }
    Err(TextFault::At(row.place_at(quote), Reason::OpenString))
}

/// The fault of a text that is wrong at the byte `at`, before the byte `next`: an open text goes
/// first.
fn fault_in_text(
    alloc: Global,
    row: &LogicalLine<'_>,
    quote: usize,
    at: usize,
    next: usize,
    reason: Reason,
) -> Result<TextFault, AllocError>
    requires quote { quote ≤ length row.now.bytes.now }
    requires at { at ≤ length row.now.bytes.now }
    requires next { next ≤ length row.now.bytes.now }
    ensures { IfOk result (λ e. e ≡ (if is_closed (items_from (line_of row.now) next) then At (place_at (line_of row.now) at) reason else At (place_at (line_of row.now) quote) OpenString)) }
{
    if is_closed(alloc, row, next)? {
        Ok(TextFault::At(row.place_at(at), reason))
    } else {
        Ok(TextFault::At(row.place_at(quote), Reason::OpenString))
    }
}
