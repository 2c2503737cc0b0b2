//! Libraries that are read, built and joined.

ghost use Rattle.std.specs.Prelude.{◌≡◌, ◌<◌, ◌^◌, [], length, IfOk, OnOk, OnErr, Some};
ghost use Rattle.shared_objects.specs.Locales.{marked_in};
ghost use Rattle.shared_objects.specs.Joined.{joined};
ghost use Rattle.shared_objects.specs.Parts.{marked_built};
ghost use Rattle.c_values.specs.Faults.{IsRead, IsBuilt};
ghost use Rattle.locale_objects.specs.Libraries.{kind_of, IsAdded, IsJoined};

use crate::builder::Builder;
use crate::library_box::LibraryBox;
use c_values::{
    LobjAnswer, LobjFault, NO_ITEM, NO_MEMORY, OK, TOO_MANY, answered, put_text_fault, put_wrong,
};
use lc_base::TextFault;
use library_parts::{LibraryPart, PartFault, PartKind};
use shared_objects::{Draft, JoinFault, MarkedLibrary};
use std::alloc::{AllocError, Global};

/// Reads a text, and puts its library behind a pointer, or tells its fault.
pub fn read_into(
    alloc: Global,
    text: &[u8],
    out: &mut LibraryBox,
    fault: &mut LobjFault,
    buffer: &mut [u8],
) -> Result<LobjAnswer, AllocError>
    requires { length text.now < 2 ^ 31 }
    ensures read { IfOk result (λ a. IsRead text.now (marked_in text.now) a out.old.library out.new.library fault.old fault.new buffer.old buffer.new) }
    ensures kept { OnErr result (out.new.library ≡ out.old.library) }
    ensures same { OnErr result (fault.new ≡ fault.old) }
    ensures untouched { OnErr result (buffer.new ≡ buffer.old) }
{
    match MarkedLibrary::read(alloc, text) {
        Ok(library) => {
            *out = LibraryBox::of(Box::new(alloc, library)?);
            Ok(answered(OK, 0))
        }
        Err(TextFault::At(at, reason)) => {
            put_text_fault(alloc, buffer, fault, 0, text, at, reason)
        }
        Err(TextFault::Memory) => Err(AllocError),
    }
}

/// Builds a library of parts, and puts it behind a pointer, or tells the first that is wrong.
pub fn build_into(
    alloc: Global,
    parts: &[LibraryPart],
    out: &mut LibraryBox,
    fault: &mut LobjFault,
    buffer: &mut [u8],
) -> Result<LobjAnswer, AllocError>
    ensures built { IfOk result (λ a. IsBuilt parts.now (marked_built parts.now) a out.old.library out.new.library fault.old fault.new buffer.old buffer.new) }
    ensures kept { OnErr result (out.new.library ≡ out.old.library) }
    ensures same { OnErr result (fault.new ≡ fault.old) }
    ensures untouched { OnErr result (buffer.new ≡ buffer.old) }
{
    match MarkedLibrary::build(alloc, parts) {
        Ok(library) => {
            *out = LibraryBox::of(Box::new(alloc, library)?);
            Ok(answered(OK, 0))
        }
        Err(PartFault::At(number, wrong)) => {
            put_wrong(alloc, buffer, fault, parts, number, wrong)
        }
        Err(PartFault::Memory) => Err(AllocError),
    }
}

/// Joins two libraries, and puts what they make behind a pointer.
pub fn join_into(
    alloc: Global,
    first: &MarkedLibrary,
    second: &MarkedLibrary,
    out: &mut LibraryBox,
) -> Result<LobjAnswer, AllocError>
    ensures joined { IfOk result (λ a. IsJoined (joined first.now second.now) a out.old.library out.new.library) }
    ensures kept { OnErr result (out.new.library ≡ out.old.library) }
{
    match MarkedLibrary::join(alloc, first, second) {
        Ok(library) => {
            *out = LibraryBox::of(Box::new(alloc, library)?);
            Ok(answered(OK, 0))
        }
        Err(JoinFault::TooMany) => Ok(answered(TOO_MANY, 0)),
        Err(JoinFault::Memory) => Err(AllocError),
    }
}

/// Puts a builder without parts behind a pointer.
pub fn begin_into(alloc: Global, out: &mut Builder) -> Result<(), AllocError>
    ensures begun { OnOk result (out.new.parts ≡ Some []) }
    ensures kept { OnErr result (out.new.parts ≡ out.old.parts) }
{
    *out = Builder::of(Box::new(alloc, Draft::new(alloc))?);
    Ok(())
}

/// The kind of parts with a number.
pub fn kind_of(number: u32) -> Option<PartKind>
    ensures { result ≡ kind_of number }
{
    match number {
        0 => Some(PartKind::Charmap),
        1 => Some(PartKind::Source),
        2 => Some(PartKind::Catalog),
        _ => None,
    }
}

/// Adds a part to others, where its kind is one.
pub fn add_part(
    alloc: Global,
    draft: &mut Draft,
    number: u32,
    name: &[u8],
    label: &[u8],
    text: &[u8],
) -> LobjAnswer
    ensures { IsAdded (kind_of number) name.now label.now text.now result draft.old draft.new }
{
    match kind_of(number) {
        None => answered(NO_ITEM, 0),
        Some(kind) => match draft.add(alloc, kind, name, label, text) {
            Ok(()) => answered(OK, 0),
            Err(_) => answered(NO_MEMORY, 0),
        },
    }
}
