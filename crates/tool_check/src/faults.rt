//! The faults of a source.

ghost use Rattle.std.specs.Prelude.{◌<◌, All, IfOk};
ghost use Rattle.tool_check.specs.Found.{AreAllTold, IsFaultOf, IsFoundAlone};

use crate::copied::blocks_alone;
use crate::fault::{Fault, push_fault};
use crate::looks::{LOOK_COUNT, look_at};
use charset::Charset;
use lc_base::TextFault;
use std::alloc::{AllocError, Global};
use tool_files::{Sources, sized_library};

/// The first fault that is found, and beside it that of each look, where it stands on a line of its own: in
/// the order of their lines.
#[tactic(auto, using(crate::proofs::FoundLemmas::first_told, crate::proofs::FoundLemmas::one_more_told, crate::proofs::FoundLemmas::fewer_told, crate::proofs::FaultLemmas::first_each, crate::proofs::FaultLemmas::one_more_each))]
pub fn faults_of(
    alloc: Global,
    sources: &Sources,
    charset: &Charset,
    first: Fault,
) -> Result<Vec<Fault>, AllocError>
    ensures told { IfOk result (λ faults. AreAllTold first faults.items) }
    ensures each { IfOk result (λ faults. All (IsFaultOf sources.now.charmaps sources.now.locales first) faults.items) }
{
    let mut faults = Vec::new(alloc);
    faults.push(first)?;
    for number in 0..LOOK_COUNT {
        let fault = fault_alone(alloc, sources, charset, number)?;
        push_fault(&mut faults, fault)?;
    }
    Ok(faults)
}

/// The fault of what the look with a number takes.
#[tactic(auto, using(crate::proofs::FaultLemmas::fault_found))]
fn fault_alone(
    alloc: Global,
    sources: &Sources,
    charset: &Charset,
    number: u32,
) -> Result<Option<Fault>, AllocError>
    requires { number < LOOK_COUNT }
    ensures { IfOk result (IsFoundAlone sources.now.charmaps sources.now.locales) }
{
    let look = look_at(number);
    let locales = blocks_alone(alloc, sources.locales.as_slice(), look, charset)?;
    match sized_library(alloc, &sources.charmaps, &locales).err() {
        None => Ok(None),
        Some(TextFault::At(place, reason)) => Ok(Some(Fault { place, reason })),
        Some(TextFault::Memory) => Err(AllocError),
    }
}
