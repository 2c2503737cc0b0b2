//! Whole texts from sources and to sinks.

ghost use Rattle.std.specs.Prelude.{◌≡◌, ◌+◌, ◌<◌, ◌≤◌, length, vec_len, IfOk, OnOk, OnErr, IsErrOf};
ghost use Rattle.std.specs.Io.KnownBytes.{Appends, Consumes, IsAtEnd};
ghost use Rattle.lc_base.specs.Faults.{Rose};
ghost use Rattle.lc_base.specs.Bytes.{CameExactly, CameAtMost, AddsPrefix};
ghost use Rattle.lc_base.specs.declared.whole.ReadRefusal.TheVariants.{ReadFault, Memory};

use crate::list::ByteText;
use crate::stream::{Failed, Sink, Source};
use std::alloc::{AllocError, Global};
use thiserror::Error;

/// How many bytes a read asks for at most.
const PIECE: usize = 65536;

/// Why a whole text could not be read.
#[derive(Clone, Copy, Debug, PartialEq, Eq, Error)]
pub enum ReadRefusal {
    /// The source failed.
    #[error("the source failed")]
    ReadFault,
    /// More bytes came than the limit allows.
    #[error("more bytes came than the limit allows")]
    TooLarge,
    /// Out of memory.
    #[error("out of memory")]
    Memory,
}

impl From<Failed> for ReadRefusal {
    ghost from_gives = { λ _ e. e ≡ ReadFault };

    fn from(_e: Failed) -> ReadRefusal {
        ReadRefusal::ReadFault
    }
}

impl From<AllocError> for ReadRefusal {
    ghost from_gives = { λ _ e. e ≡ Memory };

    fn from(_e: AllocError) -> ReadRefusal {
        ReadRefusal::Memory
    }
}

/// All bytes of the source up to its end, at most `limit` of them.
///
/// Whatever the answer, no more than `limit` + 1 bytes are read: where these come, it is `TooLarge`, or `Memory`.
pub fn read_all<S: Source>(
    alloc: Global,
    source: &mut S,
    limit: usize,
) -> Result<ByteText, ReadRefusal>
    ensures whole { IfOk result (λ text. Consumes (S.left source.old) (S.left source.new) text × IsAtEnd (S.left source.new)) }
    ensures within { IfOk result (λ text. length text ≤ limit) }
    ensures too_large { IsErrOf result ReadRefusal.TooLarge → CameExactly (S.left source.old) (S.left source.new) (limit + 1) }
    ensures fault_within { IsErrOf result ReadRefusal.ReadFault → CameAtMost (S.left source.old) (S.left source.new) limit }
    ensures at_most { CameAtMost (S.left source.old) (S.left source.new) (limit + 1) }
    ensures fault { IsErrOf result ReadRefusal.ReadFault → Rose (S.faults source.old) (S.faults source.new) }
    ensures sound { ¬ IsErrOf result ReadRefusal.ReadFault → S.faults source.new ≡ S.faults source.old }
    ensures never_falls { S.faults source.old ≤ S.faults source.new }
{
    let mut piece = zeros(alloc, PIECE)?;
    let text = read_by(alloc, source, limit, &mut piece)?;
    Ok(ByteText::from_vec(text))
}

/// So many zeros.
fn zeros(alloc: Global, count: usize) -> Result<Vec<u8>, AllocError>
    ensures { IfOk result (λ v. vec_len v ≡ count) }
{
    vec![in alloc; 0u8; count]
}

/// All bytes of the source, read by way of `piece`.
fn read_by<S: Source>(
    alloc: Global,
    source: &mut S,
    limit: usize,
    piece: &mut [u8],
) -> Result<Vec<u8>, ReadRefusal>
    requires { 0 < length piece.old }
    ensures whole { IfOk result (λ v. Consumes (S.left source.old) (S.left source.new) v.items × IsAtEnd (S.left source.new)) }
    ensures within { IfOk result (λ v. vec_len v ≤ limit) }
    ensures too_large { IsErrOf result ReadRefusal.TooLarge → CameExactly (S.left source.old) (S.left source.new) (limit + 1) }
    ensures fault_within { IsErrOf result ReadRefusal.ReadFault → CameAtMost (S.left source.old) (S.left source.new) limit }
    ensures at_most { CameAtMost (S.left source.old) (S.left source.new) (limit + 1) }
    ensures fault { IsErrOf result ReadRefusal.ReadFault → Rose (S.faults source.old) (S.faults source.new) }
    ensures sound { ¬ IsErrOf result ReadRefusal.ReadFault → S.faults source.new ≡ S.faults source.old }
    ensures never_falls { S.faults source.old ≤ S.faults source.new }
{
    let mut text = Vec::new(alloc);
    while text.len() <= limit {
        let want = (limit - text.len()).min(piece.len() - 1) + 1;
        let came = source.read(&mut piece[..want])?;
        if came == 0 {
            return Ok(text);
        }
        text.extend_from_slice(&piece[..came])?;
    }
    Err(ReadRefusal::TooLarge)
}

/// Writes the whole text. After `Failed` the sink has taken the front of it.
pub fn write_all<K: Sink>(sink: &mut K, text: &[u8]) -> Result<(), Failed>
    ensures ok { OnOk result (Appends (K.written sink.old) (K.written sink.new) text.now) }
    ensures front { OnErr result (AddsPrefix (K.written sink.old) (K.written sink.new) text.now) }
    ensures fault { OnErr result (Rose (K.faults sink.old) (K.faults sink.new)) }
    ensures sound { OnOk result (K.faults sink.new ≡ K.faults sink.old) }
    ensures never_falls { K.faults sink.old ≤ K.faults sink.new }
{
    let mut done = 0;
    while done < text.len() {
        done += sink.write(&text[done..])?;
    }
    Ok(())
}
