//! What the lines of a made bundle come to.

ghost use Rattle.std.specs.Prelude.{◌≡◌, ◌+◌, ◌<◌, ◌≤◌, ◌^◌, ◌&&◌, length, if◌then◌else◌, IfOk};
ghost use Rattle.bundle_maker.specs.Summary.{is_refusal, refused_count, reply_bytes, summary};

use crate::text::THREADS;
use lc_base::{ByteText, List, push_labelled};
use script_out::{OutLine, push_reply};
use std::alloc::{AllocError, Global};

/// What the replies of commands come to.
#[derive(Clone, Copy)]
struct Tally {
    /// How many refuse.
    refused: u64,
    /// Their bytes, which need not stand in memory at once.
    bytes: u128,
}

impl Tally {
    /// With one more reply, if it is a command's.
    fn with(self, is_command: bool, reply: &[u8]) -> Tally
        requires few { self.refused + 1 < 2 ^ 64 }
        requires small { self.bytes + 2 ^ 64 < 2 ^ 128 }
        ensures refused { result.refused ≡ self.refused + (if is_command && is_refusal reply.now then 1 else 0) }
        ensures bytes { result.bytes ≡ self.bytes + (if is_command then length reply.now else 0) }
        ensures few { result.refused ≤ self.refused + 1 }
        ensures small { result.bytes ≤ self.bytes + 2 ^ 64 }
    {
        if !is_command {
            return self;
        }
        Tally {
            refused: self.refused + u64::from(reply.starts_with(b"refused")),
            bytes: self.bytes + reply.len() as u128,
        }
    }
}

/// The line that tells of so many commands in so many rounds how many were refused, and how many bytes
/// their replies have. The lines that close the threads, behind the last round, do not count.
pub fn summary(
    alloc: Global,
    commands: u32,
    rounds: u32,
    lines: &List<OutLine>,
    threads: &List<ByteText>,
) -> Result<ByteText, AllocError>
    ensures { IfOk result (λ text. text ≡ summary commands rounds threads.now lines.now) }
{
    let tally = tally_of(alloc, rounds, lines.as_slice(), threads)?;
    let mut line = Vec::new(alloc);
    push_labelled(&mut line, b"made: threads ", u128::from(THREADS))?;
    push_labelled(&mut line, b" commands ", u128::from(commands))?;
    push_labelled(&mut line, b" refused ", u128::from(tally.refused))?;
    push_labelled(&mut line, b" bytes ", tally.bytes)?;
    line.push(b'\n')?;
    Ok(ByteText::from_vec(line))
}

/// What the replies of the lines up to a round come to.
#[tactic(auto, using(crate::proofs::Tallies::refused_more, crate::proofs::Tallies::bytes_more))]
fn tally_of(
    alloc: Global,
    rounds: u32,
    lines: &[OutLine],
    threads: &List<ByteText>,
) -> Result<Tally, AllocError>
    ensures refused { IfOk result (λ t. t.refused ≡ refused_count rounds threads.now lines.now) }
    ensures bytes { IfOk result (λ t. t.bytes ≡ reply_bytes rounds threads.now lines.now) }
{
    let mut tally = Tally {
        refused: 0,
        bytes: 0,
    };
    let mut reply = Vec::new(alloc);
    for line in lines {
        reply.clear();
        push_reply(&mut reply, &line.reply, threads)?;
        tally = tally.with(line.round <= rounds, reply.as_slice());
    }
    Ok(tally)
}
