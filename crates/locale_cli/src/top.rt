//! The program as a function of words, a source and a sink.

ghost use Rattle.std.specs.Prelude.{◌≡◌, ◌≢◌, ℕ, ◌+◌, ◌⊎◌, IfSome, Some, None};
ghost use Rattle.std.specs.Io.KnownBytes.{Appends};
ghost use Rattle.lc_base.specs.Faults.{Rose};
ghost use Rattle.lc_base.specs.Bytes.{CameAtMost, AddsPrefix};
ghost use Rattle.locale_cli.specs.declared.words.Mode.{Mode};
ghost use Rattle.locale_cli.specs.declared.words.Mode.TheVariants.{Check};
ghost use Rattle.locale_cli.specs.declared.request.Request.TheVariants.{Read, Make};
ghost use Rattle.bundle_maker.specs.Limits.{MOST_COMMANDS};
ghost use Rattle.locale_cli.specs.Words.{IsFromOneTo, IsSized};
ghost use Rattle.locale_cli.specs.Request.{request_of};
ghost use Rattle.locale_cli.specs.Made.{made_status, IsMade, IsMadeRefused, IsMadeCut, RanMade};
ghost use Rattle.locale_cli.specs.Run.{Wrote, Ran};
ghost use Rattle.locale_cli.specs.Status.{usage_line, IsDone, IsChecked, IsRefused, IsTooLarge, IsCutShort, due_status, IsDue, StayedSound};

use crate::answer::{Answer, Status, answer_to};
use crate::make_command::made_answer;
use crate::request::{Request, request_of};
use crate::words::Mode;
use lc_base::{ByteText, ReadRefusal, Sink, Source, read_all, write_all};
use script_seats::Pause;
use std::alloc::Global;
use std::sync::Wait;
use std::thread::Threads;

/// The most bytes of an input.
pub const INPUT_LIMIT: usize = 16_777_216;

/// Reads the whole source, runs it as the words say, and writes the whole answer to the sink; or makes a
/// bundle, and reads nothing. Where it runs threads, the pause is called before each of their commands.
pub fn top<R: Threads + Wait + Sync, S: Source, K: Sink, P: Pause + Sync>(
    rt: &R,
    alloc: Global,
    words: &[ByteText],
    source: &mut S,
    sink: &mut K,
    pause: &P,
) -> Status
    // Wrong words are refused, or that could not be written, and the source is as it was.
    ensures usage { request_of words.now ≡ None → (result ≡ Status.Usage) ⊎ (result ≡ Status.WriteFault) }
    ensures usage_only { result ≡ Status.Usage → (request_of words.now ≡ None) × Appends (K.written sink.old) (K.written sink.new) usage_line }
    ensures unread { request_of words.now ≡ None → source.new ≡ source.old }

    ensures done { (mode : Mode) → request_of words.now ≡ Some (Read mode) → result ≡ Status.Done → IsDone mode (S.left source.old) (S.left source.new) (K.written sink.old) (K.written sink.new) }
    ensures checked { request_of words.now ≡ Some (Read Check) → result ≡ Status.Done → IsChecked (S.left source.old) (S.left source.new) (K.written sink.old) (K.written sink.new) }
    ensures refused { (mode : Mode) → request_of words.now ≡ Some (Read mode) → result ≡ Status.Refused → IsRefused (S.left source.old) (S.left source.new) (K.written sink.old) (K.written sink.new) }
    ensures too_large { result ≡ Status.TooLarge → IsTooLarge (S.left source.old) (S.left source.new) (K.written sink.old) (K.written sink.new) }

    // A fault comes just where its count rose.
    ensures read_fault { result ≡ Status.ReadFault → Rose (S.faults source.old) (S.faults source.new) }
    ensures read_sound { result ≢ Status.ReadFault → S.faults source.new ≡ S.faults source.old }
    // Whatever the status, also when out of memory, at most one byte past the limit came.
    ensures at_most { CameAtMost (S.left source.old) (S.left source.new) (INPUT_LIMIT + 1) }
    ensures read_short { result ≡ Status.ReadFault → CameAtMost (S.left source.old) (S.left source.new) INPUT_LIMIT }
    ensures write_fault { result ≡ Status.WriteFault → Rose (K.faults sink.old) (K.faults sink.new) }
    ensures write_sound { result ≢ Status.WriteFault → K.faults sink.new ≡ K.faults sink.old }
    ensures cut_short { (mode : Mode) → request_of words.now ≡ Some (Read mode) → result ≡ Status.WriteFault → IsCutShort mode (S.left source.old) (S.left source.new) (K.written sink.old) (K.written sink.new) }
    ensures usage_cut { result ≡ Status.WriteFault → request_of words.now ≡ None → AddsPrefix (K.written sink.old) (K.written sink.new) usage_line }
    ensures unwritten { (result ≡ Status.ReadFault) ⊎ (result ≡ Status.Memory) → sink.new ≡ sink.old }

    // In a mode the bytes of the source determine the status, unless it is a fault or memory runs out.
    ensures due { (mode : Mode) → request_of words.now ≡ Some (Read mode) → IfSome (S.left source.old) (λ input. IsDue result (due_status input)) }
    ensures complete { (mode : Mode) → request_of words.now ≡ Some (Read mode) → StayedSound (S.faults source.old) (S.faults source.new) → StayedSound (K.faults sink.old) (K.faults sink.new)
        → IfSome (S.left source.old) (λ input. (result ≡ due_status input) ⊎ (result ≡ Status.Memory)) }

    // A made bundle is answered in the same way, whatever the order was in which its threads called.
    ensures made_unread { (seed commands : ℕ) → request_of words.now ≡ Some (Make seed commands) → source.new ≡ source.old }
    ensures made { (seed commands : ℕ) → request_of words.now ≡ Some (Make seed commands) → result ≡ Status.Done → IsMade seed commands (K.written sink.old) (K.written sink.new) }
    ensures made_refused { (seed commands : ℕ) → request_of words.now ≡ Some (Make seed commands) → result ≡ Status.Refused → IsMadeRefused seed commands (K.written sink.old) (K.written sink.new) }
    ensures made_cut { (seed commands : ℕ) → request_of words.now ≡ Some (Make seed commands) → result ≡ Status.WriteFault → IsMadeCut seed commands (K.written sink.old) (K.written sink.new) }
    ensures made_due { (seed commands : ℕ) → request_of words.now ≡ Some (Make seed commands) → (result ≡ made_status seed commands) ⊎ (result ≡ Status.WriteFault) ⊎ (result ≡ Status.Memory) }
    ensures made_complete { (seed commands : ℕ) → request_of words.now ≡ Some (Make seed commands) → StayedSound (K.faults sink.old) (K.faults sink.new) → (result ≡ made_status seed commands) ⊎ (result ≡ Status.Memory) }
{
    match request_of(words) {
        None => written_status(sink, Status::Usage, b"refused: usage\n"),
        Some(Request::Read(mode)) => run(rt, alloc, mode, source, sink, pause),
        Some(Request::Make { seed, commands }) => make(rt, alloc, seed, commands, sink, pause),
    }
}

/// Makes a bundle, and writes the answer to it.
fn make<R: Threads + Wait + Sync, K: Sink, P: Pause + Sync>(
    rt: &R,
    alloc: Global,
    seed: u64,
    commands: u32,
    sink: &mut K,
    pause: &P,
) -> Status
    requires { IsFromOneTo MOST_COMMANDS commands }
    ensures { RanMade seed commands
        (record { written = K.written sink.old; written' = K.written sink.new; faults = K.faults sink.old; faults' = K.faults sink.new })
        (sink.new ≡ sink.old) result }
{
    match made_answer(rt, alloc, seed, commands, pause) {
        Ok(answer) => written_answer(sink, &answer),
        Err(_) => Status::Memory,
    }
}

/// Reads the whole source, and writes the answer to it.
fn run<R: Threads + Wait + Sync, S: Source, K: Sink, P: Pause + Sync>(
    rt: &R,
    alloc: Global,
    mode: Mode,
    source: &mut S,
    sink: &mut K,
    pause: &P,
) -> Status
    requires { IsSized mode }
    ensures at_most { CameAtMost (S.left source.old) (S.left source.new) (INPUT_LIMIT + 1) }
    ensures ran { Ran mode
        (record { left = S.left source.old; left' = S.left source.new; faults = S.faults source.old; faults' = S.faults source.new })
        (record { written = K.written sink.old; written' = K.written sink.new; faults = K.faults sink.old; faults' = K.faults sink.new })
        (sink.new ≡ sink.old) result }
{
    let text = match read_all(alloc, source, INPUT_LIMIT) {
        Ok(text) => text,
        Err(ReadRefusal::TooLarge) => {
            return written_status(sink, Status::TooLarge, b"refused: too large\n");
        }
        Err(ReadRefusal::ReadFault) => return Status::ReadFault,
        Err(ReadRefusal::Memory) => return Status::Memory,
    };
    match answer_to(rt, alloc, mode, text.as_bytes(), pause) {
        Ok(answer) => written_answer(sink, &answer),
        Err(_) => Status::Memory,
    }
}

/// Writes the text of an answer and gives its status.
fn written_answer<K: Sink>(sink: &mut K, answer: &Answer) -> Status
    ensures { Wrote answer.now.status answer.now.text result
        (record { written = K.written sink.old; written' = K.written sink.new; faults = K.faults sink.old; faults' = K.faults sink.new }) }
{
    match answer.text.write_all(sink) {
        Ok(()) => answer.status,
        Err(_) => Status::WriteFault,
    }
}

/// Writes a text and gives the status that goes with it.
fn written_status<K: Sink>(sink: &mut K, status: Status, text: &[u8]) -> Status
    ensures { Wrote status text.now result
        (record { written = K.written sink.old; written' = K.written sink.new; faults = K.faults sink.old; faults' = K.faults sink.new }) }
{
    match write_all(sink, text) {
        Ok(()) => status,
        Err(_) => Status::WriteFault,
    }
}
