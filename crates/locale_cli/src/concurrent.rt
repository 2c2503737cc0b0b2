//! The text of printed lines, made by several threads at once.

ghost use Rattle.std.specs.Prelude.{◌≡◌, ◌++◌, ◌<◌, ◌≤◌, length, IfOk};
ghost use Rattle.std.specs.Thread.{IsSync};
ghost use Rattle.script_out.specs.Output.{printed};

use crate::pieces::{Halves, Pieces};
use lc_base::{ByteText, List};
use script_out::{OutLine, push_line, weight};
use std::alloc::{AllocError, Global};
use std::thread;
use std::thread::Threads;

/// How few lines one thread prints faster than two.
const FEW: usize = 128;

/// The printed text of the lines, where the threads have these names, as `print` of `script_out` gives
/// it. Up to four threads of the machine make it, each a piece of its own.
pub fn print_concurrently<R: Threads + Sync>(
    rt: &R,
    alloc: Global,
    lines: &List<OutLine>,
    names: &List<ByteText>,
) -> Result<Pieces, AllocError>
    ensures { IfOk result (λ text. text ≡ printed lines.now names.now) }
{
    let all = lines.as_slice();
    if all.len() <= FEW {
        let text = text_of(alloc, all, names)?;
        return Ok(Pieces::of(alloc, ByteText::from_vec(text)));
    }
    let quarter = weight_of(all) / 4;
    let (first, others) = all.split_at(front_of(all, quarter));
    let (one, three) = thread::join(
        rt,
        || -> Result<Vec<u8>, AllocError>
            ensures { IfOk result (λ text. text.items ≡ printed first.entry.now names.entry.now) }
        { text_of(alloc, first, names) },
        || -> Result<(Vec<u8>, Halves), AllocError>
            requires { IsSync R.row }
            ensures { IfOk result (λ t. t.0.items ++ (t.1.front.items ++ t.1.back.items) ≡ printed others.entry.now names.entry.now) }
        { text_by_three(rt, alloc, others, names, quarter) },
    );
    let front = one?;
    let (back, rest) = three?;
    Ok(Pieces::new(Halves { front, back }, rest))
}

/// About how many bytes of text the lines have.
fn weight_of(lines: &[OutLine]) -> usize {
    let mut sum = 0;
    for line in lines {
        sum = weight(line).saturating_add(sum);
    }
    sum
}

/// How many lines at the front have about so many bytes of text.
fn front_of(lines: &[OutLine], bytes: usize) -> usize
    ensures { result ≤ length lines.now }
{
    let mut reached = 0;
    for (i, line) in lines.iter().enumerate() {
        if bytes <= reached {
            return i;
        }
        reached = weight(line).saturating_add(reached);
    }
    lines.len()
}

/// The text of lines by three threads, of which this one starts the others: one that just began may have
/// to share its processor with one that it starts. Each but the last makes about so many bytes.
fn text_by_three<R: Threads + Sync>(
    rt: &R,
    alloc: Global,
    lines: &[OutLine],
    names: &List<ByteText>,
    bytes: usize,
) -> Result<(Vec<u8>, Halves), AllocError>
    ensures { IfOk result (λ t. t.0.items ++ (t.1.front.items ++ t.1.back.items) ≡ printed lines.now names.now) }
{
    let (first, others) = lines.split_at(front_of(lines, bytes));
    let (one, two) = thread::join(
        rt,
        || -> Result<Vec<u8>, AllocError>
            ensures { IfOk result (λ text. text.items ≡ printed first.entry.now names.entry.now) }
        { text_of(alloc, first, names) },
        || -> Result<Halves, AllocError>
            requires { IsSync R.row }
            ensures { IfOk result (λ h. h.front.items ++ h.back.items ≡ printed others.entry.now names.entry.now) }
        { text_by_two(rt, alloc, others, names, bytes) },
    );
    Ok((one?, two?))
}

/// The text of lines by two threads, the one of about so many bytes.
fn text_by_two<R: Threads + Sync>(
    rt: &R,
    alloc: Global,
    lines: &[OutLine],
    names: &List<ByteText>,
    bytes: usize,
) -> Result<Halves, AllocError>
    ensures { IfOk result (λ h. h.front.items ++ h.back.items ≡ printed lines.now names.now) }
{
    let (left, right) = lines.split_at(front_of(lines, bytes));
    let (front, back) = thread::join(
        rt,
        || -> Result<Vec<u8>, AllocError>
            ensures { IfOk result (λ text. text.items ≡ printed left.entry.now names.entry.now) }
        { text_of(alloc, left, names) },
        || -> Result<Vec<u8>, AllocError>
            ensures { IfOk result (λ text. text.items ≡ printed right.entry.now names.entry.now) }
        { text_of(alloc, right, names) },
    );
    Ok(Halves {
        front: front?,
        back: back?,
    })
}

/// The text of lines.
fn text_of(alloc: Global, lines: &[OutLine], names: &List<ByteText>) -> Result<Vec<u8>, AllocError>
    ensures { IfOk result (λ text. text.items ≡ printed lines.now names.now) }
{
    let mut text = Vec::with_capacity(alloc, weight_of(lines))?;
    for line in lines {
        push_line(&mut text, line, names)?;
    }
    Ok(text)
}
