//! The printed lines.

ghost use Rattle.std.specs.Prelude.{◌≡◌, ◌≤◌, ◌+◌, ◌++◌, [], length, drop, slice_index_or, codes, IfSome, IfOk, OnOk};
ghost use Rattle.std.specs.Fmt.{decimal};
ghost use Rattle.script_out.specs.Output.{space, newline, places_text, version_text, handle_text, named_text, refusal_text, field_text, why_text, year_text, known_text, fields_behind_year, fields_text, parsed_text, texts_text, numbers_text, class_text, reply_front, reply_rest, reply_text, entry_text, outcome_text, line_text, printed};

use crate::before::{put_byte, put_bytes, put_count, put_name, put_number};
use crate::quoting::{push_quoted, push_quoted_behind_space};
use crate::short::{push_behind_space, push_short};
use crate::texts::Texts;
use handle_table::Refusal;
use itoa::Buffer;
use lc_base::{ByteText, Handle, List, Named, push_number};
use std::alloc::{AllocError, Global};
use time_cat::{Parsed, TmField};

/// The positions of a line's entries in the history.
#[derive(Clone, Copy, PartialEq, Eq)]
pub enum Places {
    /// The line made no entry.
    None,
    One(u64),
    /// A Hold and the Release of it.
    Two(u64, u64),
    /// The entry in the history of the catalogs.
    Catalog(u64),
}

/// Why a command is refused.
#[derive(Clone, Copy, PartialEq, Eq)]
pub enum Why {
    /// The command names a variable that no earlier accepted command of the thread bound.
    Unset,
    /// The mask has a bit that no category has.
    BadMask,
    /// The table refuses it, or the runner does for want of a locale: no block of the bundle names the
    /// one that is named for this category.
    Table(Refusal),
    /// The locale has no such class.
    NoClass,
    /// The first field of a time that is out of its range.
    TmRange(TmField),
    /// The `%` at this byte of the format begins no conversion.
    BadFormat(usize),
    /// No amount is left for the `%` at this byte of the format.
    MissingAmount(usize),
    /// No number is left for the `%` at this byte of the format.
    MissingNumber(usize),
    /// The text does not meet an item of the format; the item begins at this byte of the text.
    Mismatch(usize),
    /// The text is longer than it may be.
    TooBig,
    /// No catalog has this name for the locale of the object's LC_MESSAGES category.
    NoCatalog,
}

/// A printed reply.
pub enum Said {
    /// newlocale and duplocale: the handle of the object that was made or changed; fetch: the handle
    /// in the cell.
    Handle(Handle),
    /// freelocale.
    Freed,
    /// uselocale: what was selected before.
    Was(Named),
    /// uselocale that asks: what is selected.
    Is(Named),
    /// hold.
    Held,
    /// release.
    Released,
    /// setlocale, also one that asks: the name of the category.
    Name(ByteText),
    /// install: the number of installs so far.
    Installed(u32),
    /// post.
    Posted,
    /// pins: their number.
    Pins(u32),
    /// nl_langinfo, strfmon, strftime, the text of whole numbers and catgets.
    Text(ByteText),
    /// strptime: the fields that were read, and the index of the first byte that was not read.
    Parsed(Parsed, usize),
    /// localeconv: the fields that are texts, and those that are numbers.
    Conv(Texts, List<u8>),
    /// iswctype: whether the value is of the class.
    Class(bool),
    /// towupper and towlower.
    Value(u32),
    /// catopen: the handle of the catalog.
    Opened(Handle),
    /// catclose.
    Closed,
    /// The end of a thread.
    Ended,
    Refused(Why),
}

impl Drop for Said {
    fn drop(self) {
        match self {
            Said::Handle(_a) => {}
            Said::Freed => {}
            Said::Was(_a) => {}
            Said::Is(_a) => {}
            Said::Held => {}
            Said::Released => {}
            Said::Name(_a) => {}
            Said::Installed(_a) => {}
            Said::Posted => {}
            Said::Pins(_a) => {}
            Said::Text(_a) => {}
            Said::Parsed(_a, _b) => {}
            Said::Conv(_a, _b) => {}
            Said::Class(_a) => {}
            Said::Value(_a) => {}
            Said::Opened(_a) => {}
            Said::Closed => {}
            Said::Ended => {}
            Said::Refused(_a) => {}
        }
    }
}

/// A printed line.
pub struct OutLine {
    /// The round, from 1.
    pub round: u32,
    /// The thread, from 0.
    pub thread: u32,
    /// The number of the thread's command, from 1.
    pub index: u32,
    pub places: Places,
    /// The version of the global locale, where one is printed.
    pub global: Option<u32>,
    pub reply: Said,
}

impl Drop for OutLine {
    fn drop(self) {
        let OutLine {
            round: _,
            thread: _,
            index: _,
            places: _,
            global: _,
            reply: _,
        } = self;
    }
}

/// The printed text of the lines, where the threads have these names. A thread without a name
/// prints as nothing.
pub fn print(
    alloc: Global,
    lines: &List<OutLine>,
    threads: &List<ByteText>,
) -> Result<ByteText, AllocError>
    ensures { IfOk result (λ text. text ≡ printed lines.now threads.now) }
{
    let mut out = Vec::with_capacity(alloc, lines.as_slice().len().saturating_mul(FRAME))?;
    for line in lines.as_slice() {
        push_line(&mut out, line, threads)?;
    }
    Ok(ByteText::from_vec(out))
}

/// About how many bytes a line has beside a text in its reply.
const FRAME: usize = 32;

/// About how many bytes of text a line has.
#[inline(always)]
pub fn weight(line: &OutLine) -> usize {
    match &line.reply {
        Said::Text(text) => text.as_bytes().len().saturating_add(FRAME),
        _ => FRAME,
    }
}

/// The name of a thread.
fn name_of(threads: &List<ByteText>, thread: u32) -> &[u8]
    ensures { result.now ≡ slice_index_or threads.now thread [] }
{
    match threads.as_slice().get(thread as usize) {
        Some(name) => name.as_bytes(),
        None => &[],
    }
}

/// Adds the printed text of a line, where the threads have these names.
pub fn push_line(
    out: &mut Vec<u8>,
    line: &OutLine,
    threads: &List<ByteText>,
) -> Result<(), AllocError>
    ensures { OnOk result (out.new.items ≡ out.old.items ++ line_text threads.now line.now) }
{
    let thread = name_of(threads, line.thread);
    if thread.len() < LONG {
        return push_near(out, line, thread, threads);
    }
    push_caller(out, line, thread)?;
    push_outcome(out, line, threads)
}

/// The length of a thread's name from which it is added apart.
const LONG: usize = 9;

/// Adds a line of a thread with a short name: what stands before the rest of the reply, with the rest and
/// the newline where these are short.
#[inline(always)]
fn push_near(
    out: &mut Vec<u8>,
    line: &OutLine,
    thread: &[u8],
    threads: &List<ByteText>,
) -> Result<(), AllocError>
    requires { length thread.now ≤ 8 }
    ensures { OnOk result (out.new.items ≡ out.old.items ++ ((decimal line.now.round ++ space ++ thread.now ++ entry_text line.now) ++ (reply_rest threads.now line.now.reply ++ newline))) }
{
    let mut buf = [0; 136];
    match put_end(&mut buf, &line.reply, threads) {
        Some(at) => {
            let start = put_caller(&mut buf, at, line, thread);
            push_from(out, &buf, start)
        }
        None => {
            let start = put_caller(&mut buf, 136, line, thread);
            push_from(out, &buf, start)?;
            push_outcome(out, line, threads)
        }
    }
}

/// Adds what stands in a buffer from an index on.
#[inline(always)]
fn push_from(out: &mut Vec<u8>, buf: &[u8], start: usize) -> Result<(), AllocError>
    requires { start ≤ length buf.now }
    ensures { OnOk result (out.new.items ≡ out.old.items ++ drop start buf.now) }
{
    out.extend_from_slice(&buf[start..])
}

/// Puts the rest of a short reply and the newline at the end, and gives where they begin.
#[inline(always)]
fn put_end(buf: &mut [u8], reply: &Said, threads: &List<ByteText>) -> Option<usize>
    requires room { 31 ≤ length buf.old }
    ensures start { IfSome result (λ at. length buf.old ≤ at + 31) }
    ensures within { IfSome result (λ at. at ≤ length buf.old) }
    ensures text { IfSome result (λ at. drop at buf.new ≡ reply_rest threads.now reply.now ++ newline) }
{
    let end = put_byte(buf, buf.len(), b'\n');
    match reply {
        Said::Handle(handle) | Said::Opened(handle) => put_handle(buf, end, handle, threads),
        Said::Was(named) | Said::Is(named) => put_named(buf, end, named, threads),
        Said::Class(_)
        | Said::Value(_)
        | Said::Freed
        | Said::Held
        | Said::Released
        | Said::Installed(_)
        | Said::Posted
        | Said::Pins(_)
        | Said::Closed
        | Said::Ended => Some(end),
        Said::Name(_) | Said::Text(_) | Said::Parsed(..) | Said::Conv(..) | Said::Refused(_) =>
            None,
    }
}

/// Puts what a command named before what stands from an index on, and gives where it begins, unless it is
/// a handle of a thread with a long name.
#[inline(always)]
fn put_named(buf: &mut [u8], at: usize, named: &Named, threads: &List<ByteText>) -> Option<usize>
    requires room { 30 ≤ at }
    requires within { at ≤ length buf.old }
    ensures start { IfSome result (λ start. at ≤ start + 30) }
    ensures end { IfSome result (λ start. start ≤ at) }
    ensures text { IfSome result (λ start. drop start buf.new ≡ named_text threads.now named.now ++ drop at buf.old) }
{
    match named {
        Named::Global => Some(put_bytes(buf, at, b"GLOBAL")),
        Named::Of(handle) => put_handle(buf, at, handle, threads),
    }
}

/// Puts a handle before what stands from an index on, and gives where it begins, unless the name of its
/// thread is long.
#[inline(always)]
fn put_handle(buf: &mut [u8], at: usize, handle: &Handle, threads: &List<ByteText>) -> Option<usize>
    requires room { 30 ≤ at }
    requires within { at ≤ length buf.old }
    ensures start { IfSome result (λ start. at ≤ start + 30) }
    ensures end { IfSome result (λ start. start ≤ at) }
    ensures text { IfSome result (λ start. drop start buf.new ≡ handle_text threads.now handle.now ++ drop at buf.old) }
{
    let name = name_of(threads, handle.owner);
    if name.len() < LONG {
        let at = put_seat(buf, at, handle);
        Some(put_name(buf, at, name))
    } else {
        None
    }
}

/// Puts `.ROW.GENERATION` before what stands from an index on, and gives where it begins.
#[inline(always)]
fn put_seat(buf: &mut [u8], at: usize, handle: &Handle) -> usize
    requires room { 22 ≤ at }
    requires within { at ≤ length buf.old }
    ensures start { at ≤ result + 22 }
    ensures end { result ≤ at }
    ensures text { drop result buf.new ≡ codes "." ++ decimal handle.now.row ++ codes "." ++ decimal handle.now.generation ++ drop at buf.old }
{
    let at = put_count(buf, at, handle.generation);
    let at = put_byte(buf, at, b'.');
    let at = put_count(buf, at, handle.row);
    put_byte(buf, at, b'.')
}

/// Adds the round, the thread, the index, the places, the version and the front of the reply.
fn push_caller(out: &mut Vec<u8>, line: &OutLine, thread: &[u8]) -> Result<(), AllocError>
    ensures { OnOk result (out.new.items ≡ out.old.items ++ (decimal line.now.round ++ space ++ thread.now ++ entry_text line.now)) }
{
    push_number(out, u128::from(line.round))?;
    out.push(b' ')?;
    push_short(out, thread)?;
    push_entry(out, line)
}

/// Puts what stands before the rest of the reply before what stands from an index on, and gives where it
/// begins.
#[inline(always)]
fn put_caller(buf: &mut [u8], at: usize, line: &OutLine, thread: &[u8]) -> usize
    requires short { length thread.now ≤ 8 }
    requires room { 105 ≤ at }
    requires within { at ≤ length buf.old }
    ensures within { result ≤ length buf.old }
    ensures text { drop result buf.new ≡ decimal line.now.round ++ space ++ thread.now ++ entry_text line.now ++ drop at buf.old }
{
    let at = put_entry(buf, at, line);
    let at = put_name(buf, at, thread);
    let at = put_byte(buf, at, b' ');
    put_count(buf, at, line.round)
}

/// Adds the rest of the reply.
#[inline(always)]
fn push_outcome(
    out: &mut Vec<u8>,
    line: &OutLine,
    threads: &List<ByteText>,
) -> Result<(), AllocError>
    ensures { OnOk result (out.new.items ≡ out.old.items ++ (reply_rest threads.now line.now.reply ++ newline)) }
{
    push_rest(out, &line.reply, threads)?;
    out.push(b'\n')?;
    Ok(())
}

/// Adds the index, the places, the version and the front of the reply.
fn push_entry(out: &mut Vec<u8>, line: &OutLine) -> Result<(), AllocError>
    ensures { OnOk result (out.new.items ≡ out.old.items ++ entry_text line.now) }
{
    let mut buf = [0; 86];
    let start = put_entry(&mut buf, 86, line);
    push_from(out, &buf, start)
}

/// Puts the index, the places, the version and the front of the reply before what stands from an index on,
/// and gives where they begin.
#[inline(always)]
fn put_entry(buf: &mut [u8], at: usize, line: &OutLine) -> usize
    requires room { 86 ≤ at }
    requires within { at ≤ length buf.old }
    ensures start { at ≤ result + 86 }
    ensures end { result ≤ at }
    ensures text { drop result buf.new ≡ entry_text line.now ++ drop at buf.old }
{
    let at = put_front(buf, at, &line.reply);
    let at = put_byte(buf, at, b' ');
    let at = put_version(buf, at, line.global);
    let at = put_byte(buf, at, b' ');
    let at = put_places(buf, at, line.places);
    let at = put_byte(buf, at, b' ');
    let at = put_count(buf, at, line.index);
    put_byte(buf, at, b' ')
}

/// Puts the places before what stands from an index on, and gives where they begin.
#[inline(always)]
fn put_places(buf: &mut [u8], at: usize, places: Places) -> usize
    requires room { 41 ≤ at }
    requires within { at ≤ length buf.old }
    ensures start { at ≤ result + 41 }
    ensures end { result ≤ at }
    ensures text { drop result buf.new ≡ places_text places ++ drop at buf.old }
{
    match places {
        Places::None => put_byte(buf, at, b'-'),
        Places::One(place) => put_number(buf, at, place),
        Places::Two(hold, release) => {
            let at = put_number(buf, at, release);
            let at = put_byte(buf, at, b',');
            put_number(buf, at, hold)
        }
        Places::Catalog(place) => {
            let at = put_number(buf, at, place);
            put_byte(buf, at, b'c')
        }
    }
}

/// Puts the version before what stands from an index on, and gives where it begins.
#[inline(always)]
fn put_version(buf: &mut [u8], at: usize, version: Option<u32>) -> usize
    requires room { 11 ≤ at }
    requires within { at ≤ length buf.old }
    ensures start { at ≤ result + 11 }
    ensures end { result ≤ at }
    ensures text { drop result buf.new ≡ version_text version ++ drop at buf.old }
{
    match version {
        None => put_byte(buf, at, b'-'),
        Some(version) => {
            let at = put_count(buf, at, version);
            put_byte(buf, at, b'g')
        }
    }
}

/// Puts the front of a reply before what stands from an index on, and gives where it begins.
#[inline(always)]
fn put_front(buf: &mut [u8], at: usize, reply: &Said) -> usize
    requires room { 20 ≤ at }
    requires within { at ≤ length buf.old }
    ensures start { at ≤ result + 20 }
    ensures end { result ≤ at }
    ensures text { drop result buf.new ≡ reply_front reply.now ++ drop at buf.old }
{
    match reply {
        Said::Handle(_) => put_bytes(buf, at, b"handle "),
        Said::Freed => put_bytes(buf, at, b"freed"),
        Said::Was(_) => put_bytes(buf, at, b"was "),
        Said::Is(_) => put_bytes(buf, at, b"is "),
        Said::Name(_) => put_bytes(buf, at, b"name "),
        Said::Text(_) => put_bytes(buf, at, b"text "),
        Said::Parsed(..) => at,
        Said::Conv(..) => at,
        Said::Class(is) => put_class(buf, at, *is),
        Said::Value(value) => put_counted(buf, at, b"value ", *value),
        Said::Held => put_bytes(buf, at, b"held"),
        Said::Released => put_bytes(buf, at, b"released"),
        Said::Installed(count) => put_counted(buf, at, b"installed ", *count),
        Said::Posted => put_bytes(buf, at, b"posted"),
        Said::Pins(count) => put_counted(buf, at, b"pins ", *count),
        Said::Opened(_) => put_bytes(buf, at, b"opened "),
        Said::Closed => put_bytes(buf, at, b"closed"),
        Said::Ended => put_bytes(buf, at, b"ended"),
        Said::Refused(_) => put_bytes(buf, at, b"refused "),
    }
}

/// Puts a word with a number behind it before what stands from an index on, and gives where it begins.
#[inline(always)]
fn put_counted(buf: &mut [u8], at: usize, word: &[u8], count: u32) -> usize
    requires word { length word.now ≤ 10 }
    requires room { 20 ≤ at }
    requires within { at ≤ length buf.old }
    ensures start { at ≤ result + 20 }
    ensures end { result ≤ at }
    ensures text { drop result buf.new ≡ word.now ++ decimal count ++ drop at buf.old }
{
    let at = put_count(buf, at, count);
    put_bytes(buf, at, word)
}

/// Puts whether a value is of a class before what stands from an index on, and gives where it begins.
#[inline(always)]
fn put_class(buf: &mut [u8], at: usize, is: bool) -> usize
    requires room { 3 ≤ at }
    requires within { at ≤ length buf.old }
    ensures start { at ≤ result + 3 }
    ensures end { result ≤ at }
    ensures text { drop result buf.new ≡ class_text is ++ drop at buf.old }
{
    if is {
        put_bytes(buf, at, b"yes")
    } else {
        put_bytes(buf, at, b"no")
    }
}

/// Adds what stands where there is nothing to tell.
fn push_dash(out: &mut Vec<u8>) -> Result<(), AllocError>
    ensures { OnOk result (out.new.items ≡ out.old.items ++ codes "-") }
{
    out.push(b'-')?;
    Ok(())
}

/// Adds a reply.
pub fn push_reply(
    out: &mut Vec<u8>,
    reply: &Said,
    threads: &List<ByteText>,
) -> Result<(), AllocError>
    ensures { OnOk result (out.new.items ≡ out.old.items ++ reply_text threads.now reply.now) }
{
    push_front(out, reply)?;
    push_rest(out, reply, threads)
}

/// Adds the front of a reply.
fn push_front(out: &mut Vec<u8>, reply: &Said) -> Result<(), AllocError>
    ensures { OnOk result (out.new.items ≡ out.old.items ++ reply_front reply.now) }
{
    let mut buf = [0; 20];
    let start = put_front(&mut buf, 20, reply);
    out.extend_from_slice(&buf[start..])
}

/// Adds what stands behind the front of a reply.
#[inline(always)]
fn push_rest(out: &mut Vec<u8>, reply: &Said, threads: &List<ByteText>) -> Result<(), AllocError>
    ensures { OnOk result (out.new.items ≡ out.old.items ++ reply_rest threads.now reply.now) }
{
    match reply {
        Said::Handle(handle) | Said::Opened(handle) => push_handle(out, handle, threads),
        Said::Was(named) | Said::Is(named) => push_named(out, named, threads),
        Said::Name(name) => out.extend_from_slice(name.as_bytes()),
        Said::Text(text) => push_quoted(out, text.as_bytes()),
        Said::Parsed(fields, rest) => push_parsed(out, fields, *rest),
        Said::Conv(texts, numbers) => {
            out.extend_from_slice(b"conv")?;
            push_texts(out, texts)?;
            push_numbers(out, numbers.as_slice())
        }
        Said::Refused(why) => push_why(out, why),
        Said::Class(_)
        | Said::Value(_)
        | Said::Freed
        | Said::Held
        | Said::Released
        | Said::Installed(_)
        | Said::Posted
        | Said::Pins(_)
        | Said::Closed
        | Said::Ended => Ok(()),
    }
}

/// Adds the fields of a time and the index of the first byte that was not read.
fn push_parsed(out: &mut Vec<u8>, fields: &Parsed, rest: usize) -> Result<(), AllocError>
    ensures { OnOk result (out.new.items ≡ out.old.items ++ parsed_text fields.now rest) }
{
    out.extend_from_slice(b"parsed ")?;
    push_year(out, fields.year)?;
    push_fields(out, &fields_behind_year(*fields))?;
    out.push(b' ')?;
    push_number(out, rest as u128)
}

/// Adds a year, or `-` where there is none.
fn push_year(out: &mut Vec<u8>, year: Option<i32>) -> Result<(), AllocError>
    ensures { OnOk result (out.new.items ≡ out.old.items ++ year_text year) }
{
    match year {
        None => push_dash(out),
        Some(year) => out.extend_from_slice(Buffer::new().format(year).as_bytes()),
    }
}

/// The fields behind the year, in the order in which they are printed.
fn fields_behind_year(fields: Parsed) -> [Option<u16>; 7]
    ensures { result ≡ fields_behind_year fields }
{
    [
        widened(fields.mon),
        widened(fields.mday),
        widened(fields.hour),
        widened(fields.min),
        widened(fields.sec),
        widened(fields.wday),
        fields.yday,
    ]
}

/// A field in 16 bits, as the day of the year has them.
fn widened(field: Option<u8>) -> Option<u16>
    ensures { result ≡ field }
{
    match field {
        None => None,
        Some(n) => Some(u16::from(n)),
    }
}

/// Adds fields, each behind a space.
fn push_fields(out: &mut Vec<u8>, fields: &[Option<u16>]) -> Result<(), AllocError>
    ensures { OnOk result (out.new.items ≡ out.old.items ++ fields_text fields.now) }
{
    for field in fields {
        out.push(b' ')?;
        push_field(out, *field)?;
    }
    Ok(())
}

/// Adds a field, or `-` where there is none.
fn push_field(out: &mut Vec<u8>, field: Option<u16>) -> Result<(), AllocError>
    ensures { OnOk result (out.new.items ≡ out.old.items ++ known_text field) }
{
    match field {
        None => push_dash(out),
        Some(n) => push_number(out, u128::from(n)),
    }
}

/// Adds texts in quotes, each behind a space.
fn push_texts(out: &mut Vec<u8>, texts: &Texts) -> Result<(), AllocError>
    ensures { OnOk result (out.new.items ≡ out.old.items ++ texts_text texts.now) }
{
    let mut left = texts.walk();
    while let Some(text) = left.next() {
        push_quoted_behind_space(out, text)?;
    }
    Ok(())
}

/// Adds numbers, each behind a space.
fn push_numbers(out: &mut Vec<u8>, numbers: &[u8]) -> Result<(), AllocError>
    ensures { OnOk result (out.new.items ≡ out.old.items ++ numbers_text numbers.now) }
{
    for n in numbers {
        push_behind_space(out, u64::from(*n))?;
    }
    Ok(())
}

fn push_named(out: &mut Vec<u8>, named: &Named, threads: &List<ByteText>) -> Result<(), AllocError>
    ensures { OnOk result (out.new.items ≡ out.old.items ++ named_text threads.now named.now) }
{
    match named {
        Named::Global => out.extend_from_slice(b"GLOBAL"),
        Named::Of(handle) => push_handle(out, handle, threads),
    }
}

/// Adds `THREAD.ROW.GENERATION`.
fn push_handle(
    out: &mut Vec<u8>,
    handle: &Handle,
    threads: &List<ByteText>,
) -> Result<(), AllocError>
    ensures { OnOk result (out.new.items ≡ out.old.items ++ handle_text threads.now handle.now) }
{
    let name = name_of(threads, handle.owner);
    let mut buf = [0; 32];
    let at = put_seat(&mut buf, 32, handle);
    if name.len() < LONG {
        let start = put_name(&mut buf, at, name);
        return out.extend_from_slice(&buf[start..]);
    }
    push_short(out, name)?;
    out.extend_from_slice(&buf[at..])
}

fn push_why(out: &mut Vec<u8>, why: &Why) -> Result<(), AllocError>
    ensures { OnOk result (out.new.items ≡ out.old.items ++ why_text why.now) }
{
    match *why {
        Why::Unset => out.extend_from_slice(b"Unset"),
        Why::BadMask => out.extend_from_slice(b"BadMask"),
        Why::Table(refusal) => push_table_refusal(out, refusal),
        Why::NoClass => out.extend_from_slice(b"NoClass"),
        Why::TmRange(field) => {
            out.extend_from_slice(b"TmRange ")?;
            out.extend_from_slice(field_name(field).as_bytes())
        }
        Why::BadFormat(at) => push_at(out, b"BadFormat ", at),
        Why::MissingAmount(at) => push_at(out, b"MissingAmount ", at),
        Why::MissingNumber(at) => push_at(out, b"MissingNumber ", at),
        Why::Mismatch(at) => push_at(out, b"Mismatch ", at),
        Why::TooBig => out.extend_from_slice(b"TooBig"),
        Why::NoCatalog => out.extend_from_slice(b"NoCatalog"),
    }
}

/// Adds a word and a place in a format or in a text.
fn push_at(out: &mut Vec<u8>, word: &[u8], at: usize) -> Result<(), AllocError>
    ensures { OnOk result (out.new.items ≡ out.old.items ++ (word.now ++ decimal at)) }
{
    out.extend_from_slice(word)?;
    push_number(out, at as u128)
}

/// The name of a field of a time.
fn field_name(field: TmField) -> &'static str
    ensures { result.now ≡ field_text field }
{
    match field {
        TmField::Year => "year",
        TmField::Mon => "mon",
        TmField::Mday => "mday",
        TmField::Hour => "hour",
        TmField::Min => "min",
        TmField::Sec => "sec",
        TmField::Wday => "wday",
        TmField::Yday => "yday",
        TmField::Offset => "offset",
    }
}

/// Adds the word of a refusal of the table.
fn push_table_refusal(out: &mut Vec<u8>, refusal: Refusal) -> Result<(), AllocError>
    ensures { OnOk result (out.new.items ≡ out.old.items ++ refusal_text refusal) }
{
    match refusal {
        Refusal::NoData(category) => {
            out.extend_from_slice(b"NoData ")?;
            out.extend_from_slice(category.name())
        }
        Refusal::GlobalHandle => out.extend_from_slice(b"GlobalHandle"),
        Refusal::NeverMade => out.extend_from_slice(b"NeverMade"),
        Refusal::Stale => out.extend_from_slice(b"Stale"),
        Refusal::TooMany => out.extend_from_slice(b"TooMany"),
        Refusal::AlreadyHeld => out.extend_from_slice(b"AlreadyHeld"),
        Refusal::NotHeld => out.extend_from_slice(b"NotHeld"),
        Refusal::EmptyCell => out.extend_from_slice(b"EmptyCell"),
    }
}
