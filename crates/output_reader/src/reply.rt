//! Replies.

ghost use Rattle.std.specs.Prelude.{◌≡◌, ℕ, ℤ, ◌<◌, ◌^◌, ◌++◌, ◌∷◌, List, Option, IfOk, IfSome, codes};
ghost use Rattle.std.specs.Int.{w32};
ghost use Rattle.std.specs.Int.RustNames.{FitsSigned};
ghost use Rattle.time_cat.specs.declared.parsed.Parsed.{Parsed};
ghost use Rattle.script_out.specs.declared.output.Said.{Said};
ghost use Rattle.script_out.specs.declared.output.Said.TheVariants as said;
ghost use Rattle.script_out.specs.Output.{year_text, known_text, parsed_text, texts_text, numbers_text, reply_text};
ghost use Rattle.output_reader.specs.Lines.{AreThreadNames};
ghost use Rattle.output_reader.specs.Ranges.{AreBytes, IsSaid, IsSmallField, IsParsed};
ghost use Rattle.output_reader.specs.Reading.{Gives, GivesFor, GivesWith};

use crate::items::{behind_space, handle, named, why};
use crate::pieces::{byte_number, cut, first_word, index, is_word, number, small_number};
use crate::texts::{numbers, quoted_text, texts};
use crate::unread::Unread;
use crate::words::{ReplyForm, reply_form};
use lc_base::{ByteText, List};
use script_out::Said;
use std::alloc::Global;
use std::str;
use time_cat::Parsed;

/// The reply that may print as these bytes.
pub fn reply(alloc: Global, bytes: &[u8], threads: &List<ByteText>) -> Result<Said, Unread>
    requires { AreThreadNames threads.now }
    ensures is { IfOk result (λ v. IsSaid threads.now v) }
    ensures back { (v : Said) → IsSaid threads.now v → reply_text threads.now v ≡ bytes.now → GivesFor (reply_text threads.now) threads.now v result }
{
    let (word, rest) = first_word(bytes);
    let operand = behind_space(rest);
    let Some(form) = reply_form(word) else {
        return Err(Unread::Unprinted);
    };
    match form {
        ReplyForm::Freed => Ok(Said::Freed),
        ReplyForm::Held => Ok(Said::Held),
        ReplyForm::Released => Ok(Said::Released),
        ReplyForm::Posted => Ok(Said::Posted),
        ReplyForm::Closed => Ok(Said::Closed),
        ReplyForm::Ended => Ok(Said::Ended),
        ReplyForm::Yes => Ok(Said::Class(true)),
        ReplyForm::No => Ok(Said::Class(false)),
        ReplyForm::Handle => {
            let made = handle(operand, threads)?;
            Ok(Said::Handle(made))
        }
        ReplyForm::Opened => {
            let opened = handle(operand, threads)?;
            Ok(Said::Opened(opened))
        }
        ReplyForm::Was => {
            let former = named(operand, threads)?;
            Ok(Said::Was(former))
        }
        ReplyForm::Is => {
            let selected = named(operand, threads)?;
            Ok(Said::Is(selected))
        }
        ReplyForm::Name => {
            let name = ByteText::of(alloc, operand)?;
            Ok(Said::Name(name))
        }
        ReplyForm::Installed => {
            let installs = small_number(operand)?;
            Ok(Said::Installed(installs))
        }
        ReplyForm::Pins => {
            let pins = small_number(operand)?;
            Ok(Said::Pins(pins))
        }
        ReplyForm::Value => {
            let value = small_number(operand)?;
            Ok(Said::Value(value))
        }
        ReplyForm::Text => {
            let text = quoted_text(alloc, operand)?;
            Ok(Said::Text(text))
        }
        ReplyForm::Parsed => parsed(operand),
        ReplyForm::Conv => conv(alloc, rest),
        ReplyForm::Refused => {
            let reason = why(operand)?;
            Ok(Said::Refused(reason))
        }
    }
}

/// The lists of a localeconv.
fn conv(alloc: Global, bytes: &[u8]) -> Result<Said, Unread>
    ensures is { IfOk result (λ v. (names : List (List ℕ)) → IsSaid names v) }
    ensures back { (all : List (List ℕ)) (ns : List ℕ) → AreBytes ns → texts_text all ++ numbers_text ns ≡ bytes.now → Gives (said.Conv all ns) result }
{
    let (found, rest) = texts(alloc, bytes)?;
    let values = numbers(alloc, rest)?;
    Ok(Said::Conv(found, values))
}

/// The fields of a time that was read, and the index of the first byte that was not read.
fn parsed(bytes: &[u8]) -> Result<Said, Unread>
    ensures is { IfOk result (λ v. (names : List (List ℕ)) → IsSaid names v) }
    ensures back { (p : Parsed) (i : ℕ) → IsParsed p → i < 2 ^ 64 → parsed_text p i ≡ codes "parsed " ++ bytes.now → Gives (said.Parsed p i) result }
{
    let (year, rest) = next_year(bytes)?;
    let (mon, rest) = next_field(rest)?;
    let (mday, rest) = next_field(rest)?;
    let (hour, rest) = next_field(rest)?;
    let (min, rest) = next_field(rest)?;
    let (sec, rest) = next_field(rest)?;
    let (wday, rest) = next_field(rest)?;
    let (yday, rest) = next_day(rest)?;
    let at = index(rest)?;
    let fields = Parsed {
        year,
        mon,
        mday,
        hour,
        min,
        sec,
        wday,
        yday,
    };
    Ok(Said::Parsed(fields, at))
}

/// The year up to a space, if one is known, and what follows the space.
fn next_year(bytes: &[u8]) -> Result<(Option<i32>, &[u8]), Unread>
    ensures fits { IfOk result (λ r. IfSome r.0 (λ y. FitsSigned w32 y)) }
    ensures back { (year : Option ℤ) (rest : List ℕ) → IfSome year (λ y. FitsSigned w32 y)
        → bytes.now ≡ year_text year ++ 32 ∷ rest → GivesWith year rest result }
{
    let (word, rest) = cut(bytes, b' ')?;
    if is_word(word, b"-") {
        return Ok((None, rest));
    }
    let Ok(text) = str::from_utf8(word) else {
        return Err(Unread::Unprinted);
    };
    match text.parse::<i32>() {
        Ok(year) => Ok((Some(year), rest)),
        Err(_) => Err(Unread::Unprinted),
    }
}

/// A field of one byte up to a space, if it is known, and what follows the space.
fn next_field(bytes: &[u8]) -> Result<(Option<u8>, &[u8]), Unread>
    ensures fits { IfOk result (λ r. IsSmallField r.0) }
    ensures back { (field : Option ℕ) (rest : List ℕ) → IsSmallField field → bytes.now ≡ known_text field ++ 32 ∷ rest → GivesWith field rest result }
{
    let (word, rest) = cut(bytes, b' ')?;
    if is_word(word, b"-") {
        return Ok((None, rest));
    }
    let n = byte_number(word)?;
    Ok((Some(n), rest))
}

/// The day of the year up to a space, if it is known, and what follows the space.
fn next_day(bytes: &[u8]) -> Result<(Option<u16>, &[u8]), Unread>
    ensures fits { IfOk result (λ r. IfSome r.0 (λ n. n < 2 ^ 16)) }
    ensures back { (day : Option ℕ) (rest : List ℕ) → IfSome day (λ n. n < 2 ^ 16)
        → bytes.now ≡ known_text day ++ 32 ∷ rest → GivesWith day rest result }
{
    let (word, rest) = cut(bytes, b' ')?;
    if is_word(word, b"-") {
        return Ok((None, rest));
    }
    let n = number(word)?;
    if n > 65535 {
        return Err(Unread::Unprinted);
    }
    Ok((Some(n as u16), rest))
}
