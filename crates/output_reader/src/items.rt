//! Handles, places, versions, refusals and the fields of a time.

ghost use Rattle.std.specs.Prelude.{◌≡◌, ◌≢◌, ℕ, ◌<◌, ◌^◌, ◌∷◌, length, [], Option, List, IfOk, IfSome, IsNone, slice_index_or};
ghost use Rattle.time_cat.specs.declared.parsed.Parsed.{Parsed};
ghost use Rattle.script_out.specs.declared.output.Places.{Places};
ghost use Rattle.script_out.specs.declared.output.Why.{Why};
ghost use Rattle.script_out.specs.Output.{handle_text, named_text, places_text, version_text, why_text, known_text};
ghost use Rattle.output_reader.specs.Lines.{AreThreadNames};
ghost use Rattle.output_reader.specs.Ranges.{IsThread, IsHandle, IsNamed, ArePlaces, IsVersion, IsWhy, IsSmallField};
ghost use Rattle.output_reader.specs.Reading.{Gives, ReadsBack, thread_name};

use crate::pieces::{behind, cut, first_word, index, is_word, number, small, small_number};
use crate::unread::Unread;
use crate::words::{WhyForm, category, field, why_form};
use handle_table::Refusal;
use lc_base::{ByteText, Handle, List, Named};
use script_out::{Places, Why};

/// The number of a thread of this name.
pub fn thread(name: &[u8], threads: &List<ByteText>) -> Result<u32, Unread>
    ensures is { IfOk result (λ t. IsThread threads.now t × (slice_index_or threads.now t [] ≡ name.now)) }
    ensures back { ReadsBack (thread_name threads.now) (IsThread threads.now) threads.now name.now result }
{
    let Some(t) = first_thread(name, threads.as_slice()) else {
        return Err(Unread::Unprinted);
    };
    small(t as u64)
}

/// Where a name stands first.
fn first_thread(name: &[u8], names: &[ByteText]) -> Option<usize>
    ensures there { IfSome result (λ t. (t < length names.now) × (slice_index_or names.now t [] ≡ name.now)) }
    ensures first { IfSome result (λ t. (k : ℕ) → k < t → slice_index_or names.now k [] ≢ name.now) }
    ensures none { IsNone result → (k : ℕ) → k < length names.now → slice_index_or names.now k [] ≢ name.now }
{
    for (t, known) in names.iter().enumerate() {
        if known.as_bytes() == name {
            return Some(t);
        }
    }
    None
}

/// The handle of which these bytes are `THREAD.ROW.GENERATION`.
pub fn handle(bytes: &[u8], threads: &List<ByteText>) -> Result<Handle, Unread>
    requires { AreThreadNames threads.now }
    ensures is { IfOk result (λ h. IsHandle threads.now h) }
    ensures back { ReadsBack (handle_text threads.now) (IsHandle threads.now) threads.now bytes.now result }
{
    let (name, rest) = cut(bytes, b'.')?;
    let (row_digits, generation_digits) = cut(rest, b'.')?;
    let owner = thread(name, threads)?;
    let row = small_number(row_digits)?;
    let generation = small_number(generation_digits)?;
    Ok(Handle {
        owner,
        row,
        generation,
    })
}

/// What these bytes name: the global locale or a handle.
pub fn named(bytes: &[u8], threads: &List<ByteText>) -> Result<Named, Unread>
    requires { AreThreadNames threads.now }
    ensures is { IfOk result (λ n. IsNamed threads.now n) }
    ensures back { ReadsBack (named_text threads.now) (IsNamed threads.now) threads.now bytes.now result }
{
    if is_word(bytes, b"GLOBAL") {
        return Ok(Named::Global);
    }
    let named = handle(bytes, threads)?;
    Ok(Named::Of(named))
}

/// The places of a line's entries.
pub fn places(bytes: &[u8]) -> Result<Places, Unread>
    ensures are { IfOk result (λ p. ArePlaces p) }
    ensures back { (p : Places) → ArePlaces p → places_text p ≡ bytes.now → Gives p result }
{
    if is_word(bytes, b"-") {
        return Ok(Places::None);
    }
    if let Some(digits) = behind(bytes, b"c") {
        let catalog_place = number(digits)?;
        return Ok(Places::Catalog(catalog_place));
    }
    match cut(bytes, b',') {
        Ok((hold_digits, release_digits)) => {
            let hold = number(hold_digits)?;
            let release = number(release_digits)?;
            Ok(Places::Two(hold, release))
        }
        Err(_) => {
            let place = number(bytes)?;
            Ok(Places::One(place))
        }
    }
}

/// The version of the global locale that a line prints.
pub fn version(bytes: &[u8]) -> Result<Option<u32>, Unread>
    ensures is { IfOk result (λ v. IsVersion v) }
    ensures back { (v : Option ℕ) → IsVersion v → version_text v ≡ bytes.now → Gives v result }
{
    match behind(bytes, b"g") {
        Some(digits) => {
            let version = small_number(digits)?;
            Ok(Some(version))
        }
        None => Ok(None),
    }
}

/// Why a command was refused.
pub fn why(bytes: &[u8]) -> Result<Why, Unread>
    ensures is { IfOk result (λ w. IsWhy w) }
    ensures back { (w : Why) → IsWhy w → why_text w ≡ bytes.now → Gives w result }
{
    let (word, rest) = first_word(bytes);
    let operand = behind_space(rest);
    let Some(form) = why_form(word) else {
        return Err(Unread::Unprinted);
    };
    match form {
        WhyForm::Whole(why) => Ok(why),
        WhyForm::NoData => match category(operand) {
            Some(category) => Ok(Why::Table(Refusal::NoData(category))),
            None => Err(Unread::Unprinted),
        },
        WhyForm::TmRange => match field(operand) {
            Some(field) => Ok(Why::TmRange(field)),
            None => Err(Unread::Unprinted),
        },
        WhyForm::BadFormat => {
            let format_at = index(operand)?;
            Ok(Why::BadFormat(format_at))
        }
        WhyForm::MissingAmount => {
            let amount_at = index(operand)?;
            Ok(Why::MissingAmount(amount_at))
        }
        WhyForm::MissingNumber => {
            let number_at = index(operand)?;
            Ok(Why::MissingNumber(number_at))
        }
        WhyForm::Mismatch => {
            let text_at = index(operand)?;
            Ok(Why::Mismatch(text_at))
        }
    }
}

/// What follows the space behind a word.
pub fn behind_space(rest: &[u8]) -> &[u8]
    ensures { (operand : List ℕ) → rest.now ≡ 32 ∷ operand → result.now ≡ operand }
{
    match behind(rest, b" ") {
        Some(operand) => operand,
        None => rest,
    }
}
