//! Words of commands.

ghost use Rattle.std.specs.Prelude.{◌≡◌, ◌<◌, ◌≤◌, ℕ, List as Items, Option, length, IfOk};
ghost use Rattle.std.specs.Option.{option_copied};
ghost use Rattle.lc_base.specs.declared.fault.TextFault.TheVariants.{At};
ghost use Rattle.lc_base.specs.declared.reason.Reason.TheVariants.{BadLine};
ghost use Rattle.lc_base.specs.declared.reason.LinePart.TheVariants.{Argument};
ghost use Rattle.lc_base.specs.Reading.{Gives};
ghost use Rattle.script_commands.specs.InRange.{IsOwned, IsCatalogOwned};
ghost use Rattle.script_words.specs.Spans.{span, spans};
ghost use Rattle.lc_base.specs.Numbers.{decimal_number};
ghost use Rattle.script_words.specs.Words.{text_of_word, categories_of_word, mask_of_word, variable_of_word, class_of_word, key_of_word, cell_number};
ghost use Rattle.script_words.specs.Numbers.{short_number, three_numbers};
ghost use Rattle.lc_base.specs.Tables.{first_named};
ghost use Rattle.script_words.specs.Tables.{items_table};
ghost use Rattle.script_commands.specs.Commands.{argument, read_as, no_more, is_over, handle_word, target, target_word, lone_target, catalog, catalog_word, cell, key, max_bytes, format, command_text, amounts, whole_numbers, offset, zone, moment};

use crate::command::{OpenCatalog, Target};
use crate::known::{Known, lacks_key, thread_number};
use crate::scope::Scope;
use lc_base::{
    Amount, ByteText, CELLS, Handle, Item, Limit, LinePart, List, Place, Reason, TextFault,
    decimal_number,
};
use script_words::{
    AMOUNT_LIMIT, CategoryArgument, CommandText, DEFAULT_MAX, Format, NUMBER_LIMIT, Stretch,
    UncheckedTime, WrittenNumber, amount_of_word, behind_front, categories_of_word, cell_number,
    cell_of_word, class_of_word, handle_of_word, is_thread_name, item_named, key_of_word,
    mask_of_word, max_number, number_of_word, offset_of_word, quoted_of_word, short_number,
    text_of_word, three_numbers, variable_of_word, zone_of_word,
};
use std::alloc::{AllocError, Global};

/// The refusal of a wrong, missing or needless word at this place.
fn wrong_word(place: Place) -> TextFault
    ensures { result ≡ At place (BadLine Argument) }
{
    TextFault::At(place, Reason::BadLine(LinePart::Argument))
}

/// The next word, and what follows it.
#[tactic(auto, unfolding(crate::specs::Commands::argument))]
pub fn argument(rest: Stretch<'_>) -> Result<(Stretch<'_>, Stretch<'_>), TextFault>
    ensures { Gives spans result (argument (span rest.entry)) }
{
    rest.next_word().ok_or(wrong_word(rest.end()))
}

/// Nothing follows but blanks.
#[tactic(auto, unfolding(crate::specs::Commands::no_more))]
pub fn no_more(rest: Stretch<'_>) -> Result<(), TextFault>
    ensures { Gives (λ x. x) result (no_more (span rest.entry)) }
{
    match rest.next_word() {
        None => Ok(()),
        Some((word, _)) => Err(wrong_word(word.place)),
    }
}

/// Whether nothing follows but blanks.
#[tactic(auto, unfolding(crate::specs::Commands::is_over))]
pub fn is_over(rest: Stretch<'_>) -> bool
    ensures { result ≡ is_over (span rest.entry) }
{
    rest.next_word().is_none()
}

/// The next word, read by a function of its bytes, and what follows it. Whatever definition the function
/// follows where there is memory, the word is read by the same one.
#[tactic(auto, unfolding(crate::specs::Commands::read_as))]
fn read_as<'a, A, F: FnOnce(&[u8]) -> Result<Option<A>, AllocError>>(
    rest: Stretch<'a>,
    read: F,
) -> Result<(A, Stretch<'a>), TextFault>
    requires { F.IsAlwaysCallable read }
    ensures is { (said : List ℕ → Option A) → ((bytes : _) (value : _) → F.post read bytes value → IfOk value (λ v. v ≡ said bytes.now)) → Gives (λ x. (x.0, span x.1)) result (read_as said (span rest.entry)) }
{
    let (word, rest) = argument(rest)?;
    match read(word.bytes)? {
        Some(value) => Ok((value, rest)),
        None => Err(wrong_word(word.place)),
    }
}

/// A variable, and what follows it.
pub fn variable(alloc: Global, rest: Stretch<'_>) -> Result<(ByteText, Stretch<'_>), TextFault>
    ensures { Gives (λ x. (x.0, span x.1)) result (read_as variable_of_word (span rest.entry)) }
{
    read_as(rest, |word| variable_of_word(alloc, word))
}

/// The bits of a mask, and what follows it.
pub fn mask(rest: Stretch<'_>) -> Result<(u32, Stretch<'_>), TextFault>
    ensures { Gives (λ x. (x.0, span x.1)) result (read_as mask_of_word (span rest.entry)) }
{
    read_as(rest, |word| Ok(mask_of_word(word)))
}

/// The name of a locale, and what follows it.
pub fn locale(alloc: Global, rest: Stretch<'_>) -> Result<(ByteText, Stretch<'_>), TextFault>
    ensures { Gives (λ x. (x.0, span x.1)) result (read_as text_of_word (span rest.entry)) }
{
    read_as(rest, |word| text_of_word(alloc, word))
}

/// The categories of a setlocale, and what follows them.
pub fn categories(rest: Stretch<'_>) -> Result<(CategoryArgument, Stretch<'_>), TextFault>
    ensures { Gives (λ x. (x.0, span x.1)) result (read_as categories_of_word (span rest.entry)) }
{
    read_as(rest, |word| Ok(categories_of_word(word)))
}

/// The handle that a word is.
fn handle_word(scope: Scope<'_>, word: Stretch<'_>) -> Result<Handle, TextFault>
    ensures is { Gives (λ x. x) result (handle_word (option_copied scope.entry.known) scope.entry.threads.now (span word.entry)) }
    ensures owned { IfOk result (λ h. h.owner < length scope.entry.threads.now) }
{
    let Some(written) = handle_of_word(word.bytes) else {
        return Err(wrong_word(word.place));
    };
    let Some(owner) = thread_number(scope, written.thread) else {
        return Err(TextFault::At(word.place, Reason::NoThread));
    };
    Ok(Handle {
        owner,
        row: written.row,
        generation: written.generation,
    })
}

/// What a word names: `GLOBAL`, a variable or a handle.
#[tactic(auto, unfolding(crate::specs::Commands::target))]
pub fn target(alloc: Global, scope: Scope<'_>, word: Stretch<'_>) -> Result<Target, TextFault>
    ensures is { Gives (λ x. x) result (target (option_copied scope.entry.known) scope.entry.threads.now (span word.entry)) }
    ensures owned { IfOk result (IsOwned (length scope.entry.threads.now)) }
{
    if word.bytes == b"GLOBAL".as_slice() {
        return Ok(Target::Global);
    }
    if is_thread_name(word.bytes) {
        return Ok(Target::Variable(ByteText::of(alloc, word.bytes)?));
    }
    Ok(Target::Handle(handle_word(scope, word)?))
}

/// What the next word names, and what follows it.
#[tactic(auto, unfolding(crate::specs::Commands::target_word))]
pub fn target_word<'a>(
    alloc: Global,
    scope: Scope<'_>,
    rest: Stretch<'a>,
) -> Result<(Target, Stretch<'a>), TextFault>
    ensures is { Gives (λ x. (x.0, span x.1)) result (target_word (option_copied scope.entry.known) scope.entry.threads.now (span rest.entry)) }
    ensures owned { IfOk result (λ x. IsOwned (length scope.entry.threads.now) x.0) }
{
    let (word, rest) = argument(rest)?;
    let named = target(alloc, scope, word)?;
    Ok((named, rest))
}

/// Just one word, which names something.
#[tactic(auto, unfolding(crate::specs::Commands::lone_target))]
pub fn lone_target(alloc: Global, scope: Scope<'_>, rest: Stretch<'_>) -> Result<Target, TextFault>
    ensures is { Gives (λ x. x) result (lone_target (option_copied scope.entry.known) scope.entry.threads.now (span rest.entry)) }
    ensures owned { IfOk result (IsOwned (length scope.entry.threads.now)) }
{
    let (named, rest) = target_word(alloc, scope, rest)?;
    no_more(rest)?;
    Ok(named)
}

/// What a word names: a variable of a catalog or the handle of one.
#[tactic(auto, unfolding(crate::specs::Commands::catalog))]
fn catalog(alloc: Global, scope: Scope<'_>, word: Stretch<'_>) -> Result<OpenCatalog, TextFault>
    ensures is { Gives (λ x. x) result (catalog (option_copied scope.entry.known) scope.entry.threads.now (span word.entry)) }
    ensures owned { IfOk result (IsCatalogOwned (length scope.entry.threads.now)) }
{
    if is_thread_name(word.bytes) {
        return Ok(OpenCatalog::Variable(ByteText::of(alloc, word.bytes)?));
    }
    Ok(OpenCatalog::Handle(handle_word(scope, word)?))
}

/// The catalog that the next word names, and what follows it.
#[tactic(auto, unfolding(crate::specs::Commands::catalog_word))]
pub fn catalog_word<'a>(
    alloc: Global,
    scope: Scope<'_>,
    rest: Stretch<'a>,
) -> Result<(OpenCatalog, Stretch<'a>), TextFault>
    ensures is { Gives (λ x. (x.0, span x.1)) result (catalog_word (option_copied scope.entry.known) scope.entry.threads.now (span rest.entry)) }
    ensures owned { IfOk result (λ x. IsCatalogOwned (length scope.entry.threads.now) x.0) }
{
    let (word, rest) = argument(rest)?;
    let named = catalog(alloc, scope, word)?;
    Ok((named, rest))
}

/// The name of a catalog, and what follows it.
pub fn catalog_name(alloc: Global, rest: Stretch<'_>) -> Result<(ByteText, Stretch<'_>), TextFault>
    ensures { Gives (λ x. (x.0, span x.1)) result (read_as key_of_word (span rest.entry)) }
{
    read_as(rest, |word| key_of_word(alloc, word))
}

/// The cell that a word names: the numbers of its thread and of the cell.
#[tactic(auto, unfolding(crate::specs::Commands::cell))]
pub fn cell(scope: Scope<'_>, word: Stretch<'_>) -> Result<(u32, u32), TextFault>
    ensures is { Gives (λ x. x) result (cell (option_copied scope.entry.known) scope.entry.threads.now (span word.entry)) }
    ensures in_range { IfOk result (λ x. (x.0 < length scope.entry.threads.now) × (x.1 < CELLS)) }
{
    let Some(written) = cell_of_word(word.bytes) else {
        return Err(wrong_word(word.place));
    };
    match thread_number(scope, written.thread) {
        Some(owner) => Ok((owner, written.cell)),
        None => Err(TextFault::At(word.place, Reason::NoThread)),
    }
}

/// The key that a word is.
#[tactic(auto, unfolding(crate::specs::Commands::key))]
pub fn key(alloc: Global, known: Option<&Known>, word: Stretch<'_>) -> Result<ByteText, TextFault>
    ensures { Gives (λ x. x) result (key (option_copied known.entry) (span word.entry)) }
{
    let Some(key) = key_of_word(alloc, word.bytes)? else {
        return Err(wrong_word(word.place));
    };
    if lacks_key(known, key.as_bytes()) {
        return Err(TextFault::At(word.place, Reason::NoLater));
    }
    Ok(key)
}

/// The number of a cell, and what follows it.
#[tactic(auto, unfolding(crate::specs::Commands::read_as))]
pub fn cell_word(rest: Stretch<'_>) -> Result<(u32, Stretch<'_>), TextFault>
    ensures is { Gives (λ x. (x.0, span x.1)) result (read_as cell_number (span rest.entry)) }
    ensures small { IfOk result (λ x. x.0 < CELLS) }
{
    let (word, rest) = argument(rest)?;
    match cell_number(word.bytes) {
        Some(number) => Ok((number, rest)),
        None => Err(wrong_word(word.place)),
    }
}

/// An item, and what follows it.
pub fn item(rest: Stretch<'_>) -> Result<(Item, Stretch<'_>), TextFault>
    ensures { Gives (λ x. (x.0, span x.1)) result (read_as (first_named items_table) (span rest.entry)) }
{
    read_as(rest, |word| Ok(item_named(word)))
}

/// The name of a class, and what follows it.
pub fn class(alloc: Global, rest: Stretch<'_>) -> Result<(ByteText, Stretch<'_>), TextFault>
    ensures { Gives (λ x. (x.0, span x.1)) result (read_as class_of_word (span rest.entry)) }
{
    read_as(rest, |word| class_of_word(alloc, word))
}

/// A number of 32 bits, as a wide value is one, and what follows it.
pub fn value(rest: Stretch<'_>) -> Result<(u32, Stretch<'_>), TextFault>
    ensures { Gives (λ x. (x.0, span x.1)) result (read_as decimal_number (span rest.entry)) }
{
    read_as(rest, |word| Ok(decimal_number(word)))
}

/// The most bytes of a text, which a word in front of the format may give, and what follows it.
#[tactic(auto, unfolding(crate::specs::Commands::max_bytes))]
pub fn max_bytes(rest: Stretch<'_>) -> Result<(u32, Stretch<'_>), TextFault>
    ensures { Gives (λ x. (x.0, span x.1)) result (max_bytes (span rest.entry)) }
{
    let (word, behind) = argument(rest)?;
    let Some(digits) = behind_front(b"max=", word.bytes) else {
        return Ok((DEFAULT_MAX, rest));
    };
    match max_number(digits) {
        Some(max) => Ok((max, behind)),
        None => Err(wrong_word(word.place)),
    }
}

/// A format, and what follows it.
#[tactic(auto, unfolding(crate::specs::Commands::format))]
pub fn format(alloc: Global, rest: Stretch<'_>) -> Result<(Format, Stretch<'_>), TextFault>
    ensures { Gives (λ x. (x.0, span x.1)) result (format (span rest.entry)) }
{
    let (word, rest) = argument(rest)?;
    let Some(text) = quoted_of_word(alloc, word.bytes)? else {
        return Err(wrong_word(word.place));
    };
    match Format::of(text) {
        Some(format) => Ok((format, rest)),
        None => Err(TextFault::At(word.place, Reason::OverLimit(Limit::Format))),
    }
}

/// A text in quotes, and what follows it.
#[tactic(auto, unfolding(crate::specs::Commands::command_text))]
pub fn command_text(
    alloc: Global,
    rest: Stretch<'_>,
) -> Result<(CommandText, Stretch<'_>), TextFault>
    ensures { Gives (λ x. (x.0, span x.1)) result (command_text (span rest.entry)) }
{
    let (word, rest) = argument(rest)?;
    let Some(text) = quoted_of_word(alloc, word.bytes)? else {
        return Err(wrong_word(word.place));
    };
    match CommandText::of(text) {
        Some(text) => Ok((text, rest)),
        None => Err(TextFault::At(word.place, Reason::OverLimit(Limit::CommandText))),
    }
}

/// The amounts to the end of the line.
#[tactic(auto, unfolding(crate::specs::Commands::amounts))]
pub fn amounts(alloc: Global, rest: Stretch<'_>) -> Result<List<Amount>, TextFault>
    ensures { Gives (λ x. x) result (amounts (span rest.entry)) }
{
    let mut amounts = Vec::new(alloc);
    let mut left = rest;
    while let Some((word, behind)) = left.next_word() {
        let Some(amount) = amount_of_word(word.bytes) else {
            return Err(wrong_word(word.place));
        };
        if amounts.len() == AMOUNT_LIMIT {
            return Err(TextFault::At(word.place, Reason::OverLimit(Limit::Amounts)));
        }
        amounts.push(amount)?;
        left = behind;
    }
    Ok(List::of(amounts))
}

/// The whole numbers to the end of the line.
#[tactic(auto, unfolding(crate::specs::Commands::whole_numbers))]
pub fn whole_numbers(alloc: Global, rest: Stretch<'_>) -> Result<List<WrittenNumber>, TextFault>
    ensures { Gives (λ x. x) result (whole_numbers (span rest.entry)) }
{
    let mut numbers = Vec::new(alloc);
    let mut left = rest;
    while let Some((word, behind)) = left.next_word() {
        let Some(number) = number_of_word(word.bytes) else {
            return Err(wrong_word(word.place));
        };
        if numbers.len() == NUMBER_LIMIT {
            return Err(TextFault::At(word.place, Reason::OverLimit(Limit::Numbers)));
        }
        numbers.push(number)?;
        left = behind;
    }
    Ok(List::of(numbers))
}

/// Three numbers with a byte between them, and what follows them.
fn numbers(between: u8, rest: Stretch<'_>) -> Result<((i32, i32, i32), Stretch<'_>), TextFault>
    ensures { Gives (λ x. (x.0, span x.1)) result (read_as (three_numbers between) (span rest.entry)) }
{
    read_as(rest, |word| Ok(three_numbers(between, word)))
}

/// A number of a time, and what follows it.
fn number(rest: Stretch<'_>) -> Result<(i32, Stretch<'_>), TextFault>
    ensures { Gives (λ x. (x.0, span x.1)) result (read_as short_number (span rest.entry)) }
{
    read_as(rest, |word| Ok(short_number(word)))
}

/// Minutes east of UTC, which may be left out, and what follows them.
#[tactic(auto, unfolding(crate::specs::Commands::offset))]
fn offset(rest: Stretch<'_>) -> Result<(Option<i32>, Stretch<'_>), TextFault>
    ensures { Gives (λ x. (x.0, span x.1)) result (offset (span rest.entry)) }
{
    if is_over(rest) {
        return Ok((None, rest));
    }
    let (minutes, rest) = read_as(rest, |word| Ok(offset_of_word(word)))?;
    Ok((Some(minutes), rest))
}

/// The name of a time zone, which may be left out, and what follows it.
#[tactic(auto, unfolding(crate::specs::Commands::zone))]
fn zone(alloc: Global, rest: Stretch<'_>) -> Result<(ByteText, Stretch<'_>), TextFault>
    ensures { Gives (λ x. (x.0, span x.1)) result (zone (span rest.entry)) }
{
    if is_over(rest) {
        return Ok((ByteText::from_vec(Vec::new(alloc)), rest));
    }
    read_as(rest, |word| zone_of_word(alloc, word))
}

/// A date, a clock, the days of the week and of the year, and the zone; and what follows them.
#[tactic(auto, unfolding(crate::specs::Commands::moment))]
pub fn moment(alloc: Global, rest: Stretch<'_>) -> Result<(UncheckedTime, Stretch<'_>), TextFault>
    ensures { Gives (λ x. (x.0, span x.1)) result (moment (span rest.entry)) }
{
    let ((year, mon, mday), rest) = numbers(b'-', rest)?;
    let ((hour, min, sec), rest) = numbers(b':', rest)?;
    let (wday, rest) = number(rest)?;
    let (yday, rest) = number(rest)?;
    let (offset, rest) = offset(rest)?;
    let (zone, rest) = zone(alloc, rest)?;
    let time = UncheckedTime {
        year,
        mon,
        mday,
        hour,
        min,
        sec,
        wday,
        yday,
        offset,
        zone,
    };
    Ok((time, rest))
}
