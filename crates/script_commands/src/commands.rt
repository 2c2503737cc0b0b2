//! Commands, from their words.

ghost use Rattle.std.specs.Prelude.{◌≡◌, ℕ, ◌<◌, ◌≤◌, length, IfOk};
ghost use Rattle.std.specs.Option.{option_copied};
ghost use Rattle.lc_base.specs.Reading.{Gives, Reads};
ghost use Rattle.script_commands.specs.InRange.{IsBaseOwned, IsInRange};
ghost use Rattle.script_words.specs.Spans.{Span, span};
ghost use Rattle.script_commands.specs.declared.command.Read.{Read};
ghost use Rattle.script_commands.specs.Commands.{info_words, conv_words, class_words, lone_value, money_words, time_words, number_words, parse_words, upper_words, lower_words, base, new_command, dup_command, selection, use_command, setlocale_command, install_command, post_command, fetch_command, read_of_command, catopen_command, catgets_command, catclose_command, read_command, handle_read_command, own_read_command, catalog_command, shared_command, command};

use crate::arguments::{
    amounts, argument, catalog_name, catalog_word, categories, cell, cell_word, class,
    command_text, format, is_over, item, key, locale, lone_target, mask, max_bytes, moment,
    no_more, target, target_word, value, variable, whole_numbers,
};
use crate::command::{Command, Read, Target};
use crate::known::Known;
use crate::scope::Scope;
use lc_base::{ByteText, LinePart, List, Reason, TextFault};
use script_words::Stretch;
use std::alloc::Global;

/// `ITEM`, of `info`.
#[tactic(auto, unfolding(crate::specs::Commands::info_words))]
fn info_words(rest: Stretch<'_>) -> Result<Read, TextFault>
    ensures { Gives (λ x. x) result (info_words (span rest.entry)) }
{
    let (item, rest) = item(rest)?;
    no_more(rest)?;
    Ok(Read::Info(item))
}

/// No words, of `conv`.
#[tactic(auto, unfolding(crate::specs::Commands::conv_words))]
fn conv_words(rest: Stretch<'_>) -> Result<Read, TextFault>
    ensures { Gives (λ x. x) result (conv_words (span rest.entry)) }
{
    no_more(rest)?;
    Ok(Read::Conv)
}

/// `NAME W`, of `class`.
#[tactic(auto, unfolding(crate::specs::Commands::class_words))]
fn class_words(alloc: Global, rest: Stretch<'_>) -> Result<Read, TextFault>
    ensures { Gives (λ x. x) result (class_words (span rest.entry)) }
{
    let (class, rest) = class(alloc, rest)?;
    let (value, rest) = value(rest)?;
    no_more(rest)?;
    Ok(Read::Class { class, value })
}

/// `W`, and nothing else.
#[tactic(auto, unfolding(crate::specs::Commands::lone_value))]
fn lone_value(rest: Stretch<'_>) -> Result<u32, TextFault>
    ensures { Gives (λ x. x) result (lone_value (span rest.entry)) }
{
    let (value, rest) = value(rest)?;
    no_more(rest)?;
    Ok(value)
}

/// `MAX F AMOUNTS`, of `money`.
#[tactic(auto, unfolding(crate::specs::Commands::money_words))]
fn money_words(alloc: Global, rest: Stretch<'_>) -> Result<Read, TextFault>
    ensures { Gives (λ x. x) result (money_words (span rest.entry)) }
{
    let (max, rest) = max_bytes(rest)?;
    let (format, rest) = format(alloc, rest)?;
    let amounts = amounts(alloc, rest)?;
    Ok(Read::Money {
        max,
        format,
        amounts,
    })
}

/// `MAX F DATE CLOCK WDAY YDAY OFFSET ZONE`, of `time`.
#[tactic(auto, unfolding(crate::specs::Commands::time_words))]
fn time_words(alloc: Global, rest: Stretch<'_>) -> Result<Read, TextFault>
    ensures { Gives (λ x. x) result (time_words (span rest.entry)) }
{
    let (max, rest) = max_bytes(rest)?;
    let (format, rest) = format(alloc, rest)?;
    let (time, rest) = moment(alloc, rest)?;
    no_more(rest)?;
    Ok(Read::Time { max, format, time })
}

/// `MAX F NUMBERS`, of `number`.
#[tactic(auto, unfolding(crate::specs::Commands::number_words))]
fn number_words(alloc: Global, rest: Stretch<'_>) -> Result<Read, TextFault>
    ensures { Gives (λ x. x) result (number_words (span rest.entry)) }
{
    let (max, rest) = max_bytes(rest)?;
    let (format, rest) = format(alloc, rest)?;
    let numbers = whole_numbers(alloc, rest)?;
    Ok(Read::Number {
        max,
        format,
        numbers,
    })
}

/// `F TEXT`, of `parse`.
#[tactic(auto, unfolding(crate::specs::Commands::parse_words))]
fn parse_words(alloc: Global, rest: Stretch<'_>) -> Result<Read, TextFault>
    ensures { Gives (λ x. x) result (parse_words (span rest.entry)) }
{
    let (format, rest) = format(alloc, rest)?;
    let (text, rest) = command_text(alloc, rest)?;
    no_more(rest)?;
    Ok(Read::Parse { format, text })
}

/// `W`, of `upper`.
#[tactic(auto, unfolding(crate::specs::Commands::upper_words))]
fn upper_words(rest: Stretch<'_>) -> Result<Read, TextFault>
    ensures { Gives (λ x. x) result (upper_words (span rest.entry)) }
{
    Ok(Read::Upper(lone_value(rest)?))
}

/// `W`, of `lower`.
#[tactic(auto, unfolding(crate::specs::Commands::lower_words))]
fn lower_words(rest: Stretch<'_>) -> Result<Read, TextFault>
    ensures { Gives (λ x. x) result (lower_words (span rest.entry)) }
{
    Ok(Read::Lower(lone_value(rest)?))
}

/// A base, which may be left out.
#[tactic(auto, unfolding(crate::specs::Commands::base))]
fn base(alloc: Global, scope: Scope<'_>, rest: Stretch<'_>) -> Result<Option<Target>, TextFault>
    ensures is { Gives (λ x. x) result (base (option_copied scope.entry.known) scope.entry.threads.now (span rest.entry)) }
    ensures owned { IfOk result (IsBaseOwned (length scope.entry.threads.now)) }
{
    if is_over(rest) {
        return Ok(None);
    }
    Ok(Some(lone_target(alloc, scope, rest)?))
}

/// `new N MASK LOC`, `new N MASK LOC H`.
#[tactic(auto, unfolding(crate::specs::Commands::new_command))]
fn new_command(alloc: Global, scope: Scope<'_>, rest: Stretch<'_>) -> Result<Command, TextFault>
    ensures is { Gives (λ x. x) result (new_command (option_copied scope.entry.known) scope.entry.threads.now (span rest.entry)) }
    ensures in_range { IfOk result (IsInRange (length scope.entry.threads.now)) }
{
    let (variable, rest) = variable(alloc, rest)?;
    let (mask, rest) = mask(rest)?;
    let (locale, rest) = locale(alloc, rest)?;
    let base = base(alloc, scope, rest)?;
    Ok(Command::New {
        variable,
        mask,
        locale,
        base,
    })
}

/// `dup N H`.
#[tactic(auto, unfolding(crate::specs::Commands::dup_command))]
fn dup_command(alloc: Global, scope: Scope<'_>, rest: Stretch<'_>) -> Result<Command, TextFault>
    ensures is { Gives (λ x. x) result (dup_command (option_copied scope.entry.known) scope.entry.threads.now (span rest.entry)) }
    ensures in_range { IfOk result (IsInRange (length scope.entry.threads.now)) }
{
    let (variable, rest) = variable(alloc, rest)?;
    let from = lone_target(alloc, scope, rest)?;
    Ok(Command::Dup { variable, from })
}

/// `?`, or what is selected.
fn selection(alloc: Global, scope: Scope<'_>, word: Stretch<'_>) -> Result<Command, TextFault>
    ensures is { Gives (λ x. x) result (selection (option_copied scope.entry.known) scope.entry.threads.now (span word.entry)) }
    ensures in_range { IfOk result (IsInRange (length scope.entry.threads.now)) }
{
    if word.bytes == b"?".as_slice() {
        return Ok(Command::Selected);
    }
    Ok(Command::Use(target(alloc, scope, word)?))
}

/// `use H`, `use ?`.
#[tactic(auto, unfolding(crate::specs::Commands::use_command))]
fn use_command(alloc: Global, scope: Scope<'_>, rest: Stretch<'_>) -> Result<Command, TextFault>
    ensures is { Gives (λ x. x) result (use_command (option_copied scope.entry.known) scope.entry.threads.now (span rest.entry)) }
    ensures in_range { IfOk result (IsInRange (length scope.entry.threads.now)) }
{
    let (word, rest) = argument(rest)?;
    let command = selection(alloc, scope, word)?;
    no_more(rest)?;
    Ok(command)
}

/// `setlocale CAT LOC`, `setlocale CAT`.
#[tactic(auto, unfolding(crate::specs::Commands::setlocale_command))]
fn setlocale_command(alloc: Global, rest: Stretch<'_>) -> Result<Command, TextFault>
    ensures is { Gives (λ x. x) result (setlocale_command (span rest.entry)) }
    ensures in_range { (n : ℕ) → IfOk result (IsInRange n) }
{
    let (categories, rest) = categories(rest)?;
    if is_over(rest) {
        return Ok(Command::LocaleName(categories));
    }
    let (locale, rest) = locale(alloc, rest)?;
    no_more(rest)?;
    Ok(Command::Setlocale { categories, locale })
}

/// `install KEY`.
#[tactic(auto, unfolding(crate::specs::Commands::install_command))]
fn install_command(
    alloc: Global,
    known: Option<&Known>,
    rest: Stretch<'_>,
) -> Result<Command, TextFault>
    ensures is { Gives (λ x. x) result (install_command (option_copied known.entry) (span rest.entry)) }
    ensures in_range { (n : ℕ) → IfOk result (IsInRange n) }
{
    let (word, rest) = argument(rest)?;
    let key = key(alloc, known, word)?;
    no_more(rest)?;
    Ok(Command::Install(key))
}

/// `post K H`.
#[tactic(auto, unfolding(crate::specs::Commands::post_command))]
fn post_command(alloc: Global, scope: Scope<'_>, rest: Stretch<'_>) -> Result<Command, TextFault>
    ensures is { Gives (λ x. x) result (post_command (option_copied scope.entry.known) scope.entry.threads.now (span rest.entry)) }
    ensures in_range { IfOk result (IsInRange (length scope.entry.threads.now)) }
{
    let (cell, rest) = cell_word(rest)?;
    let named = lone_target(alloc, scope, rest)?;
    Ok(Command::Post { cell, named })
}

/// `fetch N THREAD.K`.
#[tactic(auto, unfolding(crate::specs::Commands::fetch_command))]
fn fetch_command(alloc: Global, scope: Scope<'_>, rest: Stretch<'_>) -> Result<Command, TextFault>
    ensures is { Gives (λ x. x) result (fetch_command (option_copied scope.entry.known) scope.entry.threads.now (span rest.entry)) }
    ensures in_range { IfOk result (IsInRange (length scope.entry.threads.now)) }
{
    let (variable, rest) = variable(alloc, rest)?;
    let (word, rest) = argument(rest)?;
    let (owner, cell) = cell(scope, word)?;
    no_more(rest)?;
    Ok(Command::Fetch {
        variable,
        owner,
        cell,
    })
}

/// `H`, and the words of a read behind it, which `words` reads. Whatever definition it follows, the
/// command follows the same one.
#[tactic(auto, unfolding(crate::specs::Commands::read_of_command))]
fn read_of_command<F: FnOnce(Stretch<'_>) -> Result<Read, TextFault>>(
    alloc: Global,
    scope: Scope<'_>,
    rest: Stretch<'_>,
    words: F,
) -> Result<Command, TextFault>
    requires { F.IsAlwaysCallable words }
    ensures is { (said : Span → Reads Read) → ((s : _) (read : _) → F.post words s read → Gives (λ x. x) read (said (span s))) → Gives (λ x. x) result (read_of_command (option_copied scope.entry.known) scope.entry.threads.now said (span rest.entry)) }
    ensures in_range { IfOk result (IsInRange (length scope.entry.threads.now)) }
{
    let (object, rest) = target_word(alloc, scope, rest)?;
    let read = words(rest)?;
    Ok(Command::ReadOf { object, read })
}

/// `catopen N NAME`.
#[tactic(auto, unfolding(crate::specs::Commands::catopen_command))]
fn catopen_command(alloc: Global, rest: Stretch<'_>) -> Result<Command, TextFault>
    ensures is { Gives (λ x. x) result (catopen_command (span rest.entry)) }
    ensures in_range { (n : ℕ) → IfOk result (IsInRange n) }
{
    let (variable, rest) = variable(alloc, rest)?;
    let (name, rest) = catalog_name(alloc, rest)?;
    no_more(rest)?;
    Ok(Command::CatOpen { variable, name })
}

/// `catgets C SET MSG "DEFAULT"`.
#[tactic(auto, unfolding(crate::specs::Commands::catgets_command))]
fn catgets_command(alloc: Global, scope: Scope<'_>, rest: Stretch<'_>) -> Result<Command, TextFault>
    ensures is { Gives (λ x. x) result (catgets_command (option_copied scope.entry.known) scope.entry.threads.now (span rest.entry)) }
    ensures in_range { IfOk result (IsInRange (length scope.entry.threads.now)) }
{
    let (catalog, rest) = catalog_word(alloc, scope, rest)?;
    let (set, rest) = value(rest)?;
    let (message, rest) = value(rest)?;
    let (default, rest) = command_text(alloc, rest)?;
    no_more(rest)?;
    Ok(Command::CatGets {
        catalog,
        set,
        message,
        default: default.into_text(),
    })
}

/// `catclose C`.
#[tactic(auto, unfolding(crate::specs::Commands::catclose_command))]
fn catclose_command(
    alloc: Global,
    scope: Scope<'_>,
    rest: Stretch<'_>,
) -> Result<Command, TextFault>
    ensures is { Gives (λ x. x) result (catclose_command (option_copied scope.entry.known) scope.entry.threads.now (span rest.entry)) }
    ensures in_range { IfOk result (IsInRange (length scope.entry.threads.now)) }
{
    let (catalog, rest) = catalog_word(alloc, scope, rest)?;
    no_more(rest)?;
    Ok(Command::CatClose(catalog))
}

/// The command with this first word, where it can only be a read with a handle.
#[tactic(auto, unfolding(crate::specs::Commands::handle_read_command))]
fn handle_read_command(
    alloc: Global,
    scope: Scope<'_>,
    word: Stretch<'_>,
    rest: Stretch<'_>,
) -> Result<Command, TextFault>
    ensures is { Gives (λ x. x) result (handle_read_command (option_copied scope.entry.known) scope.entry.threads.now (span word.entry) (span rest.entry)) }
    ensures in_range { IfOk result (IsInRange (length scope.entry.threads.now)) }
{
    if b"info_l".as_slice() == word.bytes {
        read_of_command(alloc, scope, rest, info_words)
    } else if b"class_l".as_slice() == word.bytes {
        read_of_command(alloc, scope, rest, |rest| class_words(alloc, rest))
    } else if b"upper_l".as_slice() == word.bytes {
        read_of_command(alloc, scope, rest, upper_words)
    } else if b"lower_l".as_slice() == word.bytes {
        read_of_command(alloc, scope, rest, lower_words)
    } else if b"money_l".as_slice() == word.bytes {
        read_of_command(alloc, scope, rest, |rest| money_words(alloc, rest))
    } else if b"time_l".as_slice() == word.bytes {
        read_of_command(alloc, scope, rest, |rest| time_words(alloc, rest))
    } else if b"number_l".as_slice() == word.bytes {
        read_of_command(alloc, scope, rest, |rest| number_words(alloc, rest))
    } else if b"parse_l".as_slice() == word.bytes {
        read_of_command(alloc, scope, rest, |rest| parse_words(alloc, rest))
    } else {
        Err(TextFault::At(word.place, Reason::BadLine(LinePart::Command)))
    }
}

/// The command that reads what these words say, where they say anything.
fn read_command(words: Result<Read, TextFault>) -> Result<Command, TextFault>
    ensures is { (said : Reads Read) → Gives (λ x. x) words said → Gives (λ x. x) result (read_command said) }
    ensures in_range { (n : ℕ) → IfOk result (IsInRange n) }
{
    Ok(Command::Read(words?))
}

/// The command with this first word, where it can only be a read.
#[tactic(auto, unfolding(crate::specs::Commands::own_read_command))]
fn own_read_command(
    alloc: Global,
    scope: Scope<'_>,
    word: Stretch<'_>,
    rest: Stretch<'_>,
) -> Result<Command, TextFault>
    ensures is { Gives (λ x. x) result (own_read_command (option_copied scope.entry.known) scope.entry.threads.now (span word.entry) (span rest.entry)) }
    ensures in_range { IfOk result (IsInRange (length scope.entry.threads.now)) }
{
    if b"info".as_slice() == word.bytes {
        read_command(info_words(rest))
    } else if b"conv".as_slice() == word.bytes {
        read_command(conv_words(rest))
    } else if b"class".as_slice() == word.bytes {
        read_command(class_words(alloc, rest))
    } else if b"upper".as_slice() == word.bytes {
        read_command(upper_words(rest))
    } else if b"lower".as_slice() == word.bytes {
        read_command(lower_words(rest))
    } else if b"money".as_slice() == word.bytes {
        read_command(money_words(alloc, rest))
    } else if b"time".as_slice() == word.bytes {
        read_command(time_words(alloc, rest))
    } else if b"number".as_slice() == word.bytes {
        read_command(number_words(alloc, rest))
    } else if b"parse".as_slice() == word.bytes {
        read_command(parse_words(alloc, rest))
    } else {
        handle_read_command(alloc, scope, word, rest)
    }
}

/// The command with this first word, where it can only be one of a catalog or a read.
#[tactic(auto, unfolding(crate::specs::Commands::catalog_command))]
fn catalog_command(
    alloc: Global,
    scope: Scope<'_>,
    word: Stretch<'_>,
    rest: Stretch<'_>,
) -> Result<Command, TextFault>
    ensures is { Gives (λ x. x) result (catalog_command (option_copied scope.entry.known) scope.entry.threads.now (span word.entry) (span rest.entry)) }
    ensures in_range { IfOk result (IsInRange (length scope.entry.threads.now)) }
{
    if b"catopen".as_slice() == word.bytes {
        catopen_command(alloc, rest)
    } else if b"catgets".as_slice() == word.bytes {
        catgets_command(alloc, scope, rest)
    } else if b"catclose".as_slice() == word.bytes {
        catclose_command(alloc, scope, rest)
    } else {
        own_read_command(alloc, scope, word, rest)
    }
}

/// The command with this first word, where it is none of the table of objects.
#[tactic(auto, unfolding(crate::specs::Commands::shared_command))]
fn shared_command(
    alloc: Global,
    scope: Scope<'_>,
    word: Stretch<'_>,
    rest: Stretch<'_>,
) -> Result<Command, TextFault>
    ensures is { Gives (λ x. x) result (shared_command (option_copied scope.entry.known) scope.entry.threads.now (span word.entry) (span rest.entry)) }
    ensures in_range { IfOk result (IsInRange (length scope.entry.threads.now)) }
{
    if b"setlocale".as_slice() == word.bytes {
        setlocale_command(alloc, rest)
    } else if b"install".as_slice() == word.bytes {
        install_command(alloc, scope.known, rest)
    } else if b"post".as_slice() == word.bytes {
        post_command(alloc, scope, rest)
    } else if b"fetch".as_slice() == word.bytes {
        fetch_command(alloc, scope, rest)
    } else {
        catalog_command(alloc, scope, word, rest)
    }
}

/// The command with this first word and the rest of its line, whose names are looked for in this
/// scope.
#[tactic(auto, unfolding(crate::specs::Commands::command))]
pub fn command_of_line(
    alloc: Global,
    scope: Scope<'_>,
    word: Stretch<'_>,
    rest: Stretch<'_>,
) -> Result<Command, TextFault>
    ensures is { Gives (λ x. x) result (command (option_copied scope.entry.known) scope.entry.threads.now (span word.entry) (span rest.entry)) }
    ensures in_range { IfOk result (IsInRange (length scope.entry.threads.now)) }
{
    if b"new".as_slice() == word.bytes {
        new_command(alloc, scope, rest)
    } else if b"dup".as_slice() == word.bytes {
        dup_command(alloc, scope, rest)
    } else if b"free".as_slice() == word.bytes {
        Ok(Command::Free(lone_target(alloc, scope, rest)?))
    } else if b"use".as_slice() == word.bytes {
        use_command(alloc, scope, rest)
    } else if b"hold".as_slice() == word.bytes {
        Ok(Command::Hold(lone_target(alloc, scope, rest)?))
    } else if b"release".as_slice() == word.bytes {
        Ok(Command::Release(lone_target(alloc, scope, rest)?))
    } else if b"pins".as_slice() == word.bytes {
        Ok(Command::Pins(lone_target(alloc, scope, rest)?))
    } else {
        shared_command(alloc, scope, word, rest)
    }
}
