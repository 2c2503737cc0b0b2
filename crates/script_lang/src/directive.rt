//! Directives of a bundle.

ghost use Rattle.std.specs.Prelude.{◌≡◌, ◌+◌, ◌<◌, ◌≤◌, ◌^◌, ◌&&◌, length, is_some, [], IfOk, OnOk, IsSome, option_map};
ghost use Rattle.std.specs.Option.{option_copied};
ghost use Rattle.lc_base.specs.declared.fault.TextFault.TheVariants.{At};
ghost use Rattle.lc_base.specs.declared.reason.Reason.TheVariants.{BadLine};
ghost use Rattle.lc_base.specs.declared.reason.LinePart.TheVariants.{Directive as DirectivePart};
ghost use Rattle.lc_base.specs.Reading.{Gives};
ghost use Rattle.script_lang.specs.declared.reading.BlockKind.TheVariants.{Charmap as CharmapKind, Locale as LocaleKind, Later as LaterKind, Catalog as CatalogKind};
ghost use Rattle.script_lang.specs.Kept.{IsReading};
ghost use Rattle.script_commands.specs.Known.{has_block, has_key};
ghost use Rattle.script_words.specs.Names.{is_formed, is_locale_name, is_part_name};
ghost use Rattle.script_words.specs.Spans.{start, span, spans, whole_line};
ghost use Rattle.script_lang.specs.Reading.{one_word, two_words, three_words, has_catalog, with_open, with_native, with_thread, with_round, charmap_line, locale_line, later_line, catalog_line, native_line, new_thread, thread_named, thread_line, round_line, line_of_directive, directive_line};

use crate::bundle::{CATALOG_LIMIT, CHARMAP_LIMIT, LATER_LIMIT, LOCALE_LIMIT, ROUND_LIMIT};
use crate::reading::{BlockKind, Reading};
use crate::steps::{begin_block, begin_round, begin_thread, set_current, set_native};
use lc_base::{Block, ByteText, Later, Limit, LinePart, List, Place, Reason, TextFault};
use script_commands::{
    Known, THREAD_LIMIT, has_block, has_key, is_over, lacks_charset, lacks_locale,
};
use script_words::{
    Directive, Stretch, directive_named, is_charmap_name, is_formed, is_locale_name, is_part_name,
    is_thread_name,
};
use std::alloc::Global;

/// A refusal at the beginning of a line.
fn at_start(number: u32, reason: Reason) -> TextFault
    ensures { result ≡ At (start number) reason }
{
    TextFault::At(
        Place {
            line: number,
            column: 1,
        },
        reason,
    )
}

/// The refusal of a wrong directive.
fn wrong_directive(number: u32) -> TextFault
    ensures { result ≡ At (start number) (BadLine DirectivePart) }
{
    at_start(number, Reason::BadLine(LinePart::Directive))
}

/// Whether a block has this name already, where names are looked for.
fn is_taken(known: Option<&Known>, blocks: &List<Block>, name: &[u8]) -> bool
    ensures { result ≡ (is_some (option_copied known.entry) && has_block blocks.now name.now) }
{
    known.is_some() && has_block(blocks, name)
}

/// Whether a later version has this key already, where names are looked for.
fn is_key_taken(known: Option<&Known>, later: &List<Later>, key: &[u8]) -> bool
    ensures { result ≡ (is_some (option_copied known.entry) && has_key later.now key.now) }
{
    known.is_some() && has_key(later, key)
}

/// Whether one of the catalogs has this name for this locale.
fn has_catalog(catalogs: &List<Block>, name: &[u8], locale: &[u8]) -> bool
    ensures { result ≡ has_catalog catalogs.now name.now locale.now }
{
    catalogs.as_slice().iter().any(|block| block.name.as_bytes() == name
        && block.charset.as_bytes() == locale)
}

/// Whether a catalog has this name for this locale already, where names are looked for.
fn is_pair_taken(known: Option<&Known>, catalogs: &List<Block>, name: &[u8], locale: &[u8]) -> bool
    ensures { result ≡ (is_some (option_copied known.entry) && has_catalog catalogs.now name.now locale.now) }
{
    known.is_some() && has_catalog(catalogs, name, locale)
}

/// Whether these can name a catalog and its locale.
fn are_catalog_words(name: &[u8], locale: &[u8]) -> bool
    ensures { result ≡ (is_locale_name name.now && is_part_name locale.now) }
{
    is_locale_name(name) && is_part_name(locale)
}

/// Whether these can name a locale and its charset.
fn are_locale_words(name: &[u8], charset: &[u8]) -> bool
    ensures { result ≡ (is_locale_name name.now && is_formed charset.now) }
{
    is_locale_name(name) && is_formed(charset)
}

/// Whether these can name a later version, its locale and its charset.
fn are_later_words(key: &[u8], name: &[u8], charset: &[u8]) -> bool
    ensures { result ≡ (is_locale_name key.now && is_locale_name name.now && is_formed charset.now) }
{
    is_locale_name(key) && are_locale_words(name, charset)
}

/// Just one word.
#[tactic(auto, unfolding(crate::specs::Reading::one_word))]
fn one_word(rest: Stretch<'_>) -> Option<Stretch<'_>>
    ensures is { option_map span result ≡ one_word (span rest.entry) }
    ensures some { IsSome result → 0 < length rest.entry.bytes.now }
{
    let (word, rest) = rest.next_word()?;
    if is_over(rest) { Some(word) } else { None }
}

/// Just two words.
#[tactic(auto, unfolding(crate::specs::Reading::two_words))]
fn two_words(rest: Stretch<'_>) -> Option<(Stretch<'_>, Stretch<'_>)>
    ensures is { option_map spans result ≡ two_words (span rest.entry) }
    ensures some { IsSome result → 0 < length rest.entry.bytes.now }
{
    let (first, rest) = rest.next_word()?;
    Some((first, one_word(rest)?))
}

/// Just three words.
#[tactic(auto, unfolding(crate::specs::Reading::three_words))]
fn three_words(rest: Stretch<'_>) -> Option<(Stretch<'_>, Stretch<'_>, Stretch<'_>)>
    ensures is { option_map (λ x. (span x.0, span x.1, span x.2)) result ≡ three_words (span rest.entry) }
    ensures some { IsSome result → 0 < length rest.entry.bytes.now }
{
    let (first, rest) = rest.next_word()?;
    let (second, third) = two_words(rest)?;
    Some((first, second, third))
}

/// The name in `.charmap NAME`, where its block may begin.
#[tactic(auto, unfolding(crate::specs::Reading::charmap_line))]
fn charmap_word<'a>(
    known: Option<&Known>,
    reading: &Reading,
    number: u32,
    rest: Stretch<'a>,
) -> Result<Stretch<'a>, TextFault>
    ensures is { Gives (λ name. with_open reading.now CharmapKind name.bytes.now [] number) result (charmap_line (option_copied known.entry) reading.now number (span rest.entry)) }
    ensures room { IfOk result (λ name. length reading.now.bundle.charmaps < CHARMAP_LIMIT) }
    ensures some { IfOk result (λ name. 0 < length rest.entry.bytes.now) }
{
    let Some(name) = one_word(rest) else {
        return Err(wrong_directive(number));
    };
    if !is_charmap_name(name.bytes) {
        return Err(wrong_directive(number));
    }
    if reading.bundle.charmaps.len() >= CHARMAP_LIMIT {
        return Err(at_start(number, Reason::OverLimit(Limit::Charmaps)));
    }
    if is_taken(known, &reading.bundle.charmaps, name.bytes) {
        return Err(TextFault::At(name.place, Reason::NameTwice));
    }
    Ok(name)
}

/// `.charmap NAME`.
fn charmap_line(
    alloc: Global,
    known: Option<&Known>,
    reading: &mut Reading,
    number: u32,
    rest: Stretch<'_>,
) -> Result<(), TextFault>
    requires number { number + length rest.bytes.now < 2 ^ 31 }
    requires kept { IsReading 0 reading.old }
    ensures is { Gives (λ x. reading.new) result (charmap_line (option_copied known.entry) reading.old number (span rest.entry)) }
    ensures kept { OnOk result (IsReading 0 reading.new) }
{
    let name = charmap_word(known, reading, number, rest)?;
    Ok(begin_block(alloc, reading, BlockKind::Charmap, name.bytes, b"", number)?)
}

/// The words of `.locale NAME CHARSET`, where its block may begin.
#[tactic(auto, unfolding(crate::specs::Reading::locale_line))]
fn locale_words<'a>(
    known: Option<&Known>,
    reading: &Reading,
    number: u32,
    rest: Stretch<'a>,
) -> Result<(Stretch<'a>, Stretch<'a>), TextFault>
    ensures is { Gives (λ words. with_open reading.now LocaleKind words.0.bytes.now words.1.bytes.now number) result (locale_line (option_copied known.entry) reading.now number (span rest.entry)) }
    ensures room { IfOk result (λ words. length reading.now.bundle.locales < LOCALE_LIMIT) }
    ensures some { IfOk result (λ words. 0 < length rest.entry.bytes.now) }
{
    let Some((name, charset)) = two_words(rest) else {
        return Err(wrong_directive(number));
    };
    if !are_locale_words(name.bytes, charset.bytes) {
        return Err(wrong_directive(number));
    }
    if reading.bundle.locales.len() >= LOCALE_LIMIT {
        return Err(at_start(number, Reason::OverLimit(Limit::Locales)));
    }
    if is_taken(known, &reading.bundle.locales, name.bytes) {
        return Err(TextFault::At(name.place, Reason::NameTwice));
    }
    if lacks_charset(known, charset.bytes) {
        return Err(TextFault::At(charset.place, Reason::NoCharmap));
    }
    Ok((name, charset))
}

/// `.locale NAME CHARSET`.
fn locale_line(
    alloc: Global,
    known: Option<&Known>,
    reading: &mut Reading,
    number: u32,
    rest: Stretch<'_>,
) -> Result<(), TextFault>
    requires number { number + length rest.bytes.now < 2 ^ 31 }
    requires kept { IsReading 0 reading.old }
    ensures is { Gives (λ x. reading.new) result (locale_line (option_copied known.entry) reading.old number (span rest.entry)) }
    ensures kept { OnOk result (IsReading 0 reading.new) }
{
    let (name, charset) = locale_words(known, reading, number, rest)?;
    Ok(begin_block(
        alloc,
        reading,
        BlockKind::Locale,
        name.bytes,
        charset.bytes,
        number,
    )?)
}

/// The words of `.later KEY NAME CHARSET`, where its block may begin.
#[tactic(auto, unfolding(crate::specs::Reading::later_line))]
fn later_words<'a>(
    known: Option<&Known>,
    reading: &Reading,
    number: u32,
    rest: Stretch<'a>,
) -> Result<(Stretch<'a>, Stretch<'a>, Stretch<'a>), TextFault>
    ensures is { Gives (λ words. with_open reading.now (LaterKind words.0.bytes.now) words.1.bytes.now words.2.bytes.now number) result (later_line (option_copied known.entry) reading.now number (span rest.entry)) }
    ensures room { IfOk result (λ words. length reading.now.bundle.later < LATER_LIMIT) }
    ensures some { IfOk result (λ words. 0 < length rest.entry.bytes.now) }
{
    let Some((key, name, charset)) = three_words(rest) else {
        return Err(wrong_directive(number));
    };
    if !are_later_words(key.bytes, name.bytes, charset.bytes) {
        return Err(wrong_directive(number));
    }
    if reading.bundle.later.len() >= LATER_LIMIT {
        return Err(at_start(number, Reason::OverLimit(Limit::Later)));
    }
    if is_key_taken(known, &reading.bundle.later, key.bytes) {
        return Err(TextFault::At(key.place, Reason::NameTwice));
    }
    if lacks_charset(known, charset.bytes) {
        return Err(TextFault::At(charset.place, Reason::NoCharmap));
    }
    Ok((key, name, charset))
}

/// `.later KEY NAME CHARSET`.
fn later_line(
    alloc: Global,
    known: Option<&Known>,
    reading: &mut Reading,
    number: u32,
    rest: Stretch<'_>,
) -> Result<(), TextFault>
    requires number { number + length rest.bytes.now < 2 ^ 31 }
    requires kept { IsReading 0 reading.old }
    ensures is { Gives (λ x. reading.new) result (later_line (option_copied known.entry) reading.old number (span rest.entry)) }
    ensures kept { OnOk result (IsReading 0 reading.new) }
{
    let (key, name, charset) = later_words(known, reading, number, rest)?;
    let kind = BlockKind::Later(ByteText::of(alloc, key.bytes)?);
    Ok(begin_block(alloc, reading, kind, name.bytes, charset.bytes, number)?)
}

/// The words of `.catalog NAME LOCALE`, where its block may begin.
#[tactic(auto, unfolding(crate::specs::Reading::catalog_line))]
fn catalog_words<'a>(
    known: Option<&Known>,
    reading: &Reading,
    number: u32,
    rest: Stretch<'a>,
) -> Result<(Stretch<'a>, Stretch<'a>), TextFault>
    ensures is { Gives (λ words. with_open reading.now CatalogKind words.0.bytes.now words.1.bytes.now number) result (catalog_line (option_copied known.entry) reading.now number (span rest.entry)) }
    ensures room { IfOk result (λ words. length reading.now.bundle.catalogs < CATALOG_LIMIT) }
    ensures some { IfOk result (λ words. 0 < length rest.entry.bytes.now) }
{
    let Some((name, locale)) = two_words(rest) else {
        return Err(wrong_directive(number));
    };
    if !are_catalog_words(name.bytes, locale.bytes) {
        return Err(wrong_directive(number));
    }
    if reading.bundle.catalogs.len() >= CATALOG_LIMIT {
        return Err(at_start(number, Reason::OverLimit(Limit::Catalogs)));
    }
    if is_pair_taken(known, &reading.bundle.catalogs, name.bytes, locale.bytes) {
        return Err(TextFault::At(name.place, Reason::NameTwice));
    }
    Ok((name, locale))
}

/// `.catalog NAME LOCALE`.
fn catalog_line(
    alloc: Global,
    known: Option<&Known>,
    reading: &mut Reading,
    number: u32,
    rest: Stretch<'_>,
) -> Result<(), TextFault>
    requires number { number + length rest.bytes.now < 2 ^ 31 }
    requires kept { IsReading 0 reading.old }
    ensures is { Gives (λ x. reading.new) result (catalog_line (option_copied known.entry) reading.old number (span rest.entry)) }
    ensures kept { OnOk result (IsReading 0 reading.new) }
{
    let (name, locale) = catalog_words(known, reading, number, rest)?;
    Ok(begin_block(
        alloc,
        reading,
        BlockKind::Catalog,
        name.bytes,
        locale.bytes,
        number,
    )?)
}

/// The name in `.native NAME`, where it may be the native locale's.
#[tactic(auto, unfolding(crate::specs::Reading::native_line))]
fn native_word<'a>(
    known: Option<&Known>,
    reading: &Reading,
    number: u32,
    rest: Stretch<'a>,
) -> Result<Stretch<'a>, TextFault>
    ensures { Gives (λ name. with_native reading.now name.bytes.now) result (native_line (option_copied known.entry) reading.now number (span rest.entry)) }
{
    let Some(name) = one_word(rest) else {
        return Err(wrong_directive(number));
    };
    if !is_formed(name.bytes) {
        return Err(wrong_directive(number));
    }
    if reading.bundle.native.is_some() {
        return Err(wrong_directive(number));
    }
    if lacks_locale(known, name.bytes) {
        return Err(TextFault::At(name.place, Reason::NoNative));
    }
    Ok(name)
}

/// `.native NAME`.
fn native_line(
    alloc: Global,
    known: Option<&Known>,
    reading: &mut Reading,
    number: u32,
    rest: Stretch<'_>,
) -> Result<(), TextFault>
    requires { IsReading 0 reading.old }
    ensures is { Gives (λ x. reading.new) result (native_line (option_copied known.entry) reading.old number (span rest.entry)) }
    ensures kept { OnOk result (IsReading 0 reading.new) }
{
    let name = native_word(known, reading, number, rest)?;
    Ok(set_native(alloc, reading, name.bytes)?)
}

/// Whether one more thread may begin.
fn more_threads(reading: &Reading, number: u32, name: &[u8]) -> Result<(), TextFault>
    ensures is { Gives (λ x. with_thread reading.now name.now) result (new_thread reading.now number name.now) }
    ensures room { IfOk result (λ x. length reading.now.bundle.threads < THREAD_LIMIT) }
{
    if reading.bundle.threads.len() >= THREAD_LIMIT {
        return Err(at_start(number, Reason::OverLimit(Limit::Threads)));
    }
    Ok(())
}

/// A thread that was not named before.
fn new_thread(
    alloc: Global,
    reading: &mut Reading,
    number: u32,
    name: &[u8],
) -> Result<(), TextFault>
    requires { IsReading 0 reading.old }
    ensures is { Gives (λ x. reading.new) result (new_thread reading.old number name.now) }
    ensures kept { OnOk result (IsReading 0 reading.new) }
{
    more_threads(reading, number, name)?;
    Ok(begin_thread(alloc, reading, name)?)
}

/// The thread of this name is current from now on.
fn thread_named(
    alloc: Global,
    reading: &mut Reading,
    number: u32,
    name: &[u8],
) -> Result<(), TextFault>
    requires { IsReading 0 reading.old }
    ensures is { Gives (λ x. reading.new) result (thread_named reading.old number name.now) }
    ensures kept { OnOk result (IsReading 0 reading.new) }
{
    match reading.bundle.thread_number(name) {
        None => new_thread(alloc, reading, number, name),
        Some(thread) => {
            set_current(reading, thread);
            Ok(())
        }
    }
}

/// `.thread NAME`.
#[tactic(auto, unfolding(crate::specs::Reading::thread_line))]
fn thread_line(
    alloc: Global,
    reading: &mut Reading,
    number: u32,
    rest: Stretch<'_>,
) -> Result<(), TextFault>
    requires { IsReading 0 reading.old }
    ensures is { Gives (λ x. reading.new) result (thread_line reading.old number (span rest.entry)) }
    ensures kept { OnOk result (IsReading 0 reading.new) }
{
    let Some(name) = one_word(rest) else {
        return Err(wrong_directive(number));
    };
    if !is_thread_name(name.bytes) {
        return Err(wrong_directive(number));
    }
    thread_named(alloc, reading, number, name.bytes)
}

/// Whether one more round may begin.
#[tactic(auto, unfolding(crate::specs::Reading::round_line))]
fn more_rounds(reading: &Reading, number: u32, rest: Stretch<'_>) -> Result<(), TextFault>
    ensures is { Gives (λ x. with_round reading.now) result (round_line reading.now number (span rest.entry)) }
    ensures room { IfOk result (λ x. reading.now.bundle.rounds < ROUND_LIMIT) }
{
    if !is_over(rest) {
        return Err(wrong_directive(number));
    }
    if reading.bundle.rounds >= ROUND_LIMIT {
        return Err(at_start(number, Reason::OverLimit(Limit::Rounds)));
    }
    Ok(())
}

/// `.round`.
fn round_line(reading: &mut Reading, number: u32, rest: Stretch<'_>) -> Result<(), TextFault>
    requires { IsReading 0 reading.old }
    ensures is { Gives (λ x. reading.new) result (round_line reading.old number (span rest.entry)) }
    ensures kept { OnOk result (IsReading 0 reading.new) }
{
    more_rounds(reading, number, rest)?;
    begin_round(reading);
    Ok(())
}

/// The line of a directive, with what follows its first word.
fn line_of_directive(
    alloc: Global,
    known: Option<&Known>,
    reading: &mut Reading,
    number: u32,
    directive: Directive,
    rest: Stretch<'_>,
) -> Result<(), TextFault>
    requires number { number + length rest.bytes.now < 2 ^ 31 }
    requires kept { IsReading 0 reading.old }
    ensures is { Gives (λ x. reading.new) result (line_of_directive (option_copied known.entry) reading.old number directive (span rest.entry)) }
    ensures kept { OnOk result (IsReading 0 reading.new) }
{
    match directive {
        Directive::Charmap => charmap_line(alloc, known, reading, number, rest),
        Directive::Locale => locale_line(alloc, known, reading, number, rest),
        Directive::Later => later_line(alloc, known, reading, number, rest),
        Directive::Catalog => catalog_line(alloc, known, reading, number, rest),
        Directive::Native => native_line(alloc, known, reading, number, rest),
        Directive::Thread => thread_line(alloc, reading, number, rest),
        Directive::Round => round_line(reading, number, rest),
    }
}

/// A line that begins with `.`.
#[tactic(auto, unfolding(crate::specs::Reading::directive_line))]
pub fn directive_line(
    alloc: Global,
    known: Option<&Known>,
    reading: &mut Reading,
    number: u32,
    line: &[u8],
) -> Result<(), TextFault>
    requires short { length line.now < 2 ^ 31 }
    requires number { number + length line.now ≤ 2 ^ 31 }
    requires kept { IsReading 0 reading.old }
    ensures is { Gives (λ x. reading.new) result (directive_line (option_copied known.entry) reading.old number line.now) }
    ensures kept { OnOk result (IsReading 0 reading.new) }
{
    let Some((word, rest)) = Stretch::whole_line(number, line).next_word() else {
        return Err(wrong_directive(number));
    };
    let Some(directive) = directive_named(word.bytes) else {
        return Err(wrong_directive(number));
    };
    line_of_directive(alloc, known, reading, number, directive, rest)
}
