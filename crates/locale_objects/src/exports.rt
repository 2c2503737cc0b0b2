//! The calls of C programs. `include/locale_objects.h` says how C calls them.
//!
//! Each that reads takes the pointer to a library that the caller lends, and looks the locale up in it.

ghost use Rattle.std.specs.Prelude.{◌≡◌, ◌<◌, ◌≤◌, ◌^◌, length, IsSome};
ghost use Rattle.lc_base.specs.Named.{place_of};
ghost use Rattle.ctype_classes.specs.Classes.{class_answer, numbered_answer};
ghost use Rattle.ctype_classes.specs.Case.{image};
ghost use Rattle.shared_objects.specs.Objects.{ctype_in};
ghost use Rattle.shared_objects.specs.Catalogs.{opened};
ghost use Rattle.shared_objects.specs.Joined.{joined};
ghost use Rattle.shared_objects.specs.Locales.{name_with, posix_of, shared_of, marked_in};
ghost use Rattle.shared_objects.specs.Parts.{marked_built};
ghost use Rattle.reason_rules.specs.Limits.{ROW_COUNT};
ghost use Rattle.reason_rules.specs.Table.{name_at, rule_at};
ghost use Rattle.c_values.specs.Codes.{NO_ITEM, OK, TOO_LONG};
ghost use Rattle.c_values.specs.Limits.{VERSION};
ghost use Rattle.c_values.specs.declared.cased.Case.TheVariants.{Upper, Lower};
ghost use Rattle.c_values.specs.Cased.{cased_told};
ghost use Rattle.c_values.specs.Catalogs.{catalog_told, message_by};
ghost use Rattle.c_values.specs.Conv.{conv_text, lconv_by};
ghost use Rattle.c_values.specs.Items.{item_of};
ghost use Rattle.c_values.specs.Table.{HasTexts, IsTabled};
ghost use Rattle.c_values.specs.Answers.{answered, of_object, by_object, refused, IsNumberTold, IsReadBack, AreClassesTold, name_told, own_name_told, new_told, number_told, class_told, item_told, conv_told, amounts_told, tm_given, tm_told, numbers_told, scan_by, told};
ghost use Rattle.locale_objects.specs.Libraries.{kind_of, IsAddedBehind, IsBegun, IsBuiltUnlessMemory, IsJoinedUnlessMemory, IsReadUnlessMemory};

use crate::builder::Builder;
use crate::builder_or_null::BuilderOrNull;
use crate::lent::{LentBuilder, LentLibrary};
use crate::libraries::{add_part, begin_into, build_into, join_into, read_into};
use crate::library_box::LibraryBox;
use crate::library_or_null::LibraryOrNull;
use c_values::{
    Case, LobjAmount, LobjAnswer, LobjFault, LobjLconv, LobjParsed, LobjTable, LobjTm, NO_LOCALE,
    NO_MEMORY, OK, TOO_LONG, VERSION, answered, class_told, lconv_of, number_told, put_amounts,
    put_cased, put_catalog, put_conv_text, put_fields, put_item, put_message, put_name, put_new,
    put_number, put_numbers, put_own_name, put_reason_name, put_rule, put_table, put_tm,
};
use core::mem::replace_with;
use shared_objects::{CatalogParts, LocaleParts};
use std::alloc::Global;

/// The most bytes of a text that is read, and one more.
const TEXT_END: usize = 0x8000_0000;

/// What is answered of a locale by its view, or that it is none of a library that is lent.
macro_rules! by_view {
    ($library:expr, $locale:expr, |$view:ident| $answer:expr) => {{
        let peek = $library.peek();
        let view = peek.get().view(&$locale);
        match view {
            None => answered(NO_LOCALE, 0),
            Some($view) => $answer,
        }
    }};
}

/// Reads a text, and gives its library. What the pointer was before is not looked at.
#[unsafe(no_mangle)]
pub extern "C" fn lobj_read(
    alloc: Global,
    text: &[u8],
    out: &mut LibraryBox,
    fault: &mut LobjFault,
    buffer: &mut [u8],
) -> LobjAnswer
    ensures read { length text.now < 2 ^ 31 → IsReadUnlessMemory text.now (marked_in text.now) result out.old.library out.new.library fault.old fault.new buffer.old buffer.new }
    ensures too_long { 2 ^ 31 ≤ length text.now → (result ≡ answered TOO_LONG 0) × (out.new.library ≡ out.old.library) × (fault.new ≡ fault.old) × (buffer.new ≡ buffer.old) }
{
    if text.len() >= TEXT_END {
        answered(TOO_LONG, 0)
    } else {
        match read_into(alloc, text, out, fault, buffer) {
            Ok(answer) => answer,
            Err(_) => answered(NO_MEMORY, 0),
        }
    }
}

/// Gives a builder without parts.
#[unsafe(no_mangle)]
pub extern "C" fn lobj_builder_new(alloc: Global, out: &mut Builder) -> LobjAnswer
    ensures { IsBegun result out.old.parts out.new.parts }
{
    match begin_into(alloc, out) {
        Ok(()) => answered(OK, 0),
        Err(_) => answered(NO_MEMORY, 0),
    }
}

/// Adds a part to a builder.
#[unsafe(no_mangle)]
pub extern "C" fn lobj_add(
    alloc: Global,
    builder: &mut Builder,
    kind: u32,
    name: &[u8],
    label: &[u8],
    text: &[u8],
) -> LobjAnswer
    requires { IsSome builder.old.parts }
    ensures { IsAddedBehind (kind_of kind) name.now label.now text.now result builder.old.parts builder.new.parts }
{
    replace_with(builder, (), |held, ()| {
        let mut draft = held.into_box();
        let answer = add_part(alloc, &mut draft, kind, name, label, text);
        (Builder::of(draft), answer)
    })
}

/// Builds a library of the parts of a builder.
#[unsafe(no_mangle)]
pub extern "C" fn lobj_build(
    alloc: Global,
    builder: LentBuilder,
    out: &mut LibraryBox,
    fault: &mut LobjFault,
    buffer: &mut [u8],
) -> LobjAnswer
    ensures { IsBuiltUnlessMemory builder.value (marked_built builder.value) result out.old.library out.new.library fault.old fault.new buffer.old buffer.new }
{
    let peek = builder.peek();
    match build_into(alloc, peek.get().parts(), out, fault, buffer) {
        Ok(answer) => answer,
        Err(_) => answered(NO_MEMORY, 0),
    }
}

/// Frees a builder, or does nothing with a null.
#[unsafe(no_mangle)]
pub extern "C" fn lobj_builder_free(builder: BuilderOrNull) {
    drop(builder.into_box());
}

/// Joins two libraries.
#[unsafe(no_mangle)]
pub extern "C" fn lobj_join(
    alloc: Global,
    first: LentLibrary,
    second: LentLibrary,
    out: &mut LibraryBox,
) -> LobjAnswer
    ensures { IsJoinedUnlessMemory (joined first.value second.value) result out.old.library out.new.library }
{
    let earlier = first.peek();
    let later = second.peek();
    match join_into(alloc, earlier.get(), later.get(), out) {
        Ok(answer) => answer,
        Err(_) => answered(NO_MEMORY, 0),
    }
}

/// Gives the rule of the reason with a number.
#[unsafe(no_mangle)]
pub extern "C" fn lobj_rule(buffer: &mut [u8], reason: u32) -> LobjAnswer
    ensures there { reason < ROW_COUNT → (result, buffer.new) ≡ told buffer.old (rule_at reason) }
    ensures none { ROW_COUNT ≤ reason → (result, buffer.new) ≡ refused buffer.old NO_ITEM 0 }
{
    put_rule(buffer, reason)
}

/// Gives the name of the reason with a number.
#[unsafe(no_mangle)]
pub extern "C" fn lobj_reason_name(buffer: &mut [u8], reason: u32) -> LobjAnswer
    ensures there { reason < ROW_COUNT → (result, buffer.new) ≡ told buffer.old (name_at reason) }
    ensures none { ROW_COUNT ≤ reason → (result, buffer.new) ≡ refused buffer.old NO_ITEM 0 }
{
    put_reason_name(buffer, reason)
}

/// The version of the library.
#[unsafe(no_mangle)]
pub extern "C" fn lobj_version() -> u32
    ensures { result ≡ VERSION }
{
    VERSION
}

/// Frees a library that no call reads any more, or does nothing with a null.
#[unsafe(no_mangle)]
pub extern "C" fn lobj_library_free(library: LibraryOrNull) {
    drop(library.into_box());
}

/// Gives the POSIX locale.
#[unsafe(no_mangle)]
pub extern "C" fn lobj_posix_locale(library: LentLibrary, out: &mut LocaleParts)
    ensures { out.new ≡ posix_of library.value }
{
    let peek = library.peek();
    *out = peek.get().posix();
}

/// Gives the locale of a name in the categories of a mask, and of a base in the others (XSH
/// newlocale).
#[unsafe(no_mangle)]
pub extern "C" fn lobj_newlocale(
    library: LentLibrary,
    mask: u32,
    name: &[u8],
    base: LocaleParts,
    out: &mut LocaleParts,
) -> LobjAnswer
    ensures { (result, out.new) ≡ new_told out.old library.value mask name.now base }
{
    let peek = library.peek();
    put_new(out, peek.get(), mask, name, &base)
}

/// Gives the name of a locale for a category or for all (getlocalename_l).
#[unsafe(no_mangle)]
pub extern "C" fn lobj_locale_name(
    buffer: &mut [u8],
    library: LentLibrary,
    locale: LocaleParts,
    mask: u32,
) -> LobjAnswer
    ensures { (result, buffer.new) ≡ of_object buffer.old (shared_of library.value locale) (λ o. name_told buffer.old o mask) }
{
    by_view!(library, locale, |view| put_name(buffer, &view, mask))
}

/// Gives the name of the compiled locale with a number.
#[unsafe(no_mangle)]
pub extern "C" fn lobj_library_name(
    buffer: &mut [u8],
    library: LentLibrary,
    number: u32,
) -> LobjAnswer
    ensures { (result, buffer.new) ≡ own_name_told buffer.old (name_with library.value number) }
{
    let peek = library.peek();
    put_own_name(buffer, peek.get().name_at(number))
}

/// Gives the text of amounts of money (XSH strfmon_l).
#[unsafe(no_mangle)]
pub extern "C" fn lobj_strfmon(
    buffer: &mut [u8],
    library: LentLibrary,
    locale: LocaleParts,
    format: &[u8],
    amounts: &[LobjAmount],
) -> LobjAnswer
    ensures { (result, buffer.new) ≡ of_object buffer.old (shared_of library.value locale) (λ o. amounts_told buffer.old o format.now amounts.now) }
{
    by_view!(
        library,
        locale,
        |view| put_amounts(buffer, &view, format, amounts)
    )
}

/// Gives the text of a time (XSH strftime_l).
#[unsafe(no_mangle)]
pub extern "C" fn lobj_strftime(
    alloc: Global,
    buffer: &mut [u8],
    library: LentLibrary,
    locale: LocaleParts,
    format: &[u8],
    tm: &LobjTm,
    zone: &[u8],
) -> LobjAnswer
    ensures { (result, buffer.new) ≡ of_object buffer.old (shared_of library.value locale) (λ o. tm_told buffer.old o format.now zone.now (tm_given tm.now)) }
{
    by_view!(
        library,
        locale,
        |view| put_tm(alloc, buffer, &view, format, tm, zone)
    )
}

/// Gives the text of whole numbers (XSH fprintf).
#[unsafe(no_mangle)]
pub extern "C" fn lobj_int_format(
    buffer: &mut [u8],
    library: LentLibrary,
    locale: LocaleParts,
    format: &[u8],
    numbers: &[i64],
) -> LobjAnswer
    ensures { (result, buffer.new) ≡ of_object buffer.old (shared_of library.value locale) (λ o. numbers_told buffer.old o format.now numbers.now) }
{
    by_view!(
        library,
        locale,
        |view| put_numbers(buffer, &view, format, numbers)
    )
}

/// Gives the whole number that a text spells.
#[unsafe(no_mangle)]
pub extern "C" fn lobj_int_read(
    library: LentLibrary,
    locale: LocaleParts,
    text: &[u8],
    out: &mut i64,
) -> LobjAnswer
    ensures told { IsNumberTold (shared_of library.value locale) text.now result out.old out.new }
    ensures back { IsReadBack (shared_of library.value locale) text.now result out.new }
{
    by_view!(library, locale, |view| put_number(out, &view, text))
}

/// Gives the text of an item (XSH nl_langinfo_l).
#[unsafe(no_mangle)]
pub extern "C" fn lobj_nl_langinfo(
    buffer: &mut [u8],
    library: LentLibrary,
    locale: LocaleParts,
    item: u32,
) -> LobjAnswer
    ensures { (result, buffer.new) ≡ of_object buffer.old (shared_of library.value locale) (λ o. item_told buffer.old o (item_of item)) }
{
    by_view!(library, locale, |view| put_item(buffer, &view, item))
}

/// Gives a text of localeconv by its number (XSH localeconv).
#[unsafe(no_mangle)]
pub extern "C" fn lobj_conv_text(
    buffer: &mut [u8],
    library: LentLibrary,
    locale: LocaleParts,
    number: u32,
) -> LobjAnswer
    ensures { (result, buffer.new) ≡ of_object buffer.old (shared_of library.value locale) (λ o. conv_told buffer.old (conv_text o number)) }
{
    by_view!(library, locale, |view| put_conv_text(buffer, &view, number))
}

/// Gives all items and all texts of localeconv, and where each begins.
#[unsafe(no_mangle)]
pub extern "C" fn lobj_texts(
    buffer: &mut [u8],
    library: LentLibrary,
    locale: LocaleParts,
    table: &mut LobjTable,
) -> LobjAnswer
    ensures table { IsTabled (shared_of library.value locale) result buffer.old buffer.new table.old.starts table.new.starts }
    ensures texts { HasTexts (shared_of library.value locale) result buffer.new table.new.starts }
{
    by_view!(library, locale, |view| put_table(buffer, table, &view))
}

/// Gives the numbers of localeconv (XSH localeconv).
#[unsafe(no_mangle)]
pub extern "C" fn lobj_localeconv(
    library: LentLibrary,
    locale: LocaleParts,
    fields: &mut LobjLconv,
) -> LobjAnswer
    ensures told { result ≡ by_object (shared_of library.value locale) (λ o. answered OK 0) }
    ensures fields { fields.new ≡ lconv_by fields.old (shared_of library.value locale) }
{
    by_view!(library, locale, |view| {
        *fields = lconv_of(&view);
        answered(OK, 0)
    })
}

/// Says whether a character is of a class (XSH iswctype_l).
#[unsafe(no_mangle)]
pub extern "C" fn lobj_iswctype(
    library: LentLibrary,
    locale: LocaleParts,
    value: u32,
    class: &[u8],
) -> LobjAnswer
    ensures { result ≡ by_object (shared_of library.value locale) (λ o. class_told (class_answer (ctype_in o).classes class.now value)) }
{
    by_view!(library, locale, |view| class_told(view.is(class, value)))
}

/// Gives the number of a class (XSH wctype_l).
#[unsafe(no_mangle)]
pub extern "C" fn lobj_wctype(library: LentLibrary, locale: LocaleParts, class: &[u8]) -> LobjAnswer
    ensures { result ≡ by_object (shared_of library.value locale) (λ o. number_told (place_of (ctype_in o).classes class.now)) }
{
    by_view!(
        library,
        locale,
        |view| number_told(view.class_number(class))
    )
}

/// Says whether a character is of the class with a number (XSH iswctype_l).
#[unsafe(no_mangle)]
pub extern "C" fn lobj_isclass(
    library: LentLibrary,
    locale: LocaleParts,
    value: u32,
    number: usize,
) -> LobjAnswer
    ensures { result ≡ by_object (shared_of library.value locale) (λ o. class_told (numbered_answer (ctype_in o).classes number value)) }
{
    by_view!(
        library,
        locale,
        |view| class_told(view.is_in(number, value))
    )
}

/// Gives the first 64 classes that have a character, as bits.
#[unsafe(no_mangle)]
pub extern "C" fn lobj_classes_of(
    library: LentLibrary,
    locale: LocaleParts,
    value: u32,
) -> LobjAnswer
    ensures { AreClassesTold (shared_of library.value locale) value result }
{
    by_view!(
        library,
        locale,
        |view| answered(OK, view.classes_of(value) as usize)
    )
}

/// Gives the upper case of a character (XSH towupper_l).
#[unsafe(no_mangle)]
pub extern "C" fn lobj_towupper(library: LentLibrary, locale: LocaleParts, value: u32) -> LobjAnswer
    ensures { result ≡ by_object (shared_of library.value locale) (λ o. answered OK (image (ctype_in o).upper value)) }
{
    by_view!(
        library,
        locale,
        |view| answered(OK, view.upper(value) as usize)
    )
}

/// Gives the lower case of a character (XSH towlower_l).
#[unsafe(no_mangle)]
pub extern "C" fn lobj_towlower(library: LentLibrary, locale: LocaleParts, value: u32) -> LobjAnswer
    ensures { result ≡ by_object (shared_of library.value locale) (λ o. answered OK (image (ctype_in o).lower value)) }
{
    by_view!(
        library,
        locale,
        |view| answered(OK, view.lower(value) as usize)
    )
}

/// Gives a text in UTF-8 with each character in upper case.
#[unsafe(no_mangle)]
pub extern "C" fn lobj_upper_text(
    buffer: &mut [u8],
    library: LentLibrary,
    locale: LocaleParts,
    text: &[u8],
) -> LobjAnswer
    ensures { (result, buffer.new) ≡ of_object buffer.old (shared_of library.value locale) (λ o. cased_told buffer.old o Upper text.now) }
{
    by_view!(
        library,
        locale,
        |view| put_cased(buffer, &view, Case::Upper, text)
    )
}

/// Gives a text in UTF-8 with each character in lower case.
#[unsafe(no_mangle)]
pub extern "C" fn lobj_lower_text(
    buffer: &mut [u8],
    library: LentLibrary,
    locale: LocaleParts,
    text: &[u8],
) -> LobjAnswer
    ensures { (result, buffer.new) ≡ of_object buffer.old (shared_of library.value locale) (λ o. cased_told buffer.old o Lower text.now) }
{
    by_view!(
        library,
        locale,
        |view| put_cased(buffer, &view, Case::Lower, text)
    )
}

/// Gives the fields of a time that a text has (XSH strptime).
#[unsafe(no_mangle)]
pub extern "C" fn lobj_strptime(
    library: LentLibrary,
    locale: LocaleParts,
    text: &[u8],
    format: &[u8],
    fields: &mut LobjParsed,
) -> LobjAnswer
    ensures { (result, fields.new) ≡ scan_by fields.old (shared_of library.value locale) format.now text.now }
{
    by_view!(
        library,
        locale,
        |view| put_fields(fields, view.strptime(format, text))
    )
}

/// Gives the catalog that a name opens for a locale (XSH catopen).
#[unsafe(no_mangle)]
pub extern "C" fn lobj_catopen(
    library: LentLibrary,
    locale: LocaleParts,
    name: &[u8],
    out: &mut CatalogParts,
) -> LobjAnswer
    ensures { (result, out.new) ≡ catalog_told out.old (opened library.value locale name.now) }
{
    let peek = library.peek();
    put_catalog(out, peek.get().open_catalog(&locale, name))
}

/// Gives a message of a catalog (XSH catgets).
#[unsafe(no_mangle)]
pub extern "C" fn lobj_catgets(
    buffer: &mut [u8],
    library: LentLibrary,
    catalog: CatalogParts,
    set: u32,
    number: u32,
) -> LobjAnswer
    ensures { (result, buffer.new) ≡ message_by buffer.old library.value catalog set number }
{
    let peek = library.peek();
    put_message(buffer, peek.get(), &catalog, set, number)
}
