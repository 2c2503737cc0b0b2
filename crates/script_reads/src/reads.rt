//! What reads of an object reply.

ghost use Rattle.std.specs.Prelude.{◌≡◌, ◌++◌, ◌∷◌, [], ℕ, List, Result, Err, true, IfSome, IfOk, OnOk};
ghost use Rattle.std.specs.List.{list_all};
ghost use Rattle.lc_base.specs.declared.refusal.FormatRefusal.{FormatRefusal};
ghost use Rattle.int_format.specs.Ints.{at_most, ints, is_number};
ghost use Rattle.langinfo.specs.Lent.{lconv_of, owned_numbers, owned_text, owned_texts};
ghost use Rattle.strfmon.specs.Money.{money};
ghost use Rattle.strftime_fields.specs.Answers.{answer};
ghost use Rattle.strptime_fields.specs.Scans.{answer_of};
ghost use Rattle.script_reads.specs.Reads.{ctype_in, numeric_in, monetary_in, time_in, messages_in, info_said, more_sizes, sizes_text, shown, conv_texts, conv_numbers, fields_said, conv_said, class_said, why_of, text_said, money_said, time_given, time_said, number_said, scanned_said, parse_said, local};

use category_store::{Library, Share};
use ctype_classes::Ctype;
use int_format::int_format;
use langinfo::{CONV_NUMBERS, LentConv, LentText, lent_conv, nl_langinfo};
use lc_base::{Amount, ByteText, Category, FormatRefusal, Item, List, push_number};
use mask_compose::Object;
use messages_cat::Messages;
use monetary_cat::Monetary;
use numeric_cat::Numeric;
use script_commands::Read;
use script_out::{Said, Texts, Why};
use script_words::{CommandText, Format, UncheckedTime, WrittenNumber};
use std::alloc::{AllocError, Global};
use strfmon::strfmon;
use strftime_fields::{Tm, TmRange, strftime};
use strptime_fields::{Parsed, ScanFault, strptime};
use time_cat::Time;

/// What a read replies of an object.
pub fn local(
    alloc: Global,
    library: &Library,
    object: &Object<Share>,
    read: &Read,
) -> Result<Said, AllocError>
    ensures { IfOk result (λ said. said ≡ local library.now object.now read.now) }
{
    match read {
        Read::Info(item) => info_said(alloc, library, object, *item),
        Read::Conv => conv_said(alloc, library, object),
        Read::Class { class, value } => {
            let is = ctype_in(library, object).is(class.as_bytes(), *value);
            Ok(class_said(is))
        }
        Read::Upper(value) => Ok(Said::Value(ctype_in(library, object).upper(*value))),
        Read::Lower(value) => Ok(Said::Value(ctype_in(library, object).lower(*value))),
        Read::Money {
            max,
            format,
            amounts,
        } => money_said(alloc, library, object, *max, format, amounts),
        Read::Time { max, format, time } => time_said(alloc, library, object, *max, format, time),
        Read::Number {
            max,
            format,
            numbers,
        } => number_said(alloc, library, object, *max, format, numbers),
        Read::Parse { format, text } => Ok(parse_said(library, object, format, text)),
    }
}

/// The LC_CTYPE of an object.
fn ctype_in<'a>(library: &'a Library, object: &Object<Share>) -> &'a Ctype
    ensures { result.now ≡ ctype_in library.now object.now }
{
    library.compiled(*object.part(Category::Ctype)).ctype()
}

/// The LC_NUMERIC of an object.
fn numeric_in<'a>(library: &'a Library, object: &Object<Share>) -> &'a Numeric
    ensures { result.now ≡ numeric_in library.now object.now }
{
    library.compiled(*object.part(Category::Numeric)).numeric()
}

/// The LC_MONETARY of an object.
fn monetary_in<'a>(library: &'a Library, object: &Object<Share>) -> &'a Monetary
    ensures { result.now ≡ monetary_in library.now object.now }
{
    library
        .compiled(*object.part(Category::Monetary))
        .monetary()
}

/// The LC_TIME of an object.
fn time_in<'a>(library: &'a Library, object: &Object<Share>) -> &'a Time
    ensures { result.now ≡ time_in library.now object.now }
{
    library.compiled(*object.part(Category::Time)).time()
}

/// The LC_MESSAGES of an object.
fn messages_in<'a>(library: &'a Library, object: &Object<Share>) -> &'a Messages
    ensures { result.now ≡ messages_in library.now object.now }
{
    library
        .compiled(*object.part(Category::Messages))
        .messages()
}

/// The text of an item.
fn info_said(
    alloc: Global,
    library: &Library,
    object: &Object<Share>,
    item: Item,
) -> Result<Said, AllocError>
    ensures { IfOk result (λ said. said ≡ info_said library.now object.now item) }
{
    let text = nl_langinfo(
        alloc,
        ctype_in(library, object),
        numeric_in(library, object),
        monetary_in(library, object),
        time_in(library, object),
        messages_in(library, object),
        item,
    )?;
    Ok(Said::Text(text))
}

/// The fields of localeconv.
fn conv_said(alloc: Global, library: &Library, object: &Object<Share>) -> Result<Said, AllocError>
    ensures { IfOk result (λ said. said ≡ conv_said library.now object.now) }
{
    let fields = lent_conv(numeric_in(library, object), monetary_in(library, object));
    fields_said(alloc, &fields)
}

/// The fields of localeconv, as they are printed. The block of the numbers is first where the sizes
/// of groups are written.
fn fields_said(alloc: Global, fields: &LentConv<'_>) -> Result<Said, AllocError>
    ensures { IfOk result (λ said. said ≡ fields_said (lconv_of fields.now)) }
{
    let mut block = Vec::with_capacity(alloc, CONV_NUMBERS)?;
    let texts = conv_texts(alloc, &mut block, &fields.texts)?;
    let numbers = conv_numbers(block, &fields.numbers)?;
    Ok(Said::Conv(texts, numbers))
}

/// What texts of a few bytes take.
const ROOM: usize = 128;

/// The fields that are texts, in the order in which they are printed.
fn conv_texts(
    alloc: Global,
    block: &mut Vec<u8>,
    fields: &[(&[u8], LentText<'_>)],
) -> Result<Texts, AllocError>
    ensures { IfOk result (λ texts. texts ≡ conv_texts (owned_texts fields.entry.now)) }
{
    let mut texts = Texts::with_room(alloc, ROOM)?;
    for (_, text) in fields {
        push_text(&mut texts, block, text)?;
    }
    Ok(texts)
}

/// Adds a text as it is printed.
fn push_text(texts: &mut Texts, block: &mut Vec<u8>, text: &LentText<'_>) -> Result<(), AllocError>
    ensures { OnOk result (texts.new ≡ texts.old ++ shown (owned_text text.now) ∷ []) }
{
    match text {
        LentText::Bytes(bytes) => texts.push(bytes),
        LentText::Sizes(sizes) => push_sizes(texts, block, sizes),
    }
}

/// The fields that are numbers, in the order in which they are printed.
fn conv_numbers(mut block: Vec<u8>, fields: &[(&[u8], u8)]) -> Result<List<u8>, AllocError>
    ensures { IfOk result (λ numbers. numbers ≡ conv_numbers (owned_numbers fields.entry.now)) }
{
    block.clear();
    for (_, number) in fields {
        block.push(*number)?;
    }
    Ok(List::of(block))
}

/// Adds the text of the sizes of groups, which is written in a block.
fn push_sizes(texts: &mut Texts, block: &mut Vec<u8>, sizes: &[u8]) -> Result<(), AllocError>
    ensures { OnOk result (texts.new ≡ texts.old ++ sizes_text sizes.now ∷ []) }
{
    block.clear();
    push_sizes_text(block, sizes)?;
    texts.push(block.as_slice())
}

/// Adds the sizes of groups, with `;` between them.
fn push_sizes_text(out: &mut Vec<u8>, sizes: &[u8]) -> Result<(), AllocError>
    ensures { OnOk result (out.new.items ≡ out.old.items ++ sizes_text sizes.now) }
{
    match sizes {
        [] => Ok(()),
        [first, rest @ ..] => {
            push_number(out, u128::from(*first))?;
            push_more_sizes(out, rest)
        }
    }
}

/// Adds sizes of groups, each behind a `;`.
fn push_more_sizes(out: &mut Vec<u8>, sizes: &[u8]) -> Result<(), AllocError>
    ensures { OnOk result (out.new.items ≡ out.old.items ++ more_sizes sizes.now) }
{
    for size in sizes {
        out.push(b';')?;
        push_number(out, u128::from(*size))?;
    }
    Ok(())
}

/// Whether a value is of a class, where there is such a class.
fn class_said(is: Option<bool>) -> Said
    ensures { result ≡ class_said is }
{
    match is {
        Some(is) => Said::Class(is),
        None => Said::Refused(Why::NoClass),
    }
}

/// Why a format has no answer, as it is printed.
fn why_of(refusal: FormatRefusal) -> Why
    ensures { result ≡ why_of refusal }
{
    match refusal {
        FormatRefusal::BadFormat { at } => Why::BadFormat(at),
        FormatRefusal::MissingAmount { at } => Why::MissingAmount(at),
        FormatRefusal::MissingNumber { at } => Why::MissingNumber(at),
        FormatRefusal::Mismatch { at } => Why::Mismatch(at),
        FormatRefusal::TooBig => Why::TooBig,
    }
}

/// What is said of a format that has no text; a call that lacked memory says nothing.
fn refused_said(refusal: Option<FormatRefusal>) -> Result<Said, AllocError>
    ensures { (answer : Result (List ℕ) FormatRefusal) → IfSome refusal (λ why. answer ≡ Err why) → IfOk result (λ said. said ≡ text_said answer) }
{
    match refusal {
        Some(refusal) => Ok(Said::Refused(why_of(refusal))),
        None => Err(AllocError),
    }
}

/// The text of amounts of money, or why there is none.
fn money_text(
    alloc: Global,
    values: &Monetary,
    max: u32,
    format: &Format,
    amounts: &[Amount],
) -> Result<Said, AllocError>
    ensures { IfOk result (λ said. said ≡ text_said (money values.now format.now amounts.now max)) }
{
    match strfmon(alloc, values, format.as_bytes(), amounts, max as usize) {
        Ok(text) => Ok(Said::Text(text)),
        Err(fault) => refused_said(fault.refusal()),
    }
}

/// What the amounts of a command reply.
fn money_said(
    alloc: Global,
    library: &Library,
    object: &Object<Share>,
    max: u32,
    format: &Format,
    amounts: &List<Amount>,
) -> Result<Said, AllocError>
    ensures { IfOk result (λ said. said ≡ money_said library.now object.now max format.now amounts.now) }
{
    let values = monetary_in(library, object);
    money_text(alloc, values, max, format, amounts.as_slice())
}

/// The time that is written, or its first field out of its range.
fn time_given(alloc: Global, time: &UncheckedTime) -> Result<Result<Tm, TmRange>, AllocError>
    ensures { IfOk result (λ given. given ≡ time_given time.now) }
{
    let zone = ByteText::of(alloc, time.zone.as_bytes())?;
    Ok(Tm::new(
        time.year,
        time.mon,
        time.mday,
        time.hour,
        time.min,
        time.sec,
        time.wday,
        time.yday,
        time.offset,
        zone,
    ))
}

/// What the time of a command replies.
fn time_said(
    alloc: Global,
    library: &Library,
    object: &Object<Share>,
    max: u32,
    format: &Format,
    time: &UncheckedTime,
) -> Result<Said, AllocError>
    ensures { IfOk result (λ said. said ≡ time_said library.now object.now max format.now time.now) }
{
    let tm = match time_given(alloc, time)? {
        Ok(tm) => tm,
        Err(range) => return Ok(Said::Refused(Why::TmRange(range.field))),
    };
    time_text(alloc, time_in(library, object), max, format, &tm)
}

/// The text of a time, or why there is none.
fn time_text(
    alloc: Global,
    values: &Time,
    max: u32,
    format: &Format,
    tm: &Tm,
) -> Result<Said, AllocError>
    ensures { IfOk result (λ said. said ≡ text_said (answer values.now tm.now format.now max)) }
{
    match strftime(alloc, values, format.as_bytes(), tm, max as usize) {
        Ok(text) => Ok(Said::Text(text)),
        Err(fault) => refused_said(fault.refusal()),
    }
}

/// The numbers, as int_format takes them.
#[tactic(auto, using(crate::proofs::NumberLemmas::one_more_number))]
fn numbers_given(alloc: Global, numbers: &[WrittenNumber]) -> Result<Vec<i128>, AllocError>
    ensures same { IfOk result (λ given. given.items ≡ numbers.now) }
    ensures in_range { IfOk result (λ given. list_all is_number given.items ≡ true) }
{
    let mut given = Vec::new(alloc);
    for number in numbers {
        given.push(number.value())?;
    }
    Ok(given)
}

/// What the whole numbers of a command reply.
fn number_said(
    alloc: Global,
    library: &Library,
    object: &Object<Share>,
    max: u32,
    format: &Format,
    numbers: &List<WrittenNumber>,
) -> Result<Said, AllocError>
    ensures { IfOk result (λ said. said ≡ number_said library.now object.now max format.now numbers.now) }
{
    let numbers = numbers_given(alloc, numbers.as_slice())?;
    number_text(
        alloc,
        numeric_in(library, object),
        max,
        format,
        numbers.as_slice(),
    )
}

/// The text of whole numbers, or why there is none.
fn number_text(
    alloc: Global,
    values: &Numeric,
    max: u32,
    format: &Format,
    numbers: &[i128],
) -> Result<Said, AllocError>
    requires { list_all is_number numbers.now ≡ true }
    ensures { IfOk result (λ said. said ≡ text_said (at_most max (ints values.now format.now numbers.now))) }
{
    match int_format(alloc, values, format.as_bytes(), numbers, max as usize) {
        Ok(text) => Ok(Said::Text(text)),
        Err(fault) => refused_said(fault.refusal()),
    }
}

/// The fields that a text has, or why it has none.
fn scanned_said(scanned: Result<(Parsed, usize), ScanFault>) -> Said
    ensures { result ≡ scanned_said (answer_of scanned) }
{
    match scanned {
        Ok((fields, rest)) => Said::Parsed(fields, rest),
        Err(fault) => Said::Refused(why_of(fault.refusal())),
    }
}

/// The fields of a time that a text has, or why it has none.
fn parse_said(
    library: &Library,
    object: &Object<Share>,
    format: &Format,
    text: &CommandText,
) -> Said
    ensures { result ≡ parse_said library.now object.now format.now text.now }
{
    let values = time_in(library, object);
    scanned_said(strptime(values, format.as_bytes(), text.as_bytes()))
}
