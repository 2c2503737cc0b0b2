//! What the commands print that read a locale.

use crate::lacking::tell_lacking;
use category_store::{Compiled, Share};
use clap::ArgMatches;
use lc_base::{ByteText, Category};
use numeric_cat::Numeric;
use std::alloc::{AllocError, Global};
use std::rt::{Env, Files};
use std::time::Clock;
use time_cat::Time;
use tool_commands::{LocaleCommand, path_given, strs, word};
use tool_decimals::{decimals_line, read_line};
use tool_files::{Loaded, Wanted, fault_problem, library_of, load, load_text};
use tool_import::{source_path, standard_text};
use tool_messages::{Answer, Problem};
use tool_reads::{
    LentCategories, class_lines, conv_json, conv_lines, info_json, info_lines, item_categories,
    lower_lines, money_line, number_line, parsed_json, parsed_lines, time_line, upper_lines,
};
use tool_times::tm_of;

/// What a command answers that reads a locale.
pub fn read_locale<R: Files + Env + Clock + AllocGlobal + Clone + Drop>(
    rt: &R,
    alloc: Global,
    command: LocaleCommand,
    given: &ArgMatches<'_>,
) -> Result<Answer, Problem> {
    let mut messages = Vec::new(alloc);
    match printed(rt, alloc, command, given, &mut messages) {
        Ok(output) => Ok(Answer {
            status: 0,
            output,
            messages: ByteText::from_vec(messages),
        }),
        Err(problem) => Err(problem),
    }
}

/// What a command prints that reads a locale.
fn printed<R: Files + Env + Clock + AllocGlobal + Clone + Drop>(
    rt: &R,
    alloc: Global,
    command: LocaleCommand,
    given: &ArgMatches<'_>,
    messages: &mut Vec<u8>,
) -> Result<ByteText, Problem> {
    let categories = categories_of(alloc, command, given)?;
    let categories = categories.as_slice();
    match loaded(rt, alloc, given, categories) {
        Ok(loaded) => by_files(rt, alloc, command, given, &loaded, categories, messages),
        Err(problem) => Err(problem),
    }
}

/// The categories that a command reads of its locale.
fn categories_of(
    alloc: Global,
    command: LocaleCommand,
    given: &ArgMatches<'_>,
) -> Result<Vec<Category>, AllocError> {
    let mut categories = Vec::new(alloc);
    match command {
        LocaleCommand::Info => return item_categories(alloc, strs(given, "ITEM")),
        LocaleCommand::Money => categories.push(Category::Monetary)?,
        LocaleCommand::Number => categories.push(Category::Numeric)?,
        LocaleCommand::Time | LocaleCommand::Parse => categories.push(Category::Time)?,
        LocaleCommand::Conv => {
            categories.push(Category::Numeric)?;
            categories.push(Category::Monetary)?;
        }
        LocaleCommand::Class | LocaleCommand::Upper | LocaleCommand::Lower => {
            categories.push(Category::Ctype)?
        }
    }
    Ok(categories)
}

/// Reads the files of a command, and of its locale these categories.
fn loaded<R: Files>(
    rt: &R,
    alloc: Global,
    given: &ArgMatches<'_>,
    categories: &[Category],
) -> Result<Loaded, Problem> {
    match path_given(given, "locale") {
        Some(locale) => loaded_locale(rt, alloc, given, locale, categories),
        None => load(rt, alloc, &wanted_files(given, None), categories),
    }
}

/// Reads the files of a command whose words name a locale, by its path or by its name in a folder, and of the
/// locale these categories.
pub fn loaded_locale<R: Files>(
    rt: &R,
    alloc: Global,
    given: &ArgMatches<'_>,
    locale: &str,
    categories: &[Category],
) -> Result<Loaded, Problem> {
    let folders = strs(given, "path");
    let path = source_path(rt, alloc, locale, folders)?;
    let wanted = wanted_files(given, Some(path.as_str()));
    if given.get_flag("gnu") {
        let text = standard_text(rt, alloc, path.as_str(), folders)?;
        return load_text(rt, alloc, &wanted, (path.as_str(), text), categories);
    }
    load(rt, alloc, &wanted, categories)
}

/// The files that the words of a command name, with the path of its locale.
pub fn wanted_files<'a>(given: &'a ArgMatches<'_>, locale: Option<&'a str>) -> Wanted<'a> {
    Wanted {
        locale,
        charmap: path_given(given, "charmap"),
        folders: strs(given, "path"),
    }
}

/// What a command prints of files that were read.
fn by_files<R: Files + Env + Clock + AllocGlobal + Clone + Drop>(
    rt: &R,
    alloc: Global,
    command: LocaleCommand,
    given: &ArgMatches<'_>,
    loaded: &Loaded,
    categories: &[Category],
    messages: &mut Vec<u8>,
) -> Result<ByteText, Problem> {
    match library_of(alloc, &loaded.sources) {
        Ok(library) => {
            tell_lacking(alloc, given, loaded, categories, messages)?;
            let locale = library.compiled(Share {
                number: number_of(loaded),
            });
            by_locale(rt, alloc, command, given, loaded, locale, messages)
        }
        Err(fault) => {
            let charset = Some(&loaded.charset);
            Err(fault_problem(alloc, &loaded.sources, charset, fault))
        }
    }
}

/// The number of the locale that is read: that of the first source, or of the POSIX locale.
pub fn number_of(loaded: &Loaded) -> u32 {
    if loaded.sources.locales.is_empty() {
        0
    } else {
        1
    }
}

/// What a command prints of its compiled locale.
fn by_locale<R: Files + Env + Clock + AllocGlobal + Clone + Drop>(
    rt: &R,
    alloc: Global,
    command: LocaleCommand,
    given: &ArgMatches<'_>,
    loaded: &Loaded,
    locale: Compiled<'_>,
    messages: &mut Vec<u8>,
) -> Result<ByteText, Problem> {
    let format = word(given, "FORMAT");
    let characters = strs(given, "CHARACTER");
    let charset = &loaded.charset;
    let ctype = locale.ctype();
    match command {
        LocaleCommand::Money => {
            money_line(alloc, locale.monetary(), format, strs(given, "AMOUNT"))
        }
        LocaleCommand::Number => { numbers(alloc, locale.numeric(), given) }
        LocaleCommand::Time => {
            let when = given.get_str("WHEN").unwrap_or("now");
            timed(rt, alloc, locale.time(), format, when, messages)
        }
        LocaleCommand::Parse => parsed(alloc, given, locale.time(), format),
        LocaleCommand::Info => items(alloc, given, locale),
        LocaleCommand::Conv => fields(alloc, given, locale),
        LocaleCommand::Class => class_lines(alloc, ctype, charset, word(given, "NAME"), characters),
        LocaleCommand::Upper => upper_lines(alloc, ctype, charset, characters),
        LocaleCommand::Lower => lower_lines(alloc, ctype, charset, characters),
    }
}

/// The text of numbers, or the number that is read. Without the letter `f` a format has no decimals.
fn numbers(alloc: Global, numeric: &Numeric, given: &ArgMatches<'_>) -> Result<ByteText, Problem> {
    if let Some(text) = given.get_str("read") {
        return read_line(alloc, numeric, text);
    }
    let format = word(given, "FORMAT");
    let words = strs(given, "NUMBER");
    if format.as_bytes().contains(&b'f') {
        decimals_line(alloc, numeric, format, words)
    } else {
        number_line(alloc, numeric, format, words)
    }
}

/// The text of a time.
fn timed<R: Files + Env + Clock + AllocGlobal + Clone + Drop>(
    rt: &R,
    alloc: Global,
    time: &Time,
    format: &str,
    when: &str,
    messages: &mut Vec<u8>,
) -> Result<ByteText, Problem> {
    let tm = tm_of(rt, when, messages)?;
    time_line(alloc, time, format, &tm)
}

/// The fields of a time that a text has.
fn parsed(
    alloc: Global,
    given: &ArgMatches<'_>,
    time: &Time,
    format: &str,
) -> Result<ByteText, Problem> {
    let text = word(given, "TEXT");
    if given.get_flag("json") {
        parsed_json(alloc, time, format, text)
    } else {
        parsed_lines(alloc, time, format, text)
    }
}

/// The fields of localeconv.
fn fields(
    alloc: Global,
    given: &ArgMatches<'_>,
    locale: Compiled<'_>,
) -> Result<ByteText, Problem> {
    let (numeric, monetary) = (locale.numeric(), locale.monetary());
    if given.get_flag("json") {
        Ok(conv_json(alloc, numeric, monetary)?)
    } else {
        Ok(conv_lines(alloc, numeric, monetary)?)
    }
}

/// The items that words name.
fn items(alloc: Global, given: &ArgMatches<'_>, locale: Compiled<'_>) -> Result<ByteText, Problem> {
    let categories = lent(&locale);
    let names = strs(given, "ITEM");
    if given.get_flag("json") {
        info_json(alloc, &categories, names)
    } else {
        info_lines(alloc, &categories, names)
    }
}

/// The categories of a locale.
pub fn lent<'a>(locale: &Compiled<'a>) -> LentCategories<'a> {
    LentCategories {
        ctype: locale.ctype(),
        numeric: locale.numeric(),
        monetary: locale.monetary(),
        time: locale.time(),
        messages: locale.messages(),
    }
}
