//! Locales that are compared, or shown at a glance.

use crate::locale::{lent, loaded_locale, number_of, wanted_files};
use category_store::{Library, Share};
use charset::Charset;
use clap::ArgMatches;
use lc_base::{ByteText, CATEGORIES, decimal_number, is_posix_locale};
use std::alloc::{AllocError, Global};
use std::env;
use std::rt::{Env, Files};
use tool_commands::{path_of, strs, word};
use tool_files::{Loaded, fault_problem, library_of, load};
use tool_json::{json_line, new_writer};
use tool_messages::{Answer, Problem};
use tool_views::{
    Column, Named, columns_text, differences_of, glance_of, page_text, push_differences_json,
};

/// How wide a line is where the variable COLUMNS does not say it.
const LINE_WIDTH: u32 = 80;

/// A locale that was read with all of its categories.
struct Opened {
    loaded: Loaded,
    library: Library,
}

impl Drop for Opened {
    fn drop(self) {
        let Opened {
            loaded: _,
            library: _,
        } = self;
    }
}

/// What two locales define differently: the status is 1 where something is.
pub fn compare_locales<R: Files>(
    rt: &R,
    alloc: Global,
    given: &ArgMatches<'_>,
) -> Result<Answer, Problem> {
    match opened_locale(rt, alloc, given, word(given, "A")) {
        Ok(left) => compare_with(rt, alloc, given, &left),
        Err(problem) => Err(problem),
    }
}

fn compare_with<R: Files>(
    rt: &R,
    alloc: Global,
    given: &ArgMatches<'_>,
    left: &Opened,
) -> Result<Answer, Problem> {
    match opened_locale(rt, alloc, given, word(given, "B")) {
        Ok(right) => compare_opened(alloc, given, left, &right),
        Err(problem) => Err(problem),
    }
}

fn compare_opened(
    alloc: Global,
    given: &ArgMatches<'_>,
    left: &Opened,
    right: &Opened,
) -> Result<Answer, Problem> {
    let left_locale = lent(
        &left.library.compiled(Share {
            number: number_of(&left.loaded),
        }),
    );
    let right_locale = lent(
        &right.library.compiled(Share {
            number: number_of(&right.loaded),
        }),
    );
    let left_side = Named {
        name: word(given, "A"),
        locale: &left_locale,
    };
    let right_side = Named {
        name: word(given, "B"),
        locale: &right_locale,
    };
    let charset = charset_of(left, right);
    if given.get_flag("json") {
        Ok(differences_line(alloc, &left_side, &right_side, charset)?)
    } else {
        Ok(differences_table(alloc, &left_side, &right_side, charset)?)
    }
}

/// The answer with the table of what differs, which is empty where nothing does.
fn differences_table(
    alloc: Global,
    left: &Named<'_>,
    right: &Named<'_>,
    charset: &Charset,
) -> Result<Answer, AllocError> {
    match differences_of(alloc, left, right, charset)? {
        Some(table) => Ok(answer_of(alloc, 1, table)),
        None => Ok(answer_of(alloc, 0, ByteText::from_vec(Vec::new(alloc)))),
    }
}

/// The answer with the object of what differs.
fn differences_line(
    alloc: Global,
    left: &Named<'_>,
    right: &Named<'_>,
    charset: &Charset,
) -> Result<Answer, AllocError> {
    let mut json = new_writer(alloc);
    let differ = push_differences_json(alloc, &mut json, left, right, charset)?;
    let line = json_line(json)?;
    Ok(answer_of(alloc, if differ { 1 } else { 0 }, line))
}

/// The charset of two locales. That of the POSIX locale alone has the fewest characters.
fn charset_of<'a>(left: &'a Opened, right: &'a Opened) -> &'a Charset {
    if number_of(&left.loaded) == 0 {
        &right.loaded.charset
    } else {
        &left.loaded.charset
    }
}

/// Reads a locale with all of its categories. The names `C` and `POSIX` are those of the POSIX locale.
fn opened_locale<R: Files>(
    rt: &R,
    alloc: Global,
    given: &ArgMatches<'_>,
    name: &str,
) -> Result<Opened, Problem> {
    let loaded = if is_posix_locale(name.as_bytes()) {
        load(rt, alloc, &wanted_files(given, None), &CATEGORIES)
    } else {
        loaded_locale(rt, alloc, given, path_of(name), &CATEGORIES)
    };
    match loaded {
        Ok(loaded) => compiled(alloc, loaded),
        Err(problem) => Err(problem),
    }
}

fn compiled(alloc: Global, loaded: Loaded) -> Result<Opened, Problem> {
    match library_of(alloc, &loaded.sources) {
        Ok(library) => Ok(Opened { loaded, library }),
        Err(fault) => {
            let charset = Some(&loaded.charset);
            Err(fault_problem(alloc, &loaded.sources, charset, fault))
        }
    }
}

/// Locales at a glance, side by side, or as a page.
pub fn preview_locales<R: Files + Env + AllocGlobal>(
    rt: &R,
    alloc: Global,
    given: &ArgMatches<'_>,
) -> Result<Answer, Problem> {
    let mut columns = Vec::new(alloc);
    match add_columns(rt, alloc, given, &mut columns) {
        Ok(()) => {}
        Err(problem) => return Err(problem),
    }
    let output = if given.get_flag("html") {
        page_text(alloc, columns.as_slice())?
    } else {
        columns_text(alloc, columns.as_slice(), line_width(rt) as usize)?
    };
    Ok(answer_of(alloc, 0, output))
}

/// The answer with a text for standard output.
fn answer_of(alloc: Global, status: u8, output: ByteText) -> Answer {
    Answer {
        status,
        output,
        messages: ByteText::from_vec(Vec::new(alloc)),
    }
}

fn add_columns<R: Files>(
    rt: &R,
    alloc: Global,
    given: &ArgMatches<'_>,
    columns: &mut Vec<Column>,
) -> Result<(), Problem> {
    for name in strs(given, "NAME") {
        match column_of(rt, alloc, given, name) {
            Ok(column) => columns.push(column)?,
            Err(problem) => return Err(problem),
        }
    }
    Ok(())
}

fn column_of<R: Files>(
    rt: &R,
    alloc: Global,
    given: &ArgMatches<'_>,
    name: &str,
) -> Result<Column, Problem> {
    match opened_locale(rt, alloc, given, name) {
        Ok(opened) => {
            let number = number_of(&opened.loaded);
            let locale = lent(&opened.library.compiled(Share { number }));
            glance_of(alloc, name, &locale)
        }
        Err(problem) => Err(problem),
    }
}

/// How wide a line is.
fn line_width<R: Env + AllocGlobal>(rt: &R) -> u32 {
    let columns = match env::var(rt, "COLUMNS") {
        Ok(value) => decimal_number(value.as_str().as_bytes()),
        Err(_) => None,
    };
    columns.unwrap_or(LINE_WIDTH)
}
