//! The files that a command reads.

ghost use Rattle.std.specs.Prelude.{IfErr};
ghost use Rattle.tool_messages.specs.Status.{IsSpoken};

use crate::chains::{follow_all, keep_parts};
use crate::files::file_text;
use crate::parts::with_categories;
use crate::{CopiedName, Sources, charset_of, copied_names, fault_problem, read_block};
use charset::Charset;
use keywords::Section;
use lc_base::{Block, ByteText, Category, List};
use std::alloc::{AllocError, Global};
use std::rt::Files;
use tool_messages::Problem;

/// The files that the words of a command name.
#[derive(Clone, Copy)]
pub struct Wanted<'a> {
    /// The source of a locale.
    pub locale: Option<&'a str>,
    pub charmap: Option<&'a str>,
    /// Where the files of copied locales are looked for.
    pub folders: &'a [&'a str],
}

/// The files of a command, and what was read of them. (A library reads the blocks of files by itself.)
pub struct Loaded {
    pub sources: Sources,
    /// The charset in which the sources are.
    pub charset: Charset,
    /// The sections of each source, where they were read; `None` of one that is refused.
    pub sections: Vec<Option<List<Section>>>,
}

impl Drop for Loaded {
    fn drop(self) {
        let Loaded {
            sources: _,
            charset: _,
            sections: _,
        } = self;
    }
}

/// What is read of the files of locales.
#[derive(Clone, Copy)]
pub struct Reading<'a> {
    /// The categories of the sections; `None` for the whole files.
    categories: Option<&'a [Category]>,
    /// Where the files of copied locales are looked for.
    pub folders: &'a [&'a str],
    /// Whether sections are asked for.
    has_sections: bool,
}

/// Reads the files of a command: its charmap, and of its locale, and of those that are copied, the sections of
/// these categories. The lines of the others are empty.
pub fn load<R: Files>(
    rt: &R,
    alloc: Global,
    wanted: &Wanted<'_>,
    categories: &[Category],
) -> Result<Loaded, Problem>
    ensures { IfErr result IsSpoken }
{
    match wanted.locale {
        Some(path) => {
            let text = file_text(rt, alloc, path)?;
            load_text(rt, alloc, wanted, (path, text), categories)
        }
        None => load_parts(
            rt,
            alloc,
            wanted.charmap,
            None,
            &parts_of(wanted, categories),
        ),
    }
}

/// Reads the charmap of a command and, of a locale whose path and text are given and of those that it copies,
/// the sections of these categories. The lines of the others are empty.
pub fn load_text<R: Files>(
    rt: &R,
    alloc: Global,
    wanted: &Wanted<'_>,
    locale: (&str, ByteText),
    categories: &[Category],
) -> Result<Loaded, Problem>
    ensures { IfErr result IsSpoken }
{
    let reading = parts_of(wanted, categories);
    load_parts(rt, alloc, wanted.charmap, Some(locale), &reading)
}

/// The reading of these categories.
fn parts_of<'a>(wanted: &Wanted<'a>, categories: &'a [Category]) -> Reading<'a> {
    Reading {
        categories: Some(categories),
        folders: wanted.folders,
        has_sections: false,
    }
}

/// Reads the whole files of a command but for its locale, whose path and text are given: what is read of a
/// pipe is there once. The sections are read where they are asked for.
pub fn load_with<R: Files>(
    rt: &R,
    alloc: Global,
    wanted: &Wanted<'_>,
    locale: Option<(&str, ByteText)>,
    is_asked: bool,
) -> Result<Loaded, Problem>
    ensures { IfErr result IsSpoken }
{
    let reading = Reading {
        categories: None,
        folders: wanted.folders,
        has_sections: is_asked,
    };
    load_parts(rt, alloc, wanted.charmap, locale, &reading)
}

fn load_parts<R: Files>(
    rt: &R,
    alloc: Global,
    charmap: Option<&str>,
    locale: Option<(&str, ByteText)>,
    reading: &Reading<'_>,
) -> Result<Loaded, Problem>
    ensures { IfErr result IsSpoken }
{
    let mut sources = Sources::new(alloc);
    match add_named_files(rt, alloc, charmap, locale, reading, &mut sources) {
        Ok(()) => in_charset(rt, alloc, reading, sources),
        Err(problem) => Err(problem),
    }
}

/// Adds the files that words name.
fn add_named_files<R: Files>(
    rt: &R,
    alloc: Global,
    charmap: Option<&str>,
    locale: Option<(&str, ByteText)>,
    reading: &Reading<'_>,
    sources: &mut Sources,
) -> Result<(), Problem>
    ensures { IfErr result IsSpoken }
{
    for folder in reading.folders {
        let folder = ByteText::of(alloc, folder.as_bytes())?;
        sources.folders.push(folder)?;
    }
    add_charmap(rt, alloc, charmap, sources)?;
    match locale {
        Some((path, text)) => Ok(add_text(alloc, path, text, reading, sources)?),
        None => Ok(()),
    }
}

/// Reads the charset of files, and in it their sources.
fn in_charset<R: Files>(
    rt: &R,
    alloc: Global,
    reading: &Reading<'_>,
    sources: Sources,
) -> Result<Loaded, Problem>
    ensures { IfErr result IsSpoken }
{
    match charset_of(alloc, &sources) {
        Ok(charset) => with_copies(rt, alloc, reading, sources, charset),
        Err(fault) => Err(fault_problem(alloc, &sources, None, fault)),
    }
}

/// Adds the files of the locales that sources copy, and reads the sections where they are asked for.
fn with_copies<R: Files>(
    rt: &R,
    alloc: Global,
    reading: &Reading<'_>,
    sources: Sources,
    charset: Charset,
) -> Result<Loaded, Problem>
    ensures { IfErr result IsSpoken }
{
    let mut loaded = Loaded {
        sources,
        charset,
        sections: Vec::new(alloc),
    };
    match add_copies(rt, alloc, reading, &mut loaded) {
        Ok(()) => {
            read_sections(alloc, reading, &mut loaded)?;
            Ok(loaded)
        }
        Err(problem) => Err(problem),
    }
}

fn add_charmap<R: Files>(
    rt: &R,
    alloc: Global,
    path: Option<&str>,
    sources: &mut Sources,
) -> Result<(), Problem>
    ensures { IfErr result IsSpoken }
{
    match path {
        Some(path) => {
            let text = file_text(rt, alloc, path)?;
            Ok(sources.add_charmap(alloc, path, text)?)
        }
        None => Ok(()),
    }
}

/// Adds what is read of the text of the file of a locale.
fn add_text(
    alloc: Global,
    path: &str,
    text: ByteText,
    reading: &Reading<'_>,
    sources: &mut Sources,
) -> Result<(), AllocError> {
    let charset = charset_name(alloc, sources.charmaps.as_slice())?;
    let text = match reading.categories {
        Some(categories) => with_categories(alloc, text, categories)?,
        None => text,
    };
    sources.add_locale(alloc, path, charset.as_bytes(), text)
}

/// The name of the charset in which sources are read.
pub fn charset_name(alloc: Global, charmaps: &[Block]) -> Result<ByteText, AllocError> {
    match charmaps {
        [] => ByteText::of(alloc, b"UTF-8"),
        [block, ..] => ByteText::of(alloc, block.name.as_bytes()),
    }
}

/// Adds the files of the locales that the first source copies, directly or not, each with the sections that are
/// copied of it.
fn add_copies<R: Files>(
    rt: &R,
    alloc: Global,
    reading: &Reading<'_>,
    loaded: &mut Loaded,
) -> Result<(), Problem>
    ensures { IfErr result IsSpoken }
{
    if reading.folders.is_empty() {
        return Ok(());
    }
    let names = first_names(alloc, loaded)?;
    let mut parts = Vec::new(alloc);
    match follow_all(rt, alloc, reading, names.as_slice(), loaded, &mut parts) {
        Ok(()) => Ok(keep_parts(alloc, &mut loaded.sources, parts.as_slice())?),
        Err(problem) => Err(problem),
    }
}

/// The names of the locales that the first source copies, if there is one.
fn first_names(alloc: Global, loaded: &Loaded) -> Result<Vec<CopiedName>, AllocError> {
    match loaded.sources.locales.as_slice() {
        [first, ..] => copied_names(alloc, first, &loaded.charset),
        [] => Ok(Vec::new(alloc)),
    }
}

/// Reads the sections of each source, where they are asked for.
fn read_sections(
    alloc: Global,
    reading: &Reading<'_>,
    loaded: &mut Loaded,
) -> Result<(), AllocError> {
    if !reading.has_sections {
        return Ok(());
    }
    for block in loaded.sources.locales.as_slice() {
        let read = read_block(alloc, block, &loaded.charset)?;
        loaded.sections.push(read.sections)?;
    }
    Ok(())
}
