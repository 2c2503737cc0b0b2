//! Standard input in the place of a file.

use crate::given::strs;
use clap::ArgMatches;

/// The word for standard input.
const STANDARD_INPUT: &str = "-";

/// The file by which standard input is opened.
const ITS_FILE: &str = "/dev/stdin";

/// The path of a file that a word names: `-` is standard input.
pub fn path_of(word: &str) -> &str {
    if word == STANDARD_INPUT {
        ITS_FILE
    } else {
        word
    }
}

/// The path of the file with a name among arguments.
pub fn path_given<'a>(given: &'a ArgMatches<'_>, name: &str) -> Option<&'a str> {
    match given.get_str(name) {
        Some(word) => Some(path_of(word)),
        None => None,
    }
}

/// Whether the files of a command read standard input at most once. A charmap is read for each source.
pub fn is_read_once(given: &ArgMatches<'_>) -> bool {
    let files = strs(given, "FILE");
    let names = strs(given, "NAME");
    let mut count = count_in(files).saturating_add(count_in(strs(given, "BUNDLE")));
    count = count.saturating_add(count_in(names));
    for name in ["locale", "A", "B"] {
        if is_given(given, name) {
            count = count.saturating_add(1);
        }
    }
    if is_given(given, "charmap") {
        count = count.saturating_add(files.len().max(names.len()).max(pair_of(given)));
    }
    count <= 1
}

/// How many locales are compared; 1 where none are.
fn pair_of(given: &ArgMatches<'_>) -> usize {
    match given.get_str("B") {
        Some(_) => 2,
        None => 1,
    }
}

/// How many words are that for standard input.
fn count_in(words: &[&str]) -> usize {
    let mut count = 0usize;
    for word in words {
        if *word == STANDARD_INPUT {
            count = count.saturating_add(1);
        }
    }
    count
}

/// Whether the file with a name is standard input.
fn is_given(given: &ArgMatches<'_>, name: &str) -> bool {
    given.get_str(name) == Some(STANDARD_INPUT)
}
