//! The words of the command line.

ghost use Rattle.std.specs.Prelude.{◌≡◌, IfSome, option_map};
ghost use Rattle.locale_cli.specs.Limits.{MOST_ROWS, MOST_GENERATIONS};
ghost use Rattle.locale_cli.specs.Words.{is_unpadded, from_one_to, number_up_to, once, none_given, with_option, with_options, sizes, serial_mode, run_mode, check_mode, mode_named, mode_of, IsFromOneTo, AreWithin, IsSized};

use lc_base::{ByteText, decimal_number};
use script_words::behind_front;

/// The rows of each thread, where the words do not say.
pub const DEFAULT_ROWS: u32 = 16;

/// The most rows of each thread.
pub const MOST_ROWS: u32 = 64;

/// How many objects a row has in all its time, where the words do not say.
pub const DEFAULT_GENERATIONS: u32 = 65535;

/// The most objects of a row in all its time.
pub const MOST_GENERATIONS: u32 = 2147483647;

/// What the program is to do.
#[derive(Clone, Copy)]
pub enum Mode {
    /// Read the bundle and count what it has.
    Check,
    /// Run the script on one thread.
    Serial {
        /// The rows of each thread.
        rows: u32,
        /// How many objects a row has in all its time.
        generations: u32,
    },
    /// Run the script with the threads of each round in parallel.
    Run {
        /// The rows of each thread.
        rows: u32,
        /// How many objects a row has in all its time.
        generations: u32,
    },
}

/// The options of `serial` or of `run` that are given.
#[derive(Clone, Copy)]
struct Options {
    rows: Option<u32>,
    generations: Option<u32>,
}

/// The mode that the words name, with its options, or `None` where they are not in the grammar.
pub fn mode_of(words: &[ByteText]) -> Option<Mode>
    ensures is { result ≡ mode_of words.now }
    ensures sized { IfSome result IsSized }
{
    match words {
        [] => None,
        [name, options @ ..] => mode_named(name.as_bytes(), options),
    }
}

/// The mode with this name and these options.
fn mode_named(name: &[u8], options: &[ByteText]) -> Option<Mode>
    ensures is { result ≡ mode_named name.now options.now }
    ensures sized { IfSome result IsSized }
{
    if name == b"check".as_slice() {
        check_mode(options)
    } else if name == b"serial".as_slice() {
        serial_mode(options)
    } else if name == b"run".as_slice() {
        run_mode(options)
    } else {
        None
    }
}

/// `check`, which has no options.
fn check_mode(options: &[ByteText]) -> Option<Mode>
    ensures is { result ≡ check_mode options.now }
    ensures sized { IfSome result IsSized }
{
    match options {
        [] => Some(Mode::Check),
        [_, ..] => None,
    }
}

/// `serial`, with the defaults of what is not given.
fn serial_mode(options: &[ByteText]) -> Option<Mode>
    ensures is { result ≡ option_map serial_mode (with_options none_given options.now) }
    ensures sized { IfSome result IsSized }
{
    let (rows, generations) = sizes(options)?;
    Some(Mode::Serial { rows, generations })
}

/// `run`, with the defaults of what is not given.
fn run_mode(options: &[ByteText]) -> Option<Mode>
    ensures is { result ≡ option_map run_mode (with_options none_given options.now) }
    ensures sized { IfSome result IsSized }
{
    let (rows, generations) = sizes(options)?;
    Some(Mode::Run { rows, generations })
}

/// The rows of each thread and the generations of each row that options give.
fn sizes(options: &[ByteText]) -> Option<(u32, u32)>
    ensures is { result ≡ option_map sizes (with_options none_given options.now) }
    ensures sized { IfSome result (λ s. IsFromOneTo MOST_ROWS s.0 × IsFromOneTo MOST_GENERATIONS s.1) }
{
    let given = options_of(options)?;
    let rows = given.rows.unwrap_or(DEFAULT_ROWS);
    let generations = given.generations.unwrap_or(DEFAULT_GENERATIONS);
    Some((rows, generations))
}

/// The options that words give, each at most once and in any order.
fn options_of(words: &[ByteText]) -> Option<Options>
    ensures is { result ≡ with_options none_given words.now }
    ensures within { IfSome result AreWithin }
{
    let mut given = Options {
        rows: None,
        generations: None,
    };
    for word in words {
        given = with_option(given, word.as_bytes())?;
    }
    Some(given)
}

/// The options with one more word.
#[tactic(auto, unfolding(crate::specs::Words::with_option))]
fn with_option(given: Options, word: &[u8]) -> Option<Options>
    requires { AreWithin given }
    ensures is { result ≡ with_option given word.now }
    ensures within { IfSome result AreWithin }
{
    if let Some(digits) = behind_front(b"rows=", word) {
        let rows = once(given.rows, number_up_to(MOST_ROWS, digits))?;
        return Some(Options {
            rows: Some(rows),
            generations: given.generations,
        });
    }
    let digits = behind_front(b"generations=", word)?;
    let generations = once(given.generations, number_up_to(MOST_GENERATIONS, digits))?;
    Some(Options {
        rows: given.rows,
        generations: Some(generations),
    })
}

/// A number that was not given before.
pub fn once(before: Option<u32>, number: Option<u32>) -> Option<u32>
    ensures { result ≡ once before number }
{
    match before {
        None => number,
        Some(_) => None,
    }
}

/// The number from 1 on that digits without leading zeros spell.
#[tactic(auto, unfolding(crate::specs::Words::number_up_to))]
pub fn number_up_to(most: u32, digits: &[u8]) -> Option<u32>
    ensures is { result ≡ number_up_to most digits.now }
    ensures within { IfSome result (IsFromOneTo most) }
{
    if !is_unpadded(digits) {
        return None;
    }
    let number = decimal_number(digits)?;
    if 1 <= number && number <= most {
        Some(number)
    } else {
        None
    }
}

/// Whether digits have no zero in front, unless it stands alone.
pub fn is_unpadded(digits: &[u8]) -> bool
    ensures { result ≡ is_unpadded digits.now }
{
    match digits {
        [] | [_] => true,
        [first, _, ..] => *first != b'0',
    }
}
