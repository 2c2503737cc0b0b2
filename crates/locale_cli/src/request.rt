//! What the words of the command line ask for.

ghost use Rattle.std.specs.Prelude.{◌≡◌, ◌≤◌, ◌<◌, ◌^◌, true, IfSome, option_map};
ghost use Rattle.std.specs.Char.{is_ascii_digit};
ghost use Rattle.std.specs.List.{list_all};
ghost use Rattle.std.specs.Str.Parse.{digits_value};
ghost use Rattle.bundle_maker.specs.Limits.{MOST_COMMANDS};
ghost use Rattle.locale_cli.specs.Words.{IsFromOneTo};
ghost use Rattle.locale_cli.specs.Request.{wide_value, wide_number, seed_number, seed_once, no_recipe, with_part, with_parts, recipe_request, make_request, request_of, IsRecipe, IsPossible};

use crate::words::{Mode, is_unpadded, mode_of, number_up_to, once};
use bundle_maker::MOST_COMMANDS;
use lc_base::{ByteText, are_digits};
use script_words::behind_front;

/// What the program is to do.
#[derive(Clone, Copy)]
pub enum Request {
    /// To read the input and answer it in a mode.
    Read(Mode),
    /// To make a bundle, run it, and sum up what it prints.
    Make {
        /// What its commands are drawn from.
        seed: u64,
        /// How many commands it has.
        commands: u32,
    },
}

/// The options of `make` that are given.
#[derive(Clone, Copy)]
struct Recipe {
    seed: Option<u64>,
    commands: Option<u32>,
}

/// What the words ask for, or `None` where they are not in the grammar.
pub fn request_of(words: &[ByteText]) -> Option<Request>
    ensures is { result ≡ request_of words.now }
    ensures possible { IfSome result IsPossible }
{
    match words {
        [name, options @ ..] if name.as_bytes() == b"make".as_slice() => make_request(options),
        _ => Some(Request::Read(mode_of(words)?)),
    }
}

/// `make`, with both of its options.
fn make_request(options: &[ByteText]) -> Option<Request>
    ensures is { result ≡ make_request options.now }
    ensures possible { IfSome result IsPossible }
{
    let given = recipe_of(options)?;
    Some(Request::Make {
        seed: given.seed?,
        commands: given.commands?,
    })
}

/// The options of `make` that words give, each at most once and in any order.
fn recipe_of(words: &[ByteText]) -> Option<Recipe>
    ensures is { result ≡ with_parts no_recipe words.now }
    ensures possible { IfSome result IsRecipe }
{
    let mut given = Recipe {
        seed: None,
        commands: None,
    };
    for word in words {
        given = with_part(given, word.as_bytes())?;
    }
    Some(given)
}

/// The options of `make` with one more word.
#[tactic(auto, unfolding(crate::specs::Request::with_part))]
fn with_part(given: Recipe, word: &[u8]) -> Option<Recipe>
    requires { IsRecipe given }
    ensures is { result ≡ with_part given word.now }
    ensures possible { IfSome result IsRecipe }
{
    if let Some(digits) = behind_front(b"seed=", word) {
        let seed = seed_once(given.seed, seed_number(digits))?;
        return Some(Recipe {
            seed: Some(seed),
            commands: given.commands,
        });
    }
    let digits = behind_front(b"commands=", word)?;
    let commands = once(given.commands, number_up_to(MOST_COMMANDS, digits))?;
    Some(Recipe {
        seed: given.seed,
        commands: Some(commands),
    })
}

/// A seed that was not given before.
fn seed_once(before: Option<u64>, seed: Option<u64>) -> Option<u64>
    ensures { result ≡ seed_once before seed }
{
    match before {
        None => seed,
        Some(_) => None,
    }
}

/// The number of 64 bits that digits without leading zeros spell.
fn seed_number(digits: &[u8]) -> Option<u64>
    ensures { result ≡ seed_number digits.now }
{
    if !is_unpadded(digits) {
        return None;
    }
    wide_number(digits)
}

/// The number of 64 bits that digits spell.
#[tactic(auto, unfolding(crate::specs::Request::wide_number))]
fn wide_number(digits: &[u8]) -> Option<u64>
    ensures { result ≡ wide_number digits.now }
{
    if digits.is_empty() || !are_digits(digits) {
        return None;
    }
    wide_value(digits)
}

/// The value of digits, if it has 64 bits.
#[tactic(auto, using(crate::proofs::Digits::value_after_le))]
fn wide_value(digits: &[u8]) -> Option<u64>
    requires { list_all is_ascii_digit digits.now ≡ true }
    ensures { result ≡ wide_value digits.now }
{
    let mut value = 0;
    for digit in digits {
        let next = u128::from(value) * 10 + u128::from(*digit - b'0');
        if next > u128::from(u64::MAX) {
            return None;
        }
        value = next as u64;
    }
    Some(value)
}
