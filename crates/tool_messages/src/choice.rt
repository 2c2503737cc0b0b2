//! Whether messages have colours.

ghost use Rattle.std.specs.Prelude.{◌≡◌};
ghost use Rattle.tool_messages.specs.Choice.{when_of};

use std::env::{self, VarError};
use std::rt::Env;

/// When messages have colours.
#[derive(Clone, Copy)]
pub enum When {
    Always,
    /// On a terminal, unless its environment wants none.
    Auto,
    Never,
}

/// What a word of the option says; `None` for any other word.
pub fn when_of(word: &str) -> Option<When>
    ensures { result ≡ when_of word.now }
{
    if word == "always" {
        Some(When::Always)
    } else if word == "auto" {
        Some(When::Auto)
    } else if word == "never" {
        Some(When::Never)
    } else {
        None
    }
}

/// Whether messages have colours: with `Auto` on a terminal, where `NO_COLOR` is not set or empty, and `TERM` is not
/// `dumb`.
pub fn is_coloured<R: Env + AllocGlobal>(rt: &R, when: When, is_terminal: bool) -> bool {
    match when {
        When::Always => true,
        When::Never => false,
        When::Auto => is_terminal && !has_no_color(rt) && !is_dumb(rt),
    }
}

/// Whether the environment wants no colours.
fn has_no_color<R: Env + AllocGlobal>(rt: &R) -> bool {
    match env::var(rt, "NO_COLOR") {
        Ok(value) => !value.as_str().is_empty(),
        Err(VarError::NotPresent) => false,
        Err(VarError::NotUnicode | VarError::OutOfMemory) => true,
    }
}

/// Whether the terminal has no colours.
fn is_dumb<R: Env + AllocGlobal>(rt: &R) -> bool {
    match env::var(rt, "TERM") {
        Ok(value) => value.as_str() == "dumb",
        Err(_) => false,
    }
}
