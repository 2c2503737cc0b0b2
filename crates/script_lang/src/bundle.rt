//! Bundles.

use crate::lines::{bundle_with, known_of};
use lc_base::{Block, ByteText, Later, List, TextFault};
use script_commands::{Placed, THREAD_LIMIT, number_of};
use std::alloc::Global;

/// The most charmaps of a bundle.
pub const CHARMAP_LIMIT: usize = 16;

/// The most locales of a bundle.
pub const LOCALE_LIMIT: usize = 64;

/// The most later versions of locales in a bundle.
pub const LATER_LIMIT: usize = 64;

/// The most message catalogs of a bundle.
pub const CATALOG_LIMIT: usize = 64;

/// The most rounds of a bundle.
pub const ROUND_LIMIT: u32 = 64;

/// The most commands of a bundle.
pub const COMMAND_LIMIT: usize = 20000;

/// A bundle: charmaps, locale sources, message catalogs, and a script for threads.
#[derive(Drop)]
pub struct Bundle {
    /// The charmaps, in order.
    pub charmaps: List<Block>,
    /// The locales, in order.
    pub locales: List<Block>,
    /// The later versions of locales, in order.
    pub later: List<Later>,
    /// The message catalogs, in order; in `charset` stands the name that the `LC_MESSAGES` category
    /// of an object has which they are opened by.
    pub catalogs: List<Block>,
    /// The name of the locale that an empty name means.
    pub native: Option<ByteText>,
    /// The names of the threads, by their numbers.
    pub threads: List<ByteText>,
    /// The number of rounds, at least 1.
    pub rounds: u32,
    /// The commands, in order of the text.
    pub commands: List<Placed>,
}

impl Bundle {
    ghost use Rattle.std.specs.Prelude.{◌≡◌, ◌^◌, ◌<◌, ◌≤◌, length, position, IfOk, IfSome};
    ghost use Rattle.std.specs.Str.{bytes_eq};
    ghost use Rattle.lc_base.specs.Reading.{Gives};
    ghost use Rattle.script_lang.specs.Accepted.{bundle_of, IsAccepted, HasItsKeys};

    /// Reads a bundle.
    ///
    /// The refusal is the first fault of the lines in order: `BadLine`, `OverLimit`, `NoEnd`. Where
    /// the lines have none, it is the first of the names in order of place: `NameTwice`, `NoCharmap`,
    /// `NoNative`, `NoThread`, `NoLater`.
    #[tactic(auto, using(crate::proofs::InstallLemmas::read_installed))]
    pub fn read(alloc: Global, text: &[u8]) -> Result<Bundle, TextFault>
        requires { length text.now < 2 ^ 31 }
        ensures is { Gives (λ bundle. bundle) result (bundle_of text.now) }
        ensures accepted { IfOk result IsAccepted }
        ensures keyed { IfOk result HasItsKeys }
    {
        Bundle::spelled(alloc, text)
    }

    /// The bundle that a text spells.
    #[tactic(auto, unfolding(crate::specs::Accepted::bundle_of))]
    fn spelled(alloc: Global, text: &[u8]) -> Result<Bundle, TextFault>
        requires { length text.now < 2 ^ 31 }
        ensures is { Gives (λ bundle. bundle) result (bundle_of text.now) }
        ensures accepted { IfOk result IsAccepted }
    {
        let first = bundle_with(alloc, None, List::of(Vec::new(alloc)), text)?;
        let (known, threads) = known_of(first);
        bundle_with(alloc, Some(&known), threads, text)
    }

    /// The number of a thread.
    pub(crate) fn thread_number(&self, name: &[u8]) -> Option<u32>
        requires { length self.now.threads ≤ THREAD_LIMIT }
        ensures is { result ≡ position (λ t. bytes_eq t name.now) self.now.threads }
        ensures within { IfSome result (λ n. n < length self.now.threads) }
    {
        number_of(&self.threads, name)
    }
}
