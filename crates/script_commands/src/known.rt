//! What is known of a whole bundle while its lines are read once more.

ghost use Rattle.std.specs.Prelude.{◌≡◌, ◌<◌, length, IfSome};
ghost use Rattle.std.specs.Option.{option_copied};
ghost use Rattle.script_commands.specs.Known.{lacks_charset, lacks_locale, lacks_key, thread_number};

use crate::lists::{has_block, has_key, number_of};
use crate::scope::Scope;
use lc_base::{Block, Later, List, is_built_in_charset, is_posix_locale};

/// The most threads of a bundle.
pub const THREAD_LIMIT: usize = 16;

/// The blocks of a whole bundle that are named.
pub struct Known {
    pub charmaps: List<Block>,
    pub locales: List<Block>,
    pub later: List<Later>,
}

impl Drop for Known {
    fn drop(self) {
        let Known {
            charmaps: _,
            locales: _,
            later: _,
        } = self;
    }
}

/// Whether a charset is neither built in nor a charmap of the bundle.
pub fn lacks_charset(known: Option<&Known>, name: &[u8]) -> bool
    ensures { result ≡ lacks_charset (option_copied known.entry) name.now }
{
    match known {
        None => false,
        Some(known) => !is_built_in_charset(name) && !has_block(&known.charmaps, name),
    }
}

/// Whether a native locale is neither the POSIX locale nor a locale of the bundle.
pub fn lacks_locale(known: Option<&Known>, name: &[u8]) -> bool
    ensures { result ≡ lacks_locale (option_copied known.entry) name.now }
{
    match known {
        None => false,
        Some(known) => !is_posix_locale(name) && !has_block(&known.locales, name),
    }
}

/// Whether no later version of the bundle has this key.
pub fn lacks_key(known: Option<&Known>, key: &[u8]) -> bool
    ensures { result ≡ lacks_key (option_copied known.entry) key.now }
{
    match known {
        None => false,
        Some(known) => !has_key(&known.later, key),
    }
}

/// The number of a thread; 0 where no name is looked for.
pub fn thread_number(scope: Scope<'_>, name: &[u8]) -> Option<u32>
    ensures is { result ≡ thread_number (option_copied scope.entry.known) scope.entry.threads.now name.now }
    ensures owned { IfSome result (λ n. n < length scope.entry.threads.now) }
{
    match scope.known {
        None => Some(0),
        Some(_) => number_of(scope.threads, name),
    }
}
