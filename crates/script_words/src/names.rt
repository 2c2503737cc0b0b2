//! Names of locales, charmaps and threads.

ghost use Rattle.std.specs.Prelude.{◌≡◌};
ghost use Rattle.std.specs.List.{list_all};
ghost use Rattle.script_words.specs.Names.{is_letter, is_letter_or_digit, is_name_byte, is_formed, is_locale_name, is_part_name, is_charmap_name, is_thread_name, is_class_name};

use lc_base::{is_built_in_charset, is_posix_locale};

/// The most bytes of a locale's or a charmap's name.
pub const LOCALE_NAME_LIMIT: usize = 64;

/// The most bytes of a thread's name.
pub const THREAD_NAME_LIMIT: usize = 16;

/// The most bytes of a character class's name.
pub const CLASS_NAME_LIMIT: usize = 14;

/// Whether a name has 1 to 64 letters, digits, `_`, `.`, `-` and `@`.
#[tactic(auto, unfolding(crate::specs::Names::is_formed))]
pub fn is_formed(name: &[u8]) -> bool
    ensures { result ≡ is_formed name.now }
{
    !name.is_empty() && name.len() <= LOCALE_NAME_LIMIT && are_name_bytes(name)
}

/// Whether a locale of the bundle may have this name: a formed one, and neither `C` nor `POSIX`.
#[tactic(auto, unfolding(crate::specs::Names::is_locale_name))]
pub fn is_locale_name(name: &[u8]) -> bool
    ensures { result ≡ is_locale_name name.now }
{
    is_formed(name) && !is_posix_locale(name)
}

/// Whether a category of an object may have this name: that of a locale of the bundle, or `C`, the
/// name of the POSIX locale's categories.
#[tactic(auto, unfolding(crate::specs::Names::is_part_name))]
pub fn is_part_name(name: &[u8]) -> bool
    ensures { result ≡ is_part_name name.now }
{
    is_formed(name) && name != b"POSIX".as_slice()
}

/// Whether a charmap may have this name: a formed one, and neither `UTF-8` nor `POSIX`.
#[tactic(auto, unfolding(crate::specs::Names::is_charmap_name))]
pub fn is_charmap_name(name: &[u8]) -> bool
    ensures { result ≡ is_charmap_name name.now }
{
    is_formed(name) && !is_built_in_charset(name)
}

/// Whether a thread may have this name: a letter and up to 15 letters and digits, and not `GLOBAL`.
#[tactic(auto, unfolding(crate::specs::Names::is_thread_name))]
pub fn is_thread_name(name: &[u8]) -> bool
    ensures { result ≡ is_thread_name name.now }
{
    !name.is_empty()
        && name.len() <= THREAD_NAME_LIMIT
        && is_letter(name[0])
        && are_letters_or_digits(name)
        && name != b"GLOBAL".as_slice()
}

/// Whether a character class may have this name: 1 to 14 letters and digits.
#[tactic(auto, unfolding(crate::specs::Names::is_class_name))]
pub fn is_class_name(name: &[u8]) -> bool
    ensures { result ≡ is_class_name name.now }
{
    !name.is_empty() && name.len() <= CLASS_NAME_LIMIT && are_letters_or_digits(name)
}

fn are_name_bytes(name: &[u8]) -> bool
    ensures { result ≡ list_all is_name_byte name.now }
{
    name.iter().all(|c| is_name_byte(*c))
}

fn are_letters_or_digits(name: &[u8]) -> bool
    ensures { result ≡ list_all is_letter_or_digit name.now }
{
    name.iter().all(|c| is_letter_or_digit(*c))
}

fn is_name_byte(c: u8) -> bool
    ensures { result ≡ is_name_byte c }
{
    is_letter_or_digit(c) || c == b'_' || c == b'.' || c == b'-' || c == b'@'
}

fn is_letter_or_digit(c: u8) -> bool
    ensures { result ≡ is_letter_or_digit c }
{
    is_letter(c) || (b'0'..=b'9').contains(&c)
}

fn is_letter(c: u8) -> bool
    ensures { result ≡ is_letter c }
{
    (b'A'..=b'Z').contains(&c) || (b'a'..=b'z').contains(&c)
}
