//! The names of the portable character set.

ghost use Rattle.std.specs.Prelude.{◌≡◌};
ghost use Rattle.charset.specs.Portable as spec;

use lc_base::first_named;

const PORTABLE: [(&[u8], u32); 59] = [
    (b"NUL", 0),
    (b"alert", 7),
    (b"backspace", 8),
    (b"tab", 9),
    (b"newline", 10),
    (b"vertical-tab", 11),
    (b"form-feed", 12),
    (b"carriage-return", 13),
    (b"space", 32),
    (b"exclamation-mark", 33),
    (b"quotation-mark", 34),
    (b"number-sign", 35),
    (b"dollar-sign", 36),
    (b"percent-sign", 37),
    (b"ampersand", 38),
    (b"apostrophe", 39),
    (b"left-parenthesis", 40),
    (b"right-parenthesis", 41),
    (b"asterisk", 42),
    (b"plus-sign", 43),
    (b"comma", 44),
    (b"hyphen", 45),
    (b"hyphen-minus", 45),
    (b"period", 46),
    (b"full-stop", 46),
    (b"slash", 47),
    (b"solidus", 47),
    (b"zero", 48),
    (b"one", 49),
    (b"two", 50),
    (b"three", 51),
    (b"four", 52),
    (b"five", 53),
    (b"six", 54),
    (b"seven", 55),
    (b"eight", 56),
    (b"nine", 57),
    (b"colon", 58),
    (b"semicolon", 59),
    (b"less-than-sign", 60),
    (b"equals-sign", 61),
    (b"greater-than-sign", 62),
    (b"question-mark", 63),
    (b"commercial-at", 64),
    (b"left-square-bracket", 91),
    (b"backslash", 92),
    (b"reverse-solidus", 92),
    (b"right-square-bracket", 93),
    (b"circumflex", 94),
    (b"circumflex-accent", 94),
    (b"underscore", 95),
    (b"low-line", 95),
    (b"grave-accent", 96),
    (b"left-brace", 123),
    (b"left-curly-bracket", 123),
    (b"vertical-line", 124),
    (b"right-brace", 125),
    (b"right-curly-bracket", 125),
    (b"tilde", 126),
];

fn letter_code(name: &[u8]) -> Option<u32>
    ensures { result ≡ spec.letter_code name.now }
{
    match name {
        [c] if c.is_ascii_alphabetic() => Some(u32::from(*c)),
        _ => None,
    }
}

/// The code of the portable character with a name (XBD 6.1).
#[tactic(auto, unfolding(crate::specs::Portable::portable_code))]
pub fn portable_code(name: &[u8]) -> Option<u32>
    ensures { result ≡ spec.portable_code name.now }
{
    letter_code(name).or_else(|| first_named(&PORTABLE, name))
}
