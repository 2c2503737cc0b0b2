//! The language that the name of a locale tells, and how it is written.

use lc_base::{cut_at, is_posix_locale};
use std::alloc::{AllocError, Global};
use tool_messages::base_name;

/// The languages that are written from right to left.
const RIGHT_TO_LEFT: [&[u8]; 22] = [
    b"ar", b"arc", b"azb", b"ckb", b"dv", b"fa", b"glk", b"he", b"iw", b"ks", b"lrc", b"mzn",
    b"nqo", b"ps", b"rhg", b"sd", b"sdh", b"skr", b"syr", b"ug", b"ur", b"yi",
];

/// Languages that are so in one territory.
const RIGHT_TO_LEFT_IN: [(&[u8], &[u8]); 4] = [
    (b"az", b"IR"),
    (b"pa", b"PK"),
    (b"tk", b"IR"),
    (b"uz", b"AF"),
];

/// Modifiers that name a script.
const SCRIPTS: [(&[u8], &[u8]); 4] = [
    (b"latin", b"Latn"),
    (b"cyrillic", b"Cyrl"),
    (b"devanagari", b"Deva"),
    (b"iqtelif", b"Latn"),
];

/// A locale's language.
pub struct Language {
    /// The tag, as `sr-Latn-RS`; `und` where the name tells none.
    pub tag: Vec<u8>,
    /// Whether it is written from right to left.
    pub is_right_to_left: bool,
}

impl Drop for Language {
    fn drop(self) {
        let Language {
            tag: _,
            is_right_to_left: _,
        } = self;
    }
}

/// The parts of a name as `sr_RS.UTF-8@latin`.
#[derive(Clone, Copy)]
struct Parts<'a> {
    language: &'a [u8],
    territory: &'a [u8],
    modifier: &'a [u8],
}

/// The language that a name tells, which may be a path.
pub fn language_of(alloc: Global, name: &[u8]) -> Result<Language, AllocError> {
    let parts = parts_of(base_name(name));
    let script = script_of(parts.modifier);
    let mut tag = Vec::new(alloc);
    if is_posix_locale(parts.language) {
        tag.extend_from_slice(b"en")?;
    } else if is_language(parts.language) {
        push_tag(&mut tag, &parts, script)?;
    } else {
        tag.extend_from_slice(b"und")?;
    }
    Ok(Language {
        tag,
        is_right_to_left: script.is_empty() && is_right_to_left(&parts),
    })
}

fn push_tag(tag: &mut Vec<u8>, parts: &Parts<'_>, script: &[u8]) -> Result<(), AllocError> {
    tag.extend_from_slice(parts.language)?;
    if !script.is_empty() {
        tag.extend_from_slice(b"-")?;
        tag.extend_from_slice(script)?;
    }
    if is_territory(parts.territory) {
        tag.extend_from_slice(b"-")?;
        tag.extend_from_slice(parts.territory)?;
    }
    Ok(())
}

fn parts_of(name: &[u8]) -> Parts<'_> {
    let (front, modifier) = cut_at(b'@', name).unwrap_or((name, b""));
    let (front, _) = cut_at(b'.', front).unwrap_or((front, b""));
    let (language, territory) = cut_at(b'_', front).unwrap_or((front, b""));
    Parts {
        language,
        territory,
        modifier,
    }
}

/// Whether a part is two or three small letters.
fn is_language(part: &[u8]) -> bool {
    (part.len() == 2 || part.len() == 3) && part.iter().all(|byte| byte.is_ascii_lowercase())
}

/// Whether a part is two capital letters.
fn is_territory(part: &[u8]) -> bool {
    part.len() == 2 && part.iter().all(|byte| byte.is_ascii_uppercase())
}

/// The script of a modifier; empty where it names none.
fn script_of(modifier: &[u8]) -> &'static [u8] {
    for (name, script) in &SCRIPTS {
        if *name == modifier {
            return script;
        }
    }
    b""
}

fn is_right_to_left(parts: &Parts<'_>) -> bool {
    for language in &RIGHT_TO_LEFT {
        if *language == parts.language {
            return true;
        }
    }
    for (language, territory) in &RIGHT_TO_LEFT_IN {
        if *language == parts.language && *territory == parts.territory {
            return true;
        }
    }
    false
}
