//! The classes that each locale has.

ghost use Rattle.std.specs.Prelude.{◌≡◌, map};
ghost use Rattle.ctype_classes.specs.Table.{class_names};

use keywords::posix_ranges;
use lc_base::Category;

/// A class of a locale.
#[derive(Clone, Copy)]
pub struct ClassRow<'a> {
    pub name: &'a [u8],
    /// The values that it always has.
    pub always: &'a [(u32, u32)],
    /// Those that it has where its keyword is absent.
    pub absent: &'a [(u32, u32)],
    /// The classes above it whose members it has.
    pub parts: &'a [&'a [u8]],
}

/// A class of the table of keywords, with its automatic members.
#[derive(Clone, Copy)]
pub struct AutomaticMembers<'a> {
    pub name: &'a [u8],
    /// The values that it always has.
    pub always: &'a [(u32, u32)],
    /// The classes above it whose members it has.
    pub parts: &'a [&'a [u8]],
}

impl<'a> AutomaticMembers<'a> {
    ghost use Rattle.std.specs.Prelude.{◌≡◌};
    ghost use Rattle.ctype_classes.specs.Rows.{row_of, automatic_row};

    /// The class, which has its POSIX value where its keyword is absent.
    pub fn row(&self) -> ClassRow<'a>
        ensures { row_of result ≡ automatic_row self.now }
    {
        ClassRow {
            name: self.name,
            always: self.always,
            absent: posix_ranges(Category::Ctype, self.name),
            parts: self.parts,
        }
    }
}

/// The classes with their automatic members.
#[rattlefmt::skip]
pub static TABLE: [AutomaticMembers<'static>; 12] = [
    AutomaticMembers {
        name: b"upper",
        always: &[(65, 90)],
        parts: &[],
    },
    AutomaticMembers {
        name: b"lower",
        always: &[(97, 122)],
        parts: &[],
    },
    AutomaticMembers {
        name: b"alpha",
        always: &[],
        parts: &[b"upper", b"lower"],
    },
    AutomaticMembers {
        name: b"digit",
        always: &[(48, 57)],
        parts: &[],
    },
    AutomaticMembers {
        name: b"alnum",
        always: &[],
        parts: &[b"alpha", b"digit"],
    },
    AutomaticMembers {
        name: b"blank",
        always: &[(9, 9), (32, 32)],
        parts: &[],
    },
    AutomaticMembers {
        name: b"space",
        always: &[(9, 13), (32, 32)],
        parts: &[b"blank"],
    },
    AutomaticMembers {
        name: b"cntrl",
        always: &[],
        parts: &[],
    },
    AutomaticMembers {
        name: b"punct",
        always: &[],
        parts: &[],
    },
    AutomaticMembers {
        name: b"xdigit",
        always: &[(48, 57), (65, 70), (97, 102)],
        parts: &[],
    },
    AutomaticMembers {
        name: b"graph",
        always: &[],
        parts: &[b"upper", b"lower", b"alpha", b"digit", b"xdigit", b"punct"],
    },
    AutomaticMembers {
        name: b"print",
        always: &[(32, 32)],
        parts: &[b"graph"],
    },
];

/// The names of the classes, in the order of the standard's page.
static CLASS_NAMES: [&str; 12] = [
    "upper", "lower", "alpha", "digit", "alnum", "space", "cntrl", "punct", "graph", "print",
    "xdigit", "blank",
];

/// The names of the twelve classes that each locale has, in the order of the standard's page (XBD 7.3.1).
#[tactic(auto, unfolding(crate::specs::Table::class_names))]
pub fn class_names() -> &'static [&'static str]
    ensures { map (λ name. name.now) result.now ≡ class_names }
{
    &CLASS_NAMES
}
