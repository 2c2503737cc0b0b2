//! The words of directives and items.

ghost use Rattle.std.specs.Prelude.{◌≡◌, map};
ghost use Rattle.lc_base.specs.Tables.{first_named};
ghost use Rattle.script_words.specs.Tables.{directives_table, items_table};

use lc_base::{Item, first_named};

/// What a line that begins with `.` says.
#[derive(Clone, Copy)]
pub enum Directive {
    /// `.charmap NAME`: a block with a charmap.
    Charmap,
    /// `.locale NAME CHARSET`: a block with a locale source.
    Locale,
    /// `.later KEY NAME CHARSET`: a block with a later version of a locale.
    Later,
    /// `.catalog NAME LOCALE`: a block with a message catalog.
    Catalog,
    /// `.native NAME`: the locale that an empty name means.
    Native,
    /// `.thread NAME`: the thread of the commands that follow.
    Thread,
    /// `.round`: the next round.
    Round,
}

const DIRECTIVES: [(&[u8], Directive); 7] = [
    (b".charmap", Directive::Charmap),
    (b".locale", Directive::Locale),
    (b".later", Directive::Later),
    (b".catalog", Directive::Catalog),
    (b".native", Directive::Native),
    (b".thread", Directive::Thread),
    (b".round", Directive::Round),
];

/// The items of nl_langinfo, each behind its name in C.
static ITEMS: [(&str, Item); 55] = [
    ("CODESET", Item::Codeset),
    ("RADIXCHAR", Item::Radixchar),
    ("THOUSEP", Item::Thousep),
    ("YESEXPR", Item::Yesexpr),
    ("NOEXPR", Item::Noexpr),
    ("CRNCYSTR", Item::Crncystr),
    ("D_T_FMT", Item::DTFmt),
    ("D_FMT", Item::DFmt),
    ("T_FMT", Item::TFmt),
    ("T_FMT_AMPM", Item::TFmtAmpm),
    ("AM_STR", Item::AmStr),
    ("PM_STR", Item::PmStr),
    ("DAY_1", Item::Day1),
    ("DAY_2", Item::Day2),
    ("DAY_3", Item::Day3),
    ("DAY_4", Item::Day4),
    ("DAY_5", Item::Day5),
    ("DAY_6", Item::Day6),
    ("DAY_7", Item::Day7),
    ("ABDAY_1", Item::Abday1),
    ("ABDAY_2", Item::Abday2),
    ("ABDAY_3", Item::Abday3),
    ("ABDAY_4", Item::Abday4),
    ("ABDAY_5", Item::Abday5),
    ("ABDAY_6", Item::Abday6),
    ("ABDAY_7", Item::Abday7),
    ("MON_1", Item::Mon1),
    ("MON_2", Item::Mon2),
    ("MON_3", Item::Mon3),
    ("MON_4", Item::Mon4),
    ("MON_5", Item::Mon5),
    ("MON_6", Item::Mon6),
    ("MON_7", Item::Mon7),
    ("MON_8", Item::Mon8),
    ("MON_9", Item::Mon9),
    ("MON_10", Item::Mon10),
    ("MON_11", Item::Mon11),
    ("MON_12", Item::Mon12),
    ("ABMON_1", Item::Abmon1),
    ("ABMON_2", Item::Abmon2),
    ("ABMON_3", Item::Abmon3),
    ("ABMON_4", Item::Abmon4),
    ("ABMON_5", Item::Abmon5),
    ("ABMON_6", Item::Abmon6),
    ("ABMON_7", Item::Abmon7),
    ("ABMON_8", Item::Abmon8),
    ("ABMON_9", Item::Abmon9),
    ("ABMON_10", Item::Abmon10),
    ("ABMON_11", Item::Abmon11),
    ("ABMON_12", Item::Abmon12),
    ("ERA", Item::Era),
    ("ALT_DIGITS", Item::AltDigits),
    ("ERA_D_FMT", Item::EraDFmt),
    ("ERA_T_FMT", Item::EraTFmt),
    ("ERA_D_T_FMT", Item::EraDTFmt),
];

/// The directive of a word.
#[tactic(auto, unfolding(crate::specs::Tables::directives_table))]
pub fn directive_named(word: &[u8]) -> Option<Directive>
    ensures { result ≡ first_named directives_table word.now }
{
    first_named(&DIRECTIVES, word)
}

/// The items of nl_langinfo (XSH nl_langinfo), each behind its name in C, in the order of the table.
#[tactic(auto, unfolding(crate::specs::Tables::items_table))]
pub fn item_rows() -> &'static [(&'static str, Item)]
    ensures { map (λ row. (row.0.now, row.1)) result.now ≡ items_table }
{
    &ITEMS
}

/// The item with a name, of rows with items.
fn item_in(rows: &[(&str, Item)], word: &[u8]) -> Option<Item>
    ensures { result ≡ first_named (map (λ row. (row.0.now, row.1)) rows.entry.now) word.now }
{
    for (name, item) in rows {
        if name.as_bytes() == word {
            return Some(*item);
        }
    }
    None
}

/// The item of a word.
pub fn item_named(word: &[u8]) -> Option<Item>
    ensures { result ≡ first_named items_table word.now }
{
    item_in(item_rows(), word)
}
