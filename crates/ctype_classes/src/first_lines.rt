//! A keyword list with its lines by their keywords.

ghost use Rattle.std.specs.Prelude.{◌≡◌, IfOk};
ghost use Rattle.std.specs.Option.{option_copied};
ghost use Rattle.keywords.specs.Keywords.{operands};
ghost use Rattle.ctype_classes.specs.FirstLines.{AreFirstLines};

use keywords::{Entry, Values};
use lc_base::ByName;
use std::alloc::{AllocError, Global};
use std::marker::Model;

/// A keyword list, whose first lines are found by their keywords.
#[derive(Drop)]
pub struct KeywordList<'a> {
    entries: &'a [Entry],
    first: ByName<&'a Values>,
}

impl<'a> Model for KeywordList<'a> {
    ghost use Rattle.std.specs.Prelude.{List};
    ghost use Rattle.keywords.specs.declared.source.Entry.{Entry as Line};
    ghost use Rattle.ctype_classes.specs.FirstLines.{AreFirstLines};

    ghost Value = { List Line };

    ghost view = { λ l. l.entries.now };

    ghost invariant = { λ l. AreFirstLines l.entries.now l.first };
}

/// The operands of the first line of each keyword.
fn first_lines<'a>(alloc: Global, entries: &'a [Entry]) -> Result<ByName<&'a Values>, AllocError>
    ensures { IfOk result (λ lines. AreFirstLines entries.now lines) }
{
    let mut lines = ByName::new(alloc);
    for entry in entries {
        lines.add(alloc, entry.keyword.as_bytes(), &entry.values)?;
    }
    Ok(lines)
}

impl<'a> KeywordList<'a> {
    pub fn of(alloc: Global, entries: &'a [Entry]) -> Result<KeywordList<'a>, AllocError>
        ensures { IfOk result (λ l. l ≡ entries.now) }
    {
        let first = first_lines(alloc, entries)?;
        Ok(KeywordList { entries, first })
    }

    /// The lines, in order.
    pub fn entries(&self) -> &'a [Entry]
        ensures { result.now ≡ self.now }
    {
        self.entries
    }

    /// The operands of the first line with a keyword.
    pub fn operands(&self, keyword: &[u8]) -> Option<&'a Values>
        ensures { option_copied result ≡ operands self.now keyword.now }
    {
        self.first.get(keyword).copied()
    }
}
