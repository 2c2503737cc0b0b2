//! What stands before and behind the number (XBD 7.3.3).

ghost use Rattle.std.specs.Prelude.{◌≡◌, ◌^◌, ◌<◌, ◌≤◌, length, map};
ghost use Rattle.strfmon.specs.Cells.{cell, cell_at};

use MoneyPart::{Close, Open, Sign, Space, Symbol};

/// A part of the text beside a number.
#[derive(Clone, Copy)]
pub enum MoneyPart {
    /// `(`
    Open,
    /// The sign.
    Sign,
    /// The currency symbol.
    Symbol,
    /// What stands between the symbol and the number, or the sign.
    Space,
    /// `)`
    Close,
}

/// What stands before the number, and what behind it: by cs_precedes from 0 to 1, in it by
/// sign_posn from 0 to 4, and in it by sep_by_space from 0 to 2.
const CELLS: [(&[MoneyPart], &[MoneyPart]); 30] = [
    (&[Open], &[Symbol, Close]),
    (&[Open], &[Space, Symbol, Close]),
    (&[Open], &[Symbol, Close]),
    (&[Sign], &[Symbol]),
    (&[Sign], &[Space, Symbol]),
    (&[Sign, Space], &[Symbol]),
    (&[], &[Symbol, Sign]),
    (&[], &[Space, Symbol, Sign]),
    (&[], &[Symbol, Space, Sign]),
    (&[], &[Sign, Symbol]),
    (&[], &[Space, Sign, Symbol]),
    (&[], &[Sign, Space, Symbol]),
    (&[], &[Symbol, Sign]),
    (&[], &[Space, Symbol, Sign]),
    (&[], &[Symbol, Space, Sign]),
    (&[Open, Symbol], &[Close]),
    (&[Open, Symbol, Space], &[Close]),
    (&[Open, Symbol], &[Close]),
    (&[Sign, Symbol], &[]),
    (&[Sign, Symbol, Space], &[]),
    (&[Sign, Space, Symbol], &[]),
    (&[Symbol], &[Sign]),
    (&[Symbol, Space], &[Sign]),
    (&[Symbol], &[Space, Sign]),
    (&[Sign, Symbol], &[]),
    (&[Sign, Symbol, Space], &[]),
    (&[Sign, Space, Symbol], &[]),
    (&[Symbol, Sign], &[]),
    (&[Symbol, Sign, Space], &[]),
    (&[Symbol, Space, Sign], &[]),
];

/// A cell of a table; past its end nothing stands beside the number.
#[inline(always)]
fn cell_at(
    cells: &[(&'static [MoneyPart], &'static [MoneyPart])],
    index: usize,
) -> (&'static [MoneyPart], &'static [MoneyPart])
    ensures { (result.0.now, result.1.now) ≡ cell_at (map (λ e. (e.0.now, e.1.now)) cells.now) index }
{
    match cells.get(index) {
        Some(cell) => *cell,
        None => (&[], &[]),
    }
}

/// What stands before the number, and what behind it.
#[tactic(auto, unfolding(crate::specs::Cells::cell))]
#[inline(always)]
pub fn cell(
    precedes: usize,
    position: usize,
    separation: usize,
) -> (&'static [MoneyPart], &'static [MoneyPart])
    requires precedes { precedes < 2 ^ 32 }
    requires position { position < 2 ^ 32 }
    requires separation { separation < 2 ^ 32 }
    ensures is { (result.0.now, result.1.now) ≡ cell precedes position separation }
    ensures before { length result.0.now ≤ 3 }
    ensures after { length result.1.now ≤ 3 }
{
    cell_at(&CELLS, 15 * precedes + 3 * position + separation)
}
