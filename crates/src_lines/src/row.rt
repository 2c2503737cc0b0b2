//! A logical line of a store, and the places of its bytes.

ghost use Rattle.std.specs.Prelude.{◌≡◌, ℕ, ◌+◌, ◌-◌, ◌^◌, ◌<◌, ◌≤◌, length, drop};
ghost use Rattle.src_lines.specs.Places.{place_from};

use crate::signs::Signs;
use crate::store::Join;
use lc_base::Place;

/// A logical line: its signs, the line of the text where it begins, its bytes and its joins.
#[derive(Drop)]
pub struct LogicalLine<'a> {
    pub signs: Signs,
    pub line: u32,
    pub bytes: &'a [u8],
    pub joins: &'a [Join],
    ghost small: { length bytes.now < 2 ^ 31 },
}

impl LogicalLine<'_> {
    ghost use Rattle.std.specs.Prelude.{◌≡◌, ◌≤◌, length};
    ghost use Rattle.src_lines.specs.Places.{place_at};
    ghost use Rattle.src_lines.specs.Rows.{line_of};

    /// The place of a byte, or of the end.
    pub fn place_at(&self, k: usize) -> Place
        requires { k ≤ length self.now.bytes.now }
        ensures { result ≡ place_at (line_of self.now) k }
    {
        let mut line = self.line;
        let mut at = 0;
        for join in self.joins {
            if k < join.at as usize {
                break;
            }
            line = join.line;
            at = join.at as usize;
        }
        Place {
            line,
            column: (k - at) as u32 + 1,
        }
    }
}

/// How far the joins of a line were followed: from the byte `at` on its bytes stand in this line of
/// the text, up to the join with the number `next`.
#[derive(Clone, Copy)]
pub struct LineStart {
    pub line: u32,
    pub at: usize,
    pub next: usize,
}

/// Follows the joins up to the byte `k`.
pub fn advanced(joins: &[Join], mark: LineStart, k: usize) -> LineStart
    requires { mark.at ≤ k }
    ensures same { (m : ℕ) → k ≤ m → place_from result.line result.at (drop result.next joins.now) m ≡ place_from mark.line mark.at (drop mark.next joins.now) m }
    ensures here { place_from result.line result.at (drop result.next joins.now) k ≡ record { line = result.line; column = k - result.at + 1 } }
    ensures reached { result.at ≤ k }
{
    let mut mark = mark;
    while mark.next < joins.len() && joins[mark.next].at as usize <= k {
        let join = joins[mark.next];
        mark = LineStart {
            line: join.line,
            at: join.at as usize,
            next: mark.next + 1,
        };
    }
    mark
}

impl LineStart {
    /// The place of the byte `k`, before the next join.
    pub fn place(self, k: usize) -> Place
        requires reached { self.at ≤ k }
        requires small { k < 2 ^ 31 }
        ensures { result ≡ record { line = self.line; column = k - self.at + 1 } }
    {
        Place {
            line: self.line,
            column: (k - self.at) as u32 + 1,
        }
    }
}
