//! What the rows of all threads say of handles.

ghost use Rattle.std.specs.Prelude.{◌≡◌, ◌<◌};
ghost use Rattle.generations.specs.Least.{least_below};
ghost use Rattle.generations.specs.Rows.{row_at, is_newest, says_made, is_free_row};

use crate::grid::Grid;
use crate::numbers::Numbers;
use crate::row::HandleRow;

impl<R: HandleRow> Grid<R> {
    /// Whether the handle is the newest of its row.
    pub fn is_newest(&self, h: Numbers) -> bool
        ensures { result ≡ is_newest R.counts self.now h }
    {
        h.owner < self.lines()
            && h.row < self.width()
            && self.at(h.owner, h.row).makes() == h.generation
    }

    /// Whether the handle was made.
    pub fn is_made(&self, h: Numbers) -> bool
        ensures { result ≡ says_made R.counts self.now h }
    {
        h.owner < self.lines()
            && h.row < self.width()
            && 0 < h.generation
            && h.generation <= self.at(h.owner, h.row).makes()
    }

    /// Whether a new handle may stand in the row.
    fn is_free(&self, generations: u32, who: u32, row: u32) -> bool
        requires who { who < self.now.lines }
        requires row { row < self.now.width }
        ensures { result ≡ is_free_row R.counts generations (row_at R.counts self.now who row) }
    {
        let row = self.at(who, row);
        !row.is_kept() && row.makes() < generations
    }

    /// The least row of the thread in which a new handle may stand.
    pub fn free_row(&self, generations: u32, who: u32) -> Option<u32>
        requires { who < self.now.lines }
        ensures { result ≡
            least_below self.now.width (λ r. is_free_row R.counts generations (row_at R.counts self.now who r)) }
    {
        for row in 0..self.width() {
            if self.is_free(generations, who, row) {
                return Some(row);
            }
        }
        None
    }
}
