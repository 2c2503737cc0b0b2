//! Values in lines of one length.

ghost use Rattle.std.specs.Prelude.{◌≡◌, ◌*◌, ◌<◌, length};
ghost use Rattle.generations.specs.Grid.{cell, with_cell};

use std::marker::Model;

/// So many lines of so many values.
pub struct Grid<T> {
    lines: u32,
    width: u32,
    /// The values, line after line.
    pub items: Vec<T>,
}

impl<T: Drop> Drop for Grid<T> {
    fn drop(self) {
        let Grid {
            lines: _,
            width: _,
            items: _,
        } = self;
    }
}

impl<T> Model for Grid<T> {
    ghost use Rattle.std.specs.Prelude.{◌≡◌, ◌*◌, length};
    ghost use Rattle.generations.specs.Grid.{GridData};

    ghost Value = { GridData T };

    ghost view = { λ g. record { lines = g.lines; width = g.width; items = g.items.items } };

    ghost invariant = { λ g. length g.items.items ≡ g.lines * g.width };
}

impl<T> Grid<T> {
    /// The values, line after line.
    pub fn of(lines: u32, width: u32, items: Vec<T>) -> Grid<T>
        requires { length items.items ≡ lines * width }
        ensures { result ≡ record { lines = lines; width = width; items = items.items } }
    {
        Grid {
            lines,
            width,
            items,
        }
    }

    /// The number of lines.
    pub fn lines(&self) -> u32
        ensures { result ≡ self.now.lines }
    {
        self.lines
    }

    /// The number of values in a line.
    pub fn width(&self) -> u32
        ensures { result ≡ self.now.width }
    {
        self.width
    }

    /// The value of a line and a column.
    pub fn at(&self, line: u32, column: u32) -> &T
        requires line { line < self.now.lines }
        requires column { column < self.now.width }
        ensures { (d : T) → result.now ≡ cell self.now line column d }
    {
        &self.items[line as usize * self.width as usize + column as usize]
    }
}

impl<T: Drop> Grid<T> {
    /// Puts a value there in place of the former one.
    pub fn put(&mut self, line: u32, column: u32, value: T)
        requires line { line < self.old.lines }
        requires column { column < self.old.width }
        ensures { self.new ≡ with_cell self.old line column value }
    {
        self.items[line as usize * self.width as usize + column as usize] = value;
    }
}
