//! What a table is made for.

ghost use Rattle.std.specs.Prelude.{◌≡◌};
ghost use Rattle.handle_table.specs.Shelf.{posix_offer, opening_offer};

use lc_base::List;
use mask_compose::{Offer, Part};
use std::marker::Model;

/// The setting of a table, which no step changes.
pub struct Setting<P: Part> {
    /// The number of threads.
    pub threads: u32,
    /// The number of rows of each thread.
    pub rows: u32,
    /// How many objects a row has in all its time.
    pub generations: u32,
    /// What the locale names stand for at first, by number.
    pub opening: List<Offer<P>>,
}

impl<P: Part> Drop for Setting<P> {
    fn drop(self) {
        let Setting {
            threads: _,
            rows: _,
            generations: _,
            opening: _,
        } = self;
    }
}

impl<P: Part> Model for Setting<P> {
    ghost use Rattle.std.specs.Prelude.{◌≤◌, length};
    ghost use Rattle.handle_table.specs.Entry.{Setting as SettingData};
    ghost use Rattle.handle_table.specs.Limits.{MAX_THREADS};

    ghost Value = { SettingData };

    ghost view = { λ c. record {
      threads = c.threads;
      rows = c.rows;
      generations = c.generations;
      opening = c.opening;
    } };

    ghost invariant = { λ c. (c.threads ≤ MAX_THREADS) × (1 ≤ length c.opening) };
}

impl<P: Part> Setting<P> {
    /// The offer of the POSIX locale.
    pub fn posix(&self) -> &Offer<P>
        ensures { result.now ≡ posix_offer self.now }
    {
        &self.opening.as_slice()[0]
    }

    /// The offer of a name before any install.
    pub fn opening_offer(&self, name: u32) -> &Offer<P>
        ensures { result.now ≡ opening_offer self.now name }
    {
        match self.opening.as_slice().get(name as usize) {
            Some(offer) => offer,
            None => self.posix(),
        }
    }
}
