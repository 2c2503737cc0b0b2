//! Names and what they name.

ghost use Rattle.std.specs.Prelude.{◌≡◌, [], length, slice_get, option_map, OnOk};
ghost use Rattle.std.specs.Option.{option_copied};
ghost use Rattle.lc_base.specs.Tables.{first_named};
ghost use Rattle.lc_base.specs.Named.{with_named, place_of};

use indexmap::IndexMap;
use std::alloc::{AllocError, Global};
use std::marker::Model;

/// Names in the order in which they came, each with what it names, looked up by hash.
pub struct ByName<V> {
    entries: IndexMap<Vec<u8>, V>,
}

impl<V: Drop> Drop for ByName<V> {
    fn drop(self) {
        let ByName { entries: _ } = self;
    }
}

impl<V> Model for ByName<V> {
    ghost use Rattle.std.specs.Prelude.{ℕ, List};
    ghost use Rattle.lc_base.specs.Named.{pairs_of};

    ghost Value = { List (List ℕ × V) };

    ghost view = { λ n. pairs_of n.entries };
}

impl<V> ByName<V> {
    /// No names. Takes no memory.
    pub fn new(alloc: Global) -> ByName<V>
        ensures { result ≡ [] }
    {
        ByName {
            entries: IndexMap::new(alloc),
        }
    }

    /// The number of names.
    pub fn len(&self) -> usize
        ensures { result ≡ length self.now }
    {
        self.entries.len()
    }

    /// What a name names.
    pub fn get(&self, name: &[u8]) -> Option<&V>
        ensures { option_copied result ≡ first_named self.now name.now }
    {
        self.entries.get(name)
    }

    /// The place of a name, from 0.
    pub fn place(&self, name: &[u8]) -> Option<usize>
        ensures { result ≡ place_of self.now name.now }
    {
        self.entries.get_index_of(name)
    }

    /// What the name at a place names.
    pub fn at(&self, place: usize) -> Option<&V>
        ensures { option_copied result ≡ option_map (λ entry. entry.1) (slice_get self.now place) }
    {
        let (_, value) = self.entries.get_index(place)?;
        Some(value)
    }

    /// The name at a place.
    pub fn name_at(&self, place: usize) -> Option<&[u8]>
        ensures { option_copied result ≡ option_map (λ entry. entry.0) (slice_get self.now place) }
    {
        let (name, _) = self.entries.get_index(place)?;
        Some(name.as_slice())
    }

    /// Adds a name, unless it is there already.
    pub fn add(&mut self, alloc: Global, name: &[u8], value: V) -> Result<(), AllocError>
    where
        V: Drop,
        ensures { OnOk result (self.new ≡ with_named self.old name.now value) }
    {
        match self.get(name) {
            Some(_) => Ok(()),
            None => {
                self.entries.insert(Vec::from_slice(alloc, name)?, value)?;
                Ok(())
            }
        }
    }
}
