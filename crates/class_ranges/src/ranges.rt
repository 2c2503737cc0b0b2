//! Sets of wide values as ranges in order.

ghost use Rattle.std.specs.Prelude.{◌≡◌, ℕ, ◌≤◌, ◌&&◌, All, IfOk};
ghost use Rattle.class_ranges.specs.Ranges.{IsApart, IsLeast, covers, ranges_of, first_common};
ghost use Rattle.class_ranges.specs.Runs.{IsRunOf};

use crate::merge::{first_common, merged};
use std::alloc::{AllocError, Global};
use std::marker::Model;

/// A set of wide values, seen as its ranges: each a first and a last value, in order, disjoint and
/// not adjacent.
pub struct Ranges {
    ranges: Vec<(u32, u32)>,
}

impl Drop for Ranges {
    fn drop(self) {
        let Ranges { ranges: _ } = self;
    }
}

impl Model for Ranges {
    ghost use Rattle.std.specs.Prelude.{List};
    ghost use Rattle.class_ranges.specs.Ranges.{Range, IsApart};

    ghost Value = { List Range };

    ghost view = { λ r. r.ranges.items };

    ghost invariant = { λ r. IsApart r.ranges.items };
}

impl Ranges {
    /// The values that are in at least one of these ranges, which may come in any order, and meet.
    /// The first value of each is not above its last.
    pub fn of_pairs(alloc: Global, pairs: &[(u32, u32)]) -> Result<Ranges, AllocError>
        requires { All (λ pair. pair.0 ≤ pair.1) pairs.now }
        ensures ranges { IfOk result (λ r. r ≡ ranges_of pairs.now) }
        ensures values { IfOk result (λ r. (w : ℕ) → covers r w ≡ covers pairs.now w) }
        ensures apart { IfOk result IsApart }
    {
        let mut sorted = Vec::from_slice(alloc, pairs)?;
        sorted.sort_unstable_by_key(|pair| pair.0);
        let ranges = merged(alloc, &sorted)?;
        Ok(Ranges { ranges })
    }

    /// Whether a value is in the set. Takes the logarithm of the ranges.
    pub fn contains(&self, w: u32) -> bool
        ensures { result ≡ covers self.now w }
    {
        match self.next(w) {
            Some((first, _)) => first == w,
            None => false,
        }
    }

    /// The least value of the set that is not below `w`, and the last one of the run from it.
    /// `None` exactly where no such value is left. Takes the logarithm of the ranges.
    pub fn next(&self, w: u32) -> Option<(u32, u32)>
        ensures { IsRunOf (covers self.now) w result }
    {
        let at = self.ranges.partition_point(|range| range.1 < w);
        if at == self.ranges.len() {
            return None;
        }
        let (first, last) = self.ranges[at];
        Some((first.max(w), last))
    }

    /// The least value that is in both sets. `None` exactly where there is none.
    pub fn first_common(&self, other: &Ranges) -> Option<u32>
        ensures value { result ≡ first_common self.now other.now }
        ensures least { IsLeast (λ w. covers self.now w && covers other.now w) result }
    {
        first_common(&self.ranges, &other.ranges)
    }

    /// The ranges, in order.
    pub fn as_slice(&self) -> &[(u32, u32)]
        ensures ranges { result.now ≡ self.now }
        ensures apart { IsApart self.now }
    {
        self.ranges.as_slice()
    }
}
