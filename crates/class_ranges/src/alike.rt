//! Stretches of values that are alike: all in a set, or none.

ghost use Rattle.std.specs.Prelude.{◌≤◌};
ghost use Rattle.class_ranges.specs.Ranges.{covers};
ghost use Rattle.class_ranges.specs.Pages.{IsAlike};

use crate::Ranges;

/// Values from one on, of which all or none are in a set.
#[derive(Clone, Copy)]
pub struct Stretch {
    pub is_in: bool,
    pub last: u32,
}

/// The values from `w` on that are all in the set, or all not. Takes the logarithm of the ranges.
pub fn stretch_from(ranges: &Ranges, w: u32) -> Stretch
    ensures reaches { w ≤ result.last }
    ensures alike { IsAlike (covers ranges.now) w result.last result.is_in }
{
    match ranges.next(w) {
        None => Stretch {
            is_in: false,
            last: u32::MAX,
        },
        Some((first, last)) => {
            if w < first {
                Stretch {
                    is_in: false,
                    last: first - 1,
                }
            } else {
                Stretch { is_in: true, last }
            }
        }
    }
}
