//! Amounts of money.

ghost use Rattle.std.specs.Prelude.{◌≡◌, ◌≤◌, ◌↔◌, IsSome, IfSome};

use std::marker::Model;

/// An amount of money: units / 10^scale.
#[derive(Clone, Copy)]
pub struct Amount {
    units: i64,
    scale: u8,
}

impl Model for Amount {
    ghost use Rattle.std.specs.Prelude.{◌≤◌};
    ghost use Rattle.lc_base.specs.Amounts.{MoneyAmount};

    ghost Value = { MoneyAmount };

    ghost view = { λ a. record { units = a.units; scale = a.scale } };

    ghost invariant = { λ a. a.scale ≤ 18 };

    ghost inverse = { λ a. record { units = a.units; scale = a.scale } };
}

impl Amount {
    /// units / 10^scale. `None` exactly where scale is over 18.
    pub fn new(units: i64, scale: u8) -> Option<Amount>
        ensures some { IsSome result ↔ (scale ≤ 18) }
        ensures is { IfSome result (λ a. a ≡ record { units = units; scale = scale }) }
    {
        if scale > 18 {
            return None;
        }
        Some(Amount { units, scale })
    }

    /// The units.
    pub fn units(self) -> i64
        ensures { result ≡ self.units }
    {
        self.units
    }

    /// The number of digits behind the point, at most 18.
    pub fn scale(self) -> u8
        ensures is { result ≡ self.scale }
        ensures small { result ≤ 18 }
    {
        self.scale
    }
}
