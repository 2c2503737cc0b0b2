//! Amounts of money as C gives them.

ghost use Rattle.std.specs.Prelude.{◌≡◌, ◌≤◌, length, map, take};
ghost use Rattle.std.specs.List.{list_all};
ghost use Rattle.c_values.specs.Limits.{MOST};
ghost use Rattle.c_values.specs.Answers.{is_scaled, amount_of};

use strfmon::Amount;

/// The most amounts, or numbers, of a call that are looked at.
pub const MOST: usize = 64;

/// An amount of units / 10^scale. C has `lobj_amount` for it.
#[repr(C)]
#[derive(Clone, Copy)]
pub struct LobjAmount {
    pub units: i64,
    pub scale: u8,
}

/// Whether each scale is at most 18.
pub fn are_scaled(amounts: &[LobjAmount]) -> bool
    ensures { result ≡ list_all is_scaled amounts.now }
{
    amounts.iter().all(|a| a.scale < 19)
}

/// An amount; a scale over 18 counts as 18.
pub fn amount_of(amount: LobjAmount) -> Amount
    ensures { result ≡ amount_of amount }
{
    match Amount::new(amount.units, amount.scale.min(18)) {
        Some(amount) => amount,
        None => unreachable!(),
    }
}

/// The amounts, as strfmon takes them, at the front of an array.
pub fn amounts_given(amounts: &[LobjAmount]) -> [Amount; MOST]
    requires { length amounts.now ≤ MOST }
    ensures { take (length amounts.now) result ≡ map amount_of amounts.now }
{
    let mut given = [amount_of(LobjAmount { units: 0, scale: 0 }); MOST];
    for (i, amount) in amounts.iter().enumerate() {
        given[i] = amount_of(*amount);
    }
    given
}
