//! Whole numbers as C gives them.

ghost use Rattle.std.specs.Prelude.{◌≡◌, ◌≤◌, true, length, take};
ghost use Rattle.std.specs.List.{list_all};
ghost use Rattle.int_format.specs.Ints.{is_number};
ghost use Rattle.c_values.specs.Limits.{MOST};

use crate::amounts::MOST;

/// The numbers, as int_format takes them, at the front of an array.
#[tactic(auto, using(crate::proofs::NumberLemmas::one_more_number))]
pub fn numbers_given(numbers: &[i64]) -> [i128; MOST]
    requires { length numbers.now ≤ MOST }
    ensures same { take (length numbers.now) result ≡ numbers.now }
    ensures in_range { list_all is_number numbers.now ≡ true }
{
    let mut given = [0; MOST];
    for (i, number) in numbers.iter().enumerate() {
        given[i] = i128::from(*number);
    }
    given
}
