//! Items by their numbers.

ghost use Rattle.std.specs.Prelude.{◌≡◌, slice_get};
ghost use Rattle.c_values.specs.Items.{item_of};

use lc_base::Item;

/// The items, in the order of their numbers from 0, which is that of `Item`.
const ITEMS: [Item; 55] = [
    Item::Codeset,
    Item::DTFmt,
    Item::DFmt,
    Item::TFmt,
    Item::TFmtAmpm,
    Item::AmStr,
    Item::PmStr,
    Item::Day1,
    Item::Day2,
    Item::Day3,
    Item::Day4,
    Item::Day5,
    Item::Day6,
    Item::Day7,
    Item::Abday1,
    Item::Abday2,
    Item::Abday3,
    Item::Abday4,
    Item::Abday5,
    Item::Abday6,
    Item::Abday7,
    Item::Mon1,
    Item::Mon2,
    Item::Mon3,
    Item::Mon4,
    Item::Mon5,
    Item::Mon6,
    Item::Mon7,
    Item::Mon8,
    Item::Mon9,
    Item::Mon10,
    Item::Mon11,
    Item::Mon12,
    Item::Abmon1,
    Item::Abmon2,
    Item::Abmon3,
    Item::Abmon4,
    Item::Abmon5,
    Item::Abmon6,
    Item::Abmon7,
    Item::Abmon8,
    Item::Abmon9,
    Item::Abmon10,
    Item::Abmon11,
    Item::Abmon12,
    Item::Era,
    Item::EraDFmt,
    Item::EraDTFmt,
    Item::EraTFmt,
    Item::AltDigits,
    Item::Radixchar,
    Item::Thousep,
    Item::Yesexpr,
    Item::Noexpr,
    Item::Crncystr,
];

/// An item of a list.
#[inline(always)]
fn item_at(items: &[Item], place: usize) -> Option<Item>
    ensures { result ≡ slice_get items.now place }
{
    items.get(place).copied()
}

/// The item with a number.
#[tactic(auto, unfolding(crate::specs::Items::item_of))]
#[inline(always)]
pub fn item_of(number: u32) -> Option<Item>
    ensures { result ≡ item_of number }
{
    item_at(&ITEMS, number as usize)
}
