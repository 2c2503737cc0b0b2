//! What the locale names stand for.

ghost use Rattle.std.specs.Prelude.{◌≡◌, ◌<◌};
ghost use Rattle.std.specs.List.{find};
ghost use Rattle.lc_base.specs.declared.category.Category.{Category};
ghost use Rattle.mask_compose.specs.Offer.{AreOnShelf};
ghost use Rattle.handle_table.specs.Entry.{History};
ghost use Rattle.handle_table.specs.Shelf.{shelf, part_from_shelf, from_shelf, is_lacking, lacking};
ghost use Rattle.lc_base.specs.Categories.{number_for};
ghost use Rattle.handle_table.specs.Kept.{Keeps};

use crate::kept::Kept;
use crate::setting::Setting;
use lc_base::{CATEGORIES, Category, Mask, number_for};
use mask_compose::{Object, Offer, Part};

/// The object that a mask and names take from the shelf.
pub fn from_shelf<P: Part>(
    setting: &Setting<P>,
    kept: &Kept<P>,
    mask: Mask,
    names: &[u32; 5],
) -> Object<P>
    ensures { (H : History) → Keeps setting.now H kept.now → AreOnShelf setting.now.opening names.now →
        result ≡ from_shelf setting.now H mask names.now }
{
    Object::of(
        part_from_shelf(setting, kept, mask, names, Category::Ctype),
        part_from_shelf(setting, kept, mask, names, Category::Numeric),
        part_from_shelf(setting, kept, mask, names, Category::Monetary),
        part_from_shelf(setting, kept, mask, names, Category::Time),
        part_from_shelf(setting, kept, mask, names, Category::Messages),
    )
}

/// The part that a mask and names take from the shelf for a category.
fn part_from_shelf<P: Part>(
    setting: &Setting<P>,
    kept: &Kept<P>,
    mask: Mask,
    names: &[u32; 5],
    category: Category,
) -> P
    ensures { (H : History) → Keeps setting.now H kept.now → AreOnShelf setting.now.opening names.now →
        P.number result ≡ part_from_shelf setting.now H mask names.now category }
{
    if !mask.has(category) {
        return setting.posix().object.part(category).share();
    }
    offer_for(setting, kept, names, category)
        .object
        .part(category)
        .share()
}

/// The offer of the name for a category.
fn offer_for<P: Part>(
    setting: &Setting<P>,
    kept: &Kept<P>,
    names: &[u32; 5],
    category: Category,
) -> Offer<P>
    ensures { (H : History) → Keeps setting.now H kept.now → AreOnShelf setting.now.opening names.now →
        result ≡ shelf setting.now H (number_for names.now category) }
{
    kept.offer(setting, number_for(names, category))
}

/// The first category of the mask that the offer of its name lacks.
pub fn lacking<P: Part>(
    setting: &Setting<P>,
    kept: &Kept<P>,
    mask: Mask,
    names: &[u32; 5],
) -> Option<Category>
    ensures { (H : History) → Keeps setting.now H kept.now → AreOnShelf setting.now.opening names.now →
        result ≡ lacking setting.now H mask names.now }
{
    first_lacking(setting, kept, mask, names, &CATEGORIES)
}

/// The first of the categories that the mask has and the offer of its name lacks.
fn first_lacking<P: Part>(
    setting: &Setting<P>,
    kept: &Kept<P>,
    mask: Mask,
    names: &[u32; 5],
    categories: &[Category],
) -> Option<Category>
    ensures { (H : History) → Keeps setting.now H kept.now → AreOnShelf setting.now.opening names.now →
        result ≡ find (is_lacking setting.now H mask names.now) categories.now }
{
    for category in categories {
        if is_lacking(setting, kept, mask, names, *category) {
            return Some(*category);
        }
    }
    None
}

/// Whether the mask has the category, and the offer of its name lacks it.
fn is_lacking<P: Part>(
    setting: &Setting<P>,
    kept: &Kept<P>,
    mask: Mask,
    names: &[u32; 5],
    category: Category,
) -> bool
    ensures { (H : History) → Keeps setting.now H kept.now → AreOnShelf setting.now.opening names.now →
        result ≡ is_lacking setting.now H mask names.now category }
{
    let offer = offer_for(setting, kept, names, category);
    mask.has(category) && !offer.available.has(category)
}
