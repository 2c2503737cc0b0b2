//! The categories that items read.

ghost use Rattle.std.specs.Prelude.{◌≡◌, ◌++◌, IfOk, OnOk, map};
ghost use Rattle.lc_base.specs.Categories.{categories};
ghost use Rattle.lc_base.specs.Tables.{first_named};
ghost use Rattle.script_words.specs.Tables.{items_table};
ghost use Rattle.tool_reads.specs.ItemCategories.{LocaleValues, AreAlike, category_of, item_categories, item_text, named_categories, of_named};

use lc_base::{CATEGORIES, Category, Item};
use script_words::item_named;
use std::alloc::{AllocError, Global};

/// The categories that the items with these names read; without names those of all items.
pub fn item_categories(alloc: Global, names: &[&str]) -> Result<Vec<Category>, AllocError>
    ensures { IfOk result (λ v. v.items ≡ item_categories (map (λ name. name.now) names.entry.now)) }
{
    match names {
        [] => all_categories(alloc),
        _ => named_categories(alloc, names),
    }
}

fn all_categories(alloc: Global) -> Result<Vec<Category>, AllocError>
    ensures { IfOk result (λ v. v.items ≡ categories) }
{
    let mut all = Vec::new(alloc);
    all.extend_from_slice(&CATEGORIES)?;
    Ok(all)
}

fn named_categories(alloc: Global, names: &[&str]) -> Result<Vec<Category>, AllocError>
    ensures { IfOk result (λ v. v.items ≡ named_categories (map (λ name. name.now) names.entry.now)) }
{
    let mut read = Vec::new(alloc);
    for name in names {
        push_named(&mut read, name)?;
    }
    Ok(read)
}

/// Adds the category that the item with a name reads, if there is one.
fn push_named(read: &mut Vec<Category>, name: &str) -> Result<(), AllocError>
    ensures { OnOk result (read.new.items ≡ read.old.items ++ of_named (first_named items_table name.now)) }
{
    if let Some(item) = item_named(name.as_bytes()) {
        read.push(category_of(item))?;
    }
    Ok(())
}

/// The category that an item reads. It is enough: locales that are alike there are alike in the item.
fn category_of(item: Item) -> Category
    ensures is { result ≡ category_of item }
    ensures enough { (v w : LocaleValues) → AreAlike result v w → item_text v item ≡ item_text w item }
{
    category_row(item)
}

fn category_row(item: Item) -> Category
    ensures { result ≡ category_of item }
{
    match item {
        Item::Codeset => Category::Ctype,
        Item::Radixchar | Item::Thousep => Category::Numeric,
        Item::Crncystr => Category::Monetary,
        Item::Yesexpr | Item::Noexpr => Category::Messages,
        _ => Category::Time,
    }
}
