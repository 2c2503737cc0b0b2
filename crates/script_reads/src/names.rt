//! The names of locale objects.

ghost use Rattle.std.specs.Prelude.{◌≡◌, ◌∷◌, [], IfOk};
ghost use Rattle.script_reads.specs.Names.{part_name, joint_name, object_name};

use category_store::{Library, Share};
use lc_base::{ByteText, Category};
use mask_compose::{Object, join_names};
use script_words::CategoryArgument;
use std::alloc::{AllocError, Global};

/// The name of an object for a category, or for all of them (XSH setlocale).
pub fn object_name(
    alloc: Global,
    library: &Library,
    object: &Object<Share>,
    categories: CategoryArgument,
) -> Result<ByteText, AllocError>
    ensures { IfOk result (λ name. name ≡ object_name library.now object.now categories) }
{
    match categories {
        CategoryArgument::One(category) => ByteText::of(
            alloc,
            part_name(library, object, category),
        ),
        CategoryArgument::All => {
            let ctype = part_name(library, object, Category::Ctype);
            let numeric = part_name(library, object, Category::Numeric);
            let monetary = part_name(library, object, Category::Monetary);
            let time = part_name(library, object, Category::Time);
            let messages = part_name(library, object, Category::Messages);
            joint_name(alloc, ctype, numeric, monetary, time, messages)
        }
    }
}

/// The name of the locale that an object has for a category.
pub fn part_name<'a>(library: &'a Library, object: &Object<Share>, category: Category) -> &'a [u8]
    ensures { result.now ≡ part_name library.now object.now category }
{
    library.compiled(*object.part(category)).name()
}

/// The common name of the categories, or else their mixed name.
fn joint_name(
    alloc: Global,
    ctype: &[u8],
    numeric: &[u8],
    monetary: &[u8],
    time: &[u8],
    messages: &[u8],
) -> Result<ByteText, AllocError>
    ensures { IfOk result (λ name. name ≡ joint_name (ctype.now ∷ numeric.now ∷ monetary.now ∷ time.now ∷ messages.now ∷ [])) }
{
    if ctype == numeric && ctype == monetary && ctype == time && ctype == messages {
        ByteText::of(alloc, ctype)
    } else {
        join_names(alloc, ctype, numeric, monetary, time, messages)
    }
}
