//! Classes that exclude one another.

ghost use Rattle.std.specs.Prelude.{◌≡◌, ◌&&◌, ℕ, [], unwrap_or, OnOk};
ghost use Rattle.std.specs.Option.{option_copied};
ghost use Rattle.lc_base.specs.declared.reason.Class.{Class as Excluding};
ghost use Rattle.lc_base.specs.Reading.{Gives};
ghost use Rattle.class_ranges.specs.Ranges.{IsLeast, covers, first_common};
ghost use Rattle.ctype_classes.specs.Classes.{members_of};
ghost use Rattle.ctype_classes.specs.Exclusions.{common_member, kept_apart, without_space, all_kept_apart};
ghost use Rattle.ctype_classes.specs.Excluded.{is_kept_in, in_both, IsExcluded, AreApart, IsFirstExcluded, AreAllApart, Names};

use crate::classes::{Classes, has_member};
use class_ranges::PagedRanges;
use lc_base::{Class, Place, Reason, TextFault};

/// The pairs of classes that have no common member, in the order in which they are tested.
const EXCLUSIONS: [(Class, Class); 21] = [
    (Class::Upper, Class::Cntrl),
    (Class::Upper, Class::Digit),
    (Class::Upper, Class::Punct),
    (Class::Upper, Class::Space),
    (Class::Lower, Class::Cntrl),
    (Class::Lower, Class::Digit),
    (Class::Lower, Class::Punct),
    (Class::Lower, Class::Space),
    (Class::Alpha, Class::Cntrl),
    (Class::Alpha, Class::Digit),
    (Class::Alpha, Class::Punct),
    (Class::Alpha, Class::Space),
    (Class::Cntrl, Class::Digit),
    (Class::Cntrl, Class::Punct),
    (Class::Cntrl, Class::Graph),
    (Class::Cntrl, Class::Print),
    (Class::Cntrl, Class::Xdigit),
    (Class::Space, Class::Graph),
    (Class::Space, Class::Xdigit),
    (Class::Punct, Class::Digit),
    (Class::Punct, Class::Xdigit),
];

/// The least value that two sets have in common. One that is not there is empty.
fn common(first: Option<&PagedRanges>, second: Option<&PagedRanges>) -> Option<u32>
    ensures is { result ≡ first_common (unwrap_or (option_copied first.entry) []) (unwrap_or (option_copied second.entry) []) }
    ensures least { IsLeast (λ w. covers (unwrap_or (option_copied first.entry) []) w && covers (unwrap_or (option_copied second.entry) []) w) result }
{
    match first {
        None => None,
        Some(first) => match second {
            None => None,
            Some(second) => first.ranges().first_common(second.ranges()),
        },
    }
}

/// The least common member of two classes.
fn common_member(classes: &Classes, pair: (Class, Class)) -> Option<u32>
    ensures is { result ≡ common_member classes.now pair }
    ensures least { IsLeast (in_both (is_kept_in classes.now) pair) result }
{
    let first = classes.get(pair.0.name());
    let second = classes.get(pair.1.name());
    common(first, second)
}

/// The classes of each pair have no common member.
fn check_pairs(section: Place, classes: &Classes, pairs: &[(Class, Class)]) -> Result<(), TextFault>
    ensures is { Gives (λ u. u) result (kept_apart section classes.now pairs.now) }
    ensures excluded { Names (IsExcluded (is_kept_in classes.now) pairs.now) section result }
    ensures behind { OnOk result ((a b : Excluding) (w : ℕ) → IsExcluded (is_kept_in classes.now) [] a b w → IsExcluded (is_kept_in classes.now) pairs.now a b w) }
    ensures apart { OnOk result (AreApart (is_kept_in classes.now) [] → AreApart (is_kept_in classes.now) pairs.now) }
{
    for pair in pairs {
        if let Some(w) = common_member(classes, *pair) {
            return Err(TextFault::At(section, Reason::Excluded(pair.0, pair.1, w)));
        }
    }
    Ok(())
}

/// The space character is not in `punct`.
fn check_space(section: Place, classes: &Classes) -> Result<(), TextFault>
    ensures is { Gives (λ u. u) result (without_space section classes.now) }
    ensures excluded { Names (IsExcluded (is_kept_in classes.now) []) section result }
    ensures apart { OnOk result (AreApart (is_kept_in classes.now) []) }
{
    if has_member(classes, b"punct", 32) {
        return Err(TextFault::At(section, Reason::Excluded(Class::Punct, Class::Space, 32)));
    }
    Ok(())
}

/// The classes keep to all exclusions.
#[tactic(auto, unfolding(crate::specs::Exclusions::all_kept_apart))]
pub fn check_exclusions(section: Place, classes: &Classes) -> Result<(), TextFault>
    ensures is { Gives (λ u. u) result (all_kept_apart section classes.now) }
    ensures excluded { Names (IsFirstExcluded (is_kept_in classes.now)) section result }
    ensures apart { OnOk result (AreAllApart (is_kept_in classes.now)) }
{
    check_pairs(section, classes, &EXCLUSIONS)?;
    check_space(section, classes)
}
