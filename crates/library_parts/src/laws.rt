//! Laws of parts. Each function takes nothing, and its contract is the law.

ghost use Rattle.library_parts.specs.Laws.{LinesAreOwn, KeysAreOwn};

/// A line of a part, or the one behind its last, is told of that part as its own line.
#[tactic(auto, using(crate::proofs::PartLaws::lines_are_own))]
pub fn lines_are_own()
    ensures { LinesAreOwn }
{}

/// Parts of a kind whose names are formed have one key exactly if they have one name, and as catalogs one locale.
#[tactic(auto, using(crate::proofs::PartLaws::keys_are_own))]
pub fn keys_are_own()
    ensures { KeysAreOwn }
{}
