//! Laws of commands as they are written. Each function takes nothing, and its contract is the law.

ghost use Rattle.tool_script.specs.Laws.{EachHasItsLine};

/// An accepted bundle has as many lines that are commands as it has commands.
#[tactic(auto, using(crate::proofs::WrittenLemmas::each_has_its_line))]
pub fn each_has_its_line()
    ensures { EachHasItsLine }
{}
