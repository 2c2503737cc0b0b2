//! What the grammar of operands can say.

ghost use Rattle.src_lines.specs.Spelling.{HaveSpellings};

/// Each keyword and each list of operands has a spelling that is read as just them: no operand of
/// any kind is out of a text's reach, but for one empty operand alone.
pub fn have_spellings()
    ensures { HaveSpellings }
{}
