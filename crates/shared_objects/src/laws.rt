//! Laws of marks. Each function takes nothing, and its contract is the law.

ghost use Rattle.shared_objects.specs.Marks.{BytesTell};

/// The bytes that a mark is made of tell what the library was made of.
#[tactic(auto, using(crate::proofs::MarkLaws::bytes_tell))]
pub fn bytes_tell()
    ensures { BytesTell }
{}
