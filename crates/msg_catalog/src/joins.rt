//! Lines that go on in the next one.

ghost use Rattle.std.specs.Prelude.{◌≡◌, ◌+◌, ◌≤◌, length, drop, true, false, IsTrue, IsNone, IfSome};
ghost use Rattle.msg_catalog.specs.Spots.{joins_here};

/// Whether a text begins with a `\` and an LF.
fn joins_here(text: &[u8]) -> bool
    ensures is { result ≡ joins_here text.now }
    ensures long { IsTrue result → 2 ≤ length text.now }
{
    match text {
        [first, second, ..] => *first == b'\\' && *second == b'\n',
        _ => false,
    }
}

/// What follows a `\` and an LF with which a text begins.
pub fn past_join(text: &[u8]) -> Option<&[u8]>
    ensures none { IsNone result → joins_here text.now ≡ false }
    ensures some { IfSome result (λ rest. (joins_here text.now ≡ true) × (rest.now ≡ drop 2 text.now)) }
    ensures shorter { IfSome result (λ rest. length rest.now + 2 ≡ length text.now) }
{
    if joins_here(text) {
        Some(&text[2..])
    } else {
        None
    }
}
