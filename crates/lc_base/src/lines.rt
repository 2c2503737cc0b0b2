//! Lines of a text.

ghost use Rattle.std.specs.Prelude.{◌≡◌, ◌+◌, ◌<◌, ◌↔◌, [], length, position, IsNone, IfSome, false};
ghost use Rattle.std.specs.List.{list_any};
ghost use Rattle.std.specs.Option.{option_copied};
ghost use Rattle.lc_base.specs.Lines.{is_newline, after, EndsLine, CutsLine};

/// The first line of a text that a newline ends, and what follows it; `None` where there is no
/// newline.
pub fn ended_line(text: &[u8]) -> Option<(&[u8], &[u8])>
    ensures line { IfSome result (λ x. EndsLine text.now x.0.now x.1.now) }
    ensures none { IsNone result → list_any is_newline text.now ≡ false }
    ensures shorter { IfSome result (λ x. length x.0.now + length x.1.now < length text.now) }
{
    let at = newline_at(text)?;
    let (line, _) = text.split_at(at);
    let (_, rest) = text.split_at(at + 1);
    Some((line, rest))
}

/// The first line of a text, without its newline, and what follows it; `None` where the text is
/// empty. The last line of a text may lack its newline.
pub fn next_line(text: &[u8]) -> Option<(&[u8], &[u8])>
    ensures line { IfSome result (λ x. CutsLine text.now x.0.now x.1.now) }
    ensures end { IsNone result ↔ (text.now ≡ []) }
    ensures shorter { IfSome result (λ x. length x.1.now < length text.now) }
{
    if text.is_empty() {
        return None;
    }
    match ended_line(text) {
        Some((line, rest)) => Some((line, rest)),
        None => Some((text, &[])),
    }
}

/// Where the first newline stands.
fn newline_at(text: &[u8]) -> Option<usize>
    ensures { result ≡ position is_newline text.now }
{
    text.iter().position(|b| *b == b'\n')
}

/// What follows `front` in a line that begins with it.
pub fn after<'a>(front: &[u8], line: &'a [u8]) -> Option<&'a [u8]>
    ensures { option_copied result ≡ after front.now line.now }
{
    if line.starts_with(front) {
        Some(&line[front.len()..])
    } else {
        None
    }
}
