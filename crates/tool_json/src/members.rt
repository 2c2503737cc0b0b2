//! Members of objects.

ghost use Rattle.std.specs.Prelude.{◌≡◌, ◌∷◌, [], ◌++◌, IfOk, OnOk};
ghost use Rattle.json.specs.Token.{key, boolean};
ghost use Rattle.tool_json.specs.Json.{bytes_tokens, text_tokens, text_member, number_member, json_line};

use json::{Token, Writer};
use lc_base::ByteText;
use std::alloc::{AllocError, Global};

/// A writer of JSON text that has written nothing.
pub fn new_writer(alloc: Global) -> Writer
    ensures before { result.before ≡ [] }
    ensures tokens { result.tokens ≡ [] }
{
    Writer::new(Vec::new(alloc))
}

/// The text that was written, with a newline behind it.
pub fn json_line(json: Writer) -> Result<ByteText, AllocError>
    ensures { json.before ≡ [] → IfOk result (λ line. line ≡ json_line json.tokens) }
{
    let mut text = json.into_inner();
    text.extend_from_slice(b"\n")?;
    Ok(ByteText::from_vec(text))
}

/// Adds bytes: as a string where they are UTF-8 text, and else as the object `{"bytes":"HEX"}`, so that nothing
/// of them is lost.
#[tactic(auto, using(crate::proofs::JsonLemmas::of_text, crate::proofs::JsonLemmas::of_bytes))]
pub fn push_text(alloc: Global, json: &mut Writer, bytes: &[u8]) -> Result<(), AllocError>
    ensures before { json.new.before ≡ json.old.before }
    ensures tokens { OnOk result (json.new.tokens ≡ json.old.tokens ++ (text_tokens bytes.now)) }
{
    match str::from_utf8(bytes) {
        Ok(text) => json.string(text),
        Err(_) => push_bytes(alloc, json, bytes),
    }
}

fn push_bytes(alloc: Global, json: &mut Writer, bytes: &[u8]) -> Result<(), AllocError>
    ensures before { json.new.before ≡ json.old.before }
    ensures tokens { OnOk result (json.new.tokens ≡ json.old.tokens ++ (bytes_tokens bytes.now)) }
{
    let digits = hex::encode(alloc, bytes)?;
    json.begin_object()?;
    json.key("bytes")?;
    json.string(digits.as_str())?;
    json.end_object()
}

/// Adds a member that is a text.
pub fn push_member(
    alloc: Global,
    json: &mut Writer,
    name: &str,
    bytes: &[u8],
) -> Result<(), AllocError>
    ensures before { json.new.before ≡ json.old.before }
    ensures tokens { OnOk result (json.new.tokens ≡ json.old.tokens ++ (text_member name.now bytes.now)) }
{
    json.key(name)?;
    push_text(alloc, json, bytes)
}

/// Adds a member that is a number.
pub fn push_number_member(json: &mut Writer, name: &str, n: u64) -> Result<(), AllocError>
    ensures before { json.new.before ≡ json.old.before }
    ensures tokens { OnOk result (json.new.tokens ≡ json.old.tokens ++ (number_member name.now n)) }
{
    json.key(name)?;
    json.u64(n)
}

/// Adds a member that is true or false.
pub fn push_flag(json: &mut Writer, name: &str, is_so: bool) -> Result<(), AllocError>
    ensures before { json.new.before ≡ json.old.before }
    ensures tokens { OnOk result (json.new.tokens ≡ json.old.tokens ++ (key name.now ∷ boolean is_so ∷ [])) }
{
    json.key(name)?;
    json.token(Token::Bool(is_so))
}
