//! The fields of localeconv.

ghost use Rattle.std.specs.Prelude.{◌≡◌, ◌∷◌, [], ◌++◌, IfOk, OnOk};
ghost use Rattle.json.specs.Token.{key};
ghost use Rattle.langinfo.specs.Conv.{conv};
ghost use Rattle.tool_json.specs.Json.{number_member};
ghost use Rattle.tool_reads.specs.JsonReads.{conv_json, member_name, number_members, size_tokens, text_members, value_tokens};

use json::Writer;
use langinfo::{ConvText, FieldName, Lconv, localeconv};
use lc_base::ByteText;
use monetary_cat::Monetary;
use numeric_cat::Numeric;
use std::alloc::{AllocError, Global};
use tool_json::{json_line, new_writer, push_number_member, push_text};

/// An object with a member for each field of localeconv, in the order of the standard's structure; a grouping is an
/// array of its sizes.
pub fn conv_json(
    alloc: Global,
    numeric: &Numeric,
    monetary: &Monetary,
) -> Result<ByteText, AllocError>
    ensures { IfOk result (λ line. line ≡ conv_json (conv numeric.now monetary.now)) }
{
    let fields = localeconv(alloc, numeric, monetary)?;
    fields_json(alloc, &fields)
}

#[tactic(auto, unfolding(crate::specs::JsonReads::conv_json))]
fn fields_json(alloc: Global, fields: &Lconv) -> Result<ByteText, AllocError>
    ensures { IfOk result (λ line. line ≡ conv_json fields.now) }
{
    let mut json = new_writer(alloc);
    json.begin_object()?;
    push_texts(alloc, &mut json, fields.texts.as_slice())?;
    push_numbers(&mut json, fields.numbers.as_slice())?;
    json.end_object()?;
    json_line(json)
}

#[tactic(auto, unfolding(crate::specs::JsonReads::text_members))]
fn push_texts(
    alloc: Global,
    json: &mut Writer,
    fields: &[(FieldName, ConvText)],
) -> Result<(), AllocError>
    ensures before { json.new.before ≡ json.old.before }
    ensures tokens { OnOk result (json.new.tokens ≡ json.old.tokens ++ text_members fields.now) }
{
    for (name, text) in fields {
        json.key(member_name(name))?;
        push_value(alloc, json, text)?;
    }
    Ok(())
}

#[tactic(auto, unfolding(crate::specs::JsonReads::number_members))]
fn push_numbers(json: &mut Writer, fields: &[(FieldName, u8)]) -> Result<(), AllocError>
    ensures before { json.new.before ≡ json.old.before }
    ensures tokens { OnOk result (json.new.tokens ≡ json.old.tokens ++ number_members fields.now) }
{
    for (name, number) in fields {
        push_number_member(json, member_name(name), u64::from(*number))?;
    }
    Ok(())
}

/// The name of a member.
#[tactic(auto, using(crate::proofs::NameLemmas::is_name, crate::proofs::NameLemmas::no_name))]
fn member_name(name: &FieldName) -> &'static str
    ensures { result.now ≡ member_name name.now }
{
    match str::from_utf8(name.as_bytes()) {
        Ok(name) => name,
        Err(_) => "",
    }
}

fn push_value(alloc: Global, json: &mut Writer, text: &ConvText) -> Result<(), AllocError>
    ensures before { json.new.before ≡ json.old.before }
    ensures tokens { OnOk result (json.new.tokens ≡ json.old.tokens ++ value_tokens text.now) }
{
    match text {
        ConvText::Bytes(bytes) => push_text(alloc, json, bytes.as_bytes()),
        ConvText::Sizes(sizes) => {
            json.begin_array()?;
            push_sizes(json, sizes.as_bytes())?;
            json.end_array()
        }
    }
}

fn push_sizes(json: &mut Writer, sizes: &[u8]) -> Result<(), AllocError>
    ensures before { json.new.before ≡ json.old.before }
    ensures tokens { OnOk result (json.new.tokens ≡ json.old.tokens ++ size_tokens sizes.now) }
{
    for size in sizes {
        json.u64(u64::from(*size))?;
    }
    Ok(())
}
