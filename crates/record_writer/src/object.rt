// Names as objects of their attributes, and the members that are a check's key.
ghost use Rattle.std.specs.Prelude.{◌≡◌, ◌++◌, flat_map, map};
ghost use Rattle.std.specs.List.{AllByRecursion};
ghost use Rattle.json.specs.Print.{IsPrintable};
ghost use Rattle.json.specs.Reads.{token_of};
ghost use Rattle.json.specs.Tree.{json_tokens};
ghost use Rattle.cpe_records.specs.cpe_uri.Canon.{is_any_component};
ghost use Rattle.record_writer.specs.Puts.{AppendsTokens};
ghost use Rattle.record_writer.specs.NameObject.{sorted_attributes, value_tokens, name_object};
ghost use Rattle.record_writer.specs.WrittenRecord.{key_tokens};

use crate::ascii::ascii_str;
use crate::write::put;
use cpe_fs::bind_component;
use cpe_records::attribute_word;
use cpe_rows::{Attribute, CheckKey, Memory, Value, Wfn};
use json::{Token, Writer};
use std::alloc::Global;

// The attributes, sorted by their names.
const SORTED: [Attribute; 11] = [
    Attribute::Edition,
    Attribute::Language,
    Attribute::Other,
    Attribute::Part,
    Attribute::Product,
    Attribute::SwEdition,
    Attribute::TargetHw,
    Attribute::TargetSw,
    Attribute::Update,
    Attribute::Vendor,
    Attribute::Version,
];

fn is_any_value(value: &Value) -> bool
    ensures { result ≡ is_any_component value.now }
{
    matches!(value, Value::Any)
}

fn put_attribute(
    alloc: Global,
    writer: &mut Writer,
    name: &Wfn,
    which: Attribute,
) -> Result<(), Memory>
    ensures { AppendsTokens result writer.old writer.new (value_tokens name.now which) }
{
    let value = name.get(which);
    if is_any_value(value) {
        return Ok(());
    }
    value.lawful();
    let text = bind_component(alloc, value)?;
    put(
        writer,
        &[
            Token::Key(attribute_word(which)),
            Token::String(ascii_str(text.as_slice())),
        ],
    )?;
    Ok(())
}

fn put_attributes(
    alloc: Global,
    writer: &mut Writer,
    name: &Wfn,
    which: &[Attribute],
) -> Result<(), Memory>
    ensures { AppendsTokens result writer.old writer.new (flat_map (value_tokens name.now) which.now) }
{
    for attribute in which {
        put_attribute(alloc, writer, name, *attribute)?;
    }
    Ok(())
}

/// Writes a name as an object of its attributes that are not ANY.
#[tactic(auto, unfolding(crate::specs::NameObject::name_object))]
pub(crate) fn put_name_object(alloc: Global, writer: &mut Writer, name: &Wfn) -> Result<(), Memory>
    ensures { AppendsTokens result writer.old writer.new (json_tokens (name_object name.now)) }
{
    put(writer, &[Token::BeginObject])?;
    put_attributes(alloc, writer, name, &SORTED)?;
    put(writer, &[Token::EndObject])?;
    Ok(())
}

/// Writes a name, with the given tokens before and after it.
pub(crate) fn put_around_name(
    alloc: Global,
    writer: &mut Writer,
    before: &[Token<'_>],
    name: &Wfn,
    behind: &[Token<'_>],
) -> Result<(), Memory>
    requires before { AllByRecursion (λ t. IsPrintable (token_of t)) before.now }
    requires behind { AllByRecursion (λ t. IsPrintable (token_of t)) behind.now }
    ensures { AppendsTokens result writer.old writer.new (map token_of before.now ++ (json_tokens (name_object name.now) ++ map token_of behind.now)) }
{
    put(writer, before)?;
    put_name_object(alloc, writer, name)?;
    put(writer, behind)?;
    Ok(())
}

/// Writes names as objects, one after another.
pub(crate) fn put_name_objects(
    alloc: Global,
    writer: &mut Writer,
    names: &[Wfn],
) -> Result<(), Memory>
    ensures { AppendsTokens result writer.old writer.new (flat_map (λ n. json_tokens (name_object n)) names.now) }
{
    for name in names {
        put_name_object(alloc, writer, name)?;
    }
    Ok(())
}

/// Writes the members that are a check's key, with the given tokens before and after them.
pub(crate) fn put_around_key(
    writer: &mut Writer,
    key: &CheckKey,
    before: &[Token<'_>],
    behind: &[Token<'_>],
) -> Result<(), Memory>
    requires before { AllByRecursion (λ t. IsPrintable (token_of t)) before.now }
    requires behind { AllByRecursion (λ t. IsPrintable (token_of t)) behind.now }
    ensures { AppendsTokens result writer.old writer.new (map token_of before.now ++ (key_tokens key.now ++ map token_of behind.now)) }
{
    put(writer, before)?;
    put(
        writer,
        &[
            Token::Key("href"),
            Token::String(key.href.as_str()),
            Token::Key("id"),
            Token::String(key.id.as_str()),
            Token::Key("system"),
            Token::String(key.system.as_str()),
        ],
    )?;
    put(writer, behind)?;
    Ok(())
}
