// Entries as JSON, a token at a time.
ghost use Rattle.std.specs.Prelude.{◌≡◌, IfOk, ◌∷◌, ◌++◌, flat_map, map};
ghost use Rattle.std.specs.List.{AllByRecursion};
ghost use Rattle.json.specs.Print.{IsPrintable};
ghost use Rattle.json.specs.Reads.{token_of};
ghost use Rattle.json.specs.Tree.{json_tokens};
ghost use Rattle.record_writer.specs.Puts.{AppendsTokens};
ghost use Rattle.record_writer.specs.Written.{name_json, note_json, deprecation_json, provenance_json, entry_json, entry_text};

use crate::ascii::{ascii_str, date_str};
use cpe_fs::bind_fs;
use cpe_records::{kind_word, note_kind_word};
use cpe_rows::{Deprecation, Entry, Memory, Note, Provenance, Wfn};
use json::{Token, Writer};
use std::alloc::Global;

/// Writes tokens, one after another.
///
/// # Errors
/// Only that memory ran out.
pub fn put(writer: &mut Writer, tokens: &[Token<'_>]) -> Result<(), Memory>
    requires { AllByRecursion (λ t. IsPrintable (token_of t)) tokens.now }
    ensures { AppendsTokens result writer.old writer.new (map token_of tokens.now) }
{
    for token in tokens {
        writer.token(*token)?;
    }
    Ok(())
}

#[tactic(auto, unfolding(crate::specs::Written::name_json))]
fn put_name(alloc: Global, writer: &mut Writer, name: &Wfn) -> Result<(), Memory>
    ensures { AppendsTokens result writer.old writer.new (json_tokens (name_json name.now)) }
{
    name.lawful();
    let text = bind_fs(alloc, name)?;
    put(writer, &[Token::String(ascii_str(text.as_slice()))])?;
    Ok(())
}

/// Writes names as formatted strings, one after another.
///
/// # Errors
/// Only that memory ran out.
pub fn put_names(alloc: Global, writer: &mut Writer, names: &[Wfn]) -> Result<(), Memory>
    ensures { AppendsTokens result writer.old writer.new (flat_map (λ n. json_tokens (name_json n)) names.now) }
{
    for name in names {
        put_name(alloc, writer, name)?;
    }
    Ok(())
}

fn put_note(writer: &mut Writer, note: &Note) -> Result<(), Memory>
    ensures { AppendsTokens result writer.old writer.new (json_tokens (note_json note.now)) }
{
    put(
        writer,
        &[
            Token::BeginObject,
            Token::Key("comment"),
            Token::String(note.comment.as_str()),
            Token::Key("date"),
            Token::String(date_str(&note.date)),
            Token::Key("kind"),
            Token::String(note_kind_word(note.kind)),
            Token::EndObject,
        ],
    )?;
    Ok(())
}

fn put_notes(writer: &mut Writer, notes: &[Note]) -> Result<(), Memory>
    ensures { AppendsTokens result writer.old writer.new (flat_map (λ n. json_tokens (note_json n)) notes.now) }
{
    for note in notes {
        put_note(writer, note)?;
    }
    Ok(())
}

fn put_deprecation(
    alloc: Global,
    writer: &mut Writer,
    deprecation: &Option<Deprecation>,
) -> Result<(), Memory>
    ensures { AppendsTokens result writer.old writer.new (json_tokens (deprecation_json deprecation.now)) }
{
    match deprecation {
        None => put(writer, &[Token::Null])?,
        Some(deprecation) => {
            put(
                writer,
                &[
                    Token::BeginObject,
                    Token::Key("kind"),
                    Token::String(kind_word(deprecation.kind)),
                    Token::Key("successors"),
                    Token::BeginArray,
                ],
            )?;
            put_names(alloc, writer, deprecation.successors.as_slice())?;
            put(writer, &[Token::EndArray, Token::EndObject])?;
        }
    }
    Ok(())
}

/// Writes the provenance of an entry.
pub(crate) fn put_provenance(writer: &mut Writer, provenance: &Provenance) -> Result<(), Memory>
    ensures { AppendsTokens result writer.old writer.new (json_tokens (provenance_json provenance.now)) }
{
    put(
        writer,
        &[
            Token::BeginObject,
            Token::Key("authority"),
            Token::String(provenance.authority.as_str()),
            Token::Key("changes"),
            Token::BeginArray,
        ],
    )?;
    put_notes(writer, provenance.notes.as_slice())?;
    put(
        writer,
        &[
            Token::EndArray,
            Token::Key("submitter"),
            Token::String(provenance.submitter.as_str()),
            Token::EndObject,
        ],
    )?;
    Ok(())
}

fn put_entry(alloc: Global, writer: &mut Writer, entry: &Entry) -> Result<(), Memory>
    ensures { AppendsTokens result writer.old writer.new (json_tokens (entry_json entry.now)) }
{
    put(writer, &[Token::BeginObject, Token::Key("deprecation")])?;
    put_deprecation(alloc, writer, &entry.deprecation)?;
    put(writer, &[Token::Key("name")])?;
    put_name(alloc, writer, &entry.name)?;
    put(writer, &[Token::Key("provenance")])?;
    put_provenance(writer, &entry.provenance)?;
    put(
        writer,
        &[
            Token::Key("title"),
            Token::String(entry.title.as_str()),
            Token::EndObject,
        ],
    )?;
    Ok(())
}

/// Appends to a buffer the JSON of an entry, as [`write_entry`] returns it.
///
/// # Errors
/// Only that memory ran out. The buffer is then dropped.
#[tactic(auto, unfolding(crate::specs::Written::entry_text))]
pub fn append_entry(alloc: Global, buffer: Vec<u8>, entry: &Entry) -> Result<Vec<u8>, Memory>
    ensures { IfOk result (λ v. v.items ≡ buffer.items ++ entry_text entry.now) }
{
    let mut writer = Writer::new(buffer);
    put_entry(alloc, &mut writer, entry)?;
    Ok(writer.into_inner())
}

/// An entry as JSON without spaces. The members of each object are sorted by their keys, and names are formatted
/// strings.
///
/// # Errors
/// Only that memory ran out.
pub fn write_entry(alloc: Global, entry: &Entry) -> Result<Vec<u8>, Memory>
    ensures { IfOk result (λ v. v.items ≡ entry_text entry.now) }
{
    append_entry(alloc, Vec::with_capacity(alloc, 256)?, entry)
}
