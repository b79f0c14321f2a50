// The written form of records.
ghost use Rattle.std.specs.Prelude.{◌≡◌, true, ◌++◌, IfOk, OnOk, Ok, IsUtf8};
ghost use Rattle.json.specs.Tree.{json_tokens};
ghost use Rattle.cpe_rows.specs.declared.edit.Edit.TheVariants as edit;
ghost use Rattle.cpe_rows.specs.declared.edit.Query.TheVariants as query;
ghost use Rattle.cpe_records.specs.declared.record_kind.RecordKind.TheVariants as record_kind;
ghost use Rattle.record_writer.specs.Puts.{AppendsTokens};
ghost use Rattle.cpe_records.specs.Reading.{record_of};
ghost use Rattle.cpe_records.specs.Taken.{is_valid_record, IsFormedQuery, IsFormedRecord};
ghost use Rattle.cpe_records.specs.declared.read.Record.{Record};
ghost use Rattle.record_writer.specs.WrittenRecord.{about_json, about_id_json, change_head, change_json, edit_json, query_json, record_json, record_text, titled_end};

use crate::ascii::date_str;
use crate::object::{put_around_key, put_around_name, put_name_objects};
use crate::test::put_test;
use crate::write::{put, put_provenance};
use cpe_fs::read_component_is;
use cpe_records::{Record, RecordKind, kind_word, mode_word, truth_word};
use cpe_rows::{
    CheckKey, Date, Deprecation, Edit, Entry, Memory, Query, Statement, Text, Truth, Wfn,
};
use json::{Token, Writer};
use std::alloc::Global;

fn put_about(alloc: Global, writer: &mut Writer, kind: RecordKind, name: &Wfn) -> Result<(), Memory>
    ensures { AppendsTokens result writer.old writer.new (json_tokens (about_json kind name.now)) }
{
    put_around_name(
        alloc,
        writer,
        &[
            Token::BeginObject,
            Token::Key("do"),
            Token::String(kind.word()),
            Token::Key("name"),
        ],
        name,
        &[Token::Key("v"), Token::String("2"), Token::EndObject],
    )
}

fn put_about_id(writer: &mut Writer, kind: RecordKind, id: &Text) -> Result<(), Memory>
    ensures { AppendsTokens result writer.old writer.new (json_tokens (about_id_json kind id.now)) }
{
    put(
        writer,
        &[
            Token::BeginObject,
            Token::Key("do"),
            Token::String(kind.word()),
            Token::Key("id"),
            Token::String(id.as_str()),
            Token::Key("v"),
            Token::String("2"),
            Token::EndObject,
        ],
    )
}

// Writes the last members of a record that has a title, and its end.
fn put_titled_end(writer: &mut Writer, title: &Text) -> Result<(), Memory>
    ensures { AppendsTokens result writer.old writer.new (titled_end title.now) }
{
    put(
        writer,
        &[
            Token::Key("title"),
            Token::String(title.as_str()),
            Token::Key("v"),
            Token::String("2"),
            Token::EndObject,
        ],
    )
}

fn put_entry_record(alloc: Global, writer: &mut Writer, entry: &Entry) -> Result<(), Memory>
    ensures { AppendsTokens result writer.old writer.new (json_tokens (edit_json (edit.Entry entry.now))) }
{
    put_around_name(
        alloc,
        writer,
        &[
            Token::BeginObject,
            Token::Key("do"),
            Token::String(RecordKind::Entry.word()),
            Token::Key("name"),
        ],
        &entry.name,
        &[Token::Key("provenance")],
    )?;
    put_provenance(writer, &entry.provenance)?;
    put_titled_end(writer, &entry.title)?;
    Ok(())
}

// Writes the members of a deprecation's record that are before its successors.
fn put_change_head<'x>(
    alloc: Global,
    writer: &mut Writer,
    kind: RecordKind,
    name: &Wfn,
    deprecation: &Deprecation,
    date: &'x Date,
    comment: &'x Text,
) -> Result<(), Memory>
    ensures { AppendsTokens result writer.old writer.new (change_head kind name.now deprecation.now date.now comment.now) }
{
    put_around_name(
        alloc,
        writer,
        &[
            Token::BeginObject,
            Token::Key("comment"),
            Token::String(comment.as_str()),
            Token::Key("date"),
            Token::String(date_str(date)),
            Token::Key("do"),
            Token::String(kind.word()),
            Token::Key("kind"),
            Token::String(kind_word(deprecation.kind)),
            Token::Key("name"),
        ],
        name,
        &[Token::Key("successors"), Token::BeginArray],
    )?;
    Ok(())
}

fn put_change<'x>(
    alloc: Global,
    writer: &mut Writer,
    kind: RecordKind,
    name: &Wfn,
    deprecation: &Deprecation,
    date: &'x Date,
    comment: &'x Text,
) -> Result<(), Memory>
    ensures { AppendsTokens result writer.old writer.new (json_tokens (change_json kind name.now deprecation.now date.now comment.now)) }
{
    put_change_head(alloc, writer, kind, name, deprecation, date, comment)?;
    put_name_objects(alloc, writer, deprecation.successors.as_slice())?;
    put(
        writer,
        &[
            Token::EndArray,
            Token::Key("v"),
            Token::String("2"),
            Token::EndObject,
        ],
    )?;
    Ok(())
}

fn put_restore<'x>(
    alloc: Global,
    writer: &mut Writer,
    name: &Wfn,
    date: &'x Date,
    comment: &'x Text,
) -> Result<(), Memory>
    ensures { AppendsTokens result writer.old writer.new (json_tokens (edit_json (edit.Restore name.now date.now comment.now))) }
{
    put_around_name(
        alloc,
        writer,
        &[
            Token::BeginObject,
            Token::Key("comment"),
            Token::String(comment.as_str()),
            Token::Key("date"),
            Token::String(date_str(date)),
            Token::Key("do"),
            Token::String(RecordKind::Restore.word()),
            Token::Key("name"),
        ],
        name,
        &[Token::Key("v"), Token::String("2"), Token::EndObject],
    )
}

fn put_statement(alloc: Global, writer: &mut Writer, statement: &Statement) -> Result<(), Memory>
    ensures { AppendsTokens result writer.old writer.new (json_tokens (edit_json (edit.PutStatement statement.now))) }
{
    put(
        writer,
        &[
            Token::BeginObject,
            Token::Key("do"),
            Token::String(RecordKind::Statement.word()),
            Token::Key("id"),
            Token::String(statement.id.as_str()),
            Token::Key("mode"),
            Token::String(mode_word(statement.mode)),
            Token::Key("test"),
        ],
    )?;
    put_test(alloc, writer, &statement.test)?;
    put_titled_end(writer, &statement.title)?;
    Ok(())
}

fn put_result(writer: &mut Writer, key: &CheckKey, truth: Truth) -> Result<(), Memory>
    ensures { AppendsTokens result writer.old writer.new (json_tokens (edit_json (edit.SetCheck key.now truth))) }
{
    put(
        writer,
        &[
            Token::BeginObject,
            Token::Key("do"),
            Token::String(RecordKind::Check.word()),
            Token::Key("href"),
            Token::String(key.href.as_str()),
            Token::Key("id"),
            Token::String(key.id.as_str()),
            Token::Key("result"),
            Token::String(truth_word(truth)),
            Token::Key("system"),
            Token::String(key.system.as_str()),
            Token::Key("v"),
            Token::String("2"),
            Token::EndObject,
        ],
    )?;
    Ok(())
}

fn put_dropped_check(writer: &mut Writer, key: &CheckKey) -> Result<(), Memory>
    ensures { AppendsTokens result writer.old writer.new (json_tokens (edit_json (edit.DropCheck key.now))) }
{
    put_around_key(
        writer,
        key,
        &[
            Token::BeginObject,
            Token::Key("do"),
            Token::String(RecordKind::DropCheck.word()),
        ],
        &[Token::Key("v"), Token::String("2"), Token::EndObject],
    )?;
    Ok(())
}

fn put_search(
    alloc: Global,
    writer: &mut Writer,
    name: &Wfn,
    active_only: bool,
) -> Result<(), Memory>
    ensures { AppendsTokens result writer.old writer.new (json_tokens (query_json (query.Search name.now active_only))) }
{
    put_around_name(
        alloc,
        writer,
        &[
            Token::BeginObject,
            Token::Key("active"),
            Token::Bool(active_only),
            Token::Key("do"),
            Token::String(RecordKind::Search.word()),
            Token::Key("name"),
        ],
        name,
        &[Token::Key("v"), Token::String("2"), Token::EndObject],
    )?;
    Ok(())
}

fn put_edit(alloc: Global, writer: &mut Writer, edit: &Edit) -> Result<(), Memory>
    ensures { AppendsTokens result writer.old writer.new (json_tokens (edit_json edit.now)) }
{
    match edit {
        Edit::Entry(entry) => put_entry_record(alloc, writer, entry),
        Edit::Item(name) => put_about(alloc, writer, RecordKind::Item, name),
        Edit::DropItem(name) => put_about(alloc, writer, RecordKind::DropItem, name),
        Edit::Deprecate {
            name,
            deprecation,
            date,
            comment,
        } => put_change(
            alloc,
            writer,
            RecordKind::Deprecate,
            name,
            deprecation,
            date,
            comment,
        ),
        Edit::Amend {
            name,
            deprecation,
            date,
            comment,
        } => put_change(
            alloc,
            writer,
            RecordKind::Amend,
            name,
            deprecation,
            date,
            comment,
        ),
        Edit::Restore {
            name,
            date,
            comment,
        } => put_restore(alloc, writer, name, date, comment),
        Edit::PutStatement(statement) => put_statement(alloc, writer, statement),
        Edit::DropStatement(id) => put_about_id(writer, RecordKind::DropStatement, id),
        Edit::SetCheck { key, result } => put_result(writer, key, *result),
        Edit::DropCheck(key) => put_dropped_check(writer, key),
    }
}

fn put_query(alloc: Global, writer: &mut Writer, query: &Query) -> Result<(), Memory>
    ensures { AppendsTokens result writer.old writer.new (json_tokens (query_json query.now)) }
{
    match query {
        Query::Lookup(name) => put_about(alloc, writer, RecordKind::Lookup, name),
        Query::Search { name, active_only } => put_search(alloc, writer, name, *active_only),
        Query::Items(name) => put_about(alloc, writer, RecordKind::Items, name),
        Query::Chain(name) => put_about(alloc, writer, RecordKind::Chain, name),
        Query::Show(name) => put_about(alloc, writer, RecordKind::Show, name),
        Query::Verdict(id) => put_about_id(writer, RecordKind::Verdict, id),
    }
}

fn put_record(alloc: Global, writer: &mut Writer, what: &Record) -> Result<(), Memory>
    ensures { AppendsTokens result writer.old writer.new (json_tokens (record_json what.now)) }
{
    match what {
        Record::Edit(edit) => put_edit(alloc, writer, edit),
        Record::Query(query) => put_query(alloc, writer, query),
    }
}

fn formed_query(query: &Query)
    ensures { IsFormedQuery query.now }
{
    match query {
        Query::Lookup(name)
        | Query::Search { name, .. }
        | Query::Items(name)
        | Query::Chain(name)
        | Query::Show(name) => name.lawful(),
        Query::Verdict(_) => {}
    }
}

// Law: the names of every record are well-formed, and its dates have the form of a date.
fn formed(what: &Record)
    ensures { IsFormedRecord what.now }
{
    match what {
        Record::Edit(edit) => edit.formed(),
        Record::Query(query) => formed_query(query),
    }
}

/// Law: the written form of each valid record is read as that record. The other conditions are true of every record:
/// its names are well-formed, its dates have the form of a date, and [`write_record`] writes UTF-8.
pub fn written_is_read()
    ensures { (r : Record) → IsFormedRecord r → is_valid_record r ≡ true → IsUtf8 (record_text r) → record_of (record_text r) ≡ Ok r }
{
    read_component_is();
}

/// Appends to a buffer the written form of a record, as [`write_record`] returns it.
///
/// # Errors
/// Only that memory ran out. The buffer is then dropped.
#[tactic(auto, unfolding(crate::specs::WrittenRecord::record_text))]
fn append_record(alloc: Global, buffer: Vec<u8>, what: &Record) -> Result<Vec<u8>, Memory>
    ensures text { IfOk result (λ v. v.items ≡ buffer.items ++ record_text what.now) }
    // The written form of a valid record is read as the same record.
    ensures read { OnOk result (is_valid_record what.now ≡ true → record_of (record_text what.now) ≡ Ok what.now) }
{
    formed(what);
    written_is_read();
    let mut writer = Writer::new(buffer);
    put_record(alloc, &mut writer, what)?;
    Ok(writer.into_inner())
}

/// The written form of a record: JSON of the second format, without spaces. The members of each object are sorted by
/// their keys. Each member of the record's kind is written, even if it has its default. A name is an object of its
/// attributes that are not ANY.
///
/// # Errors
/// Only that memory ran out.
pub fn write_record(alloc: Global, what: &Record) -> Result<Vec<u8>, Memory>
    ensures text { IfOk result (λ v. v.items ≡ record_text what.now) }
    // The written form of a valid record is read as the same record.
    ensures read { is_valid_record what.now ≡ true → IfOk result (λ v. record_of v.items ≡ Ok what.now) }
{
    append_record(alloc, Vec::with_capacity(alloc, 256)?, what)
}
