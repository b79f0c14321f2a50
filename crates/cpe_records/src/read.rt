// The record that a line is.
ghost use Rattle.std.specs.Prelude.{◌≡◌, true, IfOk};
ghost use Rattle.serde_json.specs.View.{view};
ghost use Rattle.cpe_records.specs.declared.format.Format.{Format};
ghost use Rattle.cpe_records.specs.RecordKinds.{record_kind_of};
ghost use Rattle.cpe_records.specs.declared.record_kind.RecordKind.TheVariants as record_kind;
ghost use Rattle.cpe_records.specs.Gives.{ReadsMember, ReadsMemberBy};
ghost use Rattle.cpe_records.specs.Forms.{word_at};
ghost use Rattle.cpe_records.specs.Line.{json_value_of};
ghost use Rattle.cpe_records.specs.Taken.{is_valid_record};
ghost use Rattle.cpe_records.specs.Reading.{record_by, record_json_of, record_of};

use crate::form::text_of;
use crate::format::format_at;
use crate::kinds::{
    check_in, deprecation_in, entry_in, id_at, key_at, restore_in, search_in, statement_in,
};
use crate::line::value_of;
use crate::name::name_at;
use crate::record_kind::{RecordKind, record_kind_of};
use crate::{Format, Member, RecordFault};
use cpe_rows::{Edit, Query};
use serde_json::Value;
use std::alloc::Global;

/// A record: an edit or a question.
#[derive(Debug, Drop)]
pub enum Record {
    /// A change of the rows.
    Edit(Edit),
    /// A question about the rows.
    Query(Query),
}

fn record_kind_at(json: &Value) -> Result<RecordKind, RecordFault>
    ensures { ReadsMember result (word_at record_kind_of Member.Do (view json.now)) }
{
    match text_of(json, Member::Do) {
        Some(text) => record_kind_of(text).ok_or(RecordFault::Member(Member::Do)),
        None => Err(RecordFault::Member(Member::Do)),
    }
}

// A record of each kind is made by a function of its own. One function for all kinds would have one large stack frame,
// which would be cleared for each record.

#[inline(never)]
fn entry_record(alloc: Global, format: Format, json: &Value) -> Result<Record, RecordFault>
    ensures { ReadsMember result (record_by record_kind.Entry format (view json.now)) }
{
    Ok(Record::Edit(Edit::Entry(entry_in(alloc, format, json)?)))
}

#[inline(never)]
fn deprecate_record(alloc: Global, format: Format, json: &Value) -> Result<Record, RecordFault>
    ensures { ReadsMember result (record_by record_kind.Deprecate format (view json.now)) }
{
    Ok(Record::Edit(deprecation_in(alloc, format, json, false)?))
}

#[inline(never)]
fn amend_record(alloc: Global, format: Format, json: &Value) -> Result<Record, RecordFault>
    ensures { ReadsMember result (record_by record_kind.Amend format (view json.now)) }
{
    Ok(Record::Edit(deprecation_in(alloc, format, json, true)?))
}

#[inline(never)]
fn restore_record(alloc: Global, format: Format, json: &Value) -> Result<Record, RecordFault>
    ensures { ReadsMember result (record_by record_kind.Restore format (view json.now)) }
{
    Ok(Record::Edit(restore_in(alloc, format, json)?))
}

#[inline(never)]
fn item_record(alloc: Global, format: Format, json: &Value) -> Result<Record, RecordFault>
    ensures { ReadsMember result (record_by record_kind.Item format (view json.now)) }
{
    Ok(Record::Edit(Edit::Item(name_at(alloc, format, json)?)))
}

#[inline(never)]
fn drop_item_record(alloc: Global, format: Format, json: &Value) -> Result<Record, RecordFault>
    ensures { ReadsMember result (record_by record_kind.DropItem format (view json.now)) }
{
    Ok(Record::Edit(Edit::DropItem(name_at(alloc, format, json)?)))
}

#[inline(never)]
fn statement_record(alloc: Global, format: Format, json: &Value) -> Result<Record, RecordFault>
    ensures { ReadsMember result (record_by record_kind.Statement format (view json.now)) }
{
    Ok(Record::Edit(Edit::PutStatement(statement_in(alloc, format, json)?)))
}

#[inline(never)]
fn drop_statement_record(alloc: Global, json: &Value) -> Result<Record, RecordFault>
    ensures { (f : Format) → ReadsMember result (record_by record_kind.DropStatement f (view json.now)) }
{
    Ok(Record::Edit(Edit::DropStatement(id_at(alloc, json)?)))
}

#[inline(never)]
fn check_record(alloc: Global, json: &Value) -> Result<Record, RecordFault>
    ensures { (f : Format) → ReadsMember result (record_by record_kind.Check f (view json.now)) }
{
    Ok(Record::Edit(check_in(alloc, json)?))
}

#[inline(never)]
fn drop_check_record(alloc: Global, json: &Value) -> Result<Record, RecordFault>
    ensures { (f : Format) → ReadsMember result (record_by record_kind.DropCheck f (view json.now)) }
{
    Ok(Record::Edit(Edit::DropCheck(key_at(alloc, json)?)))
}

#[inline(never)]
fn lookup_record(alloc: Global, format: Format, json: &Value) -> Result<Record, RecordFault>
    ensures { ReadsMember result (record_by record_kind.Lookup format (view json.now)) }
{
    Ok(Record::Query(Query::Lookup(name_at(alloc, format, json)?)))
}

#[inline(never)]
fn search_record(alloc: Global, format: Format, json: &Value) -> Result<Record, RecordFault>
    ensures { ReadsMember result (record_by record_kind.Search format (view json.now)) }
{
    Ok(Record::Query(search_in(alloc, format, json)?))
}

#[inline(never)]
fn items_record(alloc: Global, format: Format, json: &Value) -> Result<Record, RecordFault>
    ensures { ReadsMember result (record_by record_kind.Items format (view json.now)) }
{
    Ok(Record::Query(Query::Items(name_at(alloc, format, json)?)))
}

#[inline(never)]
fn chain_record(alloc: Global, format: Format, json: &Value) -> Result<Record, RecordFault>
    ensures { ReadsMember result (record_by record_kind.Chain format (view json.now)) }
{
    Ok(Record::Query(Query::Chain(name_at(alloc, format, json)?)))
}

#[inline(never)]
fn show_record(alloc: Global, format: Format, json: &Value) -> Result<Record, RecordFault>
    ensures { ReadsMember result (record_by record_kind.Show format (view json.now)) }
{
    Ok(Record::Query(Query::Show(name_at(alloc, format, json)?)))
}

#[inline(never)]
fn verdict_record(alloc: Global, json: &Value) -> Result<Record, RecordFault>
    ensures { (f : Format) → ReadsMember result (record_by record_kind.Verdict f (view json.now)) }
{
    Ok(Record::Query(Query::Verdict(id_at(alloc, json)?)))
}

fn record_by(
    alloc: Global,
    kind: RecordKind,
    format: Format,
    json: &Value,
) -> Result<Record, RecordFault>
    ensures { ReadsMember result (record_by kind format (view json.now)) }
{
    match kind {
        RecordKind::Entry => entry_record(alloc, format, json),
        RecordKind::Deprecate => deprecate_record(alloc, format, json),
        RecordKind::Amend => amend_record(alloc, format, json),
        RecordKind::Restore => restore_record(alloc, format, json),
        RecordKind::Item => item_record(alloc, format, json),
        RecordKind::DropItem => drop_item_record(alloc, format, json),
        RecordKind::Statement => statement_record(alloc, format, json),
        RecordKind::DropStatement => drop_statement_record(alloc, json),
        RecordKind::Check => check_record(alloc, json),
        RecordKind::DropCheck => drop_check_record(alloc, json),
        RecordKind::Lookup => lookup_record(alloc, format, json),
        RecordKind::Search => search_record(alloc, format, json),
        RecordKind::Items => items_record(alloc, format, json),
        RecordKind::Chain => chain_record(alloc, format, json),
        RecordKind::Show => show_record(alloc, format, json),
        RecordKind::Verdict => verdict_record(alloc, json),
    }
}

fn json_of(alloc: Global, line: &[u8]) -> Result<Value, RecordFault>
    ensures { ReadsMemberBy view result (record_json_of (json_value_of line.now)) }
{
    value_of(alloc, line)?.ok_or(RecordFault::Json)
}

// The record of a line, without the proof that an engine accepts it.
#[tactic(auto, unfolding(crate::specs::Reading::record_of))]
fn record_in(alloc: Global, line: &[u8]) -> Result<Record, RecordFault>
    ensures { ReadsMember result (record_of line.now) }
{
    let value = json_of(alloc, line)?;
    let kind = record_kind_at(&value)?;
    let format = format_at(&value)?;
    record_by(alloc, kind, format, &value)
}

/// The record of a line. The line is a JSON value whose member `do` is the record's kind, and the members of that kind
/// have their forms. The record's names are in lower case.
///
/// # Errors
///
/// The first cause why the line is no record, exactly if it is none. The causes in their order:
/// - `Json`, if the line is no JSON value, nests more than 127 arrays and objects, or has a number out of range
/// - `Member` of `do`, if `do` is no kind's word
/// - `Member` of `v`, if `v` is there and is not the text `2`
/// - the fault of the first member of the kind that fails
///
/// Otherwise `Memory`, if memory runs out.
pub fn read_record(alloc: Global, line: &[u8]) -> Result<Record, RecordFault>
    ensures read { ReadsMember result (record_of line.now) }
    // An engine accepts the record.
    ensures valid { IfOk result (λ r. is_valid_record r ≡ true) }
{
    record_in(alloc, line)
}
