// The members of each kind of record, in the order in which they are tested. A function for each kind keeps stack
// frames small: one frame for all kinds would be cleared for each record.
ghost use Rattle.std.specs.Prelude.{◌≡◌, if◌then◌else◌, Err, option_and_then};
ghost use Rattle.serde_json.specs.View.{view};
ghost use Rattle.serde_json.specs.Find.{as_str};
ghost use Rattle.cpe_rows.specs.Valid.{is_id};
ghost use Rattle.cpe_rows.specs.declared.edit.Edit.TheVariants as edit;
ghost use Rattle.cpe_records.specs.Words.{kind_of, mode_of, truth_of_word};
ghost use Rattle.cpe_records.specs.Gives.{ReadsMember};
ghost use Rattle.cpe_records.specs.Forms.{word_at};
ghost use Rattle.cpe_records.specs.Kinds.{comment_at, statement_id_at, mode_at, description_in, entry_in, remark_in, change_in, deprecation_in, restore_in, statement_in, key_at, check_in, search_in};

use crate::draft::test_at;
use crate::form::{date_at, flag_or_false, text_at, text_of, text_or_empty};
use crate::name::{name_at, successors_at};
use crate::provenance::provenance_or_empty;
use crate::words::{kind_of, mode_of, truth_of};
use crate::{Format, Member, RecordFault};
use cpe_rows::{
    CheckKey, Date, Deprecation, Edit, Entry, Kind, Mode, Provenance, Query, Statement, Text,
    Truth, Wfn, is_id,
};
use serde_json::Value;
use std::alloc::Global;

/// The members of an entry except its name.
#[derive(Debug, Drop)]
struct Description {
    title: Text,
    provenance: Provenance,
}

/// The date and the comment of a change.
#[derive(Debug, Drop)]
struct Remark {
    date: Date,
    comment: Text,
}

/// The members of a deprecation except the name of the entry.
#[derive(Debug, Drop)]
struct DeprecationChange {
    deprecation: Deprecation,
    remark: Remark,
}

fn kind_at(json: &Value) -> Result<Kind, RecordFault>
    ensures { ReadsMember result (word_at kind_of Member.Kind (view json.now)) }
{
    match text_of(json, Member::Kind) {
        Some(text) => kind_of(text).ok_or(RecordFault::Member(Member::Kind)),
        None => Err(RecordFault::Member(Member::Kind)),
    }
}

fn result_at(json: &Value) -> Result<Truth, RecordFault>
    ensures { ReadsMember result (word_at truth_of_word Member.Result (view json.now)) }
{
    match text_of(json, Member::Result) {
        Some(text) => truth_of(text).ok_or(RecordFault::Member(Member::Result)),
        None => Err(RecordFault::Member(Member::Result)),
    }
}

fn comment_at(alloc: Global, json: &Value) -> Result<Text, RecordFault>
    ensures { ReadsMember result (comment_at (view json.now)) }
{
    text_or_empty(alloc, json, Member::Comment, "comment")
}

/// The id of a statement.
#[inline(never)]
pub(crate) fn id_at(alloc: Global, json: &Value) -> Result<Text, RecordFault>
    ensures { ReadsMember result (statement_id_at (view json.now)) }
{
    match text_of(json, Member::Id) {
        Some(text) if is_id(text) => Ok(Text::new(alloc, text)?),
        _ => Err(RecordFault::Member(Member::Id)),
    }
}

fn mode_in(json: &Value) -> Option<Mode>
    ensures { result ≡ option_and_then mode_of (as_str (view json.now)) }
{
    let text = json.as_str()?;
    mode_of(text)
}

fn mode_at(json: &Value) -> Result<Mode, RecordFault>
    ensures { ReadsMember result (mode_at (view json.now)) }
{
    match json.get(Member::Mode.key()) {
        Some(value) => mode_in(value).ok_or(RecordFault::Member(Member::Mode)),
        None => Ok(Mode::Plain),
    }
}

// Returns the fault, and drops the name. The drop has a function of its own: in a caller, the name's eleven values
// would hide other facts from the prover. The function isn't inlined, because the name would then be moved value by
// value.
#[inline(never)]
fn refused<T>(_name: Wfn, fault: RecordFault) -> Result<T, RecordFault>
    ensures { result ≡ Err fault }
{
    Err(fault)
}

#[tactic(auto, unfolding(crate::specs::Kinds::description_in))]
fn description_in(alloc: Global, json: &Value) -> Result<Description, RecordFault>
    ensures { ReadsMember result (description_in (view json.now)) }
{
    let title = text_or_empty(alloc, json, Member::Title, "title")?;
    let provenance = provenance_or_empty(alloc, json.get("provenance"))?;
    Ok(Description { title, provenance })
}

/// An entry.
#[tactic(auto, unfolding(crate::specs::Kinds::entry_in))]
#[inline(never)]
pub(crate) fn entry_in(alloc: Global, format: Format, json: &Value) -> Result<Entry, RecordFault>
    ensures { ReadsMember result (entry_in format (view json.now)) }
{
    let name = name_at(alloc, format, json)?;
    match description_in(alloc, json) {
        Ok(Description { title, provenance }) => Ok(Entry {
            name,
            title,
            provenance,
            deprecation: None,
        }),
        Err(fault) => refused(name, fault),
    }
}

#[tactic(auto, unfolding(crate::specs::Kinds::remark_in))]
fn remark_in(alloc: Global, json: &Value) -> Result<Remark, RecordFault>
    ensures { ReadsMember result (remark_in (view json.now)) }
{
    let date = date_at(json, Member::Date)?;
    let comment = comment_at(alloc, json)?;
    Ok(Remark { date, comment })
}

#[tactic(auto, unfolding(crate::specs::Kinds::change_in))]
fn change_in(alloc: Global, format: Format, json: &Value) -> Result<DeprecationChange, RecordFault>
    ensures { ReadsMember result (change_in format (view json.now)) }
{
    let kind = kind_at(json)?;
    let successors = successors_at(alloc, format, json)?;
    let remark = remark_in(alloc, json)?;
    Ok(DeprecationChange {
        deprecation: Deprecation { kind, successors },
        remark,
    })
}

fn edit_of(name: Wfn, change: DeprecationChange, replaces: bool) -> Edit
    ensures { result
        ≡ (if replaces then edit.Amend else edit.Deprecate) name change.deprecation change.remark.date change.remark.comment }
{
    let DeprecationChange {
        deprecation,
        remark: Remark { date, comment },
    } = change;
    if replaces {
        Edit::Amend {
            name,
            deprecation,
            date,
            comment,
        }
    } else {
        Edit::Deprecate {
            name,
            deprecation,
            date,
            comment,
        }
    }
}

/// An edit that deprecates an entry, or one that replaces its deprecation.
#[tactic(auto, unfolding(crate::specs::Kinds::deprecation_in))]
#[inline(never)]
pub(crate) fn deprecation_in(
    alloc: Global,
    format: Format,
    json: &Value,
    replaces: bool,
) -> Result<Edit, RecordFault>
    ensures { ReadsMember result (deprecation_in (if replaces then edit.Amend else edit.Deprecate) format (view json.now)) }
{
    let name = name_at(alloc, format, json)?;
    match change_in(alloc, format, json) {
        Ok(change) => Ok(edit_of(name, change, replaces)),
        Err(fault) => refused(name, fault),
    }
}

/// An edit that makes an entry active again.
#[tactic(auto, unfolding(crate::specs::Kinds::restore_in))]
#[inline(never)]
pub(crate) fn restore_in(alloc: Global, format: Format, json: &Value) -> Result<Edit, RecordFault>
    ensures { ReadsMember result (restore_in format (view json.now)) }
{
    let name = name_at(alloc, format, json)?;
    match remark_in(alloc, json) {
        Ok(Remark { date, comment }) => Ok(Edit::Restore {
            name,
            date,
            comment,
        }),
        Err(fault) => refused(name, fault),
    }
}

/// A statement.
#[tactic(auto, unfolding(crate::specs::Kinds::statement_in))]
#[inline(never)]
pub(crate) fn statement_in(
    alloc: Global,
    format: Format,
    json: &Value,
) -> Result<Statement, RecordFault>
    ensures { ReadsMember result (statement_in format (view json.now)) }
{
    let id = id_at(alloc, json)?;
    let title = text_or_empty(alloc, json, Member::Title, "title")?;
    let mode = mode_at(json)?;
    let test = test_at(alloc, format, json)?;
    Ok(Statement {
        id,
        title,
        mode,
        test,
    })
}

/// The key of a check: its system, href and id.
#[tactic(auto, unfolding(crate::specs::Kinds::key_at))]
#[inline(never)]
pub(crate) fn key_at(alloc: Global, json: &Value) -> Result<CheckKey, RecordFault>
    ensures { ReadsMember result (key_at (view json.now)) }
{
    let system = text_at(alloc, json, Member::System)?;
    let href = text_at(alloc, json, Member::Href)?;
    let id = text_at(alloc, json, Member::Id)?;
    Ok(CheckKey { system, href, id })
}

/// An edit that keeps the result of a check.
#[tactic(auto, unfolding(crate::specs::Kinds::check_in))]
#[inline(never)]
pub(crate) fn check_in(alloc: Global, json: &Value) -> Result<Edit, RecordFault>
    ensures { ReadsMember result (check_in (view json.now)) }
{
    let key = key_at(alloc, json)?;
    let result = result_at(json)?;
    Ok(Edit::SetCheck { key, result })
}

/// A search for entries.
#[tactic(auto, unfolding(crate::specs::Kinds::search_in))]
#[inline(never)]
pub(crate) fn search_in(alloc: Global, format: Format, json: &Value) -> Result<Query, RecordFault>
    ensures { ReadsMember result (search_in format (view json.now)) }
{
    let name = name_at(alloc, format, json)?;
    match flag_or_false(json, Member::Active, "active") {
        Ok(active_only) => Ok(Query::Search { name, active_only }),
        Err(fault) => refused(name, fault),
    }
}
