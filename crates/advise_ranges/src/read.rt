// The record of a line.
ghost use Rattle.std.specs.Prelude.{◌≡◌, IfOk, Err, Option, option_map, true};
ghost use Rattle.serde_json.specs.View.{view};
ghost use Rattle.cpe_records.specs.Forms.{text_in};
ghost use Rattle.cpe_records.specs.cpe_uri.EitherBinding.{read_any};
ghost use Rattle.advise_ranges.specs.Gives.{ReadsAdvice};
ghost use Rattle.advise_ranges.specs.Reading.{advice_by, advice_of, advisory_in, bound_of, bounds_in, flag_at, advisory_id_at, advice_key_of, name_at, advice_named, record_kind_at, version_at, version_in, required_advice};
ghost use Rattle.advise_ranges.specs.Valid.{is_valid_advice};

use crate::advisory::{Advisory, Bound};
use crate::edit::{AdviceEdit, AdviceQuery};
use crate::member::{AdviceMember, AdviceReadFault};
use crate::record_kind::{AdviceKind, record_kind_of};
use cpe_records::{UriFault, flag_in, lowered, text_in, unbound, value_of};
use cpe_rows::{Text, Wfn, is_id};
use serde_json::Value;
use std::alloc::Global;

/// The record of a line.
#[derive(Debug, Drop)]
pub enum Advice {
    /// A change of the items or of the advisories.
    Edit(AdviceEdit),
    /// A question about the items and advisories.
    Query(AdviceQuery),
}

/// The bounds of an advisory.
#[derive(Debug, Drop)]
struct Bounds {
    start: Option<Bound>,
    end: Option<Bound>,
}

// ---- members

fn text_of(json: &Value, member: AdviceMember) -> Option<&str>
    ensures { option_map (λ s. s.now) result ≡ text_in (advice_key_of member) (view json.now) }
{
    text_in(json, member.key())
}

fn record_kind_at(json: &Value) -> Result<AdviceKind, AdviceReadFault>
    ensures { ReadsAdvice result (record_kind_at (view json.now)) }
{
    match text_of(json, AdviceMember::Do) {
        Some(text) => record_kind_of(text).ok_or(AdviceReadFault::Member(AdviceMember::Do)),
        None => Err(AdviceReadFault::Member(AdviceMember::Do)),
    }
}

fn id_at(alloc: Global, json: &Value) -> Result<Text, AdviceReadFault>
    ensures { ReadsAdvice result (advisory_id_at (view json.now)) }
{
    match text_of(json, AdviceMember::Id) {
        Some(text) if is_id(text) => Ok(Text::new(alloc, text)?),
        _ => Err(AdviceReadFault::Member(AdviceMember::Id)),
    }
}

fn read_name(alloc: Global, text: &str) -> Result<Wfn, AdviceReadFault>
    ensures { ReadsAdvice result (advice_named (read_any text.now)) }
{
    match unbound(alloc, text.as_bytes()) {
        Ok(name) => Ok(lowered(name)),
        Err(UriFault::At(place)) => Err(AdviceReadFault::Name(place)),
        Err(UriFault::Memory) => Err(AdviceReadFault::Memory),
    }
}

#[tactic(auto, unfolding(crate::specs::Reading::name_at))]
#[inline(never)]
fn name_at(alloc: Global, json: &Value) -> Result<Wfn, AdviceReadFault>
    ensures { ReadsAdvice result (name_at (view json.now)) }
{
    match text_of(json, AdviceMember::Name) {
        Some(text) => read_name(alloc, text),
        None => Err(AdviceReadFault::Member(AdviceMember::Name)),
    }
}

fn version_in(
    alloc: Global,
    member: AdviceMember,
    json: &Value,
) -> Result<Option<Text>, AdviceReadFault>
    ensures { ReadsAdvice result (required_advice member (version_in (view json.now))) }
{
    match json.as_str() {
        Some(text) if is_id(text) => Ok(Some(Text::new(alloc, text)?)),
        _ => Err(AdviceReadFault::Member(member)),
    }
}

fn version_at(
    alloc: Global,
    json: &Value,
    member: AdviceMember,
) -> Result<Option<Text>, AdviceReadFault>
    ensures { ReadsAdvice result (version_at member (view json.now)) }
{
    match json.get(member.key()) {
        Some(value) => version_in(alloc, member, value),
        None => Ok(None),
    }
}

fn flag_at(json: &Value, member: AdviceMember) -> Result<bool, AdviceReadFault>
    ensures { ReadsAdvice result (flag_at member (view json.now)) }
{
    flag_in(json, member.key()).ok_or(AdviceReadFault::Member(member))
}

// ---- kinds

fn bound_of(excluded: bool, version: Option<Text>) -> Option<Bound>
    ensures { result ≡ bound_of excluded version }
{
    match version {
        Some(version) => Some(Bound { version, excluded }),
        None => None,
    }
}

#[tactic(auto, unfolding(crate::specs::Reading::bounds_in))]
#[inline(never)]
fn bounds_in(alloc: Global, json: &Value) -> Result<Bounds, AdviceReadFault>
    ensures { ReadsAdvice result (bounds_in (view json.now)) }
{
    let start = version_at(alloc, json, AdviceMember::Start)?;
    let end = version_at(alloc, json, AdviceMember::End)?;
    let start_excluded = flag_at(json, AdviceMember::StartExcluded)?;
    let end_excluded = flag_at(json, AdviceMember::EndExcluded)?;
    Ok(Bounds {
        start: bound_of(start_excluded, start),
        end: bound_of(end_excluded, end),
    })
}

// The given fault. The name is dropped in this function, because in a longer one its eleven values would hide other
// clauses from the proof.
fn refused<T>(_name: Wfn, fault: AdviceReadFault) -> Result<T, AdviceReadFault>
    ensures { result ≡ Err fault }
{
    Err(fault)
}

#[tactic(auto, unfolding(crate::specs::Reading::advisory_in))]
#[inline(never)]
fn advisory_in(alloc: Global, json: &Value) -> Result<Advisory, AdviceReadFault>
    ensures { ReadsAdvice result (advisory_in (view json.now)) }
{
    let id = id_at(alloc, json)?;
    let name = name_at(alloc, json)?;
    match bounds_in(alloc, json) {
        Ok(Bounds { start, end }) => Ok(Advisory {
            id,
            name,
            start,
            end,
        }),
        Err(fault) => refused(name, fault),
    }
}

fn advice_by(alloc: Global, kind: AdviceKind, json: &Value) -> Result<Advice, AdviceReadFault>
    ensures { ReadsAdvice result (advice_by kind (view json.now)) }
{
    match kind {
        AdviceKind::Item => Ok(Advice::Edit(AdviceEdit::Item(name_at(alloc, json)?))),
        AdviceKind::DropItem => Ok(Advice::Edit(AdviceEdit::DropItem(name_at(alloc, json)?))),
        AdviceKind::Advisory => Ok(Advice::Edit(AdviceEdit::Put(advisory_in(alloc, json)?))),
        AdviceKind::DropAdvisory => Ok(Advice::Edit(AdviceEdit::Drop(id_at(alloc, json)?))),
        AdviceKind::Affected => Ok(Advice::Query(AdviceQuery::Affected(id_at(alloc, json)?))),
        AdviceKind::Advisories => Ok(Advice::Query(AdviceQuery::Advisories(name_at(alloc, json)?))),
    }
}

// The record of a line. Its caller proves that the record is valid.
#[tactic(auto, unfolding(crate::specs::Reading::advice_of))]
fn advice_in(alloc: Global, line: &[u8]) -> Result<Advice, AdviceReadFault>
    ensures { ReadsAdvice result (advice_of line.now) }
{
    let value = value_of(alloc, line)?.ok_or(AdviceReadFault::Json)?;
    let kind = record_kind_at(&value)?;
    advice_by(alloc, kind, &value)
}

/// The record of a line: a JSON value whose member `do` says its kind, with the members of this kind. Its names are in
/// lower case.
///
/// | `do` | Members in order | |---|---| | `item`, `drop-item`, `advisories` | `name` | | `advisory` | `id`; `name`;
/// `start`, else none; `end`, else none; `start-excluded`, else `false`; `end-excluded`, else `false` | |
/// `drop-advisory`, `affected` | `id` |
///
/// An id and a version have 1 to 256 visible characters of ASCII. Members that a kind doesn't know are ignored. If a
/// line has the same member twice, the last one counts. A member that is there must have its form, so `null` is
/// refused.
///
/// # Errors
/// The first fault of the line, exactly if it is no record. `Json`: it is no JSON value. `Member` of `do`: this is no
/// word for a kind. After these, the fault of the first member of its kind that fails. `Memory`: memory ran out.
pub fn read_advice(alloc: Global, line: &[u8]) -> Result<Advice, AdviceReadFault>
    ensures read { ReadsAdvice result (advice_of line.now) }
    // The record is valid.
    ensures valid { IfOk result (λ a. is_valid_advice a ≡ true) }
{
    advice_in(alloc, line)
}
