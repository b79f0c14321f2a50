// Names in records.
ghost use Rattle.std.specs.Prelude.{◌≡◌, None, Ok, MatchResult, map, IfOk, is_some};
ghost use Rattle.std.specs.List.{list_all};
ghost use Rattle.serde_json.specs.Find.{as_str};
ghost use Rattle.serde_json.specs.View.{view};
ghost use Rattle.cpe_uri.specs.EitherBinding.{read_any, SaysFault};
ghost use Rattle.cpe_records.specs.Gives.{ReadsMember, all_from};
ghost use Rattle.cpe_records.specs.Forms.{required_member};
ghost use Rattle.cpe_records.specs.Names.{lowered, text_name, object_in, name_of_data, is_written, at_spot, named_in, name_at, successors_at};

use crate::form::{count_on, list_or_empty};
use crate::member::NotName;
use crate::object::object_name;
use crate::{Format, Member, NameSpot, RecordFault};
use cpe_rows::{List, Memory, Wfn};
use cpe_uri::{UriFault, unbind_any};
use serde_json::Value;
use std::alloc::Global;

/// The name that a text is as a URI or a formatted string, as [`unbind_any`] reads it. The contract is shorter than
/// that of [`unbind_any`], so that proofs about callers have only the one fact that they need.
///
/// # Errors
/// The place of the refusal, exactly if the text is no name. Otherwise that memory ran out.
pub fn unbound(alloc: Global, text: &[u8]) -> Result<Wfn, UriFault>
    ensures { MatchResult result (λ name. read_any text.now ≡ Ok name) (λ fault. SaysFault fault (read_any text.now)) }
{
    unbind_any(alloc, text)
}

/// The name with every letter in lower case.
#[tactic(auto, unfolding(crate::specs::Names::lowered))]
pub fn lowered(name: Wfn) -> Wfn
    ensures { result ≡ lowered name }
{
    name.into_lower()
}

// The name, in lower case, that this text is as a URI or a formatted string; or the place of the refusal.
fn text_name(alloc: Global, text: &str) -> Result<Result<Wfn, NotName>, Memory>
    ensures { IfOk result (λ found. found ≡ text_name text.now) }
{
    match unbound(alloc, text.as_bytes()) {
        Ok(name) => Ok(Ok(lowered(name))),
        Err(UriFault::At(place)) => Ok(Err(NotName::At(place))),
        Err(UriFault::Memory) => Err(Memory),
    }
}

fn is_object_name(format: Format, json: &Value) -> bool
    ensures { result ≡ is_some (object_in format (view json.now)) }
{
    match format {
        Format::One => false,
        Format::Two => json.is_object(),
    }
}

/// Whether a value has the form of a name: a text, and in the second format also an object. Allocates: no.
#[tactic(auto, unfolding(crate::specs::Names::is_written))]
fn is_written(format: Format, json: &Value) -> bool
    ensures { result ≡ is_written format (view json.now) }
{
    match json.as_str() {
        Some(_) => true,
        None => is_object_name(format, json),
    }
}

// The name that an object is, if the format allows objects as names.
fn object_in(
    alloc: Global,
    format: Format,
    member: Member,
    json: &Value,
) -> Result<Result<Wfn, NotName>, RecordFault>
    ensures { ReadsMember result (required_member member (object_in format (view json.now))) }
{
    if !is_object_name(format, json) {
        return Err(RecordFault::Member(member));
    }
    Ok(object_name(alloc, json)?)
}

/// The name, in lower case, that a value is. A text is a URI or a formatted string; if it is no name, the result is the
/// place of the refusal. In the second format the value may also be an object. Its members are components of formatted
/// strings, and an absent attribute is ANY. If the object is no name, the result is the first attribute that fails.
///
/// # Errors
/// The fault of the member, exactly if the value has not the form of a name. Otherwise that memory ran out.
pub(crate) fn name_in(
    alloc: Global,
    format: Format,
    member: Member,
    json: &Value,
) -> Result<Result<Wfn, NotName>, RecordFault>
    ensures { ReadsMember result (required_member member (name_of_data format (view json.now))) }
{
    match json.as_str() {
        Some(text) => Ok(text_name(alloc, text)?),
        None => object_in(alloc, format, member, json),
    }
}

/// The name, or the fault with the spot of the name. Allocates: no.
///
/// # Errors
/// The spot with the place of a text or the attribute of an object, exactly if there is no name.
fn at_spot(spot: NameSpot, found: Result<Wfn, NotName>) -> Result<Wfn, RecordFault>
    ensures { result ≡ at_spot spot found }
{
    match found {
        Ok(name) => Ok(name),
        Err(NotName::At(place)) => Err(RecordFault::Name(spot, place)),
        Err(NotName::Attribute(which)) => Err(RecordFault::Attribute(spot, which)),
    }
}

fn named_in(
    alloc: Global,
    format: Format,
    member: Member,
    spot: NameSpot,
    json: &Value,
) -> Result<Wfn, RecordFault>
    ensures { ReadsMember result (named_in format member spot (view json.now)) }
{
    match json.as_str() {
        Some(text) => named_by(alloc, spot, text),
        None => object_named(alloc, format, member, spot, json),
    }
}

// The name, in lower case, that this text is as a URI or a formatted string; or the spot with the place of the refusal.
fn named_by(alloc: Global, spot: NameSpot, text: &str) -> Result<Wfn, RecordFault>
    ensures { ReadsMember result (at_spot spot (text_name text.now)) }
{
    match unbound(alloc, text.as_bytes()) {
        Ok(name) => Ok(lowered(name)),
        Err(UriFault::At(place)) => Err(RecordFault::Name(spot, place)),
        Err(UriFault::Memory) => Err(RecordFault::Memory),
    }
}

// The name of a value that is no text, or the fault. The function has a stack frame of its own, so that texts don't pay
// for clearing it.
#[inline(never)]
fn object_named(
    alloc: Global,
    format: Format,
    member: Member,
    spot: NameSpot,
    json: &Value,
) -> Result<Wfn, RecordFault>
    requires { as_str (view json.now) ≡ None }
    ensures { ReadsMember result (named_in format member spot (view json.now)) }
{
    match object_in(alloc, format, member, json) {
        Ok(found) => at_spot(spot, found),
        Err(fault) => Err(fault),
    }
}

/// The name at the member `name`, in lower case. Its form is tested first: a text, or in the second format an object.
///
/// # Errors
/// The fault of the member, if the value has not the form of a name. Otherwise the reason why the value is no name.
/// Otherwise that memory ran out.
#[tactic(auto, unfolding(crate::specs::Names::name_at))]
#[inline(never)]
pub(crate) fn name_at(alloc: Global, format: Format, json: &Value) -> Result<Wfn, RecordFault>
    ensures { ReadsMember result (name_at format (view json.now)) }
{
    match json.get(Member::Name.key()) {
        Some(value) => named_in(alloc, format, Member::Name, NameSpot::Name, value),
        None => Err(RecordFault::Member(Member::Name)),
    }
}

fn are_written(format: Format, json_list: &[Value]) -> bool
    ensures { result ≡ list_all (is_written format) (map view json_list.now) }
{
    let mut all = true;
    for json in json_list {
        all &= is_written(format, json);
    }
    all
}

fn names_in(alloc: Global, format: Format, json_list: &[Value]) -> Result<List<Wfn>, RecordFault>
    ensures { ReadsMember result (all_from (λ k. named_in format Member.Successors (NameSpot.Successor k)) 1 (map view json_list.now)) }
{
    let mut names = List::with_room(alloc, json_list.len())?;
    let mut k = 1;
    for json in json_list {
        let spot = NameSpot::Successor(k);
        match named_in(alloc, format, Member::Successors, spot, json) {
            Ok(name) => names.push(name)?,
            Err(fault) => return Err(fault),
        }
        k = count_on(k)?;
    }
    Ok(names)
}

/// The names at the member `successors`, in lower case; none if the member is absent. First each item of the array must
/// have the form of a name; then each must be a name.
///
/// # Errors
/// The fault of the member, exactly if it is no array of items that have the form of a name. Otherwise the first item
/// that is no name: its number from 1, with its place or attribute. Otherwise that memory ran out.
#[tactic(auto, unfolding(crate::specs::Names::successors_at))]
pub(crate) fn successors_at(
    alloc: Global,
    format: Format,
    json: &Value,
) -> Result<List<Wfn>, RecordFault>
    ensures { ReadsMember result (successors_at format (view json.now)) }
{
    let items = list_or_empty(json, Member::Successors, "successors")?;
    if !are_written(format, items) {
        return Err(RecordFault::Member(Member::Successors));
    }
    names_in(alloc, format, items)
}
