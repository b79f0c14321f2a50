// The forms of members that are not names.
ghost use Rattle.std.specs.Prelude.{◌≡◌, option_map, option_and_then, IfOk, IfErr, map, ◌+◌, ◌≤◌, ◌^◌};
ghost use Rattle.serde_json.specs.View.{view};
ghost use Rattle.serde_json.specs.Find.{as_str, as_array, get};
ghost use Rattle.cpe_records.specs.Gives.{ReadsMember, ReadsMemberBy};
ghost use Rattle.cpe_records.specs.Forms.{member_at, text_at, text_or_empty, flag_in, flag_or_false, date_at, list_of_items, list_or_empty};

use crate::{Member, RecordFault};
use cpe_rows::{Date, Text};
use serde_json::Value;
use std::alloc::Global;

/// The text at a key, if the value there is a text. Allocates: no.
pub fn text_in<'v>(json: &'v Value, key: &str) -> Option<&'v str>
    ensures { option_map (λ s. s.now) result
        ≡ option_and_then as_str (get key.now (view json.now)) }
{
    json.get(key).and_then(Value::as_str)
}

/// The text of a member, if its value is a text. Allocates: no.
pub(crate) fn text_of(json: &Value, member: Member) -> Option<&str>
    ensures { option_map (λ s. s.now) result
        ≡ option_and_then as_str (member_at member (view json.now)) }
{
    text_in(json, member.key())
}

/// The text of a member.
///
/// # Errors
/// The fault of the member, exactly if it is absent or no text. Otherwise that memory ran out.
pub(crate) fn text_at(alloc: Global, json: &Value, member: Member) -> Result<Text, RecordFault>
    ensures { ReadsMember result (text_at member (view json.now)) }
{
    match text_of(json, member) {
        Some(text) => Ok(Text::new(alloc, text)?),
        None => Err(RecordFault::Member(member)),
    }
}

/// The text at a key, or the empty text if the key is absent.
///
/// # Errors
/// The fault of the member, exactly if the value at the key is no text. Otherwise that memory ran out.
pub(crate) fn text_or_empty(
    alloc: Global,
    json: &Value,
    member: Member,
    key: &str,
) -> Result<Text, RecordFault>
    ensures { ReadsMember result (text_or_empty member key.now (view json.now)) }
{
    match json.get(key) {
        Some(value) => match value.as_str() {
            Some(text) => Ok(Text::new(alloc, text)?),
            None => Err(RecordFault::Member(member)),
        },
        None => Ok(Text::new(alloc, "")?),
    }
}

/// The Boolean at a key, or `false` if the key is absent. There is none if the value is no Boolean. Allocates: no.
pub fn flag_in(json: &Value, key: &str) -> Option<bool>
    ensures { result ≡ flag_in key.now (view json.now) }
{
    match json.get(key) {
        Some(value) => value.as_bool(),
        None => Some(false),
    }
}

/// The Boolean at a key, or `false` if the key is absent. Allocates: no.
///
/// # Errors
/// The fault of the member, exactly if the value at the key is no Boolean.
pub(crate) fn flag_or_false(json: &Value, member: Member, key: &str) -> Result<bool, RecordFault>
    ensures read { ReadsMember result (flag_or_false member key.now (view json.now)) }
    ensures fault { IfErr result (λ e. e ≡ RecordFault.Member member) }
{
    flag_in(json, key).ok_or(RecordFault::Member(member))
}

/// The date at the key `date`. Allocates: no.
///
/// # Errors
/// The fault of the member, exactly if the value at the key is no text that has the form of a date.
pub(crate) fn date_at(json: &Value, member: Member) -> Result<Date, RecordFault>
    ensures read { ReadsMember result (date_at member (view json.now)) }
    ensures fault { IfErr result (λ e. e ≡ RecordFault.Member member) }
{
    match text_in(json, "date") {
        Some(text) => Date::new(text.as_bytes()).ok_or(RecordFault::Member(member)),
        None => Err(RecordFault::Member(member)),
    }
}

/// The items of the array at a key, if the value there is an array. Allocates: no.
#[tactic(auto, using(crate::proofs::Lists::list_of_view))]
pub fn array_in<'v>(json: &'v Value, key: &str) -> Option<&'v [Value]>
    ensures { option_map (λ s. map view s.now) result
        ≡ option_map list_of_items (option_and_then as_array (get key.now (view json.now))) }
{
    match json.get(key) {
        Some(value) => match value.as_array() {
            Some(items) => Some(items.as_slice()),
            None => None,
        },
        None => None,
    }
}

/// The items of the array at a key, or none if the key is absent. Allocates: no.
///
/// # Errors
/// The fault of the member, exactly if the value at the key is no array.
#[tactic(auto, using(crate::proofs::Lists::list_of_view))]
pub(crate) fn list_or_empty<'v>(
    json: &'v Value,
    member: Member,
    key: &str,
) -> Result<&'v [Value], RecordFault>
    ensures read { ReadsMemberBy (λ s. map view s.now) result (list_or_empty member key.now (view json.now)) }
    ensures fault { IfErr result (λ e. e ≡ RecordFault.Member member) }
{
    match json.get(key) {
        Some(value) => match value.as_array() {
            Some(items) => Ok(items.as_slice()),
            None => Err(RecordFault::Member(member)),
        },
        None => Ok(&[]),
    }
}

/// The next number of a count. Allocates: no.
///
/// # Errors
/// That memory ran out, exactly if the count would be more than 2^32 - 1. No memory has as many things.
pub(crate) fn count_on(k: u32) -> Result<u32, RecordFault>
    ensures ok { IfOk result (λ n. n ≡ k + 1) }
    ensures err { IfErr result (λ e. (e ≡ RecordFault.Memory) × (2 ^ 32 ≤ k + 1)) }
{
    k.checked_add(1).ok_or(RecordFault::Memory)
}
