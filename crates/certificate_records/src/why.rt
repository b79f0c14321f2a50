// Why a test has its truth. The value is read in two passes: its form at any depth, and its depth.
ghost use Rattle.std.specs.Prelude.{◌≡◌, Ok, IfErr, map, nat_le};
ghost use Rattle.serde_json.specs.View.{view};
ghost use Rattle.cpe_uri.specs.EitherBinding.{read_any};
ghost use Rattle.cpe_records.specs.FirstFault.{all_from};
ghost use Rattle.certificate_records.specs.Gives.{ReadsCertificate, ReadsCertificateBy};
ghost use Rattle.certificate_records.specs.Levels.{levels};
ghost use Rattle.certificate_records.specs.Reading.{certificate_truth, certificate_named, certificate_name, certificate_items_at, names_at, logic_in, pair_in, plain_in, certificate_leaf, some_why, given_of, within_why_limit, why_at};

use crate::CertificateFault;
use certificate_check::Why;
use cpe_records::{array_in, lowered, text_in, truth_of, unbound};
use cpe_rows::{List, MOST_LEVELS, Truth, Wfn};
use cpe_uri::UriFault;
use serde_json::Value;
use std::alloc::Global;

// ---- parts of a certificate

fn truth_at(json: &Value) -> Result<Truth, CertificateFault>
    ensures { ReadsCertificate result (certificate_truth (view json.now)) }
{
    match text_in(json, "truth") {
        Some(text) => truth_of(text).ok_or(CertificateFault::Why),
        None => Err(CertificateFault::Why),
    }
}

fn named(alloc: Global, text: &str) -> Result<Wfn, CertificateFault>
    ensures { ReadsCertificate result (certificate_named (read_any text.now)) }
{
    match unbound(alloc, text.as_bytes()) {
        Ok(name) => Ok(lowered(name)),
        Err(UriFault::At(_)) => Err(CertificateFault::Why),
        Err(UriFault::Memory) => Err(CertificateFault::Memory),
    }
}

fn name_in(alloc: Global, json: &Value) -> Result<Wfn, CertificateFault>
    ensures { ReadsCertificate result (certificate_name (view json.now)) }
{
    match json.as_str() {
        Some(text) => named(alloc, text),
        None => Err(CertificateFault::Why),
    }
}

fn items_at<'v>(json: &'v Value, key: &str) -> Result<&'v [Value], CertificateFault>
    ensures read { ReadsCertificateBy (λ s. map view s.now) result (certificate_items_at key.now (view json.now)) }
    ensures fault { IfErr result (λ e. e ≡ CertificateFault.Why) }
{
    match array_in(json, key) {
        Some(items) => Ok(items),
        None => Err(CertificateFault::Why),
    }
}

fn names_in(alloc: Global, json_list: &[Value]) -> Result<List<Wfn>, CertificateFault>
    ensures { ReadsCertificate result (all_from (λ k. certificate_name) 1 (map view json_list.now)) }
{
    let mut names = List::with_room(alloc, json_list.len())?;
    for json in json_list {
        match name_in(alloc, json) {
            Ok(name) => names.push(name)?,
            Err(fault) => return Err(fault),
        }
    }
    Ok(names)
}

#[tactic(auto, unfolding(crate::specs::Reading::names_at))]
fn names_at(alloc: Global, json: &Value, key: &str) -> Result<List<Wfn>, CertificateFault>
    ensures { ReadsCertificate result (names_at key.now (view json.now)) }
{
    let items = items_at(json, key)?;
    if items.len() == 0 {
        return Err(CertificateFault::Why);
    }
    names_in(alloc, items)
}

// ---- the three cases of an object

#[tactic(auto, unfolding(crate::specs::Reading::logic_in))]
fn logic_in(json: &Value, of: List<Option<Why>>) -> Result<Why, CertificateFault>
    ensures { ReadsCertificate result (logic_in (view json.now) (Ok of)) }
{
    match truth_at(json) {
        Ok(truth) => Ok(Why::Logic { truth, of }),
        Err(fault) => {
            drop(of);
            Err(fault)
        }
    }
}

#[tactic(auto, unfolding(crate::specs::Reading::pair_in))]
fn pair_in(alloc: Global, json: &Value) -> Result<Why, CertificateFault>
    ensures { ReadsCertificate result (pair_in (view json.now)) }
{
    let fact = names_at(alloc, json, "fact")?;
    let item = names_at(alloc, json, "item")?;
    let truth = truth_at(json)?;
    Ok(Why::Pair { truth, fact, item })
}

fn plain_in(json: &Value) -> Result<Why, CertificateFault>
    ensures { ReadsCertificate result (plain_in (view json.now)) }
{
    Ok(Why::Plain(truth_at(json)?))
}

fn leaf_in(alloc: Global, json: &Value) -> Result<Why, CertificateFault>
    ensures { ReadsCertificate result (certificate_leaf (view json.now)) }
{
    if json.get("fact").is_some() || json.get("item").is_some() {
        pair_in(alloc, json)
    } else {
        plain_in(json)
    }
}

fn logic_of(json: &Value, of: List<Option<Why>>) -> Result<Option<Why>, CertificateFault>
    ensures { ReadsCertificate result (some_why (logic_in (view json.now) (Ok of))) }
{
    Ok(Some(logic_in(json, of)?))
}

// What is given for a child, at any depth; `null` gives no certificate.
fn given_of(alloc: Global, json: &Value) -> Result<Option<Why>, CertificateFault>
    ensures { ReadsCertificate result (given_of (view json.now)) }
{
    if json.is_null() {
        return Ok(None);
    }
    if json.get("of").is_none() {
        return Ok(Some(leaf_in(alloc, json)?));
    }
    let Some(items) = array_in(json, "of") else {
        return Err(CertificateFault::Why);
    };
    let mut of = List::with_room(alloc, items.len())?;
    for item in items {
        match given_of(alloc, item) {
            Ok(given) => of.push(given)?,
            Err(fault) => return Err(fault),
        }
    }
    logic_of(json, of)
}

// ---- the whole certificate

// Whether a certificate has at most `limit` levels.
fn is_within(why: &Why, limit: u32) -> bool
    ensures { result ≡ nat_le (levels why.now) limit }
{
    match why {
        Why::Logic { truth: _, of } => {
            if limit == 0 {
                return false;
            }
            let mut within = true;
            for given in of.as_slice() {
                let Some(child) = given else {
                    continue;
                };
                within &= is_within(child, limit - 1);
            }
            within
        }
        Why::Pair { .. } => true,
        Why::Plain(_) => true,
    }
}

fn within_limit(why: Why) -> Result<Why, CertificateFault>
    ensures { ReadsCertificate result (within_why_limit why) }
{
    if is_within(&why, MOST_LEVELS) {
        Ok(why)
    } else {
        Err(CertificateFault::Why)
    }
}

/// The member `why`: why the test of a statement has its truth. It has at most 32 levels.
///
/// # Errors
/// `Why`, exactly if the member is absent or has another form. Otherwise that memory ran out.
#[tactic(auto, unfolding(crate::specs::Reading::why_at))]
pub(crate) fn why_at(alloc: Global, json: &Value) -> Result<Why, CertificateFault>
    ensures { ReadsCertificate result (why_at (view json.now)) }
{
    match json.get("why") {
        Some(value) => match given_of(alloc, value)? {
            Some(why) => within_limit(why),
            None => Err(CertificateFault::Why),
        },
        None => Err(CertificateFault::Why),
    }
}
