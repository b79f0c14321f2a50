// How two names are related.
ghost use Rattle.std.specs.Prelude.{◌≡◌, IfOk, Ok};
ghost use Rattle.cpe_rows.specs.cpe_name.Prelude.{name_lent, Values};
ghost use Rattle.cpe_relation.specs.NameRelation.{covers, is_above};
ghost use Rattle.cpe_uri.specs.EitherBinding.{IsUriOrFs, read_any};
ghost use Rattle.c_library.specs.CallResults.{ReturnsCode};
ghost use Rattle.c_library.specs.Compared.{AreRelations, IsCompared};
ghost use Rattle.c_library.specs.Pairs.{Covers, IsRelated, numbered_relations, relation_rank};

use crate::call_result::{Answer, CallResult};
use cpe_relation::{Relation, Relations, compare_lent};
use cpe_rows::{NameRef, Wfn};
use cpe_uri::{UriFault, lend_any, unbind_any};
use std::alloc::{AllocError, Global};

/// The relation of two names, and the relations of their attributes, as numbers (NIST IR 7696, 6). The number 0 is
/// DISJOINT, 1 is EQUAL, 2 is SUBSET, 3 is SUPERSET, and 4 is UNDEFINED.
#[repr(C)]
#[derive(Clone, Copy)]
pub struct RelationNumbers {
    pub whole: u8,
    pub part: u8,
    pub vendor: u8,
    pub product: u8,
    pub version: u8,
    pub update: u8,
    pub edition: u8,
    pub language: u8,
    pub sw_edition: u8,
    pub target_sw: u8,
    pub target_hw: u8,
    pub other: u8,
}

// The relation of the names of two texts, and the relations of their attributes.
#[derive(Clone, Copy)]
pub(crate) struct Compared {
    pub(crate) whole: Relation,
    pub(crate) each: Relations,
}

/// Writes the relations of two names into `numbers` (NIST IR 7696, 6). Each text is a formatted string or a URI. If
/// no name has a text, the number of the result is the place of the refusal. After any code except 0, `numbers` is
/// unchanged.
#[unsafe(no_mangle)]
pub extern "C" fn cpe_c_relate(
    alloc: Global,
    source: &[u8],
    target: &[u8],
    numbers: &mut RelationNumbers,
) -> Answer
    ensures { ReturnsCode (IsRelated (read_any source.now) (read_any target.now) numbers.old numbers.new) result }
{
    relate(alloc, source, target, numbers).in_c()
}

/// The number 1 if the first name covers the second, and the number 0 if it doesn't (NIST IR 7696, 6). Each text is a
/// formatted string or a URI. If no name has a text, the number is the place of the refusal.
#[unsafe(no_mangle)]
pub extern "C" fn cpe_c_covers(alloc: Global, source: &[u8], target: &[u8]) -> Answer
    ensures { ReturnsCode (Covers (read_any source.now) (read_any target.now)) result }
{
    return_covers(alloc, source, target).in_c()
}

// Writes the relations of two names into `numbers` (NIST IR 7696, 6). Each text is a formatted string or a URI. If
// no name has a text, the number of the result is the place of the refusal. Then `numbers` is unchanged, and also if
// memory runs out.
fn relate(alloc: Global, source: &[u8], target: &[u8], numbers: &mut RelationNumbers) -> CallResult
    ensures { IsRelated (read_any source.now) (read_any target.now) numbers.old numbers.new result }
{
    match compare_texts(alloc, source, target) {
        Ok(compared) => {
            *numbers = numbers_of(&compared);
            CallResult::Done(0)
        }
        Err(call_result) => call_result,
    }
}

// The number 1 if the first name covers the second, and the number 0 if it doesn't (NIST IR 7696, 6). If no name has
// a text, the number of the result is the place of the refusal.
fn return_covers(alloc: Global, source: &[u8], target: &[u8]) -> CallResult
    ensures { Covers (read_any source.now) (read_any target.now) result }
{
    match compare_texts(alloc, source, target) {
        Ok(compared) => CallResult::Done(usize::from(returns_covers(&compared))),
        Err(call_result) => call_result,
    }
}

// Lends the source from its text if that is possible. Otherwise makes it, which takes memory.
fn compare_texts(alloc: Global, source: &[u8], target: &[u8]) -> Result<Compared, CallResult>
    ensures { IsCompared (read_any source.now) (read_any target.now) result }
{
    match lend_any(source) {
        Ok(Some(source)) => compare_to(alloc, &source, target),
        Ok(None) => compare_made(alloc, source, target),
        Err(place) => Err(CallResult::Refused(place)),
    }
}

// Makes the source, and compares it with the target.
fn compare_made(alloc: Global, source: &[u8], target: &[u8]) -> Result<Compared, CallResult>
    requires { IsUriOrFs source.now }
    ensures { IsCompared (read_any source.now) (read_any target.now) result }
{
    match make_name(alloc, source) {
        Ok(source) => {
            let compared = compare_to(alloc, &source.as_ref(), target);
            drop(source);
            compared
        }
        Err(_) => Err(CallResult::Memory),
    }
}

// Lends the target from its text if that is possible. Otherwise makes it, which takes memory.
fn compare_to(alloc: Global, source: &NameRef, target: &[u8]) -> Result<Compared, CallResult>
    ensures { IsCompared (Ok (name_lent source.now)) (read_any target.now) result }
{
    match lend_any(target) {
        Ok(Some(target)) => Ok(compare(source, &target)),
        Ok(None) => compare_to_made(alloc, source, target),
        Err(place) => Err(CallResult::TargetRefused(place)),
    }
}

// Makes the target, and compares the source with it.
fn compare_to_made(alloc: Global, source: &NameRef, target: &[u8]) -> Result<Compared, CallResult>
    requires { IsUriOrFs target.now }
    ensures { IsCompared (Ok (name_lent source.now)) (read_any target.now) result }
{
    match make_name(alloc, target) {
        Ok(target) => {
            let compared = compare(source, &target.as_ref());
            drop(target);
            Ok(compared)
        }
        Err(_) => Err(CallResult::Memory),
    }
}

// The name that has this text. The caller makes sure that there is one.
fn make_name(alloc: Global, text: &[u8]) -> Result<Wfn, AllocError>
    requires { IsUriOrFs text.now }
    ensures { IfOk result (λ name. read_any text.now ≡ Ok name) }
{
    match unbind_any(alloc, text) {
        Ok(name) => Ok(name),
        Err(UriFault::Memory) => Err(AllocError),
        Err(UriFault::At(_)) => unreachable!(),
    }
}

fn compare(source: &NameRef, target: &NameRef) -> Compared
    ensures { AreRelations (name_lent source.now) (name_lent target.now) result }
{
    let (whole, each) = compare_lent(source, target);
    Compared { whole, each }
}

// Whether the source covers the target, by the relation of the two names.
fn returns_covers(compared: &Compared) -> bool
    ensures { (a b : Values) → AreRelations a b compared.now → result ≡ covers a b }
{
    cpe_relation::law::cover_laws();
    is_above(compared.whole)
}

fn is_above(whole: Relation) -> bool
    ensures { result ≡ is_above whole }
{
    matches!(whole, Relation::Equal | Relation::Superset)
}

fn numbers_of(compared: &Compared) -> RelationNumbers
    ensures { (a b : Values) → AreRelations a b compared.now → result ≡ numbered_relations a b }
{
    let each = compared.each;
    RelationNumbers {
        whole: rank(compared.whole),
        part: rank(each.part),
        vendor: rank(each.vendor),
        product: rank(each.product),
        version: rank(each.version),
        update: rank(each.update),
        edition: rank(each.edition),
        language: rank(each.language),
        sw_edition: rank(each.sw_edition),
        target_sw: rank(each.target_sw),
        target_hw: rank(each.target_hw),
        other: rank(each.other),
    }
}

fn rank(relation: Relation) -> u8
    ensures { result ≡ relation_rank relation }
{
    relation as u8
}
