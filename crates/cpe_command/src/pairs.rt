// What is written for a line with a source and a target.
ghost use Rattle.std.specs.Prelude.{◌≡◌, ◌≤◌, ◌+◌, ◌*◌, ◌∷◌, ◌++◌, Ok, IfOk, OnOk, codes, drop, length, take, true, flat_map};
ghost use Rattle.cpe_io.specs.Halves.{halves};
ghost use Rattle.line_session.specs.Pages.{AppendsPage};
ghost use Rattle.cpe_fs.specs.cpe_name.Prelude.{attributes, name_lent};
ghost use Rattle.cpe_uri.specs.EitherBinding.{IsUriOrFs, read_any};
ghost use Rattle.cpe_relation.specs.NameRelation.{relation_of};
ghost use Rattle.cpe_command.specs.Pairs.{relation_text, relation_line, to_target, from_source, compared, pair_reason_text};

use byte_room::{put, put_byte};
use cpe_fs::{ATTRIBUTES, Attribute, NameRef, Wfn};
use cpe_io::cut_in_halves;
use cpe_relation::{Relation, Relations, compare_lent};
use cpe_uri::{UriFault, lend_any, unbind_any};
use line_session::{Fill, Page, Reason, Stateless};
use std::alloc::{AllocError, Global};

// The number of bytes of the longest word for a relation, and of the space before it.
const WORD: usize = 10;

/// The command `compare`: each line has a source and a target, each a formatted string or a URI. Their relations are
/// written.
#[derive(Clone, Copy, Debug, PartialEq, Eq)]
pub struct Compare;

/// Why a line with a source and a target is refused.
#[derive(Clone, Copy, Debug, PartialEq, Eq)]
pub enum PairReason {
    /// The line doesn't have exactly one space.
    Pair,
    /// No name has the text before the space. The number is the place of the refusal.
    Source(usize),
    /// A name has the text before the space, but no name has the text after it. The number is the place of the
    /// refusal, counted from the beginning of the text after the space.
    Target(usize),
}

impl Reason for PairReason {
    ghost text = { pair_reason_text };

    fn push(&self, alloc: Global, page: &mut Page) -> Result<(), AllocError> {
        let _ = alloc;
        match self {
            PairReason::Pair => page.push(b"pair"),
            PairReason::Source(place) => page.push_numbered(b"source ", *place as u64),
            PairReason::Target(place) => page.push_numbered(b"target ", *place as u64),
        }
    }
}

impl Stateless for Compare {
    type Reason = PairReason;

    ghost says = { λ _ text. compared (halves text) };

    fn say(
        &self,
        alloc: Global,
        page: &mut Page,
        text: &[u8],
    ) -> Result<Option<PairReason>, AllocError> {
        match cut_in_halves(text) {
            Some((source, target)) => say_from_source(alloc, page, source, target),
            None => Ok(Some(PairReason::Pair)),
        }
    }
}

// Lends the source from the line if that is possible. Otherwise makes it, which takes memory.
fn say_from_source(
    alloc: Global,
    page: &mut Page,
    source: &[u8],
    target: &[u8],
) -> Result<Option<PairReason>, AllocError>
    ensures { IfOk result (AppendsPage (from_source (read_any source.now) (read_any target.now)) page.old page.new) }
{
    match lend_any(source) {
        Ok(Some(source)) => say_to_target(alloc, page, &source, target),
        Ok(None) => say_to_target(alloc, page, &make_name(alloc, source)?.as_ref(), target),
        Err(place) => Ok(Some(PairReason::Source(place))),
    }
}

// Lends the target from the line if that is possible. Otherwise makes it, which takes memory.
fn say_to_target(
    alloc: Global,
    page: &mut Page,
    source: &NameRef,
    target: &[u8],
) -> Result<Option<PairReason>, AllocError>
    ensures { IfOk result (AppendsPage (to_target (name_lent source.now) (read_any target.now)) page.old page.new) }
{
    match lend_any(target) {
        Ok(Some(target)) => push_relations(page, source, &target),
        Ok(None) => push_relations(page, source, &make_name(alloc, target)?.as_ref()),
        Err(place) => Ok(Some(PairReason::Target(place))),
    }
}

// The name that has this text. The caller makes sure that there is one.
fn make_name(alloc: Global, text: &[u8]) -> Result<Wfn, AllocError>
    requires { IsUriOrFs text.now }
    ensures { IfOk result (λ name. read_any text.now ≡ Ok name) }
{
    match unbind_any(alloc, text) {
        Ok(name) => Ok(name),
        Err(UriFault::Memory) => Err(AllocError),
        Err(UriFault::At(_)) => unreachable!(),
    }
}

fn push_relations(
    page: &mut Page,
    source: &NameRef,
    target: &NameRef,
) -> Result<Option<PairReason>, AllocError>
    ensures { IfOk result (AppendsPage (Ok (relation_line (name_lent source.now) (name_lent target.now))) page.old page.new) }
{
    let (whole, each) = compare_lent(source, target);
    page.with_room(&RelationLine { whole, each })
}

// The relation of two names, and the relations of their attributes, in order.
#[derive(Clone, Copy)]
struct RelationLine {
    whole: Relation,
    each: Relations,
}

impl Fill for RelationLine {
    ghost use Rattle.cpe_command.specs.declared.pairs.TheConstants.{WORD};

    type Reason = PairReason;

    ghost text = { λ line. Ok (relation_text line.whole ++ flat_map (λ w. 32 ∷ relation_text (relation_of line.each w)) attributes ++ codes "\n") };

    ghost need = { λ line. WORD * (length attributes + 1) + 1 };

    fn most(&self) -> usize {
        WORD * (ATTRIBUTES.len() + 1) + 1
    }

    fn fill(&self, room: &mut [u8], at: usize) -> Result<usize, PairReason> {
        Ok(put_line(room, at, self.whole, &self.each))
    }
}

fn put_line(room: &mut [u8], at: usize, whole: Relation, each: &Relations) -> usize
    requires { at + WORD * (length attributes + 1) + 1 ≤ length room.old }
    ensures within { result ≤ length room.old }
    ensures length { length room.new ≡ length room.old }
    ensures line { take result room.new ≡ take at room.old ++ (relation_text whole ++ flat_map (λ w. 32 ∷ relation_text (relation_of each.now w)) attributes ++ codes "\n") }
{
    let behind_whole = put(room, at, relation_word(whole));
    let behind_each = put_all(room, behind_whole, each);
    put_byte(room, behind_each, b'\n')
}

// Writes the relations of all eleven attributes into the room, each after a space. If all relations after the version
// are EQUAL, as for most names, one call writes these.
fn put_all(room: &mut [u8], at: usize, relations: &Relations) -> usize
    requires { at + WORD * length attributes ≤ length room.old }
    ensures within { result ≤ at + WORD * length attributes }
    ensures length { length room.new ≡ length room.old }
    ensures words { take result room.new ≡ take at room.old ++ flat_map (λ w. 32 ∷ relation_text (relation_of relations.now w)) attributes }
{
    let behind_early = put_each(room, at, relations, &ATTRIBUTES[..4]);
    if are_equal_late(relations) {
        return put(
            room,
            behind_early,
            b" EQUAL EQUAL EQUAL EQUAL EQUAL EQUAL EQUAL",
        );
    }
    put_each(room, behind_early, relations, &ATTRIBUTES[4..])
}

// True only if each relation after the version is EQUAL.
#[inline(always)]
#[tactic(auto, using(crate::proofs::RelationTexts::equal_late))]
fn are_equal_late(relations: &Relations) -> bool
    ensures { result ≡ true → flat_map (λ w. 32 ∷ relation_text (relation_of relations.now w)) (drop 4 attributes) ≡ codes " EQUAL EQUAL EQUAL EQUAL EQUAL EQUAL EQUAL" }
{
    is_equal(relations.update)
        && is_equal(relations.edition)
        && is_equal(relations.language)
        && is_equal(relations.sw_edition)
        && is_equal(relations.target_sw)
        && is_equal(relations.target_hw)
        && is_equal(relations.other)
}

#[inline(always)]
fn is_equal(relation: Relation) -> bool
    ensures { result ≡ true → relation ≡ Relation.Equal }
{
    matches!(relation, Relation::Equal)
}

// Writes the relations of these attributes into the room, each after a space.
#[inline(always)]
fn put_each(room: &mut [u8], at: usize, relations: &Relations, which: &[Attribute]) -> usize
    requires { at + WORD * length which.now ≤ length room.old }
    ensures within { result ≤ at + WORD * length which.now }
    ensures length { length room.new ≡ length room.old }
    ensures words { take result room.new ≡ take at room.old ++ flat_map (λ w. 32 ∷ relation_text (relation_of relations.now w)) which.now }
{
    let mut end = at;
    for attribute in which {
        end = put_word(room, end, *relations.get(*attribute));
    }
    end
}

// Writes a space and the word of a relation into the room. Each case writes a word of fixed length.
#[inline(always)]
fn put_word(room: &mut [u8], at: usize, relation: Relation) -> usize
    requires { at + WORD ≤ length room.old }
    ensures within { result ≤ at + WORD }
    ensures length { length room.new ≡ length room.old }
    ensures word { take result room.new ≡ take at room.old ++ 32 ∷ relation_text relation }
{
    match relation {
        Relation::Disjoint => put(room, at, b" DISJOINT"),
        Relation::Equal => put(room, at, b" EQUAL"),
        Relation::Subset => put(room, at, b" SUBSET"),
        Relation::Superset => put(room, at, b" SUPERSET"),
        Relation::Undefined => put(room, at, b" UNDEFINED"),
    }
}

// The word of a relation.
fn relation_word(relation: Relation) -> &'static [u8]
    ensures word { result.now ≡ relation_text relation }
    ensures within { length result.now ≤ WORD }
{
    match relation {
        Relation::Disjoint => b"DISJOINT",
        Relation::Equal => b"EQUAL",
        Relation::Subset => b"SUBSET",
        Relation::Superset => b"SUPERSET",
        Relation::Undefined => b"UNDEFINED",
    }
}
