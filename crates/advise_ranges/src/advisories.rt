// Items and advisories, edits of them, and answers to questions.
ghost use Rattle.std.specs.Prelude.{◌≡◌, ◌≤◌, ◌+◌, ℕ, List, IfOk, Err, None, filter, length, not, true};
ghost use Rattle.std.specs.List.{list_any};
ghost use Rattle.cpe_rows.specs.Prelude.{covers, first_some, is_lower, is_same, IsLower};
ghost use Rattle.names_in_order.specs.Prelude.{near_count, StepsWithin};
ghost use Rattle.row_weight.specs.Capped.{capped};
ghost use Rattle.row_weight.specs.Gain.{weight_of_first};
ghost use Rattle.advise_ranges.specs.Prelude.{advisory_from, advisory_weight, affects, after_advice, advice_answer, AdviceApplied, bound_bytes, advice_faults, full_advice_by, has_advisory_id, is_any_attribute, is_in_range, is_valid_advisory, is_valid_advice_edit, is_valid_advice_query, IsWeight, advice_looks, no_advice_rows, advice_rows_in, advice_weight as weight_of};

use crate::advised::{Advised, Terms};
use crate::advisory::{Advisory, Bound};
use crate::edit::{AdviceEdit, AdviceFault, AdviceQuery, AdviceReply, AdviceWhich};
use crate::items::Items;
use crate::limits::MOST_ADVISORIES;
use crate::range::is_in_range;
use cpe_rows::{Attribute, List, MOST_ITEMS, MOST_WEIGHT, Memory, Text, Value, Wfn, has_wildcards};
use name_index::Steps;
use row_weight::with_name;
use std::alloc::Global;
use std::marker::Model;
use std::sync::ledger::Ledger;

/// Items and advisories. Contracts see the two lists, in the order in which the rows were added.
#[derive(Drop)]
pub struct Advisories {
    items: Items,
    advised: Advised,
    // The weight of all rows.
    weight: u64,
}

impl Model for Advisories {
    ghost use Rattle.advise_ranges.specs.Rows.{AdviceRows};
    ghost use Rattle.advise_ranges.specs.Kept.{IsWeight, advice_rows_in};

    ghost Value = { AdviceRows };

    ghost view = { λ a. advice_rows_in a.items a.advised };

    ghost invariant = { λ a. IsWeight a.weight (advice_rows_in a.items a.advised) };
}

// ---- weights

fn with_bound(weight: u64, bound: &Option<Bound>) -> u64
    ensures { result ≡ capped (weight + bound_bytes bound.now) }
{
    match bound {
        Some(bound) => weight.saturating_add(bound.version.as_str().len() as u64),
        None => weight,
    }
}

// The given weight plus the weight of an advisory, or the largest number if the sum is larger.
fn with_terms(weight: u64, id: &Text, name: &Wfn, start: &Option<Bound>, end: &Option<Bound>) -> u64
    ensures { result ≡ capped (weight + advisory_weight (record { id = id.now; name = name.now; start = start.now; end = end.now })) }
{
    let named = with_name(weight, name).saturating_add(id.as_str().len() as u64);
    with_bound(with_bound(named, start), end)
}

fn with_advisory(weight: u64, advisory: &Advisory) -> u64
    ensures { result ≡ capped (weight + advisory_weight advisory.now) }
{
    with_terms(
        weight,
        &advisory.id,
        &advisory.name,
        &advisory.start,
        &advisory.end,
    )
}

// ---- faults

// The first of these numbers that exceeds its limit, as a fault.
fn full_by(items: u64, advisories: u64, weight: u64) -> Option<AdviceFault>
    ensures { result ≡ full_advice_by items advisories weight }
{
    if items > MOST_ITEMS as u64 {
        return Some(AdviceFault::Full(AdviceWhich::Items));
    }
    if advisories > MOST_ADVISORIES {
        return Some(AdviceFault::Full(AdviceWhich::Advisories));
    }
    if weight > MOST_WEIGHT {
        return Some(AdviceFault::Full(AdviceWhich::Weight));
    }
    None
}

fn is_any(value: &Value) -> bool
    ensures { result ≡ is_any_attribute value.now }
{
    matches!(value, Value::Any)
}

// The number plus one, or the largest number if there is no larger one.
fn one_more(count: usize) -> u64
    ensures { result ≡ capped (count + 1) }
{
    (count as u64).saturating_add(1)
}

// ---- what is dropped

fn refused_name(name: Wfn, fault: AdviceFault) -> Result<(), AdviceFault>
    ensures { result ≡ Err fault }
{
    drop(name);
    Err(fault)
}

fn refused_advisory(advisory: Advisory, fault: AdviceFault) -> Result<(), AdviceFault>
    ensures { result ≡ Err fault }
{
    drop(advisory);
    Err(fault)
}

// ---- answers

fn is_version_in_range(terms: &Terms, name: &Wfn) -> bool
    ensures { result ≡ is_in_range terms.now.start terms.now.end name.now.version }
{
    is_in_range(&terms.start, &terms.end, name.get(Attribute::Version))
}

// The names whose version is in the range of these terms.
fn in_range(names: List<Wfn>, terms: &Terms) -> List<Wfn>
    ensures { result ≡ filter (λ n. is_in_range terms.now.start terms.now.end n.version) names }
{
    let mut names = names.into_vec();
    names.retain(|name| is_version_in_range(terms, name));
    List::from_vec(names)
}

// The items that an advisory of these terms affects.
fn find_affected<L: Ledger>(
    alloc: Global,
    items: &Items,
    terms: &Terms,
    steps: &mut Steps<L>,
) -> Result<List<Wfn>, Memory>
    requires { IsLower terms.now.name }
    ensures found { IfOk result (λ found. (id : List ℕ) → found ≡ filter (affects (advisory_from (id, terms.now))) items.now) }
    ensures steps { StepsWithin steps.old steps.new (near_count terms.now.name items.now) }
{
    let covered = items.all().covered(alloc, &terms.name, steps)?;
    Ok(in_range(covered, terms))
}

impl Advisories {
    /// No items and no advisories. Allocates: no.
    pub fn new(alloc: Global) -> Advisories
        ensures { result ≡ no_advice_rows }
    {
        Advisories {
            items: Items::new(alloc),
            advised: Advised::new(alloc),
            weight: 0,
        }
    }

    fn item_fault(&self, name: &Wfn, weight: u64) -> Option<AdviceFault>
        requires { weight ≡ capped (weight_of (after_advice self.now (AdviceEdit.Item name.now))) }
        ensures { result ≡ first_some (advice_faults self.now (AdviceEdit.Item name.now)) }
    {
        if has_wildcards(name) {
            return Some(AdviceFault::Wildcards);
        }
        if self.items.all().has(name) {
            return Some(AdviceFault::Exists);
        }
        full_by(
            one_more(self.items.len()),
            self.advised.len() as u64,
            weight,
        )
    }

    fn advisory_fault(&self, advisory: &Advisory, weight: u64) -> Option<AdviceFault>
        requires { weight ≡ capped (weight_of (after_advice self.now (AdviceEdit.Put advisory.now))) }
        ensures { result ≡ first_some (advice_faults self.now (AdviceEdit.Put advisory.now)) }
    {
        if !is_any(advisory.name.get(Attribute::Version)) {
            return Some(AdviceFault::Version);
        }
        if self.advised.has(&advisory.id) {
            return Some(AdviceFault::Exists);
        }
        full_by(
            self.items.len() as u64,
            one_more(self.advised.len()),
            weight,
        )
    }

    fn add_item(&mut self, name: Wfn) -> Result<(), AdviceFault>
        requires { is_lower name ≡ true }
        ensures { AdviceApplied self.old self.new (AdviceEdit.Item name) result }
    {
        cpe_rows::law::names_are_equal();
        let weight = with_name(self.weight, &name);
        match self.item_fault(&name, weight) {
            Some(fault) => refused_name(name, fault),
            None => self.put_item(name, weight),
        }
    }

    // Adds an item without a fault.
    fn put_item(&mut self, name: Wfn, weight: u64) -> Result<(), AdviceFault>
        requires lower { is_lower name ≡ true }
        requires none { first_some (advice_faults self.old (AdviceEdit.Item name)) ≡ None }
        requires weight { weight ≡ capped (weight_of (after_advice self.old (AdviceEdit.Item name))) }
        ensures { AdviceApplied self.old self.new (AdviceEdit.Item name) result }
    {
        cpe_rows::law::names_are_equal();
        self.items.add(name)?;
        self.weight = weight;
        Ok(())
    }

    fn drop_item(&mut self, name: Wfn) -> Result<(), AdviceFault>
        ensures { AdviceApplied self.old self.new (AdviceEdit.DropItem name) result }
    {
        cpe_rows::law::names_are_equal();
        let lost = with_name(0, &name);
        if !self.items.remove(&name) {
            return refused_name(name, AdviceFault::Unknown);
        }
        drop(name);
        self.weight -= lost;
        Ok(())
    }

    fn put_advisory(&mut self, advisory: Advisory) -> Result<(), AdviceFault>
        requires { is_valid_advisory advisory ≡ true }
        ensures { AdviceApplied self.old self.new (AdviceEdit.Put advisory) result }
    {
        cpe_rows::law::names_are_equal();
        let weight = with_advisory(self.weight, &advisory);
        match self.advisory_fault(&advisory, weight) {
            Some(fault) => refused_advisory(advisory, fault),
            None => self.append_advisory(advisory, weight),
        }
    }

    // Adds an advisory without a fault at the end.
    fn append_advisory(&mut self, advisory: Advisory, weight: u64) -> Result<(), AdviceFault>
        requires lower { is_lower advisory.name ≡ true }
        requires none { first_some (advice_faults self.old (AdviceEdit.Put advisory)) ≡ None }
        requires weight { weight ≡ capped (weight_of (after_advice self.old (AdviceEdit.Put advisory))) }
        ensures { AdviceApplied self.old self.new (AdviceEdit.Put advisory) result }
    {
        cpe_rows::law::names_are_equal();
        self.advised.put(advisory)?;
        self.weight = weight;
        Ok(())
    }

    // The weight of the advisory of this id, or 0 if there is none.
    fn weight_of_id(&self, id: &Text) -> u64
        ensures { result ≡ weight_of_first advisory_weight (has_advisory_id id.now) self.now.advisories }
    {
        match self.advised.find(id) {
            Some(terms) => with_terms(0, id, &terms.name, &terms.start, &terms.end),
            None => 0,
        }
    }

    fn drop_advisory(&mut self, id: Text) -> Result<(), AdviceFault>
        ensures { AdviceApplied self.old self.new (AdviceEdit.Drop id) result }
    {
        if !self.advised.has(&id) {
            return Err(AdviceFault::Unknown);
        }
        let lost = self.weight_of_id(&id);
        self.advised.remove(&id);
        self.weight -= lost;
        Ok(())
    }

    /// Makes a valid edit. What it adds is moved. The id of an advisory is also copied once, and its product if the
    /// product has no group yet. It takes no step.
    ///
    /// # Errors
    /// The first fault of the edit in the order of [`AdviceFault`], or that memory ran out. The rows are then
    /// unchanged.
    pub fn apply<L: Ledger>(
        &mut self,
        edit: AdviceEdit,
        steps: &mut Steps<L>,
    ) -> Result<(), AdviceFault>
        requires { is_valid_advice_edit edit ≡ true }
        ensures applied { AdviceApplied self.old self.new edit result }
        ensures counts { steps.new ≡ steps.old }
    {
        let _ = steps;
        match edit {
            AdviceEdit::Item(name) => self.add_item(name),
            AdviceEdit::DropItem(name) => self.drop_item(name),
            AdviceEdit::Put(advisory) => self.put_advisory(advisory),
            AdviceEdit::Drop(id) => self.drop_advisory(id),
        }
    }

    /// The answer to a valid question. The name or id is moved into the answer.
    ///
    /// A step is a look at the name of an item through the index. An answer about an advisory takes at most as many
    /// steps as there are items to whose product the product of its name is near. An answer about a name takes none.
    ///
    /// # Errors
    /// Only that memory ran out.
    pub fn answer<L: Ledger>(
        &self,
        alloc: Global,
        query: AdviceQuery,
        steps: &mut Steps<L>,
    ) -> Result<AdviceReply, Memory>
        requires { is_valid_advice_query query ≡ true }
        ensures answer { IfOk result (λ r. r ≡ advice_answer self.now query) }
        ensures steps { StepsWithin steps.old steps.new (advice_looks self.now query) }
    {
        match query {
            AdviceQuery::Affected(id) => self.affected(alloc, id, steps),
            AdviceQuery::Advisories(name) => self.affecting(alloc, name),
        }
    }

    fn affected<L: Ledger>(
        &self,
        alloc: Global,
        id: Text,
        steps: &mut Steps<L>,
    ) -> Result<AdviceReply, Memory>
        ensures answer { IfOk result (λ r. r ≡ advice_answer self.now (AdviceQuery.Affected id)) }
        ensures steps { StepsWithin steps.old steps.new (advice_looks self.now (AdviceQuery.Affected id)) }
    {
        let rows = match self.advised.find(&id) {
            Some(terms) => Some(find_affected(alloc, &self.items, terms, steps)?),
            None => None,
        };
        Ok(AdviceReply::Affected { id, rows })
    }

    fn affecting(&self, alloc: Global, name: Wfn) -> Result<AdviceReply, Memory>
        requires { is_lower name ≡ true }
        ensures { IfOk result (λ r. r ≡ advice_answer self.now (AdviceQuery.Advisories name)) }
    {
        cpe_rows::law::names_are_equal();
        match self.advised.affecting(alloc, &name) {
            Ok(ids) => Ok(AdviceReply::Advisories { name, ids }),
            Err(memory) => Err(discard(name, memory)),
        }
    }
}

// Drops the name of a question after memory ran out. Under a `?` each of its eleven values would be dropped in place.
fn discard(name: Wfn, memory: Memory) -> Memory {
    drop(name);
    memory
}
