// Advisories in the order in which they were added.
ghost use Rattle.std.specs.Prelude.{◌≡◌, ◌<◌, ℕ, List, [], ◌∷◌, ◌++◌, IfOk, IfNone, IfSome, IsOk, OnOk, OnErr, false, find, if◌then◌else◌, length, option_map, bytes_eq};
ghost use Rattle.std.specs.List.{flat_map, list_any};
ghost use Rattle.indexmap.specs.IndexMap.{keys, spare};
ghost use Rattle.cpe_rows.specs.cpe_values.declared.value.Value.{Value};
ghost use Rattle.cpe_rows.specs.cpe_values.Same.{same_value};
ghost use Rattle.advise_ranges.specs.Found.{affecting_there, is_beside, own_group, advice_place_in, places_where};
ghost use Rattle.advise_ranges.specs.Groups.{AreAdvisoriesGrouped, group, group_of, is_in_group, is_plain};
ghost use Rattle.cpe_rows.specs.Prelude.{IsLower, without_first};
ghost use Rattle.advise_ranges.specs.Answers.{ids_affecting};
ghost use Rattle.advise_ranges.specs.Kept.{advisory_from, advisories_in, AreLower};
ghost use Rattle.advise_ranges.specs.Affected.{affects};
ghost use Rattle.advise_ranges.specs.Rows.{has_advisory_id};

use crate::advisory::{Advisory, Bound};
use crate::groups::Groups;
use crate::range::is_in_range;
use cpe_relation::covers;
use cpe_rows::{Attribute, List, Memory, Text, Value, Wfn};
use indexmap::IndexMap;
use std::alloc::Global;
use std::marker::Model;

/// All that an advisory has besides its id.
#[derive(Debug, Drop)]
pub(crate) struct Terms {
    pub(crate) name: Wfn,
    pub(crate) start: Option<Bound>,
    pub(crate) end: Option<Bound>,
}

/// Advisories of different ids, in the order in which they were added. Their names are in lower case. Contracts see the
/// list of these advisories.
#[derive(Drop)]
pub(crate) struct Advised {
    alloc: Global,
    by_id: IndexMap<Text, Terms>,
    // The ids of the advisories, by the products of their names. A question about a name tests only the advisories of
    // its product, and those without a plain product.
    groups: Groups,
}

impl Model for Advised {
    ghost use Rattle.std.specs.Prelude.{List};
    ghost use Rattle.advise_ranges.specs.declared.advisory.Advisory.{Advisory};
    ghost use Rattle.advise_ranges.specs.Kept.{advisories_in};
    ghost use Rattle.advise_ranges.specs.Found.{AreLawfulAdvisories};

    ghost Value = { List Advisory };

    ghost view = { λ a. advisories_in a.by_id.entries };

    ghost invariant = { λ a. AreLawfulAdvisories a.by_id.entries a.groups };
}

fn has_id(by_id: &IndexMap<Text, Terms>, id: &Text) -> bool
    ensures { result ≡ list_any (has_advisory_id id.now) (advisories_in by_id.now.entries) }
{
    by_id.contains_key(id)
}

fn find_terms<'a>(by_id: &'a IndexMap<Text, Terms>, id: &Text) -> Option<&'a Terms>
    requires { AreLower by_id.now.entries }
    ensures found { option_map (λ t. advisory_from (id.now, t.now)) result ≡ find (has_advisory_id id.now) (advisories_in by_id.now.entries) }
    ensures lower { IfSome result (λ t. IsLower t.now.name) }
{
    by_id.get(id)
}

fn is_plain(product: &Value) -> bool
    ensures { result ≡ is_plain product.now }
{
    match product {
        Value::Text(text) => !text.has_wildcards(),
        _ => false,
    }
}

// Adds the id of an advisory to the group of its product.
fn push_grouped(
    alloc: Global,
    groups: &mut Groups,
    product: &Value,
    id: &Text,
) -> Result<(), Memory>
    ensures ok { OnOk result ((v : Value) → group groups.new v ≡ (if same_value (group_of product.now) v then group groups.old v ++ id.now ∷ [] else group groups.old v)) }
    ensures err { OnErr result ((v : Value) → group groups.new v ≡ group groups.old v) }
{
    if is_plain(product) {
        groups.push(alloc, product, id)
    } else {
        groups.push(alloc, &Value::Any, id)
    }
}

// Removes the id of an advisory from the group of its product, and drops the rest of the advisory.
fn remove_grouped(alloc: Global, groups: &mut Groups, terms: Terms, id: &Text)
    ensures { (v : Value) → group groups.new v ≡ (if same_value (group_of terms.name.product) v then without_first (bytes_eq id.now) (group groups.old v) else group groups.old v) }
{
    let product = terms.name.get(Attribute::Product);
    if is_plain(product) {
        groups.remove(alloc, product, id);
    } else {
        groups.remove(alloc, &Value::Any, id);
    }
    drop(terms);
}

// Makes room for an advisory, and adds its id to its group. If memory runs out, no group changes.
fn add_to_group(
    alloc: Global,
    by_id: &mut IndexMap<Text, Terms>,
    groups: &mut Groups,
    advisory: &Advisory,
) -> Result<(), Memory>
    ensures entries { by_id.new.entries ≡ by_id.old.entries }
    ensures room { OnOk result (0 < spare by_id.new) }
    ensures ok { OnOk result ((v : Value) → group groups.new v ≡ (if is_in_group v advisory.now then group groups.old v ++ advisory.now.id ∷ [] else group groups.old v)) }
    ensures err { OnErr result ((v : Value) → group groups.new v ≡ group groups.old v) }
{
    by_id.reserve(1)?;
    push_grouped(
        alloc,
        groups,
        advisory.name.get(Attribute::Product),
        &advisory.id,
    )
}

// Adds an advisory at the end. If there is room for it, memory doesn't run out.
fn append_advisory(by_id: &mut IndexMap<Text, Terms>, advisory: Advisory) -> Result<(), Memory>
    requires fresh { list_any (has_advisory_id advisory.id) (advisories_in by_id.old.entries) ≡ false }
    requires lower { IsLower advisory.name }
    requires all { AreLower by_id.old.entries }
    ensures ok { OnOk result (advisories_in by_id.new.entries ≡ advisories_in by_id.old.entries ++ advisory ∷ []) }
    ensures all { AreLower by_id.new.entries }
    ensures room { 0 < spare by_id.old → IsOk result }
{
    let Advisory {
        id,
        name,
        start,
        end,
    } = advisory;
    let terms = Terms { name, start, end };
    by_id.insert(id, terms)?;
    Ok(())
}

fn take_out(by_id: &mut IndexMap<Text, Terms>, id: &Text) -> Option<Terms>
    requires all { AreLower by_id.old.entries }
    ensures found { option_map (λ t. advisory_from (id.now, t)) result ≡ find (has_advisory_id id.now) (advisories_in by_id.old.entries) }
    ensures left { advisories_in by_id.new.entries ≡ without_first (has_advisory_id id.now) (advisories_in by_id.old.entries) }
    ensures unchanged { IfNone result (by_id.new.entries ≡ by_id.old.entries) }
    ensures all { AreLower by_id.new.entries }
{
    by_id.shift_remove(id)
}

// Drops an advisory after memory ran out.
fn discard(advisory: Advisory, memory: Memory) -> Memory {
    drop(advisory);
    memory
}

// Whether an advisory of these terms affects an item of this name.
fn affects(terms: &Terms, item: &Wfn) -> bool
    ensures { (id : List ℕ) → result ≡ affects (advisory_from (id, terms.now)) item.now }
{
    covers(&terms.name, item) && is_in_range(&terms.start, &terms.end, item.get(Attribute::Version))
}

// Appends the id, if an advisory of these terms affects an item of this name.
fn push_affecting(
    alloc: Global,
    id: &Text,
    terms: &Terms,
    name: &Wfn,
    ids: &mut List<Text>,
) -> Result<(), Memory>
    ensures { OnOk result (ids.new ≡ ids.old ++ ids_affecting name.now (advisory_from (id.now, terms.now) ∷ [])) }
{
    if affects(terms, name) {
        ids.push(id.copy(alloc)?)?;
    }
    Ok(())
}

// Appends the place of the advisory of this id, if there is one.
fn push_place(
    by_id: &IndexMap<Text, Terms>,
    id: &Text,
    places: &mut Vec<usize>,
) -> Result<(), Memory>
    ensures { OnOk result (places.new.items ≡ places.old.items ++ advice_place_in (keys by_id.now) id.now) }
{
    if let Some(place) = by_id.get_index_of(id) {
        places.push(place)?;
    }
    Ok(())
}

// Appends the places of the advisories of these ids.
fn push_places(
    by_id: &IndexMap<Text, Terms>,
    ids: &[Text],
    places: &mut Vec<usize>,
) -> Result<(), Memory>
    ensures { OnOk result (places.new.items ≡ places.old.items ++ flat_map (advice_place_in (keys by_id.now)) ids.now) }
{
    for id in ids {
        push_place(by_id, id, places)?;
    }
    Ok(())
}

// Appends the places of the advisories in the own group of a product. Only a plain product has such a group.
fn push_own_places(
    by_id: &IndexMap<Text, Terms>,
    groups: &Groups,
    product: &Value,
    places: &mut Vec<usize>,
) -> Result<(), Memory>
    ensures { OnOk result (places.new.items ≡ places.old.items ++ flat_map (advice_place_in (keys by_id.now)) (own_group groups.now product.now)) }
{
    if is_plain(product) {
        push_places(by_id, groups.of(product), places)
    } else {
        Ok(())
    }
}

// The places, in rising order, of the advisories of this product, if it is plain, and of all advisories without a plain
// product.
fn find_places(
    alloc: Global,
    by_id: &IndexMap<Text, Terms>,
    groups: &Groups,
    product: &Value,
) -> Result<Vec<usize>, Memory>
    requires { AreAdvisoriesGrouped (advisories_in by_id.now.entries) groups.now }
    ensures { IfOk result (λ places. places.items ≡ places_where (is_beside product.now) by_id.now.entries) }
{
    // This call is only for the proof: after a call of any method of the map, its ids are known to be different.
    let _count = by_id.len();
    let mut places = Vec::new(alloc);
    push_places(by_id, groups.of(&Value::Any), &mut places)?;
    push_own_places(by_id, groups, product, &mut places)?;
    places.sort_unstable();
    Ok(places)
}

// Appends the id of the advisory at this place, if it affects an item of this name.
fn push_affecting_at(
    alloc: Global,
    by_id: &IndexMap<Text, Terms>,
    place: usize,
    name: &Wfn,
    ids: &mut List<Text>,
) -> Result<(), Memory>
    ensures { OnOk result (ids.new ≡ ids.old ++ affecting_there name.now by_id.now.entries place) }
{
    match by_id.get_index(place) {
        Some((id, terms)) => push_affecting(alloc, id, terms, name, ids),
        None => Ok(()),
    }
}

// The ids of the advisories at these places that affect an item of this name.
fn find_affecting(
    alloc: Global,
    by_id: &IndexMap<Text, Terms>,
    places: &[usize],
    name: &Wfn,
) -> Result<List<Text>, Memory>
    ensures { IfOk result (λ ids. ids ≡ flat_map (affecting_there name.now by_id.now.entries) places.now) }
{
    let mut ids = List::new(alloc);
    for place in places {
        push_affecting_at(alloc, by_id, *place, name, &mut ids)?;
    }
    Ok(ids)
}

impl Advised {
    /// No advisories. Allocates: no.
    pub(crate) fn new(alloc: Global) -> Advised
        ensures { result ≡ [] }
    {
        Advised {
            alloc,
            by_id: IndexMap::new(alloc),
            groups: Groups::new(alloc),
        }
    }

    /// The number of advisories.
    pub(crate) fn len(&self) -> usize
        ensures { result ≡ length self.now }
    {
        self.by_id.len()
    }

    /// Whether an advisory has this id.
    pub(crate) fn has(&self, id: &Text) -> bool
        ensures { result ≡ list_any (has_advisory_id id.now) self.now }
    {
        has_id(&self.by_id, id)
    }

    /// All that the advisory of this id has besides the id, if there is such an advisory.
    pub(crate) fn find(&self, id: &Text) -> Option<&Terms>
        ensures found { option_map (λ t. advisory_from (id.now, t.now)) result ≡ find (has_advisory_id id.now) self.now }
        ensures lower { IfSome result (λ t. IsLower t.now.name) }
    {
        find_terms(&self.by_id, id)
    }

    /// Adds an advisory of a new id at the end. Its name is in lower case. The advisory is moved. Its id is copied
    /// once, and its product if the product has no group yet.
    ///
    /// # Errors
    /// Only that memory ran out. The advisories are then unchanged.
    pub(crate) fn put(&mut self, advisory: Advisory) -> Result<(), Memory>
        requires fresh { list_any (has_advisory_id advisory.id) self.old ≡ false }
        requires lower { IsLower advisory.name }
        ensures ok { OnOk result (self.new ≡ self.old ++ advisory ∷ []) }
        ensures err { OnErr result (self.new ≡ self.old) }
    {
        match add_to_group(self.alloc, &mut self.by_id, &mut self.groups, &advisory) {
            Ok(()) => {
                if append_advisory(&mut self.by_id, advisory).is_err() {
                    unreachable!();
                }
                Ok(())
            }
            Err(memory) => Err(discard(advisory, memory)),
        }
    }

    /// Removes the advisory of this id, if there is one. Time is proportional to the number of advisories after it, and
    /// of its group.
    pub(crate) fn remove(&mut self, id: &Text)
        ensures { self.new ≡ without_first (has_advisory_id id.now) self.old }
    {
        match take_out(&mut self.by_id, id) {
            Some(terms) => remove_grouped(self.alloc, &mut self.groups, terms, id),
            None => {}
        }
    }

    /// The ids of the advisories that affect an item of this name, in their order. The name is in lower case. It tests
    /// only the advisories of the name's product, and those without a plain product.
    ///
    /// # Errors
    /// Only that memory ran out.
    pub(crate) fn affecting(&self, alloc: Global, name: &Wfn) -> Result<List<Text>, Memory>
        requires { IsLower name.now }
        ensures { IfOk result (λ ids. ids ≡ ids_affecting name.now self.now) }
    {
        cpe_relation::law::cover_laws();
        let product = name.get(Attribute::Product);
        let places = find_places(alloc, &self.by_id, &self.groups, product)?;
        find_affecting(alloc, &self.by_id, &places, name)
    }
}
