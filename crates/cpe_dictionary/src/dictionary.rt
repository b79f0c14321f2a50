// The entries of a dictionary.
ghost use Rattle.std.specs.Prelude.{◌≡◌, ◌+◌, ◌∷◌, [], ◌<◌, ◌≤◌, IfOk, IfErr, OnOk, None, Some, filter, find, length, map, nat_lt, not, option_and_then, option_map, position, slice_get, true, false, option_copied};
ghost use Rattle.std.specs.List.{list_any};
ghost use Rattle.cpe_rows.specs.Prelude.{chain as chain_of, ends, is_active, is_named, IsCause, IsDictionary, most, row_of, rows_found as found, state_of};
ghost use Rattle.deprecation_graph.specs.Faults.{change_fault};
ghost use Rattle.deprecation_graph.specs.Graph.{IsChange};
ghost use Rattle.cpe_dictionary.specs.Numbers.{entries_at, nodes_of_entries};
ghost use Rattle.cpe_dictionary.specs.Causes.{named_fault};
ghost use Rattle.cpe_dictionary.specs.names_in_order.Prelude.{IsLower, near_count, StepsWithin};
ghost use Rattle.cpe_dictionary.specs.Kept.{IsDictionaryGraph, names_of_entries};

use crate::at_numbers::{active_names_at, rows_at};
use crate::by_number::answers_by_number;
use crate::entries::Entries;
use cpe_rows::{
    BoxedName, Deprecation, EditFault, Entry, List, MOST_ENTRIES, Memory, Note, Row, State, Wfn,
    Which,
};
use deprecation_graph::{DeprecationGraph, GraphFault};
use name_index::Steps;
use std::alloc::Global;
use std::marker::Model;
use std::sync::ledger::Ledger;

/// The entries of a dictionary, read with the table of their names. [`KeptDictionary::with`] returns it. Contracts see
/// the list of the entries in their order.
///
/// An entry is found by the hash of its name, by its number or by its product. Its number is its place in the order,
/// from 0. Deprecations are also stored as a graph: node k of the graph is entry k.
#[derive(Drop)]
pub struct Dictionary<'t> {
    alloc: Global,
    pub(crate) entries: Entries<'t>,
    pub(crate) graph: &'t DeprecationGraph,
}

impl<'t> Model for Dictionary<'t> {
    ghost use Rattle.std.specs.Prelude.{List};
    ghost use Rattle.cpe_rows.specs.declared.entry.Entry.{Entry};
    ghost use Rattle.cpe_dictionary.specs.Kept.{IsDictionaryGraph};

    ghost Value = { List Entry };

    ghost view = { λ d. d.entries };

    ghost invariant = { λ d. IsDictionaryGraph d.entries d.graph.now.nodes };
}

impl<'t> Dictionary<'t> {
    /// A dictionary of these entries. Node k of the graph has to be entry k.
    pub(crate) fn new(
        alloc: Global,
        entries: Entries<'t>,
        graph: &'t DeprecationGraph,
    ) -> Dictionary<'t>
        requires { IsDictionaryGraph entries graph.now.nodes }
        ensures { result ≡ entries.entry }
    {
        Dictionary {
            alloc,
            entries,
            graph,
        }
    }
}

impl Dictionary<'_> {
    /// The allocator.
    pub(crate) fn memory(&self) -> Global {
        self.alloc
    }

    /// Law: the entries of each dictionary are lawful, and within their limit.
    pub fn lawful(&self)
        ensures lawful { IsDictionary self.now }
        ensures few { length self.now ≤ most Which.Entries }
    {
        let _entries = &self.entries;
    }

    /// Whether a further entry would exceed the limit.
    pub(crate) fn is_full(&self) -> bool
        ensures { result ≡ nat_lt (most Which.Entries) (length self.now + 1) }
    {
        self.entries.len() >= MOST_ENTRIES
    }

    /// Whether an entry has this name.
    pub fn has(&self, name: &Wfn) -> bool
        ensures { result ≡ list_any (is_named name.now) self.now }
    {
        self.entries.has(name)
    }

    /// The number of the entry of this name: its place, from 0.
    pub fn number_of(&self, name: &Wfn) -> Option<u32>
        ensures { result ≡ position (is_named name.now) self.now }
    {
        match self.entries.place_of(name) {
            Some(place) => Some(place as u32),
            None => None,
        }
    }

    /// Whether the entry of this number is active.
    pub fn is_active(&self, number: u32) -> bool
        requires { number < length self.now }
        ensures { option_map is_active (slice_get self.now number) ≡ Some result }
    {
        self.entries.is_active(number as usize)
    }

    /// The state of the entry of this name: active, or deprecated by a kind.
    pub fn state_of(&self, name: &Wfn) -> Option<State>
        ensures { result ≡ option_map state_of (find (is_named name.now) self.now) }
    {
        self.entries.state_of(name)
    }

    /// The deprecation of the entry of this number, if it has one.
    pub fn deprecation_at(&self, number: u32) -> Option<&Deprecation>
        ensures { option_copied result ≡ option_and_then (λ e. e.deprecation) (slice_get self.now number) }
    {
        self.entries.deprecation_at(number as usize)
    }

    /// The number of entries.
    pub fn len(&self) -> usize
        ensures { result ≡ length self.now }
    {
        self.entries.len()
    }

    /// The number of deprecated entries. The function reads all entries.
    pub fn count_deprecated(&self) -> usize
        ensures { result ≡ length (filter (λ e. not (is_active e)) self.now) }
    {
        self.entries.count_deprecated()
    }

    /// A copy of the entry of this name, if there is one.
    ///
    /// # Errors
    /// [`Memory`] if memory runs out.
    pub fn entry_of(&self, alloc: Global, name: &Wfn) -> Result<Option<Entry>, Memory>
        ensures { IfOk result (λ e. e ≡ find (is_named name.now) self.now) }
    {
        self.entries.entry_of(alloc, name)
    }

    /// The entries that a name in lower case covers, in order; if `active_only` is true, only the active entries. A
    /// step is a look at the name of an entry. Each entry whose product is near the product of the given name is looked
    /// at at most once. No other entry is looked at.
    ///
    /// # Errors
    /// [`Memory`] if memory runs out. The number of steps is bounded in this case too.
    pub fn rows_found<L: Ledger>(
        &self,
        alloc: Global,
        asked: &Wfn,
        active_only: bool,
        steps: &mut Steps<L>,
    ) -> Result<List<Row>, Memory>
        requires { IsLower asked.now }
        ensures rows { IfOk result (λ rs. rs ≡ found asked.now active_only self.now) }
        ensures steps { StepsWithin steps.old steps.new (near_count asked.now (names_of_entries self.now)) }
    {
        self.entries.rows_found(alloc, asked, active_only, steps)
    }

    /// The entries of the chain of a name, and the ends of the name. The function searches only the chain.
    ///
    /// # Errors
    /// [`Memory`] if memory runs out.
    pub fn chain(&self, alloc: Global, name: &Wfn) -> Result<(List<Row>, List<Wfn>), Memory>
        ensures links { IfOk result (λ r. r.0 ≡ map row_of (chain_of self.now name.now)) }
        ensures ends { IfOk result (λ r. r.1 ≡ ends self.now name.now) }
    {
        cpe_rows::law::absent_names_are_alone();
        match self.number_of(name) {
            Some(number) => self.chain_at(alloc, name, number),
            None => chain_of_none(alloc, name),
        }
    }

    // The entries of the chain of an entry, and its ends. The entry is given by its name and its number.
    fn chain_at(
        &self,
        alloc: Global,
        name: &Wfn,
        number: u32,
    ) -> Result<(List<Row>, List<Wfn>), Memory>
        requires { position (is_named name.now) self.now ≡ Some number }
        ensures links { IfOk result (λ r. r.0 ≡ map row_of (chain_of self.now name.now)) }
        ensures ends { IfOk result (λ r. r.1 ≡ ends self.now name.now) }
    {
        answers_by_number();
        let Ok(chain) = self.graph.chain(alloc, number) else {
            return Err(Memory);
        };
        Ok((
            rows_at(alloc, &self.entries, &chain)?,
            active_names_at(alloc, &self.entries, &chain)?,
        ))
    }

    /// The numbers of the entries of the chain of a name, in increasing order; none if no entry has the name. The
    /// function searches only the chain.
    ///
    /// # Errors
    /// [`Memory`] if memory runs out.
    pub(crate) fn chain_numbers(&self, alloc: Global, name: &Wfn) -> Result<Vec<u32>, Memory>
        ensures { IfOk result (λ numbers. entries_at self.now numbers.items ≡ chain_of self.now name.now) }
    {
        cpe_rows::law::absent_names_are_alone();
        answers_by_number();
        match self.number_of(name) {
            Some(number) => match self.graph.chain(alloc, number) {
                Ok(chain) => Ok(chain),
                Err(_) => Err(Memory),
            },
            None => Ok(Vec::new(alloc)),
        }
    }

    /// The name of the entry of this number.
    pub fn name_at(&self, number: u32) -> Option<&Wfn>
        ensures { option_copied result ≡ option_map (λ e. e.name) (slice_get self.now number) }
    {
        self.entries.name_at(number as usize)
    }

    /// Whether the entry of a number may be deprecated with these successors, or become active if `next` is `None`.
    ///
    /// # Errors
    /// The fault that a successor leads back to the entry, or that an entry would have too many ends.
    /// [`EditFault::Memory`] if memory runs out.
    pub(crate) fn check(&self, number: u32, next: Option<&[u32]>) -> Result<(), EditFault>
        requires { IsChange (nodes_of_entries self.now) number (option_copied next) }
        ensures ok { OnOk result (change_fault (nodes_of_entries self.now) number (option_copied next.entry) ≡ None) }
        ensures err { IfErr result (λ f. IsCause f (option_and_then (named_fault self.now) (change_fault (nodes_of_entries self.now) number (option_copied next.entry)))) }
    {
        match self.graph.check(self.alloc, number, next) {
            Ok(()) => Ok(()),
            Err(GraphFault::Cycle(place)) => Err(EditFault::Cycle(place)),
            Err(GraphFault::TooWide(wide)) => Err(self.too_wide(wide)),
            Err(GraphFault::Memory) => Err(EditFault::Memory),
        }
    }

    // The fault that the entry of this number would have too many ends. It has the name of the entry.
    fn too_wide(&self, number: u32) -> EditFault
        requires { number < length self.now }
        ensures { IsCause result (option_map (λ e. EditFault.TooWide e.name) (slice_get self.now number)) }
    {
        match self.entries.name_at(number as usize) {
            Some(name) => match boxed_copy(self.alloc, name) {
                Ok(name) => EditFault::TooWide(name),
                Err(_) => EditFault::Memory,
            },
            None => unreachable!(),
        }
    }
}

// A copy of a name in a box.
fn boxed_copy(alloc: Global, name: &Wfn) -> Result<BoxedName, Memory>
    ensures { IfOk result (λ b. b ≡ name.now) }
{
    BoxedName::new(alloc, name.copy(alloc)?)
}

// The chain and the ends of a name without an entry: no chain, and the name as its own end.
fn chain_of_none(alloc: Global, name: &Wfn) -> Result<(List<Row>, List<Wfn>), Memory>
    ensures links { IfOk result (λ r. r.0 ≡ []) }
    ensures ends { IfOk result (λ r. r.1 ≡ name.now ∷ []) }
{
    let mut ends = List::new(alloc);
    ends.push(name.copy(alloc)?)?;
    Ok((List::new(alloc), ends))
}
