// Giving all entries their deprecations in one call.
ghost use Rattle.std.specs.Prelude.{◌≡◌, ◌∷◌, [], ◌++◌, ◌≤◌, IfErr, IfOk, None, OnErr, OnOk, Some, if◌then◌else◌, is_none, length, map, nat_eq, true};
ghost use Rattle.std.specs.List.{list_all};
ghost use Rattle.cpe_rows.specs.Faults.{repeated_from};
ghost use Rattle.cpe_rows.specs.Prelude.{IsDictionary};
ghost use Rattle.cpe_rows.specs.declared.limits.TheConstants.{MOST_SUCCESSORS};
ghost use Rattle.cpe_dictionary.specs.Given.{are_entries, each_deprecated, may_have_deprecation};
ghost use Rattle.cpe_dictionary.specs.Kept.{entries_in, FitsTable, IsDictionaryGraph};
ghost use Rattle.cpe_dictionary.specs.Numbers.{numbers_of};
ghost use Rattle.cpe_dictionary.specs.Plans.{numbered_successors};

use crate::by_number::{chains_by_number, edits_by_number, entries_are_numbered, faults_by_number};
use crate::dictionary::Dictionary;
use crate::store::KeptDictionary;
use crate::successors::{find_repeated, is_count};
use cpe_rows::{Deprecation, List, Memory, Wfn};
use deprecation_graph::{DeprecationGraph, FillFault, fill};
use name_index::NameTable;
use std::alloc::Global;

// The numbers of the entries that have these names, or `None` if some name has no entry.
fn entry_numbers(
    alloc: Global,
    dictionary: &Dictionary,
    names: &[Wfn],
) -> Result<Option<List<u32>>, Memory>
    ensures { IfOk result (λ o. o ≡ (if are_entries dictionary.now names.now then Some (numbers_of dictionary.now names.now) else None)) }
{
    let mut numbers = List::with_room(alloc, names.len())?;
    for name in names {
        match dictionary.number_of(name) {
            Some(number) => numbers.push(number)?,
            None => return Ok(None),
        }
    }
    Ok(Some(numbers))
}

// The numbers of the successors of a deprecation, or `None` if no entry may have this deprecation.
fn successor_numbers(
    alloc: Global,
    dictionary: &Dictionary,
    deprecation: &Deprecation,
) -> Result<Option<List<u32>>, Memory>
    ensures { IfOk result (λ o. o ≡ (if may_have_deprecation dictionary.now (Some deprecation.now) then Some (numbers_of dictionary.now deprecation.now.successors) else None)) }
{
    edits_by_number();
    faults_by_number();
    let names = deprecation.successors.as_slice();
    if !is_count(deprecation.kind, names.len()) {
        return Ok(None);
    }
    match entry_numbers(alloc, dictionary, names)? {
        Some(numbers) => Ok(if_different(numbers)),
        None => Ok(None),
    }
}

// The numbers, or `None` if one of them is repeated.
fn if_different(numbers: List<u32>) -> Option<List<u32>>
    requires { length numbers ≤ MOST_SUCCESSORS }
    ensures { result ≡ (if is_none (repeated_from nat_eq [] 1 numbers) then Some numbers else None) }
{
    match find_repeated(numbers.as_slice()) {
        Some(_) => None,
        None => Some(numbers),
    }
}

// Whether an entry may have this deprecation. If so, the numbers of its successors are added to `all` as the last
// element. The element is `None` if there is no deprecation.
fn push_numbers(
    alloc: Global,
    dictionary: &Dictionary,
    deprecation: &Option<Deprecation>,
    all: &mut List<Option<List<u32>>>,
) -> Result<bool, Memory>
    ensures may { IfOk result (λ may. may ≡ may_have_deprecation dictionary.now deprecation.now) }
    ensures numbers { IfOk result (λ may. may ≡ true → all.new ≡ all.old ++ numbered_successors dictionary.now deprecation.now ∷ []) }
{
    match deprecation {
        Some(deprecation) => match successor_numbers(alloc, dictionary, deprecation)? {
            Some(numbers) => {
                all.push(Some(numbers))?;
                Ok(true)
            }
            None => Ok(false),
        },
        None => {
            all.push(None)?;
            Ok(true)
        }
    }
}

// For each deprecation the numbers of its successors, or `None` if an entry may not have one of the deprecations.
fn number_all(
    alloc: Global,
    dictionary: &Dictionary,
    deprecations: &[Option<Deprecation>],
) -> Result<Option<List<Option<List<u32>>>>, Memory>
    ensures { IfOk result (λ o. o ≡ (if list_all (may_have_deprecation dictionary.now) deprecations.now then Some (map (numbered_successors dictionary.now) deprecations.now) else None)) }
{
    let mut all = List::with_room(alloc, deprecations.len())?;
    for deprecation in deprecations {
        let may = push_numbers(alloc, dictionary, deprecation, &mut all)?;
        if !may {
            return Ok(None);
        }
    }
    Ok(Some(all))
}

impl Dictionary<'_> {
    /// The graph of the entries after each entry gets the deprecation at its place, or none.
    ///
    /// # Errors
    /// [`FillFault::Unlawful`] if the entries would not be a lawful dictionary. [`FillFault::Memory`] if memory runs
    /// out.
    pub(crate) fn graph_given(
        &self,
        deprecations: &[Option<Deprecation>],
    ) -> Result<DeprecationGraph, FillFault>
        requires { length deprecations.now ≡ length self.now }
        ensures kept { IfOk result (λ g. IsDictionaryGraph (each_deprecated self.now deprecations.now) g.nodes) }
        ensures unlawful { IfErr result (λ f. f ≡ FillFault.Unlawful → IsDictionary (each_deprecated self.now deprecations.now) → ⊥) }
    {
        cpe_rows::law::names_are_equal();
        deprecation_graph::law::chains_are_paths();
        chains_by_number();
        edits_by_number();
        entries_are_numbered();
        faults_by_number();
        self.lawful();
        match number_all(self.memory(), self, deprecations) {
            Ok(Some(numbers)) => match fill(self.memory(), numbers.as_slice()) {
                Ok(graph) => Ok(graph),
                Err(fault) => Err(fault),
            },
            Ok(None) => Err(FillFault::Unlawful),
            Err(_) => Err(FillFault::Memory),
        }
    }
}

impl KeptDictionary {
    /// Gives each entry the deprecation at its place, or none, instead of its old one. Notes are unchanged. All
    /// deprecations are given in one call: given one by one, a lawful whole could have unlawful states in between. The
    /// cost is proportional to the entries and their successors.
    /// # Errors
    /// [`FillFault::Unlawful`] if the entries would not be a lawful dictionary. [`FillFault::Memory`] if memory runs
    /// out. The dictionary is then unchanged.
    pub fn deprecate_all(
        &mut self,
        table: &NameTable,
        deprecations: List<Option<Deprecation>>,
    ) -> Result<(), FillFault>
        requires fits { FitsTable table.now self.old }
        requires even { length deprecations ≡ length (entries_in table.now self.old) }
        ensures fits { FitsTable table.now self.new }
        ensures ok { OnOk result (entries_in table.now self.new ≡ each_deprecated (entries_in table.now self.old) deprecations) }
        ensures unlawful { IfErr result (λ f. f ≡ FillFault.Unlawful → IsDictionary (each_deprecated (entries_in table.now self.old) deprecations) → ⊥) }
        ensures err { OnErr result (self.new ≡ self.old) }
    {
        let graph = self.with(table).graph_given(deprecations.as_slice());
        match graph {
            Ok(graph) => {
                self.entries.give_all(deprecations);
                self.graph = graph;
                Ok(())
            }
            Err(fault) => {
                drop(deprecations);
                Err(fault)
            }
        }
    }
}
