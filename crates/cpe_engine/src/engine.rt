// The engine, its edits and its answers to queries.
ghost use Rattle.std.specs.Prelude.{◌≡◌, ◌+◌, ◌≤◌, IfOk, OnErr, length, map, position, slice_get, true, option_map};
ghost use Rattle.std.specs.List.{filter_map, list_any};
ghost use Rattle.cpe_rows.specs.Prelude.{answer, Applied, chain, changes, has_key, is_lower, is_named, is_valid_edit, IsLawful, no_rows, verdict};
ghost use Rattle.cpe_rows.specs.Counts.{counts_of};
ghost use Rattle.cpe_rows.specs.Valid.{is_valid_query};
ghost use Rattle.cpe_rows.specs.Weight.{weight};
ghost use Rattle.cpe_rows.specs.Lent.{entry_lent};
ghost use Rattle.name_index.specs.step_count.Within.{StepsWithin};
ghost use Rattle.cpe_engine.specs.Looks.{edit_looks, query_looks};

use cpe_rows::{
    Changed, CheckKey, Counts, Edit, EditFault, EntryRef, List, Memory, Query, Reply, Statement,
    Text, Truth, Wfn,
};
use engine_edits::{EngineParts, ItemSlots};
use name_index::Steps;
use std::alloc::Global;
use std::marker::Model;
use std::mem::forget;
use std::sync::ledger::Ledger;

/// An engine. Contracts see it as the rows that it keeps.
#[derive(Drop)]
pub struct Engine {
    pub(crate) alloc: Global,
    pub(crate) parts: EngineParts,
}

impl Model for Engine {
    ghost use Rattle.std.specs.Coded.{codes};
    ghost use Rattle.cpe_rows.specs.Rows.{Rows};
    ghost use Rattle.cpe_rows.specs.contracts.test.Test as test;
    ghost use Rattle.engine_edits.specs.Parts.{AreLawfulParts, rows_in};

    ghost Value = { Rows };

    ghost coded = { Prim.hlevel (codes, test.the_row.coded) };

    ghost view = { λ e. rows_in e.parts };

    ghost invariant = { λ e. AreLawfulParts e.parts };
}

impl Engine {
    /// An engine without rows. Allocates: no.
    pub fn new(alloc: Global) -> Engine
        ensures { result ≡ no_rows }
    {
        cpe_rows::law::rows_stay_lawful();
        Engine {
            alloc,
            parts: EngineParts::new(alloc),
        }
    }

    /// Drops the engine, with all that it keeps. A crate that calls it need not prove how each part of an engine is
    /// dropped.
    pub fn discard(self) {
        drop(self);
    }

    /// Leaves in memory what the engine keeps, for a process that is about to end.
    pub fn leave(self) {
        forget(self);
    }

    /// The rows of every engine are lawful. The function does nothing: its clause is for proofs.
    pub fn lawful(&self)
        ensures { IsLawful self.now }
    {
        let _parts = &self.parts;
    }

    /// The number of rows of each kind, and their weight. It counts the deprecated entries one by one.
    pub fn counts(&self) -> Counts
        ensures { result ≡ counts_of self.now }
    {
        Counts {
            entries: self.parts.registry.dictionary().len() as u64,
            deprecated: self.parts.registry.dictionary().count_deprecated() as u64,
            items: self.parts.registry.items_len() as u64,
            statements: self.parts.verdicts.len() as u64,
            facts: self.parts.verdicts.facts() as u64,
            checks: self.parts.verdicts.results().len() as u64,
            weight: self.parts.weight,
        }
    }

    /// The weight of the rows.
    pub fn weight(&self) -> u64
        ensures { result ≡ weight self.now }
    {
        self.parts.weight
    }

    /// The number of entries.
    pub fn entries_len(&self) -> usize
        ensures { result ≡ length self.now.entries }
    {
        self.parts.registry.dictionary().len()
    }

    /// The entry at a place from 0, as a reference. There is none exactly if the place is the number of entries or
    /// more.
    pub fn entry_at(&self, k: usize) -> Option<EntryRef<'_>>
        ensures { option_map entry_lent result ≡ slice_get self.now.entries k }
    {
        self.parts.registry.entry_at(k)
    }

    /// The entries of the chain of a name, as references; none if the name is no entry. It searches only the chain.
    ///
    /// # Errors
    /// Only that memory ran out.
    pub fn chain_lent(&self, alloc: Global, name: &Wfn) -> Result<Vec<EntryRef<'_>>, Memory>
        ensures { IfOk result (λ links. map entry_lent links.items ≡ chain self.now.entries name.now) }
    {
        self.parts.registry.chain_lent(alloc, name)
    }

    /// The place, from 0, of the entry of this name, if there is one. It is found by the hash of the name.
    pub fn place_of(&self, name: &Wfn) -> Option<u32>
        ensures { result ≡ position (is_named name.now) self.now.entries }
    {
        self.parts.registry.dictionary().number_of(name)
    }

    /// The number of items.
    pub fn items_len(&self) -> usize
        ensures { result ≡ length self.now.items }
    {
        self.parts.registry.items_len()
    }

    /// The items in their order, by slots. The slot of a removed item may stay empty, so the place of an item in the
    /// list isn't always its slot. There are at most twice as many slots as items.
    pub fn item_slots(&self) -> ItemSlots<'_>
        ensures names { filter_map (λ slot. slot) result ≡ self.now.items }
        ensures dense { length result ≤ length self.now.items + length self.now.items }
    {
        self.parts.registry.item_slots()
    }

    /// The number of checks for which a result is kept.
    pub fn checks_len(&self) -> usize
        ensures { result ≡ length self.now.checks }
    {
        self.parts.verdicts.results().len()
    }

    /// The check at a place from 0 in the list of kept results, with its result. There is none exactly if the place is
    /// the number of kept results or more.
    pub fn check_at(&self, k: usize) -> Option<(&CheckKey, Truth)>
        ensures { option_map (λ p. (p.0.now, p.1)) result ≡ slice_get self.now.checks k }
    {
        self.parts.verdicts.results().at(k)
    }

    /// Whether a result is kept for a check.
    pub fn has_check(&self, key: &CheckKey) -> bool
        ensures { result ≡ list_any (has_key key.now) self.now.checks }
    {
        self.parts.verdicts.results().has(key)
    }

    /// The number of statements.
    pub fn statements_len(&self) -> usize
        ensures { result ≡ length self.now.statements }
    {
        self.parts.verdicts.len()
    }

    /// The statement at a place from 0, with its verdict (NIST IR 7698), which is kept. There is none exactly if the
    /// place is the number of statements or more.
    pub fn statement_at(&self, k: usize) -> Option<(&Statement, Truth)>
        ensures statement { option_map (λ p. p.0.now) result ≡ slice_get self.now.statements k }
        ensures verdict { option_map (λ p. p.1) result ≡ option_map (verdict self.now) (slice_get self.now.statements k) }
    {
        self.parts.verdicts.at(k)
    }

    /// The verdicts that an edit changes, in the order of the statements. It makes the edit, and takes all memory
    /// before the first change.
    ///
    /// The edit is valid ([`Edit::valid`]), so the rows stay lawful ([`rows_stay_lawful`]).
    ///
    /// A step is a look at a name through an index. An item that is added or removed takes steps for the names near it
    /// and near its ends. A new statement takes them for each of its facts. A change of a deprecation takes them for
    /// the ends, before and after it, of all names that lead to the entry. All other edits take no step. An edit that
    /// is refused, or for which memory runs out, takes none.
    ///
    /// # Errors
    /// The first fault of the edit in the order of [`EditFault`], or that memory ran out. The rows are then unchanged.
    pub fn apply<L: Ledger>(
        &mut self,
        edit: Edit,
        steps: &mut Steps<L>,
    ) -> Result<List<Changed>, EditFault>
        requires { is_valid_edit edit ≡ true }
        ensures applied { Applied self.old self.new edit result }
        ensures changes { IfOk result (λ cs. cs ≡ changes self.old edit) }
        ensures steps { StepsWithin steps.old steps.new (edit_looks self.old edit) }
        ensures refused { OnErr result (steps.new ≡ steps.old) }
    {
        self.parts.apply(self.alloc, edit, steps)
    }

    /// The answer to a query. If there is no entry or statement of the asked name or id, the answer says so. The name
    /// or id is moved into the answer. The query is valid ([`Query::valid`]).
    ///
    /// A step is a look at a name through an index. A search takes at most one for each entry to whose product the
    /// product of the asked name is near. A query for items takes at most one for each item whose product it meets.
    /// Each other query takes none. A verdict is kept, so none is evaluated.
    ///
    /// # Errors
    /// Only that memory ran out.
    pub fn answer<L: Ledger>(
        &self,
        alloc: Global,
        query: Query,
        steps: &mut Steps<L>,
    ) -> Result<Reply, Memory>
        requires { is_valid_query query ≡ true }
        ensures answer { IfOk result (λ r. r ≡ answer self.now query) }
        ensures steps { StepsWithin steps.old steps.new (query_looks self.now query) }
    {
        match query {
            Query::Lookup(name) => Ok(self.lookup(name)),
            Query::Search { name, active_only } => self.search(alloc, name, active_only, steps),
            Query::Items(name) => self.items_met(alloc, name, steps),
            Query::Chain(name) => self.chain(alloc, name),
            Query::Show(name) => self.show(alloc, name),
            Query::Verdict(id) => Ok(self.verdict_of(id)),
        }
    }

    fn lookup(&self, name: Wfn) -> Reply
        ensures { result ≡ answer self.now (Query.Lookup name) }
    {
        let state = self.parts.registry.dictionary().state_of(&name);
        Reply::Lookup { name, state }
    }

    fn show(&self, alloc: Global, name: Wfn) -> Result<Reply, Memory>
        ensures { IfOk result (λ r. r ≡ answer self.now (Query.Show name)) }
    {
        match self.parts.registry.dictionary().entry_of(alloc, &name) {
            Ok(entry) => Ok(Reply::Show { name, entry }),
            Err(memory) => Err(discard(name, memory)),
        }
    }

    fn search<L: Ledger>(
        &self,
        alloc: Global,
        name: Wfn,
        active_only: bool,
        steps: &mut Steps<L>,
    ) -> Result<Reply, Memory>
        requires { is_lower name ≡ true }
        ensures answer { IfOk result (λ r. r ≡ answer self.now (Query.Search name active_only)) }
        ensures steps { StepsWithin steps.old steps.new (query_looks self.now (Query.Search name active_only)) }
    {
        cpe_rows::law::names_are_equal();
        let dictionary = self.parts.registry.dictionary();
        match dictionary.rows_found(alloc, &name, active_only, steps) {
            Ok(rows) => Ok(Reply::Search { name, rows }),
            Err(memory) => Err(discard(name, memory)),
        }
    }

    fn items_met<L: Ledger>(
        &self,
        alloc: Global,
        name: Wfn,
        steps: &mut Steps<L>,
    ) -> Result<Reply, Memory>
        requires { is_lower name ≡ true }
        ensures answer { IfOk result (λ r. r ≡ answer self.now (Query.Items name)) }
        ensures steps { StepsWithin steps.old steps.new (query_looks self.now (Query.Items name)) }
    {
        cpe_rows::law::names_are_equal();
        let parts = &self.parts;
        match parts
            .verdicts
            .items_met(alloc, &parts.registry, &name, steps)
        {
            Ok((rows, maybe)) => Ok(Reply::Items { name, rows, maybe }),
            Err(memory) => Err(discard(name, memory)),
        }
    }

    fn chain(&self, alloc: Global, name: Wfn) -> Result<Reply, Memory>
        ensures { IfOk result (λ r. r ≡ answer self.now (Query.Chain name)) }
    {
        match self.parts.registry.dictionary().chain(alloc, &name) {
            Ok((links, ends)) => Ok(Reply::Chain { name, links, ends }),
            Err(memory) => Err(discard(name, memory)),
        }
    }

    fn verdict_of(&self, id: Text) -> Reply
        ensures { result ≡ answer self.now (Query.Verdict id) }
    {
        let truth = self.parts.verdicts.verdict(&id);
        Reply::Verdict { id, truth }
    }
}

// Drops the name of a query after memory ran out. Under a `?` each of its eleven values would be dropped in place.
fn discard(name: Wfn, memory: Memory) -> Memory {
    drop(name);
    memory
}
