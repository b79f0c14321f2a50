// The deprecation of an entry changes.
ghost use Rattle.std.specs.Prelude.{◌≡◌, IfOk, List, Some, position};
ghost use Rattle.std.specs.Bool.{OnTrue};
ghost use Rattle.name_index.specs.Prelude.{IsLive, StepsWithin};
ghost use Rattle.cpe_rows.specs.Prelude.{after, is_named, IsLawful, Rows, Values};
ghost use Rattle.cpe_rows.specs.declared.edit.Edit.{Edit};
ghost use Rattle.cpe_rows.specs.declared.entry.Entry.{Entry};
ghost use Rattle.cpe_rows.specs.Touching.{deprecation_changed};
ghost use Rattle.cpe_dictionary.specs.Plans.{AreLeftBy};
ghost use Rattle.name_registry.specs.Registered.{name_in};
ghost use Rattle.name_index.specs.Table.{Names};
ghost use Rattle.facts.specs.Looks.{lead_looks};
ghost use Rattle.verdicts.specs.Leads.{HasLead, IsReadyLead, IsUnled, MayReadyLead};
ghost use Rattle.verdicts.specs.Rows.{AreOfRows};
ghost use Rattle.verdicts.specs.Verdicts.{HasVerdicts, SameStatements};

use crate::ends::{
    all_ends, all_ends_after, facts_among, leads_of_all, led_ends, link_all, reserve_ends,
};
use crate::refresh::refresh;
use crate::verdicts::Verdicts;
use cpe_dictionary::Plan;
use cpe_rows::{Memory, Mode};
use facts::Led;
use name_index::{NameId, NameTable, Steps};
use name_registry::Registry;
use std::alloc::Global;
use std::sync::ledger::Ledger;

/// What a change of the deprecation of an entry changes: the ends, before and after it, of the items and of the
/// followed facts that lead to the entry.
#[derive(Drop)]
pub struct Lead {
    pub(crate) items_from: Vec<NameId>,
    pub(crate) items_to: Vec<NameId>,
    pub(crate) facts_from: Vec<NameId>,
    pub(crate) facts_to: Vec<NameId>,
    pub(crate) facts: Vec<Led>,
}

impl Verdicts {
    /// What a planned change of the deprecation of an entry changes, with room for it. No verdict changes yet. Cost:
    /// that of the names which lead to the entry; but if no item and no followed fact can lead there, none for them.
    ///
    /// # Errors
    /// Only that memory ran out. The verdicts are then those of the same rows.
    pub fn ready_lead(
        &mut self,
        alloc: Global,
        registry: &Registry,
        id: NameId,
        plan: &Plan,
    ) -> Result<Lead, Memory>
        requires { MayReadyLead registry.now self.old id plan.now }
        ensures verdicts { (names : Names) (rows : Rows) → HasVerdicts names self.old rows → HasVerdicts names self.new rows }
        ensures same { SameStatements self.old self.new }
        ensures lead { (rows : Rows) (left : List Entry) → AreOfRows registry.now self.old rows → AreLeftBy rows.entries plan.now left → IfOk result (IsReadyLead self.new registry.now.table rows left (name_in registry.now.table id)) }
    {
        if self.is_unled(registry, id, plan.number) {
            return self.ready_none(alloc, registry.table());
        }
        cpe_dictionary::law::plans_lead();
        let table = registry.table();
        table.lawful();
        let sources = registry.sources_of(alloc, id, plan.number)?;
        let items = registry.items_among(alloc, &sources)?;
        let items_from = all_ends(alloc, registry, &items)?;
        let items_to = all_ends_after(alloc, registry, plan, &items)?;
        let used = facts_among(alloc, &self.facts, &sources)?;
        let facts_from = leads_of_all(&self.facts, alloc, Mode::Follow, &used)?;
        let facts = link_all(alloc, &mut self.facts, registry, plan, &used)?;
        let facts_to = led_ends(alloc, &facts)?;
        reserve_ends(&mut self.facts, table, &items_to, &facts_to)?;
        Ok(Lead {
            items_from,
            items_to,
            facts_from,
            facts_to,
            facts,
        })
    }

    // Whether it is clear without a search that no item and no followed fact leads to an entry: there are neither items
    // nor statements, or the entry is active and is no name of the follow board. An active entry is an end of all names
    // that lead to it, so the board has it if an item or a followed fact leads there.
    fn is_unled(&self, registry: &Registry, id: NameId, number: u32) -> bool
        requires live { IsLive registry.now.table id.0 }
        requires number { position (is_named (name_in registry.now.table id)) registry.now.entries ≡ Some number }
        ensures { (rows : Rows) → AreOfRows registry.now self.now rows → OnTrue result (IsUnled rows (name_in registry.now.table id)) }
    {
        if registry.items_len() == 0 && self.statements.len() == 0 {
            return true;
        }
        match registry.dictionary().deprecation_at(number) {
            Some(_) => false,
            None => !self.facts.boards().has(Mode::Follow, id),
        }
    }

    // What a change changes if no item and no followed fact leads to the entry: nothing, however many entries lead
    // there.
    fn ready_none(&mut self, alloc: Global, table: &NameTable) -> Result<Lead, Memory>
        requires { (rows : Rows) × IsLawful rows × HasVerdicts table.now self.old rows }
        ensures verdicts { (names : Names) (rows : Rows) → HasVerdicts names self.old rows → HasVerdicts names self.new rows }
        ensures same { SameStatements self.old self.new }
        ensures lead { (rows : Rows) (left : List Entry) (n : Values) → IsUnled rows n → HasVerdicts table.now self.old rows → IfOk result (IsReadyLead self.new table.now rows left n) }
    {
        table.lawful();
        reserve_ends(&mut self.facts, table, &[], &[])?;
        Ok(Lead {
            items_from: Vec::new(alloc),
            items_to: Vec::new(alloc),
            facts_from: Vec::new(alloc),
            facts_to: Vec::new(alloc),
            facts: Vec::new(alloc),
        })
    }

    /// Changes the ends of the items and of the followed facts that lead to an entry, after its deprecation changed.
    /// Allocates: no.
    pub fn lead<L: Ledger>(&mut self, table: &NameTable, lead: Lead, steps: &mut Steps<L>)
        requires { (rows : Rows) × (e : Edit) × (n : Values) × (deprecation_changed e ≡ Some n) × IsLawful rows × HasVerdicts table.now self.old rows × IsReadyLead self.old table.now rows (after rows e).entries n lead }
        ensures verdicts { (rows : Rows) (e : Edit) (n : Values) → deprecation_changed e ≡ Some n → HasVerdicts table.now self.old rows → HasLead self.old table.now rows (after rows e).entries n lead → HasVerdicts table.now self.new (after rows e) }
        ensures same { SameStatements self.old self.new }
        ensures steps { (rows : Rows) (e : Edit) (n : Values) → deprecation_changed e ≡ Some n → HasVerdicts table.now self.old rows → HasLead self.old table.now rows (after rows e).entries n lead
            → StepsWithin steps.old steps.new (lead_looks rows (after rows e) n) }
    {
        let Lead {
            items_from,
            items_to,
            facts_from,
            facts_to,
            facts,
        } = lead;
        cpe_rows::touching::deprecations_touch();
        statement_rows::law::refreshes_judge();
        statement_rows::law::same_truths_judge_the_same();
        self.facts.lead(
            table,
            &items_from,
            &items_to,
            &facts_from,
            &facts_to,
            facts,
            steps,
        );
        self.facts.lawful();
        refresh(&mut self.statements, &self.facts);
    }
}
