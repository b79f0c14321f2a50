// Statements are removed.
ghost use Rattle.std.specs.Prelude.{◌≡◌, ◌++◌, ◌∷◌, [], cond, filter, true, IfOk, OnOk};
ghost use Rattle.std.specs.List.{list_any};
ghost use Rattle.cpe_rows.specs.Prelude.{has_id, IsLawful, Rows};
ghost use Rattle.name_index.specs.declared.table.NameId.{NameId};
ghost use Rattle.facts.specs.fact_rows.Facts.{users_of};
ghost use Rattle.facts.specs.ticket_list.Tickets.{is_empty, without};
ghost use Rattle.facts.specs.Facts.{table_of};
ghost use Rattle.verdicts.specs.Removal.{IsRemoval, IsRemovalOf, StatementRemoved};
ghost use Rattle.verdicts.specs.Verdicts.{HasVerdicts, statements_in};

use crate::ends::leads_of_all;
use crate::verdicts::Verdicts;
use cpe_rows::{Memory, Mode, Text};
use fact_boards::keep_each_once;
use facts::Facts;
use name_index::{NameId, NameTable, Steps};
use statement_rows::FactUse;
use std::alloc::Global;
use std::sync::ledger::Ledger;

/// What the removal of a statement removes with it: the facts that it alone uses, and the names to which they lead.
#[derive(Drop)]
pub struct Removal {
    // The facts, each once.
    pub(crate) last: Vec<NameId>,
    // The names, fact after fact.
    pub(crate) asked: Vec<NameId>,
}

impl Verdicts {
    /// What the removal of the statement of this id removes with it. It is nothing if no statement has the id.
    ///
    /// # Errors
    /// Only that memory ran out.
    pub fn ready_removal(&self, alloc: Global, id: &Text) -> Result<Removal, Memory>
        ensures { IfOk result (IsRemoval self.now id.now) }
    {
        match self.statements.use_of(id) {
            Some((mode, ids, ticket)) => removal_of(&self.facts, alloc, mode, ids, ticket),
            None => Ok(Removal {
                last: Vec::new(alloc),
                asked: Vec::new(alloc),
            }),
        }
    }

    /// Removes the statement of this id, and returns the numbers of its fact references. Allocates: no.
    pub fn remove_statement<L: Ledger>(
        &mut self,
        table: &NameTable,
        id: &Text,
        removal: Removal,
        steps: &mut Steps<L>,
    ) -> Vec<NameId>
        requires has { list_any (has_id id.now) (statements_in self.old) ≡ true }
        requires removal { IsRemoval self.old id.now removal }
        requires rows_before { (rows : Rows) × IsLawful rows × HasVerdicts table.now self.old rows }
        ensures { StatementRemoved table.now self.old self.new id.now result.items steps.old steps.new }
    {
        table.lawful();
        statement_rows::law::same_truths_judge_the_same();
        let FactUse { mode, ids, ticket } = match self.statements.remove_statement(id) {
            Some(used) => used,
            None => unreachable!(),
        };
        self.facts.remove_statement(
            table,
            mode,
            &ids,
            &removal.last,
            &removal.asked,
            ticket,
            steps,
        );
        self.facts.lawful();
        ids
    }
}

// What is removed with a statement of a mode that uses these facts by this ticket.
//
// # Errors
// Only that memory ran out.
fn removal_of(
    facts: &Facts,
    alloc: Global,
    mode: Mode,
    ids: &[NameId],
    ticket: u64,
) -> Result<Removal, Memory>
    ensures { IfOk result (IsRemovalOf facts.now mode ids.now ticket) }
{
    let mut last = last_facts(facts, alloc, mode, ids, ticket)?;
    keep_each_once(&mut last);
    let asked = leads_of_all(facts, alloc, mode, &last)?;
    Ok(Removal { last, asked })
}

// Those of these facts that no other ticket uses.
//
// # Errors
// Only that memory ran out.
fn last_facts(
    facts: &Facts,
    alloc: Global,
    mode: Mode,
    ids: &[NameId],
    ticket: u64,
) -> Result<Vec<NameId>, Memory>
    ensures { IfOk result (λ v. v.items ≡ filter (λ (x : NameId). is_empty (without ticket (users_of (table_of facts.now mode) x.0))) ids.now) }
{
    let mut last = Vec::new(alloc);
    for id in ids {
        add_last(facts, mode, *id, ticket, &mut last)?;
    }
    Ok(last)
}

fn add_last(
    facts: &Facts,
    mode: Mode,
    fact: NameId,
    ticket: u64,
    last: &mut Vec<NameId>,
) -> Result<(), Memory>
    ensures { OnOk result (last.new.items ≡ last.old.items ++ cond (is_empty (without ticket (users_of (table_of facts.now mode) fact.0))) (fact ∷ []) []) }
{
    if is_only(facts.users(mode, fact), ticket) {
        last.push(fact)?;
    }
    Ok(())
}

// Whether no other ticket is among these. As tickets rise, it looks at two of them at most.
fn is_only(users: &[u64], ticket: u64) -> bool
    ensures { result ≡ is_empty (without ticket users.now) }
{
    for user in users {
        if *user != ticket {
            return false;
        }
    }
    true
}
