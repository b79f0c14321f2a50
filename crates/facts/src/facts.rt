// The facts of both modes, and what each edit of the rows changes of them.
ghost use Rattle.std.specs.Prelude.{◌≡◌, ℕ, List, [], true};
ghost use Rattle.cpe_rows.specs.Prelude.{fact_truth, no_rows, Rows};
ghost use Rattle.name_index.specs.Table.{Names};
ghost use Rattle.fact_laws.specs.Shown.{name_at};
ghost use Rattle.fact_boards.specs.Kept.{AreSound};
ghost use Rattle.fact_rows.specs.Facts.{has_end_of_fact, is_fact, leads_of, truth_of_fact, users_of};
ghost use Rattle.facts.specs.Facts.{AreUsed, HasFacts, is_used, table_of};
ghost use Rattle.facts.specs.LeadCalls.{EndsChanged, MayChangeEnds};
ghost use Rattle.facts.specs.Calls.{ItemCovered, ItemRemoved, MayAddItem, MayAddStatement, MayRemoveItem, MayRemoveStatement, StatementUsed, StatementUnused};

use crate::lead::{Led, lead_facts};
use crate::refresh::settle;
use crate::users::{add_statement_users, remove_statement_users};
use cpe_rows::{Mode, Truth};
use fact_boards::KeptFacts;
use fact_rows::FactRows;
use name_index::{NameId, NameTable, Steps};
use std::alloc::Global;
use std::marker::Model;
use std::slice::from_ref;
use std::sync::ledger::Ledger;

/// The facts to which statements refer, for each mode. See the crate's page.
#[derive(Drop)]
pub struct Facts {
    pub(crate) boards: KeptFacts,
    pub(crate) plain: FactRows,
    pub(crate) follow: FactRows,
}

impl Model for Facts {
    ghost use Rattle.facts.specs.Facts.{FactsNow};

    ghost Value = { FactsNow };

    ghost view = { λ f. record { boards = f.boards; plain = f.plain; follow = f.follow } };
}

impl Facts {
    /// No facts and no items. Allocates: no.
    pub fn new(alloc: Global) -> Facts
        ensures facts { (names : Names) → HasFacts names result no_rows [] }
        ensures used { AreUsed result }
    {
        Facts {
            boards: KeptFacts::new(alloc),
            plain: FactRows::new(alloc),
            follow: FactRows::new(alloc),
        }
    }

    // ---- reads

    /// The truth of a fact, or UNKNOWN if it is no fact.
    pub fn truth(&self, mode: Mode, fact: NameId) -> Truth
        ensures value { result ≡ truth_of_fact (table_of self.now mode) fact.0 }
        ensures fact { (names : Names) (rows : Rows) (tickets : List ℕ) → HasFacts names self.now rows tickets → is_used (table_of self.now mode) fact.0 ≡ true → result ≡ fact_truth rows mode (name_at names fact) }
    {
        match mode {
            Mode::Plain => self.plain.truth_of(fact),
            Mode::Follow => self.follow.truth_of(fact),
        }
    }

    /// The tickets of the statements that use a fact, rising.
    pub fn users(&self, mode: Mode, fact: NameId) -> &[u64]
        ensures { result.now ≡ users_of (table_of self.now mode) fact.0 }
    {
        match mode {
            Mode::Plain => self.plain.users_of(fact),
            Mode::Follow => self.follow.users_of(fact),
        }
    }

    /// The numbers of the names to which a fact leads: its own in mode plain, and those of its ends in mode follow. A
    /// name that is no fact leads nowhere in mode follow.
    pub fn leads<'f>(&'f self, mode: Mode, fact: &'f NameId) -> &'f [NameId]
        ensures { result.now ≡ leads_of mode (table_of self.now mode) fact.now.0 }
    {
        match mode {
            Mode::Plain => from_ref(fact),
            Mode::Follow => self.follow.ends_of(*fact),
        }
    }

    /// The facts of a mode whose truth the last edit replaced, each once.
    pub fn changed(&self, mode: Mode) -> &[NameId]
        ensures value { result.now ≡ (table_of self.now mode).changed }
        ensures facts { (q : ℕ) → has_end_of_fact (table_of self.now mode).changed q ≡ true → is_fact (table_of self.now mode) q ≡ true }
    {
        match mode {
            Mode::Plain => self.plain.changed(),
            Mode::Follow => self.follow.changed(),
        }
    }

    /// The boards of both modes.
    pub fn boards(&self) -> &KeptFacts
        ensures { result.now ≡ self.now.boards }
    {
        &self.boards
    }

    /// The boards are right: each level is that of its name. No-op, for proofs.
    pub fn lawful(&self)
        ensures { AreSound self.now.boards }
    {
        self.boards.lawful();
    }

    // ---- items

    /// Adds an item with these ends. Allocates: no.
    pub fn add_item<L: Ledger>(
        &mut self,
        table: &NameTable,
        item: NameId,
        ends: &[NameId],
        steps: &mut Steps<L>,
    )
        requires { MayAddItem self.old table.now item ends.now }
        ensures { ItemCovered self.old self.new table.now item ends.now steps.old steps.new }
    {
        table.lawful();
        fact_boards::law::few_present();
        fact_laws::law::lawful_rows_ask_few();
        self.plain.clear_changed();
        self.follow.clear_changed();
        self.boards.lawful();
        self.boards.add_item_to_boards(table, item, ends, steps);
        self.boards.lawful();
        settle(&mut self.boards, &mut self.plain, &mut self.follow);
    }

    /// Removes an item with these ends. Allocates: no.
    pub fn remove_item<L: Ledger>(
        &mut self,
        table: &NameTable,
        item: NameId,
        ends: &[NameId],
        steps: &mut Steps<L>,
    )
        requires { MayRemoveItem self.old table.now item ends.now }
        ensures { ItemRemoved self.old self.new table.now item ends.now steps.old steps.new }
    {
        table.lawful();
        fact_laws::law::items_arrive();
        fact_laws::law::lists_are_shown();
        self.plain.clear_changed();
        self.follow.clear_changed();
        self.boards.lawful();
        self.boards
            .remove_item_from_boards(table, item, ends, steps);
        self.boards.lawful();
        settle(&mut self.boards, &mut self.plain, &mut self.follow);
    }

    // ---- statements

    /// Adds the ticket of a statement to the facts to which it refers. `fresh` are those facts that are not in use yet;
    /// `asked` are the names to which the fresh facts lead. Allocates: no.
    pub fn add_statement<L: Ledger>(
        &mut self,
        table: &NameTable,
        mode: Mode,
        ids: &[NameId],
        fresh: &[NameId],
        asked: &[NameId],
        ticket: u64,
        steps: &mut Steps<L>,
    )
        requires { MayAddStatement self.old table.now mode ids.now fresh.now asked.now ticket }
        ensures { StatementUsed self.old self.new table.now mode ids.now fresh.now asked.now ticket steps.old steps.new }
    {
        table.lawful();
        fact_boards::law::few_present();
        fact_boards::law::looks_are_by_names();
        self.plain.clear_changed();
        self.follow.clear_changed();
        self.boards.lawful();
        self.boards.ask(table, mode, asked, steps);
        self.boards.lawful();
        match mode {
            Mode::Plain => add_statement_users(
                &mut self.plain,
                self.boards.board(Mode::Plain),
                Mode::Plain,
                ids,
                fresh,
                ticket,
            ),
            Mode::Follow => add_statement_users(
                &mut self.follow,
                self.boards.board(Mode::Follow),
                Mode::Follow,
                ids,
                fresh,
                ticket,
            ),
        }
    }

    /// Removes the ticket of a statement from the facts to which it refers. `last` are those facts that no other
    /// statement uses, which are removed; `asked` are the names to which the last facts lead. Allocates: no.
    pub fn remove_statement<L: Ledger>(
        &mut self,
        table: &NameTable,
        mode: Mode,
        ids: &[NameId],
        last: &[NameId],
        asked: &[NameId],
        ticket: u64,
        steps: &mut Steps<L>,
    )
        requires { MayRemoveStatement self.old table.now mode ids.now last.now asked.now ticket }
        ensures { StatementUnused self.old self.new table.now mode ids.now last.now asked.now ticket steps.old steps.new }
    {
        table.lawful();
        self.plain.clear_changed();
        self.follow.clear_changed();
        self.boards.lawful();
        self.boards.unask(table, mode, asked, steps);
        self.boards.lawful();
        match mode {
            Mode::Plain => remove_statement_users(&mut self.plain, ids, last, ticket),
            Mode::Follow => remove_statement_users(&mut self.follow, ids, last, ticket),
        }
    }

    // ---- deprecations

    /// Changes the ends of the items and of the followed facts that lead to an entry, after its deprecation changed.
    /// Allocates: no.
    pub fn lead<L: Ledger>(
        &mut self,
        table: &NameTable,
        items_from: &[NameId],
        items_to: &[NameId],
        facts_from: &[NameId],
        facts_to: &[NameId],
        led: Vec<Led>,
        steps: &mut Steps<L>,
    )
        requires { MayChangeEnds self.old table.now items_from.now items_to.now facts_from.now facts_to.now led.items }
        ensures { EndsChanged self.old self.new table.now items_from.now items_to.now facts_from.now facts_to.now led.items steps.old steps.new }
    {
        table.lawful();
        cpe_rows::touching::deprecations_touch();
        fact_boards::law::few_present();
        fact_boards::law::looks_are_by_names();
        self.plain.clear_changed();
        self.follow.clear_changed();
        self.boards.lawful();
        self.boards
            .lead(table, items_from, items_to, facts_from, facts_to, steps);
        self.boards.lawful();
        lead_facts(&mut self.follow, self.boards.board(Mode::Follow), led);
        settle(&mut self.boards, &mut self.plain, &mut self.follow);
    }
}
