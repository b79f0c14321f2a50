// Statements that are added or removed.
ghost use Rattle.std.specs.Prelude.{◌≡◌, ◌≤◌, [], IfErr, IfOk, None, OnErr, true, ◌<◌, ◌^◌, ◌∷◌, IfSome, OnOk, Some, slice_get, option_map};
ghost use Rattle.std.specs.List.{list_any};
ghost use Rattle.cpe_rows.specs.Prelude.{causes, first_some, has_id, is_valid_edit, IsCause, most, after, change, changes, IsLawful, Rows, verdict};
ghost use Rattle.cpe_rows.specs.declared.edit.Edit.TheVariants as edit;
ghost use Rattle.cpe_rows.specs.declared.fault.Which.TheVariants as limit;
ghost use Rattle.cpe_rows.specs.Weight.{statement_weight};
ghost use Rattle.row_weight.specs.Gain.{weight_of_first};
ghost use Rattle.engine_edits.specs.Numbered.{IsFound, names_coming};
ghost use Rattle.engine_edits.specs.Parts.{AreLawfulParts, AreOf, edit_in, rows_in};
ghost use Rattle.name_index.specs.Prelude.{Names, StepsWithin};
ghost use Rattle.verdicts.specs.Verdicts.{HasVerdicts};
ghost use Rattle.verdicts.specs.Removal.{IsRemoval};
ghost use Rattle.engine_edits.specs.Looks.{made_looks};
ghost use Rattle.engine_edits.specs.Moved.{MadeReady, MayBeReady};
ghost use Rattle.engine_edits.specs.Ready.{edit_ready, IsReady};
ghost use Rattle.engine_edits.specs.ChangedVerdicts.{dropped_by, put_by};

use crate::holds::{hold_facts, release_all};
use crate::numbered::NumberedEdit;
use crate::parts::EngineParts;
use crate::ready::Ready;
use cpe_rows::{Changed, EditFault, List, Memory, Room, Statement, Text, Truth};
use name_index::{NameId, Steps};
use row_weight::with_statement;
use std::alloc::Global;
use std::sync::ledger::Ledger;
use verdicts::{Addition, Removal, Verdicts};

impl EngineParts {
    /// A new statement with the numbers of its facts. The table then holds the names of these facts.
    ///
    /// # Errors
    /// The first fault of the statement except a too large weight, or that memory ran out. Rows, verdicts and weight
    /// are then unchanged, and no name is held for the statement.
    pub(crate) fn number_statement(
        &mut self,
        alloc: Global,
        statement: Statement,
    ) -> Result<NumberedEdit, EditFault>
        requires kept { AreLawfulParts self.old }
        requires valid { is_valid_edit (edit.PutStatement statement) ≡ true }
        ensures rows { rows_in self.new ≡ rows_in self.old }
        ensures verdicts { self.new.verdicts ≡ self.old.verdicts }
        ensures weight { self.new.weight ≡ self.old.weight }
        ensures edit { IfOk result (λ n. edit_in self.new n ≡ edit.PutStatement statement) }
        ensures found { IfOk result (IsFound self.new.registry.table) }
        ensures are { IfOk result (λ n. AreOf self.new.registry self.new.verdicts (rows_in self.old) (names_coming self.new.registry.table n)) }
        ensures left { OnErr result (AreOf self.new.registry self.new.verdicts (rows_in self.old) []) }
        ensures err { IfErr result (λ f. IsCause f (first_some (causes (rows_in self.old) (edit.PutStatement statement)))) }
    {
        match self.verdicts.statement_fault(&statement) {
            Some(fault) => {
                drop(statement);
                Err(fault)
            }
            None => Ok(self.hold_statement(alloc, statement)?),
        }
    }

    // A new statement without a fault, with the numbers of its facts. The table then holds the names of these facts.
    fn hold_statement(
        &mut self,
        alloc: Global,
        statement: Statement,
    ) -> Result<NumberedEdit, Memory>
        requires kept { AreLawfulParts self.old }
        requires valid { is_valid_edit (edit.PutStatement statement) ≡ true }
        requires none { first_some (causes (rows_in self.old) (edit.PutStatement statement)) ≡ None }
        ensures rows { rows_in self.new ≡ rows_in self.old }
        ensures verdicts { self.new.verdicts ≡ self.old.verdicts }
        ensures weight { self.new.weight ≡ self.old.weight }
        ensures edit { IfOk result (λ n. edit_in self.new n ≡ edit.PutStatement statement) }
        ensures found { IfOk result (IsFound self.new.registry.table) }
        ensures are { IfOk result (λ n. AreOf self.new.registry self.new.verdicts (rows_in self.old) (names_coming self.new.registry.table n)) }
        ensures left { OnErr result (AreOf self.new.registry self.new.verdicts (rows_in self.old) []) }
    {
        fact_laws::law::lawful_rows_ask_few();
        let mut ids = Vec::new(alloc);
        match hold_facts(&mut self.registry, &statement.test, &mut ids) {
            Ok(()) => Ok(NumberedEdit::PutStatement { statement, ids }),
            Err(memory) => {
                drop(statement);
                release_all(&mut self.registry, &ids);
                Err(memory)
            }
        }
    }

    /// Whether there is a statement of this id.
    pub(crate) fn has_statement(&self, id: &Text) -> bool
        ensures { result ≡ list_any (has_id id.now) (rows_in self.now).statements }
    {
        self.verdicts.find(id).is_some()
    }

    /// The weight of the statement of this id, or 0 if there is none.
    pub(crate) fn statement_weight(&self, id: &Text) -> u64
        requires { weight_of_first statement_weight (has_id id.now) (rows_in self.now).statements ≤ most limit.Weight }
        ensures { result ≡ weight_of_first statement_weight (has_id id.now) (rows_in self.now).statements }
    {
        match self.verdicts.find(id) {
            Some(statement) => with_statement(0, statement),
            None => 0,
        }
    }
}

// ---- the first stage: all memory

/// Takes all memory for a new statement. The names of its facts are held already.
///
/// # Errors
/// Only that memory ran out. The names are then released.
pub(crate) fn ready_statement(
    parts: &mut EngineParts,
    alloc: Global,
    statement: Statement,
    ids: Vec<NameId>,
) -> Result<Ready, Memory>
    requires { MayBeReady parts.old (NumberedEdit.PutStatement statement ids) }
    ensures { MadeReady parts.old parts.new (NumberedEdit.PutStatement statement ids) result }
{
    match parts
        .verdicts
        .ready_statement(alloc, &parts.registry, statement, &ids)
    {
        Ok(addition) => Ok(Ready::PutStatement { addition, ids }),
        Err(memory) => {
            release_all(&mut parts.registry, &ids);
            Err(memory)
        }
    }
}

/// The removal of the statement of this id, with what is removed with it.
///
/// # Errors
/// Only that memory ran out.
pub(crate) fn ready_removal(parts: &EngineParts, alloc: Global, id: Text) -> Result<Ready, Memory>
    requires { MayBeReady parts.now (NumberedEdit.DropStatement id) }
    ensures { MadeReady parts.now parts.now (NumberedEdit.DropStatement id) result }
{
    match parts.verdicts.ready_removal(alloc, &id) {
        Ok(removal) => Ok(Ready::DropStatement { id, removal }),
        Err(memory) => {
            drop(id);
            Err(memory)
        }
    }
}

// ---- the second stage: the change

/// Adds a statement, and returns the changed verdict. Only the new statement's verdict changes: before, it had none.
pub(crate) fn make_statement<L: Ledger>(
    parts: &mut EngineParts,
    addition: Addition,
    ids: Vec<NameId>,
    room: Room<Changed>,
    steps: &mut Steps<L>,
) -> List<Changed>
    requires { IsReady parts.old (Ready.PutStatement addition ids) room }
    ensures are { AreOf parts.new.registry parts.new.verdicts (after (rows_in parts.old) (edit_ready parts.old.registry.table (Ready.PutStatement addition ids))) [] }
    ensures changes { result ≡ changes (rows_in parts.old) (edit_ready parts.old.registry.table (Ready.PutStatement addition ids)) }
    ensures steps { StepsWithin steps.old steps.new (made_looks (rows_in parts.old) (edit_ready parts.old.registry.table (Ready.PutStatement addition ids))) }
{
    fact_laws::law::statements_ask();
    cpe_rows::law::statements_are_independent();
    fact_laws::law::lists_are_shown();
    let place = parts.verdicts.len();
    let table = parts.registry.table();
    parts.verdicts.add_statement(table, addition, steps);
    drop(ids);
    put_change(room, place, truth_at(&parts.verdicts, place))
}

/// Removes the statement of an id, and returns the changed verdict. The names of its facts are released. Only its own
/// verdict changes: after that, it has none.
pub(crate) fn make_removal<L: Ledger>(
    parts: &mut EngineParts,
    id: Text,
    removal: Removal,
    room: Room<Changed>,
    steps: &mut Steps<L>,
) -> List<Changed>
    requires { IsReady parts.old (Ready.DropStatement id removal) room }
    ensures are { AreOf parts.new.registry parts.new.verdicts (after (rows_in parts.old) (edit_ready parts.old.registry.table (Ready.DropStatement id removal))) [] }
    ensures changes { result ≡ changes (rows_in parts.old) (edit_ready parts.old.registry.table (Ready.DropStatement id removal)) }
    ensures steps { StepsWithin steps.old steps.new (made_looks (rows_in parts.old) (edit_ready parts.old.registry.table (Ready.DropStatement id removal))) }
{
    cpe_rows::law::statements_are_independent();
    let place = parts.verdicts.place_of(&id);
    let truth = parts.verdicts.verdict(&id);
    take_statement(parts, &id, removal, steps);
    dropped_change(room, place, truth)
}

// Removes the statement, and releases the names of its facts. The caller makes the changed verdict.
fn take_statement<L: Ledger>(
    parts: &mut EngineParts,
    id: &Text,
    removal: Removal,
    steps: &mut Steps<L>,
)
    requires lawful { IsLawful (rows_in parts.old) }
    requires are { AreOf parts.old.registry parts.old.verdicts (rows_in parts.old) [] }
    requires has { list_any (has_id id.now) (rows_in parts.old).statements ≡ true }
    requires removal { IsRemoval parts.old.verdicts id.now removal }
    ensures are { AreOf parts.new.registry parts.new.verdicts (after (rows_in parts.old) (edit.DropStatement id.now)) [] }
    ensures steps { steps.new ≡ steps.old }
{
    fact_laws::law::statements_ask();
    fact_laws::law::lists_are_shown();
    let table = parts.registry.table();
    let ids = parts.verdicts.remove_statement(table, id, removal, steps);
    release_all(&mut parts.registry, &ids);
}

// The verdict of the statement at a place, if there is one.
fn truth_at(verdicts: &Verdicts, place: usize) -> Option<Truth>
    ensures { (names : Names) (rows : Rows) → HasVerdicts names verdicts.now rows → result ≡ option_map (verdict rows) (slice_get rows.statements place) }
{
    match verdicts.at(place) {
        Some((_, truth)) => Some(truth),
        None => None,
    }
}

// The changed verdict if a statement is added at this place and then has this verdict.
fn put_change(room: Room<Changed>, place: usize, truth: Option<Truth>) -> List<Changed>
    requires few { place < 2 ^ 32 }
    requires empty { room.list ≡ [] }
    requires spare { 1 ≤ room.spare }
    ensures { result ≡ put_by place truth }
{
    match truth {
        Some(truth) => one_change(room, place, None, Some(truth)),
        None => room.into_list(),
    }
}

// The changed verdict if a statement is removed from this place and had this verdict.
fn dropped_change(room: Room<Changed>, place: Option<usize>, truth: Option<Truth>) -> List<Changed>
    requires few { IfSome place (λ k. k < 2 ^ 32) }
    requires empty { room.list ≡ [] }
    requires spare { 1 ≤ room.spare }
    ensures { result ≡ dropped_by place truth }
{
    match place {
        Some(place) => lost_change(room, place, truth),
        None => room.into_list(),
    }
}

fn lost_change(room: Room<Changed>, place: usize, truth: Option<Truth>) -> List<Changed>
    requires few { place < 2 ^ 32 }
    requires empty { room.list ≡ [] }
    requires spare { 1 ≤ room.spare }
    ensures { result ≡ dropped_by (Some place) truth }
{
    match truth {
        Some(truth) => one_change(room, place, Some(truth), None),
        None => room.into_list(),
    }
}

fn one_change(
    room: Room<Changed>,
    place: usize,
    before: Option<Truth>,
    after: Option<Truth>,
) -> List<Changed>
    requires few { place < 2 ^ 32 }
    requires empty { room.list ≡ [] }
    requires spare { 1 ≤ room.spare }
    ensures { result ≡ change place before after ∷ [] }
{
    let mut room = room;
    room.put_last(Changed {
        place: place as u32,
        before,
        after,
    });
    room.into_list()
}
