// Entries that are added, and changes of deprecations.
ghost use Rattle.std.specs.Prelude.{◌≡◌, ◌≤◌, [], IfErr, IfOk, None, OnErr, true, OnOk};
ghost use Rattle.cpe_rows.specs.Prelude.{causes, first_some, is_named, is_valid_edit, IsCause, most, after, changes, IsLawful};
ghost use Rattle.cpe_rows.specs.declared.edit.Edit.TheVariants as edit;
ghost use Rattle.cpe_rows.specs.declared.fault.Which.TheVariants as limit;
ghost use Rattle.name_index.specs.Table.{IsLive};
ghost use Rattle.row_weight.specs.Gain.{deprecated_weight, weight_of_first};
ghost use Rattle.verdicts.specs.name_registry.Registered.{name_in};
ghost use Rattle.engine_edits.specs.Numbered.{given, IsFound, names_coming, turned_entry};
ghost use Rattle.engine_edits.specs.Parts.{AreLawfulParts, AreOf, edit_in, rows_in};
ghost use Rattle.engine_edits.specs.Planned.{HasPlan};
ghost use Rattle.name_index.specs.step_count.Within.{StepsWithin};
ghost use Rattle.engine_edits.specs.Prelude.{IsReadyLead, known_in};
ghost use Rattle.cpe_dictionary.specs.Plans.{IsPlan};
ghost use Rattle.verdicts.specs.name_registry.Registered.{HasChangeRoom};
ghost use Rattle.engine_edits.specs.Looks.{made_looks};
ghost use Rattle.engine_edits.specs.Moved.{MadeReady, MayBeReady, SameParts};
ghost use Rattle.engine_edits.specs.Ready.{edit_ready, IsReady};

use crate::holds::release_all;
use crate::numbered::{EntryChange, NumberedEdit, Turn};
use crate::parts::EngineParts;
use crate::ready::{Ready, ReadyChange};
use cpe_dictionary::{NoteRoom, Plan, edits_by_number};
use cpe_rows::{Changed, Date, EditFault, Entry, List, Memory, Provenance, Room, Text, Wfn};
use name_index::{NameId, Steps};
use row_weight::with_deprecation;
use std::alloc::Global;
use std::sync::ledger::Ledger;
use verdicts::Lead;

// ---- numbers

impl EngineParts {
    /// A new entry with the number of its name. The table then holds the name.
    ///
    /// # Errors
    /// Only that memory ran out. Rows, verdicts and weight are then unchanged, and the name isn't held.
    pub(crate) fn number_entry(&mut self, entry: Entry) -> Result<NumberedEdit, Memory>
        requires kept { AreLawfulParts self.old }
        requires valid { is_valid_edit (edit.Entry entry) ≡ true }
        ensures rows { rows_in self.new ≡ rows_in self.old }
        ensures verdicts { self.new.verdicts ≡ self.old.verdicts }
        ensures weight { self.new.weight ≡ self.old.weight }
        ensures edit { IfOk result (λ n. edit_in self.new n ≡ edit.Entry entry) }
        ensures found { IfOk result (IsFound self.new.registry.table) }
        ensures are { IfOk result (λ n. AreOf self.new.registry self.new.verdicts (rows_in self.old) (names_coming self.new.registry.table n)) }
        ensures err { OnErr result (AreOf self.new.registry self.new.verdicts (rows_in self.old) []) }
    {
        let Entry {
            name,
            title,
            provenance,
            deprecation: _,
        } = entry;
        match self.hold_name(name) {
            Ok(id) => Ok(NumberedEdit::Entry {
                id,
                title,
                provenance,
            }),
            Err(memory) => Err(discard(title, provenance, memory)),
        }
    }

    /// A change of the deprecation of the entry of this name, with the number of the name.
    ///
    /// # Errors
    /// That the table has no such name.
    pub(crate) fn number_change(
        &self,
        name: Wfn,
        turn: Turn,
        date: Date,
        comment: Text,
    ) -> Result<NumberedEdit, EditFault>
        ensures edit { IfOk result (λ n. edit_in self.now n ≡ turned_entry name turn date comment) }
        ensures found { IfOk result (IsFound self.now.registry.table) }
        ensures coming { IfOk result (λ n. names_coming self.now.registry.table n ≡ []) }
        ensures err { IfErr result (λ f. IsCause f (first_some (causes (rows_in self.now) (turned_entry name turn date comment)))) }
    {
        let found = self.registry.find(&name);
        drop(name);
        match found {
            Some(id) => Ok(NumberedEdit::Change(EntryChange {
                id,
                turn,
                date,
                comment,
            })),
            None => {
                drop(turn);
                drop(comment);
                Err(EditFault::Unknown)
            }
        }
    }
}

// ---- faults and weight

impl EngineParts {
    /// The plan of a change of a deprecation.
    ///
    /// # Errors
    /// The first fault of the edit except a too large weight, or that memory ran out.
    pub(crate) fn plan_change(&self, change: &EntryChange) -> Result<Option<Plan>, EditFault>
        requires { IsLive self.now.registry.table change.now.id.0 }
        ensures planned { IfOk result (HasPlan (rows_in self.now).entries (name_in self.now.registry.table change.now.id) (given change.now.turn)) }
        ensures ok { IfOk result (λ p. first_some (causes (rows_in self.now) (turned_entry (name_in self.now.registry.table change.now.id) change.now.turn change.now.date change.now.comment)) ≡ None) }
        ensures err { IfErr result (λ f. IsCause f (first_some (causes (rows_in self.now) (turned_entry (name_in self.now.registry.table change.now.id) change.now.turn change.now.date change.now.comment)))) }
    {
        let number = self.registry.entry_number(change.id);
        let name = self.registry.name(change.id);
        let first = change.turn.is_first();
        let deprecation = change.turn.deprecation();
        let dictionary = self.registry.dictionary();
        let plan = dictionary.plan(name, number, first, deprecation)?;
        Ok(Some(plan))
    }

    /// The weight of the deprecation of an entry, by the number of the entry's name. It is 0 if there is no such entry,
    /// or if the entry isn't deprecated.
    pub(crate) fn deprecation_weight(&self, id: NameId) -> u64
        requires live { IsLive self.now.registry.table id.0 }
        requires few { weight_of_first deprecated_weight (is_named (name_in self.now.registry.table id)) (rows_in self.now).entries ≤ most limit.Weight }
        ensures { result ≡ weight_of_first deprecated_weight (is_named (name_in self.now.registry.table id)) (rows_in self.now).entries }
    {
        let dictionary = self.registry.dictionary();
        let Some(number) = self.registry.entry_number(id) else {
            return 0;
        };
        match dictionary.deprecation_at(number) {
            Some(deprecation) => with_deprecation(0, deprecation),
            None => 0,
        }
    }
}

// Drops the rest of an entry after memory ran out.
fn discard(title: Text, provenance: Provenance, memory: Memory) -> Memory {
    drop(title);
    drop(provenance);
    memory
}

// ---- the first stage: all memory

/// Takes all memory for a new entry. Its name is held already.
///
/// # Errors
/// Only that memory ran out. The name is then released.
pub(crate) fn ready_entry(
    parts: &mut EngineParts,
    id: NameId,
    title: Text,
    provenance: Provenance,
) -> Result<Ready, Memory>
    requires { MayBeReady parts.old (NumberedEdit.Entry id title provenance) }
    ensures { MadeReady parts.old parts.new (NumberedEdit.Entry id title provenance) result }
{
    match parts.registry.reserve_entry(id) {
        Ok(()) => Ok(Ready::Entry {
            id,
            title,
            provenance,
        }),
        Err(memory) => {
            release_all(&mut parts.registry, &[id]);
            Err(discard(title, provenance, memory))
        }
    }
}

/// Takes all memory for a planned change of a deprecation, and finds what it does to items and facts.
///
/// # Errors
/// Only that memory ran out.
pub(crate) fn ready_change(
    parts: &mut EngineParts,
    alloc: Global,
    change: EntryChange,
    plan: Plan,
) -> Result<Ready, Memory>
    requires ready { MayBeReady parts.old (NumberedEdit.Change change) }
    requires plan { IsPlan (rows_in parts.old).entries (name_in parts.old.registry.table change.id) (given change.turn) plan }
    ensures { MadeReady parts.old parts.new (NumberedEdit.Change change) result }
{
    cpe_rows::law::rows_stay_lawful();
    match reserve_change(parts, alloc, &change, &plan) {
        Ok((note, lead)) => Ok(Ready::Change(ReadyChange {
            change,
            plan,
            lead,
            note,
        })),
        Err(memory) => {
            drop(change);
            drop(plan);
            Err(memory)
        }
    }
}

// Room for the note of a change, and what the change does to items and facts.
fn reserve_change(
    parts: &mut EngineParts,
    alloc: Global,
    change: &EntryChange,
    plan: &Plan,
) -> Result<(NoteRoom, Lead), Memory>
    requires live { IsLive parts.old.registry.table change.now.id.0 }
    requires lawful { IsLawful (rows_in parts.old) }
    requires are { AreOf parts.old.registry parts.old.verdicts (rows_in parts.old) [] }
    requires plan { IsPlan (rows_in parts.old).entries (name_in parts.old.registry.table change.now.id) (given change.now.turn) plan.now }
    ensures same { SameParts parts.old parts.new }
    ensures table { parts.new.registry.table ≡ parts.old.registry.table }
    ensures are { AreOf parts.new.registry parts.new.verdicts (rows_in parts.old) [] }
    ensures room { IfOk result (λ r. HasChangeRoom parts.new.registry plan.now r.0) }
    ensures lead { IfOk result (λ r. IsReadyLead parts.new.verdicts parts.new.registry.table (rows_in parts.old) (after (rows_in parts.old) (edit_in parts.old (NumberedEdit.Change change.now))).entries (name_in parts.old.registry.table change.now.id) r.1) }
{
    edits_by_number();
    let note = parts.registry.reserve_change(plan)?;
    let lead = parts
        .verdicts
        .ready_lead(alloc, &parts.registry, change.id, plan)?;
    Ok((note, lead))
}

// ---- the second stage: the change

/// Adds an entry. The table holds its name already, and from now on holds it for the entry. No verdict changes.
pub(crate) fn make_entry(
    parts: &mut EngineParts,
    id: NameId,
    title: Text,
    provenance: Provenance,
    room: Room<Changed>,
) -> List<Changed>
    requires { IsReady parts.old (Ready.Entry id title provenance) room }
    ensures are { AreOf parts.new.registry parts.new.verdicts (after (rows_in parts.old) (edit_ready parts.old.registry.table (Ready.Entry id title provenance))) [] }
    ensures changes { result ≡ changes (rows_in parts.old) (edit_ready parts.old.registry.table (Ready.Entry id title provenance)) }
{
    cpe_rows::touching::entries_change_nothing();
    fact_laws::law::entries_lead_to_themselves();
    fact_laws::law::lists_are_shown();
    cpe_rows::law::rows_stay_lawful();
    verdicts::law::new_entries_change_no_verdict();
    parts.registry.add_entry(id, title, provenance);
    room.into_list()
}

/// Changes the deprecation of an entry, and returns the verdicts that change.
pub(crate) fn make_change<L: Ledger>(
    parts: &mut EngineParts,
    change: ReadyChange,
    room: Room<Changed>,
    steps: &mut Steps<L>,
) -> List<Changed>
    requires { IsReady parts.old (Ready.Change change) room }
    ensures are { AreOf parts.new.registry parts.new.verdicts (after (rows_in parts.old) (edit_ready parts.old.registry.table (Ready.Change change))) [] }
    ensures changes { result ≡ changes (rows_in parts.old) (edit_ready parts.old.registry.table (Ready.Change change)) }
    ensures steps { StepsWithin steps.old steps.new (made_looks (rows_in parts.old) (edit_ready parts.old.registry.table (Ready.Change change))) }
{
    cpe_rows::law::rows_stay_lawful();
    let ReadyChange {
        change,
        plan,
        lead,
        note,
    } = change;
    lead_change(parts, change, &plan, lead, note, steps);
    parts.verdicts.changes(room)
}

// Changes the deprecation of an entry. The caller collects the changed verdicts.
fn lead_change<L: Ledger>(
    parts: &mut EngineParts,
    change: EntryChange,
    plan: &Plan,
    lead: Lead,
    note_room: NoteRoom,
    steps: &mut Steps<L>,
)
    requires lawful { IsLawful (rows_in parts.old) }
    requires are { AreOf parts.old.registry parts.old.verdicts (rows_in parts.old) [] }
    requires plan { IsPlan (rows_in parts.old).entries (name_in parts.old.registry.table change.id) (given change.turn) plan.now }
    requires left { IsLawful (after (rows_in parts.old) (edit_in parts.old (NumberedEdit.Change change))) }
    requires lead { IsReadyLead parts.old.verdicts parts.old.registry.table (rows_in parts.old) (after (rows_in parts.old) (edit_in parts.old (NumberedEdit.Change change))).entries (name_in parts.old.registry.table change.id) lead }
    requires room { HasChangeRoom parts.old.registry plan.now note_room }
    ensures are { AreOf parts.new.registry parts.new.verdicts (after (rows_in parts.old) (edit_in parts.old (NumberedEdit.Change change))) [] }
    ensures known { known_in parts.new.verdicts ≡ known_in parts.old.verdicts }
    ensures steps { StepsWithin steps.old steps.new (made_looks (rows_in parts.old) (edit_in parts.old (NumberedEdit.Change change))) }
{
    edits_by_number();
    cpe_rows::touching::deprecations_touch();
    fact_laws::law::deprecations_lead_elsewhere();
    let (deprecation, note) = change.into_parts();
    parts.registry.change(plan, deprecation, note, note_room);
    parts.verdicts.lead(parts.registry.table(), lead, steps);
}
