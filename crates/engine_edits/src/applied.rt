// An edit in two stages: the first takes all memory that the edit needs, and the second makes it.
ghost use Rattle.std.specs.Prelude.{◌≡◌, ◌≤◌, [], IfErr, IfOk, OnErr, map, true};
ghost use Rattle.name_index.specs.step_count.Within.{StepsWithin};
ghost use Rattle.cpe_rows.specs.Prelude.{after, Applied, changes, is_valid_edit, RefusesEdit, step, verdict};
ghost use Rattle.cpe_rows.specs.declared.edit.Edit.{Edit};
ghost use Rattle.verdicts.specs.Verdicts.{known_in};
ghost use Rattle.engine_edits.specs.Checked.{IsCheckedEdit};
ghost use Rattle.engine_edits.specs.Moved.{MadeReady, MayBeReady};
ghost use Rattle.engine_edits.specs.Parts.{AreBeside, AreLawfulParts, AreOf, edit_in, rows_in};
ghost use Rattle.engine_edits.specs.Planned.{IsPlanOfEdit};
ghost use Rattle.engine_edits.specs.Looks.{edit_looks, made_looks};
ghost use Rattle.engine_edits.specs.Ready.{edit_ready, IsReady, IsReadyEdit, places_of_edit};

use crate::checked::CheckedEdit;
use crate::checks::{make_check, make_dropped_check, ready_check};
use crate::entries::{make_change, make_entry, ready_change, ready_entry};
use crate::items::{make_drop, make_item, ready_drop, ready_item};
use crate::numbered::NumberedEdit;
use crate::parts::EngineParts;
use crate::ready::{Ready, ReadyEdit};
use crate::statements::{make_removal, make_statement, ready_removal, ready_statement};
use cpe_dictionary::Plan;
use cpe_rows::{Changed, Edit, EditFault, List, Memory, Room};
use name_index::Steps;
use std::alloc::Global;
use std::sync::ledger::Ledger;

impl EngineParts {
    /// The edit, after all memory for it is taken. The rows are unchanged. Later verdicts are compared with those that
    /// statements have after this call. It looks at no name.
    ///
    /// # Errors
    /// The first fault of the edit in the order of [`EditFault`], or that memory ran out. No name is then held for the
    /// edit.
    pub fn ready(&mut self, alloc: Global, edit: Edit) -> Result<ReadyEdit, EditFault>
        requires kept { AreLawfulParts self.old }
        requires valid { is_valid_edit edit ≡ true }
        ensures rows { rows_in self.new ≡ rows_in self.old }
        ensures ready { IfOk result (IsReadyEdit self.new edit) }
        ensures kept { OnErr result (AreLawfulParts self.new) }
        ensures err { IfErr result (λ f. RefusesEdit f (step (rows_in self.old) edit)) }
    {
        self.forget_changes();
        let numbered = self.number(alloc, edit)?;
        match foresee(self, alloc, &numbered) {
            Ok((checked, room)) => Ok(ready_checked(self, alloc, numbered, checked, room)?),
            Err(fault) => Err(self.refuse(numbered, fault)),
        }
    }

    /// The verdicts that a ready edit changes. It makes the edit, and can't fail. Allocates: no.
    pub fn make<L: Ledger>(&mut self, ready: ReadyEdit, steps: &mut Steps<L>) -> List<Changed>
        requires { (e : Edit) × IsReadyEdit self.old e ready }
        ensures kept { AreLawfulParts self.new }
        ensures rows { (e : Edit) → IsReadyEdit self.old e ready → rows_in self.new ≡ after (rows_in self.old) e }
        ensures changes { (e : Edit) → IsReadyEdit self.old e ready → result ≡ changes (rows_in self.old) e }
        ensures steps { (e : Edit) → IsReadyEdit self.old e ready → StepsWithin steps.old steps.new (made_looks (rows_in self.old) e) }
    {
        cpe_rows::law::rows_stay_lawful();
        let ReadyEdit { edit, weight, room } = ready;
        let changes = make(self, edit, room, steps);
        self.weight = weight;
        changes
    }

    /// The verdicts that an edit changes. It makes the edit in both stages: [`EngineParts::ready`] and
    /// [`EngineParts::make`]. A refused edit takes no step.
    ///
    /// # Errors
    /// The first fault of the edit in the order of [`EditFault`], or that memory ran out. The rows are then unchanged,
    /// and no name is held for the edit.
    pub fn apply<L: Ledger>(
        &mut self,
        alloc: Global,
        edit: Edit,
        steps: &mut Steps<L>,
    ) -> Result<List<Changed>, EditFault>
        requires kept { AreLawfulParts self.old }
        requires valid { is_valid_edit edit ≡ true }
        ensures kept { AreLawfulParts self.new }
        ensures applied { Applied (rows_in self.old) (rows_in self.new) edit result }
        ensures changes { IfOk result (λ cs. cs ≡ changes (rows_in self.old) edit) }
        ensures steps { StepsWithin steps.old steps.new (edit_looks (rows_in self.old) edit) }
        ensures refused { OnErr result (steps.new ≡ steps.old) }
    {
        match self.ready(alloc, edit) {
            Ok(ready) => Ok(self.make(ready, steps)),
            Err(fault) => Err(fault),
        }
    }
}

// The plan and the weight of an edit without a fault, and places for the verdicts that it changes. The parts are
// unchanged.
//
// # Errors
// The first fault of the edit, or that memory ran out.
fn foresee(
    parts: &EngineParts,
    alloc: Global,
    numbered: &NumberedEdit,
) -> Result<(CheckedEdit, Room<Changed>), EditFault>
    requires { AreBeside parts.now numbered.now }
    ensures checked { IfOk result (λ r. IsCheckedEdit (rows_in parts.now) (edit_in parts.now numbered.now) r.0) }
    ensures empty { IfOk result (λ r. r.1.list ≡ []) }
    ensures spare { IfOk result (λ r. places_of_edit (rows_in parts.now) (edit_in parts.now numbered.now) ≤ r.1.spare) }
    ensures err { IfErr result (λ f. RefusesEdit f (step (rows_in parts.now) (edit_in parts.now numbered.now))) }
{
    let checked = parts.check(numbered)?;
    let room = room(parts, alloc, numbered)?;
    Ok((checked, room))
}

// Empty places for the verdicts that an edit changes.
//
// # Errors
// Only that memory ran out.
fn room(
    parts: &EngineParts,
    alloc: Global,
    numbered: &NumberedEdit,
) -> Result<Room<Changed>, Memory>
    ensures empty { IfOk result (λ r. r.list ≡ []) }
    ensures spare { IfOk result (λ r. places_of_edit (rows_in parts.now) (edit_in parts.now numbered.now) ≤ r.spare) }
{
    let mut room = Room::new(alloc);
    room.reserve(places(parts, numbered))?;
    Ok(room)
}

fn places(parts: &EngineParts, numbered: &NumberedEdit) -> usize
    ensures { result ≡ places_of_edit (rows_in parts.now) (edit_in parts.now numbered.now) }
{
    match numbered {
        NumberedEdit::Entry { .. } => 0,
        NumberedEdit::PutStatement { .. } | NumberedEdit::DropStatement(_) => 1,
        _ => parts.verdicts.len(),
    }
}

// Takes the rest of the memory for an edit without a fault.
//
// # Errors
// Only that memory ran out. The names that are held for the edit are then released.
fn ready_checked(
    parts: &mut EngineParts,
    alloc: Global,
    numbered: NumberedEdit,
    checked: CheckedEdit,
    room: Room<Changed>,
) -> Result<ReadyEdit, Memory>
    requires beside { AreBeside parts.old numbered }
    requires checked { IsCheckedEdit (rows_in parts.old) (edit_in parts.old numbered) checked }
    requires known { known_in parts.old.verdicts ≡ map (verdict (rows_in parts.old)) (rows_in parts.old).statements }
    requires empty { room.list ≡ [] }
    requires spare { places_of_edit (rows_in parts.old) (edit_in parts.old numbered) ≤ room.spare }
    ensures rows { rows_in parts.new ≡ rows_in parts.old }
    ensures ready { IfOk result (IsReadyEdit parts.new (edit_in parts.old numbered)) }
    ensures kept { OnErr result (AreLawfulParts parts.new) }
{
    let CheckedEdit { plan, weight } = checked;
    match ready_by_kind(parts, alloc, numbered, plan) {
        Ok(edit) => Ok(ReadyEdit { edit, weight, room }),
        Err(memory) => {
            drop(room);
            Err(memory)
        }
    }
}

// Takes the memory that the edit needs by its kind.
fn ready_by_kind(
    parts: &mut EngineParts,
    alloc: Global,
    numbered: NumberedEdit,
    plan: Option<Plan>,
) -> Result<Ready, Memory>
    requires ready { MayBeReady parts.old numbered }
    requires planned { IsPlanOfEdit (rows_in parts.old).entries (edit_in parts.old numbered) plan }
    ensures { MadeReady parts.old parts.new numbered result }
{
    match numbered {
        NumberedEdit::Entry {
            id,
            title,
            provenance,
        } => ready_entry(parts, id, title, provenance),
        NumberedEdit::Item(id) => ready_item(parts, alloc, id),
        NumberedEdit::DropItem(id) => ready_drop(parts, alloc, id),
        NumberedEdit::Change(change) => match plan {
            Some(plan) => ready_change(parts, alloc, change, plan),
            None => unreachable!(),
        },
        NumberedEdit::PutStatement { statement, ids } => ready_statement(
            parts, alloc, statement, ids,
        ),
        NumberedEdit::DropStatement(id) => ready_removal(parts, alloc, id),
        NumberedEdit::SetCheck { key, result } => ready_check(parts, key, result),
        NumberedEdit::DropCheck(key) => Ok(Ready::DropCheck(key)),
    }
}

// The verdicts that a ready edit changes. It makes the edit by its kind. The caller sets the weight.
fn make<L: Ledger>(
    parts: &mut EngineParts,
    edit: Ready,
    room: Room<Changed>,
    steps: &mut Steps<L>,
) -> List<Changed>
    requires { IsReady parts.old edit room }
    ensures are { AreOf parts.new.registry parts.new.verdicts (after (rows_in parts.old) (edit_ready parts.old.registry.table edit)) [] }
    ensures changes { result ≡ changes (rows_in parts.old) (edit_ready parts.old.registry.table edit) }
    ensures steps { StepsWithin steps.old steps.new (made_looks (rows_in parts.old) (edit_ready parts.old.registry.table edit)) }
{
    match edit {
        Ready::Entry {
            id,
            title,
            provenance,
        } => make_entry(parts, id, title, provenance, room),
        Ready::Item { id, ends } => make_item(parts, id, ends, room, steps),
        Ready::DropItem { id, ends } => make_drop(parts, id, ends, room, steps),
        Ready::Change(change) => make_change(parts, change, room, steps),
        Ready::PutStatement { addition, ids } => make_statement(parts, addition, ids, room, steps),
        Ready::DropStatement { id, removal } => make_removal(parts, id, removal, room, steps),
        Ready::SetCheck { key, truth } => make_check(parts, key, truth, room),
        Ready::DropCheck(key) => make_dropped_check(parts, key, room),
    }
}
