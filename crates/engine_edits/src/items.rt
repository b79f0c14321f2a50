// Items that are added or removed.
ghost use Rattle.std.specs.Prelude.{◌≡◌, ◌∷◌, [], IfErr, IfOk, OnErr, true, OnOk, false};
ghost use Rattle.cpe_rows.specs.Prelude.{causes, first_some, is_lower, IsCause, after, changes, is_same, IsLawful};
ghost use Rattle.cpe_rows.specs.declared.edit.Edit.TheVariants as edit;
ghost use Rattle.name_index.specs.Table.{IsLive};
ghost use Rattle.verdicts.specs.name_registry.Registered.{name_in};
ghost use Rattle.engine_edits.specs.Numbered.{IsFound, names_coming};
ghost use Rattle.engine_edits.specs.Parts.{AreLawfulParts, AreOf, edit_in, rows_in};
ghost use Rattle.std.specs.List.{list_any};
ghost use Rattle.name_index.specs.step_count.Within.{StepsWithin};
ghost use Rattle.engine_edits.specs.Prelude.{known_in};
ghost use Rattle.verdicts.specs.facts.Looks.{item_looks};
ghost use Rattle.engine_edits.specs.Looks.{made_looks};
ghost use Rattle.engine_edits.specs.Moved.{MadeReady, MayBeReady, SameParts};
ghost use Rattle.engine_edits.specs.Ready.{edit_ready, IsReady, IsReadyItem};

use crate::holds::release_all;
use crate::numbered::NumberedEdit;
use crate::parts::EngineParts;
use crate::ready::Ready;
use cpe_rows::{Changed, EditFault, List, Memory, Room, Wfn};
use name_index::{NameId, Steps};
use std::alloc::Global;
use std::sync::ledger::Ledger;

impl EngineParts {
    /// Holds the name of a new entry or a new item, and returns its number.
    ///
    /// # Errors
    /// Only that memory ran out. Rows, verdicts and weight are then unchanged, and the name isn't held.
    pub(crate) fn hold_name(&mut self, name: Wfn) -> Result<NameId, Memory>
        requires kept { AreLawfulParts self.old }
        requires lower { is_lower name ≡ true }
        ensures rows { rows_in self.new ≡ rows_in self.old }
        ensures verdicts { self.new.verdicts ≡ self.old.verdicts }
        ensures weight { self.new.weight ≡ self.old.weight }
        ensures live { IfOk result (λ id. IsLive self.new.registry.table id.0) }
        ensures named { IfOk result (λ id. name_in self.new.registry.table id ≡ name) }
        ensures are { IfOk result (λ id. AreOf self.new.registry self.new.verdicts (rows_in self.old) (name_in self.new.registry.table id ∷ [])) }
        ensures err { OnErr result (AreOf self.new.registry self.new.verdicts (rows_in self.old) []) }
    {
        cpe_rows::law::names_are_equal();
        fact_laws::law::lists_are_shown();
        fact_laws::law::tables_are_lists();
        verdicts::law::held_names_keep_verdicts();
        fact_laws::law::lawful_rows_ask_few();
        let id = self.registry.hold_moved(name)?;
        Ok(id)
    }

    /// The removal of the item of this name, with the number of the name.
    ///
    /// # Errors
    /// That the table has no such name.
    pub(crate) fn number_dropped_item(&self, name: Wfn) -> Result<NumberedEdit, EditFault>
        ensures edit { IfOk result (λ n. edit_in self.now n ≡ edit.DropItem name) }
        ensures found { IfOk result (IsFound self.now.registry.table) }
        ensures coming { IfOk result (λ n. names_coming self.now.registry.table n ≡ []) }
        ensures err { IfErr result (λ f. IsCause f (first_some (causes (rows_in self.now) (edit.DropItem name)))) }
    {
        let found = self.registry.find(&name);
        drop(name);
        match found {
            Some(id) => Ok(NumberedEdit::DropItem(id)),
            None => Err(EditFault::Unknown),
        }
    }
}

// ---- the first stage: all memory

/// Takes all memory for a new item. Its name is held already.
///
/// # Errors
/// Only that memory ran out. The name is then released.
pub(crate) fn ready_item(
    parts: &mut EngineParts,
    alloc: Global,
    id: NameId,
) -> Result<Ready, Memory>
    requires { MayBeReady parts.old (NumberedEdit.Item id) }
    ensures { MadeReady parts.old parts.new (NumberedEdit.Item id) result }
{
    match reserve_item(parts, alloc, id) {
        Ok(ends) => Ok(Ready::Item { id, ends }),
        Err(memory) => {
            release_all(&mut parts.registry, &[id]);
            Err(memory)
        }
    }
}

// The ends of a new item, after room is made for it in the registry and on the boards. If memory runs out, its name is
// still held.
fn reserve_item(parts: &mut EngineParts, alloc: Global, id: NameId) -> Result<Vec<NameId>, Memory>
    requires live { IsLive parts.old.registry.table id.0 }
    requires lawful { IsLawful (rows_in parts.old) }
    requires are { AreOf parts.old.registry parts.old.verdicts (rows_in parts.old) (name_in parts.old.registry.table id ∷ []) }
    ensures same { SameParts parts.old parts.new }
    ensures table { parts.new.registry.table ≡ parts.old.registry.table }
    ensures are { AreOf parts.new.registry parts.new.verdicts (rows_in parts.old) (name_in parts.old.registry.table id ∷ []) }
    ensures ready { IfOk result (λ ends. IsReadyItem parts.new id ends.items) }
{
    fact_laws::law::lawful_rows_ask_few();
    let ends = parts.registry.ends_of(alloc, id)?;
    parts.verdicts.reserve_item(parts.registry.table(), &ends)?;
    parts.registry.reserve_item(id)?;
    Ok(ends)
}

/// The removal of an item, with the ends of the item.
///
/// # Errors
/// Only that memory ran out.
pub(crate) fn ready_drop(parts: &EngineParts, alloc: Global, id: NameId) -> Result<Ready, Memory>
    requires { MayBeReady parts.now (NumberedEdit.DropItem id) }
    ensures { MadeReady parts.now parts.now (NumberedEdit.DropItem id) result }
{
    match parts.registry.ends_of(alloc, id) {
        Ok(ends) => Ok(Ready::DropItem { id, ends }),
        Err(memory) => Err(memory),
    }
}

// ---- the second stage: the change

/// Adds an item, and returns the verdicts that change. The table holds its name already, and from now on holds it for
/// the item.
pub(crate) fn make_item<L: Ledger>(
    parts: &mut EngineParts,
    id: NameId,
    ends: Vec<NameId>,
    room: Room<Changed>,
    steps: &mut Steps<L>,
) -> List<Changed>
    requires { IsReady parts.old (Ready.Item id ends) room }
    ensures are { AreOf parts.new.registry parts.new.verdicts (after (rows_in parts.old) (edit_ready parts.old.registry.table (Ready.Item id ends))) [] }
    ensures changes { result ≡ changes (rows_in parts.old) (edit_ready parts.old.registry.table (Ready.Item id ends)) }
    ensures steps { StepsWithin steps.old steps.new (made_looks (rows_in parts.old) (edit_ready parts.old.registry.table (Ready.Item id ends))) }
{
    fact_laws::law::items_arrive();
    fact_laws::law::lists_are_shown();
    parts.registry.add_item(id);
    parts
        .verdicts
        .add_item(parts.registry.table(), id, &ends, steps);
    parts.verdicts.changes(room)
}

/// Removes an item, releases its name, and returns the verdicts that change.
pub(crate) fn make_drop<L: Ledger>(
    parts: &mut EngineParts,
    id: NameId,
    ends: Vec<NameId>,
    room: Room<Changed>,
    steps: &mut Steps<L>,
) -> List<Changed>
    requires { IsReady parts.old (Ready.DropItem id ends) room }
    ensures are { AreOf parts.new.registry parts.new.verdicts (after (rows_in parts.old) (edit_ready parts.old.registry.table (Ready.DropItem id ends))) [] }
    ensures changes { result ≡ changes (rows_in parts.old) (edit_ready parts.old.registry.table (Ready.DropItem id ends)) }
    ensures steps { StepsWithin steps.old steps.new (made_looks (rows_in parts.old) (edit_ready parts.old.registry.table (Ready.DropItem id ends))) }
{
    fact_laws::law::items_arrive();
    fact_laws::law::lists_are_shown();
    parts
        .verdicts
        .remove_item(parts.registry.table(), id, &ends, steps);
    parts.registry.drop_item(id);
    release_all(&mut parts.registry, &[id]);
    parts.verdicts.changes(room)
}
