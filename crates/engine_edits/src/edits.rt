// An edit before it is made: its names get numbers, its faults are found, or it is refused.
ghost use Rattle.std.specs.Prelude.{◌≡◌, ◌≤◌, ◌+◌, ◌∷◌, [], IfErr, IfOk, None, OnErr, not, true};
ghost use Rattle.cpe_rows.specs.Prelude.{after, causes, first_some, is_valid_edit, IsCause, most, RefusesEdit, step, when};
ghost use Rattle.std.specs.Option.{option_map_or};
ghost use Rattle.cpe_rows.specs.Weight.{deprecation_weight, note_weight, weight as weight_of};
ghost use Rattle.cpe_rows.specs.declared.fault.Which.TheVariants as limit;
ghost use Rattle.row_weight.specs.Capped.{capped};
ghost use Rattle.row_weight.specs.Gain.{gain, loss};
ghost use Rattle.engine_edits.specs.Checked.{IsCheckedEdit};
ghost use Rattle.engine_edits.specs.Moved.{EditNumbered};
ghost use Rattle.engine_edits.specs.Numbered.{given, IsFound, names_coming, note_of};
ghost use Rattle.engine_edits.specs.Parts.{AreBeside, AreLawfulParts, AreOf, edit_in, rows_in};
ghost use Rattle.engine_edits.specs.Planned.{IsPlanOfEdit};

use crate::checked::CheckedEdit;
use crate::holds::release_coming;
use crate::numbered::{EntryChange, NumberedEdit, Turn};
use crate::parts::EngineParts;
use check_results::check_fault;
use cpe_dictionary::Plan;
use cpe_rows::{Edit, EditFault, MOST_WEIGHT, Which};
use row_weight::{
    with_active_entry, with_deprecation, with_key, with_name, with_note, with_statement,
};
use std::alloc::Global;

// ---- numbers

impl EngineParts {
    /// A valid edit with the numbers of its names. The table then holds each new name for the edit. A name that must be
    /// there already is only found.
    ///
    /// # Errors
    /// That the table has no such name, or that memory ran out. Rows and verdicts are then unchanged, and no name is
    /// held for the edit.
    pub(crate) fn number(&mut self, alloc: Global, edit: Edit) -> Result<NumberedEdit, EditFault>
        requires kept { AreLawfulParts self.old }
        requires valid { is_valid_edit edit ≡ true }
        ensures { EditNumbered self.old self.new edit result }
    {
        edit.formed();
        cpe_rows::law::causes_refuse();
        self.find_numbers(alloc, edit)
    }

    // The edit with its numbers, by its kind.
    fn find_numbers(&mut self, alloc: Global, edit: Edit) -> Result<NumberedEdit, EditFault>
        requires kept { AreLawfulParts self.old }
        requires valid { is_valid_edit edit ≡ true }
        ensures rows { rows_in self.new ≡ rows_in self.old }
        ensures verdicts { self.new.verdicts ≡ self.old.verdicts }
        ensures weight { self.new.weight ≡ self.old.weight }
        ensures edit { IfOk result (λ n. edit_in self.new n ≡ edit) }
        ensures found { IfOk result (IsFound self.new.registry.table) }
        ensures are { IfOk result (λ n. AreOf self.new.registry self.new.verdicts (rows_in self.old) (names_coming self.new.registry.table n)) }
        ensures left { OnErr result (AreOf self.new.registry self.new.verdicts (rows_in self.old) []) }
        ensures err { IfErr result (λ f. IsCause f (first_some (causes (rows_in self.old) edit))) }
    {
        match edit {
            Edit::Entry(entry) => Ok(self.number_entry(entry)?),
            Edit::Item(name) => Ok(NumberedEdit::Item(self.hold_name(name)?)),
            Edit::DropItem(name) => self.number_dropped_item(name),
            Edit::Deprecate {
                name,
                deprecation,
                date,
                comment,
            } => self.number_change(name, Turn::Give(deprecation), date, comment),
            Edit::Amend {
                name,
                deprecation,
                date,
                comment,
            } => self.number_change(name, Turn::Replace(deprecation), date, comment),
            Edit::Restore {
                name,
                date,
                comment,
            } => self.number_change(name, Turn::TakeAway, date, comment),
            Edit::PutStatement(statement) => self.number_statement(alloc, statement),
            Edit::DropStatement(id) => Ok(NumberedEdit::DropStatement(id)),
            Edit::SetCheck { key, result } => Ok(NumberedEdit::SetCheck { key, result }),
            Edit::DropCheck(key) => Ok(NumberedEdit::DropCheck(key)),
        }
    }

    // Drops an edit that isn't made, and releases the names that are held for it.
    fn discard(&mut self, numbered: NumberedEdit)
        requires { AreBeside self.old numbered }
        ensures rows { rows_in self.new ≡ rows_in self.old }
        ensures kept { AreLawfulParts self.new }
    {
        release_coming(&mut self.registry, numbered.into_coming());
    }

    /// The given fault. The edit isn't made: it is dropped, and the names that are held for it are released.
    pub(crate) fn refuse(&mut self, numbered: NumberedEdit, fault: EditFault) -> EditFault
        requires { AreBeside self.old numbered }
        ensures fault { result ≡ fault }
        ensures rows { rows_in self.new ≡ rows_in self.old }
        ensures kept { AreLawfulParts self.new }
    {
        self.discard(numbered);
        fault
    }
}

// ---- faults

impl EngineParts {
    /// The plan of an edit, and the weight of all rows after it, if the edit has no fault. The parts are unchanged.
    ///
    /// # Errors
    /// The first fault of the edit, or that memory ran out.
    pub(crate) fn check(&self, numbered: &NumberedEdit) -> Result<CheckedEdit, EditFault>
        requires { AreBeside self.now numbered.now }
        ensures ok { IfOk result (IsCheckedEdit (rows_in self.now) (edit_in self.now numbered.now)) }
        ensures err { IfErr result (λ f. RefusesEdit f (step (rows_in self.now) (edit_in self.now numbered.now))) }
    {
        cpe_rows::law::causes_are_faults();
        cpe_rows::law::causes_refuse();
        cpe_rows::law::rows_stay_lawful();
        let plan = self.plan(numbered)?;
        let weight = self.weight_after(numbered);
        if weight > MOST_WEIGHT {
            return Err(EditFault::Full(Which::Weight));
        }
        Ok(CheckedEdit { plan, weight })
    }

    // The plan, if the edit changes a deprecation.
    //
    // # Errors
    // The first fault of the edit except a too large weight, or that memory ran out.
    fn plan(&self, numbered: &NumberedEdit) -> Result<Option<Plan>, EditFault>
        requires { IsFound self.now.registry.table numbered.now }
        ensures planned { IfOk result (λ p. IsPlanOfEdit (rows_in self.now).entries (edit_in self.now numbered.now) p) }
        ensures ok { IfOk result (λ p. first_some (causes (rows_in self.now) (edit_in self.now numbered.now)) ≡ None) }
        ensures err { IfErr result (λ f. IsCause f (first_some (causes (rows_in self.now) (edit_in self.now numbered.now)))) }
    {
        match numbered {
            NumberedEdit::Entry { id, .. } => unplanned(self.registry.entry_fault(*id)),
            NumberedEdit::Item(id) => unplanned(self.registry.item_fault(*id)),
            NumberedEdit::DropItem(id) => known(self.registry.has_item(*id)),
            NumberedEdit::Change(change) => self.plan_change(change),
            NumberedEdit::PutStatement { statement, .. } => {
                unplanned(self.verdicts.statement_fault(statement))
            }
            NumberedEdit::DropStatement(id) => known(self.has_statement(id)),
            NumberedEdit::SetCheck { key, .. } => unplanned(check_fault(
                self.verdicts.results(),
                key,
            )),
            NumberedEdit::DropCheck(key) => known(self.verdicts.results().has(key)),
        }
    }
}

// ---- weight

impl EngineParts {
    // The weight of all rows after an edit without another fault, or the largest number if the weight is larger.
    fn weight_after(&self, numbered: &NumberedEdit) -> u64
        requires found { IsFound self.now.registry.table numbered.now }
        requires weight { self.now.weight ≡ weight_of (rows_in self.now) }
        requires within { weight_of (rows_in self.now) ≤ most limit.Weight }
        requires none { first_some (causes (rows_in self.now) (edit_in self.now numbered.now)) ≡ None }
        ensures { result ≡ capped (weight_of (after (rows_in self.now) (edit_in self.now numbered.now))) }
    {
        row_weight::law::edits_weigh();
        self.with_gain(self.weight - self.loss(numbered), numbered)
    }

    // The weight of what the edit removes.
    fn loss(&self, numbered: &NumberedEdit) -> u64
        requires found { IsFound self.now.registry.table numbered.now }
        requires within { weight_of (rows_in self.now) ≤ most limit.Weight }
        requires none { first_some (causes (rows_in self.now) (edit_in self.now numbered.now)) ≡ None }
        ensures { result ≡ loss (rows_in self.now) (edit_in self.now numbered.now) }
    {
        row_weight::law::edits_weigh();
        row_weight::law::losses_are_known();
        match numbered {
            NumberedEdit::DropItem(id) => with_name(0, self.registry.name(*id)),
            NumberedEdit::DropStatement(id) => self.statement_weight(id),
            NumberedEdit::DropCheck(key) => with_key(0, key),
            NumberedEdit::Change(change) => self.deprecation_weight(change.id),
            _ => 0,
        }
    }

    // The given weight plus the weight of what the edit adds, or the largest number if the sum is larger.
    fn with_gain(&self, weight: u64, numbered: &NumberedEdit) -> u64
        requires found { IsFound self.now.registry.table numbered.now }
        requires none { first_some (causes (rows_in self.now) (edit_in self.now numbered.now)) ≡ None }
        ensures { result ≡ capped (weight + gain (rows_in self.now) (edit_in self.now numbered.now)) }
    {
        match numbered {
            NumberedEdit::Entry {
                id,
                title,
                provenance,
            } => with_active_entry(weight, self.registry.name(*id), title, provenance),
            NumberedEdit::Item(id) => with_name(weight, self.registry.name(*id)),
            NumberedEdit::Change(change) => with_change(weight, change),
            NumberedEdit::PutStatement { statement, .. } => with_statement(weight, statement),
            NumberedEdit::SetCheck { key, .. } if !self.verdicts.results().has(key) => with_key(
                weight, key,
            ),
            _ => weight,
        }
    }
}

// No plan if the row that an edit removes was found, and else the fault. Such an edit has no other fault.
fn known(found: bool) -> Result<Option<Plan>, EditFault>
    ensures plan { IfOk result (λ p. p ≡ None) }
    ensures ok { IfOk result (λ p. first_some (when (not found) EditFault.Unknown ∷ []) ≡ None) }
    ensures err { IfErr result (λ f. IsCause f (first_some (when (not found) EditFault.Unknown ∷ []))) }
{
    if found {
        Ok(None)
    } else {
        Err(EditFault::Unknown)
    }
}

// No plan if there is no fault, and else the fault.
fn unplanned(fault: Option<EditFault>) -> Result<Option<Plan>, EditFault>
    ensures plan { IfOk result (λ p. p ≡ None) }
    ensures ok { IfOk result (λ p. fault ≡ None) }
    ensures err { IfErr result (λ f. IsCause f fault) }
{
    match fault {
        Some(fault) => Err(fault),
        None => Ok(None),
    }
}

// The given weight plus the weight of the note of a change, and of the deprecation that the change gives. It is at most
// the largest number.
fn with_change(weight: u64, change: &EntryChange) -> u64
    ensures { result ≡ capped (weight + (note_weight (note_of change.now.turn change.now.date change.now.comment) + option_map_or deprecation_weight (given change.now.turn) 0)) }
{
    let noted = with_note(weight, change.date, &change.comment);
    match change.turn.deprecation() {
        Some(deprecation) => with_deprecation(noted, deprecation),
        None => noted,
    }
}
