// Planned changes of an entry's deprecation.
ghost use Rattle.std.specs.Prelude.{◌≡◌, IfOk, IfErr, None, Option, Some, if◌then◌else◌, not, position, option_copied};
ghost use Rattle.cpe_rows.specs.Prelude.{first_some, is_named, IsCause, when};
ghost use Rattle.cpe_rows.specs.declared.entry.Note.{Note};
ghost use Rattle.cpe_dictionary.specs.Causes.{change_causes, deprecation_causes, state_causes, width_cause};
ghost use Rattle.cpe_dictionary.specs.Plans.{IsPlan};

use crate::by_number::{edits_are_changes, edits_by_number};
use crate::dictionary::Dictionary;
use crate::successors::find_successors;
use cpe_rows::{Deprecation, EditFault, List, Wfn};

/// A change of an entry's deprecation that its dictionary allows. Entries are given by their numbers, which are their
/// places from 0. [`KeptDictionary::commit`](crate::KeptDictionary::commit) makes the change.
#[derive(Debug, Drop)]
pub struct Plan {
    /// The number of the entry.
    pub number: u32,
    /// The numbers of the entry's successors, or `None` if the entry becomes active.
    pub next: Option<List<u32>>,
}

impl Plan {
    /// The numbers of the entry's successors, or `None` if the entry becomes active.
    pub(crate) fn next(&self) -> Option<&[u32]>
        ensures { option_copied result ≡ self.now.next }
    {
        match &self.next {
            Some(next) => Some(next.as_slice()),
            None => None,
        }
    }
}

impl Dictionary<'_> {
    /// A plan to give the entry of this name a deprecation, or to make it active if there is none. If an entry has the
    /// name, `number` is its number. Before the change the entry has to be active if `active` is true, and deprecated
    /// otherwise.
    ///
    /// # Errors
    /// The first fault of the change, apart from the weight, or [`EditFault::Memory`] if memory runs out.
    pub fn plan(
        &self,
        name: &Wfn,
        number: Option<u32>,
        active: bool,
        deprecation: Option<&Deprecation>,
    ) -> Result<Plan, EditFault>
        requires { number ≡ position (is_named name.now) self.now }
        ensures plan { IfOk result (λ p. IsPlan self.now name.now (option_copied deprecation.entry) p) }
        ensures ok { IfOk result (λ p. (note : Option Note) → first_some (change_causes self.now name.now active (option_copied deprecation.entry) note) ≡ None) }
        ensures err { IfErr result (λ f. (note : Option Note) → IsCause f (first_some (change_causes self.now name.now active (option_copied deprecation.entry) note))) }
    {
        let number = self.find_in_state(name, number, active)?;
        match deprecation {
            Some(deprecation) => self.plan_deprecation(name, number, deprecation),
            None => self.plan_restoration(name, number),
        }
    }

    // A plan to give a deprecation to the entry that has this name and this number.
    fn plan_deprecation(
        &self,
        name: &Wfn,
        number: u32,
        deprecation: &Deprecation,
    ) -> Result<Plan, EditFault>
        requires { position (is_named name.now) self.now ≡ Some number }
        ensures plan { IfOk result (λ p. IsPlan self.now name.now (Some deprecation.now) p) }
        ensures ok { IfOk result (λ p. (note : Option Note) → first_some (deprecation_causes self.now name.now deprecation.now note) ≡ None) }
        ensures err { IfErr result (λ f. (note : Option Note) → IsCause f (first_some (deprecation_causes self.now name.now deprecation.now note))) }
    {
        let next = find_successors(self.memory(), self, name, number, deprecation)?;
        Ok(Plan {
            number,
            next: Some(next),
        })
    }

    // A plan to remove the deprecation of the entry that has this name and this number.
    fn plan_restoration(&self, name: &Wfn, number: u32) -> Result<Plan, EditFault>
        requires { position (is_named name.now) self.now ≡ Some number }
        ensures plan { IfOk result (λ p. IsPlan self.now name.now None p) }
        ensures ok { IfOk result (λ p. (note : Option Note) → width_cause self.now name.now None note ≡ None) }
        ensures err { IfErr result (λ f. (note : Option Note) → IsCause f (width_cause self.now name.now None note)) }
    {
        edits_by_number();
        edits_are_changes();
        self.lawful();
        self.check(number, None)?;
        Ok(Plan { number, next: None })
    }

    // The number of the entry of this name. The entry has to be active if `active` is true, and deprecated otherwise.
    fn find_in_state(&self, name: &Wfn, number: Option<u32>, active: bool) -> Result<u32, EditFault>
        requires { number ≡ position (is_named name.now) self.now }
        ensures place { IfOk result (λ k. position (is_named name.now) self.now ≡ Some k) }
        ensures ok { IfOk result (λ k. first_some (state_causes self.now name.now active) ≡ None) }
        ensures err { IfErr result (λ f. IsCause f (first_some (state_causes self.now name.now active))) }
    {
        let _ = name;
        let Some(number) = number else {
            return Err(EditFault::Unknown);
        };
        match state_fault(self.is_active(number), active) {
            Some(fault) => Err(fault),
            None => Ok(number),
        }
    }
}

// The fault of an entry that is active but has to be deprecated, or the other way round.
fn state_fault(is_active: bool, wanted: bool) -> Option<EditFault>
    ensures { result ≡ (if wanted then when (not is_active) EditFault.AlreadyDeprecated else when is_active EditFault.NotDeprecated) }
{
    match (is_active, wanted) {
        (false, true) => Some(EditFault::AlreadyDeprecated),
        (true, false) => Some(EditFault::NotDeprecated),
        _ => None,
    }
}
