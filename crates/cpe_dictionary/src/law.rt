// Laws of planned changes. These functions do nothing: their clauses are the laws.
ghost use Rattle.cpe_dictionary.specs.Plans.{PlansLead};

use crate::by_number::{
    chains_by_number, changes_by_number, edits_are_changes, entries_are_numbered,
};

/// Law: the ends of a name that a plan computes are the ends of the name after the planned change.
pub fn plans_lead()
    ensures { PlansLead }
{
    chains_by_number();
    changes_by_number();
    edits_are_changes();
    entries_are_numbered();
}
