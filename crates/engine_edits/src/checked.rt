// What is known of an edit without a fault.
use cpe_dictionary::Plan;

/// What is known of an edit without a fault.
#[derive(Drop)]
pub(crate) struct CheckedEdit {
    /// The plan, if the edit changes a deprecation.
    pub plan: Option<Plan>,
    /// The weight of all rows after the edit.
    pub weight: u64,
}
