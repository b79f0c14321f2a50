// A kept result, and the change of its truth.

use cpe_rows::{CheckKey, Truth};
use ticket_list::{Change, Ticketed};

// The kept result of a key. Tickets rise in the order in which the keys were added.
#[derive(Drop)]
pub(crate) struct ResultRow {
    pub(crate) ticket: u64,
    pub(crate) key: CheckKey,
    pub(crate) truth: Truth,
}

impl Ticketed for ResultRow {
    ghost ticket_of = { λ r. r.ticket };

    fn ticket(&self) -> u64 {
        self.ticket
    }
}

// A change of a kept result: it gets this truth.
#[derive(Drop)]
pub(crate) struct SetTruth {
    pub(crate) truth: Truth,
}

impl Change<ResultRow> for SetTruth {
    ghost use Rattle.check_results.specs.Results.{retold};

    ghost changed = { λ set r. retold set.truth r };

    fn change(&self, kept: &mut ResultRow) {
        kept.truth = self.truth;
    }
}
