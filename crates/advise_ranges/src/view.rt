// Items with the table of their names.
ghost use Rattle.std.specs.Prelude.{◌≡◌, ◌+◌, List, IfOk, OnOk, filter};
ghost use Rattle.std.specs.List.{list_any};
ghost use Rattle.names_in_order.specs.Prelude.{AreInOrder, IsLower, looked_count, names_numbered, near_count, StepsWithin};
ghost use Rattle.cpe_rows.specs.Prelude.{covers, is_same, Values};
ghost use Rattle.check_results.specs.Slots.{names_in_slots};

use cpe_rows::{List, Memory, Wfn};
use name_index::{NameId, NameTable, Steps};
use names_in_order::ChangingNames;
use std::alloc::Global;
use std::marker::Model;
use std::sync::ledger::Ledger;

/// Items with the table of their names: names in lower case, in the order in which they were added. Contracts see the
/// list of these names.
#[derive(Drop)]
pub(crate) struct ItemView<'t> {
    table: &'t NameTable,
    names: &'t ChangingNames,
}

impl<'t> Model for ItemView<'t> {
    ghost Value = { List Values };

    ghost view = { λ i. names_numbered i.table.now i.names.now.numbers };

    ghost invariant = { λ i. AreInOrder i.table.now i.names.now.held i.names.now.numbers };
}

// Copies of the names of these numbers.
fn names_of(alloc: Global, table: &NameTable, ids: &[NameId]) -> Result<List<Wfn>, Memory>
    ensures { IfOk result (λ found. found ≡ names_in_slots table.now ids.now) }
{
    let mut found = List::new(alloc);
    for id in ids {
        if let Some(name) = table.get(*id) {
            found.push(name.copy(alloc)?)?;
        }
    }
    Ok(found)
}

impl<'t> ItemView<'t> {
    /// Items with the table of their names.
    pub(crate) fn new(table: &'t NameTable, names: &'t ChangingNames) -> ItemView<'t>
        requires { AreInOrder table.now names.now.held names.now.numbers }
        ensures { result ≡ names_numbered table.now names.now.numbers }
    {
        ItemView { table, names }
    }

    /// Whether an item has this name. The name is found by its hash.
    #[tactic(auto, unfolding(cpe_rows::specs::Names::is_same))]
    pub(crate) fn has(&self, name: &Wfn) -> bool
        ensures { result ≡ list_any (is_same name.now) self.now }
    {
        self.names.find(self.table, name).is_some()
    }

    /// The items that a name in lower case covers (NIST IR 7696), in their order.
    ///
    /// A step is a look at an item. Each item whose product the name's product covers is looked at once, and no other
    /// item. The product of the name is near to the product of each of these.
    ///
    /// # Errors
    /// Only that memory ran out. The bound on steps then holds too.
    pub(crate) fn covered<L: Ledger>(
        &self,
        alloc: Global,
        name: &Wfn,
        steps: &mut Steps<L>,
    ) -> Result<List<Wfn>, Memory>
        requires { IsLower name.now }
        ensures found { IfOk result (λ found. found ≡ filter (covers name.now) self.now) }
        ensures steps { StepsWithin steps.old steps.new (near_count name.now self.now) }
        ensures looked { OnOk result (steps.new ≡ steps.old + looked_count name.now self.now) }
    {
        let ids = self.names.covered(alloc, self.table, name, steps)?;
        names_of(alloc, self.table, &ids)
    }
}
