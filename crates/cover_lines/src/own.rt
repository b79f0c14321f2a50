// Different names in the order in which they were added, with a table of their own.
ghost use Rattle.std.specs.Prelude.{◌≡◌, ◌++◌, ◌∷◌, [], List, OnOk, OnErr, false, length};
ghost use Rattle.std.specs.List.{list_any};
ghost use Rattle.names_in_order.specs.InOrder.{names_numbered};
ghost use Rattle.cpe_rows.specs.cpe_name.Prelude.{IsLower, same_name, Values};
ghost use Rattle.names_in_order.specs.Owned.{AreOwn};

use cpe_rows::{Memory, Wfn};
use name_index::NameTable;
use names_in_order::{GrowingNames, NamesInOrder, add_name};
use std::alloc::Global;
use std::marker::Model;

/// Different names in lower case, in the order in which they were added. Nothing else uses their table. Contracts see
/// the list of these names.
#[derive(Drop)]
pub(crate) struct OwnNames {
    table: NameTable,
    names: GrowingNames,
}

impl Model for OwnNames {
    ghost Value = { List Values };

    ghost view = { λ n. names_numbered n.table n.names.numbers };

    ghost invariant = { λ n. AreOwn n.table n.names.held n.names.numbers };
}

impl OwnNames {
    /// No names. Allocates: no.
    pub(crate) fn new(alloc: Global) -> OwnNames
        ensures { result ≡ [] }
    {
        names_in_order::law::orders_stay();
        OwnNames {
            table: NameTable::new(alloc),
            names: GrowingNames::new(alloc),
        }
    }

    /// The number of names.
    pub(crate) fn len(&self) -> usize
        ensures { result ≡ length self.now }
    {
        self.names.len()
    }

    /// The names as a list, in which names are found by hash, by place and by product.
    pub(crate) fn all(&self) -> NamesInOrder<'_>
        ensures { result ≡ self.now }
    {
        self.names.with(&self.table)
    }

    /// Adds a new name in lower case at the end. The name is moved.
    ///
    /// # Errors
    /// Only that memory ran out. The names are then unchanged.
    pub(crate) fn add(&mut self, name: Wfn) -> Result<(), Memory>
        requires lower { IsLower name }
        requires fresh { list_any (same_name name) self.old ≡ false }
        ensures ok { OnOk result (self.new ≡ self.old ++ name ∷ []) }
        ensures err { OnErr result (self.new ≡ self.old) }
    {
        add_name(&mut self.table, &mut self.names, name)
    }
}
