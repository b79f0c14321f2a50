// Adding a name to a table, and to the one list that uses this table.
ghost use Rattle.std.specs.Prelude.{◌≡◌, ◌++◌, ◌∷◌, [], OnOk, OnErr, false};
ghost use Rattle.std.specs.List.{list_any};
ghost use Rattle.name_index.specs.Prelude.{IsLive, IsLower, kept_at, same_name};
ghost use Rattle.names_in_order.specs.InOrder.{AreInOrder, Roll, names_numbered};
ghost use Rattle.names_in_order.specs.Owned.{AreOwn, IsNew};
ghost use Rattle.names_in_order.specs.Room.{SameRoll};

use crate::changing::ChangingNames;
use crate::growing::GrowingNames;
use name_index::{Memory, NameId, NameTable, Wfn};

/// A list of names by their numbers in a table, to which a name can be appended.
pub trait PushHeld {
    /// What the index holds, the numbers, and the reserved room.
    ghost roll: { Self → Roll };

    /// Appends a live number of the table, whose name is not yet in the list.
    ///
    /// # Errors
    /// Only that memory ran out; the list is then unchanged.
    fn push_held(&mut self, table: &NameTable, id: NameId) -> Result<(), Memory>
        requires order { AreInOrder table.now (roll self.old).held (roll self.old).numbers }
        requires live { IsLive table.now id.0 }
        requires fresh { list_any (same_name (kept_at table.now id.0).name) (names_numbered table.now (roll self.old).numbers) ≡ false }
        ensures order { AreInOrder table.now (roll self.new).held (roll self.new).numbers }
        ensures ok { OnOk result ((roll self.new).numbers ≡ (roll self.old).numbers ++ id ∷ []) }
        ensures err { OnErr result (SameRoll (roll self.old) (roll self.new)) };
}

impl PushHeld for GrowingNames {
    ghost roll = { λ n. n };

    fn push_held(&mut self, table: &NameTable, id: NameId) -> Result<(), Memory> {
        self.reserve(table, id)?;
        self.push(table, id);
        Ok(())
    }
}

impl PushHeld for ChangingNames {
    ghost roll = { λ n. n };

    fn push_held(&mut self, table: &NameTable, id: NameId) -> Result<(), Memory> {
        self.reserve(table, id)?;
        self.push(table, id);
        Ok(())
    }
}

// Appends a number that was just held to the list. If memory ran out, the number is released instead.
fn push_new_number<N: PushHeld>(
    table: &mut NameTable,
    names: &mut N,
    id: NameId,
) -> Result<(), Memory>
    requires own { IsNew table.old (N.roll names.old).held (N.roll names.old).numbers id }
    ensures own { AreOwn table.new (N.roll names.new).held (N.roll names.new).numbers }
    ensures ok { OnOk result (names_numbered table.new (N.roll names.new).numbers ≡ names_numbered table.old (N.roll names.old).numbers ++ (kept_at table.old id.0).name ∷ []) }
    ensures err { OnErr result (names_numbered table.new (N.roll names.new).numbers ≡ names_numbered table.old (N.roll names.old).numbers) }
{
    crate::law::orders_stay();
    match names.push_held(table, id) {
        Ok(()) => Ok(()),
        Err(memory) => {
            table.release(id);
            Err(memory)
        }
    }
}

/// Appends a name in lower case that is not yet in the list. The name is moved.
///
/// # Errors
/// Only that memory ran out; the list is then unchanged.
pub fn add_name<N: PushHeld>(table: &mut NameTable, names: &mut N, name: Wfn) -> Result<(), Memory>
    requires own { AreOwn table.old (N.roll names.old).held (N.roll names.old).numbers }
    requires lower { IsLower name }
    requires fresh { list_any (same_name name) (names_numbered table.old (N.roll names.old).numbers) ≡ false }
    ensures own { AreOwn table.new (N.roll names.new).held (N.roll names.new).numbers }
    ensures ok { OnOk result (names_numbered table.new (N.roll names.new).numbers ≡ names_numbered table.old (N.roll names.old).numbers ++ name ∷ []) }
    ensures err { OnErr result (names_numbered table.new (N.roll names.new).numbers ≡ names_numbered table.old (N.roll names.old).numbers) }
{
    name_index::law::fitting_laws();
    crate::law::orders_stay();
    let id = table.hold_moved(name)?;
    push_new_number(table, names, id)
}
