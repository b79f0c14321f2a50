// Appending a number to a list of numbers, and adding the number to an index by product.
ghost use Rattle.std.specs.Prelude.{◌≡◌, ◌≢◌, ◌++◌, ◌∷◌, [], ℕ, List, OnOk, Some, false, slice_get};
ghost use Rattle.std.specs.List.{list_any};
ghost use Rattle.name_index.specs.Prelude.{IsLive, kept_at, same_name};
ghost use Rattle.name_index.specs.declared.table.NameId.{NameId};
ghost use Rattle.names_in_order.specs.InOrder.{AreInOrder, names_numbered};
ghost use Rattle.names_in_order.specs.Room.{MayPush, MayPut, NumberList, roll_of};

use name_index::{Memory, NameId, NameIndex, NameTable};

/// A list of different numbers, to which a number can be appended.
pub trait PushNumber {
    /// The numbers in their order, and the reserved room.
    ghost list: { Self → NumberList };

    /// Reserves the room that [`push`](PushNumber::push) needs to append a number. The list of numbers is unchanged.
    ///
    /// # Errors
    /// Memory ran out, or the list has 2^32 places already.
    fn reserve(&mut self, id: NameId) -> Result<(), Memory>
        ensures numbers { (list self.new).numbers ≡ (list self.old).numbers }
        ensures ok { OnOk result (MayPut (list self.new) id.0) };

    /// Appends a number that is not yet in the list, and for which room is reserved. Allocates: no.
    fn push(&mut self, id: NameId)
        requires fresh { (k : ℕ) → slice_get (list self.old).numbers k ≢ Some id }
        requires room { MayPut (list self.old) id.0 }
        ensures numbers { (list self.new).numbers ≡ (list self.old).numbers ++ id ∷ [] };
}

/// Reserves room for a live number in the index and in the list. What both contain is unchanged.
///
/// # Errors
/// Only that memory ran out.
pub(crate) fn reserve_number<N: PushNumber>(
    table: &NameTable,
    index: &mut NameIndex,
    numbers: &mut N,
    id: NameId,
) -> Result<(), Memory>
    requires live { IsLive table.now id.0 }
    ensures held { index.new.held ≡ index.old.held }
    ensures numbers { (N.list numbers.new).numbers ≡ (N.list numbers.old).numbers }
    ensures ok { OnOk result (MayPush table.now (roll_of index.new (N.list numbers.new)) id.0) }
{
    index.reserve(table, 1)?;
    numbers.reserve(id)
}

/// Adds a live number whose name is not yet in the list: to the index, and at the end of the list. Allocates: no.
pub(crate) fn add_number<N: PushNumber>(
    table: &NameTable,
    index: &mut NameIndex,
    numbers: &mut N,
    id: NameId,
)
    requires order { AreInOrder table.now index.old.held (N.list numbers.old).numbers }
    requires live { IsLive table.now id.0 }
    requires fresh { list_any (same_name (kept_at table.now id.0).name) (names_numbered table.now (N.list numbers.old).numbers) ≡ false }
    requires room { MayPush table.now (roll_of index.old (N.list numbers.old)) id.0 }
    ensures order { AreInOrder table.now index.new.held (N.list numbers.new).numbers }
    ensures numbers { (N.list numbers.new).numbers ≡ (N.list numbers.old).numbers ++ id ∷ [] }
{
    name_index::law::fitting_laws();
    numbers.push(id);
    index.add(table, id);
}
