// Laws of ordered numbers and the table of their names.
ghost use Rattle.std.specs.Prelude.{◌≡◌, ◌≢◌, ℕ, List, Some, slice_get, true};
ghost use Rattle.std.specs.List.{IsDistinct, list_any};
ghost use Rattle.name_index.specs.declared.table.NameId.{NameId};
ghost use Rattle.name_index.specs.cpe_name.Equal.{same_name};
ghost use Rattle.name_index.specs.Table.{IsNameTable, Names, kept_at};
ghost use Rattle.names_in_order.specs.InOrder.{AreListedNames, names_numbered, same_id};
ghost use Rattle.names_in_order.specs.Laws.{OrdersStay};
ghost use Rattle.names_in_order.specs.Marked.{without_first_place};

/// Law: a list of numbers is unchanged by changes of the table. Its numbers stay live, and keep their names, in three
/// cases:
///
/// - a name is held
/// - a number is released that is not in the list, or that is live afterwards
/// - what the table keeps of each number is unchanged, for example because a hold is released again
///
/// If a number is appended to the list, its name is appended to the list of names.
pub fn orders_stay()
    ensures { OrdersStay }
{
    name_index::law::fitting_laws();
}

/// Law: removing a number from a list removes its name from the list of names, and the number is in the list no more.
pub fn orders_without()
    ensures names { (table : Names) (numbers : List NameId) (id : NameId) → IsNameTable table → AreListedNames table numbers → list_any (same_id id) numbers ≡ true → names_numbered table (without_first_place (same_id id) numbers) ≡ without_first_place (same_name (kept_at table id.0).name) (names_numbered table numbers) }
    ensures gone { (numbers : List NameId) (id : NameId) → IsDistinct same_id numbers → (k : ℕ) → slice_get (without_first_place (same_id id) numbers) k ≢ Some id }
{}
