// Laws of the numbers and names of items. The function does nothing: its clauses are the laws.
ghost use Rattle.std.specs.Prelude.{◌≡◌, List, true};
ghost use Rattle.std.specs.List.{list_any};
ghost use Rattle.cpe_rows.specs.cpe_name.Equal.{same_name};
ghost use Rattle.cpe_rows.specs.Prelude.{is_same, Values, without_first};
ghost use Rattle.name_index.specs.Table.{IsNameTable, Names, kept_at};
ghost use Rattle.name_index.specs.declared.table.NameId.{NameId};
ghost use Rattle.names_in_order.specs.InOrder.{AreListedNames, names_numbered, same_id};
ghost use Rattle.names_in_order.specs.Marked.{without_first_place as without_number};

/// Law: rows and the table compare names in the same way. If the number of an item is removed from a list, its name is
/// removed from the list of names.
pub fn item_laws()
    ensures same { (name : Values) (names : List Values) → list_any (is_same name) names ≡ list_any (same_name name) names }
    ensures dropped { (table : Names) (numbers : List NameId) (id : NameId) → IsNameTable table → AreListedNames table numbers → list_any (same_id id) numbers ≡ true → names_numbered table (without_number (same_id id) numbers) ≡ without_first (is_same (kept_at table id.0).name) (names_numbered table numbers) }
{
    names_in_order::law::orders_without();
}
