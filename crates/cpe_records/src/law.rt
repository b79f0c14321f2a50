// Laws of the definitions. These functions do nothing: their clauses are the laws.
ghost use Rattle.std.specs.Prelude.{◌≡◌, codes, IfOk, List, ℕ};
ghost use Rattle.std.specs.List.{AllByRecursion};
ghost use Rattle.serde_json.specs.Data.{Data, Members, object};
ghost use Rattle.serde_json.specs.Find.{get};
ghost use Rattle.cpe_rows.specs.cpe_name.Names.{IsName};
ghost use Rattle.cpe_rows.specs.FactNames.{fact_names};
ghost use Rattle.cpe_records.specs.Names.{name_at, successors_at};
ghost use Rattle.cpe_records.specs.Tests.{children_at, children_in, test_at};
ghost use Rattle.cpe_records.specs.declared.format.Format.{Format};
ghost use Rattle.cpe_records.specs.Read.{IsRead};
ghost use Rattle.cpe_records.specs.Reading.{record_of};

/// Law: the children of a logical test are in the value at the key `of` of its object, whatever other members the
/// object has. An object without this key is refused.
pub fn children_occur_at_of()
    ensures { (f : Format) (ms : Members) → children_in f ms ≡ children_at f (get (codes "of") (object ms)) }
{}

/// Law: names that are read are well-formed (NIST IR 7695, 5). These are the name of a record, its successors, and the
/// names of its test.
pub fn names_are_formed()
    ensures name { (f : Format) (d : Data) → IfOk (name_at f d) IsName }
    ensures successors { (f : Format) (d : Data) → IfOk (successors_at f d) (AllByRecursion IsName) }
    ensures test { (f : Format) (d : Data) → IfOk (test_at f d) (λ t. AllByRecursion IsName (fact_names t)) }
{}

/// Law: a record that is read from a line has well-formed names (NIST IR 7695, 5). Its dates have the form of a date,
/// and its texts are UTF-8.
pub fn records_are_formed()
    ensures { (line : List ℕ) → IfOk (record_of line) IsRead }
{}
