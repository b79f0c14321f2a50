// Numbers that are used again, and looks at few of the held names. A call of `drop` drops what a test made, because
// this drop is proved once for each type. At the end of a function, the proof would take the value apart, down to the
// last vector of a table.
ghost use Rattle.std.specs.Prelude.{◌≡◌, ◌+◌, ◌≤◌, [], ◌∷◌};
ghost use Rattle.name_index.specs.Prelude.{IsLower, kept_at};
ghost use Rattle.name_index.specs.Index.{FitsTable};
ghost use Rattle.library_tests.specs.Tried.{tried_value};

use cpe_name::{Wfn, read_wfn};
use cpe_rows::Memory;
use name_index::{NameId, NameIndex, NameTable, Steps};
use std::alloc::Global;
use std::sync::ledger::Ledger;

// Holds a name that the table doesn't have.
fn hold(table: &mut NameTable, name: &Wfn) -> bool {
    if !name.is_lower() {
        return false;
    }
    if let Some(_) = table.find(name) {
        return false;
    }
    table.hold(name).is_ok()
}

fn release(table: &mut NameTable, name: &Wfn) -> bool {
    match table.find(name) {
        Some(id) => {
            table.release(id);
            true
        }
        None => false,
    }
}

// Whether the name has this number, and its product has the same number.
fn has_number(table: &NameTable, name: &Wfn, number: u32) -> bool {
    match table.find(name) {
        Some(id) => id.0 == number && table.product(id).0 == number,
        None => false,
    }
}

// Whether the new name gets the number of the released name, and its product the number of the released product. The
// other names keep their numbers.
fn are_used_again(table: &mut NameTable, names: &[Wfn]) -> bool {
    let [first, second, third, new] = names else {
        return false;
    };
    hold(table, first)
        && hold(table, second)
        && hold(table, third)
        && release(table, second)
        && hold(table, new)
        && has_number(table, new, 1)
        && has_number(table, first, 0)
        && has_number(table, third, 2)
        && hold(table, second)
        && has_number(table, second, 3)
}

fn is_pushed(alloc: Global, names: &mut Vec<Wfn>, text: &[u8]) -> bool {
    match read_wfn(alloc, text) {
        Ok(name) => names.push(name).is_ok(),
        Err(_) => false,
    }
}

fn uses_again(alloc: Global) -> bool {
    let mut table = NameTable::new(alloc);
    let mut names = Vec::new(alloc);
    let is_so = is_pushed(alloc, &mut names, b"wfn:[product=\"bar\"]")
        && is_pushed(alloc, &mut names, b"wfn:[product=\"foo\"]")
        && is_pushed(alloc, &mut names, b"wfn:[product=\"mail\"]")
        && is_pushed(alloc, &mut names, b"wfn:[product=\"new\"]")
        && are_used_again(&mut table, &names);
    drop(names);
    drop(table);
    is_so
}

#[test]
fn a_removed_number_is_used_again(rt: HostRuntime) {
    assert!(rt; uses_again(rt.alloc()));
}

// The held names that a name of the product `p` covers. The held names are of the products `p` and `q0` to `q3`. One
// look is taken at most.
fn look_at_one<L: Ledger>(
    alloc: Global,
    index: &NameIndex,
    table: &NameTable,
    name: &Wfn,
    steps: &mut Steps<L>,
) -> Result<Vec<NameId>, Memory>
    requires fits { FitsTable index.now.held table.now }
    requires held { index.now.held ≡ (0, 0) ∷ (1, 1) ∷ (2, 2) ∷ (3, 3) ∷ (4, 4) ∷ [] }
    requires first { (kept_at table.now 0).name.product ≡ tried_value (112 ∷ []) }
    requires second { (kept_at table.now 1).name.product ≡ tried_value (113 ∷ 48 ∷ []) }
    requires third { (kept_at table.now 2).name.product ≡ tried_value (113 ∷ 49 ∷ []) }
    requires fourth { (kept_at table.now 3).name.product ≡ tried_value (113 ∷ 50 ∷ []) }
    requires fifth { (kept_at table.now 4).name.product ≡ tried_value (113 ∷ 51 ∷ []) }
    requires lower { IsLower name.now }
    requires asked { name.now.product ≡ tried_value (112 ∷ []) }
    ensures { steps.new ≤ steps.old + 1 }
{
    index.covered_by(alloc, table, name, steps)
}
