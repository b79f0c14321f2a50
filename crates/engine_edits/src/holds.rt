// The names of a statement's facts: the table holds them for the statement, or releases them.
ghost use Rattle.std.specs.Prelude.{◌≡◌, ◌≤◌, ◌+◌, ◌∷◌, ◌++◌, [], ℕ, List, OnOk, length, true, vec_capacity, vec_len};
ghost use Rattle.cpe_rows.specs.Prelude.{fact_names, is_lower, Rows, Values};
ghost use Rattle.cpe_rows.specs.Shape.{is_sound};
ghost use Rattle.name_index.specs.Table.{IsLive};
ghost use Rattle.fact_laws.specs.Shown.{names_at};
ghost use Rattle.verdicts.specs.name_registry.Registered.{AreRegistryNames, name_in};
ghost use Rattle.verdicts.specs.Verdicts.{VerdictsNow};
ghost use Rattle.engine_edits.specs.Holding.{AreFewNames, Grows};
ghost use Rattle.engine_edits.specs.Numbered.{numbers_held};
ghost use Rattle.engine_edits.specs.Parts.{AreOf};

use crate::numbered::Coming;
use cpe_rows::{Memory, Test, Wfn};
use name_index::NameId;
use verdicts::Registry;

/// Holds the names of all facts of a test, in the order of the test, and puts their numbers last.
///
/// # Errors
/// Only that memory ran out. The names that are held by then have their numbers among `ids`.
pub(crate) fn hold_facts(
    registry: &mut Registry,
    test: &Test,
    ids: &mut Vec<NameId>,
) -> Result<(), Memory>
    requires live { AreRegistryNames registry.old.table ids.old.items }
    requires sound { is_sound test.now ≡ true }
    requires few { AreFewNames registry.old.table (length (fact_names test.now)) }
    ensures grows { Grows registry.old registry.new ids.old.items ids.new.items }
    ensures names { OnOk result (names_at registry.new.table ids.new.items ≡ names_at registry.old.table ids.old.items ++ fact_names test.now) }
    ensures few { (n : ℕ) → AreFewNames registry.old.table (length (fact_names test.now) + n) → OnOk result (AreFewNames registry.new.table n) }
{
    match test {
        Test::Logic { of, .. } => {
            for child in of.as_slice() {
                hold_facts(registry, child, ids)?;
            }
            Ok(())
        }
        Test::Fact(name) => hold_fact(registry, name.as_name(), ids),
        Test::Check(_) => Ok(()),
    }
}

// Holds one name, and puts its number last.
fn hold_fact(registry: &mut Registry, name: &Wfn, ids: &mut Vec<NameId>) -> Result<(), Memory>
    requires live { AreRegistryNames registry.old.table ids.old.items }
    requires lower { is_lower name.now ≡ true }
    requires few { AreFewNames registry.old.table 1 }
    ensures grows { Grows registry.old registry.new ids.old.items ids.new.items }
    ensures names { OnOk result (names_at registry.new.table ids.new.items ≡ names_at registry.old.table ids.old.items ++ name.now ∷ []) }
    ensures few { (n : ℕ) → AreFewNames registry.old.table (1 + n) → OnOk result (AreFewNames registry.new.table n) }
{
    cpe_rows::law::names_are_equal();
    fact_laws::law::lists_are_shown();
    fact_laws::law::tables_are_lists();
    verdicts::law::held_names_keep_verdicts();
    reserve_one(ids)?;
    let id = registry.hold(name)?;
    append_id(ids, id);
    Ok(())
}

// Makes room for one number.
fn reserve_one(ids: &mut Vec<NameId>) -> Result<(), Memory>
    ensures items { ids.new.items ≡ ids.old.items }
    ensures room { OnOk result (vec_len ids.new + 1 ≤ vec_capacity ids.new) }
{
    match ids.reserve(1) {
        Ok(()) => Ok(()),
        Err(_) => Err(Memory),
    }
}

// Puts a number last. There is room for it.
fn append_id(ids: &mut Vec<NameId>, id: NameId)
    requires { vec_len ids.old + 1 ≤ vec_capacity ids.old }
    ensures { ids.new.items ≡ ids.old.items ++ id ∷ [] }
{
    match ids.push(id) {
        Ok(()) => {}
        Err(_) => unreachable!(),
    }
}

/// Releases the names that are held for an edit.
pub(crate) fn release_coming(registry: &mut Registry, coming: Coming)
    requires live { AreRegistryNames registry.old.table (numbers_held coming) }
    requires are { (v : VerdictsNow) × (rows : Rows) × (others : List Values) × AreOf registry.old v rows (names_at registry.old.table (numbers_held coming) ++ others) }
    ensures { (v : VerdictsNow) (rows : Rows) (others : List Values) → AreOf registry.old v rows (names_at registry.old.table (numbers_held coming) ++ others) → AreOf registry.new v rows others }
{
    match coming {
        Coming::Nothing => {}
        Coming::One(id) => release_all(registry, &[id]),
        Coming::Many(ids) => release_all(registry, &ids),
    }
}

/// Releases the names of these numbers. The table holds each of them besides the names of the rows.
pub(crate) fn release_all(registry: &mut Registry, ids: &[NameId])
    requires live { AreRegistryNames registry.old.table ids.now }
    requires are { (v : VerdictsNow) × (rows : Rows) × (others : List Values) × AreOf registry.old v rows (names_at registry.old.table ids.now ++ others) }
    ensures { (v : VerdictsNow) (rows : Rows) (others : List Values) → AreOf registry.old v rows (names_at registry.old.table ids.now ++ others) → AreOf registry.new v rows others }
{
    for id in ids {
        release_one(registry, *id);
    }
}

// Releases one name. The other names that are held besides the rows keep their numbers.
fn release_one(registry: &mut Registry, id: NameId)
    requires live { IsLive registry.old.table id.0 }
    requires are { (v : VerdictsNow) × (rows : Rows) × (others : List Values) × AreOf registry.old v rows (name_in registry.old.table id ∷ others) }
    ensures { (v : VerdictsNow) (rows : Rows) (others : List Values) (rest : List NameId) → AreRegistryNames registry.old.table rest
        → AreOf registry.old v rows (name_in registry.old.table id ∷ (names_at registry.old.table rest ++ others))
        → AreRegistryNames registry.new.table rest × AreOf registry.new v rows (names_at registry.new.table rest ++ others) }
{
    fact_laws::law::lists_are_shown();
    fact_laws::law::tables_are_lists();
    verdicts::law::released_names_keep_verdicts();
    registry.lawful();
    registry.release(id);
}
