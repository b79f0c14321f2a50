// Items are added and removed, and those are found that a name meets, by themselves or by their ends.
ghost use Rattle.std.specs.Prelude.{◌≡◌, ◌<◌, ◌≤◌, IfOk, true, cond, count_by, filter, length, OnOk};
ghost use Rattle.std.specs.List.{flat_map, list_any};
ghost use Rattle.name_index.specs.Prelude.{IsLive, Names, StepsWithin};
ghost use Rattle.cpe_rows.specs.Prelude.{after, covers, is_same, IsLawful, IsLower, maybe, Rows};
ghost use Rattle.cpe_rows.specs.declared.edit.Edit.TheVariants as edit;
ghost use Rattle.cpe_rows.specs.declared.statement.Mode.TheVariants.{Follow};
ghost use Rattle.name_registry.specs.Registered.{items_leading};
ghost use Rattle.name_index.specs.declared.products.Side.TheVariants as side;
ghost use Rattle.facts.specs.level_board.Board.{FitsBoard};
ghost use Rattle.facts.specs.fact_laws.Shown.{name_at, near_names};
ghost use Rattle.fact_boards.specs.Prelude.{AreFactNames, board_of_mode, ids, is_met, names_at, target_ids};
ghost use Rattle.facts.specs.Facts.{LeadsTo};
ghost use Rattle.facts.specs.Looks.{item_looks};
ghost use Rattle.verdicts.specs.Items.{AreItemsTo, ArePassing, HasRoomForItem, items_of_fact};
ghost use Rattle.verdicts.specs.Rows.{AreOfRows};
ghost use Rattle.verdicts.specs.Verdicts.{HasVerdicts, SameStatements};

use crate::refresh::refresh;
use crate::verdicts::Verdicts;
use cpe_rows::{List, Memory, Mode, Wfn};
use fact_boards::{KeptFacts, Met, WantedRoom};
use name_index::{NameId, NameTable, Steps};
use name_registry::Registry;
use std::alloc::Global;
use std::marker::Brand;
use std::sync::ledger::{Blank, Ledger};

impl Verdicts {
    /// Reserves room for an item with these ends.
    ///
    /// # Errors
    /// Only that memory ran out.
    pub fn reserve_item(&mut self, table: &NameTable, ends: &[NameId]) -> Result<(), Memory>
        requires few { length ends.now ≤ 256 }
        requires rows_before { (rows : Rows) × IsLawful rows × HasVerdicts table.now self.old rows }
        ensures verdicts { (names : Names) (rows : Rows) → HasVerdicts names self.old rows → HasVerdicts names self.new rows }
        ensures same { SameStatements self.old self.new }
        ensures room { OnOk result (HasRoomForItem self.new.facts table.now (length ends.now)) }
    {
        let plain = WantedRoom { asked: 0, there: 1 };
        let follow = WantedRoom {
            asked: 0,
            there: ends.len() as u32,
        };
        let reserved = self.facts.reserve(table, plain, follow);
        self.facts.lawful();
        reserved
    }

    /// Adds an item with these ends. Allocates: no.
    pub fn add_item<L: Ledger>(
        &mut self,
        table: &NameTable,
        item: NameId,
        ends: &[NameId],
        steps: &mut Steps<L>,
    )
        requires live { IsLive table.now item.0 }
        requires room { HasRoomForItem self.old.facts table.now (length ends.now) }
        requires rows_before { (rows : Rows) × IsLawful rows × HasVerdicts table.now self.old rows × LeadsTo table.now rows.entries Follow item.0 ends.now }
        ensures verdicts { (rows : Rows) → HasVerdicts table.now self.old rows → LeadsTo table.now rows.entries Follow item.0 ends.now → HasVerdicts table.now self.new (after rows (edit.Item (name_at table.now item))) }
        ensures same { SameStatements self.old self.new }
        ensures steps { (rows : Rows) → HasVerdicts table.now self.old rows → LeadsTo table.now rows.entries Follow item.0 ends.now → StepsWithin steps.old steps.new (item_looks rows (name_at table.now item)) }
    {
        statement_rows::law::refreshes_judge();
        statement_rows::law::same_truths_judge_the_same();
        self.facts.add_item(table, item, ends, steps);
        self.facts.lawful();
        refresh(&mut self.statements, &self.facts);
    }

    /// Removes an item with these ends. Allocates: no.
    pub fn remove_item<L: Ledger>(
        &mut self,
        table: &NameTable,
        item: NameId,
        ends: &[NameId],
        steps: &mut Steps<L>,
    )
        requires live { IsLive table.now item.0 }
        requires rows_before { (rows : Rows) × HasVerdicts table.now self.old rows × LeadsTo table.now rows.entries Follow item.0 ends.now × (list_any (is_same (name_at table.now item)) rows.items ≡ true) }
        ensures verdicts { (rows : Rows) → HasVerdicts table.now self.old rows → LeadsTo table.now rows.entries Follow item.0 ends.now → list_any (is_same (name_at table.now item)) rows.items ≡ true
            → HasVerdicts table.now self.new (after rows (edit.DropItem (name_at table.now item))) }
        ensures same { SameStatements self.old self.new }
        ensures steps { (rows : Rows) → HasVerdicts table.now self.old rows → LeadsTo table.now rows.entries Follow item.0 ends.now → StepsWithin steps.old steps.new (item_looks rows (name_at table.now item)) }
    {
        statement_rows::law::refreshes_judge();
        statement_rows::law::same_truths_judge_the_same();
        self.facts.remove_item(table, item, ends, steps);
        self.facts.lawful();
        refresh(&mut self.statements, &self.facts);
    }

    /// The items that a name in lower case covers (NIST IR 7696), and those that it may cover, each in the order of
    /// items. A step is a look at an item: it looks at none twice, and only at items whose product the name's meets.
    ///
    /// # Errors
    /// Only that memory ran out. The bound on steps holds then, too.
    pub fn items_met<L: Ledger>(
        &self,
        alloc: Global,
        registry: &Registry,
        name: &Wfn,
        steps: &mut Steps<L>,
    ) -> Result<(List<Wfn>, List<Wfn>), Memory>
        requires lower { IsLower name.now }
        requires rows_before { (rows : Rows) × AreOfRows registry.now self.now rows }
        ensures covered { (rows : Rows) → AreOfRows registry.now self.now rows → IfOk result (λ p. p.0 ≡ filter (covers name.now) rows.items) }
        ensures maybe { (rows : Rows) → AreOfRows registry.now self.now rows → IfOk result (λ p. p.1 ≡ filter (maybe name.now) rows.items) }
        ensures steps { (rows : Rows) → AreOfRows registry.now self.now rows → StepsWithin steps.old steps.new (near_names side.Source name.now.product rows.items) }
    {
        registry.lawful();
        self.facts.lawful();
        let table = registry.table();
        let found = met(alloc, table, self.facts.boards(), Mode::Plain, name, steps)?;
        let covered = registry.items_in_order(alloc, &found.covered)?;
        let maybes = registry.items_in_order(alloc, &found.maybe)?;
        Ok((covered, maybes))
    }

    /// The numbers of the items that lead in a mode to a name which a name in lower case covers (NIST IR 7696, 7697),
    /// in any order, each once for each such name. Cost: that of the items whose product the name's meets; in mode
    /// follow that of such ends of items, and of the names that lead to the ends that it covers. It counts no steps.
    ///
    /// # Errors
    /// Only that memory ran out.
    pub fn items_covered(
        &self,
        alloc: Global,
        registry: &Registry,
        mode: Mode,
        name: &Wfn,
    ) -> Result<Vec<NameId>, Memory>
        requires lower { IsLower name.now }
        requires rows_before { (rows : Rows) × AreOfRows registry.now self.now rows }
        ensures live { IfOk result (λ v. AreFactNames registry.now.table v.items) }
        ensures items { (rows : Rows) → AreOfRows registry.now self.now rows → IfOk result (λ v. AreItemsTo rows mode (covers name.now) (names_at registry.now.table v.items)) }
    {
        self.items_found(alloc, registry, mode, name, true)
    }

    /// The numbers of the items that lead in a mode to a name which a name in lower case may cover, as
    /// [`Verdicts::items_covered`].
    ///
    /// # Errors
    /// Only that memory ran out.
    pub fn items_maybe(
        &self,
        alloc: Global,
        registry: &Registry,
        mode: Mode,
        name: &Wfn,
    ) -> Result<Vec<NameId>, Memory>
        requires lower { IsLower name.now }
        requires rows_before { (rows : Rows) × AreOfRows registry.now self.now rows }
        ensures live { IfOk result (λ v. AreFactNames registry.now.table v.items) }
        ensures items { (rows : Rows) → AreOfRows registry.now self.now rows → IfOk result (λ v. AreItemsTo rows mode (maybe name.now) (names_at registry.now.table v.items)) }
    {
        self.items_found(alloc, registry, mode, name, false)
    }

    // The items that lead in a mode to a name which a name covers, or to one which it may cover.
    fn items_found(
        &self,
        alloc: Global,
        registry: &Registry,
        mode: Mode,
        name: &Wfn,
        surely: bool,
    ) -> Result<Vec<NameId>, Memory>
        requires lower { IsLower name.now }
        requires rows_before { (rows : Rows) × AreOfRows registry.now self.now rows }
        ensures live { IfOk result (λ v. AreFactNames registry.now.table v.items) }
        ensures items { (rows : Rows) → AreOfRows registry.now self.now rows → IfOk result (λ v. AreItemsTo rows mode (cond surely (covers name.now) (maybe name.now)) (names_at registry.now.table v.items)) }
    {
        registry.lawful();
        self.facts.lawful();
        let found = met_uncounted(alloc, registry.table(), self.facts.boards(), mode, name)?;
        items_to(alloc, registry, mode, either_of(found, surely))
    }
}

// The targets of the board of a mode that a name covers, and those that it may cover.
fn met<L: Ledger>(
    alloc: Global,
    table: &NameTable,
    boards: &KeptFacts,
    mode: Mode,
    name: &Wfn,
    steps: &mut Steps<L>,
) -> Result<Met, Memory>
    requires fits { FitsBoard (board_of_mode boards.now mode) table.now }
    requires lower { IsLower name.now }
    ensures covered { IfOk result (λ m. ArePassing table.now (board_of_mode boards.now mode) (covers name.now) m.covered.items) }
    ensures maybe { IfOk result (λ m. ArePassing table.now (board_of_mode boards.now mode) (maybe name.now) m.maybe.items) }
    ensures steps { StepsWithin steps.old steps.new (count_by (is_met table.now name.now.product) (ids (target_ids (board_of_mode boards.now mode)))) }
{
    boards.board(mode).targets().met(alloc, table, name, steps)
}

// The same over a ledger for this call alone: nobody reads its steps.
fn met_over<L: Ledger>(
    alloc: Global,
    table: &NameTable,
    boards: &KeptFacts,
    mode: Mode,
    name: &Wfn,
    blank: Blank,
) -> Result<Met, Memory>
    requires fits { FitsBoard (board_of_mode boards.now mode) table.now }
    requires lower { IsLower name.now }
    requires ledger { blank.name ≡ L.name }
    requires parts { blank.parts ≡ L.parts }
    requires some { 0 < blank.parts }
    ensures covered { IfOk result (λ m. ArePassing table.now (board_of_mode boards.now mode) (covers name.now) m.covered.items) }
    ensures maybe { IfOk result (λ m. ArePassing table.now (board_of_mode boards.now mode) (maybe name.now) m.maybe.items) }
{
    let mut steps = Steps::<L>::new(blank);
    met(alloc, table, boards, mode, name, &mut steps)
}

// The same for a caller that counts no steps.
fn met_uncounted(
    alloc: Global,
    table: &NameTable,
    boards: &KeptFacts,
    mode: Mode,
    name: &Wfn,
) -> Result<Met, Memory>
    requires fits { FitsBoard (board_of_mode boards.now mode) table.now }
    requires lower { IsLower name.now }
    ensures covered { IfOk result (λ m. ArePassing table.now (board_of_mode boards.now mode) (covers name.now) m.covered.items) }
    ensures maybe { IfOk result (λ m. ArePassing table.now (board_of_mode boards.now mode) (maybe name.now) m.maybe.items) }
{
    met_over::<Brand>(alloc, table, boards, mode, name, Blank::new(1))
}

// Those that a name covers, or those that it may cover.
fn either_of(met: Met, surely: bool) -> Vec<NameId>
    ensures { result.items ≡ cond surely met.covered.items met.maybe.items }
{
    let Met { covered, maybe } = met;
    if surely {
        return covered;
    }
    maybe
}

// The items that lead in a mode to these names.
fn items_to(
    alloc: Global,
    registry: &Registry,
    mode: Mode,
    names: Vec<NameId>,
) -> Result<Vec<NameId>, Memory>
    requires { AreFactNames registry.now.table names.items }
    ensures live { IfOk result (λ v. AreFactNames registry.now.table v.items) }
    ensures names { IfOk result (λ v. names_at registry.now.table v.items ≡ items_of_fact registry.now.entries registry.now.items mode (names_at registry.now.table names.items)) }
{
    match mode {
        Mode::Plain => Ok(names),
        Mode::Follow => items_to_ends(alloc, registry, &names),
    }
}

// The items that lead to these ends, those of one after those of another.
fn items_to_ends(alloc: Global, registry: &Registry, ends: &[NameId]) -> Result<Vec<NameId>, Memory>
    requires { AreFactNames registry.now.table ends.now }
    ensures live { IfOk result (λ v. AreFactNames registry.now.table v.items) }
    ensures names { IfOk result (λ v. names_at registry.now.table v.items ≡ flat_map (items_leading registry.now.entries registry.now.items) (names_at registry.now.table ends.now)) }
{
    let mut all = Vec::new(alloc);
    for end in ends {
        let items = registry.items_to(alloc, *end)?;
        all.extend_from_slice(&items)?;
    }
    Ok(all)
}
