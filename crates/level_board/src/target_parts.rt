// The parts of an index of targets, and how they are changed.
ghost use Rattle.std.specs.Prelude.{◌≡◌, ℕ, ◌+◌, ◌-◌, ◌<◌, ◌≤◌, ◌∷◌, [], ◌++◌, cond, length, nat_eq, Some, OnOk, count_by, vec_capacity, Contains, position, swap_remove};
ghost use Rattle.name_index.specs.Prelude.{IsLower, SameElements, StepsWithin};
ghost use Rattle.name_index.specs.Table.{Names, Kept, find_kept, IsLive, kept_at};
ghost use Rattle.name_index.specs.Index.{ids, times_held};
ghost use Rattle.level_board.specs.Targets.{AreNone, FitsTargets, SameTargets, held, is_loose, is_met, is_open, covered_pairs, maybe_pairs};
ghost use Rattle.level_board.specs.TargetParts.{ArePartsOf, pair_of_loose, pairs_of, targets_of};

use crate::target_counts::{TargetCounts, count_loose, count_plain, one_more};
use name_index::{Attribute, Memory, NameId, NameIndex, NameTable, Steps, Wfn};
use std::alloc::Global;
use std::sync::ledger::Ledger;

// The number of a name whose product has a special, and the number of this product.
#[derive(Clone, Copy)]
pub(crate) struct Loose {
    pub(crate) id: u32,
    pub(crate) product: u32,
}

// `plain`: the targets whose product has no special, by product. `loose`: the targets whose product has a special.
// `opens`: how many targets are open. `room`: how many targets more there is room for.
#[derive(Drop)]
pub(crate) struct TargetParts {
    pub(crate) plain: NameIndex,
    pub(crate) loose: Vec<Loose>,
    pub(crate) opens: u32,
    pub(crate) room: usize,
}

fn is_open(table: &NameTable, id: NameId) -> bool
    requires { IsLive table.now id.0 }
    ensures { result ≡ is_open table.now id.0 }
{
    table.name(id).has_wildcards()
}

fn is_loose(table: &NameTable, id: NameId) -> bool
    requires { IsLive table.now id.0 }
    ensures { result ≡ is_loose table.now id.0 }
{
    table.name(id).get(Attribute::Product).has_wildcards()
}

fn one_less(number: u32, counts: bool) -> u32
    ensures { result ≡ number - cond counts 1 0 }
{
    if counts {
        return number.saturating_sub(1);
    }
    number
}

// The greater of two numbers.
pub(crate) fn at_least(number: usize, other: usize) -> usize
    ensures number { number ≤ result }
    ensures other { other ≤ result }
    ensures either { (n : ℕ) → number ≤ n → other ≤ n → result ≤ n }
{
    if number < other {
        return other;
    }
    number
}

fn place_of(loose: &[Loose], id: u32) -> Option<usize>
    ensures { result ≡ position (λ l. nat_eq id l.id) loose.now }
{
    loose.iter().position(|one| id == one.id)
}

// Removes a number from the targets whose product has a special. The last target moves to its place.
fn take_out(loose: &mut Vec<Loose>, id: u32)
    requires { 1 ≤ times_held (pairs_of loose.old.items) id }
    ensures taken { (product : ℕ) × Contains (pairs_of loose.old.items) (id, product) × SameElements (pairs_of loose.old.items) ((id, product) ∷ pairs_of loose.new.items) }
    ensures capacity { vec_capacity loose.new ≡ vec_capacity loose.old }
    ensures length { length loose.new.items + 1 ≡ length loose.old.items }
{
    match place_of(loose, id) {
        Some(place) => {
            let _ = loose.swap_remove(place);
        }
        None => unreachable!(),
    }
}

impl TargetParts {
    pub(crate) fn new(alloc: Global) -> TargetParts
        ensures parts { ArePartsOf result }
        ensures none { AreNone (targets_of result) }
        ensures fits { (names : Names) → FitsTargets (targets_of result) names }
    {
        TargetParts {
            plain: NameIndex::new(alloc),
            loose: Vec::new(alloc),
            opens: 0,
            room: 0,
        }
    }

    // Makes room for `n` numbers more.
    pub(crate) fn reserve(&mut self, table: &NameTable, n: u32) -> Result<(), Memory>
        requires parts { ArePartsOf self.old }
        ensures parts { ArePartsOf self.new }
        ensures same { SameTargets (targets_of self.old) (targets_of self.new) }
        ensures spare { OnOk result (n ≤ self.new.room) }
        ensures wide { OnOk result ((id : ℕ) (k : Kept) → find_kept table.now id ≡ Some k → k.product < self.new.plain.wide) }
    {
        let room = at_least(self.room, n as usize);
        self.loose.reserve(room)?;
        self.plain.reserve(table, n)?;
        self.room = room;
        Ok(())
    }

    pub(crate) fn add(&mut self, table: &NameTable, id: NameId)
        requires parts { ArePartsOf self.old }
        requires fits { FitsTargets (targets_of self.old) table.now }
        requires live { IsLive table.now id.0 }
        requires fresh { times_held (held (targets_of self.old)) id.0 ≡ 0 }
        requires room { 1 ≤ self.old.room }
        requires product { (kept_at table.now id.0).product < self.old.plain.wide }
        requires few { length (held (targets_of self.old)) < 4294967295 }
        ensures parts { ArePartsOf self.new }
        ensures added { SameElements ((id.0, (kept_at table.now id.0).product) ∷ held (targets_of self.old)) (held (targets_of self.new)) }
        ensures fits { FitsTargets (targets_of self.new) table.now }
        ensures room { self.new.room + 1 ≡ self.old.room }
        ensures wide { self.new.plain.wide ≡ self.old.plain.wide }
    {
        self.opens = one_more(self.opens, is_open(table, id));
        self.room -= 1;
        if is_loose(table, id) {
            let product = table.product(id).0;
            self.loose.push_reserved(Loose { id: id.0, product });
            return;
        }
        self.plain.add(table, id);
    }

    pub(crate) fn drop_name(&mut self, table: &NameTable, id: NameId)
        requires parts { ArePartsOf self.old }
        requires fits { FitsTargets (targets_of self.old) table.now }
        requires live { IsLive table.now id.0 }
        requires held { 1 ≤ times_held (held (targets_of self.old)) id.0 }
        ensures parts { ArePartsOf self.new }
        ensures dropped { SameElements (held (targets_of self.old)) ((id.0, (kept_at table.now id.0).product) ∷ held (targets_of self.new)) }
        ensures fits { FitsTargets (targets_of self.new) table.now }
        ensures room { self.new.room ≡ self.old.room }
        ensures wide { self.new.plain.wide ≡ self.old.plain.wide }
    {
        self.opens = one_less(self.opens, is_open(table, id));
        if is_loose(table, id) {
            take_out(&mut self.loose, id.0);
            return;
        }
        self.plain.drop_name(table, id);
    }

    // How many targets a name covers, and how many it may cover.
    pub(crate) fn count<L: Ledger>(
        &self,
        table: &NameTable,
        name: &Wfn,
        steps: &mut Steps<L>,
    ) -> TargetCounts
        requires parts { ArePartsOf self.now }
        requires fits { FitsTargets (targets_of self.now) table.now }
        requires lower { IsLower name.now }
        requires few { length (held (targets_of self.now)) < 4294967296 }
        ensures covered { result.covered ≡ covered_pairs table.now name.now (held (targets_of self.now)) }
        ensures maybe { result.maybe ≡ maybe_pairs table.now name.now (held (targets_of self.now)) }
        ensures steps { StepsWithin steps.old steps.new (count_by (is_met table.now name.now.product) (ids (held (targets_of self.now)))) }
    {
        cpe_relation::law::maybe_laws();
        let plain = count_plain(&self.plain, table, name, self.opens > 0, steps);
        let loose = count_loose(&self.loose, table, name, steps);
        TargetCounts {
            covered: plain.covered,
            maybe: plain.maybe + loose,
        }
    }
}
