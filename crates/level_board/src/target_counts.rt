// Counting the targets that a name covers, and the targets that it may cover.
ghost use Rattle.std.specs.Prelude.{◌≡◌, ℕ, ◌+◌, ◌<◌, ◌≤◌, ◌&&◌, cond, length, count_by, nat_lt};
ghost use Rattle.name_index.specs.Prelude.{covers, IsLower, kept_at, maybe};
ghost use Rattle.name_index.specs.declared.products.Side.TheVariants as side;
ghost use Rattle.name_index.specs.Index.{ids, FitsTable, is_near};
ghost use Rattle.level_board.specs.Targets.{is_loose, covered_pairs, maybe_pairs};
ghost use Rattle.level_board.specs.TargetParts.{pairs_of};

use crate::target_parts::Loose;
use cpe_relation::{covers, maybe};
use name_index::{NameId, NameIndex, NameTable, Side, Steps, Wfn};
use std::sync::ledger::Ledger;

// How many targets a name covers, and how many it may cover.
#[derive(Clone, Copy)]
pub(crate) struct TargetCounts {
    pub(crate) covered: u32,
    pub(crate) maybe: u32,
}

// Whether a name covers a target.
pub(crate) fn is_covering(name: &Wfn, target: &Wfn) -> bool
    ensures { result ≡ covers name.now target.now }
{
    covers(name, target)
}

// Whether a name may cover a target.
pub(crate) fn may_cover(name: &Wfn, target: &Wfn) -> bool
    ensures { result ≡ maybe name.now target.now }
{
    maybe(name, target)
}

// Whether a name may cover a target; false if not asked.
fn may_cover_where(asked: bool, name: &Wfn, target: &Wfn) -> bool
    ensures { result ≡ (asked && maybe name.now target.now) }
{
    asked && may_cover(name, target)
}

pub(crate) fn one_more(number: u32, counts: bool) -> u32
    requires { number < 4294967295 }
    ensures { result ≡ number + cond counts 1 0 }
{
    if counts {
        return number + 1;
    }
    number
}

// Counts among the targets whose product has no special. Only if some targets are open, each is compared to find
// whether the name may cover it.
pub(crate) fn count_plain<L: Ledger>(
    index: &NameIndex,
    table: &NameTable,
    name: &Wfn,
    some_open: bool,
    steps: &mut Steps<L>,
) -> TargetCounts
    requires fits { FitsTable index.now.held table.now }
    requires lower { IsLower name.now }
    requires few { length index.now.held < 4294967296 }
    requires plain { count_by (λ (x : ℕ × ℕ). is_loose table.now x.0) index.now.held ≡ 0 }
    ensures covered { result.covered ≡ covered_pairs table.now name.now index.now.held }
    ensures maybe { result.maybe ≡ count_by (λ (x : ℕ × ℕ). some_open && maybe name.now (kept_at table.now x.0).name) index.now.held }
    ensures steps { steps.new ≡ steps.old + count_by (is_near table.now side.Source name.now.product) (ids index.now.held) }
{
    cpe_relation::law::maybe_laws();
    let mut covered = 0;
    let mut maybes = 0;
    for target in index.near(table, name, Side::Source) {
        let other = table.look(target, steps);
        covered = one_more(covered, is_covering(name, other));
        maybes = one_more(maybes, may_cover_where(some_open, name, other));
    }
    TargetCounts {
        covered,
        maybe: maybes,
    }
}

// How many targets the name may cover, among those whose product has a special.
pub(crate) fn count_loose<L: Ledger>(
    loose: &[Loose],
    table: &NameTable,
    name: &Wfn,
    steps: &mut Steps<L>,
) -> u32
    requires fits { FitsTable (pairs_of loose.now) table.now }
    requires few { length loose.now < 4294967296 }
    ensures maybe { result ≡ maybe_pairs table.now name.now (pairs_of loose.now) }
    ensures steps { steps.new ≡ steps.old + length loose.now }
{
    let mut maybes = 0;
    for one in loose {
        let other = table.look(NameId(one.id), steps);
        maybes = one_more(maybes, may_cover(name, other));
    }
    maybes
}
