// Names that are gathered, and their cover.
ghost use Rattle.std.specs.Prelude.{◌≡◌, ◌≤◌, ◌++◌, ◌∷◌, [], IfOk, OnOk, OnErr, false, length};
ghost use Rattle.std.specs.List.{AllByRecursion};
ghost use Rattle.name_index.specs.Prelude.{IsLower, StepsWithin};
ghost use Rattle.cover_lines.specs.Cover.{cover};
ghost use Rattle.cover_lines.specs.Laws.{AreWellFormed, is_among};
ghost use Rattle.cover_lines.specs.Marks.{AreCoverMarks};
ghost use Rattle.cover_lines.specs.Names.{AddsToCover, full_cover_by, cover_looks, looks_of_patterns};

use crate::fault::{NamesFault, NamesWhich};
use crate::limits::MOST_NAMES;
use crate::marks::find_matched;
use crate::own::OwnNames;
use crate::rows::{find_uncovered, into_names, sort};
use crate::shapes::find_shapes;
use cpe_rows::{List, MOST_WEIGHT, Memory, Wfn};
use name_index::Steps;
use names_in_order::NamesInOrder;
use row_weight::with_name;
use std::alloc::Global;
use std::marker::Model;
use std::sync::ledger::Ledger;

/// Different names in lower case. Contracts see their list, in the order in which they were added.
///
/// There are at most [`MOST_NAMES`]. Their weight is at most [`cpe_rows::MOST_WEIGHT`]: 32 for each name, and 1 for
/// each byte of its formatted string.
#[derive(Drop)]
pub struct Names {
    alloc: Global,
    names: OwnNames,
    weight: u64,
}

impl Model for Names {
    ghost use Rattle.std.specs.Prelude.{List};
    ghost use Rattle.cpe_rows.specs.cpe_name.Eleven.{Values};
    ghost use Rattle.cover_lines.specs.Names.{AreGathered};

    ghost Value = { List Values };

    ghost view = { λ n. n.names };

    ghost invariant = { λ n. AreGathered n.names n.weight };
}

// The first limit that a list of this length and this weight exceeds.
fn full_by(count: usize, weight: u64) -> Option<NamesWhich>
    ensures { result ≡ full_cover_by count weight }
{
    if count > MOST_NAMES {
        return Some(NamesWhich::Names);
    }
    if weight > MOST_WEIGHT {
        return Some(NamesWhich::Weight);
    }
    None
}

fn has(names: &OwnNames, name: &Wfn) -> bool
    ensures { result ≡ is_among names.now name.now }
{
    names.all().find(name).is_some()
}

// Adds a copy of a new name at the end.
fn put_copy(alloc: Global, names: &mut OwnNames, name: &Wfn) -> Result<(), Memory>
    requires lower { IsLower name.now }
    requires fresh { is_among names.old name.now ≡ false }
    ensures ok { OnOk result (names.new ≡ names.old ++ name.now ∷ []) }
    ensures err { OnErr result (names.new ≡ names.old) }
{
    let copied = name.copy(alloc)?;
    names.add(copied)
}

// The cover of the names. The marks say which names a name with a special covers.
fn reduce_marked(
    alloc: Global,
    names: &NamesInOrder<'_>,
    marks: &[bool],
) -> Result<List<Wfn>, Memory>
    requires lower { AllByRecursion IsLower names.now }
    requires named { AreWellFormed names.now }
    requires marks { AreCoverMarks names.now names.now marks.now }
    ensures { IfOk result (λ reduced. reduced ≡ cover names.now) }
{
    names.lawful();
    let shapes = find_shapes(alloc, names)?;
    let mut rows = find_uncovered(alloc, names, &shapes, marks)?;
    sort(&mut rows);
    into_names(alloc, rows)
}

fn reduce_all<L: Ledger>(
    alloc: Global,
    names: &NamesInOrder<'_>,
    steps: &mut Steps<L>,
) -> Result<List<Wfn>, Memory>
    requires lower { AllByRecursion IsLower names.now }
    requires named { AreWellFormed names.now }
    ensures cover { IfOk result (λ reduced. reduced ≡ cover names.now) }
    ensures steps { StepsWithin steps.old steps.new (cover_looks names.now) }
    ensures patterns { StepsWithin steps.old steps.new (looks_of_patterns names.now) }
{
    let marks = find_matched(alloc, names, steps)?;
    reduce_marked(alloc, names, &marks)
}

impl Names {
    /// No names. Allocates: no.
    pub fn new(alloc: Global) -> Names
        ensures { result ≡ [] }
    {
        Names {
            alloc,
            names: OwnNames::new(alloc),
            weight: 0,
        }
    }

    /// The number of names.
    pub fn len(&self) -> usize
        ensures { result ≡ length self.now }
    {
        self.names.len()
    }

    /// Adds a name in lower case. If the name is there already, nothing changes. A name is found by its hash.
    ///
    /// # Errors
    /// [`NamesFault::Full`] exactly if the name is new, and with it the names would be too many or, else, too heavy; or
    /// that memory ran out. The names are then unchanged.
    pub fn add(&mut self, name: &Wfn) -> Result<(), NamesFault>
        requires { IsLower name.now }
        ensures { AddsToCover self.old self.new name.now result }
    {
        if has(&self.names, name) {
            return Ok(());
        }
        let weight = with_name(self.weight, name);
        if let Some(which) = full_by(self.names.len() + 1, weight) {
            return Err(NamesFault::Full(which));
        }
        name.lawful();
        match put_copy(self.alloc, &mut self.names, name) {
            Ok(()) => {
                self.weight = weight;
                Ok(())
            }
            Err(_) => Err(NamesFault::Memory),
        }
    }

    /// The cover: the names that no other of them covers, sorted by the bytes of their formatted strings.
    ///
    /// A step is a look at a name. Each name with a special takes at most one step for each name to whose product its
    /// own product is near. A name without specials takes none.
    ///
    /// A shape is the set of attributes at which a name is ANY. For a name without specials, each wider shape is tried:
    /// the name with ANY at these attributes is looked up by its hash.
    ///
    /// # Errors
    /// Only that memory ran out. The bound on steps then holds too.
    pub fn reduce<L: Ledger>(
        &self,
        alloc: Global,
        steps: &mut Steps<L>,
    ) -> Result<List<Wfn>, Memory>
        ensures cover { IfOk result (λ reduced. reduced ≡ cover self.now) }
        ensures steps { StepsWithin steps.old steps.new (cover_looks self.now) }
        ensures patterns { StepsWithin steps.old steps.new (looks_of_patterns self.now) }
    {
        reduce_all(alloc, &self.names.all(), steps)
    }
}
