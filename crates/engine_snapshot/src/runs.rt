// The deprecations of entries, in the order of the entries. An entry without a deprecation takes no memory.
ghost use Rattle.std.specs.Prelude.{◌≡◌, ◌++◌, ◌∷◌, [], IfOk, None, OnOk, Some, is_none, replicate, true};
ghost use Rattle.std.specs.List.{flat_map, list_all};
ghost use Rattle.engine_snapshot.specs.Runs.{deprecations_in, run_of};

use crate::boxed::BoxedDeprecation;
use cpe_rows::{List, Memory};
use snapshot_bytes::PlacedDeprecation;
use std::alloc::Global;
use std::marker::Model;

/// A deprecated entry, and the number of active entries between it and the deprecated entry before it.
#[derive(Drop)]
pub(crate) struct EntryRun {
    active: usize,
    deprecation: BoxedDeprecation,
}

/// A deprecation, or none, for each entry, in the order of the entries. Few entries have one, and snapshots have
/// millions of entries, so entries without one are only counted.
///
/// Contracts see the list of these deprecations.
#[derive(Drop)]
pub(crate) struct PlacedDeprecations {
    runs: List<EntryRun>,
    // The number of active entries after the last deprecated one.
    active: usize,
}

impl Model for PlacedDeprecations {
    ghost use Rattle.std.specs.Prelude.{List, Option};
    ghost use Rattle.snapshot_bytes.specs.declared.rows.PlacedDeprecation.{PlacedDeprecation as PlacedRow};
    ghost use Rattle.engine_snapshot.specs.Runs.{deprecations_in};

    ghost Value = { List (Option PlacedRow) };

    ghost view = { λ d. deprecations_in d.runs d.active };
}

// Adds this number of entries without a deprecation at the end.
fn push_none(all: &mut List<Option<BoxedDeprecation>>, count: usize) -> Result<(), Memory>
    ensures { OnOk result (all.new ≡ all.old ++ replicate count None) }
{
    for _ in 0..count {
        all.push(None)?;
    }
    Ok(())
}

// Adds the entries of a run at the end.
fn push_run(all: &mut List<Option<BoxedDeprecation>>, run: EntryRun) -> Result<(), Memory>
    ensures { OnOk result (all.new ≡ all.old ++ run_of run) }
{
    let EntryRun {
        active,
        deprecation,
    } = run;
    match push_none(all, active) {
        Ok(()) => all.push(Some(deprecation)),
        Err(memory) => Err(discard(deprecation, memory)),
    }
}

// Drops a deprecation after memory ran out.
fn discard(deprecation: BoxedDeprecation, memory: Memory) -> Memory {
    drop(deprecation);
    memory
}

// Adds the entries of all runs at the end.
fn push_runs(all: &mut List<Option<BoxedDeprecation>>, runs: List<EntryRun>) -> Result<(), Memory>
    ensures { OnOk result (all.new ≡ all.old ++ flat_map run_of runs) }
{
    for run in runs.into_vec() {
        push_run(all, run)?;
    }
    Ok(())
}

impl PlacedDeprecations {
    /// The deprecations of no entries. Allocates: no.
    pub(crate) fn new(alloc: Global) -> PlacedDeprecations
        ensures { result ≡ [] }
    {
        PlacedDeprecations {
            runs: List::new(alloc),
            active: 0,
        }
    }

    /// Adds the next entry at the end: its deprecation, or none. An entry without a deprecation takes no memory.
    ///
    /// # Errors
    /// Only that memory ran out.
    pub(crate) fn push(
        &mut self,
        alloc: Global,
        deprecation: Option<PlacedDeprecation>,
    ) -> Result<(), Memory>
        ensures { OnOk result (self.new ≡ self.old ++ deprecation ∷ []) }
    {
        match deprecation {
            Some(placed) => self.end_run(alloc, placed),
            None => self.count_active(),
        }
    }

    // Counts one more entry without a deprecation. If the count is the largest number already, it returns that memory
    // ran out.
    fn count_active(&mut self) -> Result<(), Memory>
        ensures { OnOk result (self.new ≡ self.old ++ None ∷ []) }
    {
        if self.active == usize::MAX {
            return Err(Memory);
        }
        self.active += 1;
        Ok(())
    }

    // Adds one entry with this deprecation, which ends the run.
    fn end_run(&mut self, alloc: Global, placed: PlacedDeprecation) -> Result<(), Memory>
        ensures { OnOk result (self.new ≡ self.old ++ Some placed ∷ []) }
    {
        let deprecation = BoxedDeprecation::new(alloc, placed)?;
        self.runs.push(EntryRun {
            active: self.active,
            deprecation,
        })?;
        self.active = 0;
        Ok(())
    }

    /// Whether no entry has a deprecation, as far as this is known without a look at each. The answer `true` is always
    /// right.
    pub(crate) fn are_none(&self) -> bool
        ensures { result ≡ true → list_all is_none self.now ≡ true }
    {
        self.runs.len() == 0
    }

    /// The deprecations as a list.
    ///
    /// # Errors
    /// Only that memory ran out.
    pub(crate) fn into_list(self, alloc: Global) -> Result<List<Option<BoxedDeprecation>>, Memory>
        ensures { IfOk result (λ all. all ≡ self) }
    {
        let PlacedDeprecations { runs, active } = self;
        let mut all = List::new(alloc);
        push_runs(&mut all, runs)?;
        push_none(&mut all, active)?;
        Ok(all)
    }
}
